//! How a task begins, and how it ends with no slot to try.

use super::*;
use journal_model::Secret;
use std::alloc::Global;
use std::test::Fail;
use tree_model::{NoMemory, Slot};

/// A task under the empty secret, with these slots to try.
fn begun(alloc: Global, slots: Vec<Slot>) -> OpenTask {
    OpenTask::new(10, slots, Secret::empty(alloc), 7)
}

/// The slot whose directory the task reads next, if it reads one.
fn read_next(alloc: Global, task: &OpenTask) -> Result<Option<Slot>, NoMemory> {
    match task.next(alloc)? {
        Some(Doing::Read(slot)) => Ok(Some(slot)),
        _ => Ok(None),
    }
}

#[test]
fn reads_the_first_slot(rt: HostRuntime) -> Result<(), Fail> {
    let alloc = rt.alloc();
    let slots = vec![in alloc; Slot::Cx(1), Slot::Current]?;
    let task = begun(alloc, slots);
    assert_eq!(rt; task.user(), 10);
    assert_eq!(rt; read_next(alloc, &task)?, Some(Slot::Cx(1)));
    Ok(())
}

#[test]
fn ends_where_no_slot_is_left(rt: HostRuntime) -> Result<(), Fail> {
    let alloc = rt.alloc();
    let task = begun(alloc, Vec::new(alloc));
    assert!(rt; task.next(alloc)?.is_none());
    assert!(rt; task.key().is_none());
    Ok(())
}
