//! A task from its beginning to its end.

use super::*;
use std::test::Fail;
use tree_model::Slot;

/// What the task does next, which is done then.
fn done(task: &mut FixateTask) -> Option<Doing> {
    let next = task.next();
    task.heard();
    next
}

#[test]
fn drops_all_but_the_kept_slot(rt: HostRuntime) -> Result<(), Fail> {
    let slots = vec![in rt.alloc(); Slot::Current, Slot::Cx(0), Slot::Cx(1)]?;
    let mut task = FixateTask::new(slots, Slot::Cx(0));
    assert_eq!(rt; done(&mut task), Some(Doing::Drop(Slot::Current)));
    assert_eq!(rt; done(&mut task), Some(Doing::Drop(Slot::Cx(1))));
    assert!(rt; !task.has_ended());
    assert_eq!(rt; done(&mut task), Some(Doing::Settle(Slot::Cx(0))));
    assert!(rt; task.has_ended());
    assert_eq!(rt; task.next(), None);
    Ok(())
}
