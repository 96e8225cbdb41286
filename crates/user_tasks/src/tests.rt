//! How each command begins, and where a fixate syncs.

use super::*;
use journal_model::{Birth, Command, Reply, Secret};
use std::alloc::Global;
use std::test::Fail;
use task_turns::{Call, Next};
use tree_model::{Class, LocalOp, NoMemory, Place, Site, Slot};
use user_world::LocalChange;

/// What the command does first, with these slots of the user's, all of them to try, the first one the newest.
fn begun(alloc: Global, command: &Command, slots: Vec<Slot>) -> Result<Option<UserTask>, NoMemory> {
    let known = Known {
        to_try: Vec::from_slice(alloc, slots.as_slice())?,
        newest: slots.first().copied().unwrap_or(Slot::Current),
        next: Slot::Cx(9),
        has_ce: false,
        has_de: true,
        has_temp: false,
        slots,
    };
    let birth = Birth { boot: 1, index: 2 };
    first(alloc, command, 7, birth, &[3; 32], known)
}

/// A turn that is told that this is in the way, and no more.
fn finding(in_the_way: Option<Site>) -> Looks {
    Looks {
        in_the_way,
        durable: false,
        due: None,
    }
}

/// Whether the task removes the temporary directory, where one is in its way.
fn removes_what_is_there(alloc: Global, task: &UserTask) -> Result<bool, NoMemory> {
    let next = task.next(alloc, finding(Some(Site::Temp)))?;
    Ok(matches!(
        &next,
        Next::Call {
            call: Call::Op {
                op: LocalOp::RemoveDir(Site::Temp),
                ..
            },
            ..
        }
    ))
}

/// Whether the task asks for a job, where nothing is in its way.
fn asks_for_a_job(alloc: Global, task: &UserTask) -> Result<bool, NoMemory> {
    Ok(matches!(task.next(alloc, finding(None))?, Next::Work(_)))
}

/// Whether the task reads this slot of the user's.
fn reads_the_slot(alloc: Global, task: &UserTask, slot: Slot) -> Result<bool, NoMemory> {
    match task.next(alloc, finding(None))? {
        Next::Call {
            call: Call::Read(place),
            ..
        } => Ok(place == Place::Ce(10, slot)),
        _ => Ok(false),
    }
}

#[test]
fn create_begins_with_a_job(rt: HostRuntime) -> Result<(), Fail> {
    let alloc = rt.alloc();
    let command = Command::Create { user: 10 };
    let task = begun(alloc, &command, Vec::new(alloc))?.ok_or("no task")?;
    assert_eq!(rt; task.user(), 10);
    assert!(rt; removes_what_is_there(alloc, &task)?);
    assert!(rt; asks_for_a_job(alloc, &task)?);
    Ok(())
}

#[test]
fn unlock_begins_with_the_first_slot(rt: HostRuntime) -> Result<(), Fail> {
    let alloc = rt.alloc();
    let command = Command::Unlock {
        user: 10,
        secret: Secret::empty(alloc),
    };
    let slots = vec![in alloc; Slot::Current]?;
    let task = begun(alloc, &command, slots)?.ok_or("no task")?;
    assert!(rt; reads_the_slot(alloc, &task, Slot::Current)?);
    Ok(())
}

/// A protect of the user's.
fn protect(alloc: Global) -> Command {
    Command::Protect {
        user: 10,
        known: Secret::empty(alloc),
        fresh: Secret::empty(alloc),
    }
}

#[test]
fn protect_begins_with_the_newest_slot(rt: HostRuntime) -> Result<(), Fail> {
    let alloc = rt.alloc();
    let slots = vec![in alloc; Slot::Cx(3), Slot::Current]?;
    let task = begun(alloc, &protect(alloc), slots)?.ok_or("no task")?;
    assert_eq!(rt; task.user(), 10);
    assert!(rt; reads_the_slot(alloc, &task, Slot::Cx(3))?);
    Ok(())
}

#[test]
fn protect_without_a_slot_has_a_wrong_secret(rt: HostRuntime) -> Result<(), Fail> {
    let alloc = rt.alloc();
    let task = begun(alloc, &protect(alloc), Vec::new(alloc))?.ok_or("no task")?;
    assert!(rt;
        matches!(
            task.next(alloc, finding(None))?,
            Next::Reply(Reply::WrongSecret)
        )
    );
    Ok(())
}

#[test]
fn fixate_drops_an_older_slot(rt: HostRuntime) -> Result<(), Fail> {
    let alloc = rt.alloc();
    let command = Command::Fixate { user: 10 };
    let slots = vec![in alloc; Slot::Cx(3), Slot::Current]?;
    let task = begun(alloc, &command, slots)?.ok_or("no task")?;
    assert_eq!(rt; task.user(), 10);
    let next = task.next(alloc, finding(None))?;
    assert!(rt;
        matches!(
            &next,
            Next::Call {
                call: Call::Op {
                    op: LocalOp::RemoveDir(Site::Ce(Slot::Current)),
                    ..
                },
                change: Some(LocalChange::Dropped {
                    slot: Slot::Current,
                }),
            }
        )
    );
    Ok(())
}

/// Whether the fixate syncs next, where every change of the user's is durable.
fn syncs_though_durable(fixate: &Fixate) -> bool {
    let looks = Looks {
        in_the_way: None,
        durable: true,
        due: None,
    };
    let next = fixate.next(looks);
    matches!(
        &next,
        Next::Call {
            call: Call::Sync,
            ..
        }
    )
}

#[test]
fn fixate_syncs_behind_its_own_change(rt: HostRuntime) -> Result<(), Fail> {
    let alloc = rt.alloc();
    let slots = vec![in alloc; Slot::Cx(3), Slot::Current]?;
    let mut fixate = Fixate::first(10, slots, Slot::Cx(3));
    fixate.heard();
    fixate.heard();
    assert!(rt; syncs_though_durable(&fixate));
    Ok(())
}

#[test]
fn fixate_without_a_change_needs_no_sync(rt: HostRuntime) -> Result<(), Fail> {
    let slots = vec![in rt.alloc(); Slot::Current]?;
    let fixate = Fixate::first(10, slots, Slot::Current);
    assert!(rt; !syncs_though_durable(&fixate));
    Ok(())
}

#[test]
fn destroy_takes_the_device_key_out_first(rt: HostRuntime) -> Result<(), Fail> {
    let alloc = rt.alloc();
    let command = Command::Destroy { user: 10 };
    let slots = vec![in alloc; Slot::Current]?;
    let task = begun(alloc, &command, slots)?.ok_or("no task")?;
    assert_eq!(rt; task.user(), 10);
    let next = task.next(alloc, finding(None))?;
    assert!(rt;
        matches!(
            &next,
            Next::Call {
                call: Call::Remove {
                    user: 10,
                    class: Class::De,
                },
                ..
            }
        )
    );
    Ok(())
}

#[test]
fn recovery_is_no_users_task(rt: HostRuntime) -> Result<(), Fail> {
    let alloc = rt.alloc();
    assert!(rt; begun(alloc, &Command::Recover, Vec::new(alloc))?.is_none());
    Ok(())
}
