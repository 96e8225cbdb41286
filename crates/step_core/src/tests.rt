use crate::{Job, JobInput, Table};
use journal_model::Secret;
use std::test::Fail;
use tree_model::{Blob, Bytes, Place, Slot};

#[test]
fn copies_jobs(rt: HostRuntime) -> Result<(), Fail> {
    let alloc = rt.alloc();
    let job = Job {
        number: 7,
        input: JobInput::Unseal {
            discard: Bytes::copy(alloc, &[1, 2])?,
            secret: Secret::empty(alloc),
            sealed: Bytes::copy(alloc, &[3])?,
        },
    };
    let copied = job.duplicate(alloc)?;
    assert_eq!(rt; copied.number, 7);
    match &copied.input {
        JobInput::Unseal { sealed, .. } => assert_eq!(rt; sealed.as_slice(), [3].as_slice()),
        _ => assert!(rt; false),
    }
    Ok(())
}

#[test]
fn keeps_places_and_marks(rt: HostRuntime) -> Result<(), Fail> {
    let mut table = Table::new(rt.alloc());
    assert!(rt; !table.dirty());
    table.reserve(3)?;
    let current = Place::Ce(9, Slot::Current);
    table.put(Place::Temp(9), None);
    table.put(Place::De(9), Some(Blob::new([1; 32])));
    table.put(current, Some(Blob::new([2; 32])));
    assert_eq!(rt;
        table.places(),
        [Place::De(9), current, Place::Temp(9)].as_slice()
    );
    assert!(rt; table.has(Place::De(9)));
    table.mark(9);
    assert!(rt; table.marked(9));

    table.put(Place::De(9), Some(Blob::new([3; 32])));
    assert!(rt; table.marked(9));
    assert!(rt; table.named(Place::De(9)) == Some(Blob::new([3; 32])));
    assert!(rt; table.named(Place::Temp(9)).is_none());
    table.forget(Place::Temp(9));
    assert!(rt; !table.has(Place::Temp(9)));
    table.unmark_all();
    assert!(rt; !table.marked(9));
    assert_eq!(rt; table.places(), [Place::De(9), current].as_slice());
    table.set_dirty(true);
    table.clear();
    assert_eq!(rt; table.places().len(), 0);
    assert!(rt; table.dirty());
    Ok(())
}
