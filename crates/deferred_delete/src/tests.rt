use crate::Deferred;
use std::test::Fail;
use tree_model::Blob;

#[test]
fn lists_notes_a_sync_and_takes(rt: HostRuntime) -> Result<(), Fail> {
    let mut list = Deferred::new(rt.alloc());
    list.reserve(3)?;
    list.push(Blob::new([7; 32]), false);
    list.push(Blob::new([8; 32]), true);
    list.give_back(1);
    assert_eq!(rt; list.len(), 2);
    assert_eq!(rt; list.next_number(), 2);
    for (at, number, byte, synced) in [(0, 0, 7, false), (1, 1, 8, true)] {
        let item = &list.items()[at];
        assert_eq!(rt; item.number, number);
        assert!(rt; item.blob == Blob::new([byte; 32]));
        assert_eq!(rt; item.synced, synced);
    }

    for (active, from, due) in [(false, 0, Some(1)), (false, 2, None), (true, 0, None)] {
        assert_eq!(rt; list.due(active, from).map(|item| item.number), due);
    }

    list.note_sync();
    assert!(rt; list.items()[0].synced);
    list.take(0);
    assert_eq!(rt; list.len(), 1);
    assert_eq!(rt; list.items()[0].number, 1);
    list.clear();
    assert_eq!(rt; list.len(), 0);
    assert_eq!(rt; list.next_number(), 2);
    Ok(())
}
