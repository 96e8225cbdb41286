use super::*;
use std::alloc::Global;
use std::process::Abort;
use std::test::Fail;
use tree_model::{
    Boot, Bytes, Cut, DevFault, FileName, Fill, Fills, NoMemory, Place, Slot, TreeDisk,
};

const DEVICE: Place = Place::De(10);

const CREDENTIAL: Place = Place::Ce(10, Slot::Current);

const TEMPORARY: Place = Place::Temp(10);

#[test]
fn makes_each_call(rt: HostRuntime) -> Result<(), Fail> {
    let mut tree = MemTree::new(rt.alloc())?;
    build(&rt, &mut tree)?;
    assert!(rt; holds(&rt, &mut tree, Some(b"2"))?);
    assert_eq!(rt;
        tree.list(rt.alloc())?.as_slice(),
        [DEVICE, CREDENTIAL].as_slice()
    );
    assert_eq!(rt; [tree.len(), tree.calls(), tree.faults()], [2, 10, 0]);
    Ok(())
}

#[test]
fn fails_planned_calls(rt: HostRuntime) -> Result<(), Fail> {
    let mut tree = MemTree::new(rt.alloc())?;
    for nth in [1, 3, 3, u64::MAX] {
        tree.plan_fault(nth)?;
    }
    let planned = tree.planned_left();
    let made = [
        make(&rt, &mut tree, DEVICE),
        make(&rt, &mut tree, DEVICE),
        write(&rt, &mut tree, DEVICE, b"abc"),
    ];
    assert_eq!(rt;
        made,
        [Err(DevFault::Failed), Ok(()), Err(DevFault::Failed)]
    );
    tree.plan_fault(u64::MAX)?;
    assert!(rt; holds(&rt, &mut tree, Some(b""))?);
    assert_eq!(rt;
        [planned, tree.planned_left(), tree.calls(), tree.faults()],
        [3, 1, 4, 2]
    );
    Ok(())
}

#[test]
fn tears_the_writes_that_a_stop_keeps(rt: HostRuntime) -> Result<(), Fail> {
    for (keep, blob) in [
        (0, None),
        (1, Some(b"torn".as_slice())),
        (4294967295, Some(b"later".as_slice())),
    ] {
        let mut tree = MemTree::new(rt.alloc())?;
        write_twice(&rt, &mut tree)?;
        let fills = torn_first(rt.alloc())?;
        assert_eq!(rt; start_again(&mut tree, Cut { keep, fills }), Boot::Plain);
        assert!(rt; holds(&rt, &mut tree, blob)?, "at {keep}");
    }
    Ok(())
}

fn build(rt: &impl Abort, tree: &mut MemTree) -> Result<(), DevFault> {
    for place in [TEMPORARY, CREDENTIAL, DEVICE] {
        make(rt, tree, place)?;
    }
    write(rt, tree, TEMPORARY, b"1")?;
    write(rt, tree, TEMPORARY, b"2")?;
    tree.sync()?;
    remove(rt, tree, DEVICE)?;
    rename(rt, tree, TEMPORARY, DEVICE)
}

fn write_twice(rt: &impl Abort, tree: &mut MemTree) -> Result<(), DevFault> {
    make(rt, tree, DEVICE)?;
    tree.sync()?;
    write(rt, tree, DEVICE, b"whole")?;
    write(rt, tree, DEVICE, b"later")
}

fn make(rt: &impl Abort, tree: &mut MemTree, place: Place) -> Result<(), DevFault> {
    assert!(rt; !tree.has(place));
    tree.make_dir(place)
}

fn write(rt: &impl Abort, tree: &mut MemTree, place: Place, bytes: &[u8]) -> Result<(), DevFault> {
    assert!(rt; tree.has(place));
    tree.write(place, FileName::Blob, bytes)
}

fn rename(rt: &impl Abort, tree: &mut MemTree, from: Place, to: Place) -> Result<(), DevFault> {
    assert!(rt; tree.has(from));
    assert!(rt; !tree.has(to));
    tree.rename_dir(from, to)
}

fn remove(rt: &impl Abort, tree: &mut MemTree, place: Place) -> Result<(), DevFault> {
    assert!(rt; tree.has(place));
    tree.remove_dir(place)
}

fn start_again(tree: &mut MemTree, cut: Cut) -> Boot {
    tree.stop(cut);
    tree.restart()
}

/// The fill of one write.
fn torn_first(alloc: Global) -> Result<Fills, NoMemory> {
    let mut fills = Vec::new(alloc);
    fills.push(Fill::Bytes(Bytes::copy(alloc, b"torn")?))?;
    Ok(Fills::new(fills))
}

/// Whether the blob of the device key has these bytes, or isn't there.
fn holds<R: Abort + AllocGlobal>(
    rt: &R,
    tree: &mut MemTree,
    bytes: Option<&[u8]>,
) -> Result<bool, DevFault> {
    assert!(rt; tree.has(DEVICE));
    let dir = tree.read(rt.alloc(), DEVICE)?;
    Ok(match (dir.get(FileName::Blob), bytes) {
        (Some(found), Some(wanted)) => found.as_slice() == wanted,
        (found, wanted) => found.is_none() && wanted.is_none(),
    })
}
