//! The names of keys by another program's SHA-512, and each call of a ring.

use super::*;
use std::test::Fail;
use tree_model::{Class, DevFault};

const FIRST: [u8; 64] = [1; 64];

const SECOND: [u8; 64] = [2; 64];

const THIRD: [u8; 64] = [3; 64];

#[test]
fn names_keys(rt: HostRuntime) -> Result<(), Fail> {
    let mut counting = [0; 64];
    for i in 0..64u8 {
        counting[i as usize] = i;
    }
    assert_eq!(rt; key_ref(&[0; 64]), *b"\xf5\x74\xa7\x74\x64\x01\x73\x11");
    assert_eq!(rt; key_ref(&counting), *b"\x04\x33\x4e\x23\x05\x7a\x6e\x2d");
    Ok(())
}

#[test]
fn keeps_keys_in_order(rt: HostRuntime) -> Result<(), Fail> {
    let mut ring = MemRing::new(rt.alloc())?;
    ring.add(rt.alloc(), 10, Class::Ce, &FIRST)?;
    ring.add(rt.alloc(), 0, Class::De, &FIRST)?;
    ring.add(rt.alloc(), 10, Class::De, &SECOND)?;
    ring.add(rt.alloc(), 10, Class::Ce, &THIRD)?;
    ring.remove(0, Class::De)?;
    ring.remove(0, Class::Ce)?;
    let owners = [0, 1, 2].map(|place| ring.at(place));
    let order = [Some((10, Class::Ce)), Some((10, Class::De)), None];
    assert_eq!(rt; owners, order);
    let keys = [
        (10, Class::Ce, Some(THIRD)),
        (10, Class::De, Some(SECOND)),
        (0, Class::De, None),
    ];
    for (user, class, key) in keys {
        assert!(rt; ring.get(user, class).copied() == key, "of {user}");
    }
    assert_eq!(rt; ring.len(), 2);
    ring.clear();
    assert_eq!(rt; ring.len(), 0);
    assert_eq!(rt; [ring.calls(), ring.faults()], [6, 0]);
    Ok(())
}

#[test]
fn fails_planned_calls(rt: HostRuntime) -> Result<(), Fail> {
    let mut ring = MemRing::new(rt.alloc())?;
    for nth in [2, 3, u64::MAX] {
        ring.plan_fault(nth)?;
    }
    let planned = ring.planned_left();
    ring.add(rt.alloc(), 10, Class::Ce, &FIRST)?;
    let added = ring.add(rt.alloc(), 10, Class::De, &SECOND);
    assert_eq!(rt; added, Err(DevFault::Failed));
    assert_eq!(rt; ring.remove(10, Class::Ce), Err(DevFault::Failed));
    assert_eq!(rt; [ring.at(0), ring.at(1)], [Some((10, Class::Ce)), None]);
    let counts = [planned, ring.planned_left(), ring.calls(), ring.faults()];
    assert_eq!(rt; counts, [3, 1, 3, 2]);
    Ok(())
}
