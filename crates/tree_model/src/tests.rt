use crate::{Bytes, Cut, Dir, FileName, Fill, Fills, Place, Slot};
use std::test::Fail;

const PLACES: [Place; 10] = [
    Place::De(0),
    Place::De(10),
    Place::De(4294967295),
    Place::Ce(0, Slot::Current),
    Place::Ce(0, Slot::Cx(4294967295)),
    Place::Ce(10, Slot::Current),
    Place::Ce(10, Slot::Cx(0)),
    Place::Ce(10, Slot::Cx(1)),
    Place::Temp(0),
    Place::Temp(10),
];

const FILE_NAMES: [FileName; 8] = [
    FileName::Version,
    FileName::EncryptedKey,
    FileName::Blob,
    FileName::BlobUpgraded,
    FileName::BlobNew,
    FileName::Discard,
    FileName::Stretching,
    FileName::Salt,
];

#[test]
fn orders_places_and_file_names(rt: HostRuntime) -> Result<(), Fail> {
    for i in 0..10 {
        for j in 0..10 {
            assert_eq!(rt; PLACES[i].cmp(&PLACES[j]), i.cmp(&j), "places {i} and {j}");
        }
    }
    for i in 0..8 {
        for j in 0..8 {
            assert_eq!(rt;
                FILE_NAMES[i].cmp(&FILE_NAMES[j]),
                i.cmp(&j),
                "files {i} and {j}"
            );
        }
    }
    Ok(())
}

#[test]
fn keeps_the_files_of_a_directory(rt: HostRuntime) -> Result<(), Fail> {
    let alloc = rt.alloc();
    let mut dir = Dir::new();
    for (file, bytes, names) in [
        (
            FileName::Salt,
            [7u8, 0].as_slice(),
            [FileName::Salt].as_slice(),
        ),
        (
            FileName::Version,
            &[49],
            &[FileName::Version, FileName::Salt],
        ),
        (FileName::Salt, &[], &[FileName::Version, FileName::Salt]),
        (
            FileName::Blob,
            &[255],
            &[FileName::Version, FileName::Blob, FileName::Salt],
        ),
    ] {
        dir.put(file, Bytes::copy(alloc, bytes)?)?;
        assert_eq!(rt; dir.names(), names);
        assert_eq!(rt; dir.get(file).map(|held| held.as_slice()), Some(bytes));
    }

    let copied = dir.duplicate(alloc)?;
    let taken = dir.take(FileName::Version);
    assert_eq!(rt;
        taken.as_ref().map(|held| held.as_slice()),
        Some([49u8].as_slice())
    );
    assert!(rt; dir.take(FileName::Version).is_none());
    assert!(rt; dir.get(FileName::Version).is_none());
    assert_eq!(rt; dir.names(), [FileName::Blob, FileName::Salt].as_slice());
    assert_eq!(rt; copied.names().len(), 3);
    Ok(())
}

#[test]
fn copies_bytes_and_cuts(rt: HostRuntime) -> Result<(), Fail> {
    let alloc = rt.alloc();
    for bytes in [[].as_slice(), &[0u8], &[1, 2, 255]] {
        let copied = Bytes::copy(alloc, bytes)?;
        assert_eq!(rt; copied.as_slice(), bytes);
        let taken_over = Bytes::from_vec(Vec::from_slice(alloc, bytes)?);
        assert_eq!(rt; taken_over.as_slice(), bytes);

        let mut fills = Vec::new(alloc);
        fills.push(Fill::Same)?;
        fills.push(Fill::Bytes(copied))?;
        let cut = Cut {
            keep: 3,
            fills: Fills::new(fills),
        };
        let cut = cut.duplicate(alloc)?;
        assert_eq!(rt; cut.keep, 3);
        let fills = cut.fills.into_vec();
        assert_eq!(rt; fills.len(), 2);
        match (&fills[0], &fills[1]) {
            (Fill::Same, Fill::Bytes(held)) => assert_eq!(rt; held.as_slice(), bytes),
            _ => assert!(rt; false),
        }
    }
    Ok(())
}
