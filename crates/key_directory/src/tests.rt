use crate::{DirShape, ShapeFault, named, shape};
use std::alloc::Global;
use std::test::Fail;
use tree_model::{Blob, Bytes, Dir, FileName, NoMemory};

/// The files of a directory that is bound to a blob of ones.
fn bound_directory(alloc: Global) -> Result<Dir, NoMemory> {
    let mut dir = Dir::new();
    dir.put(FileName::Version, Bytes::copy(alloc, b"1")?)?;
    dir.put(FileName::EncryptedKey, Bytes::copy(alloc, &[7; 92])?)?;
    dir.put(FileName::Blob, Bytes::copy(alloc, &[1; 32])?)?;
    dir.put(FileName::Discard, Bytes::copy(alloc, &[9; 16384])?)?;
    Ok(dir)
}

#[test]
fn shapes_of_directories(rt: HostRuntime) -> Result<(), Fail> {
    let mut dir = bound_directory(rt.alloc())?;
    assert!(rt;
        matches!(
            shape(rt.alloc(), &dir),
            Ok(DirShape::Bound {
                upgraded: false,
                has_new: false,
                ..
            })
        )
    );
    assert!(rt; named(&dir) == Some(Blob::new([1; 32])));
    dir.put(FileName::BlobUpgraded, Bytes::copy(rt.alloc(), &[2; 32])?)?;
    dir.put(FileName::BlobNew, Bytes::copy(rt.alloc(), &[3])?)?;
    assert!(rt;
        matches!(
            shape(rt.alloc(), &dir),
            Ok(DirShape::Bound {
                upgraded: true,
                has_new: true,
                ..
            })
        )
    );
    assert!(rt; named(&dir) == Some(Blob::new([2; 32])));
    Ok(())
}

#[test]
fn shapes_without_a_blob(rt: HostRuntime) -> Result<(), Fail> {
    let mut dir = bound_directory(rt.alloc())?;
    dir.take(FileName::Blob);
    assert!(rt; matches!(shape(rt.alloc(), &dir), Ok(DirShape::Secret)));
    dir.put(FileName::BlobNew, Bytes::copy(rt.alloc(), &[3])?)?;
    assert!(rt;
        matches!(
            shape(rt.alloc(), &dir),
            Err(ShapeFault::Extra(FileName::BlobNew))
        )
    );
    dir.put(FileName::BlobUpgraded, Bytes::copy(rt.alloc(), &[2; 32])?)?;
    assert!(rt;
        matches!(
            shape(rt.alloc(), &dir),
            Err(ShapeFault::Extra(FileName::BlobUpgraded))
        )
    );
    Ok(())
}

#[test]
fn faults_of_directories(rt: HostRuntime) -> Result<(), Fail> {
    let mut dir = bound_directory(rt.alloc())?;
    dir.put(FileName::Salt, Bytes::copy(rt.alloc(), &[])?)?;
    assert!(rt;
        matches!(
            shape(rt.alloc(), &dir),
            Err(ShapeFault::Extra(FileName::Salt))
        )
    );
    dir.put(FileName::Blob, Bytes::copy(rt.alloc(), &[1; 31])?)?;
    assert!(rt;
        matches!(
            shape(rt.alloc(), &dir),
            Err(ShapeFault::Length(FileName::Blob, 31))
        )
    );
    dir.take(FileName::Discard);
    assert!(rt;
        matches!(
            shape(rt.alloc(), &dir),
            Err(ShapeFault::Missing(FileName::Discard))
        )
    );
    dir.put(FileName::Version, Bytes::copy(rt.alloc(), b"2")?)?;
    let other = shape(rt.alloc(), &dir);
    assert!(rt;
        matches!(&other, Err(ShapeFault::OtherVersion(bytes)) if bytes.as_slice() == b"2".as_slice())
    );
    assert!(rt; matches!(shape(rt.alloc(), &Dir::new()), Err(ShapeFault::NoVersion)));
    Ok(())
}
