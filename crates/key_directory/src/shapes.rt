ghost use Rattle.std.specs.FinMap as map;
ghost use Rattle.std.specs.Prelude.{◌≡◌, ◌⊎◌, IsErrOf, Some};
ghost use Rattle.tree_model.specs.declared.files.FileName.TheVariants.{Version};
ghost use Rattle.tree_model.specs.Held.{held_in, blob_in};
ghost use Rattle.key_directory.specs.declared.shapes.ShapeFault.TheVariants.{NoMemory as WantsMemory};
ghost use Rattle.key_directory.specs.Opened.{fits_secret};
ghost use Rattle.key_directory.specs.Opens.{bytes_at};
ghost use Rattle.key_directory.specs.Shape.{IsShapeOf, IsTested, version_fault, missing, length_fault, unbound};
ghost use Rattle.key_directory.specs.Shape.{extra, form_of, sized};

use std::alloc::Global;
use tree_model::{Blob, Bytes, Dir, FileName, NoMemory};

/// What a sealed directory is: bound to an entry of the keystore, or sealed by a secret alone.
#[derive(Drop)]
pub enum DirShape {
    /// It names this blob; whether it has one that came by an upgrade, and whether it has one that isn't settled yet.
    Bound {
        blob: Blob,
        upgraded: bool,
        has_new: bool,
    },
    Secret,
}

/// Why a directory has no shape.
#[derive(Drop)]
pub enum ShapeFault {
    /// It has no file `version`.
    NoVersion,
    /// Its version is another one, of these bytes.
    OtherVersion(Bytes),
    /// A file isn't there that each directory has.
    Missing(FileName),
    /// A file has this length, in bytes, and not its own.
    Length(FileName, u64),
    /// A file is there that doesn't belong there.
    Extra(FileName),
    /// Memory was missing for the answer.
    NoMemory,
}

impl From<NoMemory> for ShapeFault {
    ghost use Rattle.std.specs.Prelude.{◌≡◌};
    ghost use Rattle.key_directory.specs.declared.shapes.ShapeFault.TheVariants.{NoMemory as WantsMemory};

    ghost from_gives = { λ _ fault. fault ≡ WantsMemory };

    fn from(_want: NoMemory) -> ShapeFault {
        ShapeFault::NoMemory
    }
}

/// What the file `version` holds.
const VERSION: [u8; 1] = *b"1";

/// The shape of a directory, by its files; the first test that fails where one does.
pub fn shape(alloc: Global, dir: &Dir) -> Result<DirShape, ShapeFault>
    ensures { IsShapeOf (held_in dir.now) result }
{
    check_version(alloc, dir)?;
    check_there(dir, FileName::EncryptedKey)?;
    check_there(dir, FileName::Discard)?;
    check_length(dir, FileName::EncryptedKey, 92)?;
    check_length(dir, FileName::Discard, 16384)?;
    check_length(dir, FileName::Blob, 32)?;
    check_length(dir, FileName::BlobUpgraded, 32)?;
    check_bound(dir, FileName::BlobUpgraded)?;
    check_bound(dir, FileName::BlobNew)?;
    check_absent(dir, FileName::Stretching)?;
    check_absent(dir, FileName::Salt)?;
    Ok(form(dir))
}

fn check_version(alloc: Global, dir: &Dir) -> Result<(), ShapeFault>
    ensures { IsErrOf result WantsMemory ⊎ IsTested (version_fault (held_in dir.now Version)) result }
{
    let Some(version) = dir.get(FileName::Version) else {
        return Err(ShapeFault::NoVersion);
    };
    if version.as_slice() == VERSION.as_slice() {
        return Ok(());
    }
    let copy = Bytes::copy(alloc, version.as_slice())?;
    Err(ShapeFault::OtherVersion(copy))
}

fn check_there(dir: &Dir, file: FileName) -> Result<(), ShapeFault>
    ensures { IsTested (missing (held_in dir.now) file) result }
{
    match dir.get(file) {
        Some(_) => Ok(()),
        None => Err(ShapeFault::Missing(file)),
    }
}

fn check_length(dir: &Dir, file: FileName, count: usize) -> Result<(), ShapeFault>
    ensures { IsTested (length_fault file count (held_in dir.now file)) result }
{
    match dir.get(file) {
        Some(bytes) if bytes.as_slice().len() != count => {
            Err(ShapeFault::Length(file, bytes.as_slice().len() as u64))
        }
        _ => Ok(()),
    }
}

fn check_bound(dir: &Dir, file: FileName) -> Result<(), ShapeFault>
    ensures { IsTested (unbound (held_in dir.now) file) result }
{
    if dir.get(FileName::Blob).is_none() && dir.get(file).is_some() {
        return Err(ShapeFault::Extra(file));
    }
    Ok(())
}

fn check_absent(dir: &Dir, file: FileName) -> Result<(), ShapeFault>
    ensures { IsTested (extra (held_in dir.now) file) result }
{
    match dir.get(file) {
        Some(_) => Err(ShapeFault::Extra(file)),
        None => Ok(()),
    }
}

/// The blob that the directory names, where it is one of 32 bytes.
pub fn named(dir: &Dir) -> Option<Blob>
    ensures { result ≡ sized (blob_in (held_in dir.now)) }
{
    let file = match dir.get(FileName::BlobUpgraded) {
        Some(bytes) => Some(bytes),
        None => dir.get(FileName::Blob),
    };
    blob_of(file?.as_slice())
}

/// Whether a directory that names this may open with the secret.
pub fn fits_secret(named: Option<Blob>, secret: &[u8]) -> bool
    ensures { result ≡ fits_secret named secret.now }
{
    named.is_some() == secret.is_empty()
}

/// The bytes of a file, or none where the directory hasn't got it.
pub fn bytes_in(dir: &Dir, file: FileName) -> &[u8]
    ensures { result.now ≡ bytes_at (held_in dir.now file) }
{
    match dir.get(file) {
        Some(bytes) => bytes.as_slice(),
        None => &[],
    }
}

/// The blob of these bytes, where they are 32.
fn blob_of(bytes: &[u8]) -> Option<Blob>
    ensures { result ≡ sized (Some bytes.now) }
{
    if bytes.len() != 32 {
        return None;
    }
    let mut blob = [0; 32];
    blob.copy_from_slice(bytes);
    Some(Blob::new(blob))
}

/// What a directory is that passed every test.
fn form(dir: &Dir) -> DirShape
    requires { sized (blob_in (held_in dir.now)) ≡ blob_in (held_in dir.now) }
    ensures { result ≡ form_of (held_in dir.now) }
{
    match named(dir) {
        Some(blob) => DirShape::Bound {
            blob,
            upgraded: dir.get(FileName::BlobUpgraded).is_some(),
            has_new: dir.get(FileName::BlobNew).is_some(),
        },
        None => DirShape::Secret,
    }
}
