//! Prints a tree: each directory with its files.
ghost use Rattle.std.specs.Prelude.{◌≡◌, [], ◌∷◌, ◌++◌, OnOk, IfOk};
ghost use Rattle.std.specs.List.{flat_map};
ghost use Rattle.std.specs.FinMap as map;
ghost use Rattle.script_text.specs.Words.{spaced};
ghost use Rattle.script_text.specs.Tree.{place_word, file_word, file_line, dir_text, tries_words};
ghost use Rattle.script_text.specs.Tree.{hash_word, content_word, tree_section};

use crate::appending::{push_bytes, push_decimal, push_line_feed, push_text};
use crate::shown::{Row, Shown, number};
use crate::slots::push_slot;
use sha2::{Digest, Sha512};
use std::alloc::Global;
use tree_model::{Bytes, Dir, FileName, NoMemory, Place};

/// The most bytes of a file that are printed themselves.
const MOST_PRINTED: usize = 128;

/// Directories as text: a line with the first word, their number and where it is given that of the tries, then each
/// directory with its files.
pub fn print_tree(
    alloc: Global,
    first: &[u8],
    dirs: &[(Place, Dir)],
    tries: Option<u32>,
) -> Result<Bytes, NoMemory>
    ensures { IfOk result (λ text. text ≡ tree_section first.now dirs.now tries) }
{
    let mut out = Vec::new(alloc);
    let count = Shown::Number(dirs.len() as u64);
    Row::one(first, count).push(alloc, &mut out)?;
    push_tries(alloc, &mut out, tries)?;
    push_line_feed(&mut out)?;
    for dir in dirs {
        push_dir(alloc, &mut out, dir.0, &dir.1)?;
    }
    Ok(Bytes::from_vec(out))
}

fn push_tries(alloc: Global, out: &mut Vec<u8>, tries: Option<u32>) -> Result<(), NoMemory>
    ensures { OnOk result (out.new.items ≡ out.old.items ++ spaced (tries_words tries)) }
{
    match tries {
        None => Ok(()),
        Some(tries) => Row::one(b"checkpoint", number(tries)).push_behind(alloc, out),
    }
}

fn push_dir(alloc: Global, out: &mut Vec<u8>, place: Place, dir: &Dir) -> Result<(), NoMemory>
    ensures { OnOk result (out.new.items ≡ out.old.items ++ dir_text (place, dir.now)) }
{
    push_text(out, b"dir ")?;
    push_place(alloc, out, place)?;
    push_line_feed(out)?;
    push_files(alloc, out, dir)
}

fn push_files(alloc: Global, out: &mut Vec<u8>, dir: &Dir) -> Result<(), NoMemory>
    ensures { OnOk result (out.new.items ≡ out.old.items ++ flat_map file_line (map.entries dir.now)) }
{
    for name in dir.names() {
        if let Some(bytes) = dir.get(*name) {
            push_file(alloc, out, *name, bytes.as_slice())?;
        }
    }
    Ok(())
}

fn push_file(alloc: Global, out: &mut Vec<u8>, name: FileName, bytes: &[u8]) -> Result<(), NoMemory>
    ensures { OnOk result (out.new.items ≡ out.old.items ++ file_line (name, bytes.now)) }
{
    let name = Shown::Text(text_of_name(name));
    let count = Shown::Number(bytes.len() as u64);
    Row::two(b"file", name, count).push(alloc, out)?;
    push_content(alloc, out, bytes)?;
    push_line_feed(out)
}

/// Adds a space and a file's bytes, or the hash of many.
fn push_content(alloc: Global, out: &mut Vec<u8>, bytes: &[u8]) -> Result<(), NoMemory>
    ensures { OnOk result (out.new.items ≡ out.old.items ++ 32 ∷ content_word bytes.now) }
{
    if bytes.len() > MOST_PRINTED {
        return push_hash(alloc, out, bytes);
    }
    push_bytes(alloc, out, bytes)
}

/// Adds a space and the hash of bytes.
fn push_hash(alloc: Global, out: &mut Vec<u8>, bytes: &[u8]) -> Result<(), NoMemory>
    ensures { OnOk result (out.new.items ≡ out.old.items ++ 32 ∷ hash_word bytes.now) }
{
    let hash = Sha512::digest(bytes);
    let digits = hex::encode(alloc, &hash[..8])?;
    push_text(out, b" #")?;
    push_text(out, digits.as_bytes())
}

fn text_of_name(name: FileName) -> &'static [u8]
    ensures { result.now ≡ file_word name }
{
    match name {
        FileName::Version => b"version",
        FileName::EncryptedKey => b"encrypted_key",
        FileName::Blob => b"keymaster_key_blob",
        FileName::BlobUpgraded => b"keymaster_key_blob_upgraded",
        FileName::BlobNew => b"keymaster_key_blob_new",
        FileName::Discard => b"secdiscardable",
        FileName::Stretching => b"stretching",
        FileName::Salt => b"salt",
    }
}

fn push_place(alloc: Global, out: &mut Vec<u8>, place: Place) -> Result<(), NoMemory>
    ensures { OnOk result (out.new.items ≡ out.old.items ++ place_word place) }
{
    match place {
        Place::De(user) => {
            push_text(out, b"de/")?;
            push_decimal(alloc, out, u64::from(user))
        }
        Place::Ce(user, slot) => {
            push_text(out, b"ce/")?;
            push_decimal(alloc, out, u64::from(user))?;
            push_text(out, b"/")?;
            push_slot(alloc, out, slot)
        }
        Place::Temp(user) => {
            push_text(out, b"tmp/")?;
            push_decimal(alloc, out, u64::from(user))
        }
    }
}
