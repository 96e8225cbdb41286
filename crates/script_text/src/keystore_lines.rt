//! Prints a keystore: its level, and each entry's name, level and tag.
ghost use Rattle.std.specs.Prelude.{◌≡◌, ◌++◌, OnOk, IfOk};
ghost use Rattle.script_text.specs.Keystore.{row_line, keystore_section};

use crate::appending::{push_line_feed, push_word};
use crate::shown::{Row, Shown, number, text_of_class};
use keystore_model::Tag;
use std::alloc::Global;
use tree_model::{Blob, Bytes, NoMemory};

/// What is printed of a keystore's entry.
#[derive(Clone, Copy)]
pub struct EntryRow {
    /// Its name.
    pub blob: Blob,
    /// The level of the keystore when the entry was made.
    pub level: u32,
    /// Whose key it serves.
    pub tag: Tag,
}

/// A keystore as text: a line with its level and the number of its entries, then one line for each.
pub fn print_keystore(alloc: Global, level: u32, entries: &[EntryRow]) -> Result<Bytes, NoMemory>
    ensures { IfOk result (λ text. text ≡ keystore_section level entries.now) }
{
    let mut out = Vec::new(alloc);
    let count = Shown::Number(entries.len() as u64);
    Row::two(b"keystore", number(level), count).push(alloc, &mut out)?;
    push_line_feed(&mut out)?;
    for row in entries {
        push_row(alloc, &mut out, row)?;
    }
    Ok(Bytes::from_vec(out))
}

fn push_row(alloc: Global, out: &mut Vec<u8>, row: &EntryRow) -> Result<(), NoMemory>
    ensures { OnOk result (out.new.items ≡ out.old.items ++ row_line row.now) }
{
    let blob = row.blob.bytes();
    let (level, user) = (number(row.level), number(row.tag.user));
    Row::three(b"entry", Shown::Bytes(&blob), level, user).push(alloc, out)?;
    push_word(out, text_of_class(row.tag.class))?;
    push_line_feed(out)
}
