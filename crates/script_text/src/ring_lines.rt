//! Prints a key ring: each key's user, class and reference.
ghost use Rattle.std.specs.Prelude.{◌≡◌, ◌++◌, OnOk, IfOk};
ghost use Rattle.script_text.specs.Ring.{key_line, ring_section};

use crate::appending::push_line_feed;
use crate::shown::{Row, Shown, number, text_of_class};
use std::alloc::Global;
use tree_model::{Bytes, Class, NoMemory};

/// What is printed of an installed key.
#[derive(Clone, Copy)]
pub struct KeyRow {
    /// Whose it is.
    pub user: u32,
    /// Which of the user's two keys.
    pub class: Class,
    /// The name by which a file system finds it.
    pub reference: [u8; 8],
}

/// A key ring as text: a line with the number of its keys, then one line for each.
pub fn print_ring(alloc: Global, keys: &[KeyRow]) -> Result<Bytes, NoMemory>
    ensures { IfOk result (λ text. text ≡ ring_section keys.now) }
{
    let mut out = Vec::new(alloc);
    let count = Shown::Number(keys.len() as u64);
    Row::one(b"ring", count).push(alloc, &mut out)?;
    push_line_feed(&mut out)?;
    for row in keys {
        push_key(alloc, &mut out, row)?;
    }
    Ok(Bytes::from_vec(out))
}

fn push_key(alloc: Global, out: &mut Vec<u8>, row: &KeyRow) -> Result<(), NoMemory>
    ensures { OnOk result (out.new.items ≡ out.old.items ++ key_line row.now) }
{
    let class = Shown::Text(text_of_class(row.class));
    let reference = Shown::Bytes(&row.reference);
    Row::three(b"key", number(row.user), class, reference).push(alloc, out)?;
    push_line_feed(out)
}
