//! The names of slots.
ghost use Rattle.std.specs.Prelude.{◌≡◌, ◌++◌, OnOk};
ghost use Rattle.script_text.specs.Words.{slot_word, ten_digits};

use crate::appending::push_text;
use std::alloc::Global;
use tree_model::{NoMemory, Slot};

/// The zeros of a slot's ten digits.
const ZEROS: [u8; 10] = [b'0'; 10];

/// Adds a slot's name.
pub fn push_slot(alloc: Global, out: &mut Vec<u8>, slot: Slot) -> Result<(), NoMemory>
    ensures { OnOk result (out.new.items ≡ out.old.items ++ slot_word slot) }
{
    match slot {
        Slot::Current => push_text(out, b"current"),
        Slot::Cx(number) => {
            push_text(out, b"cx")?;
            push_ten_digits(alloc, out, number)
        }
    }
}

fn push_ten_digits(alloc: Global, out: &mut Vec<u8>, number: u32) -> Result<(), NoMemory>
    ensures { OnOk result (out.new.items ≡ out.old.items ++ ten_digits number) }
{
    let text = number.to_string(alloc)?;
    let digits = text.as_bytes();
    push_text(out, &ZEROS[digits.len()..])?;
    push_text(out, digits)
}
