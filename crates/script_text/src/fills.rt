//! Reads words as the fills of a stop.
ghost use Rattle.std.specs.Prelude.{◌≡◌, ◌≤◌, length, IfOk, option_copied};
ghost use Rattle.script_text.specs.Words.{fill_word, fill_words};
ghost use Rattle.script_text.specs.Arguments.{AreFills, IsFill};
ghost use Rattle.script_text.specs.Reading.{Reads, words_after};

use crate::byte_words::short_bytes_of;
use crate::reading::first_word;
use crate::script::Script;
use std::alloc::Global;
use tree_model::{Fill, Fills, NoMemory};

/// The fills that the words are of.
pub fn fills_of(alloc: Global, words: Option<&[u8]>) -> Result<Option<Fills>, NoMemory>
    ensures { IfOk result (Reads AreFills fill_words (words_after (option_copied words.entry))) }
{
    let mut fills = Vec::new(alloc);
    let mut rest = words;
    while let Some(text) = rest {
        if fills.len() == Script::MOST_FILLS {
            return Ok(None);
        }
        let (word, others) = first_word(text);
        let Some(fill) = fill_of(alloc, word)? else {
            return Ok(None);
        };
        fills.push(fill)?;
        rest = others;
    }
    Ok(Some(Fills::new(fills)))
}

/// The fill that the word is of.
fn fill_of(alloc: Global, word: &[u8]) -> Result<Option<Fill>, NoMemory>
    ensures { IfOk result (Reads IsFill fill_word word.now) }
{
    if word == b"=".as_slice() {
        return Ok(Some(Fill::Same));
    }
    let Some(bytes) = short_bytes_of(alloc, word)? else {
        return Ok(None);
    };
    Ok(Some(Fill::Bytes(bytes)))
}
