//! Reads a word as bytes in hex.
ghost use Rattle.std.specs.Prelude.{IfOk};
ghost use Rattle.script_text.specs.Words.{bytes_word};
ghost use Rattle.script_text.specs.Arguments.{AreBytes, AreShort};
ghost use Rattle.script_text.specs.Reading.{Reads};

use crate::script::Script;
use hex::FromHexError;
use std::alloc::Global;
use tree_model::{Bytes, NoMemory};

/// The bytes whose text the word is: a dash for none, else two digits a byte, in lower case; None where it is of none.
pub fn bytes_of(alloc: Global, word: &[u8]) -> Result<Option<Bytes>, NoMemory>
    ensures { IfOk result (Reads AreBytes bytes_word word.now) }
{
    if word == b"-".as_slice() {
        return Ok(Some(Bytes::from_vec(Vec::new(alloc))));
    }
    if word.is_empty() {
        return Ok(None);
    }
    let bytes = match hex::decode(alloc, word) {
        Ok(bytes) => bytes,
        Err(fault) => {
            return match fault {
                FromHexError::OutOfMemory => Err(NoMemory),
                _ => Ok(None),
            };
        }
    };
    let digits = hex::encode(alloc, bytes.as_slice())?;
    if digits.as_bytes() == word {
        return Ok(Some(Bytes::from_vec(bytes)));
    }
    Ok(None)
}

/// The same, of no more bytes than a seed, a secret or a fill may have.
pub fn short_bytes_of(alloc: Global, word: &[u8]) -> Result<Option<Bytes>, NoMemory>
    ensures { IfOk result (Reads AreShort bytes_word word.now) }
{
    let Some(bytes) = bytes_of(alloc, word)? else {
        return Ok(None);
    };
    if Script::MOST_BYTES < bytes.as_slice().len() {
        return Ok(None);
    }
    Ok(Some(bytes))
}
