//! Reads a line: its word, its form in the table of the words, and its arguments by their kinds.
ghost use Rattle.std.specs.Prelude.{◌≡◌, [], ◌∷◌, ◌++◌, MatchOption, IfOk, option_copied};
ghost use Rattle.script_text.specs.Words.{decimal, actor_word};
ghost use Rattle.script_text.specs.Arguments.{argument_words, value_words, last_words, AllFit, Fits, LastFit};
ghost use Rattle.script_text.specs.Arguments.{IsTurner, IsWithin};
ghost use Rattle.script_text.specs.Script.{IsLine, line_words, spelling};
ghost use Rattle.script_text.specs.Reading.{Reads, Lacks, IsSplit, words_in, words_after, BeginsNoLine};
ghost use Rattle.script_text.specs.Reading.{BeginsNoValue, BeginsWith};

use crate::arguments::{Argument, Arguments, Kind, Kinds};
use crate::byte_words::short_bytes_of;
use crate::fills::fills_of;
use crate::forms::Keyword;
use crate::numbers::number_of;
use crate::script::Line;
use journal_model::Actor;
use std::alloc::Global;
use tree_model::{Fills, NoMemory};

/// The line that the bytes begin with, and what follows its line feed; None where they begin with none.
pub fn next_line(alloc: Global, bytes: &[u8]) -> Result<Option<(Line, &[u8])>, NoMemory>
    ensures { IfOk result (λ read. MatchOption read (BeginsNoLine bytes.now)
        (λ found. IsLine found.0 × (bytes.now ≡ spelling found.0 ++ 10 ∷ found.1.now))) }
{
    let Some((text, others)) = split_at_byte(bytes, b'\n') else {
        return Ok(None);
    };
    let Some(line) = line_of(alloc, text)? else {
        return Ok(None);
    };
    Ok(Some((line, others)))
}

/// The line that the text is of, without its line feed.
fn line_of(alloc: Global, text: &[u8]) -> Result<Option<Line>, NoMemory>
    ensures { IfOk result (Reads IsLine line_words (words_in text.now)) }
{
    let (word, words) = first_word(text);
    let Some(keyword) = Keyword::named(word) else {
        return Ok(None);
    };
    let Some(given) = arguments_of(alloc, keyword.kinds(), words)? else {
        return Ok(None);
    };
    Ok(Some(keyword.line(alloc, given)))
}

/// The arguments of these kinds that the words are of.
fn arguments_of(
    alloc: Global,
    kinds: Kinds,
    words: Option<&[u8]>,
) -> Result<Option<Arguments>, NoMemory>
    ensures { IfOk result (Reads (AllFit kinds) (argument_words kinds) (words_after (option_copied words.entry))) }
{
    let Some((first, words)) = first_value(alloc, kinds.first, words)? else {
        return Ok(None);
    };
    let Some((second, words)) = first_value(alloc, kinds.second, words)? else {
        return Ok(None);
    };
    let Some((third, words)) = first_value(alloc, kinds.third, words)? else {
        return Ok(None);
    };
    let Some(fills) = last_fills(alloc, kinds.fills, words)? else {
        return Ok(None);
    };
    Ok(Some(Arguments {
        first,
        second,
        third,
        fills,
    }))
}

/// The value of this kind that the words begin with, and the words behind it.
fn first_value(
    alloc: Global,
    kind: Kind,
    words: Option<&[u8]>,
) -> Result<Option<(Argument, Option<&[u8]>)>, NoMemory>
    ensures { IfOk result (λ read. MatchOption read (BeginsNoValue kind (words_after (option_copied words.entry)))
        (λ found. BeginsWith kind (words_after (option_copied words.entry)) found.0
        (words_after (option_copied found.1)))) }
{
    if kind == Kind::Nothing {
        return Ok(Some((Argument::Nothing, words)));
    }
    let Some(text) = words else {
        return Ok(None);
    };
    let (word, others) = first_word(text);
    let Some(value) = value_of(alloc, kind, word)? else {
        return Ok(None);
    };
    Ok(Some((value, others)))
}

/// The value of this kind that the word is of.
fn value_of(alloc: Global, kind: Kind, word: &[u8]) -> Result<Option<Argument>, NoMemory>
    ensures { IfOk result (Reads (Fits kind) (value_words kind) (word.now ∷ [])) }
{
    match kind {
        Kind::Nothing | Kind::Never => Ok(None),
        Kind::Number { least, most } => {
            Ok(number_within(least, most, word).map(Argument::Number))
        }
        Kind::Bytes => Ok(short_bytes_of(alloc, word)?.map(Argument::Bytes)),
        Kind::Actor => Ok(actor_named(word).map(Argument::Actor)),
    }
}

/// The number from the least to the most that the word is of.
fn number_within(least: u32, most: u32, word: &[u8]) -> Option<u32>
    ensures { Reads (IsWithin least most) decimal word.now result }
{
    let number = number_of(word)?;
    if number < least || most < number {
        return None;
    }
    Some(number)
}

/// The actor of this name, where a script may let it make turns.
fn actor_named(word: &[u8]) -> Option<Actor>
    ensures { Reads IsTurner actor_word word.now result }
{
    if word == b"boot".as_slice() {
        return Some(Actor::Boot);
    }
    let user = number_of(word)?;
    Some(Actor::User(user))
}

/// The fills that the words are of, where a line may have any; else none, where there are no words.
fn last_fills(alloc: Global, wanted: bool, words: Option<&[u8]>) -> Result<Option<Fills>, NoMemory>
    ensures { IfOk result (Reads (LastFit wanted) (last_words wanted) (words_after (option_copied words.entry))) }
{
    if wanted {
        return fills_of(alloc, words);
    }
    match words {
        None => Ok(Some(Fills::new(Vec::new(alloc)))),
        Some(_) => Ok(None),
    }
}

/// The first word, and what follows the space behind it, where there is one.
pub fn first_word(text: &[u8]) -> (&[u8], Option<&[u8]>)
    ensures { words_in text.now ≡ result.0.now ∷ words_after (option_copied result.1) }
{
    match split_at_byte(text, b' ') {
        Some((word, others)) => (word, Some(others)),
        None => (text, None),
    }
}

/// What stands before the first of the byte, and what stands after it; None where there is none.
fn split_at_byte(bytes: &[u8], byte: u8) -> Option<(&[u8], &[u8])>
    ensures { MatchOption result (Lacks byte bytes.now) (λ parts. IsSplit byte bytes.now parts.0.now parts.1.now) }
{
    for (i, b) in bytes.iter().enumerate() {
        if *b == byte {
            return Some((&bytes[..i], &bytes[i + 1..]));
        }
    }
    None
}
