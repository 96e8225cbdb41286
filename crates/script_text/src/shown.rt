//! Prints words: a line is its first word and what is shown behind it.
ghost use Rattle.std.specs.Prelude.{◌≡◌, [], ◌∷◌, ◌++◌, OnOk};
ghost use Rattle.script_text.specs.Words.{actor_word, class_word, fill_words, spaced, joined};
ghost use Rattle.script_text.specs.Shown.{shown_words, all_words, row_words};

use crate::appending::{push_bytes, push_number, push_text, push_word};
use crate::slots::push_slot;
use journal_model::Actor;
use std::alloc::Global;
use tree_model::{Class, Fill, NoMemory, Slot};

/// What is printed as words.
#[derive(Clone, Copy)]
pub enum Shown<'a> {
    /// No word.
    Nothing,
    /// A word as it stands.
    Text(&'a [u8]),
    /// A number in decimal.
    Number(u64),
    /// Bytes in hex, or a dash for none.
    Bytes(&'a [u8]),
    /// An actor's name.
    Actor(Actor),
    /// A slot's name.
    Slot(Slot),
    /// A word for each fill.
    Fills(&'a [Fill]),
}

/// A number of 32 bits.
pub fn number(number: u32) -> Shown<'static>
    ensures { result ≡ Shown.Number number }
{
    Shown::Number(u64::from(number))
}

/// The word of a class.
pub fn text_of_class(class: Class) -> &'static [u8]
    ensures { result.now ≡ class_word class }
{
    match class {
        Class::De => b"de",
        Class::Ce => b"ce",
    }
}

/// A word, and what is shown behind it.
#[derive(Clone, Copy)]
pub struct Row<'a> {
    pub word: &'a [u8],
    pub rest: [Shown<'a>; 3],
}

impl<'a> Row<'a> {
    /// The word alone.
    pub fn alone(word: &'a [u8]) -> Row<'a>
        ensures { row_words result ≡ word.now ∷ [] }
    {
        Row::one(word, Shown::Nothing)
    }

    /// One thing behind it.
    pub fn one(word: &'a [u8], first: Shown<'a>) -> Row<'a>
        ensures { row_words result ≡ word.now ∷ shown_words first.entry }
    {
        Row::two(word, first, Shown::Nothing)
    }

    /// Two things.
    pub fn two(word: &'a [u8], first: Shown<'a>, second: Shown<'a>) -> Row<'a>
        ensures { row_words result ≡ word.now ∷ (shown_words first.entry ++ shown_words second.entry) }
    {
        Row::three(word, first, second, Shown::Nothing)
    }

    /// Three things.
    pub fn three(word: &'a [u8], first: Shown<'a>, second: Shown<'a>, third: Shown<'a>) -> Row<'a>
        ensures { row_words result
            ≡ word.now ∷ (shown_words first.entry ++ (shown_words second.entry ++ shown_words third.entry)) }
    {
        Row {
            word,
            rest: [first, second, third],
        }
    }

    /// Adds it to a text.
    pub fn push(&self, alloc: Global, out: &mut Vec<u8>) -> Result<(), NoMemory>
        ensures { OnOk result (out.new.items ≡ out.old.items ++ joined (row_words self.now)) }
    {
        push_text(out, self.word)?;
        push_all(alloc, out, &self.rest)
    }

    /// Adds a space and it.
    pub fn push_behind(&self, alloc: Global, out: &mut Vec<u8>) -> Result<(), NoMemory>
        ensures { OnOk result (out.new.items ≡ out.old.items ++ spaced (row_words self.now)) }
    {
        push_word(out, self.word)?;
        push_all(alloc, out, &self.rest)
    }
}

/// Adds what is shown, each word with a space before it.
fn push_all(alloc: Global, out: &mut Vec<u8>, all: &[Shown<'_>]) -> Result<(), NoMemory>
    ensures { OnOk result (out.new.items ≡ out.old.items ++ spaced (all_words all.now)) }
{
    for shown in all {
        push_shown(alloc, out, *shown)?;
    }
    Ok(())
}

fn push_shown(alloc: Global, out: &mut Vec<u8>, shown: Shown<'_>) -> Result<(), NoMemory>
    ensures { OnOk result (out.new.items ≡ out.old.items ++ spaced (shown_words shown.entry)) }
{
    match shown {
        Shown::Nothing => Ok(()),
        Shown::Text(text) => push_word(out, text),
        Shown::Number(number) => push_number(alloc, out, number),
        Shown::Bytes(bytes) => push_bytes(alloc, out, bytes),
        Shown::Actor(actor) => push_actor(alloc, out, actor),
        Shown::Slot(slot) => {
            push_text(out, b" ")?;
            push_slot(alloc, out, slot)
        }
        Shown::Fills(fills) => push_fills(alloc, out, fills),
    }
}

fn push_actor(alloc: Global, out: &mut Vec<u8>, actor: Actor) -> Result<(), NoMemory>
    ensures { OnOk result (out.new.items ≡ out.old.items ++ 32 ∷ actor_word actor) }
{
    match actor {
        Actor::Boot => push_word(out, b"boot"),
        Actor::Cp => push_word(out, b"cp"),
        Actor::User(user) => push_number(alloc, out, u64::from(user)),
    }
}

fn push_fills(alloc: Global, out: &mut Vec<u8>, fills: &[Fill]) -> Result<(), NoMemory>
    ensures { OnOk result (out.new.items ≡ out.old.items ++ spaced (fill_words fills.now)) }
{
    for fill in fills {
        match fill {
            Fill::Same => push_word(out, b"=")?,
            Fill::Bytes(bytes) => push_bytes(alloc, out, bytes.as_slice())?,
        }
    }
    Ok(())
}
