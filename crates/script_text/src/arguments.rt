//! What may follow the word that a line begins with: the kinds of arguments, and their values.
ghost use Rattle.std.specs.Prelude.{◌≡◌, ◌≤◌, true, length};
ghost use Rattle.script_text.specs.Arguments.{number_in, bytes_in, actor_in, no_kinds, one_kind, two_kinds};
ghost use Rattle.script_text.specs.Arguments.{three_kinds};

use journal_model::{Actor, Secret};
use std::alloc::Global;
use tree_model::{Bytes, Fills};

/// What an argument is.
#[derive(Clone, Copy, Debug, PartialEq, Eq)]
pub enum Kind {
    /// The line has no such argument.
    Nothing,
    /// An argument that no script can give.
    Never,
    /// A number from the least to the most.
    Number { least: u32, most: u32 },
    /// Bytes, no more than `Script::MOST_BYTES`.
    Bytes,
    /// An actor that a script may let make turns.
    Actor,
}

/// What follows the word of a line: three arguments, and fills where a line may have any.
#[derive(Clone, Copy, Debug, PartialEq, Eq)]
pub struct Kinds {
    pub first: Kind,
    pub second: Kind,
    pub third: Kind,
    pub fills: bool,
}

impl Kinds {
    /// Nothing.
    pub fn none() -> Kinds
        ensures { result ≡ no_kinds }
    {
        Kinds::one(Kind::Nothing)
    }

    /// One argument.
    pub fn one(first: Kind) -> Kinds
        ensures { result ≡ one_kind first }
    {
        Kinds::two(first, Kind::Nothing)
    }

    /// Two arguments.
    pub fn two(first: Kind, second: Kind) -> Kinds
        ensures { result ≡ two_kinds first second }
    {
        Kinds::three(first, second, Kind::Nothing)
    }

    /// Three arguments.
    pub fn three(first: Kind, second: Kind, third: Kind) -> Kinds
        ensures { result ≡ three_kinds first second third }
    {
        Kinds {
            first,
            second,
            third,
            fills: false,
        }
    }

    /// The same arguments, and then fills.
    pub fn with_fills(self) -> Kinds
        ensures { result ≡ record self { fills = true } }
    {
        Kinds {
            fills: true,
            ..self
        }
    }
}

/// The value of an argument.
#[derive(Drop)]
pub enum Argument {
    Nothing,
    Number(u32),
    Bytes(Bytes),
    Actor(Actor),
}

impl Argument {
    /// The number, or 0 where there is none.
    pub fn number(&self) -> u32
        ensures { result ≡ number_in self.now }
    {
        match self {
            Argument::Number(number) => *number,
            _ => 0,
        }
    }

    /// The actor, or the recovery's where there is none.
    pub fn actor(&self) -> Actor
        ensures { result ≡ actor_in self.now }
    {
        match self {
            Argument::Actor(actor) => *actor,
            _ => Actor::Boot,
        }
    }

    /// The bytes, or none.
    pub fn into_bytes(self, alloc: Global) -> Bytes
        ensures { result ≡ bytes_in self }
    {
        match self {
            Argument::Bytes(bytes) => bytes,
            _ => Bytes::from_vec(Vec::new(alloc)),
        }
    }

    /// The bytes, or none, as a secret.
    pub fn into_secret(self, alloc: Global) -> Secret
        requires short { length (bytes_in self) ≤ 64 }
        ensures { result ≡ bytes_in self }
    {
        match Secret::new(self.into_bytes(alloc)) {
            Some(secret) => secret,
            None => unreachable!(),
        }
    }
}

/// The values of a line's arguments, in order, and its fills.
#[derive(Drop)]
pub struct Arguments {
    pub first: Argument,
    pub second: Argument,
    pub third: Argument,
    pub fills: Fills,
}
