//! The forms of a script's lines: the word that each begins with, the kinds of its arguments, and the line that they
//! make.
ghost use Rattle.std.specs.Prelude.{◌≡◌, ◌≢◌, ◌∷◌, MatchOption};
ghost use Rattle.script_text.specs.declared.forms.Keyword.{Keyword as Word};
ghost use Rattle.script_text.specs.Arguments.{argument_words, AllFit};
ghost use Rattle.script_text.specs.Forms.{word_of, kinds_of};
ghost use Rattle.script_text.specs.Script.{IsLine, line_words};

use crate::arguments::{Arguments, Kind, Kinds};
use crate::script::{Line, Script};
use journal_model::Command;
use std::alloc::Global;
use tree_model::Cut;

/// The word that a line begins with.
#[derive(Clone, Copy, Debug, PartialEq, Eq)]
pub enum Keyword {
    Seed,
    Create,
    Unlock,
    Lock,
    Protect,
    Fixate,
    Destroy,
    Recover,
    Turn,
    All,
    Stop,
    Restart,
}

/// Any number of 32 bits.
const ANY_NUMBER: Kind = Kind::Number {
    least: 0,
    most: u32::MAX,
};

/// From one turn to the most that a line gives.
const COUNT: Kind = Kind::Number {
    least: 1,
    most: Script::MOST_TURNS,
};

/// The level that a script starts a machine with.
const LEVEL: Kind = Kind::Number { least: 1, most: 1 };

impl Keyword {
    /// All of them.
    const EVERY: [Keyword; 12] = [
        Keyword::Seed,
        Keyword::Create,
        Keyword::Unlock,
        Keyword::Lock,
        Keyword::Protect,
        Keyword::Fixate,
        Keyword::Destroy,
        Keyword::Recover,
        Keyword::Turn,
        Keyword::All,
        Keyword::Stop,
        Keyword::Restart,
    ];

    /// The table of the words: each with its text and the kinds of what follows it.
    fn form(self) -> (&'static [u8], Kinds)
        ensures word { result.0.now ≡ word_of self }
        ensures kinds { result.1 ≡ kinds_of self }
    {
        match self {
            Keyword::Seed => (b"seed", Kinds::one(Kind::Bytes)),
            Keyword::Create => (b"create", Kinds::one(ANY_NUMBER)),
            Keyword::Unlock => (b"unlock", Kinds::two(ANY_NUMBER, Kind::Bytes)),
            Keyword::Lock => (b"lock", Kinds::one(ANY_NUMBER)),
            Keyword::Protect => (
                b"protect",
                Kinds::three(ANY_NUMBER, Kind::Bytes, Kind::Bytes),
            ),
            Keyword::Fixate => (b"fixate", Kinds::one(ANY_NUMBER)),
            Keyword::Destroy => (b"destroy", Kinds::one(ANY_NUMBER)),
            Keyword::Recover => (b"recover", Kinds::one(Kind::Never)),
            Keyword::Turn => (b"turn", Kinds::two(Kind::Actor, COUNT)),
            Keyword::All => (b"all", Kinds::none()),
            Keyword::Stop => (b"stop", Kinds::one(ANY_NUMBER).with_fills()),
            Keyword::Restart => (b"restart", Kinds::one(LEVEL)),
        }
    }

    /// The text of the word.
    pub fn text(self) -> &'static [u8]
        ensures { result.now ≡ word_of self }
    {
        self.form().0
    }

    /// The kinds of what follows the word.
    pub fn kinds(self) -> Kinds
        ensures { result ≡ kinds_of self }
    {
        self.form().1
    }

    /// The word that has this text.
    pub fn named(text: &[u8]) -> Option<Keyword>
        ensures { MatchOption result ((keyword : Word) → text.now ≢ word_of keyword)
            (λ keyword. text.now ≡ word_of keyword) }
    {
        for keyword in Keyword::EVERY {
            if keyword.text() == text {
                return Some(keyword);
            }
        }
        None
    }

    /// The line with this word and these arguments.
    pub fn line(self, alloc: Global, given: Arguments) -> Line
        requires fits { AllFit (kinds_of self) given }
        ensures words { line_words result ≡ word_of self ∷ argument_words (kinds_of self) given }
        ensures line { IsLine result }
    {
        let Arguments {
            first,
            second,
            third,
            fills,
        } = given;
        match self {
            Keyword::Seed => Line::Seed(first.into_bytes(alloc)),
            Keyword::Create => Line::Do(Command::Create {
                user: first.number(),
            }),
            Keyword::Unlock => Line::Do(Command::Unlock {
                user: first.number(),
                secret: second.into_secret(alloc),
            }),
            Keyword::Lock => Line::Do(Command::Lock {
                user: first.number(),
            }),
            Keyword::Protect => Line::Do(Command::Protect {
                user: first.number(),
                known: second.into_secret(alloc),
                fresh: third.into_secret(alloc),
            }),
            Keyword::Fixate => Line::Do(Command::Fixate {
                user: first.number(),
            }),
            Keyword::Destroy => Line::Do(Command::Destroy {
                user: first.number(),
            }),
            Keyword::Recover => Line::Do(Command::Recover),
            Keyword::Turn => Line::Turns(first.actor(), second.number()),
            Keyword::All => Line::All,
            Keyword::Stop => Line::Stop(Cut {
                keep: u64::from(first.number()),
                fills,
            }),
            Keyword::Restart => Line::Restart(first.number()),
        }
    }
}
