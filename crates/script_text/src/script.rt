//! Scripts: their lines, where each may stand, and reading one.
ghost use Rattle.std.specs.Prelude.{◌≡◌, ◌↔◌, IsTrue, IfOk, IfSome, IfNone, option_copied};
ghost use Rattle.script_text.specs.Script.{may_follow as allows, seed_of, IsPlaced, IsScript, IsNoScript, OneReading};
ghost use Rattle.script_text.specs.Arguments.{AreShort};

use crate::reading::next_line;
use journal_model::{Actor, Command};
use std::alloc::Global;
use std::marker::Model;
use tree_model::{Bytes, Cut, NoMemory};

/// A line of a script.
#[derive(Drop)]
pub enum Line {
    /// The seed of the keys that are made.
    Seed(Bytes),
    /// Gives a command to its actor.
    Do(Command),
    /// Lets the actor make so many turns.
    Turns(Actor, u32),
    /// Lets every actor work until none is busy.
    All,
    /// Stops the machine, which keeps so much of what is pending.
    Stop(Cut),
    /// Starts the machine again, with this level.
    Restart(u32),
}

/// The lines of a script.
#[derive(Drop)]
pub struct Script {
    lines: Vec<Line>,
}

impl Model for Script {
    ghost use Rattle.std.specs.Prelude.{List};
    ghost use Rattle.script_text.specs.declared.script.Line.{Line};
    ghost use Rattle.script_text.specs.Script.{IsPlaced};

    ghost Value = { List Line };

    ghost view = { λ script. script.lines.items };

    ghost invariant = { λ script. IsPlaced script.lines.items };
}

impl Script {
    /// The most lines that a script has.
    pub const MOST_LINES: usize = 16384;

    /// The most turns that a line gives an actor.
    pub const MOST_TURNS: u32 = 4096;

    /// The most fills that a stop has.
    pub const MOST_FILLS: usize = 32;

    /// The most bytes that a seed, a secret or a fill has.
    pub const MOST_BYTES: usize = 64;

    /// The lines, in order.
    pub fn lines(&self) -> &[Line]
        ensures same { result.now ≡ self.now }
        ensures placed { IsPlaced self.now }
    {
        self.lines.as_slice()
    }

    /// The seed, which is empty where no line gives one.
    pub fn seed(&self) -> &[u8]
        ensures same { result.now ≡ seed_of self.now }
        ensures short { AreShort result.now }
    {
        match self.lines.as_slice().first() {
            Some(Line::Seed(bytes)) => bytes.as_slice(),
            _ => &[],
        }
    }
}

/// The script that the bytes are the text of; None where they are of none.
pub fn read_script(alloc: Global, bytes: &[u8]) -> Result<Option<Script>, NoMemory>
    ensures found { IfOk result (λ script. IfSome script (λ lines. IsScript bytes.now lines)) }
    ensures refused { IfOk result (λ script. IfNone script (IsNoScript bytes.now)) }
{
    let mut lines = Vec::new(alloc);
    let mut rest = bytes;
    while !rest.is_empty() {
        if lines.len() == Script::MOST_LINES {
            return Ok(None);
        }
        let Some((line, others)) = next_line(alloc, rest)? else {
            return Ok(None);
        };
        if !may_follow(lines.as_slice().last(), &line) {
            return Ok(None);
        }
        lines.push(line)?;
        rest = others;
    }
    Ok(Some(Script { lines }))
}

/// Whether the line may stand behind the one before it, where there is one.
fn may_follow(before: Option<&Line>, line: &Line) -> bool
    ensures { result ≡ allows (option_copied before.entry) line.now }
{
    let stopped = matches!(before, Some(Line::Stop(_)));
    match line {
        Line::Seed(_) => before.is_none(),
        Line::Restart(_) => stopped,
        _ => !stopped,
    }
}

/// A text has at most one reading as lines.
pub fn one_reading()
    ensures { OneReading }
{}
