//! Prints a script: each line's word, and what is shown behind it.
ghost use Rattle.std.specs.Prelude.{◌≡◌, ◌++◌, OnOk, IfOk};
ghost use Rattle.script_text.specs.Words.{joined};
ghost use Rattle.script_text.specs.Script.{spelling, text_of};
ghost use Rattle.script_text.specs.Journal.{command_words};

use crate::appending::push_line_feed;
use crate::forms::Keyword;
use crate::script::{Line, Script};
use crate::shown::{Row, Shown, number};
use journal_model::Command;
use std::alloc::Global;
use tree_model::{Bytes, NoMemory};

/// The text of a script: its lines, each ended by a line feed.
pub fn print_script(alloc: Global, script: &Script) -> Result<Bytes, NoMemory>
    ensures { IfOk result (λ text. text ≡ text_of script.now) }
{
    let mut out = Vec::new(alloc);
    for line in script.lines() {
        push_line(alloc, &mut out, line)?;
        push_line_feed(&mut out)?;
    }
    Ok(Bytes::from_vec(out))
}

fn push_line(alloc: Global, out: &mut Vec<u8>, line: &Line) -> Result<(), NoMemory>
    ensures { OnOk result (out.new.items ≡ out.old.items ++ spelling line.now) }
{
    match line {
        Line::Seed(bytes) => {
            Row::one(Keyword::Seed.text(), Shown::Bytes(bytes.as_slice())).push(alloc, out)
        }
        Line::Do(command) => push_command(alloc, out, command),
        Line::Turns(actor, count) => {
            let row = Row::two(Keyword::Turn.text(), Shown::Actor(*actor), number(*count));
            row.push(alloc, out)
        }
        Line::All => Row::alone(Keyword::All.text()).push(alloc, out),
        Line::Stop(cut) => {
            let fills = Shown::Fills(cut.fills.as_slice());
            Row::two(Keyword::Stop.text(), Shown::Number(cut.keep), fills).push(alloc, out)
        }
        Line::Restart(level) => {
            Row::one(Keyword::Restart.text(), number(*level)).push(alloc, out)
        }
    }
}

/// Adds a command, as the line of a script that gives it.
pub fn push_command(alloc: Global, out: &mut Vec<u8>, command: &Command) -> Result<(), NoMemory>
    ensures { OnOk result (out.new.items ≡ out.old.items ++ joined (command_words command.now)) }
{
    match command {
        Command::Create { user } => {
            Row::one(Keyword::Create.text(), number(*user)).push(alloc, out)
        }
        Command::Unlock { user, secret } => {
            let secret = Shown::Bytes(secret.as_slice());
            Row::two(Keyword::Unlock.text(), number(*user), secret).push(alloc, out)
        }
        Command::Lock { user } => { Row::one(Keyword::Lock.text(), number(*user)).push(alloc, out) }
        Command::Protect { user, known, fresh } => {
            let known = Shown::Bytes(known.as_slice());
            let fresh = Shown::Bytes(fresh.as_slice());
            Row::three(Keyword::Protect.text(), number(*user), known, fresh).push(alloc, out)
        }
        Command::Fixate { user } => {
            Row::one(Keyword::Fixate.text(), number(*user)).push(alloc, out)
        }
        Command::Destroy { user } => {
            Row::one(Keyword::Destroy.text(), number(*user)).push(alloc, out)
        }
        Command::Recover => Row::alone(Keyword::Recover.text()).push(alloc, out),
    }
}
