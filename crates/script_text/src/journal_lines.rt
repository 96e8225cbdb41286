//! Prints a journal: each entry's word, and what is shown behind it.
ghost use Rattle.std.specs.Prelude.{◌≡◌, ◌++◌, OnOk, IfOk};
ghost use Rattle.script_text.specs.Shown.{row_words};
ghost use Rattle.script_text.specs.Journal.{change_words, reply_words, entry_line, journal_text};

use crate::appending::{push_line_feed, push_text};
use crate::script_lines::push_command;
use crate::shown::{Row, Shown, number as small, text_of_class};
use journal_model::{Change, Entry, Reply};
use std::alloc::Global;
use tree_model::{Bytes, NoMemory};

/// The journal as text: a line with the number of entries, then one line for each.
pub fn print_journal(alloc: Global, entries: &[Entry]) -> Result<Bytes, NoMemory>
    ensures { IfOk result (λ text. text ≡ journal_text entries.now) }
{
    let mut out = Vec::new(alloc);
    let count = Shown::Number(entries.len() as u64);
    Row::one(b"journal", count).push(alloc, &mut out)?;
    push_line_feed(&mut out)?;
    for entry in entries {
        push_entry(alloc, &mut out, entry)?;
    }
    Ok(Bytes::from_vec(out))
}

fn push_entry(alloc: Global, out: &mut Vec<u8>, entry: &Entry) -> Result<(), NoMemory>
    ensures { OnOk result (out.new.items ≡ out.old.items ++ entry_line entry.now) }
{
    match entry {
        Entry::Began {
            number,
            actor,
            command,
        } => {
            let begun = Row::two(b"began", Shown::Number(*number), Shown::Actor(*actor));
            begun.push(alloc, out)?;
            push_text(out, b" ")?;
            push_command(alloc, out, command)?;
        }
        Entry::Changed { number, change } => {
            Row::one(b"changed", Shown::Number(*number)).push(alloc, out)?;
            row_of_change(change).push_behind(alloc, out)?;
        }
        Entry::Synced => Row::alone(b"synced").push(alloc, out)?,
        Entry::Installed { user, class } => {
            let class = Shown::Text(text_of_class(*class));
            Row::two(b"installed", small(*user), class).push(alloc, out)?;
        }
        Entry::Evicted { user, class } => {
            let class = Shown::Text(text_of_class(*class));
            Row::two(b"evicted", small(*user), class).push(alloc, out)?;
        }
        Entry::Swept { blob } => {
            Row::one(b"swept", Shown::Bytes(&blob.bytes())).push(alloc, out)?;
        }
        Entry::Stopped { kept } => Row::one(b"stopped", Shown::Number(*kept)).push(alloc, out)?,
        Entry::Restarted { boot, level } => {
            Row::two(b"restarted", Shown::Number(*boot), small(*level)).push(alloc, out)?;
        }
        Entry::Replied { number, reply } => {
            Row::one(b"replied", Shown::Number(*number)).push(alloc, out)?;
            row_of_reply(*reply).push_behind(alloc, out)?;
        }
    }
    push_line_feed(out)
}

fn row_of_change(change: &Change) -> Row<'_>
    ensures { row_words result ≡ change_words change.now }
{
    match change {
        Change::Create { user, birth } => {
            let boot = Shown::Number(birth.boot);
            Row::three(b"create", small(*user), boot, small(birth.index))
        }
        Change::Add { user, slot, secret } => {
            let secret = Shown::Bytes(secret.as_slice());
            Row::three(b"add", small(*user), Shown::Slot(*slot), secret)
        }
        Change::Drop { user, slot } => {
            let slot = Shown::Slot(*slot);
            Row::three(b"drop", small(*user), slot, Shown::Nothing)
        }
        Change::Settle { user, slot } => {
            let slot = Shown::Slot(*slot);
            Row::three(b"settle", small(*user), slot, Shown::Nothing)
        }
        Change::Destroy { user } => {
            let user = small(*user);
            Row::three(b"destroy", user, Shown::Nothing, Shown::Nothing)
        }
    }
}

fn row_of_reply(reply: Reply) -> Row<'static>
    ensures { row_words result ≡ reply_words reply }
{
    match reply {
        Reply::Done => Row::alone(b"ok"),
        Reply::Gone => Row::alone(b"gone"),
        Reply::Ended(count) => Row::one(b"ok", Shown::Number(count)),
        Reply::UserExists => Row::alone(b"user-exists"),
        Reply::TooManyUsers => Row::alone(b"too-many-users"),
        Reply::NoUser => Row::alone(b"no-user"),
        Reply::NotInstalled => Row::alone(b"not-installed"),
        Reply::NoSlot => Row::alone(b"no-slot"),
        Reply::WrongSecret => Row::alone(b"wrong-secret"),
        Reply::Ready => Row::alone(b"ready"),
        Reply::TreeFault => Row::alone(b"tree-fault"),
        Reply::StoreFault => Row::alone(b"store-fault"),
        Reply::RingFault => Row::alone(b"ring-fault"),
    }
}
