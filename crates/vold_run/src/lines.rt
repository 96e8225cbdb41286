ghost use Rattle.std.specs.Prelude.{◌≢◌, ◌≤◌, ◌+◌, Err, IsOk, OnOk, length, None};
ghost use Rattle.std.specs.List.{AllByRecursion};
ghost use Rattle.script_text.specs.Script.{most_lines, IsLine, AreInOrder};
ghost use Rattle.vold_book.specs.State.{senses};
ghost use Rattle.vold_book.specs.Whole.{IsWhole};
ghost use Rattle.vold_run.specs.Lines.{AreLinesDone, IsLineDone, IsBetweenLines, IsReadyFor, StandsStill};

use crate::rounds;
use journal_model::EnqueueFault;
use key_ring::KeyRing;
use keystore_model::Keystore;
use script_text::Line;
use std::alloc::Global;
use tree_model::{NoMemory, TreeDisk};
use vold_book::Book;

/// Does the lines of a script on a Book, in order.
pub fn do_lines<T: TreeDisk, B: Keystore, G: KeyRing>(
    alloc: Global,
    book: &mut Book<T, B, G>,
    lines: &[Line],
) -> Result<(), NoMemory>
    requires between { IsBetweenLines (senses T.disk T.counts B.store B.counts G.ring G.counts) book.old }
    requires still { StandsStill None book.old.tracker.phase }
    requires few { length book.old.docket.commands + length lines.now ≤ most_lines }
    requires lines { AllByRecursion IsLine lines.now }
    requires order { AreInOrder None lines.now }
    ensures done { OnOk result
        (AreLinesDone (senses T.disk T.counts B.store B.counts G.ring G.counts) None lines.now book.old book.new) }
    ensures whole { IsWhole (senses T.disk T.counts B.store B.counts G.ring G.counts) book.new }
{
    for line in lines {
        do_line(alloc, book, line)?;
    }
    Ok(())
}

/// Does one line.
fn do_line<T: TreeDisk, B: Keystore, G: KeyRing>(
    alloc: Global,
    book: &mut Book<T, B, G>,
    line: &Line,
) -> Result<(), NoMemory>
    requires between { IsBetweenLines (senses T.disk T.counts B.store B.counts G.ring G.counts) book.old }
    requires ready { IsReadyFor line.now book.old.tracker.phase }
    requires few { length book.old.docket.commands + 1 ≤ most_lines }
    requires line { IsLine line.now }
    ensures done { OnOk result
        (IsLineDone (senses T.disk T.counts B.store B.counts G.ring G.counts) line.now book.old book.new) }
    ensures whole { IsWhole (senses T.disk T.counts B.store B.counts G.ring G.counts) book.new }
{
    match line {
        Line::Seed(_) => Ok(()),
        Line::Do(command) => numbered(book.enqueue(command.duplicate(alloc)?)),
        Line::Turns(actor, count) => rounds::turns(book, *actor, *count),
        Line::All => rounds::finish(book),
        Line::Stop(cut) => book.stop(cut.duplicate(alloc)?),
        Line::Restart(level) => numbered(book.restart(*level)),
    }
}

/// That a command got its number, of which one was left.
fn numbered(number: Result<u64, EnqueueFault>) -> Result<(), NoMemory>
    requires left { number ≢ Err EnqueueFault.Full }
    ensures given { IsOk result → IsOk number }
{
    match number {
        Ok(_) => Ok(()),
        Err(EnqueueFault::Full) => unreachable!(),
        Err(EnqueueFault::NoMemory) => Err(NoMemory),
    }
}
