ghost use Rattle.std.specs.Prelude.{None, IfOk, OnOk, Some};
ghost use Rattle.vold_book.specs.State.{senses};
ghost use Rattle.vold_book.specs.Whole.{IsWhole};
ghost use Rattle.docket.specs.Docket.{IsNextBusy};
ghost use Rattle.vold_run.specs.Fits.{AllFits, TurnsOf, history_of};
ghost use Rattle.vold_run.specs.Lines.{IsBetweenLines, IsKept};
ghost use Rattle.vold_run.specs.Rounds.{NothingLeft, RoundEnds};

use journal_model::Actor;
use key_ring::KeyRing;
use keystore_model::Keystore;
use tree_model::{NoMemory, TreeDisk};
use vold_book::{Book, Turn};

/// Makes rounds, in each of which every busy actor has one turn in the order of actors, until the machine takes no
/// turn of a busy actor.
pub fn finish<T: TreeDisk, B: Keystore, G: KeyRing>(
    book: &mut Book<T, B, G>,
) -> Result<(), NoMemory>
    requires { IsBetweenLines (senses T.disk T.counts B.store B.counts G.ring G.counts) book.old }
    ensures fits { OnOk result (AllFits (history_of book.old) (history_of book.new)) }
    ensures idle { OnOk result (NothingLeft book.new) }
    ensures kept { OnOk result (IsKept (senses T.disk T.counts B.store B.counts G.ring G.counts) book.old book.new) }
    ensures whole { IsWhole (senses T.disk T.counts B.store B.counts G.ring G.counts) book.new }
{
    while let Some(first) = book.first_busy() {
        if !round(book, first)? {
            return Ok(());
        }
    }
    Ok(())
}

/// Makes one round from the first busy actor on, which leaves fewer turns. The answer is false where the machine
/// takes no turn of that actor, and then none of the others either.
fn round<T: TreeDisk, B: Keystore, G: KeyRing>(
    book: &mut Book<T, B, G>,
    first: Actor,
) -> Result<bool, NoMemory>
    requires between { IsBetweenLines (senses T.disk T.counts B.store B.counts G.ring G.counts) book.old }
    requires first { IsNextBusy book.old.docket None (Some first) }
    ensures ended { IfOk result
        (RoundEnds (senses T.disk T.counts B.store B.counts G.ring G.counts) book.old book.new) }
    ensures kept { OnOk result (IsKept (senses T.disk T.counts B.store B.counts G.ring G.counts) book.old book.new) }
    ensures whole { IsWhole (senses T.disk T.counts B.store B.counts G.ring G.counts) book.new }
{
    let Turn::Went = book.advance(first)? else {
        return Ok(false);
    };
    let mut next = book.next_busy(first);
    while let Some(actor) = next {
        let Turn::Went = book.advance(actor)? else {
            return Ok(true);
        };
        next = book.next_busy(actor);
    }
    Ok(true)
}

/// Gives the actor so many turns, of which those do nothing that it can't make.
pub fn turns<T: TreeDisk, B: Keystore, G: KeyRing>(
    book: &mut Book<T, B, G>,
    actor: Actor,
    count: u32,
) -> Result<(), NoMemory>
    requires { IsBetweenLines (senses T.disk T.counts B.store B.counts G.ring G.counts) book.old }
    ensures fits { OnOk result (TurnsOf actor count (history_of book.old) (history_of book.new)) }
    ensures kept { OnOk result (IsKept (senses T.disk T.counts B.store B.counts G.ring G.counts) book.old book.new) }
    ensures whole { IsWhole (senses T.disk T.counts B.store B.counts G.ring G.counts) book.new }
{
    for _ in 0..count {
        book.advance(actor)?;
    }
    Ok(())
}
