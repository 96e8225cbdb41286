//! How a command's call is made: all that its notes need is taken before.
ghost use Rattle.std.specs.Prelude.{◌≡◌, ◌^◌, ◌<◌, IfOk, OnOk, OnErr, length};
ghost use Rattle.bench.specs.Bench.{Fits};
ghost use Rattle.bench.specs.Seen.{seen_by, senses_by};
ghost use Rattle.vold_book.specs.Calls.{WasCalled, IsUntouched};
ghost use Rattle.vold_book.specs.Owed.{more_owed, drops_of};

use crate::ledger::Ledger;
use crate::owed::Owed;
use crate::tracker::Tracker;
use bench::{Bench, Made, dropped_blobs};
use key_ring::KeyRing;
use keystore_model::Keystore;
use std::alloc::Global;
use task_turns::Call;
use tree_model::{NoMemory, TreeDisk};

/// What came of a call that was made, and what its command owes then, if the call lists more.
#[derive(Drop)]
pub struct Called {
    pub made: Made,
    pub more: Option<Owed>,
}

/// Makes a call of a command that owes this, once there is room for what is noted of it. Want of memory leaves the
/// devices and what is known of them as they were.
pub fn make<T: TreeDisk, K: Keystore, G: KeyRing>(
    alloc: Global,
    bench: &mut Bench<T, K, G>,
    ledger: &mut Ledger,
    tracker: &mut Tracker,
    owed: &Owed,
    call: &Call,
) -> Result<Called, NoMemory>
    requires fits { Fits (seen_by T.disk T.counts K.store K.counts G.ring G.counts bench.old) call.now }
    requires few { bench.old.list.next < 2 ^ 63 }
    ensures called { IfOk result (WasCalled (senses_by T.disk T.counts K.store K.counts G.ring G.counts)
        bench.old bench.new call.now owed.now) }
    ensures refused { OnErr result (IsUntouched (senses_by T.disk T.counts K.store K.counts G.ring G.counts)
        bench.old bench.new) }
    ensures seed { bench.new.seed ≡ bench.old.seed }
    ensures entries { ledger.new.now ≡ ledger.old.now }
    ensures room { OnOk result (0 < ledger.new.room) }
    ensures few { OnOk result (length ledger.new.now.entries < 2 ^ 64) }
    ensures tracked { tracker.new.now ≡ tracker.old.now }
    ensures tracks { OnOk result (0 < tracker.new.room) }
{
    ledger.reserve()?;
    tracker.reserve()?;
    let more = owed_with(alloc, owed, bench, call)?;
    let made = bench.make(alloc, call)?;
    Ok(Called { made, more })
}

/// What is owed with what the call lists, if that is more.
fn owed_with<T: TreeDisk, K: Keystore, G: KeyRing>(
    alloc: Global,
    owed: &Owed,
    bench: &Bench<T, K, G>,
    call: &Call,
) -> Result<Option<Owed>, NoMemory>
    requires { bench.now.list.next < 2 ^ 63 }
    ensures { IfOk result (λ more.
        more ≡ more_owed owed.now bench.now.list.next (drops_of bench.now.table.places call.now)) }
{
    let Call::Op { user, op, .. } = call else {
        return Ok(None);
    };
    let drops = dropped_blobs(alloc, &bench.table, *user, op)?;
    if drops.is_empty() {
        return Ok(None);
    }
    Ok(Some(owed.with(alloc, bench.list.next_number(), drops.as_slice())?))
}
