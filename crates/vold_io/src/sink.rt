ghost use Rattle.std.specs.Io.KnownBytes.{append_known};
ghost use Rattle.std.specs.Prelude.{◌<◌, ◌≡◌, ◌≤◌, ℕ, List, length, take, IfOk, IsErrOf, Option, OnErr};
ghost use Rattle.vold_io.specs.Counted.{CountsFaults};
ghost use Rattle.vold_io.specs.declared.sink.SinkFault.TheVariants.{NoMemory as WantsMemory};

use tree_model::NoMemory;

/// Why a sink took nothing.
#[derive(Clone, Copy, Debug, PartialEq, Eq)]
pub enum SinkFault {
    /// The write failed.
    Failed,
    /// Memory ran out.
    NoMemory,
}

impl From<NoMemory> for SinkFault {
    ghost from_gives = { λ _ fault. fault ≡ WantsMemory };

    fn from(_error: NoMemory) -> SinkFault {
        SinkFault::NoMemory
    }
}

/// Where bytes go, in pieces.
pub trait Sink: Drop {
    // the bytes that it took, where they are told
    ghost taken: { Self → Option (List ℕ) };

    // how many calls failed, up to 2^64 - 1
    ghost fault_count: { Self → ℕ };

    // no call fails from here on, but for want of memory
    ghost never_fails: { Self → Type 0 };

    // no call wants memory from here on
    ghost wants_no_memory: { Self → Type 0 };

    /// Takes bytes from the front of `bytes`, at least one if there is one, and answers how many it took.
    ///
    /// # Errors
    ///
    /// `Failed` where the write failed, and the count of faults rose; `NoMemory` where memory ran out. Nothing was
    /// taken then.
    fn write(&mut self, bytes: &[u8]) -> Result<usize, SinkFault>
        ensures bound { IfOk result (λ count. count ≤ length bytes.now) }
        ensures progress { IfOk result (λ count. 0 < length bytes.now → 0 < count) }
        ensures took { IfOk result (λ count. taken self.new ≡ append_known (taken self.old) (take count bytes.now)) }
        ensures kept { OnErr result (taken self.new ≡ taken self.old) }
        ensures faults { CountsFaults (IsErrOf result SinkFault.Failed) (fault_count self.old) (fault_count self.new) }
        ensures steady { never_fails self.old → never_fails self.new × ¬ (IsErrOf result SinkFault.Failed) }
        ensures sparing { wants_no_memory self.old
            → wants_no_memory self.new × ¬ (IsErrOf result SinkFault.NoMemory) };

    /// How many calls failed. The count stays at `u64::MAX` once it is there.
    fn faults(&self) -> u64
        ensures { result ≡ fault_count self.now };
}
