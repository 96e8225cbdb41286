ghost use Rattle.std.specs.Io.KnownBytes.{prepend_known};
ghost use Rattle.std.specs.Prelude.{◌<◌, ◌≡◌, ◌≤◌, ◌↔◌, ℕ, List, [], length, take};
ghost use Rattle.std.specs.Prelude.{IfOk, IfSome, IsErr, IsOk, Option, OnErr};
ghost use Rattle.vold_io.specs.Counted.{CountsFaults};

/// A read that failed. What comes of it is the caller's to decide.
#[derive(Clone, Copy, Debug, PartialEq, Eq)]
pub struct Failed;

/// Where bytes come from, in pieces.
pub trait Source: Drop {
    // the bytes that are still to come, where they are told
    ghost rest: { Self → Option (List ℕ) };

    // how many calls failed, up to 2^64 - 1
    ghost fault_count: { Self → ℕ };

    // no call fails from here on
    ghost never_fails: { Self → Type 0 };

    /// Reads the next bytes into the front of `buf`, and answers how many they are. For a buffer that is not empty, 0
    /// is the end.
    ///
    /// # Errors
    ///
    /// `Failed` where the read failed: nothing was taken then, and the count of faults rose.
    fn read(&mut self, buf: &mut [u8]) -> Result<usize, Failed>
        ensures bound { IfOk result (λ count. count ≤ length buf.new) }
        ensures taken { IfOk result (λ count. rest self.old ≡ prepend_known (take count buf.new) (rest self.new)) }
        ensures end { IfOk result
            (λ count. 0 < length buf.new → IfSome (rest self.old) (λ bytes. (count ≡ 0) ↔ (bytes ≡ []))) }
        ensures kept { OnErr result (rest self.new ≡ rest self.old) }
        ensures faults { CountsFaults (IsErr result) (fault_count self.old) (fault_count self.new) }
        ensures steady { never_fails self.old → never_fails self.new × IsOk result };

    /// How many calls failed. The count stays at `u64::MAX` once it is there.
    fn faults(&self) -> u64
        ensures { result ≡ fault_count self.now };
}
