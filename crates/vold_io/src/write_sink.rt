ghost use Rattle.std.specs.Io.KnownBytes.{Keeps, WriteAppends};
ghost use Rattle.std.specs.Prelude.{◌<◌, ◌≡◌, ◌≤◌, ⊤, length, IfOk, IsErrOf, None, OnErr, OnOk};
ghost use Rattle.tree_model.specs.Counted.{one_more, Rose};
ghost use Rattle.vold_io.specs.Counted.{CountsFaults};

use crate::sink::{Sink, SinkFault};
use std::io::Write;
use std::marker::Model;

/// A sink over a writer of std. Each error of the writer is a fault, also that of an interrupted call, and so is a
/// write that takes nothing of a piece that is not empty.
#[derive(Drop)]
pub struct WriteSink<W> {
    inner: W,
    faults: u64,
}

impl<W> Model for WriteSink<W> {
    ghost use Rattle.vold_io.specs.Adapted.{Adapted};

    ghost Value = { Adapted W };

    ghost view = { λ sink. record { inner = sink.inner; faults = sink.faults } };
}

impl<W> WriteSink<W> {
    /// A sink over `inner`, with no fault so far.
    pub fn new(inner: W) -> WriteSink<W>
        ensures { result ≡ record { inner = inner; faults = 0 } }
    {
        WriteSink { inner, faults: 0 }
    }

    /// Counts a fault.
    fn fault(&mut self) -> SinkFault
        ensures answer { result ≡ SinkFault.Failed }
        ensures count { self.new ≡ record self.old { faults = one_more self.old.faults } }
        ensures never_falls { self.old.faults ≤ self.new.faults }
        ensures rose { Rose self.old.faults self.new.faults }
    {
        self.faults = self.faults.saturating_add(1);
        SinkFault::Failed
    }
}

impl<W: Write + Drop> WriteSink<W> {
    /// Makes the writer pass on what it holds back, which a buffered one needs after the last write.
    ///
    /// # Errors
    ///
    /// `Failed` where the writer failed, and the count of faults rose.
    pub fn flush(&mut self) -> Result<(), SinkFault>
        ensures ok { OnOk result (self.new.faults ≡ self.old.faults) }
        ensures err { OnErr result (self.new.faults ≡ one_more self.old.faults) }
        ensures memory { ¬ (IsErrOf result SinkFault.NoMemory) }
        ensures bytes { Keeps (W.contents self.old.inner) (W.contents self.new.inner) }
    {
        match self.inner.flush() {
            Ok(()) => Ok(()),
            Err(_) => Err(self.fault()),
        }
    }
}

impl<W: Write + Drop> Sink for WriteSink<W> {
    ghost taken = { λ _. None };

    ghost fault_count = { λ sink. sink.faults };

    ghost never_fails = { λ _. ⊥ };

    ghost wants_no_memory = { λ _. ⊤ };

    fn write(&mut self, bytes: &[u8]) -> Result<usize, SinkFault>
        ensures bound { IfOk result (λ count. count ≤ length bytes.now) }
        ensures progress { IfOk result (λ count. 0 < length bytes.now → 0 < count) }
        ensures faults { CountsFaults (IsErrOf result SinkFault.Failed) self.old.faults self.new.faults }
        ensures ok { OnOk result (self.new.faults ≡ self.old.faults) }
        ensures err { OnErr result (self.new.faults ≡ one_more self.old.faults) }
        ensures memory { ¬ (IsErrOf result SinkFault.NoMemory) }

        // What the writer tells of its own bytes, the write keeps to.
        ensures bytes { WriteAppends (W.contents self.old.inner) (W.contents self.new.inner) result bytes.now }
    {
        match self.inner.write(bytes) {
            Ok(0) if !bytes.is_empty() => Err(self.fault()),
            Ok(count) => Ok(count),
            Err(_) => Err(self.fault()),
        }
    }

    fn faults(&self) -> u64 {
        self.faults
    }
}
