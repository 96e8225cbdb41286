ghost use Rattle.std.specs.Io.KnownBytes.{ReadConsumes};
ghost use Rattle.std.specs.Prelude.{◌<◌, ◌≡◌, ◌≤◌, length, IfOk, IsErr, None, OnErr, OnOk};
ghost use Rattle.tree_model.specs.Counted.{one_more};
ghost use Rattle.vold_io.specs.Counted.{CountsFaults};

use crate::source::{Failed, Source};
use std::io::Read;
use std::marker::Model;

/// A source over a reader of std. Each error of the reader is a fault, also that of an interrupted call.
#[derive(Drop)]
pub struct ReadSource<R> {
    inner: R,
    faults: u64,
}

impl<R> Model for ReadSource<R> {
    ghost use Rattle.vold_io.specs.Adapted.{Adapted};

    ghost Value = { Adapted R };

    ghost view = { λ source. record { inner = source.inner; faults = source.faults } };
}

impl<R> ReadSource<R> {
    /// A source over `inner`, with no fault so far.
    pub fn new(inner: R) -> ReadSource<R>
        ensures { result ≡ record { inner = inner; faults = 0 } }
    {
        ReadSource { inner, faults: 0 }
    }
}

impl<R: Read + Drop> Source for ReadSource<R> {
    ghost rest = { λ _. None };

    ghost fault_count = { λ source. source.faults };

    ghost never_fails = { λ _. ⊥ };

    fn read(&mut self, buf: &mut [u8]) -> Result<usize, Failed>
        ensures bound { IfOk result (λ count. count ≤ length buf.new) }
        ensures faults { CountsFaults (IsErr result) self.old.faults self.new.faults }
        ensures ok { OnOk result (self.new.faults ≡ self.old.faults) }
        ensures err { OnErr result (self.new.faults ≡ one_more self.old.faults) }

        // What the reader tells of its own bytes, the read keeps to.
        ensures bytes { ReadConsumes (R.remaining self.old.inner) (R.remaining self.new.inner) result buf.new }
    {
        match self.inner.read(buf) {
            Ok(count) => Ok(count),
            Err(_) => {
                self.faults = self.faults.saturating_add(1);
                Err(Failed)
            }
        }
    }

    fn faults(&self) -> u64 {
        self.faults
    }
}
