ghost use Rattle.std.specs.Prelude.{◌<◌, ◌≡◌, ◌≤◌, ◌↔◌, ◌++◌, [], length, take};
ghost use Rattle.std.specs.Prelude.{IfOk, IsErrOf, IsNone, OnErr, OnOk, Some};
ghost use Rattle.tree_model.specs.Counted.{one_more};
ghost use Rattle.vold_io.specs.Counted.{CountsFaults};

use crate::plan::Plan;
use crate::sink::{Sink, SinkFault};
use std::alloc::Global;
use std::marker::Model;
use tree_model::NoMemory;

/// A sink that keeps the bytes in memory. The write of one number can be made to fail.
#[derive(Drop)]
pub struct MemSink {
    bytes: Vec<u8>,
    plan: Plan,
}

impl Model for MemSink {
    ghost use Rattle.vold_io.specs.MemSink.{SinkState};

    ghost Value = { SinkState };

    ghost view = { λ sink. record {
      taken = sink.bytes.items;
      calls = sink.plan.calls;
      faults = sink.plan.faults;
      fail_at = sink.plan.fail_at;
    } };
}

impl MemSink {
    /// An empty sink. The write of number `fail_at`, counted from 0, fails; one for which memory runs out has no
    /// number.
    pub fn new(alloc: Global, fail_at: Option<u64>) -> MemSink
        ensures { result ≡ record { taken = []; calls = 0; faults = 0; fail_at = fail_at } }
    {
        MemSink {
            bytes: Vec::new(alloc),
            plan: Plan::new(fail_at),
        }
    }

    /// The bytes that it took.
    pub fn as_slice(&self) -> &[u8]
        ensures { result.now ≡ self.now.taken }
    {
        self.bytes.as_slice()
    }

    /// Adds bytes at the end.
    fn append(&mut self, bytes: &[u8]) -> Result<(), NoMemory>
        ensures ok { OnOk result (self.new ≡ record self.old { taken = self.old.taken ++ bytes.now }) }
        ensures err { OnErr result (self.new ≡ self.old) }
    {
        self.bytes.extend_from_slice(bytes)?;
        Ok(())
    }
}

impl Sink for MemSink {
    ghost taken = { λ sink. Some sink.taken };

    ghost fault_count = { λ sink. sink.faults };

    ghost never_fails = { λ sink. IsNone sink.fail_at };

    ghost wants_no_memory = { λ _. ⊥ };

    /// Takes all of the bytes.
    fn write(&mut self, bytes: &[u8]) -> Result<usize, SinkFault>
        ensures bound { IfOk result (λ count. count ≤ length bytes.now) }
        ensures progress { IfOk result (λ count. 0 < length bytes.now → 0 < count) }
        ensures took { IfOk result (λ count. self.new.taken ≡ self.old.taken ++ take count bytes.now) }
        ensures kept { OnErr result (self.new.taken ≡ self.old.taken) }
        ensures faults { CountsFaults (IsErrOf result SinkFault.Failed) self.old.faults self.new.faults }
        ensures steady { IsNone self.old.fail_at → IsNone self.new.fail_at × ¬ (IsErrOf result SinkFault.Failed) }

        ensures fails { IsErrOf result SinkFault.Failed ↔ (self.old.fail_at ≡ Some self.old.calls) }
        ensures ok { OnOk result
            (self.new ≡ record self.old { taken = self.old.taken ++ bytes.now; calls = one_more self.old.calls }) }
        ensures failed { IsErrOf result SinkFault.Failed
            → self.new ≡ record self.old { calls = one_more self.old.calls; faults = one_more self.old.faults } }
        ensures no_memory { IsErrOf result SinkFault.NoMemory → self.new ≡ self.old }
    {
        if self.plan.is_due() {
            self.plan.count_fault();
            return Err(SinkFault::Failed);
        }
        self.append(bytes)?;
        self.plan.count_call();
        Ok(bytes.len())
    }

    fn faults(&self) -> u64 {
        self.plan.faults
    }
}
