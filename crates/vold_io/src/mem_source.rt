ghost use Rattle.std.specs.Prelude.{◌<◌, ◌≡◌, ◌≤◌, ◌↔◌, ◌++◌, min, drop, length, take, IfOk, IfSome, IsErr, IsNone};
ghost use Rattle.std.specs.Prelude.{IsOk, OnErr, Some, []};
ghost use Rattle.tree_model.specs.Counted.{one_more};
ghost use Rattle.vold_io.specs.Counted.{CountsFaults};

use crate::plan::Plan;
use crate::source::{Failed, Source};
use std::marker::Model;
use tree_model::Bytes;

/// A source over bytes in memory. The read of one number can be made to fail.
#[derive(Drop)]
pub struct MemSource {
    bytes: Bytes,
    position: usize,
    plan: Plan,
}

impl Model for MemSource {
    ghost use Rattle.std.specs.Prelude.{◌≤◌, drop, length};
    ghost use Rattle.vold_io.specs.MemSource.{SourceState};

    ghost Value = { SourceState };

    ghost view = { λ source. record {
      rest = drop source.position source.bytes;
      calls = source.plan.calls;
      faults = source.plan.faults;
      fail_at = source.plan.fail_at;
    } };

    ghost invariant = { λ source. source.position ≤ length source.bytes };
}

impl MemSource {
    /// A source of all of `bytes`. The read of number `fail_at`, counted from 0, fails.
    pub fn new(bytes: Bytes, fail_at: Option<u64>) -> MemSource
        ensures { result ≡ record { rest = bytes; calls = 0; faults = 0; fail_at = fail_at } }
    {
        MemSource {
            bytes,
            position: 0,
            plan: Plan::new(fail_at),
        }
    }
}

impl Source for MemSource {
    ghost rest = { λ source. Some source.rest };

    ghost fault_count = { λ source. source.faults };

    ghost never_fails = { λ source. IsNone source.fail_at };

    fn read(&mut self, buf: &mut [u8]) -> Result<usize, Failed>
        ensures bound { IfOk result (λ count. count ≤ length buf.new) }
        ensures taken { IfOk result (λ count. self.old.rest ≡ take count buf.new ++ self.new.rest) }
        ensures end { IfOk result (λ count. 0 < length buf.new → (count ≡ 0) ↔ (self.old.rest ≡ [])) }
        ensures kept { OnErr result (self.new.rest ≡ self.old.rest) }
        ensures faults { CountsFaults (IsErr result) self.old.faults self.new.faults }
        ensures steady { IsNone self.old.fail_at → IsNone self.new.fail_at × IsOk result }

        ensures fails { IsErr result ↔ (self.old.fail_at ≡ Some self.old.calls) }
        ensures count { IfOk result (λ count. count ≡ min (length buf.old) (length self.old.rest)) }
        ensures ok { IfOk result
            (λ count. self.new
            ≡ record self.old { rest = drop count self.old.rest; calls = one_more self.old.calls }) }
        ensures failed { OnErr result
            (self.new ≡ record self.old { calls = one_more self.old.calls; faults = one_more self.old.faults }) }
    {
        if self.plan.is_due() {
            self.plan.count_fault();
            return Err(Failed);
        }
        self.plan.count_call();
        let rest = &self.bytes.as_slice()[self.position..];
        let count = rest.len().min(buf.len());
        buf[..count].copy_from_slice(&rest[..count]);
        self.position += count;
        Ok(count)
    }

    fn faults(&self) -> u64 {
        self.plan.faults
    }
}
