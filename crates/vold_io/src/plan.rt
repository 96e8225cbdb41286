ghost use Rattle.std.specs.Prelude.{◌≡◌, ◌≤◌, ◌↔◌, IsTrue, Some};
ghost use Rattle.tree_model.specs.Counted.{one_more, Rose};

/// Which call of an object in memory fails, counted from 0, and how many calls and faults there were.
#[derive(Clone, Copy)]
pub struct Plan {
    pub calls: u64,
    pub faults: u64,
    pub fail_at: Option<u64>,
}

impl Plan {
    /// A plan before its first call.
    pub fn new(fail_at: Option<u64>) -> Plan
        ensures { result ≡ record { calls = 0; faults = 0; fail_at = fail_at } }
    {
        Plan {
            calls: 0,
            faults: 0,
            fail_at,
        }
    }

    /// Whether the next call is the one that fails.
    pub fn is_due(&self) -> bool
        ensures { IsTrue result ↔ (self.now.fail_at ≡ Some self.now.calls) }
    {
        self.fail_at == Some(self.calls)
    }

    /// Counts a call that did not fail.
    pub fn count_call(&mut self)
        ensures { self.new ≡ record self.old { calls = one_more self.old.calls } }
    {
        self.calls = self.calls.saturating_add(1);
    }

    /// Counts a call that failed.
    pub fn count_fault(&mut self)
        ensures counted { self.new
            ≡ record self.old { calls = one_more self.old.calls; faults = one_more self.old.faults } }
        ensures never_falls { self.old.faults ≤ self.new.faults }
        ensures rose { Rose self.old.faults self.new.faults }
    {
        self.calls = self.calls.saturating_add(1);
        self.faults = self.faults.saturating_add(1);
    }
}
