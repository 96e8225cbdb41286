ghost use Rattle.std.specs.Prelude.{◌≡◌, ◌+◌, ◌^◌, ◌<◌, [], true, min, length, take, OnOk, IsTrue, ◌↔◌};
ghost use Rattle.journal_model.specs.declared.phase.Phase.TheVariants.{Down, Halted};
ghost use Rattle.journal_model.specs.Machine.{phase_after};
ghost use Rattle.vold_book.specs.Parts.{new_tracker, count_changes, noted};

use journal_model::{Command, Phase, Reply};
use std::alloc::Global;
use std::marker::Model;
use task_turns::Call;
use tree_model::{LocalOp, NoMemory};

/// What the journal says of the machine, besides what runs on it.
#[derive(Drop)]
pub struct Tracker {
    phase: Phase,
    boot: u64,
    level: u32,
    durable: u64,
    pending: Vec<bool>,
}

impl Model for Tracker {
    ghost use Rattle.std.specs.Prelude.{◌-◌, vec_len};
    ghost use Rattle.std.specs.Vec.{vec_capacity};
    ghost use Rattle.vold_book.specs.Parts.{RoomyTracker};

    ghost Value = { RoomyTracker };

    ghost view = { λ tracker.
        record {
          now = record {
            phase = tracker.phase;
            boot = tracker.boot;
            level = tracker.level;
            durable = tracker.durable;
            pending = tracker.pending.items;
          };
          room = vec_capacity tracker.pending - vec_len tracker.pending;
        } };
}

impl Tracker {
    /// The machine as it begins, at this level.
    pub fn new(alloc: Global, level: u32) -> Tracker
        ensures { result.now ≡ record new_tracker { level = level } }
    {
        Tracker {
            phase: Phase::Up,
            boot: 0,
            level,
            durable: 0,
            pending: Vec::new(alloc),
        }
    }

    /// Whether the machine takes commands.
    pub fn phase(&self) -> Phase
        ensures { result ≡ self.now.now.phase }
    {
        self.phase
    }

    /// How often it started again.
    pub fn boot(&self) -> u64
        ensures { result ≡ self.now.now.boot }
    {
        self.boot
    }

    /// Its level.
    pub fn level(&self) -> u32
        ensures { result ≡ self.now.now.level }
    {
        self.level
    }

    /// Whether an operation is pending.
    pub fn is_dirty(&self) -> bool
        ensures { IsTrue result ↔ ¬ (self.now.now.pending ≡ []) }
    {
        !self.pending.is_empty()
    }

    /// Takes room for one more pending operation.
    pub fn reserve(&mut self) -> Result<(), NoMemory>
        ensures same { self.new.now ≡ self.old.now }
        ensures room { OnOk result (0 < self.new.room) }
    {
        self.pending.reserve(1)?;
        Ok(())
    }

    /// Notes a call, which the device did or not, and whether it makes a change, in room that was promised.
    pub fn note(&mut self, call: &Call, made: bool, change: bool)
        requires room { 0 < self.old.room }
        requires few { self.old.now.durable + count_changes self.old.now.pending < 2 ^ 64 }
        ensures { self.new.now ≡ noted made call.now change self.old.now }
    {
        match call {
            Call::Op { .. } if made => self.pending.push(change).unwrap(),
            Call::Op {
                op: LocalOp::Write(_, _, _),
                ..
            } => self.pending.push(false).unwrap(),
            Call::Sync if made => {
                self.durable += changes_among(self.pending.as_slice());
                self.pending.clear();
            }
            _ => {}
        }
    }

    /// How many changes survive a stop that keeps this number of the pending operations.
    pub fn survivors(&self, keep: u64) -> u64
        requires { self.now.now.durable + count_changes self.now.now.pending < 2 ^ 64 }
        ensures { result ≡ self.now.now.durable + count_changes
            (take (min keep (length self.now.now.pending)) self.now.now.pending) }
    {
        let pending = self.pending.as_slice();
        let kept = (keep as usize).min(pending.len());
        self.durable + changes_among(&pending[..kept])
    }

    /// The command got its reply.
    pub fn reply(&mut self, command: &Command, reply: Reply)
        ensures { self.new.now ≡ record self.old.now { phase = phase_after self.old.now.phase command.now reply } }
    {
        self.phase = self.phase.after_reply(command, reply);
    }

    /// The machine stopped, and so many changes survived.
    pub fn stop(&mut self, kept: u64)
        ensures { self.new.now ≡ record self.old.now { phase = Halted; durable = kept; pending = [] } }
    {
        self.phase = Phase::Halted;
        self.durable = kept;
        self.pending.clear();
    }

    /// The machine started again.
    pub fn restart(&mut self, boot: u64, level: u32)
        ensures { self.new.now ≡ record self.old.now { phase = Down; boot = boot; level = level } }
    {
        self.phase = Phase::Down;
        self.boot = boot;
        self.level = level;
    }
}

/// How many of the operations make a change.
fn changes_among(pending: &[bool]) -> u64
    ensures { result ≡ count_changes pending.now }
{
    let mut count = 0;
    for change in pending {
        if *change {
            count += 1;
        }
    }
    count
}
