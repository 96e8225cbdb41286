//! Numbers, queues, what runs and the next busy actor, over any type of actors and of commands.
#![tactic(auto)]

ghost use Rattle.std.specs.Prelude.{◌≡◌, ◌-◌, ◌^◌, ◌<◌, ◌↔◌, length, IsTrue, IsSome, IsSomeAnd, Some, slice_get};
ghost use Rattle.std.specs.Prelude.{IfOk, OnOk, OnErr, option_copied};
ghost use Rattle.std.specs.FinMap as map;
ghost use Rattle.docket.specs.Docket.{docket_of, empty_docket, with_command, with_first_command, begun_by};
ghost use Rattle.docket.specs.Docket.{IsFirst, TakesFirst, IsNextBusy, earlier_of};

pub mod laws;
mod queue;
mod waiting;

use queue::Queue;
use sorted_map::{ExactOrd, SortedMap};
use std::alloc::Global;
use std::marker::Model;
use tree_model::NoMemory;

/// The commands that were given a number, the queues in which they wait, and what each actor runs.
#[derive(Drop)]
pub struct Docket<A: Ord + ExactOrd + Copy, C, R> {
    alloc: Global,
    commands: Vec<C>,
    waiting: SortedMap<A, Queue>,
    running: SortedMap<A, R>,
    begun: SortedMap<A, u32>,
}

impl<A: Ord + ExactOrd + Copy, C, R> Model for Docket<A, C, R> {
    ghost use Rattle.std.specs.Prelude.{length};
    ghost use Rattle.sorted_map.specs.Maps.{held};
    ghost use Rattle.docket.specs.Docket.{StoredDocket, docket_code, AllQueues};

    ghost Value = { StoredDocket A C R };

    ghost coded = { docket_code A.code C.code R.code };

    ghost view = { λ docket. record {
      commands = docket.commands.items;
      waiting = docket.waiting;
      running = docket.running;
      begun = docket.begun;
    } };

    ghost invariant = { λ docket. AllQueues (length docket.commands.items) (held A.cmp docket.waiting) };
}

impl<A: Ord + ExactOrd + Copy, C: Drop, R: Drop> Docket<A, C, R> {
    /// A docket on which nothing was given a number. It takes no memory.
    pub fn new(alloc: Global) -> Docket<A, C, R>
        ensures { docket_of A.cmp result ≡ empty_docket }
    {
        Docket {
            alloc,
            commands: Vec::new(alloc),
            waiting: SortedMap::new(alloc),
            running: SortedMap::new(alloc),
            begun: SortedMap::new(alloc),
        }
    }

    /// How many commands were given a number.
    pub fn count(&self) -> usize
        ensures { result ≡ length (docket_of A.cmp self.now).commands }
    {
        self.commands.len()
    }

    /// The command of a number that was given.
    pub fn command(&self, number: u64) -> &C
        requires { number < length (docket_of A.cmp self.now).commands }
        ensures { slice_get (docket_of A.cmp self.now).commands number ≡ Some result.now }
    {
        &self.commands[number as usize]
    }

    /// The command of a number; None where the number was not given.
    pub fn find(&self, number: u64) -> Option<&C>
        ensures { option_copied result ≡ slice_get (docket_of A.cmp self.now).commands number }
    {
        self.commands.get(number as usize)
    }

    /// Whether something waits for the actor.
    pub fn is_waiting(&self, actor: A) -> bool
        ensures { IsTrue result ↔ IsSome (map.get (docket_of A.cmp self.now).waiting actor) }
    {
        self.waiting.contains_key(actor)
    }

    /// What the actor runs; None where it runs nothing.
    pub fn running(&self, actor: A) -> Option<&R>
        ensures { option_copied result ≡ map.get (docket_of A.cmp self.now).running actor }
    {
        self.running.get(actor)
    }

    /// What runs, in the order of actors.
    pub fn works(&self) -> &[R]
        ensures { result.now ≡ map.values (docket_of A.cmp self.now).running }
    {
        self.running.values()
    }

    /// The first number that waits for the actor, for which something waits.
    pub fn first(&self, actor: A) -> u64
        requires { IsSome (map.get (docket_of A.cmp self.now).waiting actor) }
        ensures first { IsSomeAnd (map.get (docket_of A.cmp self.now).waiting actor) (λ queue. IsFirst queue result) }
        ensures within { result < length (docket_of A.cmp self.now).commands }
    {
        waiting::first(&self.waiting, actor)
    }

    /// How many commands the actor began since the last restart.
    pub fn begun(&self, actor: A) -> u32
        ensures { result ≡ begun_by (docket_of A.cmp self.now) actor }
    {
        self.begun.get(actor).copied().unwrap_or(0)
    }

    /// Gives a command the next number, which waits last for the actor.
    pub fn enqueue(&mut self, actor: A, command: C) -> Result<u64, NoMemory>
        ensures number { IfOk result (λ number. number ≡ length (docket_of A.cmp self.old).commands) }
        ensures queued { OnOk result (docket_of A.cmp self.new
            ≡ with_command (docket_of A.cmp self.old) actor command) }
        ensures refused { OnErr result (docket_of A.cmp self.new ≡ docket_of A.cmp self.old) }
    {
        let number = self.commands.len() as u64;
        self.commands.reserve(1)?;
        waiting::add(self.alloc, &mut self.waiting, actor, number)?;
        self.commands.push(command).unwrap();
        Ok(number)
    }

    /// Gives a command the next number, which waits first for the actor.
    pub fn enqueue_first(&mut self, actor: A, command: C) -> Result<u64, NoMemory>
        ensures number { IfOk result (λ number. number ≡ length (docket_of A.cmp self.old).commands) }
        ensures queued { OnOk result (docket_of A.cmp self.new
            ≡ with_first_command (docket_of A.cmp self.old) actor command) }
        ensures refused { OnErr result (docket_of A.cmp self.new ≡ docket_of A.cmp self.old) }
    {
        let number = self.commands.len() as u64;
        self.commands.reserve(1)?;
        waiting::add_first(self.alloc, &mut self.waiting, actor, number)?;
        self.commands.push(command).unwrap();
        Ok(number)
    }

    /// The actor runs the first command that waits for it, and its number comes back. All memory is taken before
    /// anything changes.
    pub fn begin(&mut self, actor: A, work: R) -> Result<u64, NoMemory>
        requires queued { IsSome (map.get (docket_of A.cmp self.old).waiting actor) }
        requires few { begun_by (docket_of A.cmp self.old) actor < 2 ^ 32 - 1 }
        ensures begun { IfOk result (λ number.
            TakesFirst (docket_of A.cmp self.old) (docket_of A.cmp self.new) actor number work) }
        ensures refused { OnErr result (docket_of A.cmp self.new ≡ docket_of A.cmp self.old) }
    {
        self.running.reserve(1)?;
        self.begun.reserve(1)?;
        let begun = self.begun.get(actor).copied().unwrap_or(0);
        let number = waiting::take_first(self.alloc, &mut self.waiting, actor);
        self.running.insert(actor, work).unwrap();
        self.begun.insert(actor, begun + 1).unwrap();
        Ok(number)
    }

    /// The actor, which runs something, runs this from now on, and what it ran comes back. It takes no memory.
    pub fn set(&mut self, actor: A, work: R) -> R
        requires { IsSome (map.get (docket_of A.cmp self.old).running actor) }
        ensures was { map.get (docket_of A.cmp self.old).running actor ≡ Some result }
        ensures runs { docket_of A.cmp self.new ≡ record (docket_of A.cmp self.old) {
          running = map.insert (docket_of A.cmp self.old).running actor work;
        } }
    {
        self.running.replace(actor, work)
    }

    /// The actor runs nothing from now on.
    pub fn end(&mut self, actor: A)
        ensures { docket_of A.cmp self.new ≡ record (docket_of A.cmp self.old) {
          running = map.remove (docket_of A.cmp self.old).running actor;
        } }
    {
        self.running.remove(actor);
    }

    /// Nobody runs anything from now on.
    pub fn stop(&mut self)
        ensures { docket_of A.cmp self.new ≡ record (docket_of A.cmp self.old) { running = map.empty } }
    {
        self.running.clear();
    }

    /// Counts anew what each actor begins.
    pub fn restart(&mut self)
        ensures { docket_of A.cmp self.new ≡ record (docket_of A.cmp self.old) { begun = map.empty } }
    {
        self.begun.clear();
    }

    /// The first actor above another, or of all, that runs something or for which something waits; None where there is
    /// none.
    pub fn next_busy(&self, after: Option<A>) -> Option<A>
        ensures { IsNextBusy (docket_of A.cmp self.now) after result }
    {
        earlier(self.running.next_key(after), self.waiting.next_key(after))
    }
}

/// The earlier of two actors, where there is one.
fn earlier<A: Ord + Copy>(a: Option<A>, b: Option<A>) -> Option<A>
    ensures { result ≡ earlier_of A.cmp a b }
{
    match (a, b) {
        (Some(a), Some(b)) => Some(a.min(b)),
        (Some(a), None) => Some(a),
        (None, b) => b,
    }
}

#[cfg(test)]
mod tests {
    use super::*;
    use std::test::Fail;

    /// Work that isn't `Copy`.
    #[derive(Drop)]
    struct Work(u8);

    #[test]
    fn runs_what_waits_first(rt: HostRuntime) -> Result<(), Fail> {
        let mut docket: Docket<u32, u8, Work> = Docket::new(rt.alloc());
        docket.enqueue(5, 50)?;
        docket.enqueue_first(5, 51)?;
        assert!(rt; docket.count() == 2);
        assert!(rt; docket.is_waiting(5));
        let number = docket.first(5);
        assert!(rt; *docket.command(number) == 51);
        assert!(rt; docket.begun(5) < u32::MAX);
        docket.begin(5, Work(1))?;
        assert!(rt; docket.running(5).is_some());
        assert!(rt; docket.set(5, Work(2)).0 == 1);
        docket.end(5);
        docket.stop();
        docket.restart();
        assert!(rt; docket.next_busy(None) == Some(5));
        Ok(())
    }
}
