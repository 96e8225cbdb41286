//! The queues of the actors that have one.

ghost use Rattle.std.specs.Prelude.{◌≡◌, ◌≢◌, [], ◌∷◌, ◌++◌, OnOk, OnErr, IsSomeAnd};
ghost use Rattle.std.specs.FinMap as map;
ghost use Rattle.sorted_map.specs.Maps.{held};
ghost use Rattle.docket.specs.Docket.{queue_of, IsFirst, DropsFirst};

use crate::queue::Queue;
use sorted_map::{ExactOrd, SortedMap};
use std::alloc::Global;
use tree_model::NoMemory;

/// The first number of the actor's queue.
pub fn first<A: Ord + ExactOrd + Copy>(waiting: &SortedMap<A, Queue>, actor: A) -> u64
    requires { IsSomeAnd (map.get (held A.cmp waiting.now) actor) (λ queue. queue ≢ []) }
    ensures { IsSomeAnd (map.get (held A.cmp waiting.now) actor) (λ queue. IsFirst queue result) }
{
    match waiting.get(actor) {
        Some(queue) => queue.first(),
        None => unreachable!(),
    }
}

/// Takes the first number of the actor's queue out, and the queue with its last one.
pub fn take_first<A: Ord + ExactOrd + Copy>(
    alloc: Global,
    waiting: &mut SortedMap<A, Queue>,
    actor: A,
) -> u64
    requires { IsSomeAnd (map.get (held A.cmp waiting.old) actor) (λ queue. queue ≢ []) }
    ensures { DropsFirst (held A.cmp waiting.old) (held A.cmp waiting.new) actor result }
{
    let mut queue = waiting.replace(actor, Queue::new(alloc));
    let number = queue.pop();
    if queue.is_empty() {
        waiting.remove(actor);
    } else {
        waiting.replace(actor, queue);
    }
    number
}

/// Adds a number last to the actor's queue.
pub fn add<A: Ord + ExactOrd + Copy>(
    alloc: Global,
    waiting: &mut SortedMap<A, Queue>,
    actor: A,
    number: u64,
) -> Result<(), NoMemory>
    ensures added { OnOk result (held A.cmp waiting.new
        ≡ map.insert (held A.cmp waiting.old) actor (queue_of (held A.cmp waiting.old) actor ++ number ∷ [])) }
    ensures refused { OnErr result (held A.cmp waiting.new ≡ held A.cmp waiting.old) }
{
    if waiting.contains_key(actor) {
        let mut queue = waiting.replace(actor, Queue::new(alloc));
        let pushed = queue.push(number);
        waiting.replace(actor, queue);
        pushed
    } else {
        let mut queue = Queue::new(alloc);
        queue.push(number)?;
        waiting.insert(actor, queue)?;
        Ok(())
    }
}

/// Adds a number first to the actor's queue.
pub fn add_first<A: Ord + ExactOrd + Copy>(
    alloc: Global,
    waiting: &mut SortedMap<A, Queue>,
    actor: A,
    number: u64,
) -> Result<(), NoMemory>
    ensures added { OnOk result (held A.cmp waiting.new
        ≡ map.insert (held A.cmp waiting.old) actor (number ∷ queue_of (held A.cmp waiting.old) actor)) }
    ensures refused { OnErr result (held A.cmp waiting.new ≡ held A.cmp waiting.old) }
{
    if waiting.contains_key(actor) {
        let mut queue = waiting.replace(actor, Queue::new(alloc));
        let pushed = queue.push_first(number);
        waiting.replace(actor, queue);
        pushed
    } else {
        let mut queue = Queue::new(alloc);
        queue.push_first(number)?;
        waiting.insert(actor, queue)?;
        Ok(())
    }
}
