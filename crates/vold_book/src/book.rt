ghost use Rattle.std.specs.Prelude.{◌≡◌, ◌≢◌, ◌+◌, ◌^◌, ◌↔◌, ◌&&◌, ◌<◌, ◌≤◌, [], Err, IsSome, IsNone, IsTrue};
ghost use Rattle.std.specs.Prelude.{IfOk, IfSome, OnOk, OnErr, length, cond, Some, None};
ghost use Rattle.std.specs.FinMap as map;
ghost use Rattle.std.specs.FinSet as set;
ghost use Rattle.tree_model.specs.Counted.{IsCounted};
ghost use Rattle.tree_model.specs.Disk.{view};
ghost use Rattle.keystore_model.specs.Store.{empty_store, listed};
ghost use Rattle.journal_model.specs.declared.phase.Phase.TheVariants.{Up, Halted};
ghost use Rattle.journal_model.specs.Command.{user_in};
ghost use Rattle.journal_model.specs.Machine.{TakesTurn};
ghost use Rattle.journal_model.specs.Refusals.{refusal_of};
ghost use Rattle.docket.specs.Docket.{IsNextBusy};
ghost use Rattle.bench.specs.Bench.{listed as listed_more};
ghost use Rattle.vold_book.specs.Endings.{EndsDue, EndsGone};
ghost use Rattle.vold_book.specs.Knowing.{IsKnown, IsTold, has_key_in, has_temp_in};
ghost use Rattle.vold_book.specs.Listing.{ListsEnded, OwesOn};
ghost use Rattle.vold_book.specs.Opening.{OpensFirst, KeepsOpened};
ghost use Rattle.vold_book.specs.Recovery.{max_commands};
ghost use Rattle.vold_book.specs.Stands.{standing_of, IsLooked};
ghost use Rattle.vold_book.specs.State.{machine_of, seen, senses};
ghost use Rattle.vold_book.specs.Steps.{IsStep, GoesOn, IsPlanned, RepliesNext};
ghost use Rattle.vold_book.specs.Stops.{IsStopped, IsRestarted};
ghost use Rattle.vold_book.specs.Tasks.{blobs_in};
ghost use Rattle.vold_book.specs.Turns.{new_book, new_bench, opened_at, with_command, IsEnqueued, facts_in};
ghost use Rattle.vold_book.specs.Turns.{user_there, AcceptedTask, FirstTask, unlisted, Begins, Answers, LeavesOthers};
ghost use Rattle.vold_book.specs.Turns.{Falls, ComesUp, IsSame, marks_with};
ghost use Rattle.vold_book.specs.Whole.{IsWhole};

use crate::calls::{self, Called};
use crate::entries::entry_of;
use crate::ledger::Ledger;
use crate::opened::{Counted, Opened};
use crate::owed::Owed;
use crate::plans::{self, Plan, Planned};
use crate::recovery::Recovery;
use crate::standings::{self, Standing};
use crate::tasks::{Held, Running, Task, fault_of};
use crate::tracker::Tracker;
use crate::turns::{Step, Turn};
use crate::{crowds, slots, sweeping};
use bench::Bench;
use deferred_delete::Deferred;
use docket::Docket;
use journal_model::{
    Actor, Birth, Command, EnqueueFault, Entry, Facts, Journal, Order, Phase, Reply, boot_seed,
    refusal,
};
use key_ring::KeyRing;
use keystore_model::{Keystore, Tag};
use std::alloc::Global;
use std::marker::Model;
use step_core::Table;
use task_turns::{Call, Next};
use tree_model::{Blob, Bytes, Class, Cut, DevFault, Dir, NoMemory, Place, TreeDisk};
use user_tasks::{Known, Looks, UserTask};
use user_world::LocalChange;

/// The most commands that a Book numbers.
pub const MAX_COMMANDS: usize = 65_536;

/// The devices, what was done on them, the actors with their queues and running commands, and what the journal says of
/// the machine.
#[derive(Drop)]
pub struct Book<T: TreeDisk, K: Keystore, G: KeyRing> {
    alloc: Global,
    bench: Bench<T, K, G>,
    opened: Opened,
    seed: Bytes,
    ledger: Ledger,
    docket: Docket<Actor, Command, Running>,
    tracker: Tracker,
}

impl<T: TreeDisk, K: Keystore, G: KeyRing> Model for Book<T, K, G> {
    ghost use Rattle.std.specs.Coded.{codes};
    ghost use Rattle.std.specs.FinMap as map;
    ghost use Rattle.journal_model.specs.Actor.{actor_code};
    ghost use Rattle.tree_model.specs.Order.{place_code};
    ghost use Rattle.bench.specs.Bench.{BenchState};
    ghost use Rattle.vold_book.specs.contracts.opened.Opened as opened_type;
    ghost use Rattle.vold_book.specs.contracts.tasks.Running as running_type;
    ghost use Rattle.vold_book.specs.State.{BookState};

    ghost Value = { BookState (BenchState T K G) };

    ghost coded = { Prim.hlevel (
      codes,
      T.code,
      K.code,
      G.code,
      map.code,
      actor_code,
      place_code,
      opened_type.the_row.coded,
      running_type.the_row.coded,
    ) };

    ghost use Rattle.vold_book.specs.State.{senses, book_of};
    ghost use Rattle.vold_book.specs.Whole.{IsWhole};

    ghost view = { λ book. book_of (record {
      tree = book.bench.tree;
      store = book.bench.store;
      ring = book.bench.ring;
      places = book.bench.table.places;
      list = book.bench.list;
      opened = book.opened;
      seed = book.seed;
      boot_seed = book.bench.seed;
      marks = book.bench.table.marks;
      ledger = book.ledger.now;
      docket = book.docket;
      tracker = book.tracker.now;
    }) };

    ghost invariant = { λ book. IsWhole (senses T.disk T.counts K.store K.counts G.ring G.counts) (book_of (record {
      tree = book.bench.tree;
      store = book.bench.store;
      ring = book.bench.ring;
      places = book.bench.table.places;
      list = book.bench.list;
      opened = book.opened;
      seed = book.seed;
      boot_seed = book.bench.seed;
      marks = book.bench.table.marks;
      ledger = book.ledger.now;
      docket = book.docket;
      tracker = book.tracker.now;
    })) };
}

impl<T: TreeDisk, K: Keystore, G: KeyRing> Book<T, K, G> {
    /// An open Book with an empty journal, over a tree device, a keystore and a key ring that hold nothing. The level
    /// of a machine that never stopped is 1.
    pub fn open(
        alloc: Global,
        tree: T,
        store: K,
        ring: G,
        seed: Bytes,
        level: u32,
    ) -> Result<Book<T, K, G>, NoMemory>
        requires tree { T.disk tree ≡ record { stable = map.empty; pending = [] } }
        requires store { K.store store ≡ empty_store level }
        requires ring { G.ring ring ≡ [] }
        requires seed { length seed ≤ 64 }
        requires level { level ≡ 1 }
        ensures opened { IfOk result (λ book. book
            ≡ new_book (new_bench tree store ring) (opened_at (T.counts tree) (K.counts store) (G.counts ring)) seed) }
        ensures whole { IfOk result (IsWhole (senses T.disk T.counts K.store K.counts G.ring G.counts)) }
    {
        let opened = Opened {
            tree: Counted {
                calls: tree.calls(),
                faults: tree.faults(),
            },
            store: Counted {
                calls: store.calls(),
                faults: store.faults(),
            },
            ring: Counted {
                calls: ring.calls(),
                faults: ring.faults(),
            },
        };
        let boot_seed = boot_seed(seed.as_slice(), 0);
        Ok(Book {
            alloc,
            bench: Bench::new(tree, store, ring, boot_seed, alloc),
            opened,
            seed,
            ledger: Ledger::new(alloc),
            docket: Docket::new(alloc),
            tracker: Tracker::new(alloc, level),
        })
    }

    /// Gives the command the next number, from 0; it waits last for its actor. Full exactly where every number is
    /// given out. On a refusal the command is given up and nothing else changes.
    pub fn enqueue(&mut self, command: Command) -> Result<u64, EnqueueFault>
        ensures answer { IsEnqueued self.old self.new command result }
        ensures whole { IsWhole (senses T.disk T.counts K.store K.counts G.ring G.counts) self.new }
    {
        if self.is_full() {
            return Err(EnqueueFault::Full);
        }
        match self.give_number(command) {
            Ok(number) => Ok(number),
            Err(NoMemory) => Err(EnqueueFault::NoMemory),
        }
    }

    /// Whether every number is given out.
    pub fn is_full(&self) -> bool
        ensures full { IsTrue result ↔ (length self.now.docket.commands ≡ max_commands) }
        ensures few { length self.now.docket.commands ≤ max_commands }
        ensures whole { IsWhole (senses T.disk T.counts K.store K.counts G.ring G.counts) self.now }
    {
        self.docket.count() == MAX_COMMANDS
    }

    /// Gives the command the next number, where one is left.
    fn give_number(&mut self, command: Command) -> Result<u64, NoMemory>
        requires { length self.old.docket.commands < max_commands }
        ensures number { IfOk result (λ number. number ≡ length self.old.docket.commands) }
        ensures queued { OnOk result (self.new ≡ with_command self.old command) }
        ensures refused { OnErr result (self.new ≡ self.old) }
        ensures whole { IsWhole (senses T.disk T.counts K.store K.counts G.ring G.counts) self.new }
    {
        self.docket.enqueue(command.actor(), command)
    }

    /// Makes the actor's next turn. Want of memory leaves the Book and the devices as they were, and the call may be
    /// made again.
    pub fn advance(&mut self, actor: Actor) -> Result<Turn, NoMemory>
        ensures turn { IfOk result
            (Answers (senses T.disk T.counts K.store K.counts G.ring G.counts) self.old self.new actor) }
        ensures others { OnOk result
            (LeavesOthers (seen (senses T.disk T.counts K.store K.counts G.ring G.counts) self.old)
            (seen (senses T.disk T.counts K.store K.counts G.ring G.counts) self.new) actor) }
        ensures ends { OnOk result
            (EndsDue (seen (senses T.disk T.counts K.store K.counts G.ring G.counts) self.old).bench
            (seen (senses T.disk T.counts K.store K.counts G.ring G.counts) self.new).bench) }
        ensures gone { OnOk result (EndsGone (seen (senses T.disk T.counts K.store K.counts G.ring G.counts) self.old)
            (seen (senses T.disk T.counts K.store K.counts G.ring G.counts) self.new) actor) }
        ensures lists { OnOk result (ListsEnded
            (seen (senses T.disk T.counts K.store K.counts G.ring G.counts) self.old)
            (seen (senses T.disk T.counts K.store K.counts G.ring G.counts) self.new) actor) }
        ensures owes { OnOk result (OwesOn (seen (senses T.disk T.counts K.store K.counts G.ring G.counts) self.old)
            (seen (senses T.disk T.counts K.store K.counts G.ring G.counts) self.new) actor) }
        ensures falls { IfOk result (Falls (seen (senses T.disk T.counts K.store K.counts G.ring G.counts) self.old)
            (seen (senses T.disk T.counts K.store K.counts G.ring G.counts) self.new)) }
        ensures ready { OnOk result (ComesUp (seen (senses T.disk T.counts K.store K.counts G.ring G.counts) self.old)
            (seen (senses T.disk T.counts K.store K.counts G.ring G.counts) self.new)) }
        ensures opens { OnOk result (OpensFirst
            (seen (senses T.disk T.counts K.store K.counts G.ring G.counts) self.old)
            (seen (senses T.disk T.counts K.store K.counts G.ring G.counts) self.new) actor) }
        ensures keeps { OnOk result (KeepsOpened
            (seen (senses T.disk T.counts K.store K.counts G.ring G.counts) self.old)
            (seen (senses T.disk T.counts K.store K.counts G.ring G.counts) self.new) actor) }
        ensures refused { OnErr result
            (IsSame (senses T.disk T.counts K.store K.counts G.ring G.counts) self.old self.new) }
        ensures whole { IsWhole (senses T.disk T.counts K.store K.counts G.ring G.counts) self.new }
    {
        match self.next_step(actor) {
            Step::Idle => Ok(Turn::Idle),
            Step::Waits => Ok(Turn::Waits),
            Step::Begin => {
                self.begin(actor)?;
                Ok(Turn::Went)
            }
            Step::GoOn => {
                self.go_on(actor)?;
                Ok(Turn::Went)
            }
        }
    }

    /// What the actor's next turn does.
    fn next_step(&self, actor: Actor) -> Step
        ensures step { IsStep self.now actor result }
        ensures whole { IsWhole (senses T.disk T.counts K.store K.counts G.ring G.counts) self.now }
    {
        match self.docket.running(actor) {
            Some(_) => Step::GoOn,
            None if !self.docket.is_waiting(actor) => Step::Idle,
            None if self.tracker.phase().takes(actor) => Step::Begin,
            None => Step::Waits,
        }
    }

    /// Begins what waits first for the actor.
    fn begin(&mut self, actor: Actor) -> Result<(), NoMemory>
        requires queued { IsSome (map.get self.old.docket.waiting actor) }
        requires idle { IsNone (map.get self.old.docket.running actor) }
        requires takes { TakesTurn self.old.tracker.phase actor }
        ensures begun { OnOk result (Begins self.old self.new actor) }
        ensures refused { OnErr result (self.new ≡ self.old) }
        ensures whole { IsWhole (senses T.disk T.counts K.store K.counts G.ring G.counts) self.new }
    {
        let number = self.docket.first(actor);
        let command = self.docket.command(number).duplicate(self.alloc)?;
        let birth = Birth {
            boot: self.tracker.boot(),
            index: self.docket.begun(actor),
        };
        let task = self.first_task(&command, number, birth)?;
        self.ledger.reserve()?;
        let anew = task.begins_anew();
        let owed = Owed::nothing(self.alloc);
        self.docket.begin(actor, Running { number, task, owed })?;
        begin_on(&mut self.bench, anew);
        self.ledger.enter(Entry::Began {
            number,
            actor,
            command,
        });
        Ok(())
    }

    /// What a command that begins does first: its refusal where one is due, and else its first turn.
    fn first_task(&self, command: &Command, number: u64, birth: Birth) -> Result<Task, NoMemory>
        requires { number < max_commands }
        ensures { IfOk result (FirstTask command.now (record {
          birth = birth;
          boot_seed = self.now.boot_seed;
          places = self.now.bench.places;
          ring = (machine_of self.now).ring;
        })
            (refusal_of command.now (facts_in self.now.bench.places self.now command.now))) }
    {
        let facts = Facts {
            present: self.is_there(command.user()),
            crowded: crowds::is_crowded(&self.bench.table, &self.docket),
            installed: self.has_key(command.user(), Class::Ce),
            full: slots::is_full(&self.bench.table, command.user()),
            ready: self.tracker.phase() == Phase::Up,
        };
        match refusal(command, facts) {
            Some(reply) => Ok(Task::Refusal(reply)),
            None => self.accepted_task(command, number, birth),
        }
    }

    /// What a command does first that isn't refused.
    fn accepted_task(&self, command: &Command, number: u64, birth: Birth) -> Result<Task, NoMemory>
        requires { number < max_commands }
        ensures { IfOk result (AcceptedTask command.now (record {
          birth = birth;
          boot_seed = self.now.boot_seed;
          places = self.now.bench.places;
          ring = (machine_of self.now).ring;
        })
            (user_in command.now)) }
    {
        let known = self.known(command)?;
        let seed = &self.bench.seed;
        match user_tasks::first(self.alloc, command, number, birth, seed, known)? {
            Some(task) => Ok(Task::User(task)),
            None => Ok(Task::Recovery(Recovery::Listing)),
        }
    }

    /// What is known of the user whom a command is for.
    fn known(&self, command: &Command) -> Result<Known, NoMemory>
        ensures { IfOk result (IsKnown self.now.bench.places (machine_of self.now).ring command.now) }
    {
        let table = &self.bench.table;
        let slots = slots::slots_known(self.alloc, table, command.user())?;
        Ok(Known {
            newest: slots::last_of(slots.as_slice()),
            slots,
            to_try: slots::slots_for(self.alloc, table, command)?,
            next: slots::slot_next(table, command),
            has_ce: self.has_key(command.user(), Class::Ce),
            has_de: self.has_key(command.user(), Class::De),
            has_temp: self.has_temp(command.user()),
        })
    }

    /// Whether the user, if there is one, has a device key's directory.
    fn is_there(&self, user: Option<u32>) -> bool
        ensures { result ≡ user_there self.now.bench.places user }
    {
        match user {
            Some(user) => self.bench.table.has(Place::De(user)),
            None => false,
        }
    }

    /// Whether the user, if there is one, has a temporary directory.
    fn has_temp(&self, user: Option<u32>) -> bool
        ensures { result ≡ has_temp_in self.now.bench.places user }
    {
        match user {
            Some(user) => self.bench.table.has(Place::Temp(user)),
            None => false,
        }
    }

    /// Whether the user, if there is one, has a key of this class in the ring.
    fn has_key(&self, user: Option<u32>, class: Class) -> bool
        ensures { result ≡ has_key_in (machine_of self.now).ring user class }
    {
        match user {
            Some(user) => self.bench.ring.get(user, class).is_some(),
            None => false,
        }
    }

    /// Makes the next turn of the command that the actor runs.
    fn go_on(&mut self, actor: Actor) -> Result<(), NoMemory>
        requires { IsSome (map.get self.old.docket.running actor) }
        ensures turned { OnOk result
            (GoesOn (senses T.disk T.counts K.store K.counts G.ring G.counts) self.old self.new actor) }
        ensures refused { OnErr result
            (IsSame (senses T.disk T.counts K.store K.counts G.ring G.counts) self.old self.new) }
        ensures whole { IsWhole (senses T.disk T.counts K.store K.counts G.ring G.counts) self.new }
    {
        let Planned { task, plan } = self.planned(actor)?;
        match plan {
            Plan::Call { call, change } => self.call(actor, task, call, change),
            Plan::Reply(reply) => {
                drop(task);
                self.reply(actor, reply)
            }
        }
    }

    /// What the actor's command does next, which shows what it has to.
    fn planned(&self, actor: Actor) -> Result<Planned, NoMemory>
        requires { IsSome (map.get self.now.docket.running actor) }
        ensures plans { IfOk result
            (IsPlanned (seen (senses T.disk T.counts K.store K.counts G.ring G.counts) self.now) actor) }
        ensures whole { IsWhole (senses T.disk T.counts K.store K.counts G.ring G.counts) self.now }
    {
        let Some(it) = self.docket.running(actor) else {
            unreachable!()
        };
        match &it.task {
            Task::User(task) => {
                let looks = self.looks(task.user(), &it.owed);
                plans::planned_user(self.alloc, task, &looks)
            }
            Task::Recovery(recovery) => {
                let next = recovery.next(&self.bench.table, self.tracker.is_dirty());
                Ok(plans::with_no_job(next))
            }
            Task::Refusal(reply) => Ok(plans::with_no_job(Next::Reply(*reply))),
            Task::Fault(device, _) => Ok(plans::with_no_job(Next::Reply(fault_of(*device)))),
        }
    }

    /// What a turn of the user's command is told which listed this.
    fn looks(&self, user: u32, owed: &Owed) -> Looks
        ensures { IsTold (seen (senses T.disk T.counts K.store K.counts G.ring G.counts) self.now) user owed.now
            result }
    {
        Looks {
            in_the_way: sweeping::site_in_the_way(&self.bench.table, user),
            durable: self.bench.table.has(Place::De(user)) && !self.bench.table.marked(user),
            due: owed.due(&self.bench.list),
        }
    }

    /// Makes the call of the command that the actor runs; `task` is the user's task with its jobs done, where it asked
    /// for any.
    fn call(
        &mut self,
        actor: Actor,
        task: Option<UserTask>,
        call: Call,
        change: Option<LocalChange>,
    ) -> Result<(), NoMemory>
        requires { IsPlanned (seen (senses T.disk T.counts K.store K.counts G.ring G.counts) self.old) actor
            (record { task = task; plan = Plan.Call call change }) }
        ensures called { OnOk result
            (GoesOn (senses T.disk T.counts K.store K.counts G.ring G.counts) self.old self.new actor) }
        ensures refused { OnErr result
            (IsSame (senses T.disk T.counts K.store K.counts G.ring G.counts) self.old self.new) }
        ensures whole { IsWhole (senses T.disk T.counts K.store K.counts G.ring G.counts) self.new }
    {
        let Some(it) = self.docket.running(actor) else {
            unreachable!()
        };
        let Ok(Called { made, more }) = calls::make(
            self.alloc,
            &mut self.bench,
            &mut self.ledger,
            &mut self.tracker,
            &it.owed,
            &call,
        ) else {
            drop(task);
            return Err(NoMemory);
        };
        let it = self.docket.set(actor, Running::none(self.alloc));
        self.tracker.note(&call, made.was_done(), change.is_some());
        mark_change(
            &mut self.bench.table,
            &call,
            made.was_done(),
            change.is_some(),
        );
        let entry = entry_of(&made, &call, change, it.number);
        self.ledger.note(actor, entry);
        drop(self.docket.set(actor, it.after(&call, task, made, more)));
        Ok(())
    }

    /// Gives the reply of the command that the actor runs; one that failed lists what it held.
    fn reply(&mut self, actor: Actor, reply: Reply) -> Result<(), NoMemory>
        requires { RepliesNext (seen (senses T.disk T.counts K.store K.counts G.ring G.counts) self.old) actor reply }
        ensures replied { OnOk result
            (GoesOn (senses T.disk T.counts K.store K.counts G.ring G.counts) self.old self.new actor) }
        ensures refused { OnErr result (self.new ≡ self.old) }
        ensures whole { IsWhole (senses T.disk T.counts K.store K.counts G.ring G.counts) self.new }
    {
        let Some(it) = self.docket.running(actor) else {
            unreachable!()
        };
        self.ledger.reserve()?;
        list_held(&mut self.bench.list, it.task.failed_with())?;
        let number = it.number;
        self.tracker.reply(self.docket.command(number), reply);
        self.docket.end(actor);
        self.ledger.enter(Entry::Replied { number, reply });
        Ok(())
    }

    /// The first actor that has a running command or a queue, in the order of actors.
    pub fn first_busy(&self) -> Option<Actor>
        ensures busy { IsNextBusy self.now.docket None result }
        ensures whole { IsWhole (senses T.disk T.counts K.store K.counts G.ring G.counts) self.now }
    {
        self.docket.next_busy(None)
    }

    /// The next such actor after another.
    pub fn next_busy(&self, after: Actor) -> Option<Actor>
        ensures busy { IsNextBusy self.now.docket (Some after) result }
        ensures whole { IsWhole (senses T.disk T.counts K.store K.counts G.ring G.counts) self.now }
    {
        self.docket.next_busy(Some(after))
    }

    /// The journal so far.
    pub fn journal(&self) -> &Journal
        ensures entries { result.now.entries ≡ self.now.ledger.entries }
        ensures whole { IsWhole (senses T.disk T.counts K.store K.counts G.ring G.counts) self.now }
    {
        self.ledger.journal()
    }

    /// The actor of each counted call that `advance` made, in order.
    pub fn callers(&self) -> &[Actor]
        ensures callers { result.now ≡ self.now.ledger.callers }
        ensures whole { IsWhole (senses T.disk T.counts K.store K.counts G.ring G.counts) self.now }
    {
        self.ledger.callers()
    }

    /// What was given to `stop`, in order.
    pub fn orders(&self) -> &[Order]
        ensures orders { result.now ≡ self.now.ledger.orders }
        ensures whole { IsWhole (senses T.disk T.counts K.store K.counts G.ring G.counts) self.now }
    {
        self.ledger.orders()
    }

    /// Where the command of the number stands.
    pub fn standing(&self, number: u64) -> Standing
        ensures standing { result ≡ standing_of self.now number }
        ensures whole { IsWhole (senses T.disk T.counts K.store K.counts G.ring G.counts) self.now }
    {
        if number < self.docket.count() as u64 {
            standings::stands_in(self.ledger.journal().as_slice(), number)
        } else {
            Standing::Unknown
        }
    }

    /// Whether the machine takes every command: it never stopped, or a recovery ended since it started again.
    pub fn ready(&self) -> bool
        ensures ready { IsTrue result ↔ (self.now.tracker.phase ≡ Up) }
        ensures whole { IsWhole (senses T.disk T.counts K.store K.counts G.ring G.counts) self.now }
    {
        self.tracker.phase() == Phase::Up
    }

    /// Whether the machine stopped and didn't start again.
    pub fn stopped(&self) -> bool
        ensures stopped { IsTrue result ↔ (self.now.tracker.phase ≡ Halted) }
        ensures whole { IsWhole (senses T.disk T.counts K.store K.counts G.ring G.counts) self.now }
    {
        self.tracker.phase() == Phase::Halted
    }

    /// How often the machine started again.
    pub fn boot(&self) -> u64
        ensures boot { result ≡ self.now.tracker.boot }
        ensures whole { IsWhole (senses T.disk T.counts K.store K.counts G.ring G.counts) self.now }
    {
        self.tracker.boot()
    }

    /// The machine's level, at which it may start again.
    pub fn level(&self) -> u32
        ensures level { result ≡ self.now.tracker.level }
        ensures whole { IsWhole (senses T.disk T.counts K.store K.counts G.ring G.counts) self.now }
    {
        self.tracker.level()
    }

    /// The places of the view, in order, as the device lists them.
    ///
    /// # Errors
    ///
    /// Those of the device's `list`. Nothing but the device's counts changes, whatever the answer.
    pub fn places(&mut self) -> Result<Vec<Place>, DevFault>
        ensures listed { IfOk result (λ places. places.items ≡ map.keys (view (T.disk self.old.bench.tree))) }
        ensures same { IsLooked (senses T.disk T.counts K.store K.counts G.ring G.counts) self.old self.new }
        ensures counted { IsCounted (T.counts self.old.bench.tree) (T.counts self.new.bench.tree) result }
        ensures store { self.new.bench.store ≡ self.old.bench.store }
        ensures ring { self.new.bench.ring ≡ self.old.bench.ring }
        ensures whole { IsWhole (senses T.disk T.counts K.store K.counts G.ring G.counts) self.new }
    {
        self.bench.tree.list(self.alloc)
    }

    /// The directory at a place of the view, as the device reads it.
    ///
    /// # Errors
    ///
    /// Those of the device's `read`. Nothing but the device's counts changes, whatever the answer.
    pub fn read_place(&mut self, place: Place) -> Result<Dir, DevFault>
        requires { IsSome (map.get (view (T.disk self.old.bench.tree)) place) }
        ensures found { IfOk result (λ files. map.get (view (T.disk self.old.bench.tree)) place ≡ Some files) }
        ensures same { IsLooked (senses T.disk T.counts K.store K.counts G.ring G.counts) self.old self.new }
        ensures counted { IsCounted (T.counts self.old.bench.tree) (T.counts self.new.bench.tree) result }
        ensures store { self.new.bench.store ≡ self.old.bench.store }
        ensures ring { self.new.bench.ring ≡ self.old.bench.ring }
        ensures whole { IsWhole (senses T.disk T.counts K.store K.counts G.ring G.counts) self.new }
    {
        self.bench.tree.read(self.alloc, place)
    }

    /// The blobs and tags of the keystore's entries, in order, as the device lists them.
    ///
    /// # Errors
    ///
    /// Those of the device's `list`. Nothing but the device's counts changes, whatever the answer.
    pub fn blobs(&mut self) -> Result<Vec<(Blob, Tag)>, DevFault>
        ensures listed { IfOk result (λ rows. rows.items ≡ listed (K.store self.old.bench.store)) }
        ensures same { IsLooked (senses T.disk T.counts K.store K.counts G.ring G.counts) self.old self.new }
        ensures counted { IsCounted (K.counts self.old.bench.store) (K.counts self.new.bench.store) result }
        ensures tree { self.new.bench.tree ≡ self.old.bench.tree }
        ensures ring { self.new.bench.ring ≡ self.old.bench.ring }
        ensures whole { IsWhole (senses T.disk T.counts K.store K.counts G.ring G.counts) self.new }
    {
        self.bench.store.list(self.alloc)
    }

    /// The tree device, for looks.
    pub fn tree(&self) -> &T
        ensures tree { result.now ≡ self.now.bench.tree }
        ensures whole { IsWhole (senses T.disk T.counts K.store K.counts G.ring G.counts) self.now }
    {
        &self.bench.tree
    }

    /// The keystore, for looks.
    pub fn store(&self) -> &K
        ensures store { result.now ≡ self.now.bench.store }
        ensures whole { IsWhole (senses T.disk T.counts K.store K.counts G.ring G.counts) self.now }
    {
        &self.bench.store
    }

    /// The key ring, for looks.
    pub fn ring(&self) -> &G
        ensures ring { result.now ≡ self.now.bench.ring }
        ensures whole { IsWhole (senses T.disk T.counts K.store K.counts G.ring G.counts) self.now }
    {
        &self.bench.ring
    }

    /// The journal and the devices.
    pub fn into_parts(self) -> (Journal, T, K, G)
        ensures journal { result.0.entries ≡ self.ledger.entries }
        ensures tree { result.1 ≡ self.bench.tree }
        ensures store { result.2 ≡ self.bench.store }
        ensures ring { result.3 ≡ self.bench.ring }
        ensures whole { IsWhole (senses T.disk T.counts K.store K.counts G.ring G.counts) self }
    {
        let Book { bench, ledger, .. } = self;
        (ledger.into_journal(), bench.tree, bench.store, bench.ring)
    }

    /// The machine stops. Of the operations since the last sync the first `cut.keep` stay, each write with the bytes
    /// of its fill; no key stays in the ring, running commands are lost, and queued ones stay.
    ///
    /// # Errors
    ///
    /// Where memory ran out, nothing changed.
    pub fn stop(&mut self, cut: Cut) -> Result<(), NoMemory>
        requires { self.old.tracker.phase ≢ Halted }
        ensures stopped { OnOk result
            (IsStopped (senses T.disk T.counts K.store K.counts G.ring G.counts) self.old self.new cut) }
        ensures refused { OnErr result
            (IsSame (senses T.disk T.counts K.store K.counts G.ring G.counts) self.old self.new) }
        ensures whole { IsWhole (senses T.disk T.counts K.store K.counts G.ring G.counts) self.new }
    {
        let order = Order::Stop(cut.duplicate(self.alloc)?);
        self.ledger.reserve()?;
        let kept = self.tracker.survivors(cut.keep);
        self.bench.tree.stop(cut);
        self.bench.ring.clear();
        self.bench.list.clear();
        self.docket.stop();
        self.tracker.stop(kept);
        self.ledger.order(order, Entry::Stopped { kept });
        Ok(())
    }

    /// The stopped machine starts again, and a recovery is put first in the queue of its actor; its number is the
    /// answer. The level is the one that the machine has. Full exactly where every number is given out. On a refusal
    /// nothing changes.
    pub fn restart(&mut self, level: u32) -> Result<u64, EnqueueFault>
        requires stopped { self.old.tracker.phase ≡ Halted }
        requires level { level ≡ self.old.tracker.level }
        ensures number { IfOk result (λ number. number ≡ length self.old.docket.commands) }
        ensures restarted { OnOk result
            (IsRestarted (senses T.disk T.counts K.store K.counts G.ring G.counts) self.old self.new level) }
        ensures refused { OnErr result (self.new ≡ self.old) }
        ensures full { (result ≡ Err EnqueueFault.Full) ↔ (length self.old.docket.commands ≡ max_commands) }
        ensures whole { IsWhole (senses T.disk T.counts K.store K.counts G.ring G.counts) self.new }
    {
        if self.is_full() {
            return Err(EnqueueFault::Full);
        }
        match self.start_again(level) {
            Ok(number) => Ok(number),
            Err(NoMemory) => Err(EnqueueFault::NoMemory),
        }
    }

    /// Starts the stopped machine again, where a number is left for its recovery.
    fn start_again(&mut self, level: u32) -> Result<u64, NoMemory>
        requires stopped { self.old.tracker.phase ≡ Halted }
        requires level { level ≡ self.old.tracker.level }
        requires few { length self.old.docket.commands < max_commands }
        ensures number { IfOk result (λ number. number ≡ length self.old.docket.commands) }
        ensures restarted { OnOk result
            (IsRestarted (senses T.disk T.counts K.store K.counts G.ring G.counts) self.old self.new level) }
        ensures refused { OnErr result (self.new ≡ self.old) }
        ensures whole { IsWhole (senses T.disk T.counts K.store K.counts G.ring G.counts) self.new }
    {
        let boot = self.tracker.boot() + 1;
        self.ledger.reserve()?;
        let number = self.docket.enqueue_first(Actor::Boot, Command::Recover)?;
        self.bench.tree.restart();
        self.bench.seed = boot_seed(self.seed.as_slice(), boot);
        self.docket.restart();
        self.tracker.restart(boot, level);
        self.ledger.enter(Entry::Restarted { boot, level });
        Ok(number)
    }
}

/// The bench as a command begins: one that begins anew knows nothing of the tree, and finds nothing listed.
fn begin_on<T: TreeDisk, K: Keystore, G: KeyRing>(bench: &mut Bench<T, K, G>, anew: bool)
    ensures tree { bench.new.tree ≡ bench.old.tree }
    ensures store { bench.new.store ≡ bench.old.store }
    ensures ring { bench.new.ring ≡ bench.old.ring }
    ensures seed { bench.new.seed ≡ bench.old.seed }
    ensures places { bench.new.table.places ≡ cond anew map.empty bench.old.table.places }
    ensures marks { bench.new.table.marks ≡ cond anew set.empty bench.old.table.marks }
    ensures list { bench.new.list ≡ cond anew (unlisted bench.old.list) bench.old.list }
{
    if anew {
        bench.table.clear();
        bench.list.clear();
    }
}

/// Lists the blobs that a command held which failed, as synced.
fn list_held(list: &mut Deferred, held: Held) -> Result<(), NoMemory>
    requires { list.old.next + list.old.promised + 2 < 2 ^ 63 }
    ensures listed { OnOk result (list.new ≡ listed_more list.old (blobs_in held)) }
    ensures refused { OnErr result (list.new ≡ list.old) }
{
    let Held { first, second } = held;
    list.reserve(held.count())?;
    if let Some(blob) = first {
        list.push(blob, true);
    }
    if let Some(blob) = second {
        list.push(blob, true);
    }
    Ok(())
}

/// Marks the user whose change a call made that was done.
fn mark_change(table: &mut Table, call: &Call, done: bool, change: bool)
    ensures { table.new
        ≡ record table.old { marks = marks_with table.old.places table.old.marks call.now (done && change) } }
{
    if let Call::Op { user, .. } = call {
        if done && change && table.has(Place::De(*user)) {
            table.mark(*user);
        }
    }
}
