ghost use Rattle.std.proofs.Common.{rules};
ghost use Rattle.std.specs.Cmp.{partial_order_from_own_ties};
ghost use Rattle.std.specs.Cmp.Rules.{comparing};
ghost use Rattle.std.specs.Ordering.{as_partial_cmp};
ghost use Rattle.std.specs.Prelude.{◌≡◌, IfOk};
ghost use Rattle.journal_model.specs.Actor.{actor_cmp, actor_total, actor_exact};
ghost use Rattle.journal_model.specs.Command.{actor_of, user_in};

use crate::secrets::Secret;
use sorted_map::ExactOrd;
use std::alloc::Global;
use std::cmp::Ordering;
use tree_model::NoMemory;

/// Who makes turns: the recovery after a restart, the checkpoint, or a user.
#[derive(Clone, Copy, Debug, PartialEq, Eq)]
pub enum Actor {
    Boot,
    Cp,
    User(u32),
}

/// The order in which the variants stand, then that of the users' numbers.
impl Ord for Actor {
    ghost cmp = { actor_cmp };

    ghost total = { actor_total };

    ghost matches_partial_cmp = { Prim.search (comparing, rules) };

    ghost matches_eq = { Prim.search (comparing, rules) };

    fn cmp(&self, other: &Actor) -> Ordering {
        match (*self, *other) {
            (Actor::Boot, Actor::Boot) => Ordering::Equal,
            (Actor::Boot, _) => Ordering::Less,
            (_, Actor::Boot) => Ordering::Greater,
            (Actor::Cp, Actor::Cp) => Ordering::Equal,
            (Actor::Cp, Actor::User(_)) => Ordering::Less,
            (Actor::User(_), Actor::Cp) => Ordering::Greater,
            (Actor::User(a), Actor::User(b)) => a.cmp(&b),
        }
    }
}

impl PartialOrd for Actor {
    ghost partial_cmp = { as_partial_cmp actor_cmp };

    ghost laws = { partial_order_from_own_ties (Prim.search (comparing, rules)) (Prim.search (comparing, rules)) };

    fn partial_cmp(&self, other: &Actor) -> Option<Ordering> {
        Some(self.cmp(other))
    }
}

impl ExactOrd for Actor {
    ghost exact = { actor_exact };
}

/// What an actor is asked to do.
#[derive(Drop)]
pub enum Command {
    /// Makes a user's two keys, under the empty secret.
    Create {
        user: u32,
    },
    /// Opens a user's credential key with a secret, and puts it into the key ring.
    Unlock {
        user: u32,
        secret: Secret,
    },
    /// Takes a user's credential key out of the key ring.
    Lock {
        user: u32,
    },
    /// Opens a user's credential key with a secret that is known, and stores it in a slot of its own under a fresh one.
    Protect {
        user: u32,
        known: Secret,
        fresh: Secret,
    },
    /// Keeps a user's newest slot alone, as the current one.
    Fixate {
        user: u32,
    },
    /// Takes a user's keys away, for good.
    Destroy {
        user: u32,
    },
    /// Brings the machine up after a restart.
    Recover,
}

impl Command {
    /// The actor that the command is for.
    pub fn actor(&self) -> Actor
        ensures { result ≡ actor_of self.now }
    {
        match self {
            Command::Create { user } | Command::Lock { user } => Actor::User(*user),
            Command::Unlock { user, .. } | Command::Protect { user, .. } => Actor::User(*user),
            Command::Fixate { user } | Command::Destroy { user } => Actor::User(*user),
            Command::Recover => Actor::Boot,
        }
    }

    /// The user whom the command is for, if it is for one.
    pub fn user(&self) -> Option<u32>
        ensures { result ≡ user_in self.now }
    {
        match self.actor() {
            Actor::User(user) => Some(user),
            Actor::Boot | Actor::Cp => None,
        }
    }

    /// The same command in memory of its own.
    pub fn duplicate(&self, alloc: Global) -> Result<Command, NoMemory>
        ensures { IfOk result (λ copied. copied ≡ self.now) }
    {
        Ok(match self {
            Command::Create { user } => Command::Create { user: *user },
            Command::Unlock { user, secret } => Command::Unlock {
                user: *user,
                secret: secret.duplicate(alloc)?,
            },
            Command::Lock { user } => Command::Lock { user: *user },
            Command::Protect { user, known, fresh } => Command::Protect {
                user: *user,
                known: known.duplicate(alloc)?,
                fresh: fresh.duplicate(alloc)?,
            },
            Command::Fixate { user } => Command::Fixate { user: *user },
            Command::Destroy { user } => Command::Destroy { user: *user },
            Command::Recover => Command::Recover,
        })
    }
}

/// How a command ended.
#[derive(Clone, Copy, Debug, PartialEq, Eq)]
pub enum Reply {
    /// The command did its work.
    Done,
    /// A recovery ended, with this number of deletes made.
    Ended(u64),
    /// The user is gone, and so is the keystore's entry of each blob that the user's directories named.
    Gone,
    /// The user to be created was there when the command began.
    UserExists,
    /// The users that were there and those being created were as many as there may be when the command began.
    TooManyUsers,
    /// The user wasn't there when the command began.
    NoUser,
    /// The user's credential key was not in the key ring when the command began.
    NotInstalled,
    /// No slot was left for a further secret of the user when the command began.
    NoSlot,
    /// The user has no slot under the secret that was given.
    WrongSecret,
    /// The machine was ready when the recovery began.
    Ready,
    /// The tree device failed.
    TreeFault,
    /// The keystore failed.
    StoreFault,
    /// The key ring failed.
    RingFault,
}

/// Why a command got no number.
#[derive(Clone, Copy, Debug, PartialEq, Eq)]
pub enum EnqueueFault {
    /// Every number is given out.
    Full,
    /// Memory ran out.
    NoMemory,
}

impl From<NoMemory> for EnqueueFault {
    ghost use Rattle.journal_model.specs.declared.commands.EnqueueFault.TheVariants.{NoMemory as WantsMemory};

    ghost from_gives = { λ _ fault. fault ≡ WantsMemory };

    fn from(_want: NoMemory) -> EnqueueFault {
        EnqueueFault::NoMemory
    }
}
