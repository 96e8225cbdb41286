ghost use Rattle.std.specs.Prelude.{◌≡◌, option_map, option_copied, IfOk, IfErr, OnOk};
ghost use Rattle.std.specs.FinMap.{keys, entries, get};
ghost use Rattle.sorted_map.specs.Rows.{keys as keys_of_rows, IsSorted, StandsAt, BelongsAt};
ghost use Rattle.tree_model.specs.Order.{slot_cmp};
ghost use Rattle.journal_model.specs.declared.entries.Change.TheVariants.{Create as Created, Add as Added};
ghost use Rattle.journal_model.specs.declared.entries.Change.TheVariants.{Drop as Dropped, Settle as Settled};
ghost use Rattle.journal_model.specs.declared.entries.Change.TheVariants.{Destroy as Destroyed};
ghost use Rattle.journal_model.specs.Command.{user_in};
ghost use Rattle.journal_model.specs.DefinedReply.{defined_reply_of};
ghost use Rattle.journal_model.specs.Log.{log_after};
ghost use Rattle.journal_model.specs.Machine.{is_present, is_full, log_of, map_of};
ghost use Rattle.journal_model.specs.Users.{no_users, new_secrets, with_slot, without_slot, settled_slot};
ghost use Rattle.journal_model.specs.Users.{after_change};

use crate::commands::{Command, Reply};
use crate::entries::{Birth, Change, Entry};
use crate::journal::Journal;
use crate::refusals::{Facts, MAX_USERS, leaves_none, next_after, refusal};
use crate::secrets::Secret;
use sorted_map::SortedMap;
use std::alloc::Global;
use std::marker::Model;
use tree_model::{NoMemory, Slot};

/// A user's birth, and the user's slots in their order, each with its secret.
#[derive(Drop)]
struct UserRecord {
    birth: Birth,
    slots: Vec<(Slot, Secret)>,
}

impl Model for UserRecord {
    ghost use Rattle.std.specs.FinMap.{from_sorted};
    ghost use Rattle.sorted_map.specs.Rows.{IsSorted};
    ghost use Rattle.tree_model.specs.Order.{slot_cmp};
    ghost use Rattle.journal_model.specs.RecordCode.{record_code};
    ghost use Rattle.journal_model.specs.Users.{Record};

    ghost Value = { Record };

    ghost coded = { record_code };

    ghost view = { λ user. record { birth = user.birth; secrets = from_sorted {R = slot_cmp} user.slots.items } };

    ghost invariant = { λ user. IsSorted slot_cmp user.slots.items };
}

impl UserRecord {
    /// The record of a new user: the current slot, under the empty secret.
    fn new(alloc: Global, birth: Birth) -> Result<UserRecord, NoMemory>
        ensures { IfOk result (λ user. user ≡ record { birth = birth; secrets = new_secrets }) }
    {
        let mut slots = Vec::new(alloc);
        slots.push((Slot::Current, Secret::empty(alloc)))?;
        Ok(UserRecord { birth, slots })
    }

    /// The slot is under this secret from now on.
    fn put(&mut self, slot: Slot, secret: Secret) -> Result<(), NoMemory>
        ensures { OnOk result (self.new ≡ with_slot self.old slot secret) }
    {
        match place_of(self.slots.as_slice(), slot) {
            Ok(at) => {
                self.slots[at] = (slot, secret);
                Ok(())
            }
            Err(at) => Ok(self.slots.insert(at, (slot, secret))?),
        }
    }

    /// Takes the slot out, and gives its secret; None where it isn't there.
    fn take(&mut self, slot: Slot) -> Option<Secret>
        ensures value { result ≡ get self.old.secrets slot }
        ensures rest { self.new ≡ without_slot self.old slot }
    {
        match place_of(self.slots.as_slice(), slot) {
            Ok(at) => Some(self.slots.remove(at).1),
            Err(_) => None,
        }
    }

    /// The slot, where it is there, is the current one from now on.
    fn settle(&mut self, slot: Slot) -> Result<(), NoMemory>
        ensures { OnOk result (self.new ≡ settled_slot self.old slot) }
    {
        match self.take(slot) {
            Some(secret) => self.put(Slot::Current, secret),
            None => Ok(()),
        }
    }
}

/// Where the slot stands among rows in their order, or where it belongs.
fn place_of(rows: &[(Slot, Secret)], slot: Slot) -> Result<usize, usize>
    requires { IsSorted slot_cmp rows.now }
    ensures there { IfOk result (StandsAt slot_cmp slot (keys_of_rows rows.now)) }
    ensures absent { IfErr result (BelongsAt slot_cmp slot (keys_of_rows rows.now)) }
{
    rows.binary_search_by_key(&slot, |row| row.0)
}

/// The users that are there, each with its birth and its slots' secrets.
#[derive(Drop)]
pub struct UserMap {
    records: SortedMap<u32, UserRecord>,
}

impl Model for UserMap {
    ghost use Rattle.std.specs.Ordering.{nat_cmp};
    ghost use Rattle.sorted_map.specs.Maps.{held};
    ghost use Rattle.journal_model.specs.RecordCode.{users_code};
    ghost use Rattle.journal_model.specs.Users.{Users};

    ghost Value = { Users };

    ghost coded = { users_code };

    ghost view = { λ users. held nat_cmp users.records };
}

impl UserMap {
    /// The map with no user. It takes no memory.
    fn new(alloc: Global) -> UserMap
        ensures { result ≡ no_users }
    {
        UserMap {
            records: SortedMap::new(alloc),
        }
    }

    /// The users that are there, ascending.
    pub fn users(&self) -> &[u32]
        ensures { result.now ≡ keys self.now }
    {
        self.records.keys()
    }

    /// When the user was created; None exactly where the user isn't there.
    pub fn birth(&self, user: u32) -> Option<Birth>
        ensures { result ≡ option_map (λ known. known.birth) (get self.now user) }
    {
        let known = self.records.get(user)?;
        Some(known.birth)
    }

    /// The user's slots with their secrets, in the order of slots; None exactly where the user isn't there.
    pub fn slots(&self, user: u32) -> Option<&[(Slot, Secret)]>
        ensures { option_copied result ≡ option_map (λ known. entries known.secrets) (get self.now user) }
    {
        let known = self.records.get(user)?;
        Some(known.slots.as_slice())
    }

    /// Makes a change.
    fn apply(&mut self, alloc: Global, change: &Change) -> Result<(), NoMemory>
        ensures { OnOk result (self.new ≡ after_change self.old change.now) }
    {
        match change {
            Change::Create { user, birth } => self.create(alloc, *user, *birth),
            Change::Add { user, slot, secret } => self.add(*user, *slot, secret.duplicate(alloc)?),
            Change::Drop { user, slot } => self.drop_slot(*user, *slot),
            Change::Settle { user, slot } => self.settle(*user, *slot),
            Change::Destroy { user } => {
                self.destroy(*user);
                Ok(())
            }
        }
    }

    /// The user is there from now on, as a new one.
    fn create(&mut self, alloc: Global, user: u32, birth: Birth) -> Result<(), NoMemory>
        ensures { OnOk result (self.new ≡ after_change self.old (Created user birth)) }
    {
        self.records.insert(user, UserRecord::new(alloc, birth)?)?;
        Ok(())
    }

    /// The user, where there is one, has a further slot under this secret.
    fn add(&mut self, user: u32, slot: Slot, secret: Secret) -> Result<(), NoMemory>
        ensures { OnOk result (self.new ≡ after_change self.old (Added user slot secret)) }
    {
        let Some(mut known) = self.records.remove(user) else {
            return Ok(());
        };
        known.put(slot, secret)?;
        self.records.insert(user, known)?;
        Ok(())
    }

    /// The user, where there is one, no longer has the slot.
    fn drop_slot(&mut self, user: u32, slot: Slot) -> Result<(), NoMemory>
        ensures { OnOk result (self.new ≡ after_change self.old (Dropped user slot)) }
    {
        let Some(mut known) = self.records.remove(user) else {
            return Ok(());
        };
        known.take(slot);
        self.records.insert(user, known)?;
        Ok(())
    }

    /// The slot of the user, where both are there, is the current one from now on.
    fn settle(&mut self, user: u32, slot: Slot) -> Result<(), NoMemory>
        ensures { OnOk result (self.new ≡ after_change self.old (Settled user slot)) }
    {
        let Some(mut known) = self.records.remove(user) else {
            return Ok(());
        };
        known.settle(slot)?;
        self.records.insert(user, known)?;
        Ok(())
    }

    /// The user is no longer there.
    fn destroy(&mut self, user: u32)
        ensures { self.new ≡ after_change self.old (Destroyed user) }
    {
        self.records.remove(user);
    }
}

/// The map of users that the surviving changes of a journal make.
pub fn fold(alloc: Global, journal: &Journal) -> Result<UserMap, NoMemory>
    ensures { IfOk result (λ users. users ≡ map_of journal.now.entries) }
{
    let log = surviving_changes(alloc, journal.as_slice())?;
    let mut users = UserMap::new(alloc);
    for change in &log {
        users.apply(alloc, change)?;
    }
    Ok(users)
}

/// The changes of the present timeline: those that no stop cut away.
fn surviving_changes(alloc: Global, entries: &[Entry]) -> Result<Vec<Change>, NoMemory>
    ensures { IfOk result (λ log. log.items ≡ log_of entries.now) }
{
    let mut log = Vec::new(alloc);
    for entry in entries {
        follow(alloc, &mut log, entry)?;
    }
    Ok(log)
}

/// Does to the changes so far what the next entry does to them.
fn follow(alloc: Global, log: &mut Vec<Change>, entry: &Entry) -> Result<(), NoMemory>
    ensures { OnOk result (log.new.items ≡ log_after log.old.items entry.now) }
{
    match entry {
        Entry::Changed { change, .. } => log.push(change.duplicate(alloc)?)?,
        Entry::Stopped { kept } => log.truncate(*kept as usize),
        _ => {}
    }
    Ok(())
}

/// The refusal that the map of users alone decides: for a create, that the user is there, or that as many users are
/// there as there may be; for other commands of a user, that the user isn't there; and for a protect, that no slot is
/// left. A recovery has none.
pub fn defined_reply(command: &Command, map: &UserMap) -> Option<Reply>
    ensures { result ≡ defined_reply_of command.now map.now }
{
    let facts = Facts {
        present: is_present(command, map),
        crowded: MAX_USERS <= map.users().len(),
        installed: true,
        full: is_full(command, map),
        ready: false,
    };
    refusal(command, facts)
}

/// Whether no slot is left for a further secret of the user whom the command is for.
fn is_full(command: &Command, map: &UserMap) -> bool
    ensures { result ≡ is_full (user_in command.now) map.now }
{
    let Some(user) = command.user() else {
        return false;
    };
    let Some(slots) = map.slots(user) else {
        return false;
    };
    let mut next = 0;
    for row in slots {
        next = next_after(next, row.0);
    }
    leaves_none(slots.len(), next)
}

/// Whether the user whom the command is for is there.
fn is_present(command: &Command, map: &UserMap) -> bool
    ensures { result ≡ is_present (user_in command.now) map.now }
{
    match command.user() {
        Some(user) => map.birth(user).is_some(),
        None => false,
    }
}

#[cfg(test)]
mod tests {
    use super::*;
    use crate::commands::Actor;
    use std::test::Fail;
    use tree_model::{Bytes, Cut, Fill, Fills};

    /// The change that makes a user.
    fn creation(user: u32, birth: Birth) -> Entry {
        Entry::Changed {
            number: 0,
            change: Change::Create { user, birth },
        }
    }

    /// Users 12 and 10 are created, and a stop keeps this number of the two changes.
    fn stopped_journal(alloc: Global, kept: u64) -> Result<Journal, NoMemory> {
        let mut journal = Journal::new(alloc);
        for entry in [
            creation(12, Birth { boot: 0, index: 0 }),
            creation(10, Birth { boot: 0, index: 1 }),
            Entry::Stopped { kept },
            Entry::Restarted { boot: 1, level: 1 },
        ] {
            journal.reserve()?;
            journal.push(entry);
        }
        Ok(journal)
    }

    #[test]
    fn folds_what_a_stop_kept(rt: HostRuntime) -> Result<(), Fail> {
        let alloc = rt.alloc();
        for (kept, users) in [(1, [12].as_slice()), (2, &[10, 12]), (0, &[])] {
            let journal = stopped_journal(alloc, kept)?;
            assert_eq!(rt; journal.as_slice().len(), 4);
            assert_eq!(rt; fold(alloc, &journal)?.users(), users, "with {kept} kept");
        }

        let map = fold(alloc, &stopped_journal(alloc, 1)?)?;
        let born = Birth { boot: 0, index: 0 };
        for (user, birth, reply) in [(12, Some(born), Some(Reply::UserExists)), (10, None, None)] {
            assert_eq!(rt; map.birth(user), birth, "user {user}");
            assert_eq!(rt;
                defined_reply(&Command::Create { user }, &map),
                reply,
                "user {user}"
            );
        }
        assert_eq!(rt; defined_reply(&Command::Recover, &map), None);
        assert!(rt; map.slots(10).is_none());
        let slots = map.slots(12).unwrap_or(&[]);
        assert_eq!(rt; slots.len(), 1);
        for (slot, secret) in slots {
            assert_eq!(rt; *slot, Slot::Current);
            assert_eq!(rt; secret.as_slice().len(), 0);
        }
        Ok(())
    }

    /// The map once so many users are created, from user 0 on.
    fn crowd(alloc: Global, users: u32) -> Result<UserMap, NoMemory> {
        let mut journal = Journal::new(alloc);
        for user in 0..users {
            journal.reserve()?;
            journal.push(creation(user, Birth { boot: 0, index: 0 }));
        }
        fold(alloc, &journal)
    }

    #[test]
    fn refuses_a_user_too_many(rt: HostRuntime) -> Result<(), Fail> {
        let alloc = rt.alloc();
        for (users, user, reply) in [
            (31, 32, None),
            (32, 32, Some(Reply::TooManyUsers)),
            (32, 31, Some(Reply::UserExists)),
        ] {
            let map = crowd(alloc, users)?;
            assert_eq!(rt;
                defined_reply(&Command::Create { user }, &map),
                reply,
                "user {user} beside {users}"
            );
        }
        let map = crowd(alloc, 32)?;
        assert_eq!(rt; defined_reply(&Command::Lock { user: 31 }, &map), None);
        assert_eq!(rt;
            defined_reply(&Command::Lock { user: 32 }, &map),
            Some(Reply::NoUser)
        );
        Ok(())
    }

    /// User 10 is created, and has a further slot of each of these numbers, under a secret of the one byte beside it.
    fn slotted_journal(alloc: Global, further: &[(u32, u8)]) -> Result<Journal, NoMemory> {
        let mut journal = Journal::new(alloc);
        journal.reserve()?;
        journal.push(creation(10, Birth { boot: 0, index: 0 }));
        for (number, byte) in further {
            journal.reserve()?;
            journal.push(addition(alloc, *number, *byte)?);
        }
        Ok(journal)
    }

    /// The change that gives user 10 the slot of this number, under a secret of this one byte.
    fn addition(alloc: Global, number: u32, byte: u8) -> Result<Entry, NoMemory> {
        let secret = secret_of(alloc, &[byte])?;
        let slot = Slot::Cx(number);
        let user = 10;
        Ok(Entry::Changed {
            number: 0,
            change: Change::Add { user, slot, secret },
        })
    }

    /// The secret of a few bytes.
    fn secret_of(alloc: Global, bytes: &[u8]) -> Result<Secret, NoMemory> {
        let secret = Secret::new(Bytes::copy(alloc, bytes)?);
        Ok(secret.unwrap_or(Secret::empty(alloc)))
    }

    /// What the map that the journal makes refuses a protect of this user with.
    fn refusal_of_protect(
        alloc: Global,
        journal: &Journal,
        user: u32,
    ) -> Result<Option<Reply>, NoMemory> {
        let command = Command::Protect {
            user,
            known: Secret::empty(alloc),
            fresh: Secret::empty(alloc),
        };
        Ok(defined_reply(&command, &fold(alloc, journal)?))
    }

    #[test]
    fn refuses_a_slot_too_many(rt: HostRuntime) -> Result<(), Fail> {
        let alloc = rt.alloc();
        let seven = [(0, 1), (1, 1), (2, 1), (3, 1), (4, 1), (5, 1), (6, 1)];
        for (further, user, reply) in [
            (seven.as_slice(), 10, Some(Reply::NoSlot)),
            (&seven, 11, Some(Reply::NoUser)),
            (&seven[..6], 10, None),
            (&[(u32::MAX, 1)], 10, Some(Reply::NoSlot)),
            (&[(u32::MAX - 1, 1)], 10, None),
            (&[], 10, None),
        ] {
            let journal = slotted_journal(alloc, further)?;
            assert_eq!(rt;
                refusal_of_protect(alloc, &journal, user)?,
                reply,
                "user {user} with {further:?}"
            );
        }
        Ok(())
    }

    /// Whether these are the slots of user 10, each with its secret.
    fn has_slots(map: &UserMap, wanted: &[(Slot, &[u8])]) -> bool {
        let slots = map.slots(10).unwrap_or(&[]);
        let mut same = slots.len() == wanted.len();
        for ((slot, secret), (other, bytes)) in slots.iter().zip(wanted) {
            same = same && slot == other && secret.as_slice() == *bytes;
        }
        same
    }

    #[test]
    fn keeps_slots_in_order(rt: HostRuntime) -> Result<(), Fail> {
        let alloc = rt.alloc();
        let journal = slotted_journal(alloc, &[(1, 6), (0, 5), (1, 7)])?;
        let wanted: [(Slot, &[u8]); 3] = [
            (Slot::Current, &[]),
            (Slot::Cx(0), &[5]),
            (Slot::Cx(1), &[7]),
        ];
        assert!(rt; has_slots(&fold(alloc, &journal)?, &wanted));
        Ok(())
    }

    #[test]
    fn cuts_an_added_slot(rt: HostRuntime) -> Result<(), Fail> {
        let alloc = rt.alloc();
        let mut journal = slotted_journal(alloc, &[(0, 5), (1, 7)])?;
        journal.reserve()?;
        journal.push(Entry::Stopped { kept: 2 });
        let wanted: [(Slot, &[u8]); 2] = [(Slot::Current, &[]), (Slot::Cx(0), &[5])];
        assert!(rt; has_slots(&fold(alloc, &journal)?, &wanted));
        Ok(())
    }

    #[test]
    fn adds_nothing_to_no_user(rt: HostRuntime) -> Result<(), Fail> {
        let alloc = rt.alloc();
        let mut journal = Journal::new(alloc);
        journal.reserve()?;
        journal.push(addition(alloc, 0, 5)?);
        assert!(rt; fold(alloc, &journal)?.users().is_empty());
        Ok(())
    }

    /// The journal with further changes.
    fn continued(
        alloc: Global,
        mut journal: Journal,
        changes: &[Change],
    ) -> Result<Journal, NoMemory> {
        for change in changes {
            journal.reserve()?;
            journal.push(Entry::Changed {
                number: 0,
                change: change.duplicate(alloc)?,
            });
        }
        Ok(journal)
    }

    #[test]
    fn drops_settles_and_destroys(rt: HostRuntime) -> Result<(), Fail> {
        let alloc = rt.alloc();
        let user = 10;
        let slot = Slot::Cx(1);
        let dropped = [0, 7].map(|number| Change::Drop {
            user,
            slot: Slot::Cx(number),
        });
        let journal = continued(alloc, slotted_journal(alloc, &[(0, 5), (1, 7)])?, &dropped)?;
        let wanted: [(Slot, &[u8]); 2] = [(Slot::Current, &[]), (slot, &[7])];
        assert!(rt; has_slots(&fold(alloc, &journal)?, &wanted));

        let settled = [Slot::Current, slot, slot].map(|slot| Change::Settle { user, slot });
        let journal = continued(alloc, journal, &settled)?;
        assert!(rt; has_slots(&fold(alloc, &journal)?, &[(Slot::Current, &[7])]));

        let journal = continued(alloc, journal, &[Change::Destroy { user }])?;
        assert!(rt; fold(alloc, &journal)?.users().is_empty());
        Ok(())
    }

    #[test]
    fn copies_a_protect(rt: HostRuntime) -> Result<(), Fail> {
        let alloc = rt.alloc();
        let command = Command::Protect {
            user: 10,
            known: Secret::empty(alloc),
            fresh: secret_of(alloc, b"se")?,
        };
        let copied = command.duplicate(alloc)?;
        assert_eq!(rt; copied.actor(), Actor::User(10));
        assert!(rt;
            matches!(&copied, Command::Protect { user: 10, fresh, .. } if fresh.as_slice() == b"se".as_slice())
        );
        Ok(())
    }

    #[test]
    fn bounds_and_copies_parts(rt: HostRuntime) -> Result<(), Fail> {
        let alloc = rt.alloc();
        for (bytes, len) in [([7u8; 65].as_slice(), None), (&[7; 64], Some(64))] {
            let secret = Secret::new(Bytes::copy(alloc, bytes)?);
            assert_eq!(rt; secret.map(|secret| secret.as_slice().len()), len);
        }
        assert_eq!(rt; Secret::empty(alloc).duplicate(alloc)?.as_slice().len(), 0);

        for (command, actor) in [
            (Command::Create { user: 10 }, Actor::User(10)),
            (
                Command::Unlock {
                    user: 10,
                    secret: Secret::empty(alloc),
                },
                Actor::User(10),
            ),
            (Command::Recover, Actor::Boot),
        ] {
            assert_eq!(rt; command.duplicate(alloc)?.actor(), actor);
        }

        let birth = Birth { boot: 2, index: 3 };
        let created = Change::Create { user: 10, birth }.duplicate(alloc)?;
        assert!(rt;
            matches!(&created, Change::Create { user: 10, birth: copied } if *copied == birth)
        );

        let mut fills = Vec::new(alloc);
        fills.push(Fill::Same)?;
        let cut = Cut {
            keep: 5,
            fills: Fills::new(fills),
        };
        let cut = cut.duplicate(alloc)?;
        assert_eq!(rt; (cut.keep, cut.fills.as_slice().len()), (5, 1));
        Ok(())
    }
}
