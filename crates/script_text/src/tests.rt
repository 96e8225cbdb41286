//! Texts that are printed and read, against texts from outside.
use crate::{
    EntryRow, KeyRow, Line, Script, Status, bytes_of, number_of, print_journal, print_keystore,
    print_ring, print_script, print_tree, read_script,
};
use journal_model::{Actor, Birth, Change, Command, Entry, Reply, Secret};
use keystore_model::Tag;
use std::alloc::Global;
use std::test::Fail;
use tree_model::{Blob, Bytes, Class, Cut, Dir, FileName, NoMemory, Place, Slot};

const CREATED_JOURNAL: &[u8] =
    b"journal 6\nbegan 0 10 create 10\nsynced\nsynced\nchanged 0 create 10 0 0\nsynced\nreplied 0 ok\n";

const CREATED_TREE: &[u8] = b"tree 2\ndir de/10\nfile version 1 30\n\
     file encrypted_key 64 000000000a0000000000000000000000000000000000000000000000000000000000000000000000\
     000000000000000000000000000000000000000000000000\ndir ce/10/current\nfile version 1 30\n\
     file encrypted_key 64 010000000a0000000000000000000000000000000000000000000000000000000000000000000000\
     000000000000000000000000000000000000000000000000\n";

const EVERY_ENTRY: &[u8] =
    b"journal 17\nbegan 7 3 create 3\nbegan 8 cp create 4\nbegan 9 boot recover\nbegan 10 10 unlock 10 7365\n\
     changed 7 create 3 2 5\nsynced\ninstalled 10 ce\nstopped 1\nrestarted 3 2\nreplied 7 ok\n\
     replied 8 ok 12\nreplied 9 user-exists\nreplied 10 wrong-secret\nreplied 11 ready\n\
     replied 12 ring-fault\nreplied 13 too-many-users\nreplied 18446744073709551615 tree-fault\n";

const PROTECTED_JOURNAL: &[u8] =
    b"journal 4\nbegan 1 10 protect 10 - 7365\nchanged 1 add 10 cx0000000000 7365\n\
     changed 2 add 11 current -\nreplied 3 no-slot\n";

const EVERY_NAME: &[u8] =
    b"later 4 checkpoint 3\ndir de/0\nfile version 1 30\nfile encrypted_key 2 00ff\n\
     file keymaster_key_blob 1 0a\nfile keymaster_key_blob_upgraded 1 0b\n\
     file keymaster_key_blob_new 1 0c\nfile secdiscardable 1 0d\nfile stretching 0 -\nfile salt 1 0f\n\
     dir ce/7/current\ndir ce/7/cx0000000012\ndir tmp/4294967295\n";

/// A file of 129 zeros.
const LONG_FILE: &[u8] = b"tree 1\ndir de/0\nfile secdiscardable 129 #b1f542f68a48608a\n";

const KEYSTORE: &[u8] =
    b"keystore 2 2\nentry 0100000000000000000000000000000000000000000000000000000000000000 1 10 de\n\
     entry abababababababababababababababababababababababababababababababab 2 4294967295 ce\n";

/// Of user 10 the key of 64 zeros, and of user 0 that of the bytes from 0 to 63.
const RING: &[u8] = b"ring 2\nkey 10 ce f574a77464017311\nkey 0 de 04334e23057a6e2d\n";

/// The most fills, the first with the most bytes.
const FULL_STOP: &[u8] =
    b"stop 0 0a0a0a0a0a0a0a0a0a0a0a0a0a0a0a0a0a0a0a0a0a0a0a0a0a0a0a0a0a0a0a0a0a0a0a0a0a0a0a0a0a0a0a0a0a0a0a0\
     a0a0a0a0a0a0a0a0a0a0a0a0a0a0a0a0a = = = = = = = = = = = = = = = = = = = = = = = = = = = = = = =\n";

/// A fill with 65 bytes.
const LONG_FILL: &[u8] =
    b"stop 0 0a0a0a0a0a0a0a0a0a0a0a0a0a0a0a0a0a0a0a0a0a0a0a0a0a0a0a0a0a0a0a0a0a0a0a0a0a0a0a0a0a0a0a0a0a0a0a0\
     a0a0a0a0a0a0a0a0a0a0a0a0a0a0a0a0a0a\n";

/// A secret with 65 bytes.
const LONG_SECRET: &[u8] =
    b"unlock 10 0a0a0a0a0a0a0a0a0a0a0a0a0a0a0a0a0a0a0a0a0a0a0a0a0a0a0a0a0a0a0a0a0a0a0a0a0a0a0a0a0a0a0a0a0\
     a0a0a0a0a0a0a0a0a0a0a0a0a0a0a0a0a0a0a0a0a\n";

/// A stop with 33 fills.
const MANY_FILLS: &[u8] =
    b"stop 0 = = = = = = = = = = = = = = = = = = = = = = = = = = = = = = = = =\n";

#[test]
fn prints_a_created_user(rt: HostRuntime) -> Result<(), Fail> {
    let mut entries = Vec::new(rt.alloc());
    entries.push(Entry::Began {
        number: 0,
        actor: Actor::User(10),
        command: Command::Create { user: 10 },
    })?;
    entries.push(Entry::Synced)?;
    entries.push(Entry::Synced)?;
    entries.push(Entry::Changed {
        number: 0,
        change: Change::Create {
            user: 10,
            birth: Birth { boot: 0, index: 0 },
        },
    })?;
    entries.push(Entry::Synced)?;
    entries.push(Entry::Replied {
        number: 0,
        reply: Reply::Done,
    })?;
    let journal = print_journal(rt.alloc(), entries.as_slice())?;
    assert_eq!(rt; journal.as_slice(), CREATED_JOURNAL);

    let mut dirs = Vec::new(rt.alloc());
    dirs.push((Place::De(10), created_dir(rt.alloc(), 0)?))?;
    dirs.push((Place::Ce(10, Slot::Current), created_dir(rt.alloc(), 1)?))?;
    let tree = print_tree(rt.alloc(), b"tree", dirs.as_slice(), None)?;
    assert_eq!(rt; tree.as_slice(), CREATED_TREE);
    Ok(())
}

/// A directory of user 10 as a create leaves it, with the key of a class.
fn created_dir(alloc: Global, class: u8) -> Result<Dir, NoMemory> {
    let mut key = [0u8; 64];
    key[0] = class;
    key[4] = 10;
    let mut dir = Dir::new();
    dir.put(FileName::Version, Bytes::copy(alloc, b"0")?)?;
    dir.put(FileName::EncryptedKey, Bytes::copy(alloc, &key)?)?;
    Ok(dir)
}

#[test]
fn prints_every_entry(rt: HostRuntime) -> Result<(), Fail> {
    let secret = Secret::new(Bytes::copy(rt.alloc(), b"se")?).ok_or("a secret is too long")?;
    let mut entries = Vec::new(rt.alloc());
    for (number, actor, command) in [
        (7, Actor::User(3), Command::Create { user: 3 }),
        (8, Actor::Cp, Command::Create { user: 4 }),
        (9, Actor::Boot, Command::Recover),
        (10, Actor::User(10), Command::Unlock { user: 10, secret }),
    ] {
        entries.push(Entry::Began {
            number,
            actor,
            command,
        })?;
    }
    entries.push(Entry::Changed {
        number: 7,
        change: Change::Create {
            user: 3,
            birth: Birth { boot: 2, index: 5 },
        },
    })?;
    entries.push(Entry::Synced)?;
    entries.push(Entry::Installed {
        user: 10,
        class: Class::Ce,
    })?;
    entries.push(Entry::Stopped { kept: 1 })?;
    entries.push(Entry::Restarted { boot: 3, level: 2 })?;
    for (number, reply) in [
        (7, Reply::Done),
        (8, Reply::Ended(12)),
        (9, Reply::UserExists),
        (10, Reply::WrongSecret),
        (11, Reply::Ready),
        (12, Reply::RingFault),
        (13, Reply::TooManyUsers),
        (u64::MAX, Reply::TreeFault),
    ] {
        entries.push(Entry::Replied { number, reply })?;
    }
    let journal = print_journal(rt.alloc(), entries.as_slice())?;
    assert_eq!(rt; journal.as_slice(), EVERY_ENTRY);
    Ok(())
}

/// The secret of a few bytes.
fn secret_of(alloc: Global, bytes: &[u8]) -> Result<Secret, NoMemory> {
    let secret = Secret::new(Bytes::copy(alloc, bytes)?);
    Ok(secret.unwrap_or(Secret::empty(alloc)))
}

#[test]
fn prints_a_protect(rt: HostRuntime) -> Result<(), Fail> {
    let mut entries = Vec::new(rt.alloc());
    entries.push(Entry::Began {
        number: 1,
        actor: Actor::User(10),
        command: Command::Protect {
            user: 10,
            known: Secret::empty(rt.alloc()),
            fresh: secret_of(rt.alloc(), b"se")?,
        },
    })?;
    entries.push(added(1, 10, Slot::Cx(0), secret_of(rt.alloc(), b"se")?))?;
    entries.push(added(2, 11, Slot::Current, Secret::empty(rt.alloc())))?;
    entries.push(Entry::Replied {
        number: 3,
        reply: Reply::NoSlot,
    })?;
    let journal = print_journal(rt.alloc(), entries.as_slice())?;
    assert_eq!(rt; journal.as_slice(), PROTECTED_JOURNAL);
    Ok(())
}

/// The entry of a slot that a command of this number added.
fn added(number: u64, user: u32, slot: Slot, secret: Secret) -> Entry {
    Entry::Changed {
        number,
        change: Change::Add { user, slot, secret },
    }
}

#[test]
fn prints_every_name(rt: HostRuntime) -> Result<(), Fail> {
    let files: [(FileName, &[u8]); 8] = [
        (FileName::Salt, &[15]),
        (FileName::Stretching, &[]),
        (FileName::Discard, &[13]),
        (FileName::BlobNew, &[12]),
        (FileName::BlobUpgraded, &[11]),
        (FileName::Blob, &[10]),
        (FileName::EncryptedKey, &[0, 255]),
        (FileName::Version, &[48]),
    ];
    let mut dir = Dir::new();
    for (name, bytes) in files {
        dir.put(name, Bytes::copy(rt.alloc(), bytes)?)?;
    }
    let mut dirs = Vec::new(rt.alloc());
    dirs.push((Place::De(0), dir))?;
    for place in [
        Place::Ce(7, Slot::Current),
        Place::Ce(7, Slot::Cx(12)),
        Place::Temp(u32::MAX),
    ] {
        dirs.push((place, Dir::new()))?;
    }
    let tree = print_tree(rt.alloc(), b"later", dirs.as_slice(), Some(3))?;
    assert_eq!(rt; tree.as_slice(), EVERY_NAME);
    Ok(())
}

#[test]
fn prints_a_long_file(rt: HostRuntime) -> Result<(), Fail> {
    let mut dir = Dir::new();
    dir.put(FileName::Discard, Bytes::copy(rt.alloc(), &[0; 129])?)?;
    let mut dirs = Vec::new(rt.alloc());
    dirs.push((Place::De(0), dir))?;
    let tree = print_tree(rt.alloc(), b"tree", dirs.as_slice(), None)?;
    assert_eq!(rt; tree.as_slice(), LONG_FILE);
    Ok(())
}

#[test]
fn prints_a_keystore(rt: HostRuntime) -> Result<(), Fail> {
    let mut blob = [0; 32];
    blob[0] = 1;
    let entries = [
        entry_row(blob, 1, 10, Class::De),
        entry_row([171; 32], 2, u32::MAX, Class::Ce),
    ];
    let text = print_keystore(rt.alloc(), 2, &entries)?;
    assert_eq!(rt; text.as_slice(), KEYSTORE);
    Ok(())
}

fn entry_row(blob: [u8; 32], level: u32, user: u32, class: Class) -> EntryRow {
    EntryRow {
        blob: Blob::new(blob),
        level,
        tag: Tag { user, class },
    }
}

#[test]
fn prints_a_ring(rt: HostRuntime) -> Result<(), Fail> {
    let keys = [
        KeyRow {
            user: 10,
            class: Class::Ce,
            reference: [0xf5, 0x74, 0xa7, 0x74, 0x64, 0x01, 0x73, 0x11],
        },
        KeyRow {
            user: 0,
            class: Class::De,
            reference: [0x04, 0x33, 0x4e, 0x23, 0x05, 0x7a, 0x6e, 0x2d],
        },
    ];
    let text = print_ring(rt.alloc(), &keys)?;
    assert_eq!(rt; text.as_slice(), RING);
    Ok(())
}

#[test]
fn prints_scripts_back(rt: HostRuntime) -> Result<(), Fail> {
    let texts: [&[u8]; 13] = [
        b"",
        b"create 10\nall\n",
        b"create 10\nturn 10 6\nstop 1\nrestart 1\nall\n",
        b"create 10\nturn 10 4\nstop 3 = ff\n",
        b"create 10\nturn 10 11\nstop 1\nrestart 1\nall\n",
        b"create 10\nturn 10 11\nstop 0\nrestart 1\nall\n",
        b"seed -\ncreate 0\ncreate 4294967295\n",
        b"unlock 10 -\n",
        b"unlock 10 7365\n",
        b"protect 10 - 7365\n",
        b"protect 4294967295 00ff -\n",
        b"seed 00ff\nturn boot 1\nturn 0 4096\nstop 4294967295 - = 0a\nrestart 1\nstop 0\n",
        FULL_STOP,
    ];
    for text in texts {
        assert!(rt; is_printed_back(rt.alloc(), text)?, "at {text:?}");
    }
    Ok(())
}

#[test]
fn refuses_scripts(rt: HostRuntime) -> Result<(), Fail> {
    let texts: [&[u8]; 33] = [
        b"create 010\n",
        b"create +1\n",
        b"create  10\n",
        b"create 4294967296\n",
        b"CREATE 10\n",
        b"make 10\n",
        b"unlock..\n",
        b"unlock 10\n",
        b"unlock 10 AB\n",
        b"recover\n",
        b"create 10",
        b"\n",
        b"create\n",
        b"create 10 11\n",
        b"all x\n",
        b"all \n",
        b" all\n",
        b"restart 1\n",
        b"all\nrestart 1\n",
        b"stop 0\nall\n",
        b"stop 0\nstop 0\n",
        b"stop 0\nrestart 2\n",
        b"turn 10 0\n",
        b"turn 10 4097\n",
        b"turn cp 1\n",
        b"stop\n",
        b"stop 0 AB\n",
        b"stop 0 a\n",
        b"seed\n",
        b"all\nseed 00\n",
        LONG_FILL,
        LONG_SECRET,
        MANY_FILLS,
    ];
    for text in texts {
        assert!(rt; read_script(rt.alloc(), text)?.is_none(), "at {text:?}");
    }
    Ok(())
}

#[test]
fn reads_lines(rt: HostRuntime) -> Result<(), Fail> {
    let text = b"seed 00ff\ncreate 10\nturn boot 2\nall\nstop 3 =\nrestart 1\nunlock 10 7365\n";
    let script = read_script(rt.alloc(), text)?;
    let seed = script.as_ref().map(Script::seed).unwrap_or(&[]);
    assert_eq!(rt; seed, [0, 255].as_slice());
    let lines = script.as_ref().map(Script::lines).unwrap_or(&[]);
    assert!(rt; matches!(lines.get(1), Some(Line::Do(Command::Create { user: 10 }))));
    assert!(rt; matches!(lines.get(2), Some(Line::Turns(Actor::Boot, 2))));
    assert!(rt; matches!(lines.get(3), Some(Line::All)));
    assert!(rt; matches!(lines.get(4), Some(Line::Stop(Cut { keep: 3, .. }))));
    assert!(rt; matches!(lines.get(5), Some(Line::Restart(1))));
    assert!(rt;
        matches!(lines.get(6), Some(Line::Do(Command::Unlock { user: 10, secret }))
        if secret.as_slice() == b"se".as_slice())
    );
    Ok(())
}

#[test]
fn refuses_protects(rt: HostRuntime) -> Result<(), Fail> {
    let texts: [&[u8]; 5] = [
        b"protect 10 7365\n",
        b"protect 10 - 7365 -\n",
        b"protect 10 - AB\n",
        b"protect - 7365\n",
        b"protect 4294967296 - 7365\n",
    ];
    for text in texts {
        assert!(rt; read_script(rt.alloc(), text)?.is_none(), "at {text:?}");
    }
    Ok(())
}

#[test]
fn reads_a_protect(rt: HostRuntime) -> Result<(), Fail> {
    let script = read_script(rt.alloc(), b"protect 10 7365 00ff\n")?;
    let lines = script.as_ref().map(Script::lines).unwrap_or(&[]);
    assert!(rt;
        matches!(lines.first(), Some(Line::Do(Command::Protect { user: 10, known, fresh }))
        if known.as_slice() == b"se".as_slice() && fresh.as_slice() == [0, 255].as_slice())
    );
    Ok(())
}

/// Whether the text is of a script that prints as this text.
fn is_printed_back(alloc: Global, text: &[u8]) -> Result<bool, NoMemory> {
    let Some(script) = read_script(alloc, text)? else {
        return Ok(false);
    };
    let printed = print_script(alloc, &script)?;
    Ok(printed.as_slice() == text)
}

#[test]
fn reads_bytes(rt: HostRuntime) -> Result<(), Fail> {
    let words: [(&[u8], Option<&[u8]>); 8] = [
        (b"-", Some(&[])),
        (b"00ff", Some(&[0, 255])),
        (b"1a2b", Some(&[26, 43])),
        (b"AB", None),
        (b"a", None),
        (b"", None),
        (b"0g", None),
        (b"--", None),
    ];
    for (word, want) in words {
        let bytes = bytes_of(rt.alloc(), word)?;
        assert_eq!(rt; bytes.as_ref().map(Bytes::as_slice), want, "at {word:?}");
    }
    Ok(())
}

#[test]
fn reads_numbers(rt: HostRuntime) {
    let words: [(&[u8], Option<u32>); 8] = [
        (b"0", Some(0)),
        (b"10", Some(10)),
        (b"4294967295", Some(u32::MAX)),
        (b"4294967296", None),
        (b"", None),
        (b"00", None),
        (b"+1", None),
        (b"1a", None),
    ];
    for (word, want) in words {
        assert_eq!(rt; number_of(word), want, "at {word:?}");
    }
}

#[test]
fn tells_how_a_run_ended(rt: HostRuntime) {
    let ends: [(Status, u8, &[u8]); 6] = [
        (Status::Done, 0, b""),
        (
            Status::Usage,
            2,
            b"usage: vold run | vold rehearse <number> | vold threads\n",
        ),
        (Status::BadScript, 3, b"badscript\n"),
        (Status::ReadFault, 5, b"readfault\n"),
        (Status::WriteFault, 6, b""),
        (Status::NoMemory, 7, b""),
    ];
    for (status, number, message) in ends {
        assert_eq!(rt; status.number(), number, "at {status:?}");
        assert_eq!(rt; status.message(), message, "at {status:?}");
    }
}
