use crate::run;
use journal_model::{Actor, Command, Entry, Reply};
use key_ring::MemRing;
use keystore_memory::MemKeystore;
use std::alloc::Global;
use std::test::Fail;
use tree_memory::MemTree;
use tree_model::{Bytes, NoMemory, TreeDisk};
use vold_book::{Book, Standing, Turn};
use vold_io::{MemSink, MemSource};

/// What a run wrote, and the number of its status.
#[derive(Drop)]
struct Written {
    sink: MemSink,
    status: u8,
}

#[test]
fn tells_why_nothing_is_done(rt: HostRuntime) -> Result<(), Fail> {
    for (words, failing, status) in [
        ("", None, 2),
        ("walk", None, 2),
        ("run x", None, 2),
        ("run", Some(0), 5),
        ("run", Some(1), 5),
    ] {
        let ran = ran(rt.alloc(), words, failing, None)?;
        assert_eq!(rt; ran.sink.as_slice(), message(status));
        assert_eq!(rt; ran.status, status);
    }
    Ok(())
}

#[test]
fn tells_a_sink_that_fails(rt: HostRuntime) -> Result<(), Fail> {
    for words in ["run", "walk"] {
        let ran = ran(rt.alloc(), words, None, Some(0))?;
        assert_eq!(rt; ran.sink.as_slice(), b"".as_slice());
        assert_eq!(rt; ran.status, 6);
    }
    Ok(())
}

/// No script gives a second recovery without a further restart.
#[test]
fn a_further_recovery_makes_up_for_a_sync(rt: HostRuntime) -> Result<(), Fail> {
    let mut book = failed_recovery(rt.alloc())?.ok_or("no book")?;
    assert!(rt; !book.ready());
    assert!(rt; book.standing(1) == Standing::Answered(Reply::TreeFault));
    assert!(rt; book.enqueue(Command::Recover) == Ok(2));
    assert!(rt; book.standing(2) == Standing::Queued);
    for turn in 0u32..6 {
        let made = book.advance(Actor::Boot)?;
        assert!(rt; (made == Turn::Went) == (turn < 5));
    }
    assert!(rt; book.ready());
    assert!(rt; book.standing(2) == Standing::Answered(Reply::Ended(0)));
    let entries = book.journal().as_slice();
    assert_eq!(rt; entries.len(), 9);
    assert!(rt; matches!(entries.get(7), Some(Entry::Synced)));
    Ok(())
}

/// The Book of a create that was stopped behind its first rename, once the sync of the recovery behind it failed.
fn failed_recovery(alloc: Global) -> Result<Option<Book<MemTree, MemKeystore, MemRing>>, NoMemory> {
    let script = b"create 10\nturn 10 11\nstop 1\nrestart 1\nall\n";
    let mut tree = MemTree::new(alloc)?;
    tree.plan_fault(10)?;
    let store = MemKeystore::new(alloc)?;
    let ring = MemRing::new(alloc)?;
    let mut source = MemSource::new(Bytes::copy(alloc, script)?, None);
    let mut sink = MemSink::new(alloc, None);
    let words = words_of(alloc, "run")?;
    let end = run(
        alloc,
        words.as_slice(),
        &mut source,
        &mut sink,
        tree,
        store,
        ring,
    );
    Ok(end.book)
}

/// The text in place of the output.
fn message(status: u8) -> &'static [u8] {
    match status {
        2 => b"usage: vold run | vold rehearse <number> | vold threads\n",
        _ => b"readfault\n",
    }
}

/// A run of one create over streams in memory, of which the reads and writes of these numbers fail.
fn ran(
    alloc: Global,
    words: &str,
    failing_read: Option<u64>,
    failing_write: Option<u64>,
) -> Result<Written, NoMemory> {
    let words = words_of(alloc, words)?;
    let tree = MemTree::new(alloc)?;
    let store = MemKeystore::new(alloc)?;
    let ring = MemRing::new(alloc)?;
    let mut source = MemSource::new(Bytes::copy(alloc, b"create 10\nall\n")?, failing_read);
    let mut sink = MemSink::new(alloc, failing_write);
    let end = run(
        alloc,
        words.as_slice(),
        &mut source,
        &mut sink,
        tree,
        store,
        ring,
    );
    Ok(Written {
        sink,
        status: end.status.number(),
    })
}

/// The words of a line.
fn words_of(alloc: Global, line: &str) -> Result<Vec<String>, NoMemory> {
    let mut words = Vec::new(alloc);
    for word in line.split_whitespace() {
        words.push(word.to_string(alloc)?)?;
    }
    Ok(words)
}
