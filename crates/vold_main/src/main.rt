//! The program: a run over standard input and output, with a tree, a keystore and a key ring in memory.
#![tactic(auto)]

use key_ring::MemRing;
use keystore_memory::MemKeystore;
use script_text::Status;
use std::env;
use std::io::{ErrorKind, Write};
use std::process::ExitCode;
use tree_memory::MemTree;
use tree_model::NoMemory;
use vold_io::{ReadSource, WriteSink};
use vold_run::{WordsFault, asked_words, exit_number, run};

fn main(rt: HostRuntime) -> ExitCode {
    let mut sink = WriteSink::new(rt.stdout());
    let ended = ended(&rt, &mut sink);
    ExitCode::from(exit_number(ended, sink.flush()))
}

/// Makes the run that the command line asks for.
fn ended<W: Write + Drop>(rt: &HostRuntime, sink: &mut WriteSink<W>) -> Result<Status, NoMemory> {
    let words = asked_words(rt.alloc(), words(rt))?;
    let mut source = ReadSource::new(rt.stdin());
    let tree = MemTree::new(rt.alloc())?;
    let store = MemKeystore::new(rt.alloc())?;
    let ring = MemRing::new(rt.alloc())?;
    let end = run(
        rt.alloc(),
        words.as_slice(),
        &mut source,
        sink,
        tree,
        store,
        ring,
    );
    Ok(end.status)
}

/// The words after the program's name.
fn words(rt: &HostRuntime) -> Result<Vec<String>, WordsFault> {
    match env::args(rt) {
        Ok(args) => Ok(args.skip(1).collect(rt.alloc())?),
        Err(error) if error.kind() == ErrorKind::OutOfMemory => Err(WordsFault::NoMemory),
        Err(_) => Err(WordsFault::NoText),
    }
}
