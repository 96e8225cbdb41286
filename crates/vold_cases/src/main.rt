//! Runs cases: scripts over a source, a sink, a tree, a keystore and a key ring in memory, with the faults that each
//! case plans. Standard input has the cases; standard output gets what each run wrote and the number that it ended
//! with, or one line that tells what is wrong with the input. The program ends with 0, where its input is wrong with
//! 1, and where standard input, standard output or memory fails with the number that a run has for it.
#![tactic(auto)]

mod case;
mod playing;
mod reading;
mod refusal;
#[cfg(test)]
mod tests;

use script_text::Status;
use std::process::ExitCode;
use vold_io::{ReadFault, ReadSource, SinkFault, WriteSink, read_at_most};

fn main(rt: HostRuntime) -> ExitCode {
    let mut source = ReadSource::new(rt.stdin());
    let number = match read_at_most(rt.alloc(), &mut source, reading::MOST_BYTES + 1) {
        Ok(bytes) => written(&rt, bytes.as_slice()),
        Err(ReadFault::Failed) => Status::ReadFault.number(),
        Err(ReadFault::NoMemory) => Status::NoMemory.number(),
    };
    ExitCode::from(number)
}

/// Writes what the cases of the bytes print, and answers the number that the program ends with.
fn written(rt: &HostRuntime, bytes: &[u8]) -> u8 {
    let mut sink = WriteSink::new(rt.stdout());
    let played = playing::play(rt.alloc(), bytes, &mut sink);
    match (played, sink.flush()) {
        (Ok(true), Ok(())) => 0,
        (Ok(false), Ok(())) => 1,
        (Err(SinkFault::NoMemory), _) => Status::NoMemory.number(),
        _ => Status::WriteFault.number(),
    }
}
