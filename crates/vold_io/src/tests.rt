use crate::{
    Failed, MemSink, MemSource, ReadFault, ReadSource, Sink, SinkFault, Source, WriteSink,
    read_at_most, write_all,
};
use std::alloc::{AllocError, Global};
use std::io;
use std::io::{Cursor, ErrorKind, Read, Write};
use std::test::Fail;
use tree_model::Bytes;

const DIGITS: &[u8] = b"0123456789";

/// What a fake writer answers at the call that goes wrong.
#[derive(Clone, Copy)]
enum Wrong {
    Error,
    Interrupted,
    Nothing,
}

/// A writer that takes at most four bytes at a time. One call goes wrong.
#[derive(Drop)]
struct FakeWriter {
    held: Vec<u8>,
    calls: u64,
    wrong_at: u64,
    wrong: Wrong,
}

impl FakeWriter {
    fn new(alloc: Global, wrong_at: u64, wrong: Wrong) -> FakeWriter {
        FakeWriter {
            held: Vec::new(alloc),
            calls: 0,
            wrong_at,
            wrong,
        }
    }

    fn is_wrong(&mut self) -> bool {
        let call = self.calls;
        self.calls = call.saturating_add(1);
        call == self.wrong_at
    }
}

impl Write for FakeWriter {
    fn write(&mut self, buf: &[u8]) -> io::Result<usize> {
        if self.is_wrong() {
            return match self.wrong {
                Wrong::Error => Err(ErrorKind::BrokenPipe.into()),
                Wrong::Interrupted => Err(ErrorKind::Interrupted.into()),
                Wrong::Nothing => Ok(0),
            };
        }
        let count = buf.len().min(4);
        self.held.extend_from_slice(&buf[..count])?;
        Ok(count)
    }

    fn flush(&mut self) -> io::Result<()> {
        if self.is_wrong() {
            return Err(ErrorKind::BrokenPipe.into());
        }
        Ok(())
    }
}

/// A reader whose second call is interrupted.
#[derive(Drop)]
struct FakeReader<'a> {
    bytes: &'a [u8],
    calls: u64,
}

impl Read for FakeReader<'_> {
    fn read(&mut self, buf: &mut [u8]) -> io::Result<usize> {
        let call = self.calls;
        self.calls = call.saturating_add(1);
        if call == 1 {
            return Err(ErrorKind::Interrupted.into());
        }
        self.bytes.read(buf)
    }
}

fn digits(alloc: Global, fail_at: Option<u64>) -> Result<MemSource, Fail> {
    Ok(MemSource::new(Bytes::copy(alloc, DIGITS)?, fail_at))
}

/// Bytes for several pieces, all different from their neighbours.
fn many(alloc: Global) -> Result<Vec<u8>, AllocError> {
    let mut bytes = Vec::new(alloc);
    for turn in 0..10000u32 {
        bytes.push((turn % 251) as u8)?;
    }
    Ok(bytes)
}

#[test]
fn a_source_in_memory_gives_its_bytes(rt: HostRuntime) -> Result<(), Fail> {
    let mut source = digits(rt.alloc(), None)?;
    let mut piece = [0u8; 4];
    for (count, bytes) in [(4, b"0123"), (4, b"4567"), (2, b"8967"), (0, b"8967")] {
        assert_eq!(rt; source.read(&mut piece), Ok(count));
        assert_eq!(rt; piece.as_slice(), bytes.as_slice());
    }
    assert_eq!(rt; source.read(&mut []), Ok(0));
    assert_eq!(rt; source.faults(), 0);
    Ok(())
}

#[test]
fn a_read_fails_once(rt: HostRuntime) -> Result<(), Fail> {
    let mut source = digits(rt.alloc(), Some(1))?;
    let mut piece = [0u8; 4];
    assert_eq!(rt; source.read(&mut piece), Ok(4));
    assert_eq!(rt; source.read(&mut piece), Err(Failed));
    assert_eq!(rt; source.faults(), 1);
    assert_eq!(rt; source.read(&mut piece), Ok(4));
    assert_eq!(rt; piece.as_slice(), b"4567".as_slice());
    assert_eq!(rt; source.faults(), 1);
    Ok(())
}

#[test]
fn a_write_fails_once(rt: HostRuntime) -> Result<(), Fail> {
    let mut sink = MemSink::new(rt.alloc(), Some(0));
    assert_eq!(rt; sink.write(b"ab"), Err(SinkFault::Failed));
    assert_eq!(rt; sink.as_slice(), b"".as_slice());
    assert_eq!(rt; sink.faults(), 1);
    assert_eq!(rt; sink.write(b"cde"), Ok(3));
    assert_eq!(rt; sink.as_slice(), b"cde".as_slice());
    assert_eq!(rt; sink.faults(), 1);
    Ok(())
}

#[test]
fn readers_of_std_are_sources(rt: HostRuntime) -> Result<(), Fail> {
    let mut slice = ReadSource::new(DIGITS);
    let read = read_at_most(rt.alloc(), &mut slice, 100)
        .ok()
        .ok_or("slice")?;
    assert_eq!(rt; read.as_slice(), DIGITS);

    let mut cursor = ReadSource::new(Cursor::new(DIGITS));
    let read = read_at_most(rt.alloc(), &mut cursor, 4)
        .ok()
        .ok_or("cursor")?;
    assert_eq!(rt; read.as_slice(), b"0123".as_slice());

    let mut fake = ReadSource::new(FakeReader {
        bytes: DIGITS,
        calls: 0,
    });
    assert!(rt; read_at_most(rt.alloc(), &mut fake, 100) == Err(ReadFault::Failed));
    assert_eq!(rt; fake.faults(), 1);
    assert_eq!(rt; fake.read(&mut [0]), Ok(0));
    assert_eq!(rt; fake.faults(), 1);
    Ok(())
}

#[test]
fn writers_of_std_are_sinks(rt: HostRuntime) -> Result<(), Fail> {
    let mut held = Vec::new(rt.alloc());
    let mut sink = WriteSink::new(&mut held);
    assert_eq!(rt; write_all(&mut sink, DIGITS), Ok(()));
    assert_eq!(rt; sink.flush(), Ok(()));
    assert_eq!(rt; sink.faults(), 0);
    assert_eq!(rt; held.as_slice(), DIGITS);
    Ok(())
}

#[test]
fn a_writer_goes_wrong_at_each_call(rt: HostRuntime) -> Result<(), Fail> {
    for wrong in [Wrong::Error, Wrong::Interrupted, Wrong::Nothing] {
        for wrong_at in 0..4u64 {
            let mut writer = FakeWriter::new(rt.alloc(), wrong_at, wrong);
            let mut sink = WriteSink::new(&mut writer);
            let result = write_all(&mut sink, DIGITS);
            let faults = sink.faults();
            if wrong_at < 3 {
                assert_eq!(rt; result, Err(SinkFault::Failed), "at {wrong_at}");
                assert_eq!(rt; faults, 1);
                assert!(rt; writer.held.len() as u64 == 4 * wrong_at);
            } else {
                assert_eq!(rt; result, Ok(()), "at {wrong_at}");
                assert_eq!(rt; faults, 0);
                assert_eq!(rt; writer.held.as_slice(), DIGITS);
            }
        }
    }
    Ok(())
}

#[test]
fn a_flush_fails(rt: HostRuntime) -> Result<(), Fail> {
    let mut sink = WriteSink::new(FakeWriter::new(rt.alloc(), 0, Wrong::Error));
    assert_eq!(rt; sink.flush(), Err(SinkFault::Failed));
    assert_eq!(rt; sink.faults(), 1);
    assert_eq!(rt; sink.flush(), Ok(()));
    Ok(())
}

#[test]
fn reading_at_most_fails_at_each_call(rt: HostRuntime) -> Result<(), Fail> {
    let all = many(rt.alloc())?;
    for (limit, calls, length) in [
        (20000, 4, 10000),
        (10000, 3, 10000),
        (5000, 2, 5000),
        (0, 0, 0),
    ] {
        for fail_at in 0..5u64 {
            let bytes = Bytes::copy(rt.alloc(), all.as_slice())?;
            let mut source = MemSource::new(bytes, Some(fail_at));
            let result = read_at_most(rt.alloc(), &mut source, limit);
            if fail_at < calls {
                assert!(rt; result == Err(ReadFault::Failed), "{limit} at {fail_at}");
                assert_eq!(rt; source.faults(), 1);
            } else {
                let read = result.ok().ok_or("refused")?;
                assert!(rt; all.as_slice().starts_with(read.as_slice()));
                assert_eq!(rt; read.len(), length);
                assert_eq!(rt; source.faults(), 0);
            }
        }
    }
    Ok(())
}

#[test]
fn writing_all_fails_at_each_call(rt: HostRuntime) -> Result<(), Fail> {
    for fail_at in 0..2u64 {
        let mut sink = MemSink::new(rt.alloc(), Some(fail_at));
        let result = write_all(&mut sink, DIGITS);
        let wanted = if fail_at == 0 {
            Err(SinkFault::Failed)
        } else {
            Ok(())
        };
        assert_eq!(rt; result, wanted);
        assert_eq!(rt; sink.as_slice().len(), if fail_at == 0 { 0 } else { 10 });
    }
    let mut steady = MemSink::new(rt.alloc(), None);
    assert_eq!(rt; write_all(&mut steady, DIGITS), Ok(()));
    assert_eq!(rt; steady.as_slice(), DIGITS);
    Ok(())
}
