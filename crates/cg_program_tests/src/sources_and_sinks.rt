//! Sources and sinks, in memory and over readers and writers.
use cg_io::{
    MemSink, MemSource, PlainSource, ReadFailed, ReadSource, Sink, Source, WriteFailed, WriteSink,
};
use std::io::{self, ErrorKind, Read, Write};
use std::process::Abort;
use std::test::Fail;

/// Reads up to three bytes again and again. It is to give these, or to fail where there are none.
fn check_reads<S: Source>(rt: &impl Abort, source: &mut S, wants: &[Option<&[u8]>]) {
    for want in wants {
        let mut buf = [0; 3];
        match (source.read(&mut buf), want) {
            (Ok(n), Some(want)) => assert_eq!(rt; &buf[..n], *want),
            (Err(ReadFailed), None) => {}
            _ => panic!(rt; "not {want:?}"),
        }
    }
}

/// A reader that is interrupted a number of times before it gives `ab`.
#[derive(Drop)]
struct HaltingReader {
    halts: u32,
}

impl Read for HaltingReader {
    fn read(&mut self, buf: &mut [u8]) -> io::Result<usize> {
        if self.halts > 0 {
            self.halts -= 1;
            return Err(ErrorKind::Interrupted.into());
        }
        let n = buf.len().min(2);
        buf[..n].copy_from_slice(&b"ab"[..n]);
        Ok(n)
    }
}

#[test]
fn sources_give_their_bytes_and_fail_where_they_are_told(rt: HostRuntime) -> Result<(), Fail> {
    let alloc = rt.alloc();
    let all: [Option<&[u8]>; 3] = [Some(b"abc"), Some(b"de"), Some(b"")];
    let mut plain = PlainSource::new(Vec::from_slice(alloc, b"abcde")?);
    check_reads(&rt, &mut plain, &all);
    let bytes = Vec::from_slice(alloc, b"abcde")?;
    let mut failing = MemSource::new(bytes, Vec::from_slice(alloc, &[4, 2])?);
    let some: [Option<&[u8]>; 5] = [Some(b"abc"), None, Some(b"de"), None, Some(b"")];
    check_reads(&rt, &mut failing, &some);
    let mut text = b"abcde".as_slice();
    check_reads(&rt, &mut ReadSource::new(&mut text), &all);
    // An interrupted read is tried again a hundred times.
    let mut patient = ReadSource::new(HaltingReader { halts: 100 });
    check_reads(&rt, &mut patient, &[Some(b"ab")]);
    let mut gives_up = ReadSource::new(HaltingReader { halts: 101 });
    check_reads(&rt, &mut gives_up, &[None, Some(b"ab")]);
    Ok(())
}

/// What a writer does when it has no room.
#[derive(Clone, Copy)]
enum Full {
    TakesNothing,
    Breaks,
}

/// A writer with limited room that takes one byte a call, each after an interruption.
#[derive(Drop)]
struct SlowWriter {
    taken: Vec<u8>,
    room: usize,
    interrupted: bool,
    full: Full,
}

impl Write for SlowWriter {
    fn write(&mut self, buf: &[u8]) -> io::Result<usize> {
        self.interrupted = !self.interrupted;
        if self.interrupted {
            return Err(ErrorKind::Interrupted.into());
        }
        let Some(first) = buf.first() else {
            return Ok(0);
        };
        if self.taken.len() < self.room {
            self.taken.push(*first)?;
            return Ok(1);
        }
        match self.full {
            Full::TakesNothing => Ok(0),
            Full::Breaks => Err(ErrorKind::BrokenPipe.into()),
        }
    }

    fn flush(&mut self) -> io::Result<()> {
        Ok(())
    }
}

#[test]
fn sinks_keep_what_they_take(rt: HostRuntime) -> Result<(), Fail> {
    let alloc = rt.alloc();
    let mut sink = MemSink::new(alloc, Vec::from_slice(alloc, &[3])?, 3);
    assert_eq!(&rt; sink.write(b"made list #2\n"), Ok(()));
    assert_eq!(&rt; sink.write(b"made list #3\n"), Ok(()));
    assert_eq!(&rt; sink.write(b"made list #4\n"), Err(WriteFailed));
    assert_eq!(&rt; sink.bytes(), b"made list #2\nmade list #3\nmad".as_slice());
    let mut long = MemSink::new(alloc, Vec::from_slice(alloc, &[1])?, 100);
    assert_eq!(&rt; long.write(b"end\n"), Err(WriteFailed));
    assert_eq!(&rt; long.bytes(), b"end\n".as_slice());
    let line = b"free #2\n";
    for (room, full, answer, want) in [
        (100, Full::Breaks, Ok(()), line.as_slice()),
        (8, Full::TakesNothing, Ok(()), line.as_slice()),
        (4, Full::TakesNothing, Err(WriteFailed), b"free".as_slice()),
        (5, Full::Breaks, Err(WriteFailed), b"free ".as_slice()),
    ] {
        let taken = Vec::new(alloc);
        let mut writer = SlowWriter {
            taken,
            room,
            interrupted: false,
            full,
        };
        let mut sink = WriteSink::new(&mut writer);
        assert_eq!(&rt; sink.write(line), answer, "with room for {room}");
        assert_eq!(&rt; writer.taken.as_slice(), want, "with room for {room}");
    }
    Ok(())
}
