// What the streams do at short, interrupted and failing calls, and what the system's own answer.
use crate::{StdSink, StdSource};
use std::fs::{self, OpenOptions};
use std::io::{self, Error, ErrorKind, Read, Write};
use std::test::Fail;
use wt_io::{Sink, Source, write_all};

/// What a stream does at its next call.
#[derive(Clone, Copy)]
enum Turn {
    /// Gives or takes this many bytes at most.
    Moves(usize),
    /// A signal interrupts it.
    Interrupted,
    /// It fails.
    Broken,
}

/// A stream that follows a list of turns. It gives the bytes `a`, and keeps what it takes.
#[derive(Drop)]
struct Scripted {
    turns: Vec<Turn>,
    at: usize,
    taken: Vec<u8>,
}

impl Scripted {
    fn new(rt: HostRuntime, turns: &[Turn]) -> Result<Self, Fail> {
        Ok(Scripted {
            turns: Vec::from_slice(rt.alloc(), turns)?,
            at: 0,
            taken: Vec::new(rt.alloc()),
        })
    }

    fn next(&mut self) -> io::Result<usize> {
        let turn = self.turns.get(self.at).copied().unwrap_or(Turn::Broken);
        self.at = self.at.saturating_add(1);
        match turn {
            Turn::Moves(count) => Ok(count),
            Turn::Interrupted => Err(Error::from(ErrorKind::Interrupted)),
            Turn::Broken => Err(Error::from(ErrorKind::BrokenPipe)),
        }
    }
}

impl Read for Scripted {
    fn read(&mut self, buffer: &mut [u8]) -> io::Result<usize> {
        let count = self.next()?.min(buffer.len());
        buffer[..count].fill(b'a');
        Ok(count)
    }
}

impl Write for Scripted {
    fn write(&mut self, piece: &[u8]) -> io::Result<usize> {
        let count = self.next()?.min(piece.len());
        match self.taken.extend_from_slice(&piece[..count]) {
            Ok(()) => Ok(count),
            Err(_) => Err(Error::from(ErrorKind::OutOfMemory)),
        }
    }

    fn flush(&mut self) -> io::Result<()> {
        Ok(())
    }
}

#[test]
fn a_source_goes_on_over_signals_and_counts_a_failure(rt: HostRuntime) -> Result<(), Fail> {
    let turns = [
        Turn::Moves(2),
        Turn::Interrupted,
        Turn::Interrupted,
        Turn::Moves(3),
        Turn::Broken,
        Turn::Moves(0),
    ];
    let mut source = StdSource::new(Scripted::new(rt, &turns)?);
    let mut buffer = [0; 4];
    assert!(rt; matches!(source.read(&mut buffer), Ok(2)));
    assert!(rt; buffer == *b"aa\0\0");
    assert!(rt; matches!(source.read(&mut buffer), Ok(3)));
    assert!(rt; buffer == *b"aaa\0");
    assert_eq!(rt; source.faults(), 0);
    assert!(rt; source.read(&mut buffer).is_err());
    assert_eq!(rt; source.faults(), 1);
    assert!(rt; matches!(source.read(&mut buffer), Ok(0)));
    assert_eq!(rt; source.faults(), 1);
    Ok(())
}

#[test]
fn what_is_written_is_a_front(rt: HostRuntime) -> Result<(), Fail> {
    let rows: [(&[Turn], &[u8], u64); 4] = [
        (&[Turn::Moves(9)], b"abcde", 0),
        (
            &[
                Turn::Moves(2),
                Turn::Interrupted,
                Turn::Moves(1),
                Turn::Moves(2),
            ],
            b"abcde",
            0,
        ),
        (&[Turn::Moves(2), Turn::Broken, Turn::Moves(9)], b"ab", 1),
        (&[Turn::Moves(2), Turn::Moves(0), Turn::Moves(9)], b"ab", 1),
    ];
    for (turns, want, faults) in rows {
        let mut stream = Scripted::new(rt, turns)?;
        let mut sink = StdSink::new(&mut stream);
        assert_eq!(rt; write_all(&mut sink, b"abcde").is_ok(), faults == 0);
        assert_eq!(rt; sink.faults(), faults);
        assert!(rt; stream.taken.as_slice() == want);
    }
    Ok(())
}

#[test]
fn a_pipe_gives_what_it_took_and_a_closed_one_is_a_fault(rt: HostRuntime) -> Result<(), Fail> {
    let (reader, writer) = io::pipe(&rt)?;
    let mut sink = StdSink::new(writer);
    assert!(rt; write_all(&mut sink, b"one line\n").is_ok());
    let mut source = StdSource::new(reader);
    let mut buffer = [0; 16];
    assert!(rt; matches!(source.read(&mut buffer), Ok(9)));
    assert!(rt; buffer.starts_with(b"one line\n"));
    drop(source);
    assert!(rt; write_all(&mut sink, b"another\n").is_err());
    assert_eq!(rt; sink.faults(), 1);
    let (reader, writer) = io::pipe(&rt)?;
    drop(writer);
    assert!(rt; matches!(StdSource::new(reader).read(&mut buffer), Ok(0)));
    Ok(())
}

#[test]
fn a_full_device_and_a_folder_are_faults(rt: HostRuntime) -> Result<(), Fail> {
    let full = OpenOptions::new().write(true).open(&rt, "/dev/full")?;
    let mut sink = StdSink::new(full);
    assert!(rt; write_all(&mut sink, b"abc").is_err());
    assert_eq!(rt; sink.faults(), 1);
    let mut source = StdSource::new(fs::open(&rt, "/")?);
    assert!(rt; source.read(&mut [0; 4]).is_err());
    assert_eq!(rt; source.faults(), 1);
    Ok(())
}

#[test]
fn the_standard_streams_are_streams(rt: HostRuntime) {
    let mut out = StdSink::new(rt.stdout());
    let mut err = StdSink::new(rt.stderr());
    assert!(rt; write_all(&mut out, b"out\n").is_ok());
    assert!(rt; write_all(&mut err, b"err\n").is_ok());
    assert_eq!(rt; out.faults(), 0);
    assert_eq!(rt; StdSource::new(rt.stdin()).faults(), 0);
}
