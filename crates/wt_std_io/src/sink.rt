// A writer as a sink. What it has taken is told as far as std tells what the writer holds.
ghost use Rattle.std.specs.Prelude.{◌≡◌, ◌<◌, ◌≤◌, length, take, None, IfNone, IfSome, IfOk, OnErr};
ghost use Rattle.std.specs.Io.KnownBytes.{Appends, Keeps};
ghost use Rattle.failure.specs.Counts.{HasCause};
ghost use Rattle.wt_std_io.specs.Streams.{WriterState};

use failure::{Failed, count_failure};
use std::io::{ErrorKind, Write};
use std::marker::Model;
use wt_io::Sink;

/// A writer as a sink: the standard output or error stream, or what stands for it.
///
/// A call is one call of the writer, made again where a signal interrupts it; it may take less
/// than the piece. A writer's failure, a closed pipe too, is counted, and answered `Failed`, as is
/// a write that took nothing of a piece that has a byte.
#[derive(Drop)]
pub struct StdSink<W: Write + Drop> {
    inner: W,
    faults: u64,
}

impl<W: Write + Drop> Model for StdSink<W> {
    ghost Value = { WriterState };

    ghost view = { λ s. record { contents = W.contents s.inner; failures = s.faults } };
}

impl<W: Write + Drop> StdSink<W> {
    /// A sink over this writer, which has not failed.
    pub fn new(inner: W) -> Self
        ensures { result ≡ record { contents = W.contents inner; failures = 0 } }
    {
        StdSink { inner, faults: 0 }
    }
}

// Writes once, and again where a signal interrupts it. None is a failure, and so is a write of no
// byte of a piece that has one.
fn write_some<W: Write>(inner: &mut W, piece: &[u8]) -> Option<usize>
    ensures some { IfSome result (λ n. 0 < length piece.now → 0 < n) }
    ensures bound { IfSome result (λ n. n ≤ length piece.now) }
    ensures bytes { IfSome result (λ n. Appends (W.contents inner.old) (W.contents inner.new) (take n piece.now)) }
    ensures failed { IfNone result (Keeps (W.contents inner.old) (W.contents inner.new)) }
{
    for _ in 0..u64::MAX {
        match inner.write(piece) {
            Ok(n) if n > 0 || piece.is_empty() => return Some(n),
            Err(e) if e.kind() == ErrorKind::Interrupted => {}
            _ => return None,
        }
    }
    None
}

impl<W: Write + Drop> Sink for StdSink<W> {
    // A sink that tells no bytes never begins to. Of a writer std says no such thing.
    ghost written = { λ s. None };

    ghost fault_count = { λ s. s.failures };

    fn faults(&self) -> u64 {
        self.faults
    }

    fn write(&mut self, piece: &[u8]) -> Result<usize, Failed>
        ensures some { IfOk result (λ n. 0 < length piece.now → 0 < n) }
        ensures bound { IfOk result (λ n. n ≤ length piece.now) }
        ensures bytes { IfOk result (λ n. Appends self.old.contents self.new.contents (take n piece.now)) }
        ensures err { OnErr result (Keeps self.old.contents self.new.contents) }
        ensures cause { HasCause self.old.failures self.new.failures result }
    {
        match write_some(&mut self.inner, piece) {
            Some(n) => Ok(n),
            None => Err(count_failure(&mut self.faults)),
        }
    }
}
