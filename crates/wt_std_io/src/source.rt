// A reader as a source. What it has left is told as far as std tells what the reader gives.
ghost use Rattle.std.specs.Prelude.{◌≡◌, ◌<◌, ◌≤◌, length, take, None, IfNone, IfSome, IfOk, OnErr};
ghost use Rattle.std.specs.Io.KnownBytes.{Consumes, IsAtEnd, Keeps};
ghost use Rattle.failure.specs.Counts.{HasCause};
ghost use Rattle.wt_std_io.specs.Streams.{ReaderState};

use failure::{Failed, count_failure};
use std::io::{ErrorKind, Read};
use std::marker::Model;
use wt_io::Source;

/// A reader as a source: the standard input, or what stands for it.
///
/// A call is one call of the reader, made again where a signal interrupts it. A reader's failure
/// is counted, and answered `Failed`.
#[derive(Drop)]
pub struct StdSource<R: Read + Drop> {
    inner: R,
    faults: u64,
}

impl<R: Read + Drop> Model for StdSource<R> {
    ghost Value = { ReaderState };

    ghost view = { λ s. record { remaining = R.remaining s.inner; failures = s.faults } };
}

impl<R: Read + Drop> StdSource<R> {
    /// A source over this reader, which has not failed.
    pub fn new(inner: R) -> Self
        ensures { result ≡ record { remaining = R.remaining inner; failures = 0 } }
    {
        StdSource { inner, faults: 0 }
    }
}

// Reads once, and again where a signal interrupts it. None is a failure.
fn read_some<R: Read>(inner: &mut R, buffer: &mut [u8]) -> Option<usize>
    ensures bound { IfSome result (λ n. n ≤ length buffer.new) }
    ensures bytes { IfSome result (λ n. Consumes (R.remaining inner.old) (R.remaining inner.new) (take n buffer.new)) }
    ensures end { IfSome result (λ n. n ≡ 0 → 0 < length buffer.new → IsAtEnd (R.remaining inner.new)) }
    ensures failed { IfNone result (Keeps (R.remaining inner.old) (R.remaining inner.new)) }
{
    for _ in 0..u64::MAX {
        match inner.read(buffer) {
            Ok(n) => return Some(n),
            Err(e) if e.kind() == ErrorKind::Interrupted => {}
            Err(_) => return None,
        }
    }
    None
}

impl<R: Read + Drop> Source for StdSource<R> {
    // A source that tells no bytes never begins to. Of a reader std says no such thing.
    ghost left = { λ s. None };

    ghost fault_count = { λ s. s.failures };

    fn faults(&self) -> u64 {
        self.faults
    }

    fn read(&mut self, buffer: &mut [u8]) -> Result<usize, Failed>
        requires { 0 < length buffer.old }
        ensures bound { IfOk result (λ n. n ≤ length buffer.new) }
        ensures bytes { IfOk result (λ n. Consumes self.old.remaining self.new.remaining (take n buffer.new)) }
        ensures end { IfOk result (λ n. n ≡ 0 → IsAtEnd self.new.remaining) }
        ensures err { OnErr result (Keeps self.old.remaining self.new.remaining) }
        ensures cause { HasCause self.old.failures self.new.failures result }
    {
        match read_some(&mut self.inner, buffer) {
            Some(n) => Ok(n),
            None => Err(count_failure(&mut self.faults)),
        }
    }
}
