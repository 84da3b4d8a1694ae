// A source, a sink, and a write of many bytes.
ghost use Rattle.std.specs.Prelude.{
  ◌≡◌,
  ◌+◌,
  ◌≤◌,
  ◌<◌,
  [],
  List,
  ℕ,
  length,
  take,
  Option,
  IfOk,
  OnOk,
  OnErr,
};
ghost use Rattle.failure.specs.Counts.{HasCause};
ghost use Rattle.wt_io.specs.Streams.{Gave, AtEnd, Took, TookPart};

use crate::Failed;

/// Where bytes are read from.
pub trait Source {
    /// The bytes that are left, where it tells them.
    ghost left: { Self → Option (List ℕ) };

    /// How often it has failed.
    ghost fault_count: { Self → ℕ };

    /// How often a call has failed. The count stands still at the greatest `u64`.
    fn faults(&self) -> u64
        ensures { result ≡ fault_count self.now };

    /// Reads into a front of the buffer, and gives how many bytes it filled. The buffer is not
    /// empty; 0 is the end of the input. A call that fails has read nothing.
    fn read(&mut self, buffer: &mut [u8]) -> Result<usize, Failed>
        requires { 0 < length buffer.old }
        ensures bound { IfOk result (λ n. n ≤ length buffer.new) }
        ensures bytes { IfOk result (λ n. Gave (left self.old) (left self.new) (take n buffer.new)) }
        ensures end { IfOk result (λ n. n ≡ 0 → AtEnd (left self.old)) }
        ensures err { OnErr result (left self.new ≡ left self.old) }
        ensures cause { HasCause (fault_count self.old) (fault_count self.new) result };
}

/// Where bytes are written to.
pub trait Sink {
    /// The bytes that it has taken, where it tells them.
    ghost written: { Self → Option (List ℕ) };

    /// How often it has failed.
    ghost fault_count: { Self → ℕ };

    /// How often a call has failed. The count stands still at the greatest `u64`.
    fn faults(&self) -> u64
        ensures { result ≡ fault_count self.now };

    /// Takes a front of the piece, and gives how many bytes that is: at least one where the piece
    /// has one, so that a sink which can take none fails. A call that fails has taken nothing.
    fn write(&mut self, piece: &[u8]) -> Result<usize, Failed>
        ensures some { IfOk result (λ n. 0 < length piece.now → 0 < n) }
        ensures bound { IfOk result (λ n. n ≤ length piece.now) }
        ensures bytes { IfOk result (λ n. Took (written self.old) (written self.new) (take n piece.now)) }
        ensures err { OnErr result (Took (written self.old) (written self.new) []) }
        ensures cause { HasCause (fault_count self.old) (fault_count self.new) result };
}

/// Writes all the bytes. Where the sink fails, a front of them is written, and not all.
pub fn write_all<K: Sink>(sink: &mut K, bytes: &[u8]) -> Result<(), Failed>
    ensures ok { OnOk result (Took (K.written sink.old) (K.written sink.new) bytes.now) }
    ensures err { OnErr result (TookPart (K.written sink.old) (K.written sink.new) bytes.now) }
    ensures cause { HasCause (K.fault_count sink.old) (K.fault_count sink.new) result }
{
    let mut done = 0;
    while done < bytes.len() {
        done += sink.write(&bytes[done..])?;
    }
    Ok(())
}
