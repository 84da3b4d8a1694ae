// A sink in memory.
ghost use Rattle.std.specs.Prelude.{◌≡◌, ◌<◌, ◌≤◌, ◌++◌, [], length, take, true, Some, IfOk, OnErr, is_err};
ghost use Rattle.failure.specs.Counts.{HasCause};
ghost use Rattle.wt_io.specs.Memory.{SinkState, is_among, number_after};

use crate::{Failed, NoMemory, Sink};
use failure::count_failure;
use std::alloc::Global;
use std::marker::Model;

/// A sink in memory, which keeps what it takes. Its writes are numbered from 0 on, and those that
/// it was told of fail, as does one that finds no memory for its bytes. A write that fails spends
/// its number.
#[derive(Drop)]
pub struct MemSink {
    bytes: Vec<u8>,
    next_call: u64,
    failing: Vec<u64>,
    faults: u64,
}

impl Model for MemSink {
    ghost Value = { SinkState };

    ghost view = { λ s. record {
      content = s.bytes.items;
      next_call = s.next_call;
      failing = s.failing.items;
      failures = s.faults;
    } };
}

impl MemSink {
    /// A sink that has taken nothing. `failing` has the numbers of the writes that fail, in any
    /// order.
    pub fn new(alloc: Global, failing: &[u64]) -> Result<Self, NoMemory>
        ensures { IfOk result (λ s. s ≡ record {
          content = [];
          next_call = 0;
          failing = failing.now;
          failures = 0;
        }) }
    {
        Ok(MemSink {
            bytes: Vec::new(alloc),
            next_call: 0,
            failing: Vec::from_slice(alloc, failing)?,
            faults: 0,
        })
    }

    /// The bytes that it has taken.
    pub fn bytes(&self) -> &[u8]
        ensures { result.now ≡ self.now.content }
    {
        &self.bytes
    }
}

impl Sink for MemSink {
    ghost written = { λ s. Some s.content };

    ghost fault_count = { λ s. s.failures };

    fn faults(&self) -> u64 {
        self.faults
    }

    fn write(&mut self, piece: &[u8]) -> Result<usize, Failed>
        ensures some { IfOk result (λ n. 0 < length piece.now → 0 < n) }
        ensures bound { IfOk result (λ n. n ≤ length piece.now) }
        ensures bytes { IfOk result (λ n. self.new.content ≡ self.old.content ++ take n piece.now) }
        ensures err { OnErr result (self.new.content ≡ self.old.content) }
        ensures cause { HasCause self.old.failures self.new.failures result }
        ensures fails { is_among self.old.next_call self.old.failing ≡ true → is_err result ≡ true }
        ensures number { self.new.next_call ≡ number_after self.old.next_call }
        ensures list { self.new.failing ≡ self.old.failing }
    {
        let fails = self.failing.contains(&self.next_call);
        self.next_call = self.next_call.saturating_add(1);
        if fails || self.bytes.extend_from_slice(piece).is_err() {
            return Err(count_failure(&mut self.faults));
        }
        Ok(piece.len())
    }
}
