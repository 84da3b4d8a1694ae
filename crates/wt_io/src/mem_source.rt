// A source in memory.
ghost use Rattle.std.specs.Prelude.{◌≡◌, ◌≤◌, ◌<◌, ◌++◌, [], length, take, drop, Some, IfOk, OnErr, is_err};
ghost use Rattle.failure.specs.Counts.{HasCause};
ghost use Rattle.wt_io.specs.Memory.{SourceState, is_among, number_after};

use crate::{Failed, NoMemory, Source};
use failure::count_failure;
use std::alloc::Global;
use std::marker::Model;

/// A source in memory, which gives its bytes from the first to the last. Its reads are numbered
/// from 0 on, and those that it was told of fail, no others. A read that fails spends its number.
#[derive(Drop)]
pub struct MemSource {
    bytes: Vec<u8>,
    at: usize,
    next_call: u64,
    failing: Vec<u64>,
    faults: u64,
}

impl Model for MemSource {
    ghost Value = { SourceState };

    ghost view = { λ s. record {
      rest = drop s.at s.bytes.items;
      next_call = s.next_call;
      failing = s.failing.items;
      failures = s.faults;
    } };

    ghost invariant = { λ s. s.at ≤ length s.bytes.items };
}

impl MemSource {
    /// A source of a copy of these bytes. `failing` has the numbers of the reads that fail, in any
    /// order.
    pub fn new(alloc: Global, bytes: &[u8], failing: &[u64]) -> Result<Self, NoMemory>
        ensures { IfOk result (λ s. s ≡ record {
          rest = bytes.now;
          next_call = 0;
          failing = failing.now;
          failures = 0;
        }) }
    {
        Ok(MemSource {
            bytes: Vec::from_slice(alloc, bytes)?,
            at: 0,
            next_call: 0,
            failing: Vec::from_slice(alloc, failing)?,
            faults: 0,
        })
    }
}

impl Source for MemSource {
    ghost left = { λ s. Some s.rest };

    ghost fault_count = { λ s. s.failures };

    fn faults(&self) -> u64 {
        self.faults
    }

    fn read(&mut self, buffer: &mut [u8]) -> Result<usize, Failed>
        requires { 0 < length buffer.old }
        ensures bound { IfOk result (λ n. n ≤ length buffer.new) }
        ensures bytes { IfOk result (λ n. self.old.rest ≡ take n buffer.new ++ self.new.rest) }
        ensures end { IfOk result (λ n. n ≡ 0 → self.old.rest ≡ []) }
        ensures err { OnErr result (self.new.rest ≡ self.old.rest) }
        ensures cause { HasCause self.old.failures self.new.failures result }
        ensures fails { is_err result ≡ is_among self.old.next_call self.old.failing }
        ensures number { self.new.next_call ≡ number_after self.old.next_call }
        ensures list { self.new.failing ≡ self.old.failing }
    {
        let fails = self.failing.contains(&self.next_call);
        self.next_call = self.next_call.saturating_add(1);
        if fails {
            return Err(count_failure(&mut self.faults));
        }
        let count = buffer.len().min(self.bytes.len() - self.at);
        buffer[..count].copy_from_slice(&self.bytes[self.at..self.at + count]);
        self.at += count;
        Ok(count)
    }
}
