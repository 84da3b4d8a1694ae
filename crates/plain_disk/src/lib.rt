//! A disk in memory of which nothing is promised, for tests of the crates above.
//!
//! Its calls are those of a `MemDisk`, and fail where that fails. It is not honest, so who calls with
//! it need not prove what stands there: a test says what it expects.
#![tactic(auto)]

ghost use Rattle.std.specs.Prelude.{[], false, None};
ghost use Rattle.std.proofs.lemmas.Bool.{false≢true};

use disk_model::{Disk, Failed, MemDisk};

/// A disk in memory that is not `honest`. A read that ends outside, or a write that begins there,
/// does nothing.
#[derive(Drop)]
pub struct PlainDisk {
    /// What stands on it, and which of its calls fail.
    pub medium: MemDisk,
}

impl Disk for PlainDisk {
    ghost honest = { λ d. false };

    ghost seen = { λ d. [] };

    ghost may_leave = { λ d c. ⊥ };

    ghost moment = { λ d. 0 };

    ghost left_since = { λ d t c. ⊥ };

    ghost faults = { λ d. d.medium.faults };

    ghost capacity = { λ d. d.medium.capacity };

    ghost home = { λ d. None };

    ghost reads_an_image = { λ d h. absurd (false≢true h) };

    ghost counts_now = { λ d t c le left. left };

    ghost only_now = { λ d c left. left };

    fn capacity(&self) -> u64 {
        self.medium.capacity()
    }

    fn faults(&self) -> u64 {
        self.medium.faults()
    }

    fn len(&mut self) -> Result<u64, Failed> {
        self.medium.len()
    }

    fn read(&mut self, at: u64, buffer: &mut [u8]) -> Result<(), Failed> {
        let end = at.saturating_add(buffer.len() as u64);
        if end <= self.medium.bytes().len() as u64 {
            self.medium.read(at, buffer)
        } else {
            Ok(())
        }
    }

    fn write_at(&mut self, at: u64, bytes: &[u8]) -> Result<(), Failed> {
        if at <= self.medium.bytes().len() as u64 {
            self.medium.write_at(at, bytes)
        } else {
            Ok(())
        }
    }

    fn sync(&mut self) -> Result<(), Failed> {
        self.medium.sync()
    }
}
