// A disk in memory that counts what is asked of it.
ghost use Rattle.std.specs.Prelude.{[], ◌^◌, false, None};
ghost use Rattle.std.proofs.lemmas.Bool.{false≢true};

use disk_model::{Disk, Failed};

/// A disk in memory with the counts of its calls. It is not `honest`: nothing is promised of it.
#[derive(Drop)]
pub struct Counted {
    pub bytes: Vec<u8>,
    pub reads: u64,
    pub writes: u64,
    pub syncs: u64,
}

impl Disk for Counted {
    ghost honest = { λ d. false };

    ghost seen = { λ d. [] };

    ghost may_leave = { λ d c. ⊥ };

    ghost moment = { λ d. 0 };

    ghost left_since = { λ d t c. ⊥ };

    ghost faults = { λ d. 0 };

    ghost capacity = { λ d. 2 ^ 62 };

    ghost home = { λ d. None };

    ghost reads_an_image = { λ d h. absurd (false≢true h) };

    ghost counts_now = { λ d t c le left. left };

    ghost only_now = { λ d c left. left };

    fn capacity(&self) -> u64 {
        1 << 62
    }

    fn faults(&self) -> u64 {
        0
    }

    fn len(&mut self) -> Result<u64, Failed> {
        Ok(self.bytes.len() as u64)
    }

    fn read(&mut self, at: u64, buffer: &mut [u8]) -> Result<(), Failed> {
        self.reads = self.reads.wrapping_add(1);
        let at = at as usize;
        let end = at.saturating_add(buffer.len());
        if at <= end && end <= self.bytes.len() {
            buffer.copy_from_slice(&self.bytes[at..end]);
        }
        Ok(())
    }

    fn write_at(&mut self, at: u64, bytes: &[u8]) -> Result<(), Failed> {
        self.writes = self.writes.wrapping_add(1);
        let at = at as usize;
        let end = at.saturating_add(bytes.len());
        if self.bytes.len() < end {
            let _ = self.bytes.resize(end, 0);
        }
        if at <= end && end <= self.bytes.len() {
            self.bytes[at..end].copy_from_slice(bytes);
        }
        Ok(())
    }

    fn sync(&mut self) -> Result<(), Failed> {
        self.syncs = self.syncs.wrapping_add(1);
        Ok(())
    }
}
