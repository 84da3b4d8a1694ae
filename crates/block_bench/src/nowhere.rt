// A disk that keeps nothing, so that no more than the books is measured.
ghost use Rattle.std.specs.Prelude.{[], ◌^◌, false, None};
ghost use Rattle.std.proofs.lemmas.Bool.{false≢true};

use disk_model::{Disk, Failed};

/// A disk that takes each write and keeps none. It is not `honest`.
#[derive(Drop)]
pub struct Nowhere;

impl Disk for Nowhere {
    ghost honest = { λ d. false };

    ghost seen = { λ d. [] };

    ghost may_leave = { λ d c. ⊥ };

    ghost moment = { λ d. 0 };

    ghost left_since = { λ d t c. ⊥ };

    ghost faults = { λ d. 0 };

    ghost capacity = { λ d. 2 ^ 62 };

    ghost home = { λ d. None };

    ghost reads_an_image = { λ d h. absurd (false≢true h) };

    ghost counts_now = { λ d t c le left. left };

    ghost only_now = { λ d c left. left };

    fn capacity(&self) -> u64 {
        1 << 62
    }

    fn faults(&self) -> u64 {
        0
    }

    fn len(&mut self) -> Result<u64, Failed> {
        Ok(0)
    }

    fn read(&mut self, _at: u64, _buffer: &mut [u8]) -> Result<(), Failed> {
        Ok(())
    }

    fn write_at(&mut self, _at: u64, _bytes: &[u8]) -> Result<(), Failed> {
        Ok(())
    }

    fn sync(&mut self) -> Result<(), Failed> {
        Ok(())
    }
}
