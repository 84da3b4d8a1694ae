// A source whose bytes are counted.
use crate::meter::Meter;
use std::io::Write;
use wt_io::{Failed, Source};

/// A source, and a meter of the bytes that it gave.
#[derive(Drop)]
pub struct MeteredSource<S: Source + Drop, W: Write + Drop> {
    /// The source.
    pub inner: S,
    /// Its meter.
    pub meter: Meter<W>,
}

impl<S: Source + Drop, W: Write + Drop> Source for MeteredSource<S, W> {
    ghost left = { λ s. S.left s.inner };

    ghost fault_count = { λ s. S.fault_count s.inner };

    fn faults(&self) -> u64 {
        self.inner.faults()
    }

    fn read(&mut self, buffer: &mut [u8]) -> Result<usize, Failed> {
        let count = self.inner.read(buffer)?;
        self.meter.pass(count);
        Ok(count)
    }
}
