// A sink whose bytes are counted.
use crate::meter::Meter;
use std::io::Write;
use wt_io::{Failed, Sink};

/// A sink, and a meter of the bytes that it took.
#[derive(Drop)]
pub struct MeteredSink<K: Sink + Drop, W: Write + Drop> {
    /// The sink.
    pub inner: K,
    /// Its meter.
    pub meter: Meter<W>,
}

impl<K: Sink + Drop, W: Write + Drop> Sink for MeteredSink<K, W> {
    ghost written = { λ s. K.written s.inner };

    ghost fault_count = { λ s. K.fault_count s.inner };

    fn faults(&self) -> u64 {
        self.inner.faults()
    }

    fn write(&mut self, piece: &[u8]) -> Result<usize, Failed> {
        let count = self.inner.write(piece)?;
        self.meter.pass(count);
        Ok(count)
    }
}
