// A disk of which the bytes that are read are counted.
use crate::meter::Meter;
use disk_model::{Disk, Failed, Home, Unattached};
use std::alloc::Global;
use std::io::Write;

/// A disk, and a meter of the bytes that were read of it.
#[derive(Drop)]
pub struct MeteredDisk<D: Disk + Drop, W: Write + Drop> {
    /// The disk.
    pub inner: D,
    /// Its meter.
    pub meter: Meter<W>,
}

impl<D: Disk + Drop, W: Write + Drop> Disk for MeteredDisk<D, W> {
    ghost honest = { λ d. D.honest d.inner };

    ghost seen = { λ d. D.seen d.inner };

    ghost may_leave = { λ d. D.may_leave d.inner };

    ghost moment = { λ d. D.moment d.inner };

    ghost left_since = { λ d. D.left_since d.inner };

    ghost faults = { λ d. D.faults d.inner };

    ghost capacity = { λ d. D.capacity d.inner };

    ghost home = { λ d. D.home d.inner };

    ghost reads_an_image = { λ d. D.reads_an_image d.inner };

    ghost counts_now = { λ d. D.counts_now d.inner };

    ghost only_now = { λ d. D.only_now d.inner };

    fn capacity(&self) -> u64 {
        self.inner.capacity()
    }

    fn faults(&self) -> u64 {
        self.inner.faults()
    }

    fn len(&mut self) -> Result<u64, Failed> {
        self.inner.len()
    }

    fn read(&mut self, at: u64, buffer: &mut [u8]) -> Result<(), Failed> {
        self.inner.read(at, buffer)?;
        self.meter.pass(buffer.len());
        Ok(())
    }

    fn write_at(&mut self, at: u64, bytes: &[u8]) -> Result<(), Failed> {
        self.inner.write_at(at, bytes)
    }

    fn sync(&mut self) -> Result<(), Failed> {
        self.inner.sync()
    }
}

impl<D: Home + Drop, W: Write + Drop> Home for MeteredDisk<D, W> {
    fn attach(&mut self, alloc: Global, home: &str) -> Result<(), Unattached> {
        self.inner.attach(alloc, home)
    }
}
