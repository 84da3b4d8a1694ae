// The file of a store as a disk.
ghost use Rattle.std.specs.Prelude.{◌≡◌, ◌+◌, [], ◌^◌, length, false, None, IsTrue, IfSome, IfOk, OnOk};
ghost use Rattle.std.specs.Option.{option_map};
ghost use Rattle.std.specs.String.{string_bytes};
ghost use Rattle.std.proofs.lemmas.Bool.{false≢true};
ghost use Rattle.failure.specs.Counts.{HasCause};
ghost use Rattle.disk_file.specs.Files.{FileState, told_by, IsLength, HasLength, SizeAfter, Filled, Wrote, Leaves, Stays};

use crate::SystemFile;
use crate::place::opened;
use disk_model::{Disk, Failed, Home, Unattached};
use failure::count_failure;
use std::alloc::Global;
use std::io::ErrorKind;
use std::marker::Model;
use std::rt::Files;

/// How many bytes the file may hold.
const CAPACITY: u64 = 1 << 62; // bytes

/// The file `rows.wtd` in the folder that `attach` names. Before that each call fails.
///
/// It is not `honest`: before `attach` nothing can be told of what the file holds. Each call that
/// fails is counted. A read and a write go on where the system did a part, or a signal interrupted
/// it.
///
/// A missing file is made as 8,192 zero bytes, synced, under the name `rows.wtd.N` (N the first
/// number from 0 on for which no file has the name), and then gets its own name by a hard link. A
/// program that is stopped in between leaves that name behind, and no other trace. The file is
/// locked until the disk is dropped: `attach` of a second program answers `Failed`. In a file system
/// that is read-only the file is opened for reading, and each write fails.
#[derive(Drop)]
pub struct FileDisk<R: Files + Drop>
where
    R::File: SystemFile,
{
    files: R,
    file: Option<R::File>,
    folder: Option<String>,
    // The length of the file in bytes, once it is known and until a write fails.
    size: Option<u64>,
    faults: u64,
}

impl<R: Files + Drop> Model for FileDisk<R>
where
    R::File: SystemFile,
{
    ghost Value = { FileState };

    ghost view = { λ d. record {
      content = told_by R.File.content d.file;
      synced = told_by R.File.synced d.file;
      home = option_map string_bytes d.folder;
      failures = d.faults;
    } };

    ghost invariant = { λ d. IsLength d.size (told_by R.File.content d.file) };
}

impl<R: Files + Drop> FileDisk<R>
where
    R::File: SystemFile,
{
    /// A disk with no place yet, which has not failed.
    pub fn new(files: R) -> Self
        ensures { result ≡ record { content = None; synced = None; home = None; failures = 0 } }
    {
        FileDisk {
            files,
            file: None,
            folder: None,
            size: None,
            faults: 0,
        }
    }
}

// The calls on the file that there may be. Without one each fails.

fn size_of<F: SystemFile>(file: &Option<F>) -> Option<u64>
    ensures { IfSome result (HasLength (told_by F.content file.now)) }
{
    match file {
        Some(file) => file.size().ok(),
        None => None,
    }
}

fn read_from<F: SystemFile>(file: &Option<F>, at: u64, buffer: &mut [u8]) -> bool
    ensures { IsTrue result → Filled (told_by F.content file.now) at (length buffer.old) buffer.new }
{
    match file {
        Some(file) => file.read_at(at, buffer).is_ok(),
        None => false,
    }
}

fn write_to<F: SystemFile>(file: &mut Option<F>, at: u64, bytes: &[u8]) -> bool
    ensures { IsTrue result → Wrote (told_by F.content file.old) (told_by F.content file.new) at bytes.now }
{
    match file {
        Some(file) => file.write_at(at, bytes).is_ok(),
        None => false,
    }
}

fn sync_of<F: SystemFile>(file: &mut Option<F>) -> bool
    ensures durable { IsTrue result → Leaves (told_by F.content file.old) (told_by F.synced file.new) }
    ensures content { IsTrue result → Stays (told_by F.content file.old) (told_by F.content file.new) }
{
    match file {
        Some(file) => file.sync().is_ok(),
        None => false,
    }
}

// The length after a write of so many bytes at an offset. None is not known, as that of a write
// which begins past the end.
fn size_after(size: Option<u64>, at: u64, len: usize) -> Option<u64>
    ensures { SizeAfter size at len result }
{
    match size {
        Some(size) if at <= size => Some(size.max(at.checked_add(len as u64)?)),
        _ => None,
    }
}

impl<R: Files + Drop> Disk for FileDisk<R>
where
    R::File: SystemFile,
{
    ghost honest = { λ d. false };

    ghost seen = { λ d. [] };

    ghost may_leave = { λ d c. ⊥ };

    ghost moment = { λ d. 0 };

    ghost left_since = { λ d t c. ⊥ };

    ghost faults = { λ d. d.failures };

    ghost capacity = { λ d. 2 ^ 62 };

    ghost home = { λ d. d.home };

    ghost reads_an_image = { λ d h. absurd (false≢true h) };

    ghost counts_now = { λ d t c le left. left };

    ghost only_now = { λ d c left. left };

    fn capacity(&self) -> u64 {
        CAPACITY
    }

    fn faults(&self) -> u64 {
        self.faults
    }

    /// The length is asked of the system once, and again after a write or a sync that failed.
    fn len(&mut self) -> Result<u64, Failed>
        ensures len { IfOk result (HasLength self.old.content) }
        ensures same { self.new ≡ record self.old { failures = self.new.failures } }
        ensures cause { HasCause self.old.failures self.new.failures result }
    {
        if self.size.is_none() {
            self.size = size_of(&self.file);
        }
        match self.size {
            Some(size) => Ok(size),
            None => Err(count_failure(&mut self.faults)),
        }
    }

    /// One call of the system, where that reads all of it at once.
    fn read(&mut self, at: u64, buffer: &mut [u8]) -> Result<(), Failed>
        ensures bytes { OnOk result (Filled self.old.content at (length buffer.old) buffer.new) }
        ensures same { self.new ≡ record self.old { failures = self.new.failures } }
        ensures cause { HasCause self.old.failures self.new.failures result }
    {
        if read_from(&self.file, at, buffer) {
            Ok(())
        } else {
            Err(count_failure(&mut self.faults))
        }
    }

    /// One call of the system, where that writes all of it at once.
    fn write_at(&mut self, at: u64, bytes: &[u8]) -> Result<(), Failed>
        ensures written { OnOk result (Wrote self.old.content self.new.content at bytes.now) }
        ensures home { self.new.home ≡ self.old.home }
        ensures cause { HasCause self.old.failures self.new.failures result }
    {
        let size = self.size;
        self.size = None;
        if !write_to(&mut self.file, at, bytes) {
            return Err(count_failure(&mut self.faults));
        }
        self.size = size_after(size, at, bytes.len());
        Ok(())
    }

    /// One call of the system. After one that failed the length is asked anew.
    fn sync(&mut self) -> Result<(), Failed>
        ensures durable { OnOk result (Leaves self.old.content self.new.synced) }
        ensures content { OnOk result (Stays self.old.content self.new.content) }
        ensures home { self.new.home ≡ self.old.home }
        ensures cause { HasCause self.old.failures self.new.failures result }
    {
        let size = self.size;
        self.size = None;
        if !sync_of(&mut self.file) {
            return Err(count_failure(&mut self.faults));
        }
        self.size = size;
        Ok(())
    }
}

impl<R: Files + Drop> Home for FileDisk<R>
where
    R::File: SystemFile,
{
    /// Opens `rows.wtd` in the folder, and makes it first where the folder has none. The folder has
    /// to be there, and is one that can be read.
    fn attach(&mut self, alloc: Global, home: &str) -> Result<(), Unattached> {
        let Ok(folder) = String::from_str(alloc, home) else {
            return Err(Unattached::NoMemory);
        };
        match opened(&self.files, alloc, home) {
            Ok(file) => {
                self.file = Some(file);
                self.folder = Some(folder);
                self.size = None;
                Ok(())
            }
            Err(e) if e.kind() == ErrorKind::OutOfMemory => Err(Unattached::NoMemory),
            Err(_) => {
                count_failure(&mut self.faults);
                Err(Unattached::Failed)
            }
        }
    }
}
