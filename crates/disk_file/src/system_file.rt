// An open file of the system, by the calls that a disk makes.
ghost use Rattle.std.specs.Prelude.{◌≡◌, ℕ, List, length, Option, None, IfOk, OnOk};
ghost use Rattle.disk_file.specs.Files.{HasLength, Filled, Wrote, Leaves, Stays};

use std::fs::{File, OpenFile};
use std::io::{self, ErrorKind};
use std::os::unix::fs::FileExt;

/// The last offset that a system call takes.
const MAX_OFFSET: u64 = (1 << 63) - 1; // bytes

/// An open file or folder, by the calls that a disk makes. Offsets and sizes are in bytes.
///
/// A call goes on where the system did a part, or a signal interrupted it. Of a file of the system
/// no bytes are told; a file that tells them, as one in memory, shows that each call is made.
pub trait SystemFile: OpenFile + Drop {
    /// The bytes that a read gives, where they are told.
    ghost content: { Self → Option (List ℕ) } = { λ _. None };

    /// The bytes that a crash leaves, where they are told.
    ghost synced: { Self → Option (List ℕ) } = { λ _. None };

    /// Takes the lock that holds until the file is closed. It is an error where another opening of
    /// the file has the lock.
    fn try_lock(&self) -> io::Result<()>;

    /// How many bytes the file has.
    fn size(&self) -> io::Result<u64>
        ensures { IfOk result (HasLength (content self.now)) };

    /// Fills the buffer with the bytes from an offset on.
    fn read_at(&self, at: u64, buffer: &mut [u8]) -> io::Result<()>
        ensures { OnOk result (Filled (content self.now) at (length buffer.old) buffer.new) };

    /// Writes all the bytes from an offset on.
    fn write_at(&mut self, at: u64, bytes: &[u8]) -> io::Result<()>
        ensures { OnOk result (Wrote (content self.old) (content self.new) at bytes.now) };

    /// Waits until the bytes and the length are where a crash leaves them.
    fn sync(&mut self) -> io::Result<()>
        ensures durable { OnOk result (Leaves (content self.old) (synced self.new)) }
        ensures content { OnOk result (Stays (content self.old) (content self.new)) };
}

fn checked_offset(at: u64) -> io::Result<u64>
    ensures { IfOk result (λ n. n ≡ at) }
{
    if at <= MAX_OFFSET {
        Ok(at)
    } else {
        Err(io::Error::from(ErrorKind::FileTooLarge))
    }
}

impl SystemFile for File {
    fn try_lock(&self) -> io::Result<()> {
        File::try_lock(self)?;
        Ok(())
    }

    fn size(&self) -> io::Result<u64> {
        Ok(File::metadata(self)?.len())
    }

    fn read_at(&self, at: u64, buffer: &mut [u8]) -> io::Result<()> {
        self.read_exact_at(buffer, checked_offset(at)?)
    }

    fn write_at(&mut self, at: u64, bytes: &[u8]) -> io::Result<()> {
        self.write_all_at(bytes, checked_offset(at)?)
    }

    /// `fdatasync`: it writes the bytes and what is needed to read them back, a new length too, and
    /// leaves out the times of the last change.
    fn sync(&mut self) -> io::Result<()> {
        self.sync_data()
    }
}
