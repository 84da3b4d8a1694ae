// A disk: what a read gives, and what a crash may leave.
ghost use Rattle.std.specs.Prelude.{◌≡◌, ◌+◌, ◌≤◌, List, ℕ, Bool, Option, Some, IsTrue, length, take, drop, IfOk, IfErr, OnOk, OnErr};
ghost use Rattle.disk_model.specs.Disk.{put, Only, Follows, NoMore, Torn, Elapses};
ghost use Rattle.failure.specs.Counts.{Rose, HasCause, count_after};

use failure::Failed;
use std::alloc::Global;
use thiserror::Error;

/// Why a place is not attached.
#[derive(Clone, Copy, Debug, PartialEq, Eq, Error)]
pub enum Unattached {
    /// A call of the outside failed, and the disk has counted it.
    #[error("the place could not be attached")]
    Failed,
    /// There was not enough memory.
    #[error("no memory to attach the place")]
    NoMemory,
}

/// Bytes that stay, from offset 0 on. Offsets and sizes are in bytes.
///
/// Between two syncs a crash may leave any bytes in each range that was written and past the old
/// end, and as much of what was past it; other bytes stay. A failed write or sync may have done
/// any part of its work. Where the disk is not `honest` nothing is known of its content.
pub trait Disk {
    /// Whether what is said of the content is known.
    ghost honest: { Self → Bool };

    /// The bytes that a read gives.
    ghost seen: { Self → List ℕ };

    /// What a crash at this moment may leave.
    ghost may_leave: { Self → List ℕ → Type 0 };

    /// The moment, as a number that never falls.
    ghost moment: { Self → ℕ };

    /// What a crash at some moment from that one on might have left, inside a call or between two.
    ghost left_since: { Self → ℕ → List ℕ → Type 0 };

    /// How often the disk has failed.
    ghost faults: { Self → ℕ };

    /// How many bytes it may hold.
    ghost capacity: { Self → ℕ };

    /// The place that it was told, where it was told one.
    ghost home: { Self → Option (List ℕ) };

    /// How many bytes it may hold. It never changes.
    fn capacity(&self) -> u64
        ensures { result ≡ capacity self.now };

    /// How often the disk has failed. It never falls, and stands still at its type's end.
    fn faults(&self) -> u64
        ensures { result ≡ faults self.now };

    /// How many bytes it holds.
    fn len(&mut self) -> Result<u64, Failed>
        ensures len { IsTrue (honest self.old) → IfOk result (λ n. n ≡ length (seen self.old)) }
        ensures same { honest self.new ≡ honest self.old }
        ensures room { capacity self.new ≡ capacity self.old }
        ensures home { home self.new ≡ home self.old }
        ensures seen { seen self.new ≡ seen self.old }
        ensures crash { NoMore (may_leave self.old) (may_leave self.new) }
        ensures time { Elapses (moment self.old) (moment self.new) (left_since self.old) (left_since self.new) (may_leave self.new) }
        ensures cause { HasCause (faults self.old) (faults self.new) result };

    /// Fills the buffer from an offset on. All of it lies below the disk's length.
    fn read(&mut self, at: u64, buffer: &mut [u8]) -> Result<(), Failed>
        requires { IsTrue (honest self.old) → at + length buffer.old ≤ length (seen self.old) }
        ensures bytes { IsTrue (honest self.old) → OnOk result (buffer.new ≡ take (length buffer.old) (drop at (seen self.old))) }
        ensures same { honest self.new ≡ honest self.old }
        ensures room { capacity self.new ≡ capacity self.old }
        ensures home { home self.new ≡ home self.old }
        ensures seen { seen self.new ≡ seen self.old }
        ensures crash { NoMore (may_leave self.old) (may_leave self.new) }
        ensures time { Elapses (moment self.old) (moment self.new) (left_since self.old) (left_since self.new) (may_leave self.new) }
        ensures cause { HasCause (faults self.old) (faults self.new) result };

    /// Writes over what is there, and past the end. It begins at most at the end.
    fn write_at(&mut self, at: u64, bytes: &[u8]) -> Result<(), Failed>
        requires { IsTrue (honest self.old) → at ≤ length (seen self.old) }
        ensures written { IsTrue (honest self.old) → OnOk result (seen self.new ≡ put (seen self.old) at bytes.now) }
        ensures same { honest self.new ≡ honest self.old }
        ensures room { capacity self.new ≡ capacity self.old }
        ensures home { home self.new ≡ home self.old }
        ensures crash { Follows (Torn at (length bytes.now)) (may_leave self.old) (may_leave self.new) }
        ensures time { Elapses (moment self.old) (moment self.new) (left_since self.old) (left_since self.new) (may_leave self.new) }
        ensures cause { HasCause (faults self.old) (faults self.new) result };

    /// After it, a crash leaves what a read gives. Where it failed, what a read gives is not known
    /// any more, and a crash leaves no image that it could not leave before.
    fn sync(&mut self) -> Result<(), Failed>
        ensures durable { OnOk result (Only (seen self.old) (may_leave self.new)) }
        ensures same { honest self.new ≡ honest self.old }
        ensures room { capacity self.new ≡ capacity self.old }
        ensures home { home self.new ≡ home self.old }
        ensures seen { OnOk result (seen self.new ≡ seen self.old) }
        ensures crash { NoMore (may_leave self.old) (may_leave self.new) }
        ensures time { Elapses (moment self.old) (moment self.new) (left_since self.old) (left_since self.new) (may_leave self.new) }
        ensures cause { HasCause (faults self.old) (faults self.new) result };

    /// What is read is one of the images.
    ghost reads_an_image: { (disk : Self) → IsTrue (honest disk) → may_leave disk (seen disk) };

    /// This moment is one of those since an earlier one.
    ghost counts_now: { (disk : Self) (t : ℕ) (c : List ℕ) → t ≤ moment disk → may_leave disk c → left_since disk t c };

    /// Since this moment there is no other.
    ghost only_now: { (disk : Self) (c : List ℕ) → left_since disk (moment disk) c → may_leave disk c };
}

/// A disk that is told its place.
pub trait Home: Disk {
    /// Names the place, and leaves the content. It is called once, before any other call.
    fn attach(&mut self, alloc: Global, home: &str) -> Result<(), Unattached>
        ensures same { Self.honest self.new ≡ Self.honest self.old }
        ensures room { Self.capacity self.new ≡ Self.capacity self.old }
        ensures told { OnOk result (Self.home self.new ≡ Some home.now) }
        ensures untold { OnErr result (Self.home self.new ≡ Self.home self.old) }
        ensures seen { Self.seen self.new ≡ Self.seen self.old }
        ensures crash { NoMore (Self.may_leave self.old) (Self.may_leave self.new) }
        ensures time { Elapses (Self.moment self.old) (Self.moment self.new) (Self.left_since self.old) (Self.left_since self.new) (Self.may_leave self.new) }
        ensures later { Self.faults self.old ≤ Self.faults self.new }
        ensures failed { IfErr result (λ e. e ≡ Unattached.Failed → Rose (Self.faults self.old) (Self.faults self.new)) }
        ensures counted { IfErr result (λ e. e ≡ Unattached.Failed → Self.faults self.new ≡ count_after (Self.faults self.old)) }
        ensures no_memory { IfErr result (λ e. e ≡ Unattached.NoMemory → Self.faults self.new ≡ Self.faults self.old) }
        ensures stands { OnOk result (Self.faults self.new ≡ Self.faults self.old) };
}
