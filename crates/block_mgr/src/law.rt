// What stays in use over each call, and what goes.
ghost use Rattle.std.specs.Prelude.{◌≡◌, ◌<◌, ◌≤◌, List, ℕ, false, length};
ghost use Rattle.disk_model.specs.Disk.{Torn};
ghost use Rattle.disk_model.specs.Crash.{Keeps};
ghost use Rattle.extent_list.specs.Space.{Space, IsSpot};
ghost use Rattle.block_mgr.specs.Cells.{AreUnits, cell_at, nothing, IsLiveAlone, IsNamedAlone, captured, freed, done, dropped, named, unnamed};
ghost use Rattle.block_mgr.specs.Blocks.{Books, Has, HasLive, HasRunning, HasLast, HasName, unit_of};
ghost use Rattle.block_mgr.specs.Writes.{Added};

use crate::Addr;
use crate::cell::Cell;

/// A block of the last completed checkpoint is in use, and stays its block over each call until the
/// next checkpoint is complete.
pub fn a_block_of_the_last_checkpoint_stays()
    ensures in_use { (cells : List Cell) (at n : ℕ) → HasLast cells at n → Has cells at n }
    ensures over_write { (old new : Books) (addr : Addr) (at n : ℕ) → Added old new addr → HasLast old.cells at n → HasLast new.cells at n }
    ensures over_capture { (cells : List Cell) (u at n : ℕ) → HasLast cells at n → HasLast (captured cells u) at n }
    ensures over_free { (cells : List Cell) (u at n : ℕ) → HasLast cells at n → HasLast (freed cells u) at n }
    ensures over_drop { (cells : List Cell) (at n : ℕ) → HasLast cells at n → HasLast (dropped cells) at n }
    ensures over_name { (cells : List Cell) (u at n : ℕ) → HasLast cells at n → HasLast (named cells u) at n }
    ensures over_unname { (cells : List Cell) (u at n : ℕ) → HasLast cells at n → HasLast (unnamed cells u) at n }
{}

/// A block that the running checkpoint captured is in use, and stays its block over each call until
/// the checkpoint is complete or given up. Once it is complete, the block is the last one's, and
/// the last one has no other.
pub fn a_captured_block_stays()
    ensures in_use { (cells : List Cell) (at n : ℕ) → HasRunning cells at n → Has cells at n }
    ensures captured { (cells : List Cell) (at n : ℕ) → unit_of at < length cells → HasLive cells at n → HasRunning (captured cells (unit_of at)) at n }
    ensures over_write { (old new : Books) (addr : Addr) (at n : ℕ) → Added old new addr → HasRunning old.cells at n → HasRunning new.cells at n }
    ensures over_capture { (cells : List Cell) (u at n : ℕ) → HasRunning cells at n → HasRunning (captured cells u) at n }
    ensures over_free { (cells : List Cell) (u at n : ℕ) → HasRunning cells at n → HasRunning (freed cells u) at n }
    ensures over_name { (cells : List Cell) (u at n : ℕ) → HasRunning cells at n → HasRunning (named cells u) at n }
    ensures over_unname { (cells : List Cell) (u at n : ℕ) → HasRunning cells at n → HasRunning (unnamed cells u) at n }
    ensures becomes_last { (cells : List Cell) (at n : ℕ) → HasRunning cells at n → HasLast (done cells) at n }
    ensures no_other { (cells : List Cell) (at n : ℕ) → HasLast (done cells) at n → HasRunning cells at n }
{}

/// A block that was written is live, and stays so over each call but its own `free`: what `capture`
/// and `free` ask for follows from what the calls before them say.
pub fn a_block_stays_live()
    ensures in_use { (cells : List Cell) (at n : ℕ) → HasLive cells at n → Has cells at n }
    ensures written { (old new : Books) (addr : Addr) → Added old new addr → HasLive new.cells addr.offset addr.size }
    ensures over_write { (old new : Books) (addr : Addr) (at n : ℕ) → Added old new addr → HasLive old.cells at n → HasLive new.cells at n }
    ensures over_capture { (cells : List Cell) (u at n : ℕ) → HasLive cells at n → HasLive (captured cells u) at n }
    ensures over_free { (cells : List Cell) (u at n : ℕ) → (unit_of at ≡ u → ⊥) → HasLive cells at n → HasLive (freed cells u) at n }
    ensures over_done { (cells : List Cell) (at n : ℕ) → HasLive cells at n → HasLive (done cells) at n }
    ensures over_drop { (cells : List Cell) (at n : ℕ) → HasLive cells at n → HasLive (dropped cells) at n }
    ensures over_name { (cells : List Cell) (u at n : ℕ) → HasLive cells at n → HasLive (named cells u) at n }
    ensures over_unname { (cells : List Cell) (u at n : ℕ) → HasLive cells at n → HasLive (unnamed cells u) at n }
{}

/// A block that was freed is live no longer, so it is freed once. Where no checkpoint has it, it is
/// gone at once, also while one runs that did not capture it.
pub fn a_freed_block_is_gone()
    ensures not_live { (cells : List Cell) (at n : ℕ) → HasLive (freed cells (unit_of at)) at n → ⊥ }
    ensures gone { (cells : List Cell) (u : ℕ) → u < length cells → IsLiveAlone (cell_at cells u) → cell_at (freed cells u) u ≡ nothing }
{}

/// A block of a named checkpoint is in use, and stays its block over each call until it is unnamed,
/// as often as it was named. A block that nobody else has is gone then.
pub fn a_named_block_stays()
    ensures in_use { (cells : List Cell) (at n : ℕ) → HasName cells at n → Has cells at n }
    ensures named { (cells : List Cell) (at n : ℕ) → unit_of at < length cells → HasLast cells at n → HasName (named cells (unit_of at)) at n }
    ensures over_write { (old new : Books) (addr : Addr) (at n : ℕ) → Added old new addr → HasName old.cells at n → HasName new.cells at n }
    ensures over_capture { (cells : List Cell) (u at n : ℕ) → HasName cells at n → HasName (captured cells u) at n }
    ensures over_free { (cells : List Cell) (u at n : ℕ) → HasName cells at n → HasName (freed cells u) at n }
    ensures over_done { (cells : List Cell) (at n : ℕ) → HasName cells at n → HasName (done cells) at n }
    ensures over_drop { (cells : List Cell) (at n : ℕ) → HasName cells at n → HasName (dropped cells) at n }
    ensures over_name { (cells : List Cell) (u at n : ℕ) → HasName cells at n → HasName (named cells u) at n }
    ensures over_others { (cells : List Cell) (u at n : ℕ) → (unit_of at ≡ u → ⊥) → HasName cells at n → HasName (unnamed cells u) at n }
    ensures shared { (cells : List Cell) (u at n : ℕ) → 2 ≤ (cell_at cells u).names → HasName cells at n → HasName (unnamed cells u) at n }
    ensures gone { (cells : List Cell) (u : ℕ) → u < length cells → IsNamedAlone (cell_at cells u) → cell_at (unnamed cells u) u ≡ nothing }
{}

/// A write at the place that the books give keeps the slots and the blocks in use, also one that a
/// crash cut short.
pub fn a_write_keeps_the_blocks_in_use()
    ensures { (cells : List Cell) (space : Space) (n capacity at : ℕ) (old new : List ℕ) → AreUnits cells space
        → 1 ≤ n → IsSpot space n capacity at → Torn at n old new → Keeps (Has cells) old new }
{}
