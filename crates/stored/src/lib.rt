//! What the bytes of a whole device read as: the chosen slot, its record, and the trees of the
//! tables and of the history below it (`specs/Stored`, with the formats of each part beside it).
//! The content that is read, which knows no place, is `kv_model`'s; `specs/Opens` says as which
//! checkpoint it opens.
//!
//! It promises that a device reads as one content at most, that it still does while the bytes of
//! its slots and blocks stay, and that this content is regular (`kv_model`), so that an opening of
//! it makes a valid machine. Which slot is chosen is `turtle`'s to say. Code that reads or writes a
//! part of the device stands in the crates above, which prove it against these definitions.
#![tactic(auto)]

ghost use Rattle.std.specs.Prelude.{◌≡◌, ◌≤◌, ℕ, List, length};
ghost use Rattle.disk_model.specs.Disk.{Torn};
ghost use Rattle.le_codec.specs.Images.{padded};
ghost use Rattle.kv_model.specs.Content.{Content};
ghost use Rattle.kv_model.specs.Regular.{IsRegular};
ghost use Rattle.stored.specs.Records.{Record, IsRecord, record_image};
ghost use Rattle.stored.specs.Stored.{Stored, stored_blocks, SameSlots, Spares, WritesBeside, IsOn, IsBlank, Reads};

/// A device reads as one content, and has one record and one tree for each table and the history.
pub fn one_content()
    ensures content { (bytes : List ℕ) (c d : Content) → Reads bytes c → Reads bytes d → c ≡ d }
    ensures stored { (bytes : List ℕ) (s t : Stored) → IsOn bytes s → IsOn bytes t → s ≡ t }
{}

/// A record has one spelling: two records that fill up to the same bytes are the same.
pub fn one_record()
    ensures { (size other : ℕ) (r q : Record) → IsRecord r → IsRecord q → padded (record_image r) size ≡ padded (record_image q) other → r ≡ q }
{}

/// What a device has stays while the bytes of its slots and blocks do, and none is cut off.
pub fn has_still()
    ensures stored { (old new : List ℕ) (s : Stored) → Spares old new (stored_blocks s) → IsOn old s → IsOn new s }
    ensures blank { (old new : List ℕ) → length old ≤ length new → SameSlots old new → IsBlank old → IsBlank new }
{}

/// A write behind the slots and away from the blocks, cut short or not, leaves what a device has.
pub fn write_leaves()
    ensures stored { (at n : ℕ) (old new : List ℕ) (s : Stored) → WritesBeside at n (stored_blocks s) old new → IsOn old s → IsOn new s }
    ensures blank { (at n : ℕ) (old new : List ℕ) → 8192 ≤ at → Torn at n old new → IsBlank old → IsBlank new }
{}

/// What a device reads as is regular: a key of a table has one cell, a version one record, a table
/// its own name and number, and no version is durable before its commit.
pub fn what_is_read_is_regular()
    ensures { (bytes : List ℕ) (c : Content) → Reads bytes c → IsRegular c }
{}
