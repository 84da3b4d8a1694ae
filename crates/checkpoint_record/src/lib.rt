//! The record of a checkpoint, both ways: the numbers that it kept, its snapshot, and what leads to
//! the trees of its tables and of the history (`stored`, `specs/Records`).
//!
//! `encode` makes the image of a record, and `decode` finds the record in all bytes of its block.
//! They are exact: `decode` finds a record exactly where the block spells one that keeps each rule,
//! and what is encoded is found again as the same record (`one_record`). The tables of a record are
//! those that a catalog opens with (`records_are_recorded`). Where the block stands, its sum, the
//! slot that names it, and what stands in the trees are left to others.
#![tactic(auto)]

ghost use Rattle.std.specs.Prelude.{◌≡◌, ℕ, List, map};
ghost use Rattle.le_codec.specs.Images.{block_of};
ghost use Rattle.catalog.specs.Opens.{AreRecorded};
ghost use Rattle.stored.specs.Records.{Record as StoredRecord, TableRoot as StoredTable, IsRecord, record_image};

mod reading;
mod record;
mod rules;
mod writing;

pub use reading::decode;
pub use record::{LentRecord, LentRoot, Record, Root, Snapshot, TableRoot};
pub use writing::encode;

/// A block is that of one record at most.
pub fn one_record()
    ensures { (block : List ℕ) (r q : StoredRecord) → IsRecord r → IsRecord q → block ≡ block_of (record_image r) → block ≡ block_of (record_image q) → r ≡ q }
{}

/// The tables of a record are recorded tables, so that a catalog opens with them.
pub fn records_are_recorded()
    ensures { (r : StoredRecord) → IsRecord r → AreRecorded (map {A = StoredTable} (λ t. t.table) r.tables) r.next_table }
{}
