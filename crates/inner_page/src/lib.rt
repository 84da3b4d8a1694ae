//! The inner pages of trees, of tables and of the history, and the leaves of the history.
//!
//! An inner page stands for its level and the list of its entries, each with the least key or the
//! least record that may stand below, and with the link that leads there; a leaf of the history
//! stands for the list of its records (`stored`, `specs/TableTree` and `specs/HistoryTree`).
//! `encode`, `encode_history` and `encode_records` make the image, `decode`, `decode_history` and
//! `decode_records` find it in all bytes of its block. They are exact: a page is found exactly where
//! the block spells one that keeps each rule, and what is encoded is found again as the same page
//! (`one_page`, `one_history_page`, `one_history_leaf`, `kinds_differ`). `child_for` says below which
//! entry a key or a record stands. Leaves of rows are `row_page`'s. Where a block stands, its sum,
//! and what stands between a page and the entry that leads to it are left to others.
#![tactic(auto)]

ghost use Rattle.std.specs.Prelude.{◌≡◌, ℕ, List};
ghost use Rattle.stored.specs.TableTree.{Entry as StoredEntry};
ghost use Rattle.stored.specs.HistoryTree.{HistoryEntry as StoredHistoryEntry, HistoryRecord as StoredRecord};
ghost use Rattle.inner_page.specs.Pages.{IsTablePage, IsHistoryPage, IsHistoryLeaf};

mod history;
mod history_reading;
mod history_writing;
mod link;
mod mark;
mod names;
mod page;
mod record;
mod record_reading;
mod record_writing;
mod table;
mod table_reading;
mod table_writing;

pub use history::{HistoryEntry, HistoryInner};
pub use history_reading::decode_history;
pub use history_writing::encode_history;
pub use mark::{LentMark, RecordMark};
pub use names::names_differ;
pub use record::HistoryRecord;
pub use record_reading::decode_records;
pub use record_writing::encode_records;
pub use table::{Entry, Inner};
pub use table_reading::decode;
pub use table_writing::encode;

/// A block is that of one inner page of a table at most.
pub fn one_page()
    ensures { (block : List ℕ) (level other : ℕ) (p q : List StoredEntry) → IsTablePage block level p → IsTablePage block other q → (level ≡ other) × (p ≡ q) }
{}

/// A block is that of one inner page of the history at most.
pub fn one_history_page()
    ensures { (block : List ℕ) (level other : ℕ) (p q : List StoredHistoryEntry) → IsHistoryPage block level p → IsHistoryPage block other q → (level ≡ other) × (p ≡ q) }
{}

/// A block is that of one leaf of the history at most.
pub fn one_history_leaf()
    ensures { (block : List ℕ) (p q : List StoredRecord) → IsHistoryLeaf block p → IsHistoryLeaf block q → p ≡ q }
{}

/// No block is that of an inner page of a table and of one of the history, and none is that of an
/// inner page and of a leaf of the history.
pub fn kinds_differ()
    ensures inner { (block : List ℕ) (level other : ℕ) (p : List StoredEntry) (q : List StoredHistoryEntry) → IsTablePage block level p → IsHistoryPage block other q → ⊥ }
    ensures leaf { (block : List ℕ) (level : ℕ) (p : List StoredHistoryEntry) (records : List StoredRecord) → IsHistoryPage block level p → IsHistoryLeaf block records → ⊥ }
{}
