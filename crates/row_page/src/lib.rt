//! A leaf of a table: rows in ascending order of their keys, and the bytes that stand for them.
//!
//! A leaf stands for a list of rows, each a key and a version of it. `Leaf` owns the bytes of a block,
//! which are decoded once, and lends its rows; `LeafWriter` writes a block row by row. They are exact:
//! `Leaf::of_block` finds a leaf exactly where the block spells one, and what is written is read
//! back as the same rows. `cell_of` and `put_cell` read and write one cell, for pages of other kinds
//! that have cells. Which versions belong on a leaf, where its block stands and its sum are left to
//! others.
#![tactic(auto)]

ghost use Rattle.std.specs.Prelude.{◌≡◌, ℕ, List};
ghost use Rattle.row_page.specs.Rows.{Row, IsPage};

mod cell;
mod cell_writing;
mod change;
mod greatest;
mod head;
mod leaf;
mod leaf_writer;

pub use cell::{Cell, cell_of};
pub use cell_writing::put_cell;
pub use change::CellChange;
pub use leaf::Leaf;
pub use leaf_writer::LeafWriter;

/// The bytes of a block spell one list of rows at most.
pub fn one_spelling()
    ensures { (bytes : List ℕ) (rows others : List Row) → IsPage bytes rows → IsPage bytes others → rows ≡ others }
{}
