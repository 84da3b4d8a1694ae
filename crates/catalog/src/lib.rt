//! The tables of an engine by name, in memory.
//!
//! A catalog stands for the list of its tables in the order in which they were made, and for the
//! number of the next one; a table keeps its place. It promises that no two tables have one name or
//! one number, that a look-up by name halves, that a create answers what the machine decides, with
//! refusals in its order, and that an opened catalog has its tables as the machine that an opening
//! makes. Only want of memory, or of numbers below 2^32 - 1, may come in the place of a new table,
//! and the table that was made last can be taken back. The laws say what a catalog whose tables are
//! a machine's tells of it. Leaves to the caller when a create may come, and what stands in a table.
#![tactic(auto)]

mod catalog;
mod created;
mod laws;
mod names;
mod opening;
mod places;
mod table;

pub use crate::catalog::Catalog;
pub use created::Created;
pub use laws::{
    creates_are_judged, creates_suit, names_turn, orders_are_by_name, places_are_named,
};
pub use names::is_name;
pub use table::Table;
