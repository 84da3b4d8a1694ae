//! The leaf of a table on a device, and where the last completed checkpoint of a device stands.
//!
//! Promises that `load` gives exactly the rows of the leaf that a link leads to, and tells damage
//! only where there is no such leaf. A `Place` stands for a checkpoint that was found (`Serves`).
//! Whether a table may have a name, `is_table_name` says by the rule of `catalog`. Leaves to the
//! crates above how a device is opened and how its leaves are written, and what the rows mean.
#![tactic(auto)]

mod leaf;
mod place;
mod table_name;

pub use leaf::{is_nowhere, load};
pub use place::Place;
pub use table_name::is_table_name;
