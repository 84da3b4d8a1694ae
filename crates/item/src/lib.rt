//! Keys and values: byte strings, and changes of a key. An item stands for the list of its bytes,
//! and promises their order as unsigned bytes, a proper prefix first. How long an item may be is
//! for its users to say.
#![tactic(auto)]

mod change;
mod escapes;
mod formats;
mod item;

pub use change::Change;
pub use escapes::{escape, escapes_read_back, unescape};
pub use formats::{Format, Formats};
pub use item::Item;
