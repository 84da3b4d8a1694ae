//! The text of a configuration: its top items, and the formats that they name.
//!
//! It stands for `specs/Grammar`, which says how items are written: parted by commas, each a key, or
//! a key, `=` and a value that is bare, in double quotes, or in round or square brackets that nest.
//! It promises that `top_items` gives exactly the items that a text has, and none exactly where the
//! text is outside the grammar; that a text has one list of items at most; and which formats items
//! name. What other items mean is left to whoever reads them.
#![tactic(auto)]

mod brackets;
mod bytes;
mod config_item;
mod formats;
mod laws;
mod parse;

pub use config_item::{ConfigItem, get};
pub use formats::{formats_of, table_formats};
pub use laws::a_text_has_one_list_of_items;
pub use parse::top_items;
