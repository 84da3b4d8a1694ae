//! The grammar of a script: what each line asks for, and the line that tells an answer.
//!
//! It stands for `specs/Grammar`, which says for each request by which words it is spelled. It
//! promises that `parse_line` gives exactly the request that a line spells, and none exactly where
//! it spells none; and the exact line of each reply. What a request does, when it is refused, which
//! formats a table has and the number of a line are left to whoever runs the script.
//!
//! The items of a parsed call are as they are written: `as_stored` makes of them the items that a
//! table stores, by the formats of the table that `table_of_items` names.
#![tactic(auto)]

mod actors;
mod items;
mod laws;
mod line;
mod numbers;
mod parse;
mod replies;
mod session_calls;
mod stored;
mod system_calls;
mod words;

pub use laws::{a_line_asks_for_one_thing, words_stand_between_single_spaces};
pub use line::{Actor, Control, Line};
pub use parse::{LINE_MAX, parse_line};
pub use replies::{Reply, line_of_answer};
pub use stored::{as_stored, table_of_items};
