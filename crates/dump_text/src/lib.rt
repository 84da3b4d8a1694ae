//! The text of a table's dump, both ways.
//!
//! It promises what is written of a table and of each row, what a reader makes of each line that it
//! is given, and that it refuses a line, by its number, exactly where the grammar has no such line
//! there. Which rows a table has, and what is done with those that are read, is left to others.
#![tactic(auto)]

mod cut;
mod escape;
mod form;
mod items;
mod laws;
mod reader;
mod rows;
mod taken;
mod unescape;
mod whole;
mod write;

pub use form::Form;
pub use laws::{
    a_dump_is_read_whole, a_line_is_read_behind_others, a_line_that_is_refused_is_wrong,
    a_new_reader_has_read_nothing, a_text_has_one_list_of_lines, lines_are_of_one_dump,
    lines_that_are_read_go_on_to_be_a_dump, rows_are_written_one_behind_the_other,
    what_is_read_is_a_dump, what_is_written_has_its_lines, what_is_written_is_a_dump,
    what_is_written_is_read,
};
pub use reader::{DumpReader, Step, Table};
pub use rows::DumpRows;
pub use whole::{Dumped, read_dump};
pub use write::{dump_head, push_pair, push_row};
