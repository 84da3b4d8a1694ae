//! The words of `wt`'s command line: the home that they name, and the command that they are.
//!
//! It stands for `specs/Line`: `command_of` is what `clap`'s definition of a simple command makes of
//! the words after a leading `-h home`, with the commands of `specs/App`. It promises that `parse`
//! gives exactly that command, and answers `Usage` only where there is none. What a command does,
//! and the texts of refusals, are left to `wt_tool`.
//!
//! One more command is one row more in each of four places: its subcommand in `specs/App` and
//! `app`, its variant and its reading in `specs/Line` and `command`.
#![tactic(auto)]

mod app;
mod command;
mod law;
mod line;

pub use command::Command;
pub use law::{plain_words_are_items, words_behind_two_hyphens_are_items};
pub use line::{LineFault, home_of, parse};
