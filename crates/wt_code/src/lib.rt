//! Answers of calls: why a call is refused, with the number and the text of each refusal, what a
//! call of a cursor or a transaction gives where it is not refused, and why a block could not be
//! stored.
//!
//! Promises the exact number and the exact text of every refusal, and which refusal tells of each
//! error of storing. Leaves to each caller when a refusal comes, and what stays as it was after it.
#![tactic(auto)]

mod answers;
mod conversions;
mod refusals;
mod store_error;
mod text;
#[cfg(test)]
mod text_tests;

pub use answers::Answer;
pub use failure::{Fault, NoMemory};
pub use refusals::{Busy, Invalid, Limit, Refusal};
pub use store_error::StoreError;
pub use text::{number, text_of};
