//! The stamp rules: which read, prepare, commit and durable stamps the oldest and the stable stamp
//! allow, and how these two are raised.
//!
//! Promises that the answer of each check is the first reason of the rules of `kv_model` that holds,
//! with the numbers that it compares, and else that the call is accepted. Leaves to the caller in
//! which phase a transaction is, and the durable stamps below the keys that it wrote.
#![tactic(auto)]

mod stamps;
#[cfg(test)]
mod tests;

pub use stamps::Stamps;
