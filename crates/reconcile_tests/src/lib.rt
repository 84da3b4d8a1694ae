//! What `reconcile` does, tested through what it offers. A crate with tests is proved once more with
//! them, so these stand in a crate of their own, which has nothing else.
#![tactic(auto)]

#[cfg(test)]
mod tests;
