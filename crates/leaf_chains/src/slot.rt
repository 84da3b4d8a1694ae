//! A key with its chain.

use item::Item;
use update_chain::Chain;

/// A key, and the updates of it.
#[derive(Drop)]
pub struct KeyChain {
    pub key: Item,
    pub chain: Chain,
}
