// What leads to a tree.
use crate::Addr;
use stamp::Name;

/// What leads to the top page of a tree, or from an inner page to one below it: where its block
/// stands, and the greatest of what stands below it.
#[derive(Clone, Copy, Debug, PartialEq, Eq)]
pub struct Link {
    /// Where the page's block stands; all zeros where the tree has no rows and is not stored.
    pub addr: Addr,
    /// The greatest name of a version there; run 0 and id 0 where there is none.
    pub greatest: Name,
    /// The greatest durable stamp of a version there; 0 where none has one.
    pub durable: u64,
}
