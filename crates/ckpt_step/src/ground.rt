// On what the next checkpoint of an engine stands.
use crate::lives::Lives;
use crate::parts::Parts;
use device_layout::Addr;
use device_leaf::Place;
use evict_step::Kept;
use stamp::Name;
use tree_open::TreePlace;

/// Where the last completed checkpoint of an engine's device stands, its trees, and what was written
/// since.
#[derive(Drop)]
pub struct Ground {
    /// Its slot, and the blocks in use.
    pub place: Place,
    /// Its number, 0 where no checkpoint was completed.
    pub number: u64,
    /// By place of the engine's catalog: where the tree of the table stands. Tables that were made
    /// since have none.
    pub trees: Vec<TreePlace>,
    /// The entries that this checkpoint has of leaves, by their ids. Of a leaf without any here it has
    /// the one to which the leaf's entry in the directory leads, or nothing where that has no rows.
    pub parts: Parts,
    /// The leaves that were written since, each as one block.
    pub lives: Lives,
    /// Where the blocks of its history stand.
    pub history: Vec<Addr>,
    /// The older versions of leaves that were evicted, which are in no frame.
    pub kept: Kept,
    /// Each name before it had ended at the last checkpoint that this engine took. No name is before
    /// run 0 and id 0, with which an engine begins.
    pub floor: Name,
}
