// What a checkpoint stands on.
use crate::lives::Lives;
use crate::parts::Parts;
use evict_step::Kept;
use stamp::Name;
use tree_open::TreePlace;

// What the checkpoint before has of tables and leaves.
#[derive(Clone, Copy)]
pub(crate) struct Before<'a> {
    // By place of the engine's catalog: where the tree of the table stands.
    pub trees: &'a [TreePlace],
    // By id: the entries of the leaves that this engine wrote.
    pub parts: &'a Parts,
    // The leaves that were written since.
    pub lives: &'a Lives,
    // The older versions of leaves that were evicted.
    pub kept: &'a Kept,
    // Each name before it had ended.
    pub floor: Name,
}
