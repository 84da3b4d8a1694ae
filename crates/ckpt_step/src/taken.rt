// What a running checkpoint has.
ghost use Rattle.std.specs.Prelude.{◌≡◌, []};

use crate::lives::Lives;
use crate::parts::LeafPart;
use crate::roots::no_root;
use device_layout::Addr;
use hist_write::HistoryPlace;
use std::alloc::Global;
use tree_open::TreePlace;

// What a running checkpoint has.
#[derive(Drop)]
pub(crate) struct Taken {
    // By place of the engine's catalog: the trees of the first tables. None is one that stands where it
    // did at the checkpoint before.
    pub trees: Vec<Option<TreePlace>>,
    // The leaves that it wrote.
    pub parts: Vec<LeafPart>,
    // Where the history stands; nowhere, as long as it is not written.
    pub history: HistoryPlace,
    // The leaves of other tables that were written since the checkpoint before.
    pub others: Lives,
    // Where the blocks stand that are captured, in turn: also those of a tree that is not whole.
    pub captured: Vec<Addr>,
}

impl Taken {
    // Nothing. Takes no memory.
    pub(crate) fn new(alloc: Global) -> Taken
        ensures trees { result.trees.items ≡ [] }
        ensures parts { result.parts.items ≡ [] }
        ensures captured { result.captured.items ≡ [] }
    {
        Taken {
            trees: Vec::new(alloc),
            parts: Vec::new(alloc),
            history: HistoryPlace {
                root: no_root(),
                addrs: Vec::new(alloc),
            },
            others: Lives::new(alloc),
            captured: Vec::new(alloc),
        }
    }
}
