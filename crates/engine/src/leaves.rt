// The first leaf of a table.

ghost use Rattle.std.specs.Prelude.{◌≡◌, ◌≢◌, ◌∷◌, [], IfOk, OnErr};
ghost use Rattle.std.specs.List.{All};
ghost use Rattle.engine_world.specs.Systems.{HasFirstLeaf, first_entry};

use device_layout::{Addr, Link};
use failure::NoMemory;
use inner_page::Entry;
use item::Item;
use stamp::Name;
use std::alloc::Global;
use tree_dir::{Dir, Framed};

// A table with one leaf that has all keys, in this frame, which had none before; gives the leaf's id.
// Where memory is short, nothing is changed.
pub(crate) fn add_leaf(
    alloc: Global,
    dir: &mut Dir,
    table: u32,
    frame: u32,
) -> Result<u64, NoMemory>
    requires { All (λ l. l.table ≢ table) dir.old.leaves }
    ensures first { IfOk result (λ id. HasFirstLeaf dir.old dir.new table id frame 0) }
    ensures kept { OnErr result (dir.new ≡ dir.old) }
{
    let entries = first_entries(alloc)?;
    dir.stands();
    dir.add_table(table, entries)?;
    match dir.leaf_for(table, b"") {
        // A table that is there has a leaf from the empty key on.
        None => Err(NoMemory),
        Some(id) => {
            dir.set_frame(
                id,
                Some(Framed {
                    frame,
                    generation: 0,
                }),
            );
            Ok(id)
        }
    }
}

// The entry of a leaf that has all keys, and no block.
fn first_entries(alloc: Global) -> Result<Vec<Entry>, NoMemory>
    ensures { IfOk result (λ v. v.items ≡ first_entry ∷ []) }
{
    let mut entries = Vec::with_capacity(alloc, 1)?;
    entries.push_reserved(Entry {
        key: Item::new(Vec::new(alloc)),
        link: NOWHERE,
    });
    Ok(entries)
}

// What leads to a leaf that has no block.
const NOWHERE: Link = Link {
    addr: Addr {
        offset: 0,
        size: 0,
        sum: 0,
    },
    greatest: Name { run: 0, id: 0 },
    durable: 0,
};
