// Versions of leaves that parted, each with the id of its leaf.
ghost use Rattle.std.specs.Prelude.{◌≡◌, ◌==◌, ◌++◌, ◌+◌, ◌≤◌, ◌<◌, ◌∷◌, ℕ, [], filter, length, not, vec_capacity, OnErr, OnOk};
ghost use Rattle.evict_step.specs.Kept.{fresh_of, lying_in};

use failure::NoMemory;
use reconcile::Moved;
use tree_dir::Dir;

/// A version of this leaf that has no place in a list of it yet.
#[derive(Drop)]
pub struct Fresh {
    pub leaf: u64,
    pub one: Moved,
}

// Those of a leaf go.
pub(crate) fn drop_of(fresh: &mut Vec<Fresh>, leaf: u64)
    ensures { fresh.new.items ≡ filter (λ f. not (f.leaf == leaf)) fresh.old.items }
{
    fresh.retain(|f| f.leaf != leaf);
}

// One more goes behind these. Without memory they are as they were.
pub(crate) fn put_behind(fresh: &mut Vec<Fresh>, leaf: u64, one: Moved) -> Result<(), NoMemory>
    ensures put { OnOk result (fresh.new.items ≡ fresh.old.items ++ record { leaf = leaf; one = one } ∷ []) }
    ensures same { OnErr result (fresh.new.items ≡ fresh.old.items) }
{
    match fresh.push(Fresh { leaf, one }) {
        Ok(()) => Ok(()),
        Err(_) => Err(NoMemory),
    }
}

// Others go behind these, for which there is room.
pub(crate) fn put_over(room: &mut Vec<Fresh>, others: Vec<Fresh>)
    requires { length room.old.items + length others.items ≤ vec_capacity room.old }
    ensures items { room.new.items ≡ room.old.items ++ others.items }
    ensures capacity { vec_capacity room.new ≡ vec_capacity room.old }
{
    for other in others {
        room.push_reserved(other);
    }
}

// Versions go behind these, for which there is room, each as one of the leaf of the table in which its
// key lies. `O(log n)` comparisons for each with n leaves.
pub(crate) fn put_moved(room: &mut Vec<Fresh>, moved: Vec<Moved>, leaves: &Dir, table: u32)
    requires { length room.old.items + length moved.items ≤ vec_capacity room.old }
    ensures { (id : ℕ) → fresh_of room.new.items id ≡ fresh_of room.old.items id ++ lying_in leaves.now.leaves table moved.items id }
{
    for one in moved {
        put_one(room, one, leaves, table);
    }
}

fn put_one(room: &mut Vec<Fresh>, one: Moved, leaves: &Dir, table: u32)
    requires { length room.old.items < vec_capacity room.old }
    ensures put { (id : ℕ) → fresh_of room.new.items id ≡ fresh_of room.old.items id ++ lying_in leaves.now.leaves table (one ∷ []) id }
    ensures few { length room.new.items ≤ length room.old.items + 1 }
    ensures capacity { vec_capacity room.new ≡ vec_capacity room.old }
{
    if let Some(leaf) = leaves.leaf_for(table, one.key.as_bytes()) {
        room.push_reserved(Fresh { leaf, one });
    }
}
