//! Going along the leaves of a table.

ghost use Rattle.std.specs.Prelude.{◌≡◌, ◌<◌, ◌∷◌, [], length, IfNone, IfSome};
ghost use Rattle.std.specs.List.{AllByRecursion};
ghost use Rattle.tree_dir.specs.Slots.{front_of, leaves_at};

use crate::leaf::Leaf;
use ordered_groups::Walk;
use std::marker::Model;

/// The leaves of a table that are left, in the order of their low keys.
#[derive(Drop)]
pub struct TableLeaves<'a> {
    slots: &'a [Leaf],
    // The slots from the next leaf on, those of later tables too.
    walk: Walk<'a, u32>,
    table: u32,
}

impl<'a> Model for TableLeaves<'a> {
    ghost use Rattle.std.specs.Prelude.{List};
    ghost use Rattle.tree_dir.specs.declared.leaf.Leaf.{Leaf as ALeaf};

    ghost Value = { List ALeaf };

    ghost use Rattle.std.specs.Prelude.{◌<◌, length};
    ghost use Rattle.std.specs.List.{AllByRecursion};
    ghost use Rattle.tree_dir.specs.Slots.{front_of, leaves_at};

    ghost view = { λ a. front_of a.table (leaves_at a.slots.now a.walk) };

    ghost invariant = { λ a. AllByRecursion (λ i. i < length a.slots.now) a.walk };
}

impl<'a> TableLeaves<'a> {
    pub(crate) fn over(slots: &'a [Leaf], walk: Walk<'a, u32>, table: u32) -> TableLeaves<'a>
        requires { AllByRecursion (λ i. i < length slots.now) walk }
        ensures { result ≡ front_of table (leaves_at slots.now walk.entry) }
    {
        TableLeaves { slots, walk, table }
    }

    /// The next leaf, if one is left. `O(1)`.
    pub fn next_leaf(&mut self) -> Option<&'a Leaf>
        ensures after { IfSome result (λ l. self.old ≡ l.now ∷ self.new) }
        ensures ends { IfNone result (self.old ≡ []) }
    {
        let slot = self.walk.next_entry()?;
        let leaf = self.slots.get(slot as usize)?;
        if leaf.table == self.table {
            Some(leaf)
        } else {
            None
        }
    }
}
