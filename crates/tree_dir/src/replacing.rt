// Leaves that take the place of one.

ghost use Rattle.std.specs.Prelude.{◌≡◌, ◌+◌, ◌*◌, ◌<◌, ◌≤◌, ◌^◌, vec_len, OnOk, OnErr};
ghost use Rattle.ordered_groups.specs.Groups.{entries};
ghost use Rattle.tree_dir.specs.Added.{IsReplaced};
ghost use Rattle.tree_dir.specs.Order.{IsWay};
ghost use Rattle.tree_dir.specs.Slots.{new_leaf, slot_changed};

use crate::adding::add_leaves;
use crate::leaf::Leaf;
use crate::places::table_in;
use crate::slots::IDS_APART;
use failure::NoMemory;
use inner_page::Entry;
use ordered_groups::OrderedGroups;

// The first leaf takes the slot, and the others get slots behind all. Where memory is short, or
// there are too many, nothing is changed.
pub(crate) fn replace_in(
    slots: &mut Vec<Leaf>,
    order: &mut OrderedGroups<u32>,
    slot: usize,
    serial: u64,
    mut leaves: Vec<Entry>,
) -> Result<(), NoMemory>
    requires way { IsWay slots.old.items (entries order.old) }
    requires few { vec_len slots.old ≤ 2 ^ 28 }
    requires serial { serial < 2 ^ 36 }
    requires slot { slot < vec_len slots.old }
    requires some { 0 < vec_len leaves }
    ensures replaced { OnOk result (IsReplaced slots.old.items (entries order.old) slot serial leaves.items slots.new.items (entries order.new)) }
    ensures kept { OnErr result ((slots.new.items ≡ slots.old.items) × (entries order.new ≡ entries order.old)) }
{
    let table = table_in(slots, slot);
    let first = leaves.remove(0);
    add_leaves(slots, order, table, serial, leaves)?;
    put_in(slots, slot, serial, table, first);
    Ok(())
}

// Another leaf in a slot.
fn put_in(slots: &mut Vec<Leaf>, slot: usize, serial: u64, table: u32, entry: Entry)
    requires slot { slot < vec_len slots.old }
    requires few { vec_len slots.old ≤ 2 ^ 28 }
    requires serial { serial < 2 ^ 36 }
    ensures { slots.new.items ≡ slot_changed slot (λ _. new_leaf table (serial * 2 ^ 28 + slot) entry) slots.old.items }
{
    slots[slot] = Leaf {
        id: serial * IDS_APART + slot as u64,
        table,
        entry,
        frame: None,
    };
}
