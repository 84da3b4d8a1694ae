// New slots, whole or not at all.

ghost use Rattle.std.specs.Prelude.{◌≡◌, ◌-◌, ◌<◌, ◌≤◌, ◌^◌, ◌++◌, [], ◌∷◌, take, vec_len, OnOk, OnErr};
ghost use Rattle.std.specs.List.{insert};
ghost use Rattle.ordered_groups.specs.Groups.{entries};
ghost use Rattle.ordered_groups.specs.Places.{IsGap, rank};
ghost use Rattle.tree_dir.specs.Added.{IsAdded};
ghost use Rattle.tree_dir.specs.Order.{IsWay};

use crate::leaf::Leaf;
use crate::places::{place_in, place_of};
use crate::slots::IDS_APART;
use failure::NoMemory;
use inner_page::Entry;
use ordered_groups::{OrderedGroups, Place};

// So many leaves may there be.
const LEAVES_MAX: usize = 1 << 28;

// The leaves of a table with these entries, in slots behind all others, with ids of this serial
// number. Where memory is short, or there are too many, nothing is changed.
pub(crate) fn add_leaves(
    slots: &mut Vec<Leaf>,
    order: &mut OrderedGroups<u32>,
    table: u32,
    serial: u64,
    leaves: Vec<Entry>,
) -> Result<(), NoMemory>
    requires way { IsWay slots.old.items (entries order.old) }
    requires few { vec_len slots.old ≤ 2 ^ 28 }
    requires serial { serial < 2 ^ 36 }
    ensures added { OnOk result (IsAdded slots.old.items (entries order.old) table serial leaves.items slots.new.items (entries order.new)) }
    ensures kept { OnErr result ((slots.new.items ≡ slots.old.items) × (entries order.new ≡ entries order.old)) }
{
    let count = slots.len();
    match add_each(slots, order, table, serial, leaves) {
        Ok(()) => Ok(()),
        Err(error) => {
            take_back(slots, order, count);
            Err(error)
        }
    }
}

// As `add_leaves`, but leaves those that it came to, where memory is short.
fn add_each(
    slots: &mut Vec<Leaf>,
    order: &mut OrderedGroups<u32>,
    table: u32,
    serial: u64,
    leaves: Vec<Entry>,
) -> Result<(), NoMemory>
    requires way { IsWay slots.old.items (entries order.old) }
    requires few { vec_len slots.old ≤ 2 ^ 28 }
    requires serial { serial < 2 ^ 36 }
    ensures added { OnOk result (IsAdded slots.old.items (entries order.old) table serial leaves.items slots.new.items (entries order.new)) }
    ensures way { OnErr result (IsWay slots.new.items (entries order.new)) }
    ensures front { OnErr result (take (vec_len slots.old) slots.new.items ≡ slots.old.items) }
    ensures long { OnErr result (vec_len slots.old ≤ vec_len slots.new) }
{
    for entry in leaves {
        add_one(slots, order, table, serial, entry)?;
    }
    Ok(())
}

fn add_one(
    slots: &mut Vec<Leaf>,
    order: &mut OrderedGroups<u32>,
    table: u32,
    serial: u64,
    entry: Entry,
) -> Result<(), NoMemory>
    requires way { IsWay slots.old.items (entries order.old) }
    requires few { vec_len slots.old ≤ 2 ^ 28 }
    requires serial { serial < 2 ^ 36 }
    ensures added { OnOk result (IsAdded slots.old.items (entries order.old) table serial (entry ∷ []) slots.new.items (entries order.new)) }
    ensures kept { OnErr result ((slots.new.items ≡ slots.old.items) × (entries order.new ≡ entries order.old)) }
{
    let at = slots.len();
    if at >= LEAVES_MAX {
        return Err(NoMemory);
    }
    match place_of(slots, order, table, entry.key.as_bytes()) {
        // No leaf of the table has this low key.
        Ok(_) => Err(NoMemory),
        Err(gap) => {
            let id = serial * IDS_APART + at as u64;
            let leaf = Leaf {
                id,
                table,
                entry,
                frame: None,
            };
            add_slot(slots, order, gap, leaf)?;
            Ok(())
        }
    }
}

// Puts a slot behind all others, and names it in the gap.
fn add_slot(
    slots: &mut Vec<Leaf>,
    order: &mut OrderedGroups<u32>,
    gap: Place,
    leaf: Leaf,
) -> Result<(), NoMemory>
    requires gap { IsGap order.old gap }
    requires few { vec_len slots.old < 2 ^ 28 }
    ensures slots { OnOk result (slots.new.items ≡ slots.old.items ++ leaf ∷ []) }
    ensures named { OnOk result (entries order.new ≡ insert (entries order.old) (rank order.old gap) (vec_len slots.old)) }
    ensures kept { OnErr result ((slots.new.items ≡ slots.old.items) × (order.new ≡ order.old)) }
{
    let slot = slots.len() as u32;
    slots.reserve(1)?;
    order.insert(gap, slot)?;
    slots.push_reserved(leaf);
    Ok(())
}

// Takes the slots behind the first `count` out again.
fn take_back(slots: &mut Vec<Leaf>, order: &mut OrderedGroups<u32>, count: usize)
    requires way { IsWay slots.old.items (entries order.old) }
    requires count { count ≤ vec_len slots.old }
    ensures way { IsWay slots.new.items (entries order.new) }
    ensures slots { slots.new.items ≡ take count slots.old.items }
{
    while slots.len() > count {
        take_last(slots, order);
    }
}

fn take_last(slots: &mut Vec<Leaf>, order: &mut OrderedGroups<u32>)
    requires way { IsWay slots.old.items (entries order.old) }
    requires some { 0 < vec_len slots.old }
    ensures way { IsWay slots.new.items (entries order.new) }
    ensures slots { slots.new.items ≡ take (vec_len slots.old - 1) slots.old.items }
{
    let last = slots.len() - 1;
    match place_in(slots, order, last) {
        None => {}
        Some(place) => {
            order.remove(place);
        }
    }
    slots.truncate(last);
}
