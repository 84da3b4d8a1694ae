// Slots by the ids of their leaves.

ghost use Rattle.std.specs.Prelude.{◌≡◌, ◌<◌, length, option_copied, IfSome};
ghost use Rattle.tree_dir.specs.Leaves.{in_frame, led_to};
ghost use Rattle.tree_dir.specs.Slots.{changed_by_id, leaf_by_id, slot_by_id};

use crate::leaf::{Framed, Leaf};
use device_layout::Link;

// An id is its leaf's slot, and so many times a number that is counted up.
pub(crate) const IDS_APART: u64 = 1 << 28;

pub(crate) fn leaf_by_id(slots: &[Leaf], id: u64) -> Option<&Leaf>
    ensures { option_copied result ≡ leaf_by_id id slots.now }
{
    let there = slots.get((id % IDS_APART) as usize)?;
    if there.id == id { Some(there) } else { None }
}

// The slot of the leaf of this id.
pub(crate) fn slot_of(slots: &[Leaf], id: u64) -> Option<usize>
    ensures found { result ≡ slot_by_id id slots.now }
    ensures within { IfSome result (λ i. i < length slots.now) }
{
    leaf_by_id(slots, id)?;
    Some((id % IDS_APART) as usize)
}

pub(crate) fn set_frame_in(slots: &mut Vec<Leaf>, id: u64, frame: Option<Framed>)
    ensures { slots.new.items ≡ changed_by_id id (in_frame frame) slots.old.items }
{
    if let Some(at) = slot_of(slots, id) {
        put_frame(&mut slots[at], frame);
    }
}

pub(crate) fn set_link_in(slots: &mut Vec<Leaf>, id: u64, link: Link)
    ensures { slots.new.items ≡ changed_by_id id (led_to link) slots.old.items }
{
    if let Some(at) = slot_of(slots, id) {
        put_link(&mut slots[at], link);
    }
}

fn put_frame(leaf: &mut Leaf, frame: Option<Framed>)
    ensures { leaf.new ≡ in_frame frame leaf.old }
{
    leaf.frame = frame;
}

fn put_link(leaf: &mut Leaf, link: Link)
    ensures { leaf.new ≡ led_to link leaf.old }
{
    leaf.entry.link = link;
}
