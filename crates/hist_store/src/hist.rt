//! The history store.

ghost use Rattle.std.specs.Prelude.{◌≡◌, ◌↔◌, ℕ, List, ◌++◌, [], ◌∷◌, length, map, find, slice_get, option_copied, option_map, IsTrue, IfOk, IfSome, OnOk, OnErr, MatchOption};
ghost use Rattle.std.specs.List.{insert};
ghost use Rattle.kv_model.specs.Holds.{Descends, Picks};
ghost use Rattle.kv_model.specs.Ordered.{Older};
ghost use Rattle.kv_model.specs.StoreLaws.{Held};
ghost use Rattle.kv_model.specs.SweepLaws.{Swept};
ghost use Rattle.snapshot.specs.Sight.{IsSight, sight_of};
ghost use Rattle.ordered_groups.specs.Groups.{entries};
ghost use Rattle.ordered_groups.specs.Places.{IsGap, rank};
ghost use Rattle.hist_store.specs.Order.{IsWay};
ghost use Rattle.hist_store.specs.Slots.{slot_changed};
ghost use Rattle.hist_store.specs.Versions.{added, is_admitted, is_past, swept_slot, versions_of, with_version};

use crate::key_history::KeyHistory;
use crate::places::{place_of, slot_with, start_of};
use crate::versions::Versions;
use failure::NoMemory;
use item::{Change, Item};
use ordered_groups::{OrderedGroups, Place, Walk};
use stamp::{Name, Version, View};
use std::alloc::Global;
use std::marker::Model;

/// The older versions of keys, each key of a table once. A key keeps its slot. They are seen as
/// the list of the slots, in the order in which their keys came.
#[derive(Drop)]
pub struct Hist {
    slots: Vec<KeyHistory>,
    // The slots in the order of their tables and keys.
    order: OrderedGroups<u32>,
}

impl Model for Hist {
    ghost use Rattle.std.specs.Prelude.{List};
    ghost use Rattle.ordered_groups.specs.Groups.{entries};
    ghost use Rattle.hist_store.specs.declared.key_history.KeyHistory.{KeyHistory};
    ghost use Rattle.hist_store.specs.Order.{IsWay};
    ghost use Rattle.hist_store.specs.Slots.{AreDescending};

    ghost Value = { List KeyHistory };

    ghost view = { λ a. a.slots.items };

    ghost invariant = { λ a. IsWay a.slots.items (entries a.order) × AreDescending a.slots.items };
}

impl Hist {
    /// Without keys. Takes no memory.
    pub fn new(alloc: Global) -> Hist
        ensures { result ≡ [] }
    {
        Hist {
            slots: Vec::new(alloc),
            order: OrderedGroups::new(alloc),
        }
    }

    /// The number of its keys. `O(1)`.
    pub fn len(&self) -> usize
        ensures { result ≡ length self.now }
    {
        self.slots.len()
    }

    /// Whether it has no keys. `O(1)`.
    pub fn is_empty(&self) -> bool
        ensures { IsTrue result ↔ (length self.now ≡ 0) }
    {
        self.slots.is_empty()
    }

    /// The key and the versions in a slot, none where there is no such slot. `O(1)`.
    pub fn slot(&self, slot: u32) -> Option<&KeyHistory>
        ensures there { option_copied result ≡ slice_get self.now slot }
        ensures own { IfSome result (λ h. versions_of h.now.table h.now.key self.now ≡ h.now.versions) }
        ensures descends { IfSome result (λ h. Descends Older h.now.versions) }
    {
        slot_in(self.slots.as_slice(), slot)
    }

    /// All slots, in the order of their tables and keys. `O(1)`, and each step too.
    pub fn walk(&self) -> Walk<'_, u32>
        ensures { IsWay self.now result }
    {
        self.order.walk(start_of(&self.order))
    }

    /// Puts a version among those of its key, by its name; nothing where its name is there. A new
    /// key gets a slot behind all others, and its bytes are copied once. Where memory is short, or
    /// there are 2^32 slots, nothing is changed. `O(log n)` comparisons with n keys, and `O(k)` with
    /// k versions of the key that are newer; a new key moves at most 255 names of slots.
    pub fn add(
        &mut self,
        alloc: Global,
        table: u32,
        key: &[u8],
        version: Version<Change>,
    ) -> Result<(), NoMemory>
        ensures added { OnOk result (self.new ≡ added table key.now version self.old) }
        ensures kept { OnErr result (self.new ≡ self.old) }
    {
        match place_of(self.slots.as_slice(), &self.order, table, key) {
            Ok(place) => {
                let slot = self.order.get(place);
                add_in(&mut self.slots, slot, version)?;
                Ok(())
            }
            Err(gap) => {
                let first = first_of(alloc, table, key, version)?;
                add_slot(&mut self.slots, &mut self.order, gap, first)?;
                Ok(())
            }
        }
    }

    /// The newest version of a key that the snapshot sees and the read stamp admits. Takes no
    /// memory. `O(log n)` comparisons with n keys, and `O(k log r)`, with k versions of the key down
    /// to that one and r ids that the view lists.
    pub fn newest(&self, table: u32, key: &[u8], view: &View<'_>) -> Option<&Version<Change>>
        requires { IsSight (sight_of view.now) }
        ensures found { option_copied result ≡ find (is_admitted view.now) (versions_of table key.now self.now) }
        ensures picks { Picks Older (Held (versions_of table key.now self.now)) (is_admitted view.now) (option_copied result) }
    {
        match self.versions_of(table, key) {
            None => None,
            Some(versions) => versions.newest(view),
        }
    }

    /// Drops of each key what no look-up needs: all below the newest version that is durable at the
    /// pin and of a name below the floor, which stays. Takes no memory. `O(n)` in all versions.
    pub fn sweep(&mut self, pin: u64, floor: Name)
        ensures slots { self.new ≡ map (swept_slot pin floor) self.old }
        ensures swept { (table : ℕ) (key : List ℕ) → Swept (is_past pin floor) (versions_of table key self.old) (versions_of table key self.new) }
    {
        sweep_all(&mut self.slots, pin, floor);
    }

    // The versions of a key that has a slot.
    fn versions_of(&self, table: u32, key: &[u8]) -> Option<&Versions>
        ensures lent { let all = versions_of table key.now self.now in MatchOption result (all ≡ []) (λ v. v.now ≡ all) }
        ensures descends { Descends Older (versions_of table key.now self.now) }
    {
        let slot = slot_with(self.slots.as_slice(), &self.order, table, key)?;
        versions_in(self.slots.as_slice(), slot)
    }
}

fn slot_in(slots: &[KeyHistory], slot: u32) -> Option<&KeyHistory>
    ensures { option_copied result ≡ slice_get slots.now slot }
{
    slots.get(slot as usize)
}

fn versions_in(slots: &[KeyHistory], slot: u32) -> Option<&Versions>
    ensures { option_copied result ≡ option_map (λ h. h.versions) (slice_get slots.now slot) }
{
    match slots.get(slot as usize) {
        None => None,
        Some(there) => Some(&there.versions),
    }
}

// The slot of a new key.
fn first_of(
    alloc: Global,
    table: u32,
    key: &[u8],
    version: Version<Change>,
) -> Result<KeyHistory, NoMemory>
    ensures { IfOk result (λ h. h ≡ record { table = table; key = key.now; versions = version ∷ [] }) }
{
    let key = Item::new(Vec::from_slice(alloc, key)?);
    let versions = Versions::of(alloc, version)?;
    Ok(KeyHistory {
        table,
        key,
        versions,
    })
}

// Puts a slot behind all others, and names it in the gap.
fn add_slot(
    slots: &mut Vec<KeyHistory>,
    order: &mut OrderedGroups<u32>,
    gap: Place,
    first: KeyHistory,
) -> Result<(), NoMemory>
    requires { IsGap order.old gap }
    ensures slots { OnOk result (slots.new.items ≡ slots.old.items ++ first ∷ []) }
    ensures named { OnOk result (entries order.new ≡ insert (entries order.old) (rank order.old gap) (length slots.old.items)) }
    ensures kept { OnErr result ((slots.new.items ≡ slots.old.items) × (order.new ≡ order.old)) }
{
    let slot = match u32::try_from(slots.len()) {
        Ok(slot) => slot,
        Err(_) => return Err(NoMemory),
    };
    slots.reserve(1)?;
    order.insert(gap, slot)?;
    slots.push_reserved(first);
    Ok(())
}

fn add_in(slots: &mut Vec<KeyHistory>, slot: u32, version: Version<Change>) -> Result<(), NoMemory>
    ensures added { OnOk result (slots.new.items ≡ slot_changed slot (with_version version) slots.old.items) }
    ensures kept { OnErr result (slots.new.items ≡ slots.old.items) }
{
    let at = slot as usize;
    if at < slots.len() {
        slots[at].versions.add(version)?;
    }
    Ok(())
}

fn sweep_all(slots: &mut Vec<KeyHistory>, pin: u64, floor: Name)
    ensures { slots.new.items ≡ map (swept_slot pin floor) slots.old.items }
{
    for slot in slots.iter_mut() {
        sweep_one(slot, pin, floor);
    }
}

fn sweep_one(slot: &mut KeyHistory, pin: u64, floor: Name)
    ensures { slot.new ≡ swept_slot pin floor slot.old }
{
    slot.versions.sweep(pin, floor);
}
