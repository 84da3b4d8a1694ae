//! The chains of a leaf.

ghost use Rattle.std.specs.Prelude.{◌≡◌, ◌↔◌, ◌+◌, ◌++◌, [], ◌∷◌, length, slice_get, option_copied, option_map, IsTrue, IfOk, IfSome, OnOk, OnErr, Some, MatchOption};
ghost use Rattle.std.specs.List.{insert};
ghost use Rattle.kv_model.specs.Rows.{Up, Down};
ghost use Rattle.snapshot.specs.Sight.{IsSight, sight_of};
ghost use Rattle.update_chain.specs.Looks.{reply_in};
ghost use Rattle.update_chain.specs.Updates.{front_changed, installed, marked, read_of, rolled_back, stamped, trimmed, undone};
ghost use Rattle.update_chain.specs.Writing.{judgement_of};
ghost use Rattle.ordered_groups.specs.Groups.{entries};
ghost use Rattle.ordered_groups.specs.Places.{IsGap, rank};
ghost use Rattle.leaf_chains.specs.Adds.{IsAdded};
ghost use Rattle.leaf_chains.specs.Names.{NoneAbove};
ghost use Rattle.leaf_chains.specs.Nearest.{IsWayUp, NextAbove, NextBelow, NonePast};
ghost use Rattle.leaf_chains.specs.Slots.{chain_at, slot_changed, slot_of, with_update};

use crate::added::Added;
use crate::heads::Heads;
use crate::places::{place_from_last, slot_above, slot_below, slot_with, walk_above};
use crate::slot::KeyChain;
use failure::NoMemory;
use item::Item;
use ordered_groups::{OrderedGroups, Place, Walk};
use stamp::{Name, View};
use std::alloc::Global;
use std::marker::Model;
use update_chain::{Chain, Judgement, Read, Update};

/// The update chains of a leaf, each key once. A key keeps its slot. They are seen as the list of
/// the slots, in the order in which their keys came.
#[derive(Drop)]
pub struct LeafChains {
    slots: Vec<KeyChain>,
    // The slots in the order of their keys.
    order: OrderedGroups<u32>,
    heads: Heads,
    // No update is of a later name.
    greatest: Name,
}

impl Model for LeafChains {
    ghost use Rattle.std.specs.Prelude.{List};
    ghost use Rattle.leaf_chains.specs.declared.slot.KeyChain.{KeyChain};
    ghost use Rattle.ordered_groups.specs.Groups.{entries};
    ghost use Rattle.leaf_chains.specs.Heads.{AreHeads};
    ghost use Rattle.leaf_chains.specs.Names.{NoneAbove};
    ghost use Rattle.leaf_chains.specs.Order.{IsIndex};

    ghost Value = { List KeyChain };

    ghost view = { λ a. a.slots.items };

    ghost invariant = { λ a. IsIndex a.slots.items (entries a.order) × AreHeads a.heads.front.items a.heads.words.items a.slots.items × NoneAbove a.greatest a.slots.items };
}

impl LeafChains {
    /// Without keys. Takes no memory.
    pub fn new(alloc: Global) -> LeafChains
        ensures { result ≡ [] }
    {
        LeafChains {
            slots: Vec::new(alloc),
            order: OrderedGroups::new(alloc),
            heads: Heads::new(alloc),
            greatest: Name { run: 0, id: 0 },
        }
    }

    /// The number of its keys. `O(1)`.
    pub fn len(&self) -> usize
        ensures { result ≡ length self.now }
    {
        self.slots.len()
    }

    /// Whether it has no keys. `O(1)`.
    pub fn is_empty(&self) -> bool
        ensures { IsTrue result ↔ (length self.now ≡ 0) }
    {
        self.slots.is_empty()
    }

    /// A name that none of its updates is above: the greatest of those that were ever installed.
    /// `O(1)`.
    pub fn greatest(&self) -> Name
        ensures { NoneAbove result self.now }
    {
        self.greatest
    }

    /// The slot of a key, none where it has none. `O(log n)` comparisons with n keys, most of them
    /// of one number.
    pub fn find(&self, key: &[u8]) -> Option<u32>
        ensures { result ≡ slot_of key.now self.now }
    {
        slot_with(self.slots.as_slice(), &self.order, &self.heads, key)
    }

    /// The key and the chain in a slot, none where there is no such slot. `O(1)`.
    #[inline(always)]
    pub fn slot(&self, slot: u32) -> Option<&KeyChain>
        ensures there { option_copied result ≡ slice_get self.now slot }
        ensures own { IfSome result (λ s. slot_of s.now.key self.now ≡ Some slot) }
    {
        slot_in(self.slots.as_slice(), slot)
    }

    /// The key in a slot, none where there is no such slot. `O(1)`.
    pub fn key(&self, slot: u32) -> Option<&Item>
        ensures { option_copied result ≡ option_map (λ s. s.key) (slice_get self.now slot) }
    {
        match self.slot(slot) {
            None => None,
            Some(there) => Some(&there.key),
        }
    }

    /// The chain in a slot, none where there is no such slot. `O(1)`.
    pub fn chain(&self, slot: u32) -> Option<&Chain>
        ensures { option_copied result ≡ option_map (λ s. s.chain) (slice_get self.now slot) }
    {
        match self.slot(slot) {
            None => None,
            Some(there) => Some(&there.chain),
        }
    }

    /// What a read of a key answers by its chain, as `Chain::read`; a key without a slot has an
    /// empty chain. Takes no memory. `O(log n)` comparisons, and the read of the chain.
    #[inline(always)]
    pub fn read(&self, key: &[u8], view: &View<'_>) -> Read<'_>
        requires { IsSight (sight_of view.now) }
        ensures { reply_in result ≡ read_of view.now (chain_at key.now self.now) }
    {
        match self.chain_of(key) {
            None => Read::Older,
            Some(chain) => chain.read(view),
        }
    }

    /// Whether a write of a key is allowed by its chain, as `Chain::judge`; a key without a slot
    /// has an empty chain. Takes no memory. `O(log n)` comparisons, and the look at the newest update.
    pub fn judge(&self, key: &[u8], view: &View<'_>) -> Judgement
        requires { IsSight (sight_of view.now) }
        ensures { result ≡ judgement_of view.now (chain_at key.now self.now) }
    {
        match self.chain_of(key) {
            None => Judgement::Allowed,
            Some(chain) => chain.judge(view),
        }
    }

    /// Puts an update on top of the chain of a key, as `Chain::install`, and gives the slot. A new
    /// key gets a slot behind all others, and its bytes are copied once. Where memory is short, or
    /// there are 2^32 slots, nothing is changed. One comparison where the key is above all others,
    /// `O(log n)` elsewhere; a new key moves at most 255 names of slots. Where a key has no head,
    /// those of all keys are taken anew once their number has doubled: `O(n)` then.
    pub fn install(&mut self, alloc: Global, key: &[u8], update: Update) -> Result<u32, NoMemory>
        ensures installed { OnOk result (self.new ≡ with_update key.now update self.old) }
        ensures slot { IfOk result (λ i. slot_of key.now self.new ≡ Some i) }
        ensures kept { OnErr result (self.new ≡ self.old) }
    {
        match self.add(alloc, key, update)? {
            Added::New(slot) => Ok(slot),
            Added::There(slot, update) => {
                self.install_at(slot, update)?;
                Ok(slot)
            }
        }
    }

    /// Puts the first update of a key that has no slot into one behind all others; its bytes are
    /// copied once. Where the key has a slot, or memory is short, or there are 2^32 slots, nothing is
    /// changed; the slot that it has comes back, with the update. One search, as for `install`.
    pub fn add(&mut self, alloc: Global, key: &[u8], update: Update) -> Result<Added, NoMemory>
        ensures added { IfOk result (IsAdded key.now update self.old self.new) }
        ensures kept { OnErr result (self.new ≡ self.old) }
    {
        let head = self.heads.of(key);
        match place_from_last(self.slots.as_slice(), &self.order, &self.heads, key, head) {
            Ok(place) => {
                let slot = self.order.get(place);
                Ok(Added::There(slot, update))
            }
            Err(gap) => {
                let name = update.version.window.name;
                let added = first_of(alloc, key, update)?;
                let slot = add(&mut self.slots, &mut self.order, gap, added)?;
                self.greatest = self.greatest.later(name);
                self.heads.keep(self.slots.as_slice(), &self.order, head);
                Ok(Added::New(slot))
            }
        }
    }

    /// Puts an update on top of the chain in a slot, as `Chain::install`. Nothing where there is no
    /// such slot. Where memory is short, nothing is changed. `O(1)`.
    pub fn install_at(&mut self, slot: u32, update: Update) -> Result<(), NoMemory>
        ensures installed { OnOk result (self.new ≡ slot_changed slot (installed update) self.old) }
        ensures kept { OnErr result (self.new ≡ self.old) }
    {
        let name = update.version.window.name;
        install_in(&mut self.slots, slot, update)?;
        self.greatest = self.greatest.later(name);
        Ok(())
    }

    /// Commits the newest update in a slot at these stamps, as `Chain::stamp`. Nothing where there
    /// is no such slot. Takes no memory. `O(1)`.
    pub fn stamp(&mut self, slot: u32, name: Name, commit: u64, durable: u64)
        ensures { self.new ≡ slot_changed slot (front_changed name (stamped commit durable)) self.old }
    {
        stamp_in(&mut self.slots, slot, name, commit, durable);
    }

    /// Marks the newest update in a slot as prepared, as `Chain::mark_prepared`. Nothing where
    /// there is no such slot. Takes no memory. `O(1)`.
    pub fn mark_prepared(&mut self, slot: u32, name: Name, prepare: u64)
        ensures { self.new ≡ slot_changed slot (front_changed name (marked prepare)) self.old }
    {
        mark_in(&mut self.slots, slot, name, prepare);
    }

    /// Takes the newest update out of a slot, as `Chain::undo`. The key keeps its slot. Nothing
    /// where there is no such slot. Takes no memory. `O(1)`.
    pub fn undo(&mut self, slot: u32, name: Name)
        ensures { self.new ≡ slot_changed slot (undone name) self.old }
    {
        undo_in(&mut self.slots, slot, name);
    }

    /// Drops what is out of reach in a slot, as `Chain::trim`. Nothing where there is no such slot.
    /// Takes no memory. `O(k)` with k updates in the slot.
    pub fn trim(&mut self, slot: u32, pin: u64, floor: Name)
        ensures { self.new ≡ slot_changed slot (trimmed pin floor) self.old }
    {
        trim_in(&mut self.slots, slot, pin, floor);
    }

    /// Rolls a slot back to stable, as `Chain::roll_back_to_stable`. The key keeps its slot. Nothing
    /// where there is no such slot. Takes no memory. `O(k)` with k updates in the slot.
    pub fn roll_back_to_stable(&mut self, slot: u32, stable: u64)
        ensures { self.new ≡ slot_changed slot (rolled_back stable) self.old }
    {
        roll_back_in(&mut self.slots, slot, stable);
    }

    /// The slot of the least key above the bound, or of the least of all; none exactly where no key
    /// is above. `O(log n)` comparisons.
    pub fn next_above(&self, bound: Option<&[u8]>) -> Option<u32>
        ensures { let from = option_map (λ k. k.now) bound.entry in MatchOption result (NonePast Up from self.now) (λ i. NextAbove from self.now i) }
    {
        slot_above(self.slots.as_slice(), &self.order, &self.heads, bound)
    }

    /// The slot of the greatest key below the bound, or of the greatest of all; none exactly where
    /// no key is below. `O(log n)` comparisons.
    pub fn next_below(&self, bound: Option<&[u8]>) -> Option<u32>
        ensures { let from = option_map (λ k. k.now) bound.entry in MatchOption result (NonePast Down from self.now) (λ i. NextBelow from self.now i) }
    {
        slot_below(self.slots.as_slice(), &self.order, &self.heads, bound)
    }

    /// The slots whose keys are above the bound, or all, in the order of their keys. `O(log n)`
    /// comparisons, and then `O(1)` a step.
    pub fn walk_above(&self, bound: Option<&[u8]>) -> Walk<'_, u32>
        ensures { IsWayUp (option_map (λ k. k.now) bound.entry) self.now result }
    {
        self.walk_above_near(bound, Place::nowhere())
    }

    /// As `walk_above`, but looks first where the hint says that the bound stands: two comparisons at
    /// most where it does. Any hint is answered alike.
    #[inline(always)]
    pub fn walk_above_near(&self, bound: Option<&[u8]>, hint: Place) -> Walk<'_, u32>
        ensures { IsWayUp (option_map (λ k. k.now) bound.entry) self.now result }
    {
        walk_above(self.slots.as_slice(), &self.order, &self.heads, bound, hint)
    }

    /// Where the slot stands that a walk gave last: a hint for `walk_above_near`, of which nothing is
    /// promised. `O(1)`.
    #[inline(always)]
    pub fn hint_of(&self, walk: &Walk<'_, u32>) -> Place {
        self.order.hint_of(walk)
    }

    // The chain of a key that has a slot.
    fn chain_of(&self, key: &[u8]) -> Option<&Chain>
        ensures { MatchOption result (chain_at key.now self.now ≡ []) (λ c. c.now ≡ chain_at key.now self.now) }
    {
        let slot = self.find(key)?;
        self.chain(slot)
    }
}

#[inline(always)]
fn slot_in(slots: &[KeyChain], slot: u32) -> Option<&KeyChain>
    ensures { option_copied result ≡ slice_get slots.now slot }
{
    slots.get(slot as usize)
}

// The slot of a new key.
fn first_of(alloc: Global, key: &[u8], update: Update) -> Result<KeyChain, NoMemory>
    ensures { IfOk result (λ s. s ≡ record { key = key.now; chain = installed update [] }) }
{
    let key = Item::new(Vec::from_slice(alloc, key)?);
    let chain = Chain::of(alloc, update);
    Ok(KeyChain { key, chain })
}

// Puts a slot behind all others, and names it in the gap.
fn add(
    slots: &mut Vec<KeyChain>,
    order: &mut OrderedGroups<u32>,
    gap: Place,
    added: KeyChain,
) -> Result<u32, NoMemory>
    requires { IsGap order.old gap }
    ensures slot { IfOk result (λ i. i ≡ length slots.old.items) }
    ensures slots { OnOk result (slots.new.items ≡ slots.old.items ++ added ∷ []) }
    ensures named { OnOk result (entries order.new ≡ insert (entries order.old) (rank order.old gap) (length slots.old.items)) }
    ensures kept { OnErr result ((slots.new.items ≡ slots.old.items) × (order.new ≡ order.old)) }
{
    let slot = match u32::try_from(slots.len()) {
        Ok(slot) => slot,
        Err(_) => return Err(NoMemory),
    };
    slots.reserve(1)?;
    order.insert(gap, slot)?;
    slots.push_reserved(added);
    Ok(slot)
}

fn install_in(slots: &mut Vec<KeyChain>, slot: u32, update: Update) -> Result<(), NoMemory>
    ensures installed { OnOk result (slots.new.items ≡ slot_changed slot (installed update) slots.old.items) }
    ensures kept { OnErr result (slots.new.items ≡ slots.old.items) }
{
    let at = slot as usize;
    if at < slots.len() {
        slots[at].chain.install(update)?;
    }
    Ok(())
}

fn stamp_in(slots: &mut Vec<KeyChain>, slot: u32, name: Name, commit: u64, durable: u64)
    ensures { slots.new.items ≡ slot_changed slot (front_changed name (stamped commit durable)) slots.old.items }
{
    let at = slot as usize;
    if at < slots.len() {
        slots[at].chain.stamp(name, commit, durable);
    }
}

fn mark_in(slots: &mut Vec<KeyChain>, slot: u32, name: Name, prepare: u64)
    ensures { slots.new.items ≡ slot_changed slot (front_changed name (marked prepare)) slots.old.items }
{
    let at = slot as usize;
    if at < slots.len() {
        slots[at].chain.mark_prepared(name, prepare);
    }
}

fn undo_in(slots: &mut Vec<KeyChain>, slot: u32, name: Name)
    ensures { slots.new.items ≡ slot_changed slot (undone name) slots.old.items }
{
    let at = slot as usize;
    if at < slots.len() {
        slots[at].chain.undo(name);
    }
}

fn trim_in(slots: &mut Vec<KeyChain>, slot: u32, pin: u64, floor: Name)
    ensures { slots.new.items ≡ slot_changed slot (trimmed pin floor) slots.old.items }
{
    let at = slot as usize;
    if at < slots.len() {
        slots[at].chain.trim(pin, floor);
    }
}

fn roll_back_in(slots: &mut Vec<KeyChain>, slot: u32, stable: u64)
    ensures { slots.new.items ≡ slot_changed slot (rolled_back stable) slots.old.items }
{
    let at = slot as usize;
    if at < slots.len() {
        slots[at].chain.roll_back_to_stable(stable);
    }
}
