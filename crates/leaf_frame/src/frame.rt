//! A leaf in memory.

ghost use Rattle.std.specs.Prelude.{◌≡◌, ◌≢◌, ℕ, List, [], drop, slice_get, option_copied, option_map, IfOk, MatchBool, MatchOption, OnErr, OnOk, None, Some};
ghost use Rattle.kv_model.specs.Rows.{Up, Down};
ghost use Rattle.snapshot.specs.Sight.{IsSight, sight_of};
ghost use Rattle.row_page.specs.Rows.{Row};
ghost use Rattle.leaf_rows.specs.Rows.{AreFit};
ghost use Rattle.reconcile.specs.Shows.{shown_at};
ghost use Rattle.update_chain.specs.FrameLaws.{durable_of};
ghost use Rattle.update_chain.specs.Updates.{front_changed, installed, marked, rolled_back, stamped, trimmed, undone};
ghost use Rattle.update_chain.specs.Writing.{newest_of};
ghost use Rattle.leaf_chains.specs.Adds.{IsAdded};
ghost use Rattle.leaf_chains.specs.Slots.{chain_at, slot_changed, slot_of, with_update};
ghost use Rattle.reconcile.specs.Capture.{ChainsFit};
ghost use Rattle.reconcile.specs.Held.{IsReconciled, held_at, is_live, is_past, moved_of, page_rows};
ghost use Rattle.reconcile.specs.Images.{AreImages};
ghost use Rattle.reconcile.specs.Moving.{InKeyOrder, versions_in};
ghost use Rattle.leaf_frame.specs.Leaf.{durable_under};
ghost use Rattle.leaf_frame.specs.Looks.{judgement_at, read_at, reply_in, version_seen};
ghost use Rattle.leaf_frame.specs.Next.{IsNextHeld, NoneHeld};
ghost use Rattle.leaf_frame.specs.Updates.{AllSeen, IsLeastUnseen, NoneAbove};
ghost use Rattle.leaf_frame.specs.Walks.{walk_on};

use crate::look::FrameRead;
use crate::near::HeldRow;
use crate::page::{durable_on, judge_page, page_of, read_page, row_with};
use crate::updates::{has_updates, least_unseen};
use crate::walk::{LeafPlace, LeafWalk};
use crate::way::Way;
use failure::NoMemory;
use leaf_chains::{Added, KeyChain, LeafChains};
use reconcile::{Live, Made, reconcile};
use row_page::{Cell, Leaf};
use snapshot::Snapshot;
use stamp::{Name, View};
use std::alloc::Global;
use std::marker::Model;
use update_chain::{Judgement, Read, Update, judge_update};

/// A leaf in memory: the rows of its page, where it has one, under the chains of its keys. Of a key
/// it holds the updates of its chain, then its row, newest first. The page never changes.
#[derive(Drop)]
pub struct LeafFrame {
    page: Option<Leaf>,
    chains: LeafChains,
}

impl Model for LeafFrame {
    ghost use Rattle.leaf_rows.specs.Rows.{AreFit};
    ghost use Rattle.leaf_frame.specs.Leaf.{HeldLeaf, rows_of};

    ghost Value = { HeldLeaf };

    ghost view = { λ a. record { page = rows_of a.page; chains = a.chains } };

    ghost invariant = { λ a. AreFit (rows_of a.page) };
}

impl LeafFrame {
    /// A leaf that holds nothing. Takes no memory.
    pub fn new(alloc: Global) -> LeafFrame
        ensures { result ≡ record { page = []; chains = [] } }
    {
        LeafFrame {
            page: None,
            chains: LeafChains::new(alloc),
        }
    }

    /// No page, and these chains. Takes no memory.
    pub fn of_chains(chains: LeafChains) -> LeafFrame
        ensures { result ≡ record { page = []; chains = chains } }
    {
        LeafFrame { page: None, chains }
    }

    /// The rows of a page, and no updates. Takes no memory.
    pub fn of_page(alloc: Global, page: Leaf) -> LeafFrame
        requires { AreFit page }
        ensures { result ≡ record { page = page; chains = [] } }
    {
        LeafFrame {
            page: Some(page),
            chains: LeafChains::new(alloc),
        }
    }

    /// Its page, none where it has none. `O(1)`.
    pub fn page(&self) -> Option<&Leaf>
        ensures rows { page_rows result ≡ self.now.page }
        ensures fit { AreFit self.now.page }
    {
        page_of(&self.page)
    }

    /// The chains of its keys. `O(1)`.
    pub fn chains(&self) -> &LeafChains
        ensures { result.now ≡ self.now.chains }
    {
        &self.chains
    }

    /// The row of a key on its page, none where it has none. Takes no memory, and lends the value.
    /// `O(log n)` comparisons in the rows.
    pub fn row(&self, key: &[u8]) -> Option<Cell<'_>>
        ensures { option_map version_seen result ≡ shown_at key.now self.now.page }
    {
        row_with(page_of(&self.page), key)
    }

    /// What a read of a key answers: by its chain, as `LeafChains::read`; where that gives nothing,
    /// by its row, where the view's snapshot sees it and the read stamp admits it. Takes no memory,
    /// and lends the value. `O(log n)` comparisons in the keys of the chains, the read of the chain,
    /// and `O(log n)` in the rows.
    #[inline(always)]
    pub fn read(&self, key: &[u8], view: &View<'_>) -> FrameRead<'_>
        requires { IsSight (sight_of view.now) }
        ensures { reply_in result ≡ read_at view.now key.now self.now }
    {
        match self.chains.read(key, view) {
            Read::Found(value) => FrameRead::Found(value.as_bytes()),
            Read::Removed => FrameRead::Removed,
            Read::Conflict(id) => FrameRead::Conflict(id),
            Read::Older => read_page(page_of(&self.page), key, view),
        }
    }

    /// Whether a write of a key is allowed, by the newest version that is held: its newest update,
    /// or else its row; where nothing is held, it is. Takes no memory. `O(log n)` comparisons in the
    /// keys of the chains, and `O(log n)` in the rows where the key has no update.
    pub fn judge(&self, key: &[u8], view: &View<'_>) -> Judgement
        requires { IsSight (sight_of view.now) }
        ensures { result ≡ judgement_at view.now key.now self.now }
    {
        match newest_update(&self.chains, key) {
            Some(update) => judge_update(view, update),
            None => judge_page(page_of(&self.page), key, view),
        }
    }

    /// Puts an update on top of the chain of a key, as `LeafChains::install`, and gives the slot.
    /// Where memory is short, nothing is changed.
    pub fn install(&mut self, alloc: Global, key: &[u8], update: Update) -> Result<u32, NoMemory>
        ensures installed { OnOk result (self.new ≡ record self.old { chains = with_update key.now update self.old.chains }) }
        ensures slot { IfOk result (λ i. slot_of key.now self.new.chains ≡ Some i) }
        ensures kept { OnErr result (self.new ≡ self.old) }
    {
        self.chains.install(alloc, key, update)
    }

    /// Puts the first update of a key that has no slot into a new one, as `LeafChains::add`. Where
    /// the key has a slot, it comes back with the update, and nothing is changed, nor where memory
    /// is short.
    pub fn add(&mut self, alloc: Global, key: &[u8], update: Update) -> Result<Added, NoMemory>
        ensures added { IfOk result (IsAdded key.now update self.old.chains self.new.chains) }
        ensures page { self.new.page ≡ self.old.page }
        ensures kept { OnErr result (self.new ≡ self.old) }
    {
        self.chains.add(alloc, key, update)
    }

    /// Puts an update on top of the chain in a slot, as `LeafChains::install_at`. Where memory is
    /// short, nothing is changed. `O(1)`.
    pub fn install_at(&mut self, slot: u32, update: Update) -> Result<(), NoMemory>
        ensures installed { OnOk result (self.new ≡ record self.old { chains = slot_changed slot (installed update) self.old.chains }) }
        ensures kept { OnErr result (self.new ≡ self.old) }
    {
        self.chains.install_at(slot, update)
    }

    /// Commits the newest update in a slot at these stamps, as `LeafChains::stamp`. Takes no memory.
    /// `O(1)`.
    pub fn stamp(&mut self, slot: u32, name: Name, commit: u64, durable: u64)
        ensures { self.new ≡ record self.old { chains = slot_changed slot (front_changed name (stamped commit durable)) self.old.chains } }
    {
        self.chains.stamp(slot, name, commit, durable);
    }

    /// Marks the newest update in a slot as prepared, as `LeafChains::mark_prepared`. Takes no
    /// memory. `O(1)`.
    pub fn mark_prepared(&mut self, slot: u32, name: Name, prepare: u64)
        ensures { self.new ≡ record self.old { chains = slot_changed slot (front_changed name (marked prepare)) self.old.chains } }
    {
        self.chains.mark_prepared(slot, name, prepare);
    }

    /// Takes the newest update out of a slot, as `LeafChains::undo`. Takes no memory. `O(1)`.
    pub fn undo(&mut self, slot: u32, name: Name)
        ensures { self.new ≡ record self.old { chains = slot_changed slot (undone name) self.old.chains } }
    {
        self.chains.undo(slot, name);
    }

    /// Drops the updates out of reach in a slot, as `LeafChains::trim`. The row stays. Takes no
    /// memory. `O(k)` with k updates in the slot.
    pub fn trim(&mut self, slot: u32, pin: u64, floor: Name)
        ensures { self.new ≡ record self.old { chains = slot_changed slot (trimmed pin floor) self.old.chains } }
    {
        self.chains.trim(slot, pin, floor);
    }

    /// Rolls the updates in a slot back to stable, as `LeafChains::roll_back_to_stable`. The row
    /// stays. Takes no memory. `O(k)` with k updates in the slot.
    pub fn roll_back_to_stable(&mut self, slot: u32, stable: u64)
        ensures { self.new ≡ record self.old { chains = slot_changed slot (rolled_back stable) self.old.chains } }
    {
        self.chains.roll_back_to_stable(slot, stable);
    }

    /// The durable stamp of what lies below the newest update in a slot: of the next one, or else of
    /// the key's row; 0 where nothing does, or there is no such slot. `O(1)`, and `O(log n)` in the
    /// rows where the slot has one update at most.
    pub fn durable_below(&self, slot: u32) -> u64
        ensures { result ≡ durable_under self.now.page (slice_get self.now.chains slot) }
    {
        match self.chains.slot(slot) {
            None => 0,
            Some(there) => durable_in(page_of(&self.page), there),
        }
    }

    /// The way to greater keys, from above the bound on, or from the least. `O(log n)` comparisons in
    /// keys and rows. Takes no memory.
    pub fn walk_up<'a>(&'a self, bound: Option<&'a [u8]>) -> LeafWalk<'a>
        ensures { result ≡ walk_on Up (option_map (λ k. k.now) bound.entry) self.now }
    {
        self.walk_up_near(bound, LeafPlace::nowhere())
    }

    /// As `walk_up`, but looks first where the hint says that the bound stands: `O(1)` where it does.
    /// Any hint is answered alike.
    #[inline(always)]
    pub fn walk_up_near<'a>(&'a self, bound: Option<&'a [u8]>, hint: LeafPlace) -> LeafWalk<'a>
        ensures { result ≡ walk_on Up (option_map (λ k. k.now) bound.entry) self.now }
    {
        LeafWalk::over(page_of(&self.page), &self.chains, Way::Up, bound, hint)
    }

    /// The way to smaller keys, from below the bound on, or from the greatest, as `walk_up`.
    pub fn walk_down<'a>(&'a self, bound: Option<&'a [u8]>) -> LeafWalk<'a>
        ensures { result ≡ walk_on Down (option_map (λ k. k.now) bound.entry) self.now }
    {
        self.walk_down_near(bound, LeafPlace::nowhere())
    }

    /// As `walk_down`, but looks first at the row that the hint names. Any hint is answered alike.
    #[inline(always)]
    pub fn walk_down_near<'a>(&'a self, bound: Option<&'a [u8]>, hint: LeafPlace) -> LeafWalk<'a>
        ensures { result ≡ walk_on Down (option_map (λ k. k.now) bound.entry) self.now }
    {
        LeafWalk::over(page_of(&self.page), &self.chains, Way::Down, bound, hint)
    }

    /// The least key above the bound, or of all, of which the leaf holds something and that does not
    /// read as removed, with its read; none exactly where there is none: the first of `walk_up`.
    pub fn next_above<'a>(&'a self, bound: Option<&'a [u8]>, view: &View<'_>) -> Option<HeldRow<'a>>
        requires { IsSight (sight_of view.now) }
        ensures { let from = option_map (λ k. k.now) bound.entry in MatchOption result (NoneHeld Up from view.now self.now) (IsNextHeld Up from view.now self.now) }
    {
        self.walk_up(bound).next_held(view)
    }

    /// The greatest key below the bound, or of all, as `next_above`.
    pub fn next_below<'a>(&'a self, bound: Option<&'a [u8]>, view: &View<'_>) -> Option<HeldRow<'a>>
        requires { IsSight (sight_of view.now) }
        ensures { let from = option_map (λ k. k.now) bound.entry in MatchOption result (NoneHeld Down from view.now self.now) (IsNextHeld Down from view.now self.now) }
    {
        self.walk_down(bound).next_held(view)
    }

    /// A name that no version it holds is above. `O(1)`.
    pub fn greatest(&self) -> Name
        ensures { NoneAbove result self.now }
    {
        match page_of(&self.page) {
            None => self.chains.greatest(),
            Some(leaf) => leaf.greatest().later(self.chains.greatest()),
        }
    }

    /// Whether it holds an update. `O(1)` where the key that comes first has one, `O(n)` in the keys
    /// of the chains at most.
    pub fn is_changed(&self) -> bool
        ensures { MatchBool result ((key : List ℕ) × (chain_at key self.now.chains ≢ [])) ((key : List ℕ) → chain_at key self.now.chains ≡ []) }
    {
        has_updates(&self.chains)
    }

    /// The least id of an update whose name the snapshot does not see; none exactly where it sees
    /// each. Takes no memory. `O(n + k)` with n keys in the chains and k updates.
    pub fn unresolved(&self, live: &Snapshot) -> Option<u64>
        ensures { MatchOption result (AllSeen live.now.sight self.now.chains) (IsLeastUnseen live.now.sight self.now.chains) }
    {
        least_unseen(&self.chains, live)
    }

    /// What an eviction or a checkpoint makes of it, as `reconcile`: images with the newest live
    /// version of each key, and the versions that move to the history. The error is want of memory.
    /// `O(rows + updates + bytes)`.
    pub fn reconcile(
        &self,
        alloc: Global,
        live: Live<'_>,
        pin: u64,
        floor: Name,
    ) -> Result<Made, NoMemory>
        requires { ChainsFit self.now.chains }
        ensures images { IfOk result (λ made. (rows : List Row) × IsReconciled (is_live live.entry) self.now.page self.now.chains rows × AreImages made.images.items rows) }
        ensures moved { IfOk result (λ made. (key : List ℕ) → versions_in key made.moved.items ≡ moved_of (is_live live.entry) (is_past pin floor) (held_at key self.now.page self.now.chains)) }
        ensures ordered { IfOk result (λ made. InKeyOrder made.moved.items) }
    {
        reconcile(alloc, page_of(&self.page), &self.chains, live, pin, floor)
    }
}

// The newest update of a key.
fn newest_update<'a>(chains: &'a LeafChains, key: &[u8]) -> Option<&'a Update>
    ensures { option_copied result ≡ newest_of (chain_at key.now chains.now) None }
{
    let slot = chains.find(key)?;
    let chain = chains.chain(slot)?;
    chain.newest()
}

// The durable stamp of what lies below the newest update in a slot.
fn durable_in(page: Option<&Leaf>, there: &KeyChain) -> u64
    requires { AreFit (page_rows page) }
    ensures { result ≡ durable_of (newest_of (drop 1 there.now.chain) (shown_at there.now.key (page_rows page.entry))) }
{
    match there.chain.get(1) {
        Some(update) => update.version.window.durable,
        None => durable_on(page, there.key.as_bytes()),
    }
}
