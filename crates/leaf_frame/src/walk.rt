//! A way over the keys of a leaf that keeps its place.

ghost use Rattle.std.specs.Prelude.{◌≡◌, None, Some, MatchOption, option_map};
ghost use Rattle.snapshot.specs.Sight.{IsSight, sight_of};
ghost use Rattle.leaf_rows.specs.Rows.{AreFit};
ghost use Rattle.reconcile.specs.Held.{page_rows};
ghost use Rattle.leaf_frame.specs.Leaf.{leaf_of};
ghost use Rattle.leaf_frame.specs.Near.{IsNear, NonePast};
ghost use Rattle.leaf_frame.specs.Next.{IsNextHeld, NoneHeld};
ghost use Rattle.leaf_frame.specs.Walks.{onward, walk_on};
ghost use Rattle.leaf_frame.specs.Ways.{way_in};

use crate::near::{First, HeldRow, Near, first_of, of_both, of_row, of_slot, row_of};
use crate::page::{RowAt, hint_before, near_row, row_behind};
use crate::slot_way::{SlotsAhead, slots_ahead, way_of};
use crate::way::Way;
use leaf_chains::{KeyChain, LeafChains, Place};
use row_page::Leaf;
use stamp::View;
use std::marker::Model;

/// Where a key may stand in a leaf: a hint, which is looked at before it is believed, so that any is
/// answered alike.
#[derive(Clone, Copy, Debug, Drop)]
pub struct LeafPlace {
    // In the order of the chains.
    pub(crate) slot: Place,
    // On the page.
    pub(crate) row: usize,
}

impl LeafPlace {
    /// Where no key stands: a hint that says nothing.
    #[inline(always)]
    pub fn nowhere() -> LeafPlace {
        LeafPlace {
            slot: Place::nowhere(),
            row: usize::MAX,
        }
    }
}

/// A way over the keys of a leaf, past a bound or from its end on, which keeps its place on the page
/// and in the chains.
#[derive(Drop)]
pub struct LeafWalk<'a> {
    page: Option<&'a Leaf>,
    chains: &'a LeafChains,
    from: Option<&'a [u8]>,
    // The nearest slot, where it was sought, and those behind it.
    there: Option<&'a KeyChain>,
    slots: SlotsAhead<'a>,
    // The nearest row.
    row: Option<RowAt<'a>>,
}

impl<'a> Model for LeafWalk<'a> {
    ghost use Rattle.std.specs.Prelude.{option_map};
    ghost use Rattle.reconcile.specs.Held.{page_rows};
    ghost use Rattle.leaf_frame.specs.Leaf.{leaf_of};
    ghost use Rattle.leaf_frame.specs.Walks.{IsPlaced, Walked, walk_on, way_along};

    ghost Value = { Walked };

    ghost view = { λ a. walk_on (way_along a.slots) (option_map (λ k. k.now) a.from) (leaf_of (page_rows a.page) a.chains.now) };

    ghost invariant = { λ a. IsPlaced a.slots (option_map (λ k. k.now) a.from) (page_rows a.page) a.chains.now a.there a.row };
}

impl<'a> LeafWalk<'a> {
    // A way that begins past the bound, or at the end. `O(log n)` comparisons in keys and rows.
    #[inline(always)]
    pub(crate) fn over(
        page: Option<&'a Leaf>,
        chains: &'a LeafChains,
        way: Way,
        from: Option<&'a [u8]>,
        hint: LeafPlace,
    ) -> LeafWalk<'a>
        requires { AreFit (page_rows page) }
        ensures { result ≡ walk_on (way_in way) (option_map (λ k. k.now) from.entry) (leaf_of (page_rows page.entry) chains.now) }
    {
        LeafWalk {
            page,
            chains,
            from,
            there: None,
            slots: slots_ahead(chains, way, from, hint.slot),
            row: near_row(page, way, from, hint.row),
        }
    }

    /// Where it stands in its leaf: a hint for another walk that begins past the key that this one gave
    /// last. Nothing is promised of it. `O(1)`.
    #[inline(always)]
    pub fn place(&self) -> LeafPlace {
        LeafPlace {
            slot: self.slots.hint(self.chains),
            row: hint_before(self.page, way_of(&self.slots), self.row),
        }
    }

    /// The nearest key on the way of which the leaf holds something and that does not read as
    /// removed, with its read; none exactly where there is none. The way goes on behind it. A key of
    /// which nothing is admitted counts: older versions of it may stand elsewhere. Takes no memory.
    /// `O(1)` for each key that is given or passed, but `O(log n)` comparisons for a key of a chain on
    /// the way to smaller ones.
    #[inline(always)]
    pub fn next_held(&mut self, view: &View<'_>) -> Option<HeldRow<'a>>
        requires { IsSight (sight_of view.now) }
        ensures held { MatchOption result (NoneHeld self.old.way self.old.from view.now self.old.leaf) (IsNextHeld self.old.way self.old.from view.now self.old.leaf) }
        ensures behind { MatchOption result (NoneHeld self.new.way self.new.from view.now self.new.leaf) (λ row. self.new.from ≡ Some row.key.now) }
        ensures way { self.new.way ≡ self.old.way }
        ensures leaf { self.new.leaf ≡ self.old.leaf }
    {
        while let Some(near) = self.pass() {
            if let Some(row) = row_of(near, view) {
                return Some(row);
            }
        }
        None
    }

    // The nearest key; the way goes on behind it.
    #[inline(always)]
    fn pass(&mut self) -> Option<Near<'a>>
        ensures { MatchOption result (NonePast self.old.way self.old.from self.old.leaf × (self.new ≡ self.old)) (λ n. IsNear self.old.way self.old.from self.old.leaf n × (self.new ≡ onward n.key.now self.old)) }
    {
        let way = way_of(&self.slots);
        self.there = self.slots.nearest(self.chains, self.from, self.there);
        match first_of(self.there, self.row, way) {
            None => None,
            Some(First::Slot(slot)) => {
                let near = of_slot(slot);
                self.from = Some(near.key);
                self.there = None;
                Some(near)
            }
            Some(First::Row(row)) => {
                let near = of_row(row.cell);
                self.from = Some(near.key);
                self.row = row_behind(self.page, way, row);
                Some(near)
            }
            Some(First::Both(slot, row)) => {
                let near = of_both(slot, row.cell);
                self.from = Some(near.key);
                self.there = None;
                self.row = row_behind(self.page, way, row);
                Some(near)
            }
        }
    }
}
