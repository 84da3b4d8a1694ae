//! The slots of a way over the keys of a leaf.

ghost use Rattle.std.specs.Prelude.{◌≡◌, None, IfNone, option_map};
ghost use Rattle.leaf_frame.specs.Walks.{AreThrough, SlotsFrom, way_along};
ghost use Rattle.leaf_frame.specs.Ways.{way_in};

use crate::near::near_slot;
use crate::way::Way;
use leaf_chains::{KeyChain, LeafChains, Place};
use ordered_groups::Walk;

// The slots that are left on a way.
#[derive(Drop)]
pub(crate) enum SlotsAhead<'a> {
    // To greater keys, one behind the other.
    Up(Walk<'a, u32>),
    // To smaller keys: each is sought.
    Down,
}

// Those past the bound, or all. `O(log n)` comparisons, and two at most where the bound stands where
// the hint says.
#[inline(always)]
pub(crate) fn slots_ahead<'a>(
    chains: &'a LeafChains,
    way: Way,
    from: Option<&[u8]>,
    hint: Place,
) -> SlotsAhead<'a>
    ensures way { way_along result ≡ way_in way }
    ensures from { SlotsFrom result (option_map (λ k. k.now) from.entry) chains.now None }
{
    match way {
        Way::Up => SlotsAhead::Up(chains.walk_above_near(from, hint)),
        Way::Down => SlotsAhead::Down,
    }
}

#[inline(always)]
pub(crate) fn way_of(slots: &SlotsAhead<'_>) -> Way
    ensures { way_in result ≡ way_along slots.now }
{
    match slots {
        SlotsAhead::Up(_) => Way::Up,
        SlotsAhead::Down => Way::Down,
    }
}

impl<'a> SlotsAhead<'a> {
    // Where the last slot stands that was come to: a hint for `slots_ahead`, of which nothing is promised.
    #[inline(always)]
    pub(crate) fn hint(&self, chains: &LeafChains) -> Place {
        match self {
            SlotsAhead::Up(walk) => chains.hint_of(walk),
            SlotsAhead::Down => Place::nowhere(),
        }
    }

    // The nearest slot: this one, or where it was not sought, the next.
    #[inline(always)]
    pub(crate) fn nearest(
        &mut self,
        chains: &'a LeafChains,
        from: Option<&[u8]>,
        there: Option<&'a KeyChain>,
    ) -> Option<&'a KeyChain>
        requires { SlotsFrom self.old (option_map (λ k. k.now) from) chains.now there }
        ensures way { way_along self.new ≡ way_along self.old }
        ensures left { SlotsFrom self.new (option_map (λ k. k.now) from.entry) chains.now result }
        ensures none { IfNone result (AreThrough self.new (option_map (λ k. k.now) from.entry) chains.now) }
    {
        match there {
            Some(there) => Some(there),
            None => self.next(chains, from),
        }
    }

    // The next slot; behind it the others are left. `O(1)` on the way up, else `O(log n)` comparisons.
    #[inline(always)]
    fn next(&mut self, chains: &'a LeafChains, from: Option<&[u8]>) -> Option<&'a KeyChain>
        requires { SlotsFrom self.old (option_map (λ k. k.now) from) chains.now None }
        ensures way { way_along self.new ≡ way_along self.old }
        ensures left { SlotsFrom self.new (option_map (λ k. k.now) from.entry) chains.now result }
        ensures none { IfNone result (AreThrough self.new (option_map (λ k. k.now) from.entry) chains.now) }
    {
        match self {
            SlotsAhead::Up(walk) => {
                let slot = walk.next_entry()?;
                chains.slot(slot)
            }
            SlotsAhead::Down => near_slot(chains, Way::Down, from),
        }
    }
}
