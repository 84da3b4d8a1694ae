//! An ordered sequence of small entries, kept in groups of at most 256, so that an entry is put in
//! or taken out without moving all that lie behind it.
//!
//! The order comes from outside: `find` is given a three-way comparison with what is looked for.
//! Clauses speak of the list of all entries, `entries`, and of how many of them lie before a place,
//! `rank`. Promises that each call reads or changes that list exactly, and that nothing is changed
//! where memory is refused. Leaves to the caller that entries stand in the order by which they are
//! looked for: a search answers by it only where the comparison rises along the list. Groups are not
//! merged: after many removals they stay short, and memory is given back where a group is empty.
//! A change of a full group splits it, which moves 24 bytes for each group behind.
#![tactic(auto)]

ghost use Rattle.std.specs.Prelude.{◌≡◌, ◌+◌, ◌<◌, ◌≤◌, [], length, drop, MatchOption, MatchResult, IfOk, IfSome, IsTrue, ◌↔◌, OnErr, slice_set};
ghost use Rattle.std.specs.List.{HoldsAt, remove};
ghost use Rattle.ordered_groups.specs.Groups.{entries, group_at, before, AreSound};
ghost use Rattle.ordered_groups.specs.Places.{rank, IsPlace, IsGap, IsAt, IsEntryAt, Answers, BelowAlong, NotBelowAt, EndsNotBelow, Finds, IsPut, IsReplaced};
ghost use Rattle.ordered_groups.specs.declared.Place.{Place};
ghost use Rattle.std.specs.declared.cmp.Ordering.{Ordering};
ghost use Rattle.std.specs.declared.cmp.Ordering.TheVariants.{Less, Greater};

mod edit;
mod put;
mod search;
mod walk;

use crate::edit::write;
use crate::put::{put_at, replace_at, take_at};
use crate::search::{group_of, within};
pub use crate::walk::Walk;
use std::alloc::{AllocError, Global};
use std::cmp::Ordering;
use std::marker::Model;

/// At most so many entries lie in a group.
pub const GROUP_MAX: usize = 256;

/// At most so many entries are put in the place of one.
pub const NEWS_MAX: usize = 128;

/// Where an entry lies, or one may be put, until the next change of the sequence.
#[derive(Clone, Copy, Debug, Drop)]
pub struct Place {
    pub(crate) group: usize,
    pub(crate) at: usize,
}

impl Place {
    /// Where no entry lies: a hint that says nothing.
    #[inline(always)]
    pub fn nowhere() -> Place {
        Place {
            group: usize::MAX,
            at: 0,
        }
    }
}

/// A sequence of small entries, in groups.
#[derive(Drop)]
pub struct OrderedGroups<T> {
    // None is empty.
    groups: Vec<Vec<T>>,
    count: usize,
}

impl<T> Model for OrderedGroups<T> {
    ghost use Rattle.std.specs.Prelude.{◌≡◌, List, length};
    ghost use Rattle.ordered_groups.specs.Groups.{entries, lists, AreSound};

    ghost Value = { List (List T) };

    ghost view = { λ a. lists a.groups.items };

    ghost invariant = { λ a. AreSound 256 (lists a.groups.items) × (a.count ≡ length (entries (lists a.groups.items))) };
}

impl<T: Copy + Drop> OrderedGroups<T> {
    /// Without entries. Takes no memory.
    pub fn new(alloc: Global) -> Self
        ensures { result ≡ [] }
    {
        OrderedGroups {
            groups: Vec::new(alloc),
            count: 0,
        }
    }

    /// The number of its entries. `O(1)`.
    pub fn len(&self) -> usize
        ensures { result ≡ length (entries self.now) }
    {
        self.count
    }

    /// The entry at a place. `O(1)`.
    #[inline(always)]
    pub fn get(&self, place: Place) -> T
        requires { IsPlace self.now place }
        ensures { IsEntryAt self.now place result }
    {
        self.groups[place.group][place.at]
    }

    /// The place of the first entry, none where there is no entry. `O(1)`.
    pub fn first(&self) -> Option<Place>
        ensures { MatchOption result (entries self.now ≡ []) (λ p. IsPlace self.now p × (rank self.now p ≡ 0)) }
    {
        if self.groups.is_empty() {
            None
        } else {
            Some(Place { group: 0, at: 0 })
        }
    }

    // How many groups there are.
    #[inline(always)]
    fn group_count(&self) -> usize
        ensures value { result ≡ length self.now }
        ensures sound { AreSound 256 self.now }
    {
        self.groups.len()
    }

    // How many entries a group has.
    #[inline(always)]
    fn group_len(&self, group: usize) -> usize
        requires { group < length self.now }
        ensures value { result ≡ length (group_at self.now group) }
        ensures some { 0 < result }
        ensures most { result ≤ 256 }
    {
        self.groups[group].len()
    }

    /// The place of the last entry, none where there is no entry. `O(1)`.
    pub fn last(&self) -> Option<Place>
        ensures { MatchOption result (entries self.now ≡ []) (λ p. IsPlace self.now p × (rank self.now p + 1 ≡ length (entries self.now))) }
    {
        let count = self.group_count();
        if count == 0 {
            return None;
        }
        let group = count - 1;
        let at = self.group_len(group) - 1;
        Some(Place { group, at })
    }

    /// The place behind the last entry. `O(1)`.
    pub fn end(&self) -> Place
        ensures gap { IsGap self.now result }
        ensures rank { rank self.now result ≡ length (entries self.now) }
    {
        let count = self.group_count();
        if count == 0 {
            return Place { group: 0, at: 0 };
        }
        let group = count - 1;
        let at = self.group_len(group);
        Place { group, at }
    }

    /// The place of the next entry, none behind the last. `O(1)`.
    #[inline(always)]
    pub fn next(&self, place: Place) -> Option<Place>
        requires { IsPlace self.now place }
        ensures { MatchOption result (rank self.now place + 1 ≡ length (entries self.now)) (λ p. IsAt self.now (rank self.now place + 1) p) }
    {
        let Place { group, at } = place;
        let len = self.group_len(group);
        let count = self.group_count();
        if at + 1 < len {
            Some(Place { group, at: at + 1 })
        } else if group + 1 < count {
            Some(Place {
                group: group + 1,
                at: 0,
            })
        } else {
            None
        }
    }

    /// The place of the entry before, none before the first. `O(1)`.
    #[inline(always)]
    pub fn prev(&self, place: Place) -> Option<Place>
        requires { IsPlace self.now place }
        ensures { MatchOption result (rank self.now place ≡ 0) (λ p. IsPlace self.now p × (rank self.now p + 1 ≡ rank self.now place)) }
    {
        self.before_gap(place)
    }

    /// The place of the entry that lies before a gap, none where the gap lies before all. `O(1)`.
    #[inline(always)]
    pub fn before_gap(&self, gap: Place) -> Option<Place>
        requires { IsGap self.now gap }
        ensures { MatchOption result (rank self.now gap ≡ 0) (λ p. IsPlace self.now p × (rank self.now p + 1 ≡ rank self.now gap)) }
    {
        let Place { group, at } = gap;
        if at > 0 {
            return Some(Place { group, at: at - 1 });
        }
        if group == 0 {
            return None;
        }
        let before = group - 1;
        let len = self.group_len(before);
        Some(Place {
            group: before,
            at: len - 1,
        })
    }

    /// The place of the entry that lies behind a gap, none where the gap lies behind all. `O(1)`.
    #[inline(always)]
    pub fn behind_gap(&self, gap: Place) -> Option<Place>
        requires { IsGap self.now gap }
        ensures { MatchOption result (rank self.now gap ≡ length (entries self.now)) (λ p. IsAt self.now (rank self.now gap) p) }
    {
        let Place { group, at } = gap;
        let count = self.group_count();
        if group == count {
            return None;
        }
        let len = self.group_len(group);
        if at < len {
            Some(gap)
        } else if group + 1 < count {
            Some(Place {
                group: group + 1,
                at: 0,
            })
        } else {
            None
        }
    }

    /// The place of an entry that `order` finds equal, or else the gap where it would go. `O(log n)`
    /// comparisons.
    pub fn find<F: Fn(T) -> Ordering>(&self, order: F) -> Result<Place, Place>
        requires { F.IsAlwaysCallable order }
        ensures place { MatchResult result (IsPlace self.now) (IsGap self.now) }
        ensures found { (ord : T → Ordering) → Answers F.Fn order ord → Finds ord self.now result }
    {
        let group = self.group_for(&order);
        if group == self.group_count() {
            return Err(self.end());
        }
        let at = self.place_in(group, &order);
        let place = Place { group, at };
        let entry = self.get(place);
        if order(entry).is_eq() {
            Ok(place)
        } else {
            Err(place)
        }
    }

    /// What a look at an entry that a hint names, and at the one beside it, finds: an entry that `order`
    /// finds equal, or the gap between two, one below what is looked for and one above it, or behind the
    /// last or before the first. None where neither is so. Any place is a hint, one of another sequence
    /// too. At most two comparisons.
    #[inline(always)]
    pub fn look_near<F: Fn(T) -> Ordering>(
        &self,
        hint: Place,
        order: F,
    ) -> Option<Result<Place, Place>>
        requires { F.IsAlwaysCallable order }
        ensures place { IfSome result (λ r. MatchResult r (IsPlace self.now) (IsGap self.now)) }
        ensures found { (ord : T → Ordering) → Answers F.Fn order ord → IfSome result (Finds ord self.now) }
    {
        if !self.has(hint) {
            return None;
        }
        let entry = self.get(hint);
        match order(entry) {
            Ordering::Equal => Some(Ok(hint)),
            Ordering::Less => self.look_behind(hint, &order),
            Ordering::Greater => self.look_before(hint, &order),
        }
    }

    // Whether an entry lies there.
    #[inline(always)]
    fn has(&self, place: Place) -> bool
        ensures { IsTrue result ↔ IsPlace self.now place }
    {
        match self.groups.get(place.group) {
            None => false,
            Some(group) => place.at < group.len(),
        }
    }

    // The same at the entry behind one that is below what is looked for.
    #[inline(always)]
    fn look_behind<F: Fn(T) -> Ordering>(
        &self,
        below: Place,
        order: &F,
    ) -> Option<Result<Place, Place>>
        requires callable { F.IsAlwaysCallable order.now }
        requires place { IsPlace self.now below }
        ensures place { IfSome result (λ r. MatchResult r (IsPlace self.now) (IsGap self.now)) }
        ensures found { (ord : T → Ordering) → Answers F.Fn order.now ord → HoldsAt (λ y. ord y ≡ Less) (entries self.now) (rank self.now below) → IfSome result (Finds ord self.now) }
    {
        let Some(next) = self.next(below) else {
            return Some(Err(self.end()));
        };
        let entry = self.get(next);
        match order(entry) {
            Ordering::Equal => Some(Ok(next)),
            Ordering::Greater => Some(Err(next)),
            Ordering::Less => None,
        }
    }

    // The same at the entry before one that is above what is looked for.
    #[inline(always)]
    fn look_before<F: Fn(T) -> Ordering>(
        &self,
        above: Place,
        order: &F,
    ) -> Option<Result<Place, Place>>
        requires callable { F.IsAlwaysCallable order.now }
        requires place { IsPlace self.now above }
        ensures place { IfSome result (λ r. MatchResult r (IsPlace self.now) (IsGap self.now)) }
        ensures found { (ord : T → Ordering) → Answers F.Fn order.now ord → HoldsAt (λ y. ord y ≡ Greater) (entries self.now) (rank self.now above) → IfSome result (Finds ord self.now) }
    {
        let Some(before) = self.prev(above) else {
            return Some(Err(above));
        };
        let entry = self.get(before);
        match order(entry) {
            Ordering::Equal => Some(Ok(before)),
            Ordering::Less => Some(Err(above)),
            Ordering::Greater => None,
        }
    }

    /// The gap behind an entry. `O(1)`.
    #[inline(always)]
    pub fn gap_behind(&self, place: Place) -> Place
        requires { IsPlace self.now place }
        ensures gap { IsGap self.now result }
        ensures rank { rank self.now result ≡ rank self.now place + 1 }
    {
        let len = self.group_len(place.group);
        prove!(place.at < len);
        Place {
            group: place.group,
            at: place.at + 1,
        }
    }

    /// Where the entry lies that a walk over this sequence gave last: a hint for `look_near`, of which
    /// nothing is promised. `O(1)`.
    #[inline(always)]
    pub fn hint_of(&self, walk: &Walk<'_, T>) -> Place {
        let (here, behind) = walk.left();
        let group = self.groups.len().wrapping_sub(behind).wrapping_sub(1);
        match self.groups.get(group) {
            None => Place::nowhere(),
            Some(entries) => Place {
                group,
                at: entries.len().wrapping_sub(here).wrapping_sub(1),
            },
        }
    }

    // The first group whose last entry is not below what is looked for.
    #[inline(always)]
    fn group_for<F: Fn(T) -> Ordering>(&self, order: &F) -> usize
        requires { F.IsAlwaysCallable order.now }
        ensures bound { result ≤ length self.now }
        ensures below { (ord : T → Ordering) → Answers F.Fn order.now ord → BelowAlong ord (entries self.now) (before self.now result) }
        ensures here { (ord : T → Ordering) → Answers F.Fn order.now ord → EndsNotBelow ord self.now result }
    {
        group_of(&self.groups, order)
    }

    // The first entry of a group that is not below what is looked for, or its last.
    #[inline(always)]
    fn place_in<F: Fn(T) -> Ordering>(&self, group: usize, order: &F) -> usize
        requires callable { F.IsAlwaysCallable order.now }
        requires within { group < length self.now }
        ensures bound { result < length (group_at self.now group) }
        ensures below { (ord : T → Ordering) → Answers F.Fn order.now ord → BelowAlong ord (group_at self.now group) result }
        ensures here { (ord : T → Ordering) → Answers F.Fn order.now ord → NotBelowAt ord (group_at self.now group) result }
    {
        let entries = self.groups[group].as_slice();
        within(entries, order)
    }

    /// As `find`, but asks for the last entry first: one comparison where what is looked for lies
    /// behind all.
    pub fn find_from_last<F: Fn(T) -> Ordering>(&self, order: F) -> Result<Place, Place>
        requires { F.IsAlwaysCallable order }
        ensures place { MatchResult result (IsPlace self.now) (IsGap self.now) }
        ensures found { (ord : T → Ordering) → Answers F.Fn order ord → Finds ord self.now result }
    {
        if let Some(last) = self.last() {
            let entry = self.get(last);
            if order(entry).is_lt() {
                return Err(self.end());
            }
        }
        self.find(order)
    }

    /// Puts an entry into a gap. Its place; places taken before are void. Moves at most 255 entries,
    /// and takes memory where a group begins or is split. Where it is refused, nothing is changed.
    pub fn insert(&mut self, place: Place, entry: T) -> Result<Place, AllocError>
        requires { IsGap self.old place }
        ensures ok { IfOk result (IsPut self.old place entry self.new) }
        ensures err { OnErr result (self.new ≡ self.old) }
    {
        if self.count == usize::MAX {
            return Err(AllocError);
        }
        let put = put_at(&mut self.groups, place, entry)?;
        self.count += 1;
        Ok(put)
    }

    /// Takes an entry out. Places taken before are void. Moves at most 255 entries; takes no memory.
    pub fn remove(&mut self, place: Place) -> T
        requires { IsPlace self.old place }
        ensures entry { IsEntryAt self.old place result }
        ensures after { entries self.new ≡ remove (entries self.old) (rank self.old place) }
    {
        let entry = take_at(&mut self.groups, place);
        self.count -= 1;
        entry
    }

    /// Another entry in the place of one. Every place stays. `O(1)`, and takes no memory.
    pub fn set(&mut self, place: Place, entry: T)
        requires { IsPlace self.old place }
        ensures after { entries self.new ≡ slice_set (entries self.old) (rank self.old place) entry }
        ensures places { (p : Place) → rank self.new p ≡ rank self.old p }
    {
        write(&mut self.groups, place.group, place.at, entry);
    }

    /// Some entries in the place of one, at least 1 and at most 128. The place of the first; places
    /// taken before are void. Takes memory for the whole group. Where it is refused, nothing is
    /// changed.
    pub fn replace(&mut self, place: Place, news: &[T]) -> Result<Place, AllocError>
        requires place { IsPlace self.old place }
        requires some { 0 < length news.now }
        requires few { length news.now ≤ 128 }
        ensures ok { IfOk result (IsReplaced self.old place news.now self.new) }
        ensures err { OnErr result (self.new ≡ self.old) }
    {
        if usize::MAX - self.count < NEWS_MAX {
            return Err(AllocError);
        }
        let put = replace_at(&mut self.groups, place, news)?;
        self.count = self.count - 1 + news.len();
        Ok(put)
    }

    /// The entries from a place on. `O(1)`, and each step too.
    #[inline(always)]
    pub fn walk(&self, place: Place) -> Walk<'_, T>
        requires { IsGap self.now place }
        ensures { result ≡ drop (rank self.now place) (entries self.now) }
    {
        let groups = self.groups.as_slice();
        if place.group == groups.len() {
            return Walk::over(&[], &[]);
        }
        let group = groups[place.group].as_slice();
        Walk::over(&group[place.at..], &groups[place.group + 1..])
    }
}
