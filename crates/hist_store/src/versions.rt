//! The versions of a key.

ghost use Rattle.std.specs.Prelude.{◌≡◌, ◌↔◌, ◌≤◌, [], ◌∷◌, length, take, find, slice_get, option_copied, IfOk, IsTrue, MatchOption, OnOk, OnErr};
ghost use Rattle.std.specs.List.{insert};
ghost use Rattle.snapshot.specs.Sight.{IsSight, sight_of};
ghost use Rattle.hist_store.specs.Versions.{is_admitted, swept_versions, with_version};

use crate::names::{is_admitted, is_past, is_same};
use failure::NoMemory;
use item::Change;
use stamp::{Name, Version, View};
use std::alloc::Global;
use std::collections::VecDeque;
use std::marker::Model;

/// The versions of a key, newest first.
#[derive(Drop)]
pub struct Versions {
    // Newest first.
    versions: VecDeque<Version<Change>>,
}

impl Model for Versions {
    ghost use Rattle.std.specs.Prelude.{List};
    ghost use Rattle.item.specs.declared.Change.{Change};
    ghost use Rattle.stamp.specs.declared.Version.{Version};

    ghost Value = { List (Version Change) };

    ghost view = { λ v. v.versions.items };
}

impl Versions {
    // This version alone. One allocation.
    pub(crate) fn of(alloc: Global, version: Version<Change>) -> Result<Versions, NoMemory>
        ensures { IfOk result (λ v. v ≡ version ∷ []) }
    {
        let mut versions = VecDeque::with_capacity(alloc, 1)?;
        versions.push_front_reserved(version);
        Ok(Versions { versions })
    }

    /// The number of them. `O(1)`.
    pub fn len(&self) -> usize
        ensures { result ≡ length self.now }
    {
        self.versions.len()
    }

    /// Whether there are none. `O(1)`.
    pub fn is_empty(&self) -> bool
        ensures { IsTrue result ↔ (length self.now ≡ 0) }
    {
        self.versions.is_empty()
    }

    /// The version at this place, the newest at 0. `O(1)`.
    pub fn get(&self, place: usize) -> Option<&Version<Change>>
        ensures { option_copied result ≡ slice_get self.now place }
    {
        self.versions.get(place)
    }

    /// The newest version that the snapshot sees and the read stamp admits. Takes no memory.
    /// `O(k log r)`, with k versions down to that one and r ids that the view lists.
    pub fn newest(&self, view: &View<'_>) -> Option<&Version<Change>>
        requires { IsSight (sight_of view.now) }
        ensures { option_copied result ≡ find (is_admitted view.now) self.now }
    {
        newest_in(&self.versions, view)
    }

    // Puts a version among the others, or leaves all where its name is there. Where memory is
    // short, nothing is changed. `O(1)` where it is newer than all, `O(k)` with k that are newer.
    pub(crate) fn add(&mut self, version: Version<Change>) -> Result<(), NoMemory>
        ensures added { OnOk result (self.new ≡ with_version version self.old) }
        ensures kept { OnErr result (self.new ≡ self.old) }
    {
        match gap_for(&self.versions, &version) {
            None => Ok(()),
            Some(gap) => match self.versions.insert(gap, version) {
                Ok(()) => Ok(()),
                Err(_) => Err(NoMemory),
            },
        }
    }

    // Drops all below the newest that is past. Takes no memory. `O(k)` with k versions down to it.
    pub(crate) fn sweep(&mut self, pin: u64, floor: Name)
        ensures { self.new ≡ swept_versions pin floor self.old }
    {
        let kept = kept_by(&self.versions, pin, floor);
        self.versions.truncate(kept);
    }
}

fn newest_in<'a>(
    versions: &'a VecDeque<Version<Change>>,
    view: &View<'_>,
) -> Option<&'a Version<Change>>
    requires { IsSight (sight_of view.now) }
    ensures { option_copied result ≡ find (is_admitted view.now) versions.now.items }
{
    for i in 0..versions.len() {
        let version = &versions[i];
        if is_admitted(view, version) {
            return Some(version);
        }
    }
    None
}

// How many versions are newer than this one; none where its name is there.
fn gap_for(versions: &VecDeque<Version<Change>>, version: &Version<Change>) -> Option<usize>
    ensures { let all = versions.now.items in MatchOption result (with_version version.now all ≡ all) (λ i. (i ≤ length all) × (with_version version.now all ≡ insert all i version.now)) }
{
    let name = version.window.name;
    for i in 0..versions.len() {
        let there = versions[i].window.name;
        if there.is_before(name) {
            return Some(i);
        }
        if is_same(there, name) {
            return None;
        }
    }
    Some(versions.len())
}

// How many versions there are down to the newest that is past.
fn kept_by(versions: &VecDeque<Version<Change>>, pin: u64, floor: Name) -> usize
    ensures { take result versions.now.items ≡ swept_versions pin floor versions.now.items }
{
    for i in 0..versions.len() {
        if is_past(&versions[i], pin, floor) {
            return i + 1;
        }
    }
    versions.len()
}
