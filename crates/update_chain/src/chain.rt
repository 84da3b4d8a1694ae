//! Chains of updates.

ghost use Rattle.std.specs.Prelude.{◌≡◌, ◌↔◌, [], ◌∷◌, length, take, slice_get, option_copied, IsTrue, OnOk, OnErr, if◌then◌else◌};
ghost use Rattle.snapshot.specs.Sight.{IsSight, sight_of};
ghost use Rattle.update_chain.specs.Looks.{reply_in};
ghost use Rattle.update_chain.specs.Updates.{does_front_stay, front_changed, installed, is_led_by, is_named, stamped, marked, undone, read_of, rolled_back, trimmed};
ghost use Rattle.update_chain.specs.Writing.{judgement_of};

use crate::look::{Judgement, Read, answer, covers, decides, is_same, is_stable, judge_update};
use crate::update::Update;
use failure::NoMemory;
use stamp::{Name, View};
use std::alloc::Global;
use std::collections::VecDeque;
use std::marker::Model;
use std::mem::replace;

/// The updates of a key, newest first. A chain of one update takes no memory of its own.
#[derive(Drop)]
pub struct Chain {
    // None where the chain is empty.
    newest: Option<Update>,
    // The others, newest first.
    older: VecDeque<Update>,
}

impl Model for Chain {
    ghost use Rattle.std.specs.Prelude.{◌≡◌, List, [], ◌++◌, IfNone};
    ghost use Rattle.std.specs.Option.{option_to_list};
    ghost use Rattle.update_chain.specs.declared.update.Update.{Update};

    ghost Value = { List Update };

    ghost view = { λ c. option_to_list c.newest ++ c.older.items };

    ghost invariant = { λ c. IfNone c.newest (c.older.items ≡ []) };
}

impl Chain {
    /// A chain without updates. Takes no memory.
    pub fn new(alloc: Global) -> Chain
        ensures { result ≡ [] }
    {
        Chain {
            newest: None,
            older: VecDeque::new(alloc),
        }
    }

    /// A chain of this update alone. Takes no memory. `O(1)`.
    pub fn of(alloc: Global, update: Update) -> Chain
        ensures { result ≡ update ∷ [] }
    {
        Chain {
            newest: Some(update),
            older: VecDeque::new(alloc),
        }
    }

    /// The number of its updates.
    pub fn len(&self) -> usize
        ensures { result ≡ length self.now }
    {
        match &self.newest {
            None => 0,
            Some(_) => self.older.len() + 1,
        }
    }

    /// Whether it has no updates.
    pub fn is_empty(&self) -> bool
        ensures { IsTrue result ↔ (length self.now ≡ 0) }
    {
        self.newest.is_none()
    }

    /// The update at this place, the newest at 0.
    pub fn get(&self, place: usize) -> Option<&Update>
        ensures { option_copied result ≡ slice_get self.now place }
    {
        match &self.newest {
            None => None,
            Some(newest) => match place {
                0 => Some(newest),
                _ => self.older.get(place - 1),
            },
        }
    }

    /// The newest update. `O(1)`.
    pub fn newest(&self) -> Option<&Update>
        ensures { option_copied result ≡ slice_get self.now 0 }
    {
        match &self.newest {
            None => None,
            Some(newest) => Some(newest),
        }
    }

    /// Whether a write of the key by the transaction that lends the view is allowed: where the
    /// newest update is its own, or is not marked, seen and admitted. Refused for the newest update
    /// otherwise. Takes no memory. `O(log r)`, with r ids that the view lists.
    pub fn judge(&self, view: &View<'_>) -> Judgement
        requires { IsSight (sight_of view.now) }
        ensures { result ≡ judgement_of view.now self.now }
    {
        match &self.newest {
            None => Judgement::Allowed,
            Some(newest) => judge_update(view, newest),
        }
    }

    /// Puts an update on top, in place of the newest one where that is of the same transaction.
    /// Takes memory where the chain has an update of another. `O(1)`.
    #[inline(always)]
    pub fn install(&mut self, update: Update) -> Result<(), NoMemory>
        ensures installed { OnOk result (self.new ≡ installed update self.old) }
        ensures kept { OnErr result (self.new ≡ self.old) }
    {
        if self.is_empty() || self.is_led_by(update.version.window.name) {
            self.newest = Some(update);
            return Ok(());
        }
        if let Err(_) = self.older.reserve(1) {
            return Err(NoMemory);
        }
        if let Some(newest) = replace(&mut self.newest, Some(update)) {
            self.older.push_front_reserved(newest);
        }
        Ok(())
    }

    /// Commits the newest update at these stamps, where it is of this transaction: its mark goes.
    /// Takes no memory. `O(1)`.
    pub fn stamp(&mut self, name: Name, commit: u64, durable: u64)
        ensures { self.new ≡ front_changed name (stamped commit durable) self.old }
    {
        if let Some(newest) = &mut self.newest {
            stamp_one(newest, name, commit, durable);
        }
    }

    /// Marks the newest update as prepared at this stamp, where it is of this transaction. Takes
    /// no memory. `O(1)`.
    pub fn mark_prepared(&mut self, name: Name, prepare: u64)
        ensures { self.new ≡ front_changed name (marked prepare) self.old }
    {
        if let Some(newest) = &mut self.newest {
            mark_one(newest, name, prepare);
        }
    }

    /// Takes the newest update out, where it is of this transaction. Takes no memory. `O(1)`.
    pub fn undo(&mut self, name: Name)
        ensures { self.new ≡ undone name self.old }
    {
        if self.is_led_by(name) {
            self.newest = self.older.pop_front();
        }
    }

    /// What a read of the key answers by this chain: by its own update; else by the newest update
    /// that the view sees and its read stamp admits, a conflict where that is prepared. Takes no
    /// memory. `O(k log r)`, with k updates down to that one and r ids that the view lists.
    #[inline(always)]
    pub fn read(&self, view: &View<'_>) -> Read<'_>
        requires { IsSight (sight_of view.now) }
        ensures { reply_in result ≡ read_of view.now self.now }
    {
        match &self.newest {
            None => Read::Older,
            Some(newest) => {
                if decides(view, newest) {
                    answer(view, newest)
                } else {
                    read_older(&self.older, view)
                }
            }
        }
    }

    /// Drops what is out of reach: all updates older than the newest that is committed, durable at
    /// the pin stamp and of a name below the floor. Takes no memory. `O(n)` in the updates.
    pub fn trim(&mut self, pin: u64, floor: Name)
        ensures { self.new ≡ trimmed pin floor self.old }
    {
        let is_cover = match &self.newest {
            None => false,
            Some(newest) => covers(newest, pin, floor),
        };
        let kept = match is_cover {
            true => 0,
            false => covered_from(&self.older, pin, floor),
        };
        self.older.truncate(kept);
    }

    /// Rolls back to stable: keeps the updates that are durable at the stable stamp, or all where
    /// that is 0. Takes no memory. `O(n)` in the updates.
    pub fn roll_back_to_stable(&mut self, stable: u64)
        ensures { self.new ≡ rolled_back stable self.old }
    {
        keep_stable(&mut self.older, stable);
        if !does_front_stay(&self.newest, stable) {
            self.newest = self.older.pop_front();
        }
    }

    // Whether the newest update is of this transaction.
    fn is_led_by(&self, name: Name) -> bool
        ensures { result ≡ is_led_by name self.now }
    {
        match &self.newest {
            None => false,
            Some(newest) => is_same(newest.version.window.name, name),
        }
    }
}

fn keep_stable(updates: &mut VecDeque<Update>, stable: u64)
    ensures { updates.new.items ≡ rolled_back stable updates.old.items }
{
    updates.retain(|update| is_stable(update, stable));
}

// Whether a rollback to this stable stamp leaves the front as it is, where there is one.
fn does_front_stay(front: &Option<Update>, stable: u64) -> bool
    ensures { result ≡ does_front_stay stable front.now }
{
    match front {
        None => true,
        Some(update) => is_stable(update, stable),
    }
}

// What a read answers by the updates below the newest.
fn read_older<'a>(older: &'a VecDeque<Update>, view: &View<'_>) -> Read<'a>
    requires { IsSight (sight_of view.now) }
    ensures { reply_in result ≡ read_of view.now older.now.items }
{
    for i in 0..older.len() {
        let update = &older[i];
        if decides(view, update) {
            return answer(view, update);
        }
    }
    Read::Older
}

fn stamp_one(update: &mut Update, name: Name, commit: u64, durable: u64)
    ensures { update.new ≡ (if is_named name update.old then stamped commit durable update.old else update.old) }
{
    if is_same(update.version.window.name, name) {
        update.version.window.commit = commit;
        update.version.window.durable = durable;
        update.prepared = 0;
    }
}

fn mark_one(update: &mut Update, name: Name, prepare: u64)
    ensures { update.new ≡ (if is_named name update.old then marked prepare update.old else update.old) }
{
    if is_same(update.version.window.name, name) {
        update.prepared = prepare;
    }
}

// How many updates there are down to the newest that covers.
fn covered_from(updates: &VecDeque<Update>, pin: u64, floor: Name) -> usize
    ensures { take result updates.now.items ≡ trimmed pin floor updates.now.items }
{
    for i in 0..updates.len() {
        if covers(&updates[i], pin, floor) {
            return i + 1;
        }
    }
    updates.len()
}
