//! The snapshot of a transaction.

ghost use Rattle.std.specs.Prelude.{◌≡◌, ◌<◌, ◌≤◌, ℕ, IfOk, length, [], vec_capacity, vec_len};
ghost use Rattle.snapshot.specs.Sight.{Ascends, IsSight, counting, is_seen, least_or, sight_at, sight_of, with_id};

use crate::sight::is_seen_among;
use failure::NoMemory;
use stamp::{Name, View};
use std::alloc::Global;
use std::marker::Model;

/// Which transactions a reader sees: those of earlier runs, and of its own run those whose id was
/// drawn and not running when the snapshot was taken.
#[derive(Drop)]
pub struct Snapshot {
    run: u64,
    min: u64,
    max: u64,
    // Ascending, from `min` on and below `max`.
    list: Vec<u64>,
}

impl Model for Snapshot {
    ghost use Rattle.std.specs.Prelude.{vec_capacity, vec_len};
    ghost use Rattle.snapshot.specs.Sight.{SnapshotValue, IsSight};

    ghost Value = { SnapshotValue };

    ghost view = { λ s.
        record {
          sight = record { run = s.run; min = s.min; max = s.max; list = s.list.items };
          room = vec_capacity s.list;
        } };

    ghost invariant = { λ s.
        IsSight (record { run = s.run; min = s.min; max = s.max; list = s.list.items }) };
}

impl Snapshot {
    /// A snapshot that sees nothing but earlier runs than `run`, with room for this many running
    /// ids. One allocation.
    pub fn new(alloc: Global, run: u64, room: usize) -> Result<Snapshot, NoMemory>
        ensures sight { IfOk result (λ s. s.sight ≡ sight_at run 1 []) }
        ensures room { IfOk result (λ s. room ≤ s.room) }
    {
        Ok(Snapshot {
            run,
            min: 1,
            max: 1,
            list: Vec::with_capacity(alloc, room)?,
        })
    }

    /// Takes the snapshot anew: in this run, with its next id and the ids that are running, which
    /// ascend. Takes no memory. One copy of the ids.
    pub fn fill(&mut self, run: u64, next: u64, running: &[u64])
        requires ascending { Ascends 1 running.now next }
        requires room { length running.now ≤ self.old.room }
        ensures sight { self.new.sight ≡ sight_at run next running.now }
        ensures room { self.old.room ≤ self.new.room }
    {
        self.run = run;
        self.min = least(running, next);
        self.max = next;
        replace_all(&mut self.list, running);
    }

    /// Takes the snapshot that a view lends. Takes no memory. One copy of the ids.
    pub fn copy_from(&mut self, view: &View<'_>)
        requires lent { IsSight (sight_of view.now) }
        requires room { length view.now.list.now ≤ self.old.room }
        ensures sight { self.new.sight ≡ sight_of view.now }
        ensures room { self.old.room ≤ self.new.room }
    {
        self.run = view.run;
        self.min = view.min;
        self.max = view.max;
        replace_all(&mut self.list, view.list);
    }

    /// Counts one more id of its run as running, one that was drawn. Takes no memory. `O(log n)` in
    /// the ids that count as running, and one move of those above.
    pub fn count_running(&mut self, id: u64)
        requires from_one { 1 ≤ id }
        requires drawn { id < self.old.sight.max }
        requires room { length self.old.sight.list < self.old.room }
        ensures sight { self.new.sight ≡ counting self.old.sight id }
        ensures room { self.old.room ≤ self.new.room }
    {
        list_too(&mut self.list, id);
        self.min = least(&self.list, self.max);
    }

    /// Whether it sees this name. `O(log n)` in the ids that were running.
    pub fn sees(&self, name: Name) -> bool
        ensures { result ≡ is_seen self.now.sight name }
    {
        is_seen_among(self.run, self.min, self.max, self.list.as_slice(), name)
    }

    /// Lends it to a look-up, with the reader's own id and its read stamp, 0 for none of either.
    pub fn view(&self, own: u64, read: u64) -> View<'_>
        ensures sight { sight_of result ≡ self.now.sight }
        ensures own { result.own ≡ own }
        ensures read { result.read ≡ read }
        ensures lent { IsSight (sight_of result) }
    {
        View {
            run: self.run,
            own,
            min: self.min,
            max: self.max,
            list: self.list.as_slice(),
            read,
        }
    }

    /// The id below which it sees every name of its run: the least id that was running, or the
    /// next one where none was.
    pub fn min(&self) -> u64
        ensures { result ≡ self.now.sight.min }
    {
        self.min
    }
}

// Puts other ids in the place of these, for which there is room.
fn replace_all(ids: &mut Vec<u64>, others: &[u64])
    requires { length others.now ≤ vec_capacity ids.old }
    ensures items { ids.new.items ≡ others.now }
    ensures room { vec_capacity ids.old ≤ vec_capacity ids.new }
{
    ids.clear();
    let _copied = ids.extend_from_slice(others);
}

// The least of some ids, which ascend, or the next one where there are none.
fn least(ids: &[u64], next: u64) -> u64
    ensures { result ≡ least_or next ids.now }
{
    match ids.first() {
        None => next,
        Some(least) => *least,
    }
}

// Puts an id among these, which ascend, where it is not there.
fn list_too(ids: &mut Vec<u64>, id: u64)
    requires ascending { (high : ℕ) × Ascends 0 ids.old.items high }
    requires room { vec_len ids.old < vec_capacity ids.old }
    ensures items { ids.new.items ≡ with_id ids.old.items id }
    ensures room { vec_capacity ids.old ≤ vec_capacity ids.new }
{
    if let Err(place) = ids.binary_search(&id) {
        let _inserted = ids.insert(place, id);
    }
}
