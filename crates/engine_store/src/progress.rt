//! How far the steps of a checkpoint that runs have come.

ghost use Rattle.std.specs.Prelude.{◌≡◌, ◌<◌, IfErr, IfOk, OnErr, nat_lt, option_copied, option_map};
ghost use Rattle.tree_dir.specs.Leaves.{leaf_behind};
ghost use Rattle.engine_world.specs.Stands.{Stands};
ghost use Rattle.engine_world.specs.Worlds.{World};
ghost use Rattle.engine_store.specs.Progress.{TakesOne, first_place, low_behind, next_low_of, place_of, remains_of};

use engine::{Local, RunningCheckpoint};
use failure::NoMemory;
use inner_page::Entry;
use item::Item;
use std::alloc::Global;
use tree_dir::Dir;
use wt_code::Refusal;

/// A checkpoint that runs, and how far its steps have come.
#[derive(Drop)]
pub struct Underway {
    /// The checkpoint.
    pub checkpoint: RunningCheckpoint,
    /// Where the next leaf is.
    pub progress: Progress,
}

/// Where the next leaf of a checkpoint is: each leaf of a table that was made before this one has been
/// taken, and of this one each leaf before that of the key. Leaves part and never become one, so that the
/// key is the empty one or the low key of a leaf.
#[derive(Drop)]
pub struct Progress {
    /// How many tables were made before its table.
    pub table: u32,
    /// The key whose leaf is the next one.
    pub key: Item,
}

/// What is left of a checkpoint behind a step of it.
#[derive(Clone, Copy, Debug, PartialEq, Eq)]
pub enum Remains {
    /// Another leaf.
    Left,
    /// None.
    End,
}

impl Underway {
    // One that starts: no leaf has been taken.
    pub(crate) fn begin(alloc: Global, checkpoint: RunningCheckpoint) -> Underway
        ensures checkpoint { result.checkpoint ≡ checkpoint }
        ensures progress { result.progress ≡ first_place }
    {
        Underway {
            checkpoint,
            progress: Progress {
                table: 0,
                key: Item::new(Vec::new(alloc)),
            },
        }
    }

    // Whether a leaf is left. `O(1)`, since each table has one.
    pub(crate) fn has_left(&self) -> bool
        ensures { result ≡ nat_lt self.now.progress.table self.now.checkpoint.tables }
    {
        self.progress.table < self.checkpoint.tables
    }

    // Takes the next leaf, where one is left. `O(log n)` in the leaves, and a copy of a key.
    pub(crate) fn take(&mut self, alloc: Global, engine: &Local) -> Result<Remains, Refusal>
        ensures taken { (w : World) → Stands engine.now w → TakesOne w.machine engine.now self.old self.new result }
        ensures checkpoint { self.new.checkpoint ≡ self.old.checkpoint }
        ensures same { OnErr result (self.new ≡ self.old) }
        ensures short { IfErr result (λ r. r ≡ Refusal.NoMemory) }
    {
        if !self.has_left() {
            return Ok(Remains::End);
        }
        match behind_next(alloc, engine, &self.progress, self.checkpoint.tables) {
            Err(_) => Err(Refusal::NoMemory),
            Ok(progress) => {
                self.progress = progress;
                Ok(self.remains())
            }
        }
    }

    // What is left.
    fn remains(&self) -> Remains
        ensures { result ≡ remains_of (nat_lt self.now.progress.table self.now.checkpoint.tables) }
    {
        if self.has_left() {
            Remains::Left
        } else {
            Remains::End
        }
    }
}

// Where the leaf behind the next one is, which is of one of so many tables.
fn behind_next(
    alloc: Global,
    engine: &Local,
    progress: &Progress,
    tables: u32,
) -> Result<Progress, NoMemory>
    requires { progress.now.table < tables }
    ensures { IfOk result (λ next. next ≡ place_of progress.now (next_low_of engine.now progress.now)) }
{
    match next_key(engine, progress) {
        Some(key) => Ok(Progress {
            table: progress.table,
            key: key.copy()?,
        }),
        None => Ok(Progress {
            table: progress.table + 1,
            key: Item::new(Vec::new(alloc)),
        }),
    }
}

// The low key of the leaf behind the next one, where its table has such a leaf.
fn next_key<'a>(engine: &'a Local, progress: &Progress) -> Option<&'a Item>
    ensures { option_map (λ k. k.now) result ≡ next_low_of engine.now progress.now }
{
    match engine.tables().table(progress.table) {
        None => None,
        Some(table) => low_behind(engine.leaves(), table.number, &progress.key),
    }
}

// The low key of the leaf behind the one of a table that has a key.
fn low_behind<'a>(leaves: &'a Dir, table: u32, key: &Item) -> Option<&'a Item>
    ensures { option_map (λ k. k.now) result ≡ low_behind table key.now leaves.now.leaves }
{
    match leaves.leaf_for(table, key.as_bytes()) {
        None => None,
        Some(leaf) => low_of(behind(leaves, leaf)),
    }
}

// The entry of the leaf behind the one of this id in its table.
fn behind(leaves: &Dir, leaf: u64) -> Option<&Entry>
    ensures { option_map (λ e. e.now) result ≡ option_map (λ l. l.entry) (leaf_behind leaf leaves.now.leaves) }
{
    leaves.stands();
    match leaves.next_leaf(leaf) {
        None => None,
        Some(next) => leaves.entry(next),
    }
}

fn low_of(entry: Option<&Entry>) -> Option<&Item>
    ensures { option_map (λ k. k.now) result ≡ option_map (λ e. e.now.key) entry.entry }
{
    match entry {
        None => None,
        Some(entry) => Some(&entry.key),
    }
}

// The checkpoint of what runs.
pub(crate) fn checkpoint_in(running: &Option<Underway>) -> Option<&RunningCheckpoint>
    ensures { option_copied result ≡ option_map (λ u. u.checkpoint) running.now }
{
    match running {
        None => None,
        Some(running) => Some(&running.checkpoint),
    }
}
