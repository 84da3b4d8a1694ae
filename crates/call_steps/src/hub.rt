// What the sessions share beside the frames.

ghost use Rattle.std.specs.Prelude.{◌≡◌, option_map};
ghost use Rattle.tree_dir.specs.Leaves.{leaf_named};
ghost use Rattle.wt_calls.specs.Calls.{way_in};
ghost use Rattle.call_steps.specs.Tables.{leaf_sought, next_for, number_of, row_sought, sought, stage_for, stage_of};

use crate::frame::filled;
use crate::looks::start_of;
use crate::stage::{KeyCall, Stage, Target, Wanted};
use crate::state::SessionState;
use catalog::Catalog;
use failure::Fault;
use tree_dir::{Dir, Leaf};
use ts_rules::Stamps;
use txn_table::Txns;
use wt_calls::Way;

/// What the sessions share beside the frames.
#[derive(Drop)]
pub struct Hub {
    /// The transactions of the sessions.
    pub txns: Txns,
    /// The oldest and the stable stamp.
    pub stamps: Stamps,
    /// The tables.
    pub tables: Catalog,
    /// The leaves of all tables, and the frames that have them.
    pub dir: Dir,
    /// The write or sync that failed; none where the engine is up.
    pub fault: Option<Fault>,
}

/// The stage of the session's call at the leaf at which it begins; none where there is no table of its
/// name. `O(log n)` in the tables and in the leaves.
pub fn stage_of(tables: &Catalog, dir: &Dir, call: KeyCall, state: &SessionState) -> Option<Stage>
    ensures { result ≡ stage_of tables.now dir.now.leaves call state.now }
{
    match table_of(tables, state) {
        None => None,
        Some(table) => first_stage(dir, call, state, table),
    }
}

// The number of the table of the session's call.
fn table_of(tables: &Catalog, state: &SessionState) -> Option<u32>
    ensures { result ≡ number_of tables.now state.now.name }
{
    let place = tables.find(state.name.as_bytes())?;
    let table = tables.table(place)?;
    Some(table.number)
}

// That at the leaf of this table at which it begins.
fn first_stage(dir: &Dir, call: KeyCall, state: &SessionState, table: u32) -> Option<Stage>
    ensures { result ≡ option_map (stage_for call) (leaf_sought dir.now.leaves table (sought call state.now table)) }
{
    // What holds of every directory holds of this one.
    dir.stands();
    match leaf_for(dir, call, state, table) {
        None => None,
        Some(leaf) => stage_in(dir, call, leaf),
    }
}

/// The stage of a call at the next leaf on its way; none where there is none further on. `O(log n)` in
/// the leaves.
pub(crate) fn next_stage(dir: &Dir, call: KeyCall, leaf: u64) -> Option<Stage>
    ensures { result ≡ option_map (stage_for call) (next_for call leaf dir.now.leaves) }
{
    // What holds of every directory holds of this one.
    dir.stands();
    match next_leaf(dir, call, leaf) {
        None => None,
        Some(next) => stage_in(dir, call, next),
    }
}

/// The stage of a call at the leaf of this id; none where there is no such leaf. `O(1)`.
pub(crate) fn stage_in(dir: &Dir, call: KeyCall, leaf: u64) -> Option<Stage>
    ensures { result ≡ option_map (stage_for call) (leaf_named leaf dir.now.leaves) }
{
    let there = dir.leaf(leaf)?;
    Some(stage_at(call, there))
}

fn stage_at(call: KeyCall, leaf: &Leaf) -> Stage
    ensures { result ≡ stage_for call leaf.now }
{
    match leaf.frame {
        None => Stage::Fill(
            call,
            Wanted {
                table: leaf.table,
                leaf: leaf.id,
            },
        ),
        Some(framed) => Stage::Publish(
            call,
            Target {
                table: leaf.table,
                leaf: leaf.id,
                frame: framed.frame,
                word: filled(framed.generation),
            },
        ),
    }
}

fn leaf_for(dir: &Dir, call: KeyCall, state: &SessionState, table: u32) -> Option<u64>
    ensures { result ≡ option_map (λ l. l.id) (leaf_sought dir.now.leaves table (sought call state.now table)) }
{
    match call {
        KeyCall::Step(cursor, way) => {
            let start = start_of(state.cursors.as_slice(), cursor, table);
            leaf_of_row(dir, table, way, start)
        }
        _ => dir.leaf_for(table, state.key.as_bytes()),
    }
}

/// The id of the leaf in which a row is sought first; none where there is no such table. `O(log n)` in the
/// leaves.
pub fn leaf_of_row(dir: &Dir, table: u32, way: Way, start: Option<&[u8]>) -> Option<u64>
    ensures { result ≡ option_map (λ l. l.id) (leaf_sought dir.now.leaves table (row_sought (way_in way) (option_map (λ k. k.now) start.entry))) }
{
    match start {
        Some(key) => dir.leaf_for(table, key),
        None => match way {
            Way::Up => dir.leaf_for(table, b""),
            Way::Down => dir.last_leaf(table),
        },
    }
}

fn next_leaf(dir: &Dir, call: KeyCall, leaf: u64) -> Option<u64>
    ensures { result ≡ option_map (λ l. l.id) (next_for call leaf dir.now.leaves) }
{
    match call {
        KeyCall::Step(_, Way::Up) => dir.next_leaf(leaf),
        KeyCall::Step(_, Way::Down) => dir.prev_leaf(leaf),
        _ => None,
    }
}
