// Rows of one leaf, read together. A function calls the laws that its proof rests on, which do nothing.

ghost use Rattle.std.specs.Prelude.{◌≡◌, ◌<◌, ◌≤◌, ℕ, false, List, [], Some, length, option_copied, option_map, slice_get, IfErr, IfOk, OnErr, OnOk};
ghost use Rattle.wt_code.specs.declared.answers.Answer.TheVariants as answers;
ghost use Rattle.kv_model.specs.Calls.{NextRow};
ghost use Rattle.kv_model.specs.History.{tables};
ghost use Rattle.snapshot.specs.Sight.{IsSight, sight_of};
ghost use Rattle.wt_calls.specs.Calls.{way_in};
ghost use Rattle.call_steps.specs.State.{State};
ghost use Rattle.call_steps.specs.Tables.{leaf_sought, row_sought};
ghost use Rattle.engine_world.specs.Laws.{with_session};
ghost use Rattle.engine_world.specs.Stands.{Stands};
ghost use Rattle.engine_world.specs.Worlds.{World};
ghost use Rattle.engine.specs.Reads.{IsNameOf};
ghost use Rattle.engine.specs.RowReads.{AreNearest, GivesNoRow, NoneNearest, RowCalled, RowsCalled, RowsRead, stands_at, start_behind};
ghost use Rattle.engine.specs.Sound.{IsSound, Keeps};
ghost use Rattle.engine.specs.Told.{KeepOwn};
ghost use Rattle.engine.specs.Whole.{MayCall};

use crate::batch::RowBatch;
use crate::local::Local;
use crate::parts::Parts;
use crate::reads::refused_first;
use call_steps::{RowFound, leaf_of_row, next_row, walk_near};
use failure::NoMemory;
use leaf_frame::{LeafFrame, held_reads_stand};
use stamp::View;
use std::alloc::Global;
use tree_dir::{Dir, Leaf};
use update_chain::chains_go_on;
use wt_calls::Way;
use wt_code::Refusal;

impl Local {
    /// The next rows of a cursor in the table of this number, up to so many: those of the leaf at which
    /// the next one is sought, as so many calls `SessionCall::Step` answer them one after the other. Each
    /// is copied once, into the batch in place of what that had, and the cursor stands on the last. A
    /// batch that is not full has all that the leaf has up to a conflict: what comes then, in the next
    /// leaf or in one that is in no frame, is told by `call`. A refusal is that of such a call; then there
    /// are no rows, and nothing is changed. `O(log n)` comparisons with n keys of the leaf, and on the way
    /// up a few where the cursor stands on the last row that was read into this batch; then `O(1)` for each
    /// row of its page and as many for each key that has updates.
    pub fn next_rows(
        &mut self,
        alloc: Global,
        session: u32,
        cursor: u32,
        table: u32,
        way: Way,
        most: usize,
        rows: &mut RowBatch,
    ) -> Result<(), Refusal>
        requires { session < length self.old.sessions }
        ensures rows { (w : World) (name : List ℕ) → Stands self.old w → IsNameOf (tables w.machine.history) table name → OnOk result ((later : World) × RowsCalled w session cursor name (way_in way) rows.new later × Stands self.new later) }
        ensures refused { (w : World) (name : List ℕ) → Stands self.old w → IsNameOf (tables w.machine.history) table name → IfErr result (λ r. MayCall w session (NextRow cursor name (way_in way)) (answers.Refused r) w) }
        ensures kept { OnErr result (self.new ≡ self.old) }
        ensures none { OnErr result (rows.new ≡ []) }
        ensures few { length rows.new ≤ most }
        ensures all { (w : World) → Stands self.old w → OnOk result (length rows.new < most → GivesNoRow self.new session cursor table (way_in way)) }
        ensures hub { self.new.hub ≡ self.old.hub }
        ensures sessions { length self.new.sessions ≡ length self.old.sessions }
        ensures own { KeepOwn self.old self.new }
    {
        self.parts
            .next_rows(alloc, session, cursor, table, way, most, rows)
    }

    /// The next row of a cursor alone, as by `next_rows`: whether the leaf has one. `O(log n)`
    /// comparisons with n keys of the leaf, or a few, as there.
    pub fn next_into(
        &mut self,
        alloc: Global,
        session: u32,
        cursor: u32,
        table: u32,
        way: Way,
        row: &mut RowBatch,
    ) -> Result<bool, Refusal>
        requires { session < length self.old.sessions }
        ensures row { (w : World) (name : List ℕ) → Stands self.old w → IsNameOf (tables w.machine.history) table name → IfOk result (λ found. (later : World) × RowCalled found w session cursor name (way_in way) row.new later × Stands self.new later) }
        ensures refused { (w : World) (name : List ℕ) → Stands self.old w → IsNameOf (tables w.machine.history) table name → IfErr result (λ r. MayCall w session (NextRow cursor name (way_in way)) (answers.Refused r) w) }
        ensures kept { OnErr result (self.new ≡ self.old) }
        ensures none { (w : World) → Stands self.old w → IfOk result (λ found. found ≡ false → GivesNoRow self.new session cursor table (way_in way)) }
        ensures hub { self.new.hub ≡ self.old.hub }
        ensures sessions { length self.new.sessions ≡ length self.old.sessions }
        ensures own { KeepOwn self.old self.new }
    {
        self.next_rows(alloc, session, cursor, table, way, 1, row)?;
        if row.len() == 0 {
            return Ok(false);
        }
        Ok(true)
    }
}

impl Parts {
    fn next_rows(
        &mut self,
        alloc: Global,
        session: u32,
        cursor: u32,
        table: u32,
        way: Way,
        most: usize,
        rows: &mut RowBatch,
    ) -> Result<(), Refusal>
        requires open { session < length self.old.sessions }
        requires sound { IsSound self.old }
        ensures rows { (w : World) (name : List ℕ) → Stands self.old w → IsNameOf (tables w.machine.history) table name → OnOk result ((later : World) × RowsCalled w session cursor name (way_in way) rows.new later × Stands self.new later) }
        ensures refused { (w : World) (name : List ℕ) → Stands self.old w → IsNameOf (tables w.machine.history) table name → IfErr result (λ r. MayCall w session (NextRow cursor name (way_in way)) (answers.Refused r) w) }
        ensures kept { OnErr result (self.new ≡ self.old) }
        ensures none { OnErr result (rows.new ≡ []) }
        ensures few { length rows.new ≤ most }
        ensures all { (w : World) → Stands self.old w → OnOk result (length rows.new < most → GivesNoRow self.new session cursor table (way_in way)) }
        ensures hub { self.new.hub ≡ self.old.hub }
        ensures keeps { Keeps self.old self.new }
    {
        held_reads_stand();
        chains_go_on();
        rows.clear();
        if let Err(refusal) = self.read_rows(session, cursor, table, way, most, rows) {
            rows.clear();
            return Err(refusal);
        }
        let Some(last) = rows.last() else {
            return Ok(());
        };
        if let Err(NoMemory) = self.stand_at(alloc, session, cursor, table, last.key) {
            rows.clear();
            return Err(Refusal::NoMemory);
        }
        Ok(())
    }

    // A cursor of a session stands at this key. Where memory is short, nothing is changed.
    fn stand_at(
        &mut self,
        alloc: Global,
        session: u32,
        cursor: u32,
        table: u32,
        key: &[u8],
    ) -> Result<(), NoMemory>
        requires { session < length self.old.sessions }
        ensures stands { OnOk result ((a : State) → slice_get self.old.sessions session ≡ Some a → self.new ≡ with_session self.old session (stands_at cursor table key.now a)) }
        ensures kept { OnErr result (self.new ≡ self.old) }
    {
        self.sessions[session as usize].stand_at(alloc, cursor, table, key)
    }

    // Reads rows of the leaf at which the next one is sought into the batch, which has none.
    fn read_rows(
        &self,
        session: u32,
        cursor: u32,
        table: u32,
        way: Way,
        most: usize,
        rows: &mut RowBatch,
    ) -> Result<(), Refusal>
        requires open { session < length self.now.sessions }
        requires sound { IsSound self.now }
        requires empty { rows.old ≡ [] }
        ensures read { (a : State) → slice_get self.now.sessions session ≡ Some a → RowsRead self.now session a cursor table (way_in way) most result rows.new }
        ensures few { length rows.new ≤ most }
    {
        let state = &self.sessions[session as usize];
        if let Some(refusal) = refused_first(&self.hub, state, b"") {
            return Err(refusal);
        }
        if cursor as usize >= state.cursors() {
            return Ok(());
        }
        let from = state.start_on(cursor, table);
        let Some(leaf) = leaf_sought(&self.hub.dir, table, way, from) else {
            return Err(Refusal::NoTable);
        };
        let Some(framed) = leaf.frame else {
            return Ok(());
        };
        let Some(leaf) = self.leaf_in(framed.frame) else {
            return Err(Refusal::CacheFull);
        };
        match self.hub.txns.view(session) {
            None => Err(Refusal::CacheFull),
            Some(view) => match copy_rows(leaf, &view, way, from, most, rows) {
                Ok(()) => Ok(()),
                Err(NoMemory) => Err(Refusal::NoMemory),
            },
        }
    }
}

// The leaf in which a row is sought first.
fn leaf_sought<'a>(dir: &'a Dir, table: u32, way: Way, start: Option<&[u8]>) -> Option<&'a Leaf>
    ensures { option_copied result ≡ leaf_sought dir.now.leaves table (row_sought (way_in way) (option_map (λ k. k.now) start.entry)) }
{
    // What holds of every directory holds of this one.
    dir.stands();
    let id = leaf_of_row(dir, table, way, start)?;
    dir.leaf(id)
}

// Copies the nearest rows on the way into the batch, one behind the other, up to so many or to a
// conflict.
fn copy_rows<'a>(
    leaf: &'a LeafFrame,
    view: &View<'_>,
    way: Way,
    from: Option<&'a [u8]>,
    most: usize,
    rows: &mut RowBatch,
) -> Result<(), NoMemory>
    requires sight { IsSight (sight_of view.now) }
    requires empty { rows.old ≡ [] }
    ensures near { OnOk result (AreNearest view.now (way_in way) (option_map (λ k. k.now) from.entry) leaf.now rows.new) }
    ensures ends { OnOk result (length rows.new < most → NoneNearest view.now (way_in way) (start_behind (option_map (λ k. k.now) from.entry) rows.new) leaf.now) }
    ensures few { length rows.new ≤ most }
{
    let mut walk = walk_near(leaf, way, from, rows.hint());
    while rows.len() < most {
        match next_row(&mut walk, view) {
            RowFound::Row(key, value) => rows.push(key, value)?,
            _ => return Ok(()),
        }
    }
    rows.keep_hint(walk.place());
    Ok(())
}
