// Looks at a leaf.

ghost use Rattle.std.specs.Prelude.{◌≡◌, Bool, [], None, Some, IfOk, OnOk, OnErr, option_copied, option_map};
ghost use Rattle.snapshot.specs.Sight.{IsSight, sight_of};
ghost use Rattle.reconcile.specs.Shows.{shown_at};
ghost use Rattle.update_chain.specs.Updates.{installed, is_led_by};
ghost use Rattle.update_chain.specs.Writing.{newest_of};
ghost use Rattle.leaf_chains.specs.Slots.{chain_at, slot_changed, slot_of};
ghost use Rattle.leaf_frame.specs.Looks.{read_at, version_seen};
ghost use Rattle.wt_calls.specs.Calls.{way_in};
ghost use Rattle.call_steps.specs.Leaves.{chain_in};
ghost use Rattle.call_steps.specs.Looks.{own_name, conflicts, free_or_unmet, found_over, is_put, noted, write_found, ReadBy, update_by, AcceptedBy, WrittenBy, SteppedBy, LookedBy, from_of, start_in};
ghost use Rattle.call_steps.specs.SlotLooks.{IsAddedTo, IsBy, IsNoted};

use crate::cursor::Cursor;
use crate::rows::{Stepped, find_row, item_of, row_copied};
use crate::stage::{KeyCall, Stage, Target};
use crate::state::SessionState;
use crate::written::WrittenKey;
use failure::NoMemory;
use item::{Change, Item};
use leaf_chains::{Added, LeafChains};
use leaf_frame::{FrameRead, LeafFrame, judge_row};
use row_page::{Cell, CellChange};
use stamp::{Name, Version, View, Window};
use std::alloc::Global;
use std::mem::replace;
use txn_table::Phase;
use update_chain::{Chain, Judgement, Update, judge_update};
use wt_calls::{Demand, Way};
use wt_code::{Answer, Refusal};

impl SessionState {
    // A look at a leaf. A read copies the value, a write moves its own; `O(log n)` comparisons with
    // n keys and rows, and for a row as many for each key that is passed as absent.
    pub(crate) fn look(
        &mut self,
        alloc: Global,
        leaf: &mut LeafFrame,
        view: &View<'_>,
        call: KeyCall,
        target: Target,
    )
        requires { IsSight (sight_of view.now) }
        ensures { LookedBy call view.now target leaf.old self.old leaf.new self.new }
    {
        // Beside a get, what is done is not inlined: its locals would be cleared at each look.
        match call {
            KeyCall::Get => self.get(alloc, leaf, view, target),
            KeyCall::Put(demand) => self.put(alloc, leaf, view, target, demand),
            KeyCall::Remove => self.remove(alloc, leaf, view, target),
            KeyCall::Seek(cursor) => self.seek(alloc, leaf, view, target, cursor),
            KeyCall::Step(cursor, way) => self.step(alloc, leaf, view, target, cursor, way),
        }
    }

    // A read that moves no cursor.
    #[inline(always)]
    fn get(&mut self, alloc: Global, leaf: &LeafFrame, view: &View<'_>, target: Target)
        requires { IsSight (sight_of view.now) }
        ensures { ReadBy (read_at view.now self.old.key leaf.now) KeyCall.Get target self.old self.new }
    {
        let call = KeyCall::Get;
        match leaf.read(self.key.as_bytes(), view) {
            FrameRead::Found(value) => match item_of(alloc, value) {
                Ok(value) => self.clear(call, target, Answer::Value(value)),
                Err(_) => self.clear(call, target, Answer::Refused(Refusal::NoMemory)),
            },
            FrameRead::Removed => self.clear(call, target, Answer::Refused(Refusal::NotFound)),
            FrameRead::Conflict(id) => {
                self.clear(
                    call,
                    target,
                    Answer::Refused(Refusal::PrepareConflict { id }),
                );
            }
            FrameRead::Older => self.go_to(Stage::History(call, target)),
        }
    }

    #[inline(never)]
    fn seek(
        &mut self,
        alloc: Global,
        leaf: &LeafFrame,
        view: &View<'_>,
        target: Target,
        cursor: u32,
    )
        requires { IsSight (sight_of view.now) }
        ensures { ReadBy (read_at view.now self.old.key leaf.now) (KeyCall.Seek cursor) target self.old self.new }
    {
        let call = KeyCall::Seek(cursor);
        match leaf.read(self.key.as_bytes(), view) {
            FrameRead::Found(value) => match item_of(alloc, value) {
                Ok(value) => self.answer(call, target, Answer::Value(value)),
                Err(_) => self.answer(call, target, Answer::Refused(Refusal::NoMemory)),
            },
            FrameRead::Removed => self.answer(call, target, Answer::Refused(Refusal::NotFound)),
            FrameRead::Conflict(id) => {
                self.answer(
                    call,
                    target,
                    Answer::Refused(Refusal::PrepareConflict { id }),
                );
            }
            FrameRead::Older => self.go_to(Stage::History(call, target)),
        }
    }

    #[inline(never)]
    fn put(
        &mut self,
        alloc: Global,
        leaf: &mut LeafFrame,
        view: &View<'_>,
        target: Target,
        demand: Demand,
    )
        requires { IsSight (sight_of view.now) }
        ensures { LookedBy (KeyCall.Put demand) view.now target leaf.old self.old leaf.new self.new }
    {
        let value = replace(&mut self.value, Item::new(Vec::new(alloc)));
        let call = KeyCall::Put(demand);
        self.write(alloc, leaf, view, call, target, demand, Change::Put(value));
    }

    #[inline(never)]
    fn remove(&mut self, alloc: Global, leaf: &mut LeafFrame, view: &View<'_>, target: Target)
        requires { IsSight (sight_of view.now) }
        ensures { LookedBy KeyCall.Remove view.now target leaf.old self.old leaf.new self.new }
    {
        let demand = Demand::Occupied;
        let call = KeyCall::Remove;
        self.write(alloc, leaf, view, call, target, demand, Change::Remove);
    }

    // A write of a key that need not be there adds it, where it has no slot.
    #[inline(always)]
    fn write(
        &mut self,
        alloc: Global,
        leaf: &mut LeafFrame,
        view: &View<'_>,
        call: KeyCall,
        target: Target,
        demand: Demand,
        change: Change,
    )
        requires { IsSight (sight_of view.now) }
        ensures { WrittenBy view.now call target demand change leaf.old self.old leaf.new self.new }
    {
        let update = update_by(own_name(view), change);
        match demand {
            Demand::Occupied => self.write_over(alloc, leaf, view, call, target, demand, update),
            _ => self.write_any(alloc, leaf, view, call, target, demand, update),
        }
    }

    // A write of a key that has to be there: by its slot, or else by its row.
    fn write_over(
        &mut self,
        alloc: Global,
        leaf: &mut LeafFrame,
        view: &View<'_>,
        call: KeyCall,
        target: Target,
        demand: Demand,
        update: Update,
    )
        requires sight { IsSight (sight_of view.now) }
        requires own { IsBy (own_name view.now) update }
        ensures { WrittenBy view.now call target demand update.version.change leaf.old self.old leaf.new self.new }
    {
        match leaf.chains().find(self.key.as_bytes()) {
            Some(slot) => self.write_at(leaf, slot, view, call, target, demand, update),
            None => {
                let found = judge_bare(leaf, self.key.as_bytes(), view, demand);
                self.write_bare(alloc, leaf, view, call, target, demand, update, found);
            }
        }
    }

    // A write of a key that need not be there: it is added, where its row lets it. Where the key has
    // a slot, that judges alone.
    fn write_any(
        &mut self,
        alloc: Global,
        leaf: &mut LeafFrame,
        view: &View<'_>,
        call: KeyCall,
        target: Target,
        demand: Demand,
        update: Update,
    )
        requires sight { IsSight (sight_of view.now) }
        requires own { IsBy (own_name view.now) update }
        ensures { WrittenBy view.now call target demand update.version.change leaf.old self.old leaf.new self.new }
    {
        let found = judge_bare(leaf, self.key.as_bytes(), view, demand);
        if let Found::Free(_) = found {
            self.add_or_write(alloc, leaf, view, call, target, demand, update);
            return;
        }
        match leaf.chains().find(self.key.as_bytes()) {
            Some(slot) => self.write_at(leaf, slot, view, call, target, demand, update),
            None => self.write_bare(alloc, leaf, view, call, target, demand, update, found),
        }
    }

    // A write of a key without a slot, for which this is found by its row.
    fn write_bare(
        &mut self,
        alloc: Global,
        leaf: &mut LeafFrame,
        view: &View<'_>,
        call: KeyCall,
        target: Target,
        demand: Demand,
        update: Update,
        found: Found,
    )
        requires sight { IsSight (sight_of view.now) }
        requires own { IsBy (own_name view.now) update }
        requires bare { slot_of self.old.key leaf.old.chains ≡ None }
        requires found { found ≡ write_found view.now demand [] (shown_at self.old.key leaf.old.page) }
        ensures { WrittenBy view.now call target demand update.version.change leaf.old self.old leaf.new self.new }
    {
        match found {
            Found::Conflict(name) => self.conflict(call, target, name),
            Found::Unmet(refusal) => self.clear(call, target, Answer::Refused(refusal)),
            Found::Free(_) => {
                self.add_or_write(alloc, leaf, view, call, target, demand, update);
            }
        }
    }

    // A write of a key that its row lets come.
    fn add_or_write(
        &mut self,
        alloc: Global,
        leaf: &mut LeafFrame,
        view: &View<'_>,
        call: KeyCall,
        target: Target,
        demand: Demand,
        update: Update,
    )
        requires sight { IsSight (sight_of view.now) }
        requires own { IsBy (own_name view.now) update }
        requires free { (led : Bool) × (write_found view.now demand [] (shown_at self.old.key leaf.old.page) ≡ Found.Free led) }
        ensures { WrittenBy view.now call target demand update.version.change leaf.old self.old leaf.new self.new }
    {
        match self.add(alloc, leaf, target.frame, update) {
            Ok(Added::New(_)) => self.clear(call, target, Answer::Done),
            Ok(Added::There(slot, update)) => {
                self.write_at(leaf, slot, view, call, target, demand, update);
            }
            Err(NoMemory) => self.judge_only(leaf, view, call, target, demand),
        }
    }

    // Adds the key with its first update and notes it, where it has no slot.
    fn add(
        &mut self,
        alloc: Global,
        leaf: &mut LeafFrame,
        frame: u32,
        update: Update,
    ) -> Result<Added, NoMemory>
        ensures added { IfOk result (IsAddedTo self.old.key update leaf.old leaf.new) }
        ensures noted { IfOk result (IsNoted frame self.old self.new) }
        ensures leaf { OnErr result (leaf.new ≡ leaf.old) }
        ensures state { OnErr result (self.new ≡ self.old) }
    {
        self.written.reserve(1)?;
        match leaf.add(alloc, self.key.as_bytes(), update)? {
            Added::New(slot) => {
                self.written.push_reserved(WrittenKey { frame, slot });
                Ok(Added::New(slot))
            }
            Added::There(slot, update) => Ok(Added::There(slot, update)),
        }
    }

    // A write of the key in this slot.
    fn write_at(
        &mut self,
        leaf: &mut LeafFrame,
        slot: u32,
        view: &View<'_>,
        call: KeyCall,
        target: Target,
        demand: Demand,
        update: Update,
    )
        requires sight { IsSight (sight_of view.now) }
        requires own { IsBy (own_name view.now) update }
        requires slot { slot_of self.old.key leaf.old.chains ≡ Some slot }
        ensures { WrittenBy view.now call target demand update.version.change leaf.old self.old leaf.new self.new }
    {
        match judge_slot(leaf, slot, self.key.as_bytes(), view, demand) {
            Found::Conflict(name) => self.conflict(call, target, name),
            Found::Unmet(refusal) => self.clear(call, target, Answer::Refused(refusal)),
            Found::Free(is_led) => {
                self.accept(leaf, slot, own_name(view), call, target, update, is_led);
            }
        }
    }

    // A write for which memory is short is refused for that, if for nothing else.
    fn judge_only(
        &mut self,
        leaf: &LeafFrame,
        view: &View<'_>,
        call: KeyCall,
        target: Target,
        demand: Demand,
    )
        requires { IsSight (sight_of view.now) }
        ensures { (change : Change) → WrittenBy view.now call target demand change leaf.now self.old leaf.now self.new }
    {
        match judge_write(leaf, self.key.as_bytes(), view, demand) {
            Found::Conflict(name) => self.conflict(call, target, name),
            Found::Unmet(refusal) => self.clear(call, target, Answer::Refused(refusal)),
            Found::Free(_) => self.clear(call, target, Answer::Refused(Refusal::NoMemory)),
        }
    }

    // A write met another's update: the transaction can be rolled back, no more.
    fn conflict(&mut self, call: KeyCall, target: Target, name: Name)
        ensures { self.new ≡ conflicts call target name self.old }
    {
        self.phase = Phase::Failed;
        let refusal = Refusal::Rollback {
            run: name.run,
            id: name.id,
        };
        self.clear(call, target, Answer::Refused(refusal));
    }

    // Installs an update of the key in this slot, and notes the key where it is the transaction's
    // first.
    fn accept(
        &mut self,
        leaf: &mut LeafFrame,
        slot: u32,
        name: Name,
        call: KeyCall,
        target: Target,
        update: Update,
        is_led: bool,
    )
        requires slot { slot_of self.old.key leaf.old.chains ≡ Some slot }
        requires own { IsBy name update }
        requires led { is_led ≡ is_led_by name (chain_at self.old.key leaf.old.chains) }
        ensures { AcceptedBy name call target update.version.change leaf.old self.old leaf.new self.new }
    {
        match self.install(leaf, slot, target.frame, update, is_led) {
            Ok(()) => self.clear(call, target, Answer::Done),
            Err(NoMemory) => self.clear(call, target, Answer::Refused(Refusal::NoMemory)),
        }
    }

    fn install(
        &mut self,
        leaf: &mut LeafFrame,
        slot: u32,
        frame: u32,
        update: Update,
        is_led: bool,
    ) -> Result<(), NoMemory>
        ensures leaf { OnOk result (leaf.new ≡ record leaf.old { chains = slot_changed slot (installed update) leaf.old.chains }) }
        ensures state { OnOk result (self.new ≡ noted is_led (record { frame = frame; slot = slot }) self.old) }
        ensures leaf_kept { OnErr result (leaf.new ≡ leaf.old) }
        ensures state_kept { OnErr result (self.new ≡ self.old) }
    {
        if is_led {
            leaf.install_at(slot, update)?;
            return Ok(());
        }
        self.written.reserve(1)?;
        leaf.install_at(slot, update)?;
        self.written.push_reserved(WrittenKey { frame, slot });
        Ok(())
    }

    #[inline(never)]
    fn step(
        &mut self,
        alloc: Global,
        leaf: &LeafFrame,
        view: &View<'_>,
        target: Target,
        cursor: u32,
        way: Way,
    )
        requires { IsSight (sight_of view.now) }
        ensures { SteppedBy view.now (way_in way) (from_of self.old cursor target.table) (KeyCall.Step cursor way) target leaf.now self.old self.new }
    {
        let call = KeyCall::Step(cursor, way);
        let from = start_of(self.cursors.as_slice(), cursor, target.table);
        match row_copied(alloc, find_row(leaf, view, way, from)) {
            Ok(Stepped::Row(key, value, kept)) => {
                self.key.give(kept);
                self.answer(call, target, Answer::Row(key, value));
            }
            Ok(Stepped::Conflict(id)) => {
                self.answer(
                    call,
                    target,
                    Answer::Refused(Refusal::PrepareConflict { id }),
                );
            }
            Ok(Stepped::End) => self.go_to(Stage::Pass(call, target)),
            Err(NoMemory) => self.answer(call, target, Answer::Refused(Refusal::NoMemory)),
        }
    }
}

fn own_name(view: &View<'_>) -> Name
    ensures { result ≡ own_name view.now }
{
    Name {
        run: view.run,
        id: view.own,
    }
}

fn update_by(name: Name, change: Change) -> Update
    ensures { result ≡ update_by name change }
{
    let window = Window {
        name,
        commit: 0,
        durable: 0,
    };
    Update {
        version: Version { window, change },
        prepared: 0,
    }
}

/// What a write finds at its key.
#[derive(Clone, Copy)]
pub(crate) enum Found {
    /// The update of this name refuses it.
    Conflict(Name),
    /// What is there does not meet its demand.
    Unmet(Refusal),
    /// It may come; whether the newest update is the transaction's own.
    Free(bool),
}

// What a write finds at a key: by its slot, or else by its row.
fn judge_write(leaf: &LeafFrame, key: &[u8], view: &View<'_>, demand: Demand) -> Found
    requires { IsSight (sight_of view.now) }
    ensures { result ≡ write_found view.now demand (chain_at key.now leaf.now.chains) (shown_at key.now leaf.now.page) }
{
    match leaf.chains().find(key) {
        None => judge_bare(leaf, key, view, demand),
        Some(slot) => judge_slot(leaf, slot, key, view, demand),
    }
}

// What it finds in a slot, over the row of this key.
fn judge_slot(leaf: &LeafFrame, slot: u32, key: &[u8], view: &View<'_>, demand: Demand) -> Found
    requires { IsSight (sight_of view.now) }
    ensures { result ≡ write_found view.now demand (chain_in leaf.now.chains slot) (shown_at key.now leaf.now.page) }
{
    match newest_in(leaf.chains(), slot) {
        None => judge_bare(leaf, key, view, demand),
        Some(update) => judge_over(update, view, demand),
    }
}

// What it finds by the row of a key without updates. `O(log n)` in the rows.
fn judge_bare(leaf: &LeafFrame, key: &[u8], view: &View<'_>, demand: Demand) -> Found
    requires { IsSight (sight_of view.now) }
    ensures { result ≡ write_found view.now demand [] (shown_at key.now leaf.now.page) }
{
    match leaf.row(key) {
        None => free_or_unmet(demand, false, false),
        Some(cell) => judge_under(&cell, view, demand),
    }
}

fn judge_under(cell: &Cell<'_>, view: &View<'_>, demand: Demand) -> Found
    requires { IsSight (sight_of view.now) }
    ensures { result ≡ write_found view.now demand [] (Some (version_seen cell.now)) }
{
    match judge_row(cell, view) {
        Judgement::Refused(name) => Found::Conflict(name),
        Judgement::Allowed => {
            let is_there = matches!(cell.change, CellChange::Put(_));
            free_or_unmet(demand, is_there, false)
        }
    }
}

fn judge_over(update: &Update, view: &View<'_>, demand: Demand) -> Found
    requires { IsSight (sight_of view.now) }
    ensures { result ≡ found_over view.now demand update.now }
{
    match judge_update(view, update) {
        Judgement::Refused(name) => Found::Conflict(name),
        Judgement::Allowed => {
            let is_own = update.version.window.name == own_name(view);
            free_or_unmet(demand, is_put(&update.version.change), is_own)
        }
    }
}

// By the demand, and whether the key has a value.
fn free_or_unmet(demand: Demand, is_there: bool, is_led: bool) -> Found
    ensures { result ≡ free_or_unmet demand is_there is_led }
{
    match demand {
        Demand::Vacant if is_there => Found::Unmet(Refusal::DuplicateKey),
        Demand::Occupied if !is_there => Found::Unmet(Refusal::NotFound),
        _ => Found::Free(is_led),
    }
}

fn is_put(change: &Change) -> bool
    ensures { result ≡ is_put change.now }
{
    matches!(change, Change::Put(_))
}

// The newest update in a slot.
fn newest_in(chains: &LeafChains, slot: u32) -> Option<&Update>
    ensures { option_copied result ≡ newest_of (chain_in chains.now slot) None }
{
    match chains.chain(slot) {
        None => None,
        Some(chain) => newest(chain),
    }
}

fn newest(chain: &Chain) -> Option<&Update>
    ensures { option_copied result ≡ newest_of chain.now None }
{
    chain.newest()
}

// Where a cursor starts on a table: behind its row, if it has one there.
pub(crate) fn start_of(cursors: &[Cursor], cursor: u32, table: u32) -> Option<&[u8]>
    ensures { option_map (λ k. k.now) result ≡ start_in cursors.now cursor table }
{
    let position = cursors.get(cursor as usize)?.position.as_ref()?;
    if position.table == table {
        Some(position.key.as_bytes())
    } else {
        None
    }
}
