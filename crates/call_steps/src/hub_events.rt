// The events on the hub.

ghost use Rattle.std.specs.Prelude.{◌≡◌, ◌⊎◌, ◌<◌, None, Some, length, true};
ghost use Rattle.txn_table.specs.SessionData.{is_unreleased};
ghost use Rattle.txn_table.specs.Tabled.{phase_of};
ghost use Rattle.kv_model.specs.Refusals.{first_of};
ghost use Rattle.call_steps.specs.Lengths.{length_checks};
ghost use Rattle.call_steps.specs.Tables.{stage_of};
ghost use Rattle.call_steps.specs.HubEvents.{IsSeated, hub_made, hub_made_at, begin_made, begins_in, find_made, finds, finds_at, finds_drawn, item_checks, history_made, fill_made, pass_made, release_made, done, done_made, decide_made, decides_in, decides_running, decides_prepared, leaves_with, resolve_made, resolves_in};

use crate::hub::{Hub, next_stage, stage_in, stage_of};
use crate::reply::Reply;
use crate::stage::{CommitStamps, KeyCall, Stage, Target, Wanted};
use crate::state::SessionState;
use crate::words::unless_running;
use catalog::is_name;
use item::Item;
use limits::{KEY_MAX, VALUE_MAX};
use txn_table::Phase;
use wt_code::{Answer, Invalid, Refusal};

/// The session's next event, which is on the hub. Takes no memory. A begin copies at most 63 ids, a
/// find costs `O(log n)` in the tables and in the leaves, a step to the next leaf `O(log n)` in the
/// leaves; all else is `O(log n)` in the running ids and one move of
/// those above.
pub fn hub_event(hub: &mut Hub, session: u32, state: &mut SessionState) -> Reply
    requires { IsSeated hub.old session state.old }
    ensures { (result, (hub.new, state.new)) ≡ hub_made hub.old session state.old }
{
    match state.stage() {
        Stage::Begin(read) => begin(hub, session, state, read),
        Stage::Find(call) => find(hub, session, state, call),
        Stage::Fill(call, wanted) => fill(hub, state, call, wanted),
        Stage::Pass(call, target) => pass(hub, state, call, target),
        Stage::History(call, target) => look_in_history(hub, state, call, target),
        Stage::Release(stamp) => release(hub, session, state, stamp),
        Stage::Decide(stamps) => decide(hub, session, state, stamps),
        Stage::Resolve => resolve(hub, session, state),
        Stage::Done => end(hub, session, state),
        _ => Reply::More,
    }
}

fn begin(hub: &mut Hub, session: u32, state: &mut SessionState, read: Option<u64>) -> Reply
    requires { IsSeated hub.old session state.old }
    ensures { (result, (hub.new, state.new)) ≡ begin_made hub.old session state.old read }
{
    if let Some(fault) = hub.fault {
        return state.refuse(Refusal::Panic { fault });
    }
    match state.phase() {
        Phase::Idle => begin_idle(hub, session, state, read),
        _ => state.refuse(Refusal::Invalid(Invalid::InTxn)),
    }
}

fn begin_idle(hub: &mut Hub, session: u32, state: &mut SessionState, read: Option<u64>) -> Reply
    requires seated { IsSeated hub.old session state.old }
    requires idle { state.old.phase ≡ Phase.Idle }
    ensures { (result, (hub.new, state.new)) ≡ begins_in state.old.phase hub.old session state.old read }
{
    match hub.stamps.check_read(read) {
        Err(reason) => state.refuse(Refusal::Invalid(reason)),
        Ok(()) => {
            hub.txns.begin(session, read);
            state.begin();
            Reply::Answer(Answer::Done)
        }
    }
}

fn find(hub: &mut Hub, session: u32, state: &mut SessionState, call: KeyCall) -> Reply
    requires { IsSeated hub.old session state.old }
    ensures { (result, (hub.new, state.new)) ≡ find_made hub.old session state.old call }
{
    if let Some(fault) = hub.fault {
        return state.refuse(Refusal::Panic { fault });
    }
    if let Some(reason) = unless_running(state.phase()) {
        return state.refuse(Refusal::Invalid(reason));
    }
    match stage_of(&hub.tables, &hub.dir, call, state) {
        None => find_nothing(hub, session, state, call),
        Some(stage) => find_known(hub, session, state, call, stage),
    }
}

// There is no table of this name. That is told where nothing is wrong with the call.
fn find_nothing(hub: &Hub, session: u32, state: &mut SessionState, call: KeyCall) -> Reply
    requires { stage_of hub.now.tables hub.now.dir.leaves call state.old ≡ None }
    ensures { (result, (hub.now, state.new)) ≡ finds hub.now session state.old call }
{
    match wrong_items(state) {
        Some(reason) => state.refuse(Refusal::Invalid(reason)),
        None => state.refuse(Refusal::NoTable),
    }
}

// The name is that of a table, and so nothing is wrong with it.
fn find_known(
    hub: &mut Hub,
    session: u32,
    state: &mut SessionState,
    call: KeyCall,
    stage: Stage,
) -> Reply
    requires open { session < length hub.old.txns.sessions }
    requires running { phase_of hub.old.txns session ≡ Phase.Running }
    requires known { stage_of hub.old.tables hub.old.dir.leaves call state.old ≡ Some stage }
    ensures { (result, (hub.new, state.new)) ≡ finds hub.old session state.old call }
{
    // What holds of every catalog holds of this one.
    let _count = hub.tables.len();
    match wrong_lengths(state) {
        Some(reason) => state.refuse(Refusal::Invalid(reason)),
        None => go_to_leaf(hub, session, state, call, stage),
    }
}

// What is wrong with the name, the key and the value of a call.
fn wrong_items(state: &SessionState) -> Option<Invalid>
    ensures { result ≡ first_of (item_checks state.now) }
{
    if !is_name(state.name.as_bytes()) {
        return Some(Invalid::BadName);
    }
    wrong_lengths(state)
}

// What is wrong with the lengths of the key and the value.
fn wrong_lengths(state: &SessionState) -> Option<Invalid>
    ensures { result ≡ first_of (length_checks state.now) }
{
    let key = state.key.len();
    if key > KEY_MAX {
        return Some(Invalid::KeyLong { len: key as u64 });
    }
    let value = state.value.len();
    if value > VALUE_MAX {
        return Some(Invalid::ValueLong { len: value as u64 });
    }
    None
}

// The first write of a transaction draws its id on the way.
fn go_to_leaf(
    hub: &mut Hub,
    session: u32,
    state: &mut SessionState,
    call: KeyCall,
    stage: Stage,
) -> Reply
    requires open { session < length hub.old.txns.sessions }
    requires running { phase_of hub.old.txns session ≡ Phase.Running }
    ensures { (result, (hub.new, state.new)) ≡ finds_at hub.old session state.old call (Some stage) }
{
    if call.is_write() && hub.txns.id(session) == 0 {
        if let Err(refusal) = hub.txns.draw_id(session) {
            return state.refuse(refusal);
        }
    }
    state.go_to(stage);
    Reply::More
}

// The leaf was loaded: the call goes on at it. One that is still in no frame is still waited for, and
// one that is gone is sought anew.
fn fill(hub: &Hub, state: &mut SessionState, call: KeyCall, wanted: Wanted) -> Reply
    ensures { (result, (hub.now, state.new)) ≡ fill_made hub.now state.old call wanted }
{
    match stage_in(&hub.dir, call, wanted.leaf) {
        None => state.go_to(Stage::Find(call)),
        Some(stage) => state.go_to(stage),
    }
    Reply::More
}

// No row was found in a leaf: the call goes on to the next one on its way.
fn pass(hub: &Hub, state: &mut SessionState, call: KeyCall, target: Target) -> Reply
    ensures { (result, (hub.now, state.new)) ≡ pass_made hub.now state.old call target }
{
    match next_stage(&hub.dir, call, target.leaf) {
        None => state.answer(call, target, Answer::Refused(Refusal::NotFound)),
        Some(stage) => state.go_to(stage),
    }
    Reply::More
}

fn look_in_history(hub: &Hub, state: &mut SessionState, call: KeyCall, target: Target) -> Reply
    ensures { (result, (hub.now, state.new)) ≡ history_made hub.now state.old call target }
{
    let answer = match hub.fault {
        None => Refusal::NotFound,
        Some(fault) => Refusal::Panic { fault },
    };
    state.answer(call, target, Answer::Refused(answer));
    Reply::More
}

fn release(hub: &mut Hub, session: u32, state: &mut SessionState, stamp: u64) -> Reply
    requires { IsSeated hub.old session state.old }
    ensures { (result, (hub.new, state.new)) ≡ release_made hub.old session state.old stamp }
{
    if let Some(fault) = hub.fault {
        return state.refuse(Refusal::Panic { fault });
    }
    if let Some(reason) = unless_running(state.phase()) {
        return state.refuse(Refusal::Invalid(reason));
    }
    match hub.stamps.check_prepare(stamp) {
        Err(reason) => state.refuse(Refusal::Invalid(reason)),
        Ok(()) => {
            hub.txns.prepare(session, stamp);
            state.prepare(stamp);
            Reply::Answer(Answer::Done)
        }
    }
}

fn decide(hub: &mut Hub, session: u32, state: &mut SessionState, stamps: CommitStamps) -> Reply
    requires { IsSeated hub.old session state.old }
    ensures { (result, (hub.new, state.new)) ≡ decide_made hub.old session state.old stamps }
{
    if let Some(fault) = hub.fault {
        return state.refuse(Refusal::Panic { fault });
    }
    match state.phase() {
        Phase::Idle => state.refuse(Refusal::Invalid(Invalid::NoTxn)),
        Phase::Running => decide_running(hub, session, state, stamps),
        Phase::Failed => state.refuse(Refusal::Invalid(Invalid::FailedTxn)),
        Phase::Prepared(at) => decide_prepared(hub, session, state, at, stamps),
        Phase::Resolving | Phase::Leaving => finish(hub, session, state),
    }
}

fn decide_running(
    hub: &mut Hub,
    session: u32,
    state: &mut SessionState,
    stamps: CommitStamps,
) -> Reply
    requires seated { IsSeated hub.old session state.old }
    requires running { state.old.phase ≡ Phase.Running }
    ensures { (result, (hub.new, state.new)) ≡ decides_in state.old.phase hub.old session state.old stamps }
{
    match hub
        .stamps
        .check_commit(stamps.commit, stamps.durable, stamps.prev)
    {
        Ok(()) => {
            hub.txns.release(session);
            state.finish(Answer::Done)
        }
        Err(reason) => leave(
            hub,
            session,
            state,
            Answer::Refused(Refusal::Invalid(reason)),
        ),
    }
}

fn decide_prepared(
    hub: &mut Hub,
    session: u32,
    state: &mut SessionState,
    at: u64,
    stamps: CommitStamps,
) -> Reply
    requires seated { IsSeated hub.old session state.old }
    requires prepared { state.old.phase ≡ Phase.Prepared at }
    ensures { (result, (hub.new, state.new)) ≡ decides_in state.old.phase hub.old session state.old stamps }
{
    match hub
        .stamps
        .check_resolve(at, stamps.commit, stamps.durable, stamps.prev)
    {
        Ok(()) => {
            hub.txns.resolve(session);
            state.stamp_all(stamps);
            Reply::More
        }
        Err(reason) => state.refuse(Refusal::Invalid(reason)),
    }
}

// A transaction that is not prepared is rolled back with this answer, at once where it wrote
// nothing.
fn leave(hub: &mut Hub, session: u32, state: &mut SessionState, answer: Answer<Item>) -> Reply
    requires open { session < length hub.old.txns.sessions }
    requires running { phase_of hub.old.txns session ≡ Phase.Running }
    ensures { (result, (hub.new, state.new)) ≡ leaves_with (length state.old.written) answer hub.old session state.old }
{
    if state.written.is_empty() {
        hub.txns.done(session);
        state.finish(answer)
    } else {
        state.leave(answer);
        Reply::More
    }
}

fn resolve(hub: &mut Hub, session: u32, state: &mut SessionState) -> Reply
    requires { IsSeated hub.old session state.old }
    ensures { (result, (hub.new, state.new)) ≡ resolve_made hub.old session state.old }
{
    if let Some(fault) = hub.fault {
        return state.refuse(Refusal::Panic { fault });
    }
    match state.phase() {
        Phase::Idle => state.refuse(Refusal::Invalid(Invalid::NoTxn)),
        Phase::Running | Phase::Failed => leave(hub, session, state, Answer::Done),
        Phase::Prepared(_) => {
            hub.txns.resolve(session);
            state.undo_all();
            Reply::More
        }
        Phase::Resolving | Phase::Leaving => finish(hub, session, state),
    }
}

fn end(hub: &mut Hub, session: u32, state: &mut SessionState) -> Reply
    requires { IsSeated hub.old session state.old }
    ensures { (result, (hub.new, state.new)) ≡ done_made hub.old session state.old }
{
    if let Some(fault) = hub.fault {
        return state.refuse(Refusal::Panic { fault });
    }
    match state.phase() {
        Phase::Idle => state.refuse(Refusal::Invalid(Invalid::NoTxn)),
        Phase::Prepared(_) => state.refuse(Refusal::Invalid(Invalid::Prepared)),
        _ => finish(hub, session, state),
    }
}

// The transaction ends with the answer that was decided.
fn finish(hub: &mut Hub, session: u32, state: &mut SessionState) -> Reply
    requires open { session < length hub.old.txns.sessions }
    requires ending { (phase_of hub.old.txns session ≡ Phase.Resolving) ⊎ (is_unreleased (phase_of hub.old.txns session) ≡ true) }
    ensures { (result, (hub.new, state.new)) ≡ done hub.old session state.old }
{
    hub.txns.done(session);
    let answer = state.take_answer();
    state.finish(answer)
}
