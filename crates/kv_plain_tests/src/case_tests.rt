// Worked cases: calls one after the other, and what each answers, written out by hand.

use crate::worked_cases::{CHECKPOINTS, CLOSES, CURSORS, RULES, SNAPSHOTS};
use failure::NoMemory;
use item::{Format, Formats, Item};
use kv_plain::{
    Answered, Around, Content, Entry, Event, Machine, Placed, Storing, Table, Unfinished, apply,
    new_device, open, open_session, run, standing_at,
};
use std::alloc::Global;
use std::process::Abort;
use wt_calls::{Call, Demand, SessionCall, SystemCall, Way};
use wt_code::{Answer, Fault, Refusal, text_of};

/// Steps one after the other, on a new device with the table `t` and five sessions.
pub(crate) struct Case {
    pub(crate) name: &'static str,
    /// Who makes each step, and what it answers.
    pub(crate) steps: &'static [(u32, Made, &'static str)],
}

/// A step of a case. Stamps are 0 where none is given; keys and values are of the table `t`.
#[derive(Clone, Copy)]
pub(crate) enum Made {
    OpenSession,
    Begin(u64),
    /// At a stamp that is given, also 0.
    BeginAt(u64),
    Get(&'static str),
    /// From another table.
    GetFrom(&'static str),
    Put(&'static str, &'static str),
    Insert(&'static str, &'static str),
    Remove(&'static str),
    /// Of cursor 0.
    Next,
    Prev,
    Seek(&'static str),
    Reset,
    Prepare(u64),
    Commit(u64, u64),
    Rollback,
    /// Of a table of this name, whose keys have this format.
    Create(&'static str, Format),
    Set(u64, u64),
    Rts,
    Start,
    Step,
    Finish,
    Evict(&'static str),
    Close,
    /// The event alone that decides a commit.
    Decide(u64, u64),
    /// The event alone that ends what was decided.
    End,
    GoDown,
    /// The next opening, of a device that holds what was completed last, with five sessions.
    Reopen,
    /// From here on so many leaves are not captured.
    Uncaptured(u64),
    /// From here on the device takes a checkpoint's blocks so.
    Takes(Storing),
    /// From here on this is the number of the last completed checkpoint.
    Number(u64),
    /// From here on an eviction works in this place.
    Evicting(u32),
    /// From here on a call of session 0 is unfinished.
    Unfinished,
    /// From here on who calls has a call that is not finished.
    InCall,
}

/// A machine, and the outside.
#[derive(Drop)]
struct State {
    machine: Machine,
    around: Around,
}

pub(crate) fn item(alloc: Global, text: &str) -> Result<Item, NoMemory> {
    let mut bytes = Vec::new(alloc);
    for b in text.as_bytes() {
        if bytes.push(*b).is_err() {
            return Err(NoMemory);
        }
    }
    Ok(Item::new(bytes))
}

pub(crate) fn given(stamp: u64) -> Option<u64> {
    if stamp == 0 { None } else { Some(stamp) }
}

pub(crate) fn idle(alloc: Global) -> Around {
    Around {
        in_call: false,
        unfinished: Unfinished {
            eviction: None,
            calls: Vec::new(alloc),
        },
        number: 0,
        uncaptured: 0,
        storing: Storing::Stored,
    }
}

pub(crate) fn formats(key: Format) -> Formats {
    Formats {
        key,
        value: Format::U,
    }
}

fn with_sessions(alloc: Global, m: Machine) -> Result<Machine, NoMemory> {
    let mut m = m;
    for _ in 0..5 {
        m = open_session(alloc, m)?.machine;
    }
    Ok(m)
}

fn ready(alloc: Global) -> Result<Machine, NoMemory> {
    let m = with_sessions(alloc, open(alloc, &new_device(alloc))?)?;
    let create = SystemCall::Create {
        table: item(alloc, "t")?,
        formats: formats(Format::U),
    };
    Ok(run(alloc, m, Call::System(0, create), &idle(alloc))?.machine)
}

/// A device that holds what the machine completed last: the newest version of each key in a leaf,
/// the older ones in the history store.
fn device_of(alloc: Global, m: &Machine) -> Result<Content, NoMemory> {
    let mut content = new_device(alloc);
    content.run = m.run;
    content.oldest = m.completed.oldest;
    content.stable = m.completed.stable;
    content.snapshot.max = m.next;
    for entry in &m.completed.content {
        if let Entry::Create(table) = entry {
            if content.tables.push(copy_table(table)?).is_err() {
                return Err(NoMemory);
            }
        }
    }
    for placed in standing_at(alloc, &m.completed.content, 0)? {
        let is_older = content.cells.iter().any(|cell| cell.table == placed.table
            && cell.key.same(&placed.key));
        if is_older {
            keep(&mut content.records, placed)?;
        } else {
            keep(&mut content.cells, placed)?;
        }
    }
    Ok(content)
}

fn copy_table(table: &Table) -> Result<Table, NoMemory> {
    Ok(Table {
        number: table.number,
        name: table.name.copy()?,
        formats: table.formats,
    })
}

pub(crate) fn keep(versions: &mut Vec<Placed>, version: Placed) -> Result<(), NoMemory> {
    match versions.push(version) {
        Ok(()) => Ok(()),
        Err(_) => Err(NoMemory),
    }
}

fn put_call(
    alloc: Global,
    key: &str,
    value: &str,
    demand: Demand,
) -> Result<SessionCall, NoMemory> {
    Ok(SessionCall::Put {
        table: item(alloc, "t")?,
        key: item(alloc, key)?,
        value: item(alloc, value)?,
        demand,
    })
}

fn step_call(alloc: Global, way: Way) -> Result<SessionCall, NoMemory> {
    Ok(SessionCall::Step {
        cursor: 0,
        table: item(alloc, "t")?,
        way,
    })
}

fn session_call(alloc: Global, made: Made) -> Result<Option<SessionCall>, NoMemory> {
    Ok(Some(match made {
        Made::Begin(at) => SessionCall::Begin(given(at)),
        Made::BeginAt(at) => SessionCall::Begin(Some(at)),
        Made::Get(key) => SessionCall::Get {
            table: item(alloc, "t")?,
            key: item(alloc, key)?,
        },
        Made::GetFrom(table) => SessionCall::Get {
            table: item(alloc, table)?,
            key: item(alloc, "a")?,
        },
        Made::Put(key, v) => put_call(alloc, key, v, Demand::Anything)?,
        Made::Insert(key, v) => put_call(alloc, key, v, Demand::Vacant)?,
        Made::Remove(key) => SessionCall::Remove {
            table: item(alloc, "t")?,
            key: item(alloc, key)?,
        },
        Made::Next => step_call(alloc, Way::Up)?,
        Made::Prev => step_call(alloc, Way::Down)?,
        Made::Seek(key) => SessionCall::Seek {
            cursor: 0,
            table: item(alloc, "t")?,
            key: item(alloc, key)?,
        },
        Made::Reset => SessionCall::Reset(0),
        Made::Prepare(stamp) => SessionCall::Prepare(stamp),
        Made::Commit(at, durable) => SessionCall::Commit {
            commit: given(at),
            durable: given(durable),
        },
        Made::Rollback => SessionCall::Rollback,
        _ => return Ok(None),
    }))
}

fn system_call(alloc: Global, made: Made) -> Result<Option<SystemCall>, NoMemory> {
    Ok(Some(match made {
        Made::Create(table, key) => SystemCall::Create {
            table: item(alloc, table)?,
            formats: formats(key),
        },
        Made::Set(oldest, stable) => SystemCall::SetStamps {
            oldest: given(oldest),
            stable: given(stable),
        },
        Made::Rts => SystemCall::RollbackToStable,
        Made::Start => SystemCall::StartCheckpoint,
        Made::Step => SystemCall::StepCheckpoint,
        Made::Finish => SystemCall::FinishCheckpoint,
        Made::Evict(key) => SystemCall::Evict {
            table: item(alloc, "t")?,
            key: item(alloc, key)?,
        },
        Made::Close => SystemCall::Close,
        _ => return Ok(None),
    }))
}

/// The call of a step, if it is one.
fn call_of(alloc: Global, who: u32, made: Made) -> Result<Option<Call>, NoMemory> {
    if let Some(call) = session_call(alloc, made)? {
        return Ok(Some(Call::Session(who, call)));
    }
    match system_call(alloc, made)? {
        None => Ok(None),
        Some(call) => Ok(Some(Call::System(0, call))),
    }
}

fn around_after(alloc: Global, around: Around, made: Made) -> Result<Around, NoMemory> {
    let mut around = around;
    match made {
        Made::Uncaptured(leaves) => around.uncaptured = leaves,
        Made::Takes(storing) => around.storing = storing,
        Made::Number(number) => around.number = number,
        Made::Evicting(place) => around.unfinished.eviction = Some(place),
        Made::Unfinished => {
            if around.unfinished.calls.push(true).is_err() {
                return Err(NoMemory);
            }
        }
        Made::InCall => around.in_call = true,
        Made::Reopen => around = idle(alloc),
        _ => {}
    }
    Ok(around)
}

fn machine_after(alloc: Global, m: Machine, who: u32, made: Made) -> Result<Machine, NoMemory> {
    match made {
        Made::Reopen => with_sessions(alloc, open(alloc, &device_of(alloc, &m)?)?),
        Made::Decide(commit, durable) => {
            apply(alloc, m, Event::Commit(who as usize, commit, durable))
        }
        Made::End => apply(alloc, m, Event::EndTransaction(who as usize)),
        Made::GoDown => apply(alloc, m, Event::GoDown(Fault::Sync)),
        _ => Ok(m),
    }
}

/// The text of a refusal, with the name of the transaction that is in the way.
fn refusal_text(alloc: Global, refusal: &Refusal) -> Result<String, NoMemory> {
    match refusal {
        Refusal::Rollback { run, id } => { Ok(format!(in alloc; "-31800 rollback {run} {id}")?) }
        Refusal::PrepareConflict { id } => {
            Ok(format!(in alloc; "-31808 prepare conflict {id}")?)
        }
        _ => text_of(alloc, refusal),
    }
}

/// Whether `want` is `ok`, the key and the value.
fn is_row(key: &Item, v: &Item, want: &str) -> bool {
    match want.strip_prefix("ok ") {
        None => false,
        Some(text) => match text.split_once(' ') {
            None => false,
            Some((k, value)) => key.as_bytes() == k.as_bytes() && v.as_bytes() == value.as_bytes(),
        },
    }
}

pub(crate) fn is_answer(
    alloc: Global,
    answer: &Answer<Item>,
    want: &str,
) -> Result<bool, NoMemory> {
    Ok(match answer {
        Answer::Done => want == "ok",
        Answer::Value(v) => match want.strip_prefix("ok ") {
            None => false,
            Some(text) => v.as_bytes() == text.as_bytes(),
        },
        Answer::Row(key, v) => is_row(key, v, want),
        Answer::Left => want == "left",
        Answer::End => want == "end",
        Answer::Refused(refusal) => {
            let text = refusal_text(alloc, refusal)?;
            text.as_str() == want
        }
    })
}

fn take(
    alloc: Global,
    state: State,
    who: u32,
    made: Made,
) -> Result<(State, Answer<Item>), NoMemory> {
    let State { machine, around } = state;
    if let Made::OpenSession = made {
        let Answered { answer, machine } = open_session(alloc, machine)?;
        return Ok((State { machine, around }, answer));
    }
    match call_of(alloc, who, made)? {
        Some(call) => {
            let Answered { answer, machine } = run(alloc, machine, call, &around)?;
            Ok((State { machine, around }, answer))
        }
        None => {
            let machine = machine_after(alloc, machine, who, made)?;
            let around = around_after(alloc, around, made)?;
            Ok((State { machine, around }, Answer::Done))
        }
    }
}

/// Makes a step, and stops where it does not answer what is wanted.
fn step(
    rt: &impl Abort,
    alloc: Global,
    case: &str,
    state: State,
    step: &(u32, Made, &'static str),
) -> Result<State, NoMemory> {
    let (who, made, want) = *step;
    let (after, answer) = take(alloc, state, who, made)?;
    assert!(rt;
        is_answer(alloc, &answer, want)?,
        "{case}: {want} is wanted"
    );
    Ok(after)
}

fn run_case(rt: &impl Abort, alloc: Global, case: &Case) -> Result<(), NoMemory> {
    let mut state = State {
        machine: ready(alloc)?,
        around: idle(alloc),
    };
    for made in case.steps {
        state = step(rt, alloc, case.name, state, made)?;
    }
    Ok(())
}

fn run_all(rt: &impl Abort, alloc: Global, cases: &[Case]) -> Result<(), NoMemory> {
    for case in cases {
        run_case(rt, alloc, case)?;
    }
    Ok(())
}

#[test]
fn calls_answer_as_worked_by_hand(rt: HostRuntime) -> Result<(), NoMemory> {
    let alloc = rt.alloc();
    run_all(&rt, alloc, &SNAPSHOTS)?;
    run_all(&rt, alloc, &RULES)?;
    run_all(&rt, alloc, &CURSORS)?;
    run_all(&rt, alloc, &CHECKPOINTS)?;
    run_all(&rt, alloc, &CLOSES)
}
