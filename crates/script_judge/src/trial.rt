// A trial: so many lines by chance, each made by the engine and by the model.

use crate::lines::{KEYS, Lines, SESSIONS, TABLES, stamp_at};
use crate::outcomes::Outcomes;
use crate::pair::Pair;
use failure::NoMemory;
use item::{Format, Formats, Item};
use script_text::{Line, Reply, line_of_answer, parse_line};
use std::alloc::{AllocError, Global};
use wt_calls::Call;
use wt_code::Answer;

/// What is judged: the seed of the draws, and how many calls are made.
#[derive(Clone, Copy)]
pub(crate) struct Trial {
    pub(crate) seed: u64,
    pub(crate) calls: u32,
}

/// The first call that is answered otherwise.
#[derive(Drop)]
pub(crate) struct Difference {
    /// Its number, counted from 1; of a read of all rows that of the call before it.
    pub(crate) call: u32,
    pub(crate) line: String,
    /// What the engine answers.
    pub(crate) engine: String,
    /// What the model answers.
    pub(crate) model: String,
}

/// Why a trial stops.
#[derive(Drop)]
pub(crate) enum Stop {
    NoMemory,
    /// This line is no call that the engine has.
    NoCall(String),
    Differs(Difference),
}

impl From<NoMemory> for Stop {
    fn from(_: NoMemory) -> Self {
        Stop::NoMemory
    }
}

impl From<AllocError> for Stop {
    fn from(_: AllocError) -> Self {
        Stop::NoMemory
    }
}

// After so many calls all rows are read.
const CALLS_A_READING: u32 = 500;

// The session that reads all rows.
const READER: &str = "s6";

// More rows than a table has.
const ROWS: u32 = 16;

/// Makes a trial. The outcomes of its calls, those of the reads of all rows not counted.
pub(crate) fn make_trial(alloc: Global, trial: Trial) -> Result<Outcomes, Stop> {
    let mut judge = Judge::new(alloc)?;
    let mut lines = Lines::new(trial.seed);
    let mut outcomes = Outcomes::new(alloc);
    for n in 0..trial.calls {
        judge.call = n.saturating_add(1);
        let line = lines.draw(alloc, judge.call)?;
        let answer = judge.ask(alloc, line.as_str())?;
        lines.hear(&answer);
        outcomes.count(alloc, &answer)?;
        if judge.call % CALLS_A_READING == 0 {
            judge.read_all(alloc)?;
        }
    }
    judge.read_all(alloc)?;
    Ok(outcomes)
}

// Both sides, and the number of the call.
#[derive(Drop)]
struct Judge {
    pair: Pair,
    call: u32,
}

impl Judge {
    fn new(alloc: Global) -> Result<Judge, NoMemory> {
        let mut pair = Pair::new(alloc)?;
        for _ in SESSIONS {
            pair.open_session(alloc)?;
        }
        pair.open_session(alloc)?;
        Ok(Judge { pair, call: 0 })
    }

    // The answer that both give to the line.
    fn ask(&mut self, alloc: Global, line: &str) -> Result<Answer<Item>, Stop> {
        let Some(engine) = self.pair.ask_engine(alloc, call_of(alloc, line)?) else {
            return Err(no_call(alloc, line)?);
        };
        let model = self.pair.ask_model(alloc, call_of(alloc, line)?)?;
        if engine == model {
            return Ok(engine);
        }
        Err(Stop::Differs(Difference {
            call: self.call,
            line: String::from_str(alloc, line)?,
            engine: shown(alloc, engine)?,
            model: shown(alloc, model)?,
        }))
    }

    // Reads all rows without a read stamp, and at one.
    fn read_all(&mut self, alloc: Global) -> Result<(), Stop> {
        let newest = format!(in alloc; "{READER} begin")?;
        self.read_tables(alloc, newest.as_str())?;
        let stamp = stamp_at(self.call);
        let stamped = format!(in alloc; "{READER} begin read={stamp:x}")?;
        self.read_tables(alloc, stamped.as_str())
    }

    fn read_tables(&mut self, alloc: Global, begin: &str) -> Result<(), Stop> {
        let _begun = self.ask(alloc, begin)?;
        for table in TABLES {
            self.read_rows(alloc, table)?;
            self.read_keys(alloc, table)?;
        }
        let end = format!(in alloc; "{READER} rollback")?;
        let _ended = self.ask(alloc, end.as_str())?;
        Ok(())
    }

    // From the first row to the end, or to a conflict.
    fn read_rows(&mut self, alloc: Global, table: &str) -> Result<(), Stop> {
        let next = format!(in alloc; "{READER} next c0 {table}")?;
        for _ in 0..ROWS {
            let answer = self.ask(alloc, next.as_str())?;
            if matches!(answer, Answer::Refused(_)) {
                break;
            }
        }
        Ok(())
    }

    // Each key, also those behind a conflict.
    fn read_keys(&mut self, alloc: Global, table: &str) -> Result<(), Stop> {
        for key in KEYS {
            let get = format!(in alloc; "{READER} get {table} {key}")?;
            let _answer = self.ask(alloc, get.as_str())?;
        }
        Ok(())
    }
}

fn no_call(alloc: Global, line: &str) -> Result<Stop, AllocError> {
    Ok(Stop::NoCall(String::from_str(alloc, line)?))
}

// The call of a line.
fn call_of(alloc: Global, line: &str) -> Result<Call, Stop> {
    match parse_line(alloc, line.as_bytes())? {
        Some(Line::Whole(call)) => Ok(call),
        _ => Err(no_call(alloc, line)?),
    }
}

// An answer as a script tells it, and a refusal with its numbers.
fn shown(alloc: Global, answer: Answer<Item>) -> Result<String, Stop> {
    if let Answer::Refused(refusal) = answer {
        return Ok(format!(in alloc; "{refusal:?}")?);
    }
    let plain = Formats {
        key: Format::U,
        value: Format::U,
    };
    let line = line_of_answer(alloc, &Reply::Answered(answer), plain)?;
    Ok(String::from_utf8_lossy(alloc, line.as_slice())?)
}
