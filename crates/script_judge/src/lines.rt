// Lines of a script, by chance: one whole call each.

ghost use Rattle.std.specs.Prelude.{◌<◌};

use crate::chance::Chance;
use crate::hints::{Hint, hint_of};
use item::Item;
use limits::{KEY_MAX, VALUE_MAX};
use std::alloc::{AllocError, Global};
use wt_code::Answer;

/// The sessions that make calls.
pub(crate) const SESSIONS: [&str; 5] = ["s1", "s2", "s3", "s4", "s5"];

/// The tables in which there are rows.
pub(crate) const TABLES: [&str; 2] = ["t", "u"];

/// The keys of the rows of each table.
pub(crate) const KEYS: [&str; 6] = ["a", "b", "c", "d", "e", "f"];

const SYSTEMS: [&str; 4] = ["sys", "sys2", "sys3", "sys4"];

// What a create asks for: three tables, and one of them with other formats too.
const CREATES: [&str; 4] = ["t u u", "u S u", "w u u", "u u u"];

const CURSORS: [&str; 2] = ["c0", "c1"];

// The first stamp around which stamps are drawn.
const FIRST_STAMP: u64 = 32;

// How many calls there are until stamps are drawn one later.
const CALLS_A_STAMP: u64 = 32;

/// The stamp around which the stamps of the call of this number are drawn.
pub(crate) fn stamp_at(call: u32) -> u64 {
    FIRST_STAMP + call as u64 / CALLS_A_STAMP
}

// What a line asks for, where its answer tells what comes next.
#[derive(Clone, Copy, PartialEq, Eq)]
enum Asked {
    Prepare,
    // A commit or a rollback.
    End,
    Other,
}

/// What draws lines, one after the other.
#[derive(Clone, Copy)]
pub(crate) struct Lines {
    chance: Chance,
    // The number of the call.
    call: u32,
    asked: Asked,
    // The session that makes it; none where the system does.
    session: Option<usize>,
    // By session.
    hints: [Hint; 5],
}

impl Lines {
    pub(crate) fn new(seed: u64) -> Lines {
        Lines {
            chance: Chance::new(seed),
            call: 0,
            asked: Asked::Other,
            session: None,
            hints: [Hint::Begin; 5],
        }
    }

    /// The line of the call of this number.
    pub(crate) fn draw(&mut self, alloc: Global, call: u32) -> Result<String, AllocError> {
        self.call = call;
        self.asked = Asked::Other;
        if self.chance.once_in(16) {
            self.session = None;
            return self.system(alloc);
        }
        let session = self.draw_session();
        self.session = Some(session);
        let words = self.of_session(alloc, self.hints[session])?;
        let session = SESSIONS[session];
        format!(in alloc; "{session} {words}")
    }

    // Seldom one whose transaction is prepared, so that others meet it.
    fn draw_session(&mut self) -> usize
        ensures { result < 5 }
    {
        let session = self.chance.below(5) as usize;
        if self.hints[session] == Hint::Resolve && !self.chance.once_in(3) {
            return self.chance.below(5) as usize;
        }
        session
    }

    /// Hears what the last line was answered.
    pub(crate) fn hear(&mut self, answer: &Answer<Item>) {
        if let Some(session) = self.session {
            if session < 5 {
                self.hints[session] = hint_after(self.asked, answer);
            }
        }
    }

    // Mostly what is of use.
    fn of_session(&mut self, alloc: Global, hint: Hint) -> Result<String, AllocError> {
        if self.chance.once_in(4) {
            return self.any(alloc);
        }
        match hint {
            Hint::Begin => self.begin(alloc),
            Hint::RollBack => self.roll_back(alloc),
            Hint::Resolve => self.resolve(alloc),
            Hint::Any => self.any(alloc),
        }
    }

    fn any(&mut self, alloc: Global) -> Result<String, AllocError> {
        match self.chance.below(40) {
            0 => self.begin(alloc),
            1 => self.roll_back(alloc),
            2..=4 => self.prepare(alloc),
            5..=8 => self.commit(alloc),
            9..=28 => self.of_key(alloc),
            _ => self.of_cursor(alloc),
        }
    }

    fn system(&mut self, alloc: Global) -> Result<String, AllocError> {
        let actor = self.chance.pick(&SYSTEMS);
        let words = if self.chance.once_in(4) {
            self.create(alloc)?
        } else {
            self.set(alloc)?
        };
        format!(in alloc; "{actor} {words}")
    }

    fn create(&mut self, alloc: Global) -> Result<String, AllocError> {
        let table = self.chance.pick(&CREATES);
        format!(in alloc; "create {table}")
    }

    // Mostly before the stamps of commits.
    fn set(&mut self, alloc: Global) -> Result<String, AllocError> {
        let oldest = self.stamp(12, 10);
        let stable = self.stamp(10, 10);
        match self.chance.below(4) {
            0 => format!(in alloc; "set oldest={oldest:x}"),
            1 => format!(in alloc; "set stable={stable:x}"),
            _ => format!(in alloc; "set oldest={oldest:x} stable={stable:x}"),
        }
    }

    // A stamp from so much before the present one on, of so many; now and then zero.
    fn stamp(&mut self, before: u64, count: u64) -> u64
        requires { 0 < count }
    {
        if self.chance.once_in(64) {
            return 0;
        }
        let first = stamp_at(self.call).saturating_sub(before);
        first.saturating_add(self.chance.below(count))
    }

    fn begin(&mut self, alloc: Global) -> Result<String, AllocError> {
        if self.chance.once_in(2) {
            return String::from_str(alloc, "begin");
        }
        let read = self.stamp(8, 12);
        format!(in alloc; "begin read={read:x}")
    }

    fn roll_back(&mut self, alloc: Global) -> Result<String, AllocError> {
        self.asked = Asked::End;
        String::from_str(alloc, "rollback")
    }

    fn prepare(&mut self, alloc: Global) -> Result<String, AllocError> {
        self.asked = Asked::Prepare;
        let stamp = self.stamp(6, 12);
        format!(in alloc; "prepare {stamp:x}")
    }

    // Mostly as a transaction that is not prepared takes it.
    fn commit(&mut self, alloc: Global) -> Result<String, AllocError> {
        self.asked = Asked::End;
        let commit = self.stamp(6, 18);
        match self.chance.below(8) {
            0 => self.resolve(alloc),
            1..=2 => String::from_str(alloc, "commit"),
            _ => format!(in alloc; "commit commit={commit:x}"),
        }
    }

    // Mostly as one that is prepared takes it.
    fn resolve(&mut self, alloc: Global) -> Result<String, AllocError> {
        self.asked = Asked::End;
        let commit = self.stamp(4, 16);
        let durable = self.stamp(2, 18);
        match self.chance.below(8) {
            0 => self.roll_back(alloc),
            1 => format!(in alloc; "commit durable={durable:x}"),
            2..=3 => format!(in alloc; "commit commit={commit:x}"),
            _ => format!(in alloc; "commit commit={commit:x} durable={durable:x}"),
        }
    }

    fn of_key(&mut self, alloc: Global) -> Result<String, AllocError> {
        match self.chance.below(16) {
            0..=4 => self.keyed(alloc, "get"),
            5..=9 => self.write(alloc, "put"),
            10..=11 => self.write(alloc, "insert"),
            12..=13 => self.keyed(alloc, "remove"),
            _ => self.seek(alloc),
        }
    }

    fn keyed(&mut self, alloc: Global, verb: &str) -> Result<String, AllocError> {
        let table = self.table();
        let key = self.key(alloc)?;
        format!(in alloc; "{verb} {table} {key}")
    }

    fn write(&mut self, alloc: Global, verb: &str) -> Result<String, AllocError> {
        let front = self.keyed(alloc, verb)?;
        let value = self.value(alloc)?;
        format!(in alloc; "{front} {value}")
    }

    fn seek(&mut self, alloc: Global) -> Result<String, AllocError> {
        let cursor = self.chance.pick(&CURSORS);
        let table = self.table();
        let key = self.key(alloc)?;
        format!(in alloc; "seek {cursor} {table} {key}")
    }

    fn of_cursor(&mut self, alloc: Global) -> Result<String, AllocError> {
        let cursor = self.chance.pick(&CURSORS);
        let table = self.table();
        match self.chance.below(16) {
            0..=8 => format!(in alloc; "next {cursor} {table}"),
            9..=14 => format!(in alloc; "prev {cursor} {table}"),
            _ => format!(in alloc; "reset {cursor}"),
        }
    }

    // Now and then one that is never there.
    fn table(&mut self) -> &'static str {
        if self.chance.once_in(48) {
            return "none";
        }
        self.chance.pick(&TABLES)
    }

    // Now and then one that is too long.
    fn key(&mut self, alloc: Global) -> Result<String, AllocError> {
        if self.chance.once_in(64) {
            return longer_than(alloc, KEY_MAX);
        }
        String::from_str(alloc, self.chance.pick(&KEYS))
    }

    // The number of the call, which no other value is, and now and then one that is too long.
    fn value(&mut self, alloc: Global) -> Result<String, AllocError> {
        if self.chance.once_in(48) {
            return longer_than(alloc, VALUE_MAX);
        }
        let call = self.call;
        format!(in alloc; "{call}")
    }
}

fn hint_after(asked: Asked, answer: &Answer<Item>) -> Hint {
    match (asked, answer) {
        (Asked::End, Answer::Done) => Hint::Begin,
        (Asked::Prepare, Answer::Done) => Hint::Resolve,
        _ => hint_of(answer),
    }
}

// A text of one byte more.
fn longer_than(alloc: Global, most: usize) -> Result<String, AllocError> {
    let mut text = String::new(alloc);
    for _ in 0..most {
        text.push_str("x")?;
    }
    text.push_str("x")?;
    Ok(text)
}
