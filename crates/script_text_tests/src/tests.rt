// What lines that people write ask for, and what is printed of replies.
use item::{Format, Formats, Item, escape};
use script_text::{Line, Reply, as_stored, line_of_answer, parse_line};
use std::alloc::Global;
use std::process::Abort;
use std::test::Fail;
use wt_calls::{Call, Demand, SessionCall, SystemCall, Way};
use wt_code::{Answer, Busy, Invalid, Refusal};

fn shown(alloc: Global, item: &Item) -> Result<String, Fail> {
    let text = escape(alloc, item)?;
    let shown = String::from_utf8_lossy(alloc, text.as_slice())?;
    Ok(shown)
}

// A verb, a table, and a key in angle brackets.
fn keyed(alloc: Global, verb: &str, table: &Item, key: &Item) -> Result<String, Fail> {
    let table = shown(alloc, table)?;
    let key = shown(alloc, key)?;
    Ok(format!(in alloc; "{verb} {table} <{key}>")?)
}

fn put(
    alloc: Global,
    demand: Demand,
    table: &Item,
    key: &Item,
    value: &Item,
) -> Result<String, Fail> {
    let front = keyed(alloc, "put", table, key)?;
    let value = shown(alloc, value)?;
    Ok(format!(in alloc; "{front} <{value}> {demand:?}")?)
}

fn seek(alloc: Global, cursor: u32, table: &Item, key: &Item) -> Result<String, Fail> {
    let front = keyed(alloc, "seek", table, key)?;
    Ok(format!(in alloc; "{front} by {cursor}")?)
}

fn step(alloc: Global, cursor: u32, table: &Item, way: Way) -> Result<String, Fail> {
    let table = shown(alloc, table)?;
    Ok(format!(in alloc; "{way:?} {table} by {cursor}")?)
}

fn session_call(alloc: Global, call: &SessionCall) -> Result<String, Fail> {
    match call {
        SessionCall::Begin(read) => Ok(format!(in alloc; "begin {read:?}")?),
        SessionCall::Get { table, key } => keyed(alloc, "get", table, key),
        SessionCall::Put {
            table,
            key,
            value,
            demand,
        } => put(alloc, *demand, table, key, value),
        SessionCall::Remove { table, key } => keyed(alloc, "remove", table, key),
        SessionCall::Seek { cursor, table, key } => seek(alloc, *cursor, table, key),
        SessionCall::Step { cursor, table, way } => step(alloc, *cursor, table, *way),
        SessionCall::Reset(cursor) => Ok(format!(in alloc; "reset {cursor}")?),
        SessionCall::Prepare(stamp) => Ok(format!(in alloc; "prepare {stamp}")?),
        SessionCall::Commit { commit, durable } => {
            Ok(format!(in alloc; "commit {commit:?} {durable:?}")?)
        }
        SessionCall::Rollback => Ok(String::from_str(alloc, "rollback")?),
    }
}

fn create(alloc: Global, table: &Item, formats: Formats) -> Result<String, Fail> {
    let table = shown(alloc, table)?;
    let key = formats.key;
    let value = formats.value;
    Ok(format!(in alloc; "create {table} {key:?} {value:?}")?)
}

fn system_call(alloc: Global, call: &SystemCall) -> Result<String, Fail> {
    match call {
        SystemCall::Create { table, formats } => create(alloc, table, *formats),
        SystemCall::SetStamps { oldest, stable } => {
            Ok(format!(in alloc; "set {oldest:?} {stable:?}")?)
        }
        SystemCall::RollbackToStable => Ok(String::from_str(alloc, "rollback to stable")?),
        SystemCall::StartCheckpoint => Ok(String::from_str(alloc, "start checkpoint")?),
        SystemCall::StepCheckpoint => Ok(String::from_str(alloc, "step checkpoint")?),
        SystemCall::FinishCheckpoint => Ok(String::from_str(alloc, "finish checkpoint")?),
        SystemCall::Evict { table, key } => keyed(alloc, "evict", table, key),
        SystemCall::Close => Ok(String::from_str(alloc, "close")?),
    }
}

fn call_text(alloc: Global, call: &Call) -> Result<String, Fail> {
    match call {
        Call::Session(number, call) => {
            let text = session_call(alloc, call)?;
            Ok(format!(in alloc; "session {number}: {text}")?)
        }
        Call::System(number, call) => {
            let text = system_call(alloc, call)?;
            Ok(format!(in alloc; "system {number}: {text}")?)
        }
    }
}

fn line_text(alloc: Global, line: &Line) -> Result<String, Fail> {
    match line {
        Line::Whole(call) => call_text(alloc, call),
        Line::Start(call) => {
            let text = call_text(alloc, call)?;
            Ok(format!(in alloc; "start {text}")?)
        }
        Line::Step(actor) => Ok(format!(in alloc; "step {actor:?}")?),
        Line::Finish(actor) => Ok(format!(in alloc; "finish {actor:?}")?),
        Line::Control(control) => Ok(format!(in alloc; "{control:?}")?),
    }
}

// What a line asks for, as text.
fn asked(alloc: Global, line: &str) -> Result<String, Fail> {
    match parse_line(alloc, line.as_bytes())? {
        Some(line) => line_text(alloc, &line),
        None => Ok(String::from_str(alloc, "nothing")?),
    }
}

const TRANSACTIONS: [(&str, &str); 9] = [
    ("s1 begin", "session 0: begin None"),
    ("s1 begin read=a", "session 0: begin Some(10)"),
    ("s2 prepare ff", "session 1: prepare 255"),
    ("s10 prepare 000000000000000a", "session 9: prepare 10"),
    ("s99 rollback", "session 98: rollback"),
    ("s1 commit", "session 0: commit None None"),
    ("s1 commit commit=10", "session 0: commit Some(16) None"),
    ("s1 commit durable=1", "session 0: commit None Some(1)"),
    (
        "s999 commit commit=0 durable=ffffffffffffffff",
        "session 998: commit Some(0) Some(18446744073709551615)",
    ),
];

const ROWS: [(&str, &str); 11] = [
    ("s1 get t a", "session 0: get t <a>"),
    ("s1 put t k v", "session 0: put t <k> <v> Anything"),
    ("s1 insert t k v", "session 0: put t <k> <v> Vacant"),
    ("s1 remove t k", "session 0: remove t <k>"),
    ("s1 seek c0 t k", "session 0: seek t <k> by 0"),
    ("s1 next c3 t", "session 0: Up t by 3"),
    ("s1 prev c1 t", "session 0: Down t by 1"),
    ("s1 reset c2", "session 0: reset 2"),
    ("s1 get t \\-", "session 0: get t <>"),
    (
        "s1 put t \\00\\20 \\5C\\\\",
        "session 0: put t <\\00 > <\\\\\\\\> Anything",
    ),
    ("s1 get get get", "session 0: get get <get>"),
];

const SYSTEM: [(&str, &str); 14] = [
    ("sys create t S u", "system 0: create t S U"),
    ("sys2 set oldest=1", "system 1: set Some(1) None"),
    ("sys3 set stable=2", "system 2: set None Some(2)"),
    (
        "sys4 set oldest=1 stable=2",
        "system 3: set Some(1) Some(2)",
    ),
    ("sys ckpt-start", "system 0: start checkpoint"),
    ("sys ckpt-step", "system 0: step checkpoint"),
    ("sys ckpt-finish", "system 0: finish checkpoint"),
    ("sys rts", "system 0: rollback to stable"),
    ("sys evict t k", "system 0: evict t <k>"),
    ("sys ckpt", "Checkpoint"),
    ("sys close", "Close"),
    ("sys crash", "Crash"),
    ("sys frames 4", "Frames(4)"),
    ("sys frames 1024", "Frames(1024)"),
];

const STEPS: [(&str, &str); 6] = [
    ("s1! put t a x", "start session 0: put t <a> <x> Anything"),
    ("sys2! evict t a", "start system 1: evict t <a>"),
    ("s1.", "step Session(0)"),
    ("s999..", "finish Session(998)"),
    ("sys.", "step System(0)"),
    ("sys4..", "finish System(3)"),
];

const NO_ACTOR: [&str; 23] = [
    "",
    " ",
    "s1",
    "s1!",
    "s1...",
    "s1.!",
    "s1. get t a",
    "s1.. get t a",
    "s1! ",
    "sys",
    "!",
    ".",
    "get t a",
    "s get t a",
    "s0 get t a",
    "s01 get t a",
    "s1000 get t a",
    "s-1 begin",
    "S1 begin",
    "sys1 rts",
    "sys5 rts",
    "sys02 rts",
    "system rts",
];

const NO_WORDS: [&str; 14] = [
    "s1  get t a",
    " s1 get t a",
    "s1 get t a ",
    "s1 get t  a",
    "s1\tget t a",
    "s1 fly",
    "s1 Get t a",
    "s1 get t",
    "s1 get t a b",
    "s1 put t a",
    "s1 put t a b c",
    "s1 insert t a",
    "s1 remove t",
    "s1 rollback now",
];

const NO_ITEM: [&str; 14] = [
    "s1 get t \\",
    "s1 get t \\0",
    "s1 get t \\g0",
    "s1 get t a\\-",
    "s1 put t a \\",
    "s1 seek c4 t a",
    "s1 seek c t a",
    "s1 seek 0 t a",
    "s1 seek c00 t a",
    "s1 next c0",
    "s1 next c0 t a",
    "s1 prev c4 t",
    "s1 reset",
    "s1 reset c0 t",
];

const NO_STAMP: [&str; 17] = [
    "s1 begin read=",
    "s1 begin read=A",
    "s1 begin read=00000000000000001",
    "s1 begin read=+1",
    "s1 begin read=0x1",
    "s1 begin 1",
    "s1 begin read=1 read=2",
    "s1 prepare",
    "s1 prepare g",
    "s1 commit durable=1 commit=1",
    "s1 commit commit=1 commit=2",
    "s1 commit commit=1 durable=2 x",
    "s1 commit 1",
    "sys set",
    "sys set stable=1 oldest=1",
    "sys set oldest=",
    "sys set commit=1",
];

const NO_SYSTEM: [&str; 15] = [
    "s1 create t S S",
    "s1 rts",
    "s1 ckpt",
    "s1 close",
    "s1 crash",
    "s1 frames 64",
    "sys begin",
    "sys get t a",
    "sys create t S",
    "sys create t S s",
    "sys create t U u",
    "sys create t S S S",
    "sys rts now",
    "sys evict t",
    "sys ckpt-step 1",
];

const NO_CONTROL: [&str; 16] = [
    "sys ckpt!",
    "sys! ckpt",
    "sys! close",
    "sys! crash",
    "sys! frames 64",
    "sys2 ckpt",
    "sys2 close",
    "sys2 crash",
    "sys4 frames 64",
    "sys ckpt now",
    "sys frames",
    "sys frames 3",
    "sys frames 1025",
    "sys frames 064",
    "sys frames 4 4",
    "sys frames 40x",
];

fn all_ask(rt: &impl Abort, alloc: Global, rows: &[(&str, &str)]) -> Result<(), Fail> {
    for (line, wanted) in rows {
        let found = asked(alloc, line)?;
        assert_eq!(rt; found.as_str(), *wanted, "at {line}");
    }
    Ok(())
}

#[test]
fn each_row_of_the_grammar_is_read(rt: HostRuntime) -> Result<(), Fail> {
    let alloc = rt.alloc();
    all_ask(&rt, alloc, &TRANSACTIONS)?;
    all_ask(&rt, alloc, &ROWS)?;
    all_ask(&rt, alloc, &SYSTEM)?;
    all_ask(&rt, alloc, &STEPS)?;
    Ok(())
}

fn none_asks(rt: &impl Abort, alloc: Global, lines: &[&str]) -> Result<(), Fail> {
    for line in lines {
        let found = asked(alloc, line)?;
        assert_eq!(rt; found.as_str(), "nothing", "at {line}");
    }
    Ok(())
}

// Whether a line of this length that reads a key asks for anything.
fn long_line_asks(alloc: Global, len: usize) -> Result<bool, Fail> {
    let mut line = b"s1 get t ".to_vec(alloc)?;
    line.resize(len, b'a')?;
    let found = parse_line(alloc, line.as_slice())?;
    Ok(found.is_some())
}

#[test]
fn other_lines_ask_for_nothing(rt: HostRuntime) -> Result<(), Fail> {
    let alloc = rt.alloc();
    none_asks(&rt, alloc, &NO_ACTOR)?;
    none_asks(&rt, alloc, &NO_WORDS)?;
    none_asks(&rt, alloc, &NO_ITEM)?;
    none_asks(&rt, alloc, &NO_STAMP)?;
    none_asks(&rt, alloc, &NO_SYSTEM)?;
    none_asks(&rt, alloc, &NO_CONTROL)?;
    assert!(rt; long_line_asks(alloc, 65_536)?);
    assert!(rt; !long_line_asks(alloc, 65_537)?);
    Ok(())
}

const TEXTS: Formats = Formats {
    key: Format::S,
    value: Format::S,
};

const BYTES: Formats = Formats {
    key: Format::U,
    value: Format::U,
};

fn item(alloc: Global, bytes: &[u8]) -> Result<Item, Fail> {
    Ok(Item::new(bytes.to_vec(alloc)?))
}

fn told(alloc: Global, reply: Reply, formats: Formats) -> Result<String, Fail> {
    let line = line_of_answer(alloc, &reply, formats)?;
    Ok(String::from_utf8_lossy(alloc, line.as_slice())?)
}

fn answer(alloc: Global, answer: Answer<Item>, formats: Formats) -> Result<String, Fail> {
    told(alloc, Reply::Answered(answer), formats)
}

fn value(alloc: Global, bytes: &[u8], formats: Formats) -> Result<String, Fail> {
    let value = item(alloc, bytes)?;
    answer(alloc, Answer::Value(value), formats)
}

fn row(alloc: Global, key: &[u8], value: &[u8], formats: Formats) -> Result<String, Fail> {
    let key = item(alloc, key)?;
    let value = item(alloc, value)?;
    answer(alloc, Answer::Row(key, value), formats)
}

fn values_are_told(rt: &impl Abort, alloc: Global) -> Result<(), Fail> {
    assert_eq!(rt; value(alloc, b"x\0", TEXTS)?.as_str(), "ok x");
    assert_eq!(rt; value(alloc, b"x\0\0", TEXTS)?.as_str(), "ok x\\00");
    assert_eq!(rt; value(alloc, b"\0", TEXTS)?.as_str(), "ok ");
    assert_eq!(rt; value(alloc, b"x\0", BYTES)?.as_str(), "ok x\\00");
    assert_eq!(rt; row(alloc, b"a\0", b"1\n\0", TEXTS)?.as_str(), "ok a 1\\0a");
    Ok(())
}

fn others_are_told(rt: &impl Abort, alloc: Global) -> Result<(), Fail> {
    let busy = Refusal::Busy(Busy::Active(0));
    let text = Refusal::Invalid(Invalid::Text { line: 2 });
    assert_eq!(rt; told(alloc, Reply::Started, TEXTS)?.as_str(), "started");
    assert_eq!(rt; told(alloc, Reply::More, TEXTS)?.as_str(), "more");
    assert_eq!(rt; answer(alloc, Answer::Done, TEXTS)?.as_str(), "ok");
    assert_eq!(rt; answer(alloc, Answer::Left, TEXTS)?.as_str(), "ok left");
    assert_eq!(rt; answer(alloc, Answer::End, TEXTS)?.as_str(), "ok end");
    assert_eq!(rt;
        answer(alloc, Answer::Refused(busy), TEXTS)?.as_str(),
        "16 busy active s1"
    );
    assert_eq!(rt;
        answer(alloc, Answer::Refused(text), TEXTS)?.as_str(),
        "22 text at line 2"
    );
    Ok(())
}

// The call of a line, with its items as a table of these formats stores them.
fn stored(alloc: Global, line: &str, formats: Formats) -> Result<String, Fail> {
    match parse_line(alloc, line.as_bytes())? {
        Some(Line::Whole(call)) => {
            let call = as_stored(alloc, call, formats)?;
            call_text(alloc, &call)
        }
        _ => Ok(String::from_str(alloc, "no call")?),
    }
}

#[test]
fn items_and_replies_are_told(rt: HostRuntime) -> Result<(), Fail> {
    let alloc = rt.alloc();
    values_are_told(&rt, alloc)?;
    others_are_told(&rt, alloc)?;
    let texts = stored(alloc, "s1 put t \\- v", TEXTS)?;
    let bytes = stored(alloc, "s1 put t \\- v", BYTES)?;
    assert_eq!(rt; texts.as_str(), "session 0: put t <\\00> <v\\00> Anything");
    assert_eq!(rt; bytes.as_str(), "session 0: put t <> <v> Anything");
    Ok(())
}
