// Rows that are written over, in more leaves than there are frames.
use super::{Script, outcome, plain, push, push_oks, text_of};
use std::alloc::Global;
use std::process::Abort;

// A table of rows, each with a text of so many tens of letters.
#[derive(Clone, Copy)]
struct Rows {
    count: u32,
    tens: usize,
}

// The letters of the rows before and after they are written over.
const OLD: &str = "aaaaaaaaaa";

const NEW: &str = "bbbbbbbbbb";

// No divisor of the numbers of rows divides it: the rows are written over by steps of so many.
const STRIDE: u32 = 1_777;

// The row of a step.
fn row_at(rows: Rows, step: u32) -> u32 {
    step.wrapping_mul(STRIDE) % rows.count.max(1)
}

fn number_text(rt: &impl Abort, alloc: Global, row: u32) -> String {
    format!(in alloc; "{row}").expect(rt, "there is memory")
}

// The value of a row: its text and its number.
fn value(rt: &impl Abort, alloc: Global, rows: Rows, ten: &str, row: u32) -> String {
    let mut text = String::new(alloc);
    for _ in 0..rows.tens {
        push(rt, &mut text, ten);
    }
    push(rt, &mut text, number_text(rt, alloc, row).as_str());
    text
}

fn old_value(rt: &impl Abort, alloc: Global, rows: Rows, row: u32) -> String {
    value(rt, alloc, rows, OLD, row)
}

fn new_value(rt: &impl Abort, alloc: Global, rows: Rows, row: u32) -> String {
    value(rt, alloc, rows, NEW, row)
}

fn put_line(rt: &impl Abort, alloc: Global, row: u32, value: &str) -> String {
    let line = format!(in alloc; "s1 put t key{row} {value}\n");
    line.expect(rt, "there is memory")
}

// Puts a row in the transaction of a session.
fn push_put(rt: &impl Abort, alloc: Global, text: &mut String, row: u32, value: &str) {
    push(rt, text, put_line(rt, alloc, row, value).as_str());
}

// Puts a row in a transaction of its own.
fn push_whole_put(rt: &impl Abort, alloc: Global, text: &mut String, row: u32, value: &str) {
    push(rt, text, "s1 begin\n");
    push_put(rt, alloc, text, row, value);
    push(rt, text, "s1 commit\n");
}

fn push_old_rows(rt: &impl Abort, alloc: Global, text: &mut String, rows: Rows) {
    for row in 0..rows.count {
        let old = old_value(rt, alloc, rows, row);
        push_put(rt, alloc, text, row, old.as_str());
    }
}

// The rows are put, a checkpoint is taken, and the device is opened with four frames.
fn filled(rt: &impl Abort, alloc: Global, rows: Rows) -> String {
    let mut text = text_of(rt, alloc, "sys create t S S\ns1 begin\n");
    push_old_rows(rt, alloc, &mut text, rows);
    push(rt, &mut text, "s1 commit\nsys ckpt\nsys frames 4\n");
    text
}

// Each row is written over, in a transaction of its own.
fn push_written_over(rt: &impl Abort, alloc: Global, text: &mut String, rows: Rows) {
    for step in 0..rows.count {
        let row = row_at(rows, step);
        let new = new_value(rt, alloc, rows, row);
        push_whole_put(rt, alloc, text, row, new.as_str());
    }
}

fn get_line(rt: &impl Abort, alloc: Global, row: u32) -> String {
    let line = format!(in alloc; "s1 get t key{row}\n");
    line.expect(rt, "there is memory")
}

// Each row is read.
fn push_read(rt: &impl Abort, alloc: Global, text: &mut String, rows: Rows) {
    push(rt, text, "s1 begin\n");
    for step in 0..rows.count {
        let line = get_line(rt, alloc, row_at(rows, step));
        push(rt, text, line.as_str());
    }
    push(rt, text, "s1 commit\n");
}

// What is printed as a value is read.
fn push_value(rt: &impl Abort, text: &mut String, value: &str) {
    push(rt, text, "ok ");
    push(rt, text, value);
    push(rt, text, "\n");
}

// What is printed as each row is read that was written over.
fn push_new_rows(rt: &impl Abort, alloc: Global, text: &mut String, rows: Rows) {
    push(rt, text, "ok\n");
    for step in 0..rows.count {
        let new = new_value(rt, alloc, rows, row_at(rows, step));
        push_value(rt, text, new.as_str());
    }
    push(rt, text, "ok\n");
}

// A script on a disk with more room.
fn roomy(text: &str) -> Script<'_> {
    Script {
        room: 1 << 22,
        ..plain(text)
    }
}

fn check_told(rt: &impl Abort, alloc: Global, text: &str, wanted: &str) {
    let told = outcome(rt, alloc, roomy(text));
    assert!(rt; told.as_str() == wanted);
}

fn over_lines(rt: &impl Abort, alloc: Global, rows: Rows) -> String {
    let mut text = filled(rt, alloc, rows);
    push_written_over(rt, alloc, &mut text, rows);
    push_read(rt, alloc, &mut text, rows);
    push(rt, &mut text, "sys ckpt\nsys crash\n");
    push_read(rt, alloc, &mut text, rows);
    text
}

fn over_printed(rt: &impl Abort, alloc: Global, rows: Rows) -> String {
    let mut wanted = String::new(alloc);
    push_oks(rt, &mut wanted, 6_005);
    push_new_rows(rt, alloc, &mut wanted, rows);
    push_oks(rt, &mut wanted, 2);
    push_new_rows(rt, alloc, &mut wanted, rows);
    push(rt, &mut wanted, "Through None");
    wanted
}

const TWELVE_LEAVES: Rows = Rows {
    count: 1_500,
    tens: 20,
};

// Some twelve leaves, which go out of four frames and come in again.
#[test]
fn rows_in_more_leaves_than_frames_are_written_over(rt: HostRuntime) {
    let alloc = rt.alloc();
    let text = over_lines(&rt, alloc, TWELVE_LEAVES);
    let wanted = over_printed(&rt, alloc, TWELVE_LEAVES);
    check_told(&rt, alloc, text.as_str(), wanted.as_str());
}

// What is printed as a row is read, of which one has a later value.
fn push_row_but(rt: &impl Abort, alloc: Global, text: &mut String, rows: Rows, row: u32) {
    if row == LATER {
        push_value(rt, text, "v299");
    } else {
        push_value(rt, text, old_value(rt, alloc, rows, row).as_str());
    }
}

// The row that has later values.
const LATER: u32 = 5;

fn push_old_but(rt: &impl Abort, alloc: Global, text: &mut String, rows: Rows) {
    push(rt, text, "ok\n");
    for step in 0..rows.count {
        push_row_but(rt, alloc, text, rows, row_at(rows, step));
    }
    push(rt, text, "ok\n");
}

fn later_value(rt: &impl Abort, alloc: Global, number: u32) -> String {
    format!(in alloc; "v{number}").expect(rt, "there is memory")
}

fn push_later(rt: &impl Abort, alloc: Global, text: &mut String) {
    for number in 0..300u32 {
        let value = later_value(rt, alloc, number);
        push_whole_put(rt, alloc, text, LATER, value.as_str());
    }
}

fn later_lines(rt: &impl Abort, alloc: Global, rows: Rows) -> String {
    let mut text = filled(rt, alloc, rows);
    push(rt, &mut text, "s2 begin\n");
    push_later(rt, alloc, &mut text);
    push_read(rt, alloc, &mut text, rows);
    push(rt, &mut text, "s2 get t key5\ns1 begin\ns1 get t key5\n");
    text
}

fn later_printed(rt: &impl Abort, alloc: Global, rows: Rows) -> String {
    let mut wanted = String::new(alloc);
    push_oks(rt, &mut wanted, 3_906);
    push_old_but(rt, alloc, &mut wanted, rows);
    push_value(rt, &mut wanted, old_value(rt, alloc, rows, LATER).as_str());
    push(rt, &mut wanted, "ok\nok v299\nThrough None");
    wanted
}

const MANY_LEAVES: Rows = Rows {
    count: 3_000,
    tens: 10,
};

// One key gets 300 values while a reader has its snapshot, and then each row is read: the key's leaf goes
// out of four frames, and comes back. The reader reads its value still, another one the newest.
#[test]
fn a_leaf_that_a_reader_wants_goes_out_and_comes_back(rt: HostRuntime) {
    let alloc = rt.alloc();
    let text = later_lines(&rt, alloc, MANY_LEAVES);
    let wanted = later_printed(&rt, alloc, MANY_LEAVES);
    check_told(&rt, alloc, text.as_str(), wanted.as_str());
}

// How many lines are refused by a fault of the disk, and how many since a write failed.
#[derive(Clone, Copy)]
struct Refused {
    faults: u32,
    panics: u32,
}

const NONE_REFUSED: Refused = Refused {
    faults: 0,
    panics: 0,
};

fn with_line(tally: Refused, line: &str) -> Refused {
    let mut tally = tally;
    if line == "5 disk fault" {
        tally.faults = tally.faults.saturating_add(1);
    }
    if line == "-31804 panic" {
        tally.panics = tally.panics.saturating_add(1);
    }
    tally
}

fn tally(told: &str) -> Refused {
    let mut tally = NONE_REFUSED;
    for line in told.lines() {
        tally = with_line(tally, line);
    }
    tally
}

fn sum(one: Refused, other: Refused) -> Refused {
    Refused {
        faults: one.faults.saturating_add(other.faults),
        panics: one.panics.saturating_add(other.panics),
    }
}

// How the script ends.
fn end_by(tally: Refused) -> &'static str {
    if tally.faults > 0 {
        "Through Some(DiskFault)"
    } else {
        "Through None"
    }
}

fn ends(told: &str, end: &str) -> bool {
    told.as_bytes().ends_with(end.as_bytes())
}

// Whether all was put, and the script came to its end.
fn is_through(rt: &impl Abort, alloc: Global, rows: Rows, told: &str, end: &str) -> bool {
    let mut begun = String::new(alloc);
    push_oks(rt, &mut begun, rows.count.saturating_add(5));
    told.as_bytes().starts_with(begun.as_str().as_bytes()) && ends(told, end)
}

// What is printed behind the crash where the first row is read.
fn read_end(rt: &impl Abort, alloc: Global, rows: Rows, end: &str) -> String {
    let old = old_value(rt, alloc, rows, 0);
    let old = old.as_str();
    let text = format!(in alloc; "\nok\nok\nok {old}\n{end}");
    text.expect(rt, "there is memory")
}

// The same where a read fails.
fn unread_end(rt: &impl Abort, alloc: Global, end: &str) -> String {
    let text = format!(in alloc; "\nok\nok\n5 disk fault\n{end}");
    text.expect(rt, "there is memory")
}

fn check_end(rt: &impl Abort, alloc: Global, rows: Rows, told: &str, end: &str) {
    let read = read_end(rt, alloc, rows, end);
    let unread = unread_end(rt, alloc, end);
    assert!(rt; ends(told, read.as_str()) || ends(told, unread.as_str()));
}

// The call of the disk of this number fails.
fn told_failing(rt: &impl Abort, alloc: Global, text: &str, call: u64) -> String {
    let script = Script {
        disk: &[call],
        ..roomy(text)
    };
    outcome(rt, alloc, script)
}

// What a crash leaves has none of what was written since the checkpoint. Nothing is told where the call
// failed before that, or kept the device from being opened.
fn refused_in(rt: &impl Abort, alloc: Global, rows: Rows, told: &str) -> Refused {
    let tally = tally(told);
    let end = end_by(tally);
    if !is_through(rt, alloc, rows, told, end) {
        return NONE_REFUSED;
    }
    check_end(rt, alloc, rows, told, end);
    assert!(rt; tally.faults == 0 || tally.panics == 0);
    tally
}

fn failing_lines(rt: &impl Abort, alloc: Global, rows: Rows) -> String {
    let mut text = filled(rt, alloc, rows);
    push_written_over(rt, alloc, &mut text, rows);
    push(rt, &mut text, "sys crash\ns1 begin\ns1 get t key0\n");
    text
}

fn refused_at(rt: &impl Abort, alloc: Global, rows: Rows, text: &str, step: u64) -> Refused {
    let call = 25u64.saturating_add(step.saturating_mul(2));
    let told = told_failing(rt, alloc, text, call);
    refused_in(rt, alloc, rows, told.as_str())
}

const LONG_ROWS: Rows = Rows {
    count: 23,
    tens: 1_000,
};

// A read that fails is told by the line that needs it. A write that fails behind a line is not: the next
// lines are refused, up to the crash.
#[test]
fn a_write_that_fails_behind_a_line_is_told_by_the_next(rt: HostRuntime) {
    let alloc = rt.alloc();
    let text = failing_lines(&rt, alloc, LONG_ROWS);
    let mut all = NONE_REFUSED;
    for step in 0..40u64 {
        all = sum(all, refused_at(&rt, alloc, LONG_ROWS, text.as_str(), step));
    }
    assert!(rt; all.faults > 0 && all.panics > 0);
}
