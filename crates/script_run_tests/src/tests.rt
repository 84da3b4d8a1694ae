// Scripts, with what each prints and how it ends, on a device on which nothing was done.
ghost use Rattle.engine_store.specs.Opened.{IsReady};

mod bad_lines;
mod checkpoints;
mod checkpoints_beside;
mod devices;
mod evictions;
mod evictions_by_steps;
mod full;
mod rooms;
mod steps;
mod stories;

use bad_lines::NO_LINES;
use checkpoints::{CHECKPOINTS, check_two_leaves};
use checkpoints_beside::{BESIDE, check_beside};
use devices::{DEVICES, FAILING, Failing, STAMPED};
use disk_model::MemDisk;
use engine_store::{FRAMES, Frames, Store, open_on};
use evictions::EVICTIONS;
use evictions_by_steps::BY_STEPS;
use plain_disk::PlainDisk;
use script_run::{Lines, NoLine, ScriptRun, run_script};
use std::alloc::Global;
use std::process::Abort;
use std::test::Fail;
use steps::{COMMITS, ROLLBACKS, SINGLE};
use stories::{CALLS, SNAPSHOTS, STAMPS};
use wt_io::{MemSink, MemSource};

// What is shown, and lines with what they print. The line before them makes the table `t` of texts.
#[derive(Clone, Copy)]
struct Story<'a> {
    shows: &'a str,
    rows: &'a [(&'a str, &'a str)],
}

// A script, with the numbers of the reads, the writes and the calls of the disk that fail, and how
// many bytes the disk may hold.
#[derive(Clone, Copy)]
struct Script<'a> {
    text: &'a str,
    reads: &'a [u64],
    writes: &'a [u64],
    disk: &'a [u64],
    room: u64,
}

// A script whose streams do not fail, with what it prints and behind it how it ends.
#[derive(Clone, Copy)]
struct Row<'a> {
    text: &'a str,
    told: &'a str,
}

fn text_of(rt: &impl Abort, alloc: Global, text: &str) -> String {
    String::from_str(alloc, text).expect(rt, "there is memory")
}

fn push(rt: &impl Abort, text: &mut String, more: &str) {
    text.push_str(more).expect(rt, "there is memory");
}

fn device(rt: &impl Abort, alloc: Global, script: Script<'_>) -> PlainDisk {
    let mut content = Vec::new(alloc);
    content.resize(8_192, 0).expect(rt, "there is memory");
    let failing = Vec::from_slice(alloc, script.disk).expect(rt, "there is memory");
    let medium = MemDisk::new(alloc, content, script.room, failing);
    PlainDisk {
        medium: medium.expect(rt, "there is memory"),
    }
}

fn ending(rt: &impl Abort, alloc: Global, ran: ScriptRun) -> String {
    let ScriptRun { end, met } = ran;
    format!(in alloc; "{end:?} {met:?}").expect(rt, "there is memory")
}

// What was printed, and behind it how the script ended.
fn told_of(rt: &impl Abort, alloc: Global, printed: &[u8], ran: ScriptRun) -> String {
    let told = String::from_utf8_lossy(alloc, printed);
    let mut told = told.expect(rt, "there is memory");
    push(rt, &mut told, ending(rt, alloc, ran).as_str());
    told
}

fn run(
    rt: &impl Abort,
    alloc: Global,
    script: Script<'_>,
    store: &mut Store,
    disk: &mut PlainDisk,
) -> String
    requires { IsReady store.old }
{
    let input = MemSource::new(alloc, script.text.as_bytes(), script.reads);
    let mut input = input.expect(rt, "there is memory");
    let out = MemSink::new(alloc, script.writes);
    let mut out = out.expect(rt, "there is memory");
    let ran = run_script(alloc, store, disk, &mut input, &mut out);
    told_of(rt, alloc, out.bytes(), ran)
}

// What a script prints, and behind it how it ends.
fn outcome(rt: &impl Abort, alloc: Global, script: Script<'_>) -> String {
    let mut disk = device(rt, alloc, script);
    let mut store = open_on(alloc, &mut disk, Frames::Soft(FRAMES)).expect(rt, "it opens");
    run(rt, alloc, script, &mut store, &mut disk)
}

fn check_script(rt: &impl Abort, alloc: Global, script: Script<'_>, wanted: &str) {
    let told = outcome(rt, alloc, script);
    assert_eq!(rt; told.as_str(), wanted);
}

// A script on streams and a disk that do not fail.
fn plain(text: &str) -> Script<'_> {
    Script {
        text,
        reads: &[],
        writes: &[],
        disk: &[],
        room: 1 << 20,
    }
}

fn check(rt: &impl Abort, alloc: Global, text: &str, wanted: &str) {
    check_script(rt, alloc, plain(text), wanted);
}

fn lines_of(rt: &impl Abort, alloc: Global, story: &Story<'_>) -> String {
    let mut text = text_of(rt, alloc, "sys create t S S\n");
    for (lines, _) in story.rows {
        push(rt, &mut text, lines);
    }
    text
}

fn printed_by(rt: &impl Abort, alloc: Global, story: &Story<'_>) -> String {
    let mut wanted = text_of(rt, alloc, "ok\n");
    for (_, printed) in story.rows {
        push(rt, &mut wanted, printed);
    }
    push(rt, &mut wanted, "Through None");
    wanted
}

// Whether a story prints what its rows say, up to the end of its input.
fn comes_out(rt: &impl Abort, alloc: Global, story: &Story<'_>) -> bool {
    let text = lines_of(rt, alloc, story);
    let told = outcome(rt, alloc, plain(text.as_str()));
    let wanted = printed_by(rt, alloc, story);
    told.as_str() == wanted.as_str()
}

fn check_story(rt: &impl Abort, alloc: Global, story: &Story<'_>) {
    let shows = story.shows;
    assert!(rt; comes_out(rt, alloc, story), "{shows}");
}

fn check_stories(rt: &impl Abort, alloc: Global, stories: &[Story<'_>]) {
    for story in stories {
        check_story(rt, alloc, story);
    }
}

#[test]
fn stories_come_out_as_written(rt: HostRuntime) {
    let alloc = rt.alloc();
    check_stories(&rt, alloc, SNAPSHOTS);
    check_stories(&rt, alloc, STAMPS);
    check_stories(&rt, alloc, CALLS);
    check_stories(&rt, alloc, SINGLE);
    check_stories(&rt, alloc, COMMITS);
    check_stories(&rt, alloc, ROLLBACKS);
    check_stories(&rt, alloc, DEVICES);
    check_stories(&rt, alloc, STAMPED);
    check_stories(&rt, alloc, EVICTIONS);
    check_stories(&rt, alloc, BY_STEPS);
    check_stories(&rt, alloc, CHECKPOINTS);
}

#[test]
fn a_checkpoint_keeps_what_was_there_as_it_started(rt: HostRuntime) {
    let alloc = rt.alloc();
    check_two_leaves(&rt, alloc);
}

#[test]
fn what_is_done_between_two_steps_of_a_checkpoint_is_not_in_it(rt: HostRuntime) {
    let alloc = rt.alloc();
    check_beside(&rt, alloc, BESIDE);
}

// A line that puts a value of so many letters, behind two other lines.
fn long_line(rt: &impl Abort, alloc: Global, count: usize) -> String {
    let mut text = text_of(rt, alloc, "sys create t S S\ns1 begin\ns1 put t a ");
    for _ in 0..count {
        text.push('v').expect(rt, "there is memory");
    }
    push(rt, &mut text, "\ns1 commit\n");
    text
}

fn check_long(rt: &impl Abort, alloc: Global, count: usize, wanted: &str) {
    let text = long_line(rt, alloc, count);
    check(rt, alloc, text.as_str(), wanted);
}

// A script with this line between two others.
fn lines_around(rt: &impl Abort, alloc: Global, line: &str) -> String {
    let text = format!(in alloc; "sys create t S S\n{line}\ns1 begin\n");
    text.expect(rt, "there is memory")
}

fn check_no_line(rt: &impl Abort, alloc: Global, line: &str) {
    let text = lines_around(rt, alloc, line);
    let told = outcome(rt, alloc, plain(text.as_str()));
    assert_eq!(rt;
        told.as_str(),
        "ok\nStopped(Invalid(Text { line: 2 })) None",
        "at {line}"
    );
}

const LONGEST_TOLD: &str = "ok\nok\n22 value long\nok\nThrough None";

const LONGER_TOLD: &str = "ok\nok\nStopped(Invalid(Text { line: 3 })) None";

#[test]
fn what_is_no_line_stops_the_script_with_its_number(rt: HostRuntime) {
    let alloc = rt.alloc();
    for line in NO_LINES {
        check_no_line(&rt, alloc, line);
    }
    check_long(&rt, alloc, 65_525, LONGEST_TOLD);
    check_long(&rt, alloc, 65_526, LONGER_TOLD);
}

const LAST_LINES: &[Row<'static>] = &[
    Row {
        text: "",
        told: "Through None",
    },
    Row {
        text: "\n",
        told: "Stopped(Invalid(Text { line: 1 })) None",
    },
    Row {
        text: "s1 begin\ns1 commit",
        told: "ok\nok\nThrough None",
    },
    Row {
        text: "s1 begin\ns1 comm",
        told: "ok\nStopped(Invalid(Text { line: 2 })) None",
    },
    Row {
        text: "s1 commit\n\n",
        told: "22 no transaction\nStopped(Invalid(Text { line: 2 })) None",
    },
];

#[test]
fn the_last_line_may_have_no_newline(rt: HostRuntime) {
    let alloc = rt.alloc();
    for row in LAST_LINES {
        check(&rt, alloc, row.text, row.told);
    }
}

fn table_line(rt: &impl Abort, alloc: Global, number: u32) -> String {
    let line = format!(in alloc; "sys create t{number} u u\n");
    line.expect(rt, "there is memory")
}

// Lines that make so many tables.
fn tables(rt: &impl Abort, alloc: Global, count: u32) -> String {
    let mut text = String::new(alloc);
    for number in 0..count {
        push(rt, &mut text, table_line(rt, alloc, number).as_str());
    }
    text
}

// What so many lines print that answer `ok`.
fn push_oks(rt: &impl Abort, text: &mut String, count: u32) {
    for _ in 0..count {
        push(rt, text, "ok\n");
    }
}

// The same, and what is printed behind them.
fn oks(rt: &impl Abort, alloc: Global, count: u32, behind: &str) -> String {
    let mut text = String::new(alloc);
    push_oks(rt, &mut text, count);
    push(rt, &mut text, behind);
    text
}

// A script that prints so many such lines, and then this.
fn check_oks(rt: &impl Abort, alloc: Global, script: Script<'_>, (count, behind): (u32, &str)) {
    let wanted = oks(rt, alloc, count, behind);
    check_script(rt, alloc, script, wanted.as_str());
}

// What is asked of 1,024 tables: a row in one of them, a checkpoint, and one more after another row.
const OF_MANY: &str =
    "s1 begin\ns1 put t7 a x\ns1 commit\nsys ckpt\ns1 begin\ns1 put t1000 a y\ns1 commit\nsys ckpt\nsys crash\ns1 begin\n";

const READ_OF_MANY: &str = "s1 get t7 a\ns1 get t1000 a\ns1 get t1023 a\n";

const OF_MANY_TOLD: &str =
    "75 limit tables\nok\nok\nok\nok\nok\nok\nok\nok\nok\nok\nok x\nok y\n-31803 not found\nThrough None";

#[test]
fn there_are_1024_tables_at_most_and_a_checkpoint_has_them(rt: HostRuntime) {
    let alloc = rt.alloc();
    let mut text = tables(&rt, alloc, 1_025);
    push(&rt, &mut text, OF_MANY);
    push(&rt, &mut text, READ_OF_MANY);
    check_oks(&rt, alloc, plain(text.as_str()), (1_024, OF_MANY_TOLD));
}

fn put_lines(rt: &impl Abort, alloc: Global, number: u32) -> String {
    let lines = format!(in alloc; "s1 begin\ns1 put t a v{number}\ns1 commit\n");
    lines.expect(rt, "there is memory")
}

// Lines that give a key a value, so many times, in a transaction each.
fn push_puts(rt: &impl Abort, alloc: Global, text: &mut String, count: u32) {
    for number in 0..count {
        push(rt, text, put_lines(rt, alloc, number).as_str());
    }
}

const FIRST: &str = "sys create t S S\ns1 begin\ns1 put t a first\ns1 commit\ns2 begin\n";

const LAST: &str = "s2 get t a\ns1 begin\ns1 get t a\n";

#[test]
fn a_reader_sees_its_version_under_300_later_ones(rt: HostRuntime) {
    let alloc = rt.alloc();
    let mut text = text_of(&rt, alloc, FIRST);
    push_puts(&rt, alloc, &mut text, 300);
    push(&rt, &mut text, LAST);
    let behind = "ok first\nok\nok v299\nThrough None";
    check_oks(&rt, alloc, plain(text.as_str()), (905, behind));
}

fn check_reads(rt: &impl Abort, alloc: Global, text: &str) {
    let script = Script {
        reads: &[1],
        ..plain(text)
    };
    check_oks(rt, alloc, script, (210, "InputFailed None"));
}

fn check_writes(rt: &impl Abort, alloc: Global, text: &str) {
    let script = Script {
        writes: &[2],
        ..plain(text)
    };
    check_script(rt, alloc, script, "ok\nok\nOutputFailed None");
}

// Each of the first ten lines has 18 bytes here, each of the next ninety 19, and each behind them
// 20. What is read at once are 4,096 bytes, which 210 lines fit.
#[test]
fn a_stream_that_fails_ends_the_script(rt: HostRuntime) {
    let alloc = rt.alloc();
    let text = tables(&rt, alloc, 300);
    check_reads(&rt, alloc, text.as_str());
    check_writes(&rt, alloc, text.as_str());
}

fn check_failing(rt: &impl Abort, alloc: Global, row: &Failing<'_>) {
    let script = Script {
        disk: row.calls,
        room: row.room,
        ..plain(row.text)
    };
    check_script(rt, alloc, script, row.told);
}

#[test]
fn a_disk_that_fails_or_is_full_is_told(rt: HostRuntime) {
    let alloc = rt.alloc();
    for row in FAILING {
        check_failing(&rt, alloc, row);
    }
}

#[test]
fn an_input_is_cut_at_its_newlines(rt: HostRuntime) -> Result<(), Fail> {
    let alloc = rt.alloc();
    let mut lines = Lines::new(alloc)?;
    let mut input = MemSource::new(alloc, b"s1 begin\n\ns1".as_slice(), &[])?;
    let some = lines.next(&mut input)?;
    assert!(rt; some && lines.line() == b"s1 begin".as_slice());
    let some = lines.next(&mut input)?;
    assert!(rt; some && lines.line().is_empty());
    let some = lines.next(&mut input)?;
    assert!(rt; some && lines.line() == b"s1".as_slice());
    let some = lines.next(&mut input)?;
    assert!(rt; !some);
    let mut lines = Lines::new(alloc)?;
    let mut failing = MemSource::new(alloc, b"s1 begin\n".as_slice(), &[0])?;
    assert!(rt; matches!(lines.next(&mut failing), Err(NoLine::Failed)));
    Ok(())
}
