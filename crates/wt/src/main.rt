//! The program `wt`: the commands of `wt_tool` on the file of a store and the standard streams.
//!
//! It promises that the words it takes are the arguments behind the first. What a command means,
//! what it writes and its status are `wt_tool`'s; that failed calls are counted is `disk_file`'s and
//! `wt_std_io`'s. Where the error stream is a terminal, a count of the bytes that have passed is shown
//! there for work that may be long; no stream of `wt_tool` has it.
#![tactic(auto)]

ghost use Rattle.std.specs.Prelude.{◌≡◌, drop, IfOk, IfErr};
ghost use Rattle.std.specs.Vec.Iter.{into_iter_items};

use byte_meter::{Meter, MeteredDisk, MeteredSink, MeteredSource};
use disk_file::FileDisk;
use std::alloc::Global;
use std::env;
use std::env::Args;
use std::io::{ErrorKind, IsTerminal, Stderr};
use std::process::ExitCode;
use wt_io::write_all;
use wt_line::{Command, parse};
use wt_std_io::{StdSink, StdSource};
use wt_tool::wt_main;

/// What is written for words that are no command.
const USAGE: &[u8] = b"usage: wt [-h home] command ..\n";

/// The status for words that are no command.
const STATUS_FAULTY: u8 = 1;

/// The status for want of memory.
const STATUS_NO_MEMORY: u8 = 12;

/// Why there are no words to go on with.
#[derive(Clone, Copy)]
enum NoWords {
    /// One is not UTF-8.
    NotText,
    /// There was not enough memory.
    NoMemory,
}

fn words_of(rt: &HostRuntime) -> Result<Vec<String>, NoWords> {
    match env::args(rt) {
        Ok(args) => behind_the_first(rt.alloc(), args),
        Err(e) if e.kind() == ErrorKind::OutOfMemory => Err(NoWords::NoMemory),
        Err(_) => Err(NoWords::NotText),
    }
}

// The arguments behind the program's name. The error is want of memory.
fn behind_the_first(alloc: Global, args: Args) -> Result<Vec<String>, NoWords>
    ensures words { IfOk result (λ words. words.items ≡ drop 1 (into_iter_items args)) }
    ensures short { IfErr result (λ e. e ≡ NoWords.NoMemory) }
{
    let mut args = args;
    let _first = args.next();
    let mut words = Vec::new(alloc);
    for word in args {
        if words.push(word).is_err() {
            return Err(NoWords::NoMemory);
        }
    }
    Ok(words)
}

/// Where long work passes, of which a terminal shows the count.
#[derive(Clone, Copy, PartialEq, Eq)]
enum LongWork {
    Input,
    Output,
    Disk,
}

// The work of a command that a person may wait for.
fn long_work(alloc: Global, words: &[String]) -> Option<LongWork> {
    match parse(alloc, words) {
        Ok(Command::Load { .. }) => Some(LongWork::Input),
        Ok(Command::Dump { .. }) => Some(LongWork::Output),
        Ok(Command::Verify { .. }) => Some(LongWork::Disk),
        _ => None,
    }
}

// A meter of the work, on the error stream where that is a terminal. Rows that go to a terminal
// themselves tell that it goes on.
fn meter_of(rt: &HostRuntime, work: Option<LongWork>, here: LongWork) -> Meter<Stderr> {
    let errors = rt.stderr();
    let shows_rows = here == LongWork::Output && rt.stdout().is_terminal();
    let is_shown = work == Some(here) && errors.is_terminal() && !shows_rows;
    Meter::new(if is_shown { Some(errors) } else { None })
}

fn main(rt: HostRuntime) -> ExitCode {
    let alloc = rt.alloc();
    let mut err = StdSink::new(rt.stderr());
    match words_of(&rt) {
        Ok(words) => {
            let work = long_work(alloc, &words);
            let mut input = MeteredSource {
                inner: StdSource::new(rt.stdin()),
                meter: meter_of(&rt, work, LongWork::Input),
            };
            let mut out = MeteredSink {
                inner: StdSink::new(rt.stdout()),
                meter: meter_of(&rt, work, LongWork::Output),
            };
            let disk = MeteredDisk {
                meter: meter_of(&rt, work, LongWork::Disk),
                inner: FileDisk::new(rt),
            };
            let mut ended = wt_main(&rt, alloc, &words, &mut input, &mut out, &mut err, disk);
            input.meter.clear();
            out.meter.clear();
            ended.disk.meter.clear();
            ExitCode::from(ended.status)
        }
        Err(NoWords::NotText) => {
            let _ = write_all(&mut err, USAGE);
            ExitCode::from(STATUS_FAULTY)
        }
        Err(NoWords::NoMemory) => ExitCode::from(STATUS_NO_MEMORY),
    }
}
