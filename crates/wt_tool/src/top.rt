// The top call.
ghost use Rattle.std.specs.Prelude.{◌≡◌, ◌⊎◌, [], map, IsTrue};
ghost use Rattle.std.specs.String.{string_bytes};
ghost use Rattle.failure.specs.Counts.{Rose};
ghost use Rattle.wt_io.specs.Streams.{Took};
ghost use Rattle.wt_line.specs.Line.{command_of, meaning};
ghost use Rattle.wt_tool.specs.Commands.{IsByReader, IsOnEngine};
ghost use Rattle.wt_tool.specs.Parts.{WentFrom, WentOnFrom, met_of};
ghost use Rattle.wt_tool.specs.Top.{Promise, Tells, Telling, IsSoFor, IsAt, IsOpenableFor, IsReadable, IsStatus, errors_of, lines, first_status};

use crate::create::create;
use crate::dump::dump;
use crate::list::list;
use crate::load::load;
use crate::opening::{reach, reach_reader};
use crate::read::read;
use crate::script::script;
use crate::status::Status;
use crate::telling::report;
use crate::verify::verify;
use crate::write::write;
use device_read::{faulty_leaves_do_not_read, readers_have_tables};
use disk_model::Home;
use std::alloc::Global;
use std::sync::Wait;
use std::thread::Threads;
use wt_code::Refusal;
use wt_io::{Sink, Source, write_all};
use wt_line::{Command, LineFault, home_of, parse};

/// How a run ended: its status, and the disk.
#[derive(Drop)]
pub struct Ended<D> {
    /// The number of a `Status`.
    pub status: u8,
    /// The disk, as the run left it.
    pub disk: D,
}

/// A run of the program, on these words. What it promises stands in `specs/Top`, as `Promise`.
pub fn wt_plain<S: Source, K: Sink, E: Sink, D: Home>(
    alloc: Global,
    words: &[String],
    input: &mut S,
    out: &mut K,
    err: &mut E,
    disk: D,
) -> Ended<D>
    ensures { Promise D.Disk S.Source K.Sink E.Sink command_of (map string_bytes words.now) input.old input.new out.old out.new err.old err.new disk result.disk result.status }
{
    let mut disk = disk;
    match parse(alloc, words) {
        Err(LineFault::Usage) => {
            let _ = write_all(err, b"usage: wt [-h home] command ..\n");
            Ended {
                status: Status::Refused as u8,
                disk,
            }
        }
        Err(LineFault::NoMemory) => Ended {
            status: Status::NoMemory as u8,
            disk,
        },
        Ok(command) => {
            let status = run(alloc, &command, home_of(words), input, out, err, &mut disk);
            Ended { status, disk }
        }
    }
}

// A run of a command, on the device at its home.
fn run<S: Source, K: Sink, E: Sink, D: Home>(
    alloc: Global,
    command: &Command<'_>,
    home: &str,
    input: &mut S,
    out: &mut K,
    err: &mut E,
    disk: &mut D,
) -> u8
    ensures run { WentFrom D.Disk S.Source K.Sink E.Sink (meaning command.now) input.old input.new out.old out.new err.old err.new disk.old disk.new result }
    ensures damaged { WentOnFrom D.Disk S.Source K.Sink E.Sink (meaning command.now) input.old input.new out.old out.new err.old err.new disk.old disk.new result }
    ensures told { Telling (IsSoFor (meaning command.now) (IsTrue (D.honest disk.old)) (D.seen disk.old) (D.seen disk.new)) (errors_of E.Sink err.old err.new) result }
    ensures opened { IsTrue (D.honest disk.old) → result ≡ 0 → IsOpenableFor (meaning command.now) (D.seen disk.old) }
    ensures silent { IsTrue (D.honest disk.old) → Took (K.written out.old) (K.written out.new) [] ⊎ IsOpenableFor (meaning command.now) (D.seen disk.old) }
    ensures home { IsAt D.Disk home.now disk.old disk.new result }
    ensures statuses { IsStatus result }
    ensures disk_fault { result ≡ 4 → Rose (D.faults disk.old) (D.faults disk.new) }
    ensures input_fault { result ≡ 5 → Rose (S.fault_count input.old) (S.fault_count input.new) }
    ensures output_fault { result ≡ 6 → Rose (K.fault_count out.old) (K.fault_count out.new) }
    ensures honest { D.honest disk.new ≡ D.honest disk.old }
{
    match command {
        Command::Verify { uri } => {
            let result = verify(alloc, disk, home, *uri);
            told(alloc, err, &result)
        }
        Command::Read { .. } | Command::List | Command::Dump { .. } => {
            run_reader(alloc, command, home, input, out, err, disk)
        }
        _ => run_opened(alloc, command, home, input, out, err, disk),
    }
}

// A run of a command that answers from the device itself.
fn run_reader<S: Source, K: Sink, E: Sink, D: Home>(
    alloc: Global,
    command: &Command<'_>,
    home: &str,
    input: &mut S,
    out: &mut K,
    err: &mut E,
    disk: &mut D,
) -> u8
    requires { IsByReader (meaning command.now) }
    ensures run { WentFrom D.Disk S.Source K.Sink E.Sink (meaning command.now) input.old input.new out.old out.new err.old err.new disk.old disk.new result }
    ensures damaged { WentOnFrom D.Disk S.Source K.Sink E.Sink (meaning command.now) input.old input.new out.old out.new err.old err.new disk.old disk.new result }
    ensures told { Telling (IsSoFor (meaning command.now) (IsTrue (D.honest disk.old)) (D.seen disk.old) (D.seen disk.new)) (errors_of E.Sink err.old err.new) result }
    ensures opened { IsTrue (D.honest disk.old) → result ≡ 0 → IsOpenableFor (meaning command.now) (D.seen disk.old) }
    ensures silent { IsTrue (D.honest disk.old) → Took (K.written out.old) (K.written out.new) [] ⊎ IsOpenableFor (meaning command.now) (D.seen disk.old) }
    ensures home { IsAt D.Disk home.now disk.old disk.new result }
    ensures statuses { IsStatus result }
    ensures disk_fault { result ≡ 4 → Rose (D.faults disk.old) (D.faults disk.new) }
    ensures input_fault { result ≡ 5 → Rose (S.fault_count input.old) (S.fault_count input.new) }
    ensures output_fault { result ≡ 6 → Rose (K.fault_count out.old) (K.fault_count out.new) }
    ensures honest { D.honest disk.new ≡ D.honest disk.old }
{
    readers_have_tables();
    faulty_leaves_do_not_read();
    // Nothing of the input is read.
    let _ = input;
    let reader = match reach_reader(alloc, disk, home) {
        Ok(reader) => reader,
        Err(refusal) => return report(alloc, err, &refusal),
    };
    match command {
        Command::Read { uri, keys } => read(alloc, disk, out, err, reader, uri, keys),
        Command::List => list(alloc, out, err, reader),
        Command::Dump { hex, reverse, uri } => {
            dump(alloc, disk, out, err, reader, *hex, *reverse, uri)
        }
        _ => unreachable!(),
    }
}

// A run of a command on an engine that starts on what the device holds.
fn run_opened<S: Source, K: Sink, E: Sink, D: Home>(
    alloc: Global,
    command: &Command<'_>,
    home: &str,
    input: &mut S,
    out: &mut K,
    err: &mut E,
    disk: &mut D,
) -> u8
    requires { IsOnEngine (meaning command.now) }
    ensures run { WentFrom D.Disk S.Source K.Sink E.Sink (meaning command.now) input.old input.new out.old out.new err.old err.new disk.old disk.new result }
    ensures told { Telling (IsSoFor (meaning command.now) (IsTrue (D.honest disk.old)) (D.seen disk.old) (D.seen disk.new)) (errors_of E.Sink err.old err.new) result }
    ensures opened { IsTrue (D.honest disk.old) → result ≡ 0 → IsReadable (D.seen disk.old) }
    ensures silent { IsTrue (D.honest disk.old) → Took (K.written out.old) (K.written out.new) [] ⊎ IsReadable (D.seen disk.old) }
    ensures home { IsAt D.Disk home.now disk.old disk.new result }
    ensures statuses { IsStatus result }
    ensures disk_fault { result ≡ 4 → Rose (D.faults disk.old) (D.faults disk.new) }
    ensures input_fault { result ≡ 5 → Rose (S.fault_count input.old) (S.fault_count input.new) }
    ensures output_fault { result ≡ 6 → Rose (K.fault_count out.old) (K.fault_count out.new) }
    ensures honest { D.honest disk.new ≡ D.honest disk.old }
{
    let store = match reach(alloc, disk, home) {
        Ok(store) => store,
        Err(refusal) => return report(alloc, err, &refusal),
    };
    match command {
        Command::Create { config, uri } => {
            let result = create(alloc, disk, store, *config, uri);
            told(alloc, err, &result)
        }
        Command::Write {
            overwrite,
            uri,
            pairs,
        } => {
            let result = write(alloc, disk, store, *overwrite, uri, pairs);
            told(alloc, err, &result)
        }
        Command::Script => script(alloc, disk, store, input, out, err),
        Command::Load { no_overwrite, name } => {
            load(alloc, disk, store, input, err, *no_overwrite, *name)
        }
        _ => unreachable!(),
    }
}

// The line of a refusal, where there is one, and the status.
fn told<E: Sink>(alloc: Global, err: &mut E, answer: &Result<(), Refusal>) -> u8
    ensures told { Tells (errors_of E.Sink err.old err.new) (lines (met_of answer.now)) (first_status (met_of answer.now)) result }
    ensures status { (result ≡ first_status (met_of answer.now)) ⊎ (result ≡ 12) }
{
    match answer {
        Ok(()) => Status::Done as u8,
        Err(refusal) => report(alloc, err, refusal),
    }
}

/// The same, with the runtime, for commands that run threads. There is none yet, so it never waits.
pub fn wt_main<R: Threads + Wait, S: Source, K: Sink, E: Sink, D: Home + Send>(
    rt: &R,
    alloc: Global,
    words: &[String],
    input: &mut S,
    out: &mut K,
    err: &mut E,
    disk: D,
) -> Ended<D>
    ensures { Promise D.Disk S.Source K.Sink E.Sink command_of (map string_bytes words.now) input.old input.new out.old out.new err.old err.new disk result.disk result.status }
{
    let _ = rt;
    wt_plain(alloc, words, input, out, err, disk)
}
