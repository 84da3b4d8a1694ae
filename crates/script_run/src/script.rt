// Whole scripts: the lines of an input, one after the other.
ghost use Rattle.std.specs.Prelude.{◌≡◌, ◌≤◌, ◌+◌, [], ℕ, length, filter, IsTrue, IfNone, IfSome};
ghost use Rattle.failure.specs.Counts.{Rose};
ghost use Rattle.disk_model.specs.Crash.{SameDisk};
ghost use Rattle.engine_store.specs.Full.{count_of};
ghost use Rattle.engine_store.specs.Opened.{IsAtFault, IsReady};
ghost use Rattle.engine_store.specs.Progress.{place_in};
ghost use Rattle.wt_io.specs.Streams.{AtEnd};
ghost use Rattle.wt_code.specs.declared.refusals.Refusal.TheVariants.{Corrupt};
ghost use Rattle.engine_world.specs.Worlds.{World};
ghost use Rattle.engine_store.specs.Held.{IsHeld};
ghost use Rattle.script_run.specs.Faults.{TellsFaults};
ghost use Rattle.script_run.specs.Runs.{IsAt, IsRunOver, MetFault};
ghost use Rattle.script_run.specs.Scripts.{Script, counts, first_of, listed, nothing_kept};
ghost use Rattle.script_run.specs.Turns.{HasMoved, IsBehind, LineTurn, MeetsFault, PrintTurn, TurnMade, met_with};
ghost use Rattle.script_run.specs.declared.script.End.TheVariants.{InputFailed as InputFails, OutputFailed as OutputFails, Stopped as Stops};

use crate::kept::Kept;
use crate::lines::{Lines, NoLine};
use crate::one_line::{Printed, Stop, run_line};
use disk_model::Disk;
use engine_store::{Frames, Store};
use std::alloc::Global;
use wt_code::{Invalid, Refusal};
use wt_io::{Sink, Source, write_all};

/// How a script ends.
#[derive(Clone, Copy, PartialEq, Eq, Debug)]
pub enum End {
    /// At the end of its input.
    Through,
    /// At a line that is none or is of a later stage, for want of memory, or since the device was
    /// not opened anew.
    Stopped(Refusal),
    /// A read of the input failed.
    InputFailed,
    /// A write of the output failed.
    OutputFailed,
}

/// What a run of a script came to.
#[derive(Clone, Copy, PartialEq, Eq, Debug)]
pub struct ScriptRun {
    /// How it ended.
    pub end: End,
    /// The first fault of the disk or want of memory that a line replied.
    pub met: Option<Refusal>,
}

/// The longest input, in bytes: 2^30. The line with a byte behind it is refused as one that is none.
pub const INPUT_MAX: u64 = 1 << 30;

/// Runs a script: the lines of the input in order, each a call or a step of one, or something that
/// is asked of the device, up to the end of the input. For each of them a line is printed that tells
/// its reply, with one write. Behind a line of an actor leaves may leave memory
/// (`engine_store::Store::make_room`). A refusal that a line replies does not end the script. A line that is
/// none, or is of a later stage, stops it by `Invalid::Text` with the number of the line, counted
/// from 1, and is not run; an opening that is refused, want of memory and a stream that fails end it
/// too. A call whose leaf finds each frame of the store with one that may not go is refused as
/// `CacheFull`.
///
/// A line has 65,536 bytes at most without its newline, an input `INPUT_MAX`, and there are 64
/// sessions at most, opened at their first use. An eviction and a checkpoint that are not finished at the
/// end are given up. `O(bytes)` beside the calls.
pub fn run_script<D: Disk, S: Source, K: Sink>(
    alloc: Global,
    store: &mut Store,
    disk: &mut D,
    input: &mut S,
    out: &mut K,
) -> ScriptRun
    requires ready { IsReady store.old }
    ensures run { IsTrue (D.honest disk.old) → (w : World) → IsHeld D.Disk disk.old store.old disk.old w w.machine.completed [] → IsRunOver D.Disk S.Source K.Sink input.old input.new out.old out.new w disk.old disk.new (count_of store.old.frames) (place_in store.old.running) store.new result }
    ensures input { result.end ≡ InputFails → Rose (S.fault_count input.old) (S.fault_count input.new) }
    ensures output { result.end ≡ OutputFails → Rose (K.fault_count out.old) (K.fault_count out.new) }
    ensures fault { length store.old.engine.sessions ≡ 0 → MetFault result → Rose (D.faults disk.old) (D.faults disk.new) }
    ensures damage { IsTrue (D.honest disk.old) → (at want found : ℕ) → result.end ≡ Stops (Corrupt at want found) → IsAtFault (D.seen disk.new) at want found }
    ensures disk { SameDisk D.Disk disk.old disk.new }
{
    store.frames = Frames::Firm(store.frames.count());
    let Ok(mut lines) = Lines::new(alloc) else {
        return ScriptRun {
            end: End::Stopped(Refusal::NoMemory),
            met: None,
        };
    };
    let mut place = Place::first();
    'lines: loop {
        match turn(alloc, store, disk, input, out, &mut lines, &mut place) {
            None => {}
            Some(end) => {
                return ScriptRun {
                    end,
                    met: place.met,
                };
            }
        }
    }
}

// Where a run stands between two lines.
#[derive(Drop)]
struct Place {
    // The number of the next line, from 1 upwards.
    line: u64,
    // The bytes of the lines before it, with their newlines.
    used: u64,
    // What is kept of what is started.
    kept: Kept,
    // The first fault of the disk or want of memory that a line replied.
    met: Option<Refusal>,
}

impl Place {
    fn first() -> Place
        ensures line { result.line ≡ 1 }
        ensures used { result.used ≡ 0 }
        ensures kept { result.kept ≡ nothing_kept }
        ensures met { result.met ≡ None }
    {
        Place {
            line: 1,
            used: 0,
            kept: Kept::none(),
            met: None,
        }
    }

    // Behind a line of so many bytes, of which this was printed.
    fn pass(&mut self, size: usize, printed: &Printed)
        requires line { self.old.line ≤ self.old.used + 1 }
        requires room { self.old.used + size ≤ INPUT_MAX }
        ensures behind { IsBehind size printed.now.refusal self.old self.new }
        ensures kept { self.new.kept ≡ self.old.kept }
    {
        self.line += 1;
        self.used += size as u64 + 1;
        self.met = met_with(self.met, printed.refusal);
    }
}

fn met_with(met: Option<Refusal>, refusal: Option<Refusal>) -> Option<Refusal>
    ensures { result ≡ met_with met refusal }
{
    match met {
        Some(earlier) => Some(earlier),
        None => counted(refusal),
    }
}

// A fault of the disk or want of memory, if it is one.
fn counted(refusal: Option<Refusal>) -> Option<Refusal>
    ensures { result ≡ first_of (filter counts (listed refusal)) }
{
    match refusal {
        Some(Refusal::DiskFault) => Some(Refusal::DiskFault),
        Some(Refusal::NoMemory) => Some(Refusal::NoMemory),
        _ => None,
    }
}

// One line more, or the end.
fn turn<D: Disk, S: Source, K: Sink>(
    alloc: Global,
    store: &mut Store,
    disk: &mut D,
    input: &mut S,
    out: &mut K,
    lines: &mut Lines,
    place: &mut Place,
) -> Option<End>
    requires end { IsTrue lines.old.ended → AtEnd (S.left input.old) }
    requires line { place.old.line ≤ place.old.used + 1 }
    requires used { place.old.used ≤ INPUT_MAX + 1 }
    requires ready { IsReady store.old }
    ensures made { IsTrue (D.honest disk.old) → (first_disk : D) → (s : Script) → IsAt D.Disk first_disk store.old disk.old s → s.kept ≡ place.old.kept
        → TurnMade D.Disk first_disk store.new disk.new S.Source K.Sink input.old input.new out.old out.new lines.old lines.new place.old place.new s result }
    ensures moved { IfNone result (HasMoved place.old place.new) }
    ensures end { IfNone result (IsTrue lines.new.ended → AtEnd (S.left input.new)) }
    ensures stays { IfNone result (IsTrue lines.old.ended → IsTrue lines.new.ended) }
    ensures input { S.fault_count input.old ≤ S.fault_count input.new }
    ensures output { K.fault_count out.old ≤ K.fault_count out.new }
    ensures input_fails { IfSome result (λ end. end ≡ InputFails → Rose (S.fault_count input.old) (S.fault_count input.new)) }
    ensures output_fails { IfSome result (λ end. end ≡ OutputFails → Rose (K.fault_count out.old) (K.fault_count out.new)) }
    ensures told { TellsFaults D.Disk store.old store.new disk.old disk.new (λ rose. MeetsFault place.old place.new rose result) }
    ensures damage { IsTrue (D.honest disk.old) → (at want found : ℕ) → IfSome result (λ end. end ≡ Stops (Corrupt at want found) → IsAtFault (D.seen disk.new) at want found) }
    ensures ready { IsReady store.new }
    ensures disk { SameDisk D.Disk disk.old disk.new }
{
    match lines.next(input) {
        Err(NoLine::Failed) => Some(End::InputFailed),
        Err(NoLine::NoMemory) => Some(End::Stopped(Refusal::NoMemory)),
        Ok(false) => Some(End::Through),
        Ok(true) => run_and_print(alloc, store, disk, out, lines.line(), place),
    }
}

// Runs a line, and prints what is told of it.
fn run_and_print<D: Disk, K: Sink>(
    alloc: Global,
    store: &mut Store,
    disk: &mut D,
    out: &mut K,
    text: &[u8],
    place: &mut Place,
) -> Option<End>
    requires line { place.old.line ≤ place.old.used + 1 }
    requires used { place.old.used ≤ INPUT_MAX + 1 }
    requires ready { IsReady store.old }
    ensures made { IsTrue (D.honest disk.old) → (first_disk : D) → (s : Script) → IsAt D.Disk first_disk store.old disk.old s → s.kept ≡ place.old.kept
        → LineTurn D.Disk first_disk store.new disk.new K.Sink out.old out.new text.now s place.old place.new result }
    ensures moved { IfNone result (HasMoved place.old place.new) }
    ensures early { IfSome result (λ end. (end ≡ End.Through → ⊥) × (end ≡ InputFails → ⊥)) }
    ensures output { K.fault_count out.old ≤ K.fault_count out.new }
    ensures output_fails { IfSome result (λ end. end ≡ OutputFails → Rose (K.fault_count out.old) (K.fault_count out.new)) }
    ensures told { TellsFaults D.Disk store.old store.new disk.old disk.new (λ rose. MeetsFault place.old place.new rose result) }
    ensures damage { IsTrue (D.honest disk.old) → (at want found : ℕ) → IfSome result (λ end. end ≡ Stops (Corrupt at want found) → IsAtFault (D.seen disk.new) at want found) }
    ensures ready { IsReady store.new }
    ensures disk { SameDisk D.Disk disk.old disk.new }
{
    let none = End::Stopped(Refusal::Invalid(Invalid::Text { line: place.line }));
    if place.used + text.len() as u64 > INPUT_MAX {
        return Some(none);
    }
    match run_line(alloc, store, disk, &mut place.kept, text) {
        Err(Stop::NoLine) => Some(none),
        Err(Stop::NoMemory) => Some(End::Stopped(Refusal::NoMemory)),
        Err(Stop::Opening(refusal)) => Some(End::Stopped(refusal)),
        Ok(printed) => print(out, &printed, text.len(), place),
    }
}

// Prints what is told of a line of so many bytes.
fn print<K: Sink>(out: &mut K, printed: &Printed, size: usize, place: &mut Place) -> Option<End>
    requires line { place.old.line ≤ place.old.used + 1 }
    requires room { place.old.used + size ≤ INPUT_MAX }
    ensures made { PrintTurn K.Sink out.old out.new printed.now size place.old place.new result }
    ensures output { K.fault_count out.old ≤ K.fault_count out.new }
{
    match write_all(out, printed.line.as_slice()) {
        Err(_) => Some(End::OutputFailed),
        Ok(()) => {
            place.pass(size, printed);
            None
        }
    }
}
