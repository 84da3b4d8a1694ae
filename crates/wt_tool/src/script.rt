// `script`: the lines of the input are run on the engine and its device.
ghost use Rattle.std.specs.Prelude.{◌≡◌, length, IsTrue, filter, option_map};
ghost use Rattle.std.specs.Option.{option_to_list};
ghost use Rattle.failure.specs.Counts.{Rose};
ghost use Rattle.disk_model.specs.Crash.{SameDisk};
ghost use Rattle.engine_store.specs.Opened.{IsReady};
ghost use Rattle.script_run.specs.Scripts.{counts};
ghost use Rattle.wt_tool.specs.Parts.{IsOpenedOn, ScriptsFrom, TellsEnd, TellsOfScript};
ghost use Rattle.wt_tool.specs.Top.{IsStatus, Telling, errors_of, first_status};

use crate::status::Status;
use crate::telling::report;
use disk_model::Disk;
use engine_store::Store;
use script_run::{End, ScriptRun, run_script};
use std::alloc::Global;
use std::mem::forget;
use wt_code::Refusal;
use wt_io::{Sink, Source, write_all};

pub(crate) fn script<D: Disk, S: Source, K: Sink, E: Sink>(
    alloc: Global,
    disk: &mut D,
    store: Store,
    input: &mut S,
    out: &mut K,
    err: &mut E,
) -> u8
    requires ready { IsReady store }
    requires none { length store.engine.sessions ≡ 0 }
    requires on { IsTrue (D.honest disk.old) → IsOpenedOn D.Disk disk.old store }
    ensures run { ScriptsFrom D.Disk S.Source K.Sink E.Sink input.old input.new out.old out.new err.old err.new disk.old disk.new result }
    ensures told { Telling (TellsOfScript (IsTrue (D.honest disk.old)) (D.seen disk.new)) (errors_of E.Sink err.old err.new) result }
    ensures statuses { IsStatus result }
    ensures disk_fault { result ≡ 4 → Rose (D.faults disk.old) (D.faults disk.new) }
    ensures input_fault { result ≡ 5 → Rose (S.fault_count input.old) (S.fault_count input.new) }
    ensures output_fault { result ≡ 6 → Rose (K.fault_count out.old) (K.fault_count out.new) }
    ensures disk { SameDisk D.Disk disk.old disk.new }
{
    let mut store = store;
    // What the actors of the system have started is known of every engine.
    store.engine.actors();
    let ran = run_script(alloc, &mut store, disk, input, out);
    let status = told(alloc, err, &ran);
    // The command ends: the memory of the store goes back as a whole, with the process.
    forget(store);
    status
}

// Tells how a script ended, and gives the status.
fn told<E: Sink>(alloc: Global, err: &mut E, ran: &ScriptRun) -> u8
    ensures { TellsEnd (errors_of E.Sink err.old err.new) ran.now.end ran.now.met result }
{
    match &ran.end {
        End::Through => status_met(ran.met.as_ref()),
        End::Stopped(refusal) => report(alloc, err, refusal),
        End::InputFailed => {
            let _ = write_all(err, b"input fault\n");
            Status::InputFault as u8
        }
        End::OutputFailed => {
            let _ = write_all(err, b"output fault\n");
            Status::OutputFault as u8
        }
    }
}

// The status of what the lines met: a fault of the disk, or want of memory.
fn status_met(met: Option<&Refusal>) -> u8
    ensures { result ≡ first_status (filter counts (option_to_list (option_map (λ r. r.now) met.entry))) }
{
    let status = match met {
        Some(Refusal::DiskFault) => Status::DiskFault,
        Some(Refusal::NoMemory) => Status::NoMemory,
        _ => Status::Done,
    };
    status as u8
}
