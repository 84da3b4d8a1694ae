// The line of a refusal, and its status.
ghost use Rattle.std.specs.Prelude.{◌≡◌, ◌⊎◌, ◌≤◌, [], ◌∷◌, None};
ghost use Rattle.wt_tool.specs.Parts.{TellsEnd};
ghost use Rattle.wt_tool.specs.Top.{Tells, errors_of, status_of, lines};

use crate::status::{Status, status_for};
use script_run::End;
use std::alloc::Global;
use wt_code::{Refusal, text_of};
use wt_io::{Sink, write_all};

// Prints the line of a refusal, and gives the status.
pub(crate) fn report<E: Sink>(alloc: Global, err: &mut E, refusal: &Refusal) -> u8
    ensures told { Tells (errors_of E.Sink err.old err.new) (lines (refusal.now ∷ [])) (status_of refusal.now) result }
    ensures later { E.fault_count err.old ≤ E.fault_count err.new }
    ensures status { (result ≡ status_of refusal.now) ⊎ (result ≡ 12) }
{
    let Ok(mut line) = text_of(alloc, refusal) else {
        return Status::NoMemory as u8;
    };
    if line.push_str("\n").is_err() {
        return Status::NoMemory as u8;
    }
    let _ = write_all(err, line.as_bytes());
    status_for(refusal)
}

// Tells how a run ended that met no refusal before, and gives the status.
pub(crate) fn tell<E: Sink>(alloc: Global, err: &mut E, end: &End) -> u8
    ensures { TellsEnd (errors_of E.Sink err.old err.new) end.now None result }
{
    match end {
        End::Through => Status::Done as u8,
        End::Stopped(refusal) => report(alloc, err, refusal),
        End::InputFailed => {
            let _ = write_all(err, b"input fault\n");
            Status::InputFault as u8
        }
        End::OutputFailed => {
            let _ = write_all(err, b"output fault\n");
            Status::OutputFault as u8
        }
    }
}
