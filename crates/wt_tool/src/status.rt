// How a run may end.
ghost use Rattle.std.specs.Prelude.{◌≡◌};
ghost use Rattle.wt_tool.specs.Top.{status_of};

use wt_code::Refusal;

/// How a run ended. Its number is the status.
#[derive(Clone, Copy, Debug, PartialEq, Eq)]
pub enum Status {
    /// All was done.
    Done = 0,
    /// The words were no command, or a call was refused.
    Refused = 1,
    /// A call of the disk failed.
    DiskFault = 4,
    /// A read of the input failed.
    InputFault = 5,
    /// A write of the output failed.
    OutputFault = 6,
    /// There was not enough memory.
    NoMemory = 12,
}

/// The number of the status that a refusal gives, where it is the first one of its run.
pub(crate) fn status_for(refusal: &Refusal) -> u8
    ensures { result ≡ status_of refusal.now }
{
    let status = match refusal {
        Refusal::DiskFault => Status::DiskFault,
        Refusal::NoMemory => Status::NoMemory,
        _ => Status::Refused,
    };
    status as u8
}
