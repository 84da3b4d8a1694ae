// A command line, read.
ghost use Rattle.std.specs.Prelude.{◌≡◌, IfOk, IfErr, Some, None, map};
ghost use Rattle.std.specs.String.{string_bytes};
ghost use Rattle.clap.specs.Values.{kind_of};
ghost use Rattle.wt_line.specs.declared.line.LineFault.TheVariants.{NoMemory};
ghost use Rattle.wt_line.specs.Line.{after_home, command_of, fault_by, home_in, meaning};

use crate::app::app;
use crate::command::{Command, command_in};
use clap::error::ErrorKind;
use std::alloc::{AllocError, AllocFailed, Global};
use thiserror::Error;

/// The flag in front of a home.
const HOME_FLAG: &str = "-h";

/// The home where the words name none: the current folder.
const DEFAULT_HOME: &str = ".";

/// Why words give no command.
#[derive(Clone, Copy, Debug, PartialEq, Eq, Error)]
pub enum LineFault {
    /// They are no command.
    #[error("the words are no command")]
    Usage,
    /// There was not enough memory.
    #[error("no memory to read the words")]
    NoMemory,
}

impl From<AllocError> for LineFault {
    ghost from_gives = { λ _ f. f ≡ NoMemory };

    fn from(_: AllocError) -> LineFault {
        LineFault::NoMemory
    }
}

impl<T: Drop> From<AllocFailed<T>> for LineFault {
    ghost from_gives = { λ _ f. f ≡ NoMemory };

    fn from(_: AllocFailed<T>) -> LineFault {
        LineFault::NoMemory
    }
}

impl From<clap::Error> for LineFault {
    ghost from_gives = { λ e f. f ≡ fault_by (kind_of e) };

    fn from(error: clap::Error) -> LineFault {
        match error.kind() {
            ErrorKind::OutOfMemory => LineFault::NoMemory,
            _ => LineFault::Usage,
        }
    }
}

/// The home that the words name, by a leading `-h` and one word of any form; else the current
/// folder. It takes no memory.
pub fn home_of(words: &[String]) -> &str
    ensures { result.now ≡ home_in (map string_bytes words.now) }
{
    match words {
        [flag, home, ..] if flag.as_str() == HOME_FLAG => home.as_str(),
        _ => DEFAULT_HOME,
    }
}

// The words behind the home.
fn after_home(words: &[String]) -> &[String]
    ensures { map string_bytes result.now ≡ after_home (map string_bytes words.now) }
{
    match words {
        [flag, _, rest @ ..] if flag.as_str() == HOME_FLAG => rest,
        _ => words,
    }
}

/// The command that the words are. It borrows them.
///
/// `Usage` comes exactly where they are no command, but that `NoMemory` may come in the place of
/// either answer.
pub fn parse<'a>(alloc: Global, words: &'a [String]) -> Result<Command<'a>, LineFault>
    ensures command { IfOk result (λ c. command_of (map string_bytes words.now) ≡ Some (meaning c)) }
    ensures usage { IfErr result (λ e. e ≡ LineFault.Usage → command_of (map string_bytes words.now) ≡ None) }
{
    let matches = app(alloc)?.try_get_matches_from(after_home(words))?;
    match matches.subcommand() {
        Some((name, found)) => command_in(alloc, name, found),
        None => Err(LineFault::Usage),
    }
}
