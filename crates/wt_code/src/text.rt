// The number and the text of each refusal.
ghost use Rattle.std.specs.Prelude.{◌≡◌, ◌+◌, ◌++◌, IfOk};
ghost use Rattle.std.specs.String.{string_bytes};
ghost use Rattle.std.specs.Fmt.{decimal};
ghost use Rattle.wt_code.specs.Text.{
  number_of,
  text_of_refusal,
  reason_text,
  busy_text,
  limit_text,
  corrupt_text,
};

use crate::{Busy, Invalid, Limit, Refusal};
use failure::NoMemory;
use std::alloc::Global;

/// The number of a refusal: one of WiredTiger's own return codes, which are negative, or one of
/// the system's error numbers.
pub fn number(refusal: &Refusal) -> i32
    ensures { result ≡ number_of refusal.now }
{
    match refusal {
        Refusal::Rollback { .. } => -31800,
        Refusal::DuplicateKey => -31801,
        Refusal::Corrupt { .. } => -31802,
        Refusal::NotFound => -31803,
        Refusal::Panic { .. } => -31804,
        Refusal::CacheFull => -31807,
        Refusal::PrepareConflict { .. } => -31808,
        Refusal::NoTable => 2,
        Refusal::DiskFault => 5,
        Refusal::Again { .. } => 11,
        Refusal::NoMemory => 12,
        Refusal::Busy(_) => 16,
        Refusal::Exists => 17,
        Refusal::Invalid(_) => 22,
        Refusal::NoSpace => 28,
        Refusal::Limit(_) => 75,
    }
}

// A text without a number from the refusal's data.
fn plain(alloc: Global, text: &str) -> Result<String, NoMemory>
    ensures { IfOk result (λ s. string_bytes s ≡ text.now) }
{
    Ok(String::from_str(alloc, text)?)
}

/// The text of a refusal: its number, a space, and its words. Want of memory is the only error.
pub fn text_of(alloc: Global, refusal: &Refusal) -> Result<String, NoMemory>
    ensures { IfOk result (λ s. string_bytes s ≡ text_of_refusal refusal.now) }
{
    match refusal {
        Refusal::Rollback { .. } => plain(alloc, "-31800 rollback"),
        Refusal::DuplicateKey => plain(alloc, "-31801 duplicate key"),
        Refusal::Corrupt {
            offset,
            want,
            found,
        } => text_of_corrupt(alloc, *offset, *want, *found),
        Refusal::NotFound => plain(alloc, "-31803 not found"),
        Refusal::Panic { .. } => plain(alloc, "-31804 panic"),
        Refusal::CacheFull => plain(alloc, "-31807 cache full"),
        Refusal::PrepareConflict { .. } => plain(alloc, "-31808 prepare conflict"),
        Refusal::NoTable => plain(alloc, "2 no table"),
        Refusal::DiskFault => plain(alloc, "5 disk fault"),
        Refusal::Again { .. } => plain(alloc, "11 again"),
        Refusal::NoMemory => plain(alloc, "12 no memory"),
        Refusal::Busy(what) => text_of_busy(alloc, what),
        Refusal::Exists => plain(alloc, "17 exists"),
        Refusal::Invalid(why) => text_of_reason(alloc, why),
        Refusal::NoSpace => plain(alloc, "28 no space"),
        Refusal::Limit(what) => text_of_limit(alloc, what),
    }
}

fn text_of_corrupt(alloc: Global, offset: u64, want: u32, found: u32) -> Result<String, NoMemory>
    ensures { IfOk result (λ s. string_bytes s ≡ corrupt_text offset want found) }
{
    Ok(format!(in alloc; "-31802 corrupt at {offset} want {want} found {found}")?)
}

fn text_of_busy(alloc: Global, what: &Busy) -> Result<String, NoMemory>
    ensures { IfOk result (λ s. string_bytes s ≡ busy_text what.now) }
{
    match what {
        Busy::Active(session) => with_session(alloc, "16 busy active s", *session),
        Busy::Checkpoint => plain(alloc, "16 busy checkpoint"),
        Busy::Resolving(session) => with_session(alloc, "16 busy resolving s", *session),
        Busy::Evicting(_) => plain(alloc, "16 busy evicting"),
        Busy::Pinned(session) => with_session(alloc, "16 busy pinned s", *session),
        Busy::Unresolved(_) => plain(alloc, "16 busy unresolved"),
    }
}

// A session prints as its number plus one.
fn with_session(alloc: Global, text: &str, session: u32) -> Result<String, NoMemory>
    ensures { IfOk result (λ s. string_bytes s ≡ text.now ++ decimal (session + 1)) }
{
    let number = session as u64 + 1;
    Ok(format!(in alloc; "{text}{number}")?)
}

fn text_of_reason(alloc: Global, why: &Invalid) -> Result<String, NoMemory>
    ensures { IfOk result (λ s. string_bytes s ≡ reason_text why.now) }
{
    match why {
        Invalid::NoTxn => plain(alloc, "22 no transaction"),
        Invalid::InTxn => plain(alloc, "22 in transaction"),
        Invalid::Prepared => plain(alloc, "22 prepared"),
        Invalid::FailedTxn => plain(alloc, "22 failed transaction"),
        Invalid::ZeroStamp => plain(alloc, "22 zero stamp"),
        Invalid::BeforeOldest { .. } => plain(alloc, "22 before oldest"),
        Invalid::NotAfterStable { .. } => plain(alloc, "22 not after stable"),
        Invalid::OldestAfterStable { .. } => plain(alloc, "22 oldest after stable"),
        Invalid::NoCommitStamp => plain(alloc, "22 no commit stamp"),
        Invalid::DurableGiven => plain(alloc, "22 durable given"),
        Invalid::BeforePrepare { .. } => plain(alloc, "22 before prepare"),
        Invalid::DurableBeforeCommit { .. } => plain(alloc, "22 durable before commit"),
        Invalid::Order { .. } => plain(alloc, "22 order"),
        Invalid::NoStampAfterStamp { .. } => plain(alloc, "22 no stamp after stamp"),
        Invalid::KeyLong { .. } => plain(alloc, "22 key long"),
        Invalid::ValueLong { .. } => plain(alloc, "22 value long"),
        Invalid::Unpositioned => plain(alloc, "22 unpositioned"),
        Invalid::InCall => plain(alloc, "22 in call"),
        Invalid::NoCall => plain(alloc, "22 no call"),
        Invalid::NoCkpt => plain(alloc, "22 no checkpoint"),
        Invalid::CkptLeft => plain(alloc, "22 checkpoint left"),
        Invalid::BadName => plain(alloc, "22 name"),
        Invalid::BadConfig => plain(alloc, "22 config"),
        Invalid::Text { line } => Ok(format!(in alloc; "22 text at line {line}")?),
    }
}

fn text_of_limit(alloc: Global, what: &Limit) -> Result<String, NoMemory>
    ensures { IfOk result (λ s. string_bytes s ≡ limit_text what.now) }
{
    match what {
        Limit::Sessions => plain(alloc, "75 limit sessions"),
        Limit::Tables => plain(alloc, "75 limit tables"),
        Limit::Ids => plain(alloc, "75 limit ids"),
        Limit::Generations => plain(alloc, "75 limit generations"),
        Limit::Checkpoints => plain(alloc, "75 limit checkpoints"),
        Limit::Rollbacks => plain(alloc, "75 limit rollbacks"),
        Limit::Image => plain(alloc, "75 limit image"),
    }
}
