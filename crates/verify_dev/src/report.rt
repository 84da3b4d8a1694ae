// What is counted of a device.
ghost use Rattle.std.specs.Prelude.{◌≡◌, ◌<◌, ◌^◌, length};
ghost use Rattle.stored.specs.Records.{IsRecord};
ghost use Rattle.verify_dev.specs.Reports.{IsZero};

use checkpoint_record::{Record, TableRoot};
use recover_open::Tally;

/// What the last completed checkpoint of a device has. All is 0 where there is none.
#[derive(Clone, Copy, Debug, PartialEq, Eq)]
pub struct Report {
    /// The tables of its record.
    pub tables: u32,
    /// The leaves of their trees that are stored: one without rows stands nowhere.
    pub leaves: u64,
    /// The versions that stand in these leaves, one for each row, and in the history, one for each
    /// record.
    pub versions: u64,
}

// Where no checkpoint was completed.
pub(crate) fn zero() -> Report
    ensures { IsZero result }
{
    Report {
        tables: 0,
        leaves: 0,
        versions: 0,
    }
}

pub(crate) fn report_of(found: &Record, tally: Tally) -> Report
    requires { IsRecord found.now }
    ensures tables { result.tables ≡ length found.now.tables }
    ensures leaves { result.leaves ≡ tally.leaves }
    ensures versions { result.versions ≡ tally.versions }
{
    Report {
        tables: count_of(&found.tables),
        leaves: tally.leaves,
        versions: tally.versions,
    }
}

fn count_of(tables: &[TableRoot]) -> u32
    requires { length tables.now < 2 ^ 32 }
    ensures { result ≡ length tables.now }
{
    tables.len() as u32
}
