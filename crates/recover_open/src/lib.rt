//! The last completed checkpoint of a device: how it is found again.
//!
//! Promises that a survey finds exactly what the device holds but for the leaves: the record of the
//! checkpoint, of each table the entries of its leaves and where its inner pages stand, and the books
//! of all blocks; that leaves are checked against their entries, and counted, without keeping a row;
//! that a recovery finds all of it: of each table where its tree stands and the rows that an opening
//! keeps; and that a device which is refused as damaged reads as no content. Of a checkpoint with a
//! history `survey_whole` finds the history too; the others refuse it as `75 limit image`. Leaves to the
//! caller what the rows mean.
#![tactic(auto)]

mod books;
mod check;
mod law;
mod leaves;
mod opening;
mod record;
mod surveying;
mod trees;
mod uppers;
mod wholes;

pub use check::{Tally, check_leaves};
pub use law::{a_damaged_device_reads_as_nothing, a_device_with_damage_reads_as_nothing};
pub use opening::{Kept, Recovered, recover};
pub use surveying::{Above, Surveyed, survey};
pub use wholes::{SurveyedWhole, Whole, survey_whole};
