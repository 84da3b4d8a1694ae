// How a device is opened.
ghost use Rattle.std.specs.Prelude.{◌≡◌, IfOk, IfErr, IsTrue};
ghost use Rattle.disk_model.specs.Crash.{Looked};
ghost use Rattle.recover_open.specs.Surveys.{Surveys, AboveInForm};
ghost use Rattle.recover_open.specs.Recoveries.{IsRecovered, InForm, RefusesRecovery, IsAssembled};

use crate::record::tables_of;
use crate::surveying::{Above, Surveyed, survey};
use crate::trees::{AllTrees, keep_all, read_all};
use checkpoint_record::Record;
use device_leaf::Place;
use disk_model::Disk;
use leaf_rows::Rows;
use limits::NUMBER_MAX;
use std::alloc::Global;
use tree_open::TreePlace;
use wt_code::{Limit, Refusal};

/// What the last completed checkpoint holds.
#[derive(Drop)]
pub struct Kept {
    /// Its record.
    pub record: Record,
    /// By table, in the record's order: where its tree stands.
    pub trees: Vec<TreePlace>,
    /// By table, in the record's order: of its rows those that an opening keeps.
    pub leaves: Vec<Rows>,
}

/// What a recovery finds.
#[derive(Drop)]
pub struct Recovered {
    /// Where it stands.
    pub place: Place,
    /// None where no checkpoint was completed.
    pub kept: Option<Kept>,
}

/// Finds the last completed checkpoint, and changes nothing. `O(bytes)` of the record and the
/// trees, each block read once.
///
/// `75 limit checkpoints` comes only where no run may follow the one that made the checkpoint, and
/// `75 limit image` only where it has a history. `Corrupt` tells damage that the device has
/// (`IsDamage`): the offset of a slot, with no sums, or of the block of the record, of an inner page
/// or of a leaf, with the sum that it should have and the sum that it has, or the same sum twice
/// where that is not at fault. A leaf is also at fault whose keys are not between its entry's and
/// the next one's. Of two blocks that overlap it is the later one, in the order of the record and
/// then the trees by table, the inner pages of each from the root down before its leaves. What
/// `survey` tells is told first, an overlap too, then the limit of checkpoints, then the first leaf
/// at fault.
pub fn recover<D: Disk>(alloc: Global, disk: &mut D) -> Result<Recovered, Refusal>
    ensures ok { IsTrue (D.honest disk.old) → IfOk result (IsRecovered (D.seen disk.old)) }
    ensures form { IfOk result (λ o. InForm o.kept) }
    ensures err { IfErr result (RefusesRecovery D.Disk (IsTrue (D.honest disk.old)) disk.old disk.new) }
    ensures looked { Looked D.Disk disk.old disk.new }
    ensures home { D.home disk.new ≡ D.home disk.old }
{
    let Surveyed { place, above } = match survey(alloc, disk) {
        Ok(found) => found,
        Err(refusal) => return Err(refusal),
    };
    match above {
        Some(above) => recover_from(alloc, disk, place, above),
        None => Ok(Recovered { place, kept: None }),
    }
}

// The checkpoint that was surveyed, with its leaves.
fn recover_from<D: Disk>(
    alloc: Global,
    disk: &mut D,
    place: Place,
    above: Above,
) -> Result<Recovered, Refusal>
    requires { AboveInForm above }
    ensures ok { IsTrue (D.honest disk.old) → Surveys (D.seen disk.old) place above → IfOk result (IsRecovered (D.seen disk.old)) }
    ensures form { IfOk result (λ o. InForm o.kept) }
    ensures err { IfErr result (RefusesRecovery D.Disk (IsTrue (D.honest disk.old) × Surveys (D.seen disk.old) place above) disk.old disk.new) }
    ensures looked { Looked D.Disk disk.old disk.new }
    ensures home { D.home disk.new ≡ D.home disk.old }
{
    let Above {
        record: found,
        uppers,
    } = above;
    if found.run >= NUMBER_MAX {
        return Err(Refusal::Limit(Limit::Checkpoints));
    }
    match read_all(alloc, disk, tables_of(&found), uppers) {
        Ok(trees) => Ok(assembled(place, found, trees)),
        Err(refusal) => Err(refusal),
    }
}

fn assembled(place: Place, found: Record, trees: AllTrees) -> Recovered
    ensures { IsAssembled place found trees.places.items trees.leaves.items result }
{
    let AllTrees { places, leaves } = trees;
    let mut leaves = leaves;
    keep_all(&found, &mut leaves);
    Recovered {
        place,
        kept: Some(Kept {
            record: found,
            trees: places,
            leaves,
        }),
    }
}
