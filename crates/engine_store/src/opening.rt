// How a device is opened.
ghost use Rattle.std.specs.Prelude.{◌≡◌, ℕ, List, [], Some, length, IfErr, IfOk, OnOk, IsTrue};
ghost use Rattle.disk_model.specs.Crash.{Looked};
ghost use Rattle.kv_model.specs.Content.{Content, IsLayered};
ghost use Rattle.stored.specs.Stored.{Reads};
ghost use Rattle.recover_open.specs.Recoveries.{KeepsNone};
ghost use Rattle.engine_store.specs.Calls.{IsBasis, basis_of};
ghost use Rattle.engine_store.specs.Found.{IsFound};
ghost use Rattle.engine_store.specs.Opened.{IsOpened, IsOutset, IsReady, IsSurveyable, RefusesOpen, SpoilsAreThere};

use crate::above::store_above;
use crate::eviction::Clock;
use crate::frames::Frames;
use crate::store::Store;
use catalog::Catalog;
use ckpt_step::{Ground, Kept, Lives, Parts};
use device_leaf::Place;
use disk_model::Disk;
use engine::Local;
use failure::NoMemory;
use recover_open::{SurveyedWhole, survey_whole};
use stamp::Name;
use std::alloc::Global;
use tree_dir::Dir;
use wt_code::Refusal;

/// An engine with so many frames on what a device holds, without a session. The record, the inner pages
/// and the history are read, and of the leaves those alone of which an opening may take something out:
/// any other is read when a call needs it, and damage of it told then. What the opening keeps of the
/// history is in memory, and comes to its leaf with that. Nothing is written.
///
/// Refused as `recover_open::survey_whole` says, since such a leaf is at fault, as `75 limit checkpoints`
/// where no run may follow that of the record, and as `75 limit tables` where its next number leaves
/// none for as many tables as an engine may have. `O(bytes)` of what is read, `O(n)` in the leaves and
/// blocks, `O(n log n)` in the records of the history, and `O(n^2)` in the tables at most.
pub fn open_on<D: Disk>(alloc: Global, disk: &mut D, frames: Frames) -> Result<Store, Refusal>
    ensures ok { IsTrue (D.honest disk.old) → (content : Content) → Reads (D.seen disk.old) content → IsLayered content → IfOk result (IsOpened (D.seen disk.new) (D.may_leave disk.new)) }
    ensures surveyed { IsTrue (D.honest disk.old) → OnOk result (IsSurveyable (D.seen disk.old)) }
    ensures spoils { IsTrue (D.honest disk.old) → IfOk result (SpoilsAreThere (D.seen disk.old)) }
    ensures basis { IfOk result (λ s. IsBasis D.Disk (Some (basis_of D.Disk s disk.new)) s.engine disk.new) }
    ensures ready { IfOk result IsReady }
    ensures frames { IfOk result (λ s. s.frames ≡ frames) }
    ensures sessions { IfOk result (λ s. length s.engine.sessions ≡ 0) }
    ensures err { IfErr result (RefusesOpen D.Disk (IsTrue (D.honest disk.old)) disk.old disk.new) }
    ensures looked { Looked D.Disk disk.old disk.new }
    ensures home { D.home disk.new ≡ D.home disk.old }
{
    let SurveyedWhole { place, whole } = match survey_whole(alloc, disk) {
        Ok(found) => found,
        Err(refusal) => return Err(refusal),
    };
    match whole {
        Some(whole) => store_above(alloc, disk, place, whole, frames),
        None => match store_on_nothing(alloc, place, frames) {
            Ok(store) => Ok(store),
            Err(NoMemory) => Err(Refusal::NoMemory),
        },
    }
}

// An engine on a device on which no checkpoint was completed.
fn store_on_nothing(alloc: Global, place: Place, frames: Frames) -> Result<Store, NoMemory>
    ensures found { (bytes : List ℕ) → KeepsNone bytes place → IfOk result (IsFound bytes) }
    ensures bare { IfOk result (λ s. s.engine.hub.dir.leaves ≡ []) }
    ensures outset { IfOk result (λ s. IsOutset s.engine.hub) }
    ensures ready { IfOk result IsReady }
    ensures frames { IfOk result (λ s. s.frames ≡ frames) }
    ensures sessions { IfOk result (λ s. length s.engine.sessions ≡ 0) }
{
    let engine = Local::open(alloc, 1, 0, 0, Catalog::new(alloc), Dir::new(alloc))?;
    // What holds of the leaves of every engine holds of these.
    engine.leaves();
    Ok(Store {
        engine,
        ground: Ground {
            place,
            number: 0,
            trees: Vec::new(alloc),
            parts: Parts::new(alloc),
            lives: Lives::new(alloc),
            history: Vec::new(alloc),
            kept: Kept::new(alloc),
            floor: Name { run: 0, id: 0 },
        },
        running: None,
        frames,
        clock: Clock::new(),
    })
}
