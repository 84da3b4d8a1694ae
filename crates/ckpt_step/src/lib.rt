//! A checkpoint, as it starts and as it is finished, beside other work or in one event: of each table the
//! tree of its rows, the history, the record, and the slot.
//!
//! Stands for the last completed checkpoint of the engine's device (`Ground`): its blocks, its
//! number, and where its trees stand, beside the blocks of leaves that were written since. Promises
//! that a checkpoint keeps of each table that stood as it started, in the rows and in the history, what a
//! read at that moment can want (`IsFinishOf` of `ckpt_content`, which says that it opens as the
//! machine's); that at each moment the device has the checkpoint before or the new one, whole, and that
//! what is refused gives back what it wrote. Says what may take the place of a leaf that leaves memory,
//! and that the next checkpoint stands then as before; and writes a leaf that changed out while nobody is
//! at work (`write_out`), or evicts it to a block of its own, or to several, whoever is and whether or not
//! a checkpoint runs (`evict`), so that the next checkpoint keeps its blocks; the older versions that
//! somebody may still want are kept in memory then (`Kept`).
//! Leaves to the caller to open the device, when a checkpoint may come, to keep the one that runs
//! (`RunningCheckpoint` of `engine`), and which leaves leave.
#![tactic(auto)]

mod before;
mod books;
mod clean;
mod cutting_out;
mod emptying;
mod evicting;
mod giving;
mod ground;
mod laws;
mod leaves;
mod lives;
mod moving_in;
mod moving_out;
mod parting;
mod parts;
mod record;
mod roots;
mod taken;
mod taking;
mod trees;
mod writing;
mod writing_out;

pub use evict_step::Kept;
pub use evicting::{Evicted, evict};
pub use giving::entries_in_place;
pub use ground::Ground;
pub use laws::{
    checkpoints_are_kept, checkpoints_have_newest, grounds_give_way, grounds_let_go, grounds_stay,
};
pub use lives::{Lives, Lone};
pub use parts::Parts;
pub use taking::{checkpoint, finish, start};
pub use writing_out::write_out;
