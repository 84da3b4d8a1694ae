//! The directory of the leaves of all tables, in memory.
//!
//! Stands for the list of the leaves in the order of their tables, and of each table in that of
//! their low keys. They part the keys of a table: a leaf has the keys from its low key up to that of
//! the next leaf, and the first begins at the empty key. Promises that a search gives the leaf that
//! has a key, that the last leaf of a table and the leaves beside a leaf are found, and that a table's leaves come, and a leaf
//! gives way to others, whole or not at all. A leaf is named by an id that is never given again:
//! where it gives way, each leaf in its place has a new one, so that whoever kept the old id, as a
//! session its position, is told that the leaf is gone and finds its key again, in place of looking
//! in a leaf whose keys have become fewer. Where a leaf is written anew with the same keys it keeps
//! its id, and gets another link. A look-up by id is `O(1)`, one by key `O(log n)` comparisons with n
//! leaves; no call goes over all leaves. `cut_level` makes the inner pages above the entries of a
//! level, each as full as it can be, so that a tree has few levels. Leaves to the caller what stands
//! in a leaf, which frame has it, and where pages are written.
#![tactic(auto)]

mod adding;
mod dir;
mod draft;
mod laws;
mod leaf;
mod levels;
mod neighbours;
mod places;
mod replacing;
mod slots;
mod walk;

pub use dir::Dir;
pub use draft::PageDraft;
pub use failure::NoMemory;
pub use inner_page::Entry;
pub use laws::{
    first_begins, has_is_under, ids_name, keys_have_leaves, last_ends, leaves_give_way,
    next_goes_on, next_turns, prev_turns, tables_end, under_has,
};
pub use leaf::{Framed, Leaf};
pub use levels::{cut_level, levels_shrink};
pub use walk::TableLeaves;
