//! The events of a session's calls, one by one: what a session keeps of its call in hand, on which
//! piece its next event is, and what each event makes of that piece and of the session.
//!
//! A call goes on by events: on the hub (transactions, stamps, tables), on the piece of a frame
//! (a leaf), and on a word (a hazard word of the session, or the state word of a frame). Promises
//! of the start of a call and of each event exactly what it answers and leaves, as plain data, for
//! all calls of a session. What the events mean for the machine, who may hold which piece when, and
//! that a call ends is left to whoever drives them.
#![tactic(auto)]

mod cursor;
mod edit;
mod frame;
mod frame_events;
mod hub;
mod hub_events;
mod leaves;
mod lent;
mod looks;
mod next;
mod reply;
mod rows;
mod stage;
mod standing;
mod starts;
mod state;
mod text;
mod words;
mod written;

pub use cursor::{Cursor, Position};
pub use edit::Edit;
pub use frame::{Frame, FramePiece, empty, filled};
pub use frame_events::frame_event;
pub use hub::{Hub, leaf_of_row, stage_of};
pub use hub_events::hub_event;
pub use next::Next;
pub use reply::Reply;
pub use rows::{RowFound, find_row, next_row, walk_near, walk_of};
pub use stage::{CommitStamps, KeyCall, Stage, Target, Wanted};
pub use state::SessionState;
pub use words::unless_running;
pub use written::WrittenKey;
