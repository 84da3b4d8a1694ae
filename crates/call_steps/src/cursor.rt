// The cursors of a session.

use crate::stage::Target;
use item::Item;

/// Where a cursor stands.
#[derive(Drop)]
pub struct Position {
    /// The number of the table.
    pub table: u32,
    /// The key of the row.
    pub key: Item,
}

/// A cursor of a session.
#[derive(Drop)]
pub struct Cursor {
    /// Which of the session's hazard words is its own.
    pub word: u32,
    /// The leaf whose frame that word names; none where the word is clear.
    pub pinned: Option<Target>,
    /// Where it stands; none where it is not positioned.
    pub position: Option<Position>,
}
