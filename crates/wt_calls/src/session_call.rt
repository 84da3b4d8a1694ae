use crate::demand::Demand;
use crate::way::Way;
use item::Item;

/// A call of a session.
///
/// A table is named by the bytes of its name. A name, a key and a value may be of any length here;
/// `TABLE_NAME_MAX`, `KEY_MAX` and `VALUE_MAX` of `limits` are what a store takes. Stamps that are
/// not given are `None`; one that is given as 0 is refused. A cursor is a number below `CURSORS_MAX`.
#[derive(Drop, PartialEq, Eq)]
pub enum SessionCall {
    /// Begin a transaction, at this read stamp.
    Begin(Option<u64>),
    /// Read the key.
    Get {
        table: Item,
        key: Item,
    },
    /// Give the key this value, where it meets the demand.
    Put {
        table: Item,
        key: Item,
        value: Item,
        demand: Demand,
    },
    /// Remove the key, which must have a value.
    Remove {
        table: Item,
        key: Item,
    },
    /// Take this cursor to the key, and read it.
    Seek {
        cursor: u32,
        table: Item,
        key: Item,
    },
    /// Take this cursor to the next row of the table, or to the previous one.
    Step {
        cursor: u32,
        table: Item,
        way: Way,
    },
    /// Let this cursor stand nowhere.
    Reset(u32),
    /// Prepare the transaction at this stamp.
    Prepare(u64),
    /// Commit the transaction, at these stamps.
    Commit {
        commit: Option<u64>,
        durable: Option<u64>,
    },
    /// Roll the transaction back.
    Rollback,
}
