// Histories as plain data.

use item::{Change, Formats, Item};
use stamp::{Name, Version};

/// A table.
#[derive(Drop)]
pub struct Table {
    /// From 1 upwards.
    pub number: u32,
    /// Its bytes.
    pub name: Item,
    /// How its keys and values are written as text.
    pub formats: Formats,
}

/// One key's change by a transaction, with its own stamps, 0 for none.
#[derive(Drop)]
pub struct Write {
    pub table: u32,
    pub key: Item,
    pub change: Change,
    pub commit: u64,
    pub durable: u64,
}

/// An entry of a history.
#[derive(Drop)]
pub enum Entry {
    /// A new table.
    Create(Table),
    /// The commit of a transaction that was not prepared.
    Commit(Name, Vec<Write>),
    /// A prepare, with its stamp.
    Prepare(Name, u64),
    /// The commit of a prepared transaction.
    Resolve(Name, Vec<Write>),
    /// The rollback of a prepared transaction.
    Undo(Name),
    /// A rollback to this stable stamp.
    Rts(u64),
}

/// A version of a key of a table.
#[derive(Drop)]
pub struct Placed {
    /// The table's number.
    pub table: u32,
    /// The key as stored.
    pub key: Item,
    /// The transaction's name, its stamps, 0 for none, and what it made of the key.
    pub version: Version<Change>,
}

/// A version that was found: its transaction's name, and the write.
#[derive(Clone, Copy)]
pub(crate) struct Found<'a> {
    pub name: Name,
    pub write: &'a Write,
}
