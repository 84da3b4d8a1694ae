// What a record has. Each type is seen as its definition in `stored` or `kv_model`.

use catalog::Table;
use device_layout::Link;
use std::marker::Model;

/// What leads to a tree.
#[derive(Clone, Copy, Debug, PartialEq, Eq)]
pub struct Root {
    /// The level of its root, 0 where that is a leaf; 60 at most.
    pub level: u8,
    /// What leads to its root.
    pub link: Link,
}

impl Model for Root {
    ghost use Rattle.stored.specs.Records.{Root as StoredRoot};

    ghost Value = { StoredRoot };

    ghost view = { λ r. record { level = r.level; link = r.link } };

    ghost inverse = { λ r. record { level = r.level; link = r.link } };
}

/// A table of a checkpoint, with its tree.
#[derive(Drop)]
pub struct TableRoot {
    /// The table.
    pub table: Table,
    /// What leads to its tree.
    pub root: Root,
}

impl Model for TableRoot {
    ghost use Rattle.stored.specs.Records.{TableRoot as StoredTable};

    ghost Value = { StoredTable };

    ghost view = { λ t. record { table = t.table; root = t.root } };
}

/// A table of a checkpoint that is to be written, with its tree. It lends its name.
#[derive(Drop)]
pub struct LentRoot<'a> {
    /// The table.
    pub table: &'a Table,
    /// What leads to its tree.
    pub root: Root,
}

impl<'a> Model for LentRoot<'a> {
    ghost use Rattle.stored.specs.Records.{TableRoot as StoredTable};

    ghost Value = { StoredTable };

    ghost view = { λ t. record { table = t.table.now; root = t.root } };
}

/// The ids that had not ended when the checkpoint started.
#[derive(Drop)]
pub struct Snapshot {
    /// The least of them, or `max` where there were none.
    pub min: u64,
    /// The next id at that time.
    pub max: u64,
    /// The ids, ascending, 64 at most.
    pub ids: Vec<u64>,
}

impl Model for Snapshot {
    ghost use Rattle.kv_model.specs.Content.{Snapshot as ModelSnapshot};

    ghost Value = { ModelSnapshot };

    ghost view = { λ s. record { min = s.min; max = s.max; ids = s.ids.items } };
}

/// The record of a checkpoint.
#[derive(Drop)]
pub struct Record {
    /// The checkpoint's number, the slot's: below 2^62.
    pub sequence: u64,
    /// The run that made it, from 1 to its number.
    pub run: u64,
    /// The oldest stamp, 0 where it is unset.
    pub oldest: u64,
    /// The stable stamp, 0 where it is unset.
    pub stable: u64,
    /// The ids that had not ended when the checkpoint started.
    pub snapshot: Snapshot,
    /// The number of the next table.
    pub next_table: u32,
    /// What leads to the history.
    pub history: Root,
    /// The tables in the order of their names, 1,024 at most.
    pub tables: Vec<TableRoot>,
}

impl Model for Record {
    ghost use Rattle.stored.specs.Records.{Record as StoredRecord};

    ghost Value = { StoredRecord };

    ghost view = { λ r. record {
      sequence = r.sequence;
      run = r.run;
      oldest = r.oldest;
      stable = r.stable;
      snapshot = r.snapshot;
      next_table = r.next_table;
      history = r.history;
      tables = r.tables.items;
    } };
}

/// The record of a checkpoint that is to be written. Its tables lend their names.
#[derive(Drop)]
pub struct LentRecord<'a> {
    /// The checkpoint's number, the slot's: below 2^62.
    pub sequence: u64,
    /// The run that made it, from 1 to its number.
    pub run: u64,
    /// The oldest stamp, 0 where it is unset.
    pub oldest: u64,
    /// The stable stamp, 0 where it is unset.
    pub stable: u64,
    /// The ids that had not ended when the checkpoint started.
    pub snapshot: Snapshot,
    /// The number of the next table.
    pub next_table: u32,
    /// What leads to the history.
    pub history: Root,
    /// The tables in the order of their names, 1,024 at most.
    pub tables: Vec<LentRoot<'a>>,
}

impl<'a> Model for LentRecord<'a> {
    ghost use Rattle.stored.specs.Records.{Record as StoredRecord};

    ghost Value = { StoredRecord };

    ghost view = { λ r. record {
      sequence = r.sequence;
      run = r.run;
      oldest = r.oldest;
      stable = r.stable;
      snapshot = r.snapshot;
      next_table = r.next_table;
      history = r.history;
      tables = r.tables.items;
    } };
}
