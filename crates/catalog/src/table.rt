// A table.

use item::{Formats, Item};
use std::marker::Model;

/// A table. It is seen as the model's.
#[derive(Drop)]
pub struct Table {
    /// Its number, which no other table of the device has.
    pub number: u32,
    /// Its name, 1 to 128 bytes.
    pub name: Item,
    /// How its keys and values are stored.
    pub formats: Formats,
}

impl Model for Table {
    ghost use Rattle.kv_model.specs.History.{Table as ModelTable};

    ghost Value = { ModelTable };

    ghost view = { λ t. record { number = t.number; name = t.name; formats = t.formats } };
}
