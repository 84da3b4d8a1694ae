// The tables of a reader, by their names.
ghost use Rattle.std.specs.Prelude.{◌≡◌, IfSome, IfNone, None};
ghost use Rattle.kv_model.specs.History.{named};
ghost use Rattle.device_read.specs.Readers.{tables_in};
ghost use Rattle.wt_tool.specs.Pages.{IsTableAt, formats_found};

use crate::names::plain_formats;
use device_read::Reader;
use item::Formats;

// A table: its place among those of the reader, and its formats.
#[derive(Clone, Copy, Debug, PartialEq, Eq)]
pub(crate) struct TableAt {
    pub(crate) place: usize,
    pub(crate) formats: Formats,
}

// The table of this name. `O(log n)` in the tables.
pub(crate) fn table_named(reader: &Reader, name: &[u8]) -> Option<TableAt>
    ensures found { IfSome result (IsTableAt (tables_in reader.now) name.now) }
    ensures none { IfNone result (named name.now (tables_in reader.now) ≡ None) }
{
    let place = reader.find(name)?;
    let table = reader.table(place)?;
    Some(TableAt {
        place,
        formats: table.formats,
    })
}

// The formats of a table; where there is none, words are taken as they are.
pub(crate) fn formats_of(found: Option<TableAt>) -> Formats
    ensures { result ≡ formats_found found }
{
    match found {
        Some(table) => table.formats,
        None => plain_formats(),
    }
}
