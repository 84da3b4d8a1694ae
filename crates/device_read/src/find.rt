//! A table, by its place and by its name.

ghost use Rattle.std.specs.Prelude.{◌≡◌, slice_get, option_map, IfSome, IfNone, Some, None};
ghost use Rattle.std.specs.Ordering.{nat_cmp};
ghost use Rattle.std.specs.Cmp.Lexicographic.{slice_cmp};
ghost use Rattle.kv_model.specs.History.{Table as ModelTable, named};
ghost use Rattle.stored.specs.Records.{TablesClimb};
ghost use Rattle.stored.specs.Stored.{tables_of};

use byte_order::order;
use catalog::Table;
use checkpoint_record::TableRoot;
use std::cmp::Ordering;

pub(crate) fn table_at(tables: &[TableRoot], place: usize) -> Option<&Table>
    ensures { option_map (λ t. t.now) result ≡ slice_get (tables_of tables.now) place }
{
    match tables.get(place) {
        Some(found) => Some(&found.table),
        None => None,
    }
}

/// The place of the table of this name, by halving: the names before `low` are below it, and those
/// from `high` on above it.
pub(crate) fn place_of(tables: &[TableRoot], name: &[u8]) -> Option<usize>
    requires { TablesClimb tables.now }
    ensures found { IfSome result (λ place. (t : ModelTable) × (slice_get (tables_of tables.now) place ≡ Some t) × (named name.now (tables_of tables.now) ≡ Some t)) }
    ensures none { IfNone result (named name.now (tables_of tables.now) ≡ None) }
{
    let mut low = 0;
    let mut high = tables.len();
    while low < high {
        let middle = low + (high - low) / 2;
        match compare(&tables[middle], name) {
            Ordering::Less => low = middle + 1,
            Ordering::Equal => return Some(middle),
            Ordering::Greater => high = middle,
        }
    }
    None
}

// Where the name of the table stands beside this one.
fn compare(table: &TableRoot, name: &[u8]) -> Ordering
    ensures { result ≡ slice_cmp nat_cmp table.now.table.name name.now }
{
    order(table.table.name.as_bytes(), name)
}
