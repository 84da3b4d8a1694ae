// Places of tables in the order of their names.
ghost use Rattle.std.specs.Prelude.{◌≡◌, ◌<◌, ◌≤◌, ◌^◌, ◌++◌, ◌∷◌, [], length, map, filter, ltb, bytes_eq, take, drop, vec_len, vec_capacity};
ghost use Rattle.std.specs.List.{AllByRecursion};
ghost use Rattle.catalog.specs.Known.{AreDistinct, is_below};
ghost use Rattle.catalog.specs.Order.{Ascend, Finds, IsOrder, SplitsAt, table_at};

use crate::table::Table;
use byte_order::order;

/// What a look-up of a name finds.
#[derive(Clone, Copy)]
pub(crate) enum Search {
    /// The place of its table.
    Found(u32),
    /// No table, and how many names are below it.
    Absent(usize),
}

/// Looks a name up. `O(log n)`.
pub(crate) fn look_up(tables: &[Table], places: &[u32], name: &[u8]) -> Search
    requires distinct { AreDistinct tables.now }
    requires order { IsOrder tables.now places.now }
    ensures { Finds tables.now name.now result }
{
    let i = first_not_below(tables, places, name);
    if i < places.len() && has_name(tables, places[i], name) {
        return Search::Found(places[i]);
    }
    Search::Absent(i)
}

/// How many names, from the first on, are below this one, by halving.
pub(crate) fn first_not_below(tables: &[Table], places: &[u32], name: &[u8]) -> usize
    requires within { AllByRecursion (λ place. place < length tables.now) places.now }
    requires ascend { Ascend (map (table_at tables.now) places.now) }
    ensures { SplitsAt (map (table_at tables.now) places.now) name.now result }
{
    let mut low = 0;
    let mut high = places.len();
    while low < high {
        let middle = low + (high - low) / 2;
        if is_below_at(tables, places[middle], name) {
            low = middle + 1;
        } else {
            high = middle;
        }
    }
    low
}

fn is_below_at(tables: &[Table], place: u32, name: &[u8]) -> bool
    requires { place < length tables.now }
    ensures { result ≡ is_below (table_at tables.now place).name name.now }
{
    let table = &tables[place as usize];
    order(table.name.as_bytes(), name).is_lt()
}

fn has_name(tables: &[Table], place: u32, name: &[u8]) -> bool
    requires { place < length tables.now }
    ensures { result ≡ bytes_eq (table_at tables.now place).name name.now }
{
    let table = &tables[place as usize];
    table.name.as_bytes() == name
}

/// Puts a table behind the others, and its place before the i-th. Takes no memory.
pub(crate) fn put(tables: &mut Vec<Table>, places: &mut Vec<u32>, i: usize, table: Table)
    requires within { i ≤ vec_len places.old }
    requires room { (vec_len tables.old < vec_capacity tables.old) × (vec_len places.old < vec_capacity places.old) }
    requires few { vec_len tables.old < 2 ^ 32 }
    ensures tables { tables.new.items ≡ tables.old.items ++ table ∷ [] }
    ensures places { places.new.items ≡ take i places.old.items ++ length tables.old.items ∷ drop i places.old.items }
{
    let place = tables.len() as u32;
    let _inserted = places.insert(i, place);
    tables.push_reserved(table);
}

/// Keeps the places below this one, in their order. `O(n)`.
pub(crate) fn keep_below(places: &mut Vec<u32>, end: usize)
    ensures { places.new.items ≡ filter (λ place. ltb place end) places.old.items }
{
    places.retain(|place| (*place as usize) < end);
}
