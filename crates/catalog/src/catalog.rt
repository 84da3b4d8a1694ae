//! The tables of an engine.

ghost use Rattle.std.specs.Prelude.{◌≡◌, ◌<◌, ◌≤◌, ◌-◌, ◌^◌, ◌++◌, max, [], length, reverse, true, IfOk, IfErr, IfSome, IfNone, None, OnOk, OnErr, option_map, slice_get};
ghost use Rattle.catalog.specs.Known.{Known, AreTables, by_name, place_of, with_new};
ghost use Rattle.kv_model.specs.History.{Table as ModelTable};
ghost use Rattle.kv_model.specs.Content.{descending, table_lt};
ghost use Rattle.kv_model.specs.Decisions.{is_name, same_formats};
ghost use Rattle.catalog.specs.Opens.{AreRecorded};
ghost use Rattle.catalog.specs.Push.{MayFollow, MayAllFollow};
ghost use Rattle.catalog.specs.Order.{Finds, table_at};
ghost use Rattle.catalog.specs.declared.places.Search.TheVariants as Search;
ghost use Rattle.catalog.specs.Creates.{IsCreated, IsRefused, asked};

use crate::created::Created;
use crate::names::is_name;
use crate::opening::descending;
use crate::places::{Search, first_not_below, keep_below, look_up, put};
use crate::table::Table;
use failure::NoMemory;
use item::{Formats, Item};
use limits::TABLES_MAX;
use std::alloc::Global;
use std::marker::Model;
use wt_code::{Invalid, Limit, Refusal};

/// The greatest number of a table, so that the next one has room too: 2^32 - 2.
const NUMBER_MAX: u32 = u32::MAX - 1;

/// The tables of an engine, 1,024 at most. Tables keep their places, from 0 on in the order in
/// which they were made.
#[derive(Drop)]
pub struct Catalog {
    tables: Vec<Table>,
    // The places of the tables, in the order of their names.
    places: Vec<u32>,
    // The number of the next table.
    next: u32,
}

impl Model for Catalog {
    ghost use Rattle.catalog.specs.Known.{Known};
    ghost use Rattle.catalog.specs.Order.{IsCatalog};

    ghost Value = { Known };

    ghost view = { λ c. record { tables = c.tables.items; next = c.next } };

    ghost invariant = { λ c. IsCatalog (record { tables = c.tables.items; next = c.next }) c.places.items };
}

impl Catalog {
    /// No tables; the first one has number 1. Takes no memory.
    pub fn new(alloc: Global) -> Catalog
        ensures { result ≡ record { tables = []; next = 1 } }
    {
        Catalog {
            tables: Vec::new(alloc),
            places: Vec::new(alloc),
            next: 1,
        }
    }

    /// The tables of a device, as its record has them, with the number of the next one, where 0 is
    /// taken as 1. They get their places by number, as in the history of the machine that an opening
    /// makes. The error is want of memory. `O(n^2)` in the tables at most.
    pub fn open(alloc: Global, tables: Vec<Table>, next: u32) -> Result<Catalog, NoMemory>
        requires { AreRecorded tables.items next }
        ensures tables { IfOk result (λ c. reverse c.tables ≡ descending table_lt tables.items) }
        ensures names { IfOk result (λ c. by_name c.tables ≡ tables.items) }
        ensures next { IfOk result (λ c. c.next ≡ max next 1) }
    {
        let sorted = descending(alloc, tables)?;
        let mut catalog = Catalog::new(alloc);
        catalog.push_all(sorted, next.max(1))?;
        Ok(catalog)
    }

    /// How many tables there are.
    pub fn len(&self) -> usize
        ensures count { result ≡ length self.now.tables }
        ensures tables { AreTables self.now }
    {
        self.tables.len()
    }

    /// The number of the next table.
    pub fn next_number(&self) -> u32
        ensures { result ≡ self.now.next }
    {
        self.next
    }

    /// The place of the table of this name. `O(log n)` in the tables.
    pub fn find(&self, name: &[u8]) -> Option<u32>
        ensures { result ≡ place_of name.now self.now.tables }
    {
        match look_up(&self.tables, &self.places, name) {
            Search::Found(place) => Some(place),
            Search::Absent(_) => None,
        }
    }

    /// The table at a place. `O(1)`.
    pub fn table(&self, place: u32) -> Option<&Table>
        ensures { option_map (λ t. t.now) result ≡ slice_get self.now.tables place }
    {
        self.tables.get(place as usize)
    }

    /// The place of the i-th table in the order of names, i from 0. `O(1)`.
    pub fn place_at(&self, i: u32) -> Option<u32>
        ensures found { IfSome result (λ place. (place < length self.now.tables) × (slice_get self.now.tables place ≡ slice_get (by_name self.now.tables) i)) }
        ensures none { IfNone result (slice_get (by_name self.now.tables) i ≡ None) }
    {
        self.places.get(i as usize).copied()
    }

    /// The i-th table in the order of names, i from 0. `O(1)`.
    pub fn table_at(&self, i: u32) -> Option<&Table>
        ensures { option_map (λ t. t.now) result ≡ slice_get (by_name self.now.tables) i }
    {
        let place = self.place_at(i)?;
        self.table(place)
    }

    /// Makes a table of this name and these formats, or finds it. Refused, in this order, where a
    /// table cannot have the name, where it is there with other formats (`Exists`), and where there
    /// are 1,024 tables or the numbers up to 2^32 - 2 are used up (both `Limit`); and for want of
    /// memory. `O(log n)` in the tables, and for a new one a copy of the name and one move of the
    /// places behind it.
    pub fn create(
        &mut self,
        alloc: Global,
        name: &[u8],
        formats: Formats,
    ) -> Result<Created, Refusal>
        ensures created { IfOk result (λ c. IsCreated self.old (asked self.old name.now formats) self.new c) }
        ensures refused { IfErr result (λ e. IsRefused self.old (asked self.old name.now formats) e) }
        ensures kept { OnErr result (self.new ≡ self.old) }
    {
        if !is_name(name) {
            return Err(Refusal::Invalid(Invalid::BadName));
        }
        match look_up(&self.tables, &self.places, name) {
            Search::Found(place) => {
                if !has_formats(&self.tables, place, formats) {
                    return Err(Refusal::Exists);
                }
                Ok(Created::Same(place))
            }
            Search::Absent(i) => self.make(alloc, i, name, formats),
        }
    }

    /// Takes back the table that was made last; nothing where there is none. `O(n)` in the tables.
    pub fn take_back(&mut self)
        ensures { (known : Known) (t : ModelTable) → self.old ≡ with_new known t → self.new ≡ record { tables = known.tables; next = t.number } }
    {
        if let Some(table) = self.tables.pop() {
            keep_below(&mut self.places, self.tables.len());
            self.next = table.number;
        }
    }

    // Makes a table whose name may be one and no other has.
    fn make(
        &mut self,
        alloc: Global,
        i: usize,
        name: &[u8],
        formats: Formats,
    ) -> Result<Created, Refusal>
        requires name { is_name name.now ≡ true }
        requires absent { Finds self.old.tables name.now (Search.Absent i) }
        ensures created { IfOk result (λ c. IsCreated self.old (asked self.old name.now formats) self.new c) }
        ensures refused { IfErr result (λ e. IsRefused self.old (asked self.old name.now formats) e) }
        ensures kept { OnErr result (self.new ≡ self.old) }
    {
        let place = self.tables.len();
        if place >= TABLES_MAX || self.next > NUMBER_MAX {
            return Err(Refusal::Limit(Limit::Tables));
        }
        let table = Table {
            number: self.next,
            name: Item::new(Vec::from_slice(alloc, name)?),
            formats,
        };
        self.append(i, table)?;
        Ok(Created::New(place as u32))
    }

    // Puts tables behind the others, the last one first, and takes the number of the next one.
    fn push_all(&mut self, mut rest: Vec<Table>, next: u32) -> Result<(), NoMemory>
        requires { MayAllFollow self.old rest.items next }
        ensures tables { OnOk result (reverse self.new.tables ≡ rest.items ++ reverse self.old.tables) }
        ensures next { OnOk result (self.new.next ≡ next) }
    {
        while let Some(table) = rest.pop() {
            self.push(table)?;
        }
        self.raise_next(next);
        Ok(())
    }

    // Puts a table behind the others.
    fn push(&mut self, table: Table) -> Result<(), NoMemory>
        requires { MayFollow self.old table }
        ensures { OnOk result (self.new ≡ with_new self.old table) }
    {
        let i = first_not_below(&self.tables, &self.places, table.name.as_bytes());
        self.append(i, table)
    }

    // Takes another number for the next table.
    fn raise_next(&mut self, next: u32)
        requires { self.old.next ≤ next }
        ensures { self.new ≡ record { tables = self.old.tables; next = next } }
    {
        self.next = next;
    }

    // Puts a table whose name no other has behind the others.
    fn append(&mut self, i: usize, table: Table) -> Result<(), NoMemory>
        requires absent { Finds self.old.tables table.name (Search.Absent i) }
        requires few { length self.old.tables < 1024 }
        requires name { is_name table.name ≡ true }
        requires number { (self.old.next ≤ table.number) × (table.number < 2 ^ 32 - 1) }
        ensures ok { OnOk result (self.new ≡ with_new self.old table) }
        ensures err { OnErr result (self.new ≡ self.old) }
    {
        self.tables.reserve(1)?;
        self.places.reserve(1)?;
        self.next = table.number + 1;
        put(&mut self.tables, &mut self.places, i, table);
        Ok(())
    }
}

fn has_formats(tables: &[Table], place: u32, formats: Formats) -> bool
    requires { place < length tables.now }
    ensures { result ≡ same_formats formats (table_at tables.now place).formats }
{
    let table = &tables[place as usize];
    formats == table.formats
}
