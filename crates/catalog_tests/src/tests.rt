// Which tables are made, where they stand, and in which order by name.
ghost use Rattle.std.specs.Prelude.{◌≡◌, ◌∷◌, []};
ghost use Rattle.item.specs.declared.Format.TheVariants.{S};
ghost use Rattle.catalog.specs.Opens.{AreRecorded};

use catalog::{Catalog, Created, Table, is_name};
use item::{Format, Formats, Item};
use std::alloc::Global;
use std::process::Abort;
use wt_code::{Invalid, Limit, Refusal};

const TEXTS: Formats = Formats {
    key: Format::S,
    value: Format::S,
};

const BYTES: Formats = Formats {
    key: Format::U,
    value: Format::U,
};

const BAD_NAME: Refusal = Refusal::Invalid(Invalid::BadName);

// By name: which it is in that order, its name, its place and its number.
const IN_ORDER: [(u32, &[u8], u32, u32); 6] = [
    (0, b"A", 5, 6),
    (1, b"a", 1, 2),
    (2, b"m", 0, 1),
    (3, b"mm", 3, 4),
    (4, b"z", 2, 3),
    (5, b"~\xff", 4, 5),
];

fn tell_in_order(rt: &impl Abort, catalog: &Catalog, tables: &[(u32, &[u8], u32, u32)]) {
    for (i, name, place, number) in tables {
        assert!(rt; catalog.find(name) == Some(*place));
        let there = catalog.table(*place).expect(rt, "a table");
        assert!(rt; there.number == *number);
        let found = catalog.table_at(*i).expect(rt, "a table");
        assert!(rt; found.name.as_bytes() == *name && found.number == *number);
    }
    assert!(rt; catalog.table_at(6).is_none() && catalog.table(6).is_none());
}

fn digit(n: u32) -> u8 {
    48 + (n % 10) as u8
}

#[test]
fn a_table_is_made_once_and_keeps_its_place(rt: HostRuntime) {
    let mut catalog = Catalog::new(rt.alloc());
    assert!(rt; catalog.len() == 0 && catalog.find(b"a").is_none());
    for (name, formats, answer) in [
        (b"m".as_slice(), TEXTS, Ok(Created::New(0))),
        (b"a", TEXTS, Ok(Created::New(1))),
        (b"z", BYTES, Ok(Created::New(2))),
        (b"mm", TEXTS, Ok(Created::New(3))),
        (b"m", TEXTS, Ok(Created::Same(0))),
        (b"m", BYTES, Err(Refusal::Exists)),
        (b"z", BYTES, Ok(Created::Same(2))),
        (b"", TEXTS, Err(BAD_NAME)),
        (b"a b", TEXTS, Err(BAD_NAME)),
        (b"a:b", TEXTS, Err(BAD_NAME)),
        (b"a\x7f", TEXTS, Err(BAD_NAME)),
        (b"~\xff", TEXTS, Ok(Created::New(4))),
        (b"A", TEXTS, Ok(Created::New(5))),
        (b"mm", TEXTS, Ok(Created::Same(3))),
    ] {
        assert!(rt; catalog.create(rt.alloc(), name, formats) == answer);
    }
    assert!(rt; catalog.len() == 6 && catalog.find(b"mmm").is_none());
    tell_in_order(&rt, &catalog, &IN_ORDER);
    assert!(rt; is_name([97; 128].as_slice()) && !is_name([97; 129].as_slice()));
}

#[test]
fn there_are_1024_tables_at_most(rt: HostRuntime) {
    let mut catalog = Catalog::new(rt.alloc());
    for i in 0..1024u32 {
        let name = [digit(i), digit(i / 10), digit(i / 100), digit(i / 1000)];
        assert!(rt; catalog.create(rt.alloc(), name.as_slice(), TEXTS) == Ok(Created::New(i)));
    }
    for (name, formats, answer) in [
        (b"new".as_slice(), TEXTS, Err(Refusal::Limit(Limit::Tables))),
        (b"3201", TEXTS, Ok(Created::Same(1023))),
        (b"3201", BYTES, Err(Refusal::Exists)),
        (b"a:", TEXTS, Err(BAD_NAME)),
    ] {
        assert!(rt; catalog.create(rt.alloc(), name, formats) == answer);
    }
    let last = catalog.table_at(1023).expect(&rt, "a table");
    assert!(rt; last.name.as_bytes() == b"9990".as_slice() && last.number == 1000);
}

fn table(rt: &impl Abort, alloc: Global, number: u32, name: &[u8; 1]) -> Table
    ensures { result ≡ record { number = number; name = name.now; formats = record { key = S; value = S } } }
{
    Table {
        number,
        name: Item::new(Vec::from_slice(alloc, name.as_slice()).expect(rt, "there is memory")),
        formats: TEXTS,
    }
}

// By name.
fn recorded(rt: &impl Abort, alloc: Global) -> Vec<Table>
    ensures { AreRecorded result.items 9 }
{
    let mut tables = Vec::with_capacity(alloc, 3).expect(rt, "there is memory");
    tables.push_reserved(table(rt, alloc, 3, b"a"));
    tables.push_reserved(table(rt, alloc, 1, b"b"));
    tables.push_reserved(table(rt, alloc, 7, b"c"));
    tables
}

#[test]
fn recorded_tables_get_places_by_number(rt: HostRuntime) {
    let alloc = rt.alloc();
    let mut catalog = Catalog::open(alloc, recorded(&rt, alloc), 9).expect(&rt, "there is memory");
    for (i, name, place, number) in [(0, b"a".as_slice(), 1, 3), (1, b"b", 0, 1), (2, b"c", 2, 7)] {
        assert!(rt; catalog.find(name) == Some(place));
        assert!(rt; catalog.table(place).expect(&rt, "a table").number == number);
        let found = catalog.table_at(i).expect(&rt, "a table");
        assert!(rt; found.name.as_bytes() == name && found.number == number);
    }
    assert!(rt; catalog.len() == 3 && catalog.next_number() == 9);
    assert!(rt; catalog.create(alloc, b"aa", BYTES) == Ok(Created::New(3)));
    assert!(rt; catalog.table(3).expect(&rt, "a table").number == 9);
    assert!(rt; catalog.table_at(1).expect(&rt, "a table").name.as_bytes() == b"aa".as_slice());
    catalog.take_back();
    assert!(rt; catalog.len() == 3 && catalog.find(b"aa").is_none());
    assert!(rt; catalog.create(alloc, b"d", TEXTS) == Ok(Created::New(3)));
    assert!(rt; catalog.table(3).expect(&rt, "a table").number == 9);
}
