// Two tables whose order by name is not that by number: their leaves as they came, and a get of a key
// whose leaf comes when the get waits for it.
ghost use Rattle.std.specs.Prelude.{◌≡◌, [], IfOk};
ghost use Rattle.item.specs.declared.Format.TheVariants.{U};
ghost use Rattle.stored.specs.TableTree.{Climbs};

use catalog::Table;
use device_layout::{Addr, Link};
use engine::{Called, Local};
use engine_start::{NoMemory, TableEntries, start};
use inner_page::Entry;
use item::{Format, Formats, Item};
use leaf_frame::LeafFrame;
use leaf_rows::Marks;
use row_page::{Cell, CellChange, Leaf, LeafWriter};
use stamp::{Name, Window};
use std::alloc::Global;
use tree_dir::Leaf as DirLeaf;
use wt_calls::SessionCall;
use wt_code::Answer;

// The rows of the leaf are of this transaction.
const WRITER: Name = Name { run: 3, id: 1 };

fn item(alloc: Global, bytes: &[u8]) -> Result<Item, NoMemory>
    ensures { IfOk result (λ i. i ≡ bytes.now) }
{
    Ok(Item::new(Vec::from_slice(alloc, bytes)?))
}

// A leaf from this key on, with its block at this place.
fn entry(alloc: Global, key: &[u8], offset: u64) -> Result<Entry, NoMemory>
    ensures { IfOk result (λ e. e.key ≡ key.now) }
{
    let link = Link {
        addr: Addr {
            offset,
            size: 4_096,
            sum: 0,
        },
        greatest: WRITER,
        durable: 0,
    };
    Ok(Entry {
        key: item(alloc, key)?,
        link,
    })
}

// Leaves from the empty key and from m on.
fn two(alloc: Global) -> Result<Vec<Entry>, NoMemory>
    ensures { IfOk result (λ v. Climbs v.items) }
{
    let first = entry(alloc, b"", 8_192)?;
    let second = entry(alloc, b"m", 12_288)?;
    let mut entries = Vec::with_capacity(alloc, 2)?;
    entries.push_reserved(first);
    entries.push_reserved(second);
    Ok(entries)
}

fn one(alloc: Global) -> Result<Vec<Entry>, NoMemory>
    ensures { IfOk result (λ v. Climbs v.items) }
{
    let first = entry(alloc, b"", 16_384)?;
    let mut entries = Vec::with_capacity(alloc, 1)?;
    entries.push_reserved(first);
    Ok(entries)
}

fn table(number: u32, name: Item, entries: Vec<Entry>) -> TableEntries
    ensures { result ≡ record { table = record { number = number; name = name; formats = record { key = U; value = U } }; entries = entries } }
{
    let formats = Formats {
        key: Format::U,
        value: Format::U,
    };
    TableEntries {
        table: Table {
            number,
            name,
            formats,
        },
        entries,
    }
}

fn engine(alloc: Global) -> Result<Local, NoMemory> {
    let ape = table(2, item(alloc, b"ape")?, two(alloc)?);
    let bee = table(1, item(alloc, b"bee")?, one(alloc)?);
    let mut tables = Vec::with_capacity(alloc, 2)?;
    tables.push_reserved(ape);
    tables.push_reserved(bee);
    let marks = Marks {
        run: 4,
        oldest: 0,
        stable: 0,
        min: 9,
        max: 9,
    };
    start(alloc, marks, 3, tables)
}

// Where the block of a leaf stands.
fn block_of(leaf: Option<&DirLeaf>) -> Option<u64> {
    let leaf = leaf?;
    Some(leaf.entry.link.addr.offset)
}

// Where the blocks of the first three leaves of a table stand.
fn blocks(engine: &Local, table: u32) -> [Option<u64>; 3] {
    let mut leaves = engine.leaves().leaves_of(table);
    [
        block_of(leaves.next_leaf()),
        block_of(leaves.next_leaf()),
        block_of(leaves.next_leaf()),
    ]
}

// A leaf of one row, the key n with the value 1.
fn page(alloc: Global) -> Result<LeafFrame, NoMemory>
    ensures { IfOk result (λ leaf. leaf.chains ≡ []) }
{
    let mut writer = LeafWriter::new(alloc, 4_096)?;
    let cell = Cell {
        key: b"n".as_slice(),
        window: Window {
            name: WRITER,
            commit: 0,
            durable: 0,
        },
        change: CellChange::Put(b"1".as_slice()),
    };
    let _written = writer.push(&cell);
    match Leaf::of_block(alloc, writer.finish())? {
        None => Err(NoMemory),
        Some(leaf) => Ok(LeafFrame::of_page(alloc, leaf)),
    }
}

fn begins(alloc: Global, engine: &mut Local) -> bool {
    if engine.sessions() == 0 {
        return false;
    }
    engine.call(alloc, 0, SessionCall::Begin(None)) == Called::Ended(Answer::Done)
}

// What a get answers that waits for the leaf of this block, once the leaf has come; none where it
// does not wait for that.
#[tactic(auto, using(crate::proofs::Bases::bare_fits))]
fn get(
    alloc: Global,
    engine: &mut Local,
    table: &[u8],
    key: &[u8],
    block: u64,
) -> Result<Option<Answer<Item>>, NoMemory> {
    if engine.sessions() == 0 {
        return Ok(None);
    }
    let Called::Waits(leaf) = engine.get(alloc, 0, table, key) else {
        return Ok(None);
    };
    if block_of(engine.leaves().leaf(leaf)) != Some(block) {
        return Ok(None);
    }
    engine.fill(leaf, page(alloc)?)?;
    match engine.resume(alloc, 0) {
        Called::Ended(answer) => Ok(Some(answer)),
        Called::Waits(_) => Ok(None),
    }
}

#[test]
fn a_leaf_comes_when_a_get_waits_for_it(rt: HostRuntime) -> Result<(), NoMemory> {
    let alloc = rt.alloc();
    let mut engine = engine(alloc)?;
    assert!(rt; blocks(&engine, 1) == [Some(16_384), None, None]);
    assert!(rt; blocks(&engine, 2) == [Some(8_192), Some(12_288), None]);
    assert!(rt; engine.open_session(alloc).is_ok());
    assert!(rt; begins(alloc, &mut engine));
    let read = get(alloc, &mut engine, b"ape", b"n", 12_288)?;
    assert!(rt; read == Some(Answer::Value(item(alloc, b"1")?)));
    Ok(())
}
