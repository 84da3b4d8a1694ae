//! What the calls of a leaf cost: it writes a leaf of 211 rows, and then finds each of its keys,
//! decodes it or sums its block, as often as its words say (`find 10`, `decode 10`, `copy 10`,
//! `sum 10`; without words each once). What a call costs is the difference of two runs.
#![tactic(auto)]

ghost use Rattle.std.specs.Prelude.{◌≤◌, length};

use block_sum::sum;
use failure::NoMemory;
use row_page::{Cell, CellChange, Leaf, LeafWriter};
use stamp::{Name, Window};
use std::alloc::{AllocError, Global};
use std::{env, io};

/// As many rows as a leaf has room for.
const ROWS: u32 = 211;

/// The most bytes of a leaf's image.
const IMAGE_MAX: usize = 32_768;

/// What is done, and how often.
#[derive(Clone, Copy)]
struct Work {
    /// Rounds of finds, each of all keys.
    finds: u32,
    /// How often the block is copied and decoded.
    decodes: u32,
    /// How often it is only copied.
    copies: u32,
    /// How often the block is summed.
    sums: u32,
}

// The n-th key: 16 bytes, of which the first 10 are those of all.
fn key_of(n: u32) -> [u8; 16] {
    let mut key = *b"a table's 000000";
    let mut rest = n;
    for i in 0..6 {
        key[15 - i] = b'0' + (rest % 10) as u8;
        rest /= 10;
    }
    key
}

// Writes a row, where there is room for it.
fn push_row<'a>(writer: &mut LeafWriter, key: &'a [u8], value: &'a [u8]) -> bool
    requires key { length key.now ≤ 1024 }
    requires value { length value.now ≤ 16384 }
{
    let cell = Cell {
        key,
        window: Window {
            name: Name { run: 1, id: 1 },
            commit: 1,
            durable: 1,
        },
        change: CellChange::Put(value),
    };
    writer.push(&cell)
}

// A leaf's block with as many rows as it has room for.
fn block_of(alloc: Global) -> Result<Vec<u8>, NoMemory> {
    let mut writer = LeafWriter::new(alloc, IMAGE_MAX)?;
    let value = [7u8; 100];
    for n in 0..ROWS {
        let key = key_of(n);
        let _has_room = push_row(&mut writer, &key, &value);
    }
    Ok(writer.finish())
}

// How many of the keys are found, in so many rounds, modulo 2^32.
fn finds(leaf: &Leaf, rounds: u32) -> u32 {
    let mut found = 0u32;
    for _ in 0..rounds {
        for n in 0..ROWS {
            if leaf.find(&key_of(n)).is_ok() {
                found = found.wrapping_add(1);
            }
        }
    }
    found
}

// How many rows are decoded, in so many rounds, modulo 2^32.
fn decodes(alloc: Global, block: &[u8], rounds: u32) -> Result<u32, NoMemory> {
    let mut rows = 0u32;
    for _ in 0..rounds {
        let copy = Vec::from_slice(alloc, block)?;
        if let Some(leaf) = Leaf::of_block(alloc, copy)? {
            rows = rows.wrapping_add((leaf.len() % 0x1_0000) as u32);
        }
    }
    Ok(rows)
}

// The copies that `decodes` makes.
fn copies(alloc: Global, block: &[u8], rounds: u32) -> Result<u32, NoMemory> {
    let mut bytes = 0u32;
    for _ in 0..rounds {
        let copy = Vec::from_slice(alloc, block)?;
        bytes = bytes.wrapping_add((copy.len() % 0x1_0000) as u32);
    }
    Ok(bytes)
}

// The sums of the block, added up modulo 2^32.
fn sums(block: &[u8], rounds: u32) -> u32 {
    let mut total = 0u32;
    for _ in 0..rounds {
        if block.len() <= 32_768 {
            total = total.wrapping_add(sum(block));
        }
    }
    total
}

fn work_of(kind: &str, rounds: u32) -> Work {
    let nothing = Work {
        finds: 0,
        decodes: 0,
        copies: 0,
        sums: 0,
    };
    match kind {
        "find" => Work {
            finds: rounds,
            ..nothing
        },
        "decode" => Work {
            decodes: rounds,
            ..nothing
        },
        "copy" => Work {
            copies: rounds,
            ..nothing
        },
        "sum" => Work {
            sums: rounds,
            ..nothing
        },
        _ => nothing,
    }
}

// The work that the words name; without words each once.
fn work_to_do(rt: &HostRuntime) -> io::Result<Work> {
    let mut args = env::args(rt)?;
    let _program = args.next();
    let once = Work {
        finds: 1,
        decodes: 1,
        copies: 1,
        sums: 1,
    };
    let (Some(kind), Some(rounds)) = (args.next(), args.next()) else {
        return Ok(once);
    };
    Ok(work_of(&kind, rounds.parse().unwrap_or(0)))
}

fn no_memory(_: NoMemory) -> AllocError {
    AllocError
}

fn main(rt: HostRuntime) -> anyhow::Result<()> {
    let alloc = rt.alloc();
    let work = work_to_do(&rt)?;
    let block = block_of(alloc).map_err(no_memory)?;
    let decoded = decodes(alloc, &block, work.decodes).map_err(no_memory)?;
    let copied = copies(alloc, &block, work.copies).map_err(no_memory)?;
    let summed = sums(&block, work.sums);
    let Some(leaf) = Leaf::of_block(alloc, block).map_err(no_memory)? else {
        println!(rt; "no leaf")?;
        return Ok(());
    };
    let found = finds(&leaf, work.finds);
    println!(rt; "{found} found, {decoded} decoded, {copied} copied, sum {summed}")?;
    Ok(())
}
