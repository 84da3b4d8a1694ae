//! What the calls of a leaf's chains cost: it installs an update of each of so many keys, in order
//! or at random, and then finds keys or goes from one to the next, as often as its words say
//! (`sorted 1000 0`, `random 1000 0`, `find 1000 500`, `next 1000 500`; without words a few of
//! each). What a call costs is the difference of two runs.
#![tactic(auto)]

use failure::NoMemory;
use item::{Change, Item};
use leaf_chains::LeafChains;
use stamp::{Name, Version, Window};
use std::alloc::{AllocError, Global};
use std::{env, io};
use update_chain::Update;

/// How the keys come, and what is done then.
#[derive(Clone, Copy)]
struct Work {
    keys: u32,
    is_random: bool,
    finds: u32,
    steps: u32,
}

// The next of numbers that look like chance.
fn draw(seed: &mut u64) -> u64 {
    *seed = seed
        .wrapping_mul(6_364_136_223_846_793_005)
        .wrapping_add(1_442_695_040_888_963_407);
    *seed >> 33
}

// The n-th key: 16 bytes, of which the first are those of all.
fn key_of(n: u64) -> [u8; 16] {
    let mut key = *b"key0000000000000";
    let mut rest = n;
    for i in 0..13usize {
        key[15 - i] = b'0' + (rest % 10) as u8;
        rest /= 10;
    }
    key
}

// An update with a value of 100 bytes.
fn update(alloc: Global) -> Result<Update, NoMemory> {
    Ok(Update {
        version: Version {
            window: Window {
                name: Name { run: 1, id: 1 },
                commit: 1,
                durable: 1,
            },
            change: Change::Put(Item::new(Vec::from_slice(alloc, &[7u8; 100])?)),
        },
        prepared: 0,
    })
}

#[inline(never)]
fn install(alloc: Global, chains: &mut LeafChains, key: &[u8]) -> Result<(), NoMemory> {
    let update = update(alloc)?;
    let _slot = chains.install(alloc, key, update)?;
    Ok(())
}

fn fill(alloc: Global, keys: u32, is_random: bool) -> Result<LeafChains, NoMemory> {
    let mut chains = LeafChains::new(alloc);
    let mut seed = 1u64;
    for n in 0..keys {
        let number = if is_random {
            draw(&mut seed) % 10_000_000_000
        } else {
            n as u64
        };
        install(alloc, &mut chains, &key_of(number))?;
    }
    Ok(chains)
}

// How many of so many keys at random are found.
#[inline(never)]
fn finds(chains: &LeafChains, keys: u32, rounds: u32) -> u32 {
    let mut seed = 99u64;
    let mut found = 0u32;
    for _ in 0..rounds {
        let key = key_of(draw(&mut seed) % (keys as u64).max(1));
        if chains.find(&key).is_some() {
            found = found.wrapping_add(1);
        }
    }
    found
}

// How many of so many keys at random have one above.
#[inline(never)]
fn steps(chains: &LeafChains, keys: u32, rounds: u32) -> u32 {
    let mut seed = 99u64;
    let mut found = 0u32;
    for _ in 0..rounds {
        let key = key_of(draw(&mut seed) % (keys as u64).max(1));
        if chains.next_above(Some(&key)).is_some() {
            found = found.wrapping_add(1);
        }
    }
    found
}

fn work_of(kind: &str, keys: u32, rounds: u32) -> Work {
    let only_keys = Work {
        keys,
        is_random: kind == "random",
        finds: 0,
        steps: 0,
    };
    match kind {
        "find" => Work {
            finds: rounds,
            ..only_keys
        },
        "next" => Work {
            steps: rounds,
            ..only_keys
        },
        _ => only_keys,
    }
}

// The work that the words name; without words a little of each.
fn work_to_do(rt: &HostRuntime) -> io::Result<Work> {
    let mut args = env::args(rt)?;
    let _program = args.next();
    let few = Work {
        keys: 1000,
        is_random: false,
        finds: 100,
        steps: 100,
    };
    let (Some(kind), Some(keys), Some(rounds)) = (args.next(), args.next(), args.next()) else {
        return Ok(few);
    };
    let keys = keys.parse().unwrap_or(0);
    let rounds = rounds.parse().unwrap_or(0);
    Ok(work_of(&kind, keys, rounds))
}

fn no_memory(_: NoMemory) -> AllocError {
    AllocError
}

fn main(rt: HostRuntime) -> anyhow::Result<()> {
    let work = work_to_do(&rt)?;
    let chains = fill(rt.alloc(), work.keys, work.is_random).map_err(no_memory)?;
    let found = finds(&chains, work.keys, work.finds);
    let next = steps(&chains, work.keys, work.steps);
    let keys = chains.len();
    println!(rt; "{keys} keys, {found} found, {next} with one above")?;
    Ok(())
}
