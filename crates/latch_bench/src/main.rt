//! What latches and pins cost, and what two threads do under them: two seats raise two frames, and
//! two keepers give their own frame other pages while each pins and reads the other's, a million
//! turns each. With words it makes so many calls on one thread (`latch 1000`, `pin 1000`): what a
//! call costs is the difference of two runs.
#![tactic(auto)]

use latch_table::{NoMemory, Pieces};
use pool_trials::{
    Counts, climb_both, close_two, glance, keep_both, open_kept, open_rising, raise,
};
use std::alloc::{AllocError, Global};
use std::env;
use std::sync::Wait;
use std::thread::Threads;

// How many turns each thread makes.
const TURNS: u32 = 1_000_000;

fn no_memory(_: NoMemory) -> AllocError {
    AllocError
}

// Two threads raise two frames.
fn climb<R: Threads + Wait + Sync>(rt: &R, alloc: Global) -> Result<Pieces<u64, u64>, NoMemory> {
    let (table, one, other) = open_rising(alloc, 0, 0, 0)?;
    let (one, other) = climb_both(rt, &table, one, other, TURNS);
    close_two(alloc, table, one, other)
}

// Two keepers give their frames other pages, and read each other's.
fn keep<R: Threads + Sync>(rt: &R, alloc: Global) -> Result<(Counts, Counts), NoMemory> {
    let (pool, one, other) = open_kept(alloc)?;
    Ok(keep_both(rt, &pool, one, other, TURNS))
}

// So many latches and unlatches of a frame that nobody else wants, with a look at it.
fn latches<R: Wait>(rt: &R, alloc: Global, rounds: u32) -> Result<(), NoMemory> {
    let (table, mut one, _other) = open_rising(alloc, 0, 0, 0)?;
    for _ in 0..rounds {
        raise(rt, &table, &mut one, 0, 0);
    }
    Ok(())
}

// So many pins of a frame that is in, each given up again.
fn pins(alloc: Global, rounds: u32) -> Result<(), NoMemory> {
    let (pool, mut one, _other) = open_kept(alloc)?;
    for _ in 0..rounds {
        glance(&pool, &mut one, 1, 7);
    }
    Ok(())
}

fn main(rt: HostRuntime) -> anyhow::Result<()> {
    let mut args = env::args(&rt)?;
    let _program = args.next();
    if let (Some(kind), Some(rounds)) = (args.next(), args.next()) {
        let rounds = rounds.parse().unwrap_or(0);
        if kind.as_str() == "latch" {
            latches(&rt, rt.alloc(), rounds).map_err(no_memory)?;
        } else {
            pins(rt.alloc(), rounds).map_err(no_memory)?;
        }
        return Ok(());
    }
    let pieces = climb(&rt, rt.alloc()).map_err(no_memory)?;
    for frame in &pieces.frames {
        println!(rt; "a frame that rose to {frame}")?;
    }
    let (first, second) = keep(&rt, rt.alloc()).map_err(no_memory)?;
    for counts in [first, second] {
        eprintln!(rt;
            "renewed {}, read {}, not in {}",
            counts.renewed, counts.read, counts.again
        )?;
        println!(rt; "pages that changed under a pin: {}", counts.wrong)?;
    }
    Ok(())
}
