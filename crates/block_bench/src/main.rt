//! What the calls of the blocks cost at size: it writes so many blocks of one unit, lets go of
//! every second one, and then writes and frees a block, or takes a checkpoint of one rewritten
//! block, as often as its words say (`block_bench write 1000 10`, `block_bench sweep 1000 10`;
//! without words a few of each). What a call costs is the difference of two runs.
#![tactic(auto)]

mod nowhere;

use block_mgr::{Addr, Blocks};
use nowhere::Nowhere;
use std::alloc::{AllocError, Global};
use std::{env, io};

/// What is done.
#[derive(Clone, Copy)]
struct Work {
    /// How many blocks are written first.
    blocks: u32,
    /// How often a block is written and freed.
    writes: u32,
    /// How often a checkpoint is taken.
    sweeps: u32,
}

// Writes a block of one unit.
fn write(blocks: &mut Blocks, disk: &mut Nowhere) -> Option<Addr> {
    let block = [0u8; 4096];
    blocks.write_block(disk, &block).ok()
}

// Lets go of a block that the live tree has.
fn free(blocks: &mut Blocks, addr: Addr) {
    if blocks.is_live(addr) {
        blocks.free(addr);
    }
}

// Writes so many blocks, and then lets go of every second one. How many those are.
fn fill(
    alloc: Global,
    blocks: &mut Blocks,
    disk: &mut Nowhere,
    count: u32,
) -> Result<u32, AllocError> {
    let mut addrs = Vec::new(alloc);
    for _ in 0..count {
        if let Some(addr) = write(blocks, disk) {
            addrs.push(addr)?;
        }
    }
    let mut freed = 0u32;
    for addr in addrs.iter().step_by(2) {
        freed = freed.wrapping_add(1);
        free(blocks, *addr);
    }
    Ok(freed)
}

// A checkpoint that captures one new block, which is then let go.
fn checkpoint(blocks: &mut Blocks, disk: &mut Nowhere) -> bool {
    if blocks.is_held() {
        return false;
    }
    blocks.ckpt_hold();
    let Some(addr) = write(blocks, disk) else {
        return false;
    };
    if !blocks.is_live(addr) || !blocks.is_held() {
        return false;
    }
    blocks.capture(addr);
    if blocks.is_live(addr) {
        blocks.free(addr);
    }
    if !blocks.is_held() {
        return false;
    }
    blocks.ckpt_done();
    true
}

fn work_of(kind: &str, count: u32, rounds: u32) -> Work {
    match kind {
        "sweep" => Work {
            blocks: count,
            writes: 0,
            sweeps: rounds,
        },
        _ => Work {
            blocks: count,
            writes: rounds,
            sweeps: 0,
        },
    }
}

// The work that the words name; without words a few of each.
fn work_to_do(rt: &HostRuntime) -> io::Result<Work> {
    let mut args = env::args(rt)?;
    let _program = args.next();
    let few = Work {
        blocks: 10,
        writes: 3,
        sweeps: 3,
    };
    let (Some(kind), Some(count), Some(rounds)) = (args.next(), args.next(), args.next()) else {
        return Ok(few);
    };
    let count = count.parse().unwrap_or(0);
    Ok(work_of(&kind, count, rounds.parse().unwrap_or(0)))
}

fn main(rt: HostRuntime) -> anyhow::Result<()> {
    let work = work_to_do(&rt)?;
    let mut disk = Nowhere;
    let mut blocks = Blocks::new(rt.alloc());
    let freed = fill(rt.alloc(), &mut blocks, &mut disk, work.blocks)?;
    let mut written = 0u32;
    for _ in 0..work.writes {
        if let Some(addr) = write(&mut blocks, &mut disk) {
            written = written.wrapping_add(1);
            free(&mut blocks, addr);
        }
    }
    let mut taken = 0u32;
    for _ in 0..work.sweeps {
        if checkpoint(&mut blocks, &mut disk) {
            taken = taken.wrapping_add(1);
        }
    }
    let end = blocks.end();
    println!(rt; "{freed} freed, {written} written, {taken} checkpoints, end {end}")?;
    Ok(())
}
