//! Judges the engine by the model: random lines of a script, whole calls of five sessions and of the
//! system, go to the engine and to `kv_plain`, and both must answer the same. Now and then, and at the
//! end, one more session reads all rows on both. `script_judge 7 4000` makes 4,000 calls by the draws
//! of seed 7; without words it makes those of a seed of its own.
//!
//! Tells how many calls came to which outcome, so that a run in which little happens is seen. At the
//! first difference it tells the seed, the line and both answers, and ends with status 1.
#![tactic(auto)]

mod chance;
mod hints;
mod lines;
mod outcomes;
mod pair;
mod trial;

use crate::outcomes::Outcomes;
use crate::trial::{Stop, Trial, make_trial};
use std::alloc::AllocError;
use std::{env, io};

// What is judged where no words say it.
const SEED: u64 = 1;

const CALLS: u32 = 3_000;

// The trial that the words name.
fn trial_to_make(rt: &HostRuntime) -> io::Result<Trial> {
    let mut args = env::args(rt)?;
    let _program = args.next();
    let (Some(seed), Some(calls)) = (args.next(), args.next()) else {
        return Ok(Trial {
            seed: SEED,
            calls: CALLS,
        });
    };
    Ok(Trial {
        seed: seed.parse().unwrap_or(SEED),
        calls: calls.parse().unwrap_or(CALLS),
    })
}

fn tell(rt: &HostRuntime, trial: Trial, outcomes: &Outcomes) -> anyhow::Result<()> {
    let Trial { seed, calls } = trial;
    let counts = outcomes.text(rt.alloc())?;
    println!(rt; "seed {seed}: {calls} calls answered alike: {counts}")?;
    Ok(())
}

fn tell_stop(rt: &HostRuntime, trial: Trial, stop: Stop) -> anyhow::Result<()> {
    let seed = trial.seed;
    match stop {
        Stop::NoMemory => Err(anyhow::Error::from(AllocError)),
        Stop::NoCall(line) => Err(anyhow::anyhow!("seed {seed}: no call: {line}")),
        Stop::Differs(difference) => {
            println!(rt;
                "seed {seed}, call {}: {}",
                difference.call, difference.line
            )?;
            println!(rt; "engine: {}", difference.engine)?;
            println!(rt; "model: {}", difference.model)?;
            Err(anyhow::anyhow!("the engine and the model differ"))
        }
    }
}

fn main(rt: HostRuntime) -> anyhow::Result<()> {
    let trial = trial_to_make(&rt)?;
    match make_trial(rt.alloc(), trial) {
        Ok(outcomes) => tell(&rt, trial, &outcomes),
        Err(stop) => tell_stop(&rt, trial, stop),
    }
}
