// Steps of actors, one after the other.

ghost use Rattle.std.specs.Prelude.{◌≡◌, ◌≤◌, [], length, take, vec_capacity, IfOk, OnErr};
ghost use Rattle.std.specs.List.{AllByRecursion};
ghost use Rattle.engine_world.specs.Stands.{Stands};
ghost use Rattle.engine_world.specs.Worlds.{World};
ghost use Rattle.engine.specs.Runs.{MayRun, StepFits};
ghost use Rattle.engine.specs.Waits.{awaited_by};

use crate::local::Local;
use crate::step::{Actor, Step};
use call_steps::Reply;
use failure::NoMemory;
use std::alloc::Global;

/// Makes the steps one after the other, up to the first of a call that waits for a leaf, and gives
/// the reply to each. One allocation beside those of the steps. The error is want of memory; then no
/// step was made.
pub fn run_steps(alloc: Global, local: &mut Local, steps: Vec<Step>) -> Result<Vec<Reply>, NoMemory>
    requires { AllByRecursion (StepFits local.old) steps.items }
    ensures runs { (w : World) → Stands local.old w → IfOk result (λ replies. (later : World) × MayRun w (take (length replies.items) steps.items) replies.items later × Stands local.new later) }
    ensures kept { OnErr result (local.new ≡ local.old) }
{
    let mut replies = Vec::with_capacity(alloc, steps.len())?;
    make_each(alloc, local, steps, &mut replies);
    Ok(replies)
}

// Makes the steps. There is room for the reply to each.
fn make_each(alloc: Global, local: &mut Local, steps: Vec<Step>, replies: &mut Vec<Reply>)
    requires fit { AllByRecursion (StepFits local.old) steps.items }
    requires empty { replies.old.items ≡ [] }
    requires room { length steps.items ≤ vec_capacity replies.old }
    ensures { (w : World) → Stands local.old w → (later : World) × MayRun w (take (length replies.new.items) steps.items) replies.new.items later × Stands local.new later }
{
    for step in steps {
        if let Some(_) = awaited_by(local, &step) {
            return;
        }
        replies.push_reserved(local.step(alloc, step));
    }
}

// The leaf that the step's call waits for.
fn awaited_by(local: &Local, step: &Step) -> Option<u64>
    ensures { result ≡ awaited_by local.now step.now }
{
    match step {
        Step::Go(Actor::Session(session)) => local.waits(*session),
        _ => None,
    }
}
