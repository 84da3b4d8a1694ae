// What an event of a call answers.

ghost use Rattle.std.specs.Prelude.{IfOk};
ghost use Rattle.kv_model.specs.Told.{Tells};
ghost use Rattle.kv_plain.specs.Outcome.{outcome_in};

use failure::NoMemory;
use item::Item;
use wt_code::{Answer, Refusal};

/// The answer at an event of a call.
#[derive(Drop)]
pub(crate) enum Outcome {
    Done,
    Gives(Item),
    GivesRow(Item, Item),
    /// A leaf is left after a step of a checkpoint.
    Left,
    /// None is left.
    End,
    /// A commit or rollback that was decided before goes on.
    Resumes,
    Refused(Refusal),
}

/// The answer that tells the outcome; none for a call that goes on.
pub(crate) fn told(outcome: Outcome) -> Result<Answer<Item>, NoMemory>
    ensures { IfOk result (Tells (outcome_in outcome)) }
{
    match outcome {
        Outcome::Done => Ok(Answer::Done),
        Outcome::Gives(v) => Ok(Answer::Value(v)),
        Outcome::GivesRow(key, v) => Ok(Answer::Row(key, v)),
        Outcome::Left => Ok(Answer::Left),
        Outcome::End => Ok(Answer::End),
        Outcome::Resumes => Err(NoMemory),
        Outcome::Refused(refusal) => Ok(Answer::Refused(refusal)),
    }
}
