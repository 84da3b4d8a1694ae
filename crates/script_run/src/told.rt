// What a line replies, before it is printed.
ghost use Rattle.std.specs.Prelude.{◌≡◌};
ghost use Rattle.wt_code.specs.declared.answers.Answer.TheVariants.{Done, Refused};
ghost use Rattle.engine_store.specs.Answers.{answer_of};
ghost use Rattle.script_text.specs.declared.replies.Reply.TheVariants.{Answered, More, Started};
ghost use Rattle.script_run.specs.Scripts.{plain};

use item::{Format, Formats};
use script_text::Reply;
use wt_code::{Answer, Refusal};

/// The formats in which items are told that are of no table. Those that are kept at first.
pub const PLAIN: Formats = Formats {
    key: Format::U,
    value: Format::U,
};

// A reply, and the formats in which it is told.
#[derive(Drop)]
pub(crate) struct Told {
    pub(crate) reply: Reply,
    pub(crate) formats: Formats,
}

pub(crate) fn refused(refusal: Refusal) -> Told
    ensures reply { result.reply ≡ Answered (Refused refusal) }
    ensures formats { result.formats ≡ plain }
{
    Told {
        reply: Reply::Answered(Answer::Refused(refusal)),
        formats: PLAIN,
    }
}

pub(crate) fn done() -> Told
    ensures reply { result.reply ≡ Answered Done }
    ensures formats { result.formats ≡ plain }
{
    Told {
        reply: Reply::Answered(Answer::Done),
        formats: PLAIN,
    }
}

// What is told of the end of a call that has nothing to tell.
pub(crate) fn told_of(ended: Result<(), Refusal>) -> Told
    ensures reply { result.reply ≡ Answered (answer_of ended) }
    ensures formats { result.formats ≡ plain }
{
    match ended {
        Ok(()) => done(),
        Err(refusal) => refused(refusal),
    }
}

// A call has begun.
pub(crate) fn started() -> Told
    ensures reply { result.reply ≡ Started }
    ensures formats { result.formats ≡ plain }
{
    Told {
        reply: Reply::Started,
        formats: PLAIN,
    }
}

// It goes on behind a step.
pub(crate) fn more() -> Told
    ensures reply { result.reply ≡ More }
    ensures formats { result.formats ≡ plain }
{
    Told {
        reply: Reply::More,
        formats: PLAIN,
    }
}
