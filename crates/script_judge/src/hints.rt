// What a session is to do next, by what it was answered last.

use item::Item;
use wt_code::{Answer, Invalid, Refusal};

/// The call that is likely to be of use to a session.
#[derive(Clone, Copy, PartialEq, Eq)]
pub(crate) enum Hint {
    /// It has no transaction.
    Begin,
    /// Its transaction failed.
    RollBack,
    /// Its transaction is prepared.
    Resolve,
    Any,
}

/// What an answer tells of the session's state.
pub(crate) fn hint_of(answer: &Answer<Item>) -> Hint {
    match answer {
        Answer::Refused(Refusal::Rollback { .. }) => Hint::RollBack,
        Answer::Refused(Refusal::Invalid(reason)) => hint_of_reason(*reason),
        _ => Hint::Any,
    }
}

fn hint_of_reason(reason: Invalid) -> Hint {
    match reason {
        Invalid::NoTxn => Hint::Begin,
        Invalid::FailedTxn => Hint::RollBack,
        Invalid::Prepared => Hint::Resolve,
        _ => Hint::Any,
    }
}
