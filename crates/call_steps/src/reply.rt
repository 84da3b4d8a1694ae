// What a step answers.

use item::Item;
use wt_code::Answer;

/// What a step of an actor answers.
#[derive(Drop, PartialEq, Eq)]
pub enum Reply {
    /// The call is started.
    Started,
    /// The call has events left.
    More,
    /// The call has ended with this answer; or the step was refused.
    Answer(Answer<Item>),
}
