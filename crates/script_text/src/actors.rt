// The first word of a line: an actor, and a mark.
ghost use Rattle.std.specs.Prelude.{◌≡◌, ◌≤◌, length, take, drop};
ghost use Rattle.script_text.specs.Actors.{before_mark, from_mark, mark_of, actor_of, first_of};

use crate::line::Actor;
use crate::numbers::number;
use crate::words::after;

/// What stands behind an actor.
#[derive(Clone, Copy)]
pub(crate) enum Mark {
    /// Nothing: the whole call.
    Whole,
    /// `!`: the call is started.
    Started,
    /// `.`: one step.
    One,
    /// `..`: the steps that are left.
    Rest,
}

/// An actor, and what stands behind it.
#[derive(Clone, Copy)]
pub(crate) struct First {
    pub(crate) actor: Actor,
    pub(crate) mark: Mark,
}

// How many bytes stand before the first mark.
fn name_len(word: &[u8]) -> usize
    ensures within { result ≤ length word.now }
    ensures name { take result word.now ≡ before_mark word.now }
    ensures mark { drop result word.now ≡ from_mark word.now }
{
    for (i, b) in word.iter().enumerate() {
        if *b == b'!' || *b == b'.' {
            return i;
        }
    }
    word.len()
}

fn mark_at(text: &[u8]) -> Option<Mark>
    ensures { result ≡ mark_of text.now }
{
    if text.is_empty() {
        return Some(Mark::Whole);
    }
    if text == b"!".as_slice() {
        return Some(Mark::Started);
    }
    if text == b".".as_slice() {
        return Some(Mark::One);
    }
    if text == b"..".as_slice() {
        return Some(Mark::Rest);
    }
    None
}

fn actor(name: &[u8]) -> Option<Actor>
    ensures { result ≡ actor_of name.now }
{
    if name == b"sys".as_slice() {
        return Some(Actor::System(0));
    }
    match after(name, b"sys") {
        Some(digits) => Some(Actor::System(number(digits, 2, 4)? - 1)),
        None => Some(Actor::Session(number(after(name, b"s")?, 1, 999)? - 1)),
    }
}

// The actor and the mark of a line's first word.
pub(crate) fn first_word(word: &[u8]) -> Option<First>
    ensures { result ≡ first_of word.now }
{
    let (name, behind) = word.split_at(name_len(word));
    let actor = actor(name)?;
    let mark = mark_at(behind)?;
    Some(First { actor, mark })
}
