// A line's words, read.
ghost use Rattle.std.specs.Prelude.{◌≡◌, ◌↔◌, IfOk, Some, option_map};
ghost use Rattle.script_text.specs.Grammar.{IsLine};
ghost use Rattle.script_text.specs.declared.line.Line.{Line};
ghost use Rattle.script_text.specs.Words.{words_behind, words_of};
ghost use Rattle.script_text.specs.Lines.{call_of, whole_of, started_of, steps_of, spoken_of, line_in, line_of};

use crate::actors::{First, Mark, first_word};
use crate::line::{Actor, Line};
use crate::session_calls::session_call;
use crate::system_calls::{control, system_call};
use crate::words::{cut, is_parted};
use failure::NoMemory;
use std::alloc::Global;
use wt_calls::Call;

/// The longest line, in bytes without its newline.
pub const LINE_MAX: usize = 65_536;

fn call(
    alloc: Global,
    actor: Actor,
    verb: &[u8],
    arguments: Option<&[u8]>,
) -> Result<Option<Call>, NoMemory>
    ensures { IfOk result (λ r. r ≡ call_of actor verb.now (words_behind (option_map (λ t. t.now) arguments.entry))) }
{
    match actor {
        Actor::Session(number) => match session_call(alloc, verb, arguments)? {
            Some(call) => Ok(Some(Call::Session(number, call))),
            None => Ok(None),
        },
        Actor::System(number) => match system_call(alloc, verb, arguments)? {
            Some(call) => Ok(Some(Call::System(number, call))),
            None => Ok(None),
        },
    }
}

fn whole(
    alloc: Global,
    actor: Actor,
    verb: &[u8],
    arguments: Option<&[u8]>,
) -> Result<Option<Line>, NoMemory>
    ensures { IfOk result (λ r. r ≡ whole_of actor verb.now (words_behind (option_map (λ t. t.now) arguments.entry))) }
{
    if let Some(control) = control(actor, verb, arguments) {
        return Ok(Some(Line::Control(control)));
    }
    match call(alloc, actor, verb, arguments)? {
        Some(call) => Ok(Some(Line::Whole(call))),
        None => Ok(None),
    }
}

fn started(
    alloc: Global,
    actor: Actor,
    verb: &[u8],
    arguments: Option<&[u8]>,
) -> Result<Option<Line>, NoMemory>
    ensures { IfOk result (λ r. r ≡ started_of actor verb.now (words_behind (option_map (λ t. t.now) arguments.entry))) }
{
    match call(alloc, actor, verb, arguments)? {
        Some(call) => Ok(Some(Line::Start(call))),
        None => Ok(None),
    }
}

fn steps(first: First) -> Option<Line>
    ensures { result ≡ steps_of first }
{
    match first.mark {
        Mark::One => Some(Line::Step(first.actor)),
        Mark::Rest => Some(Line::Finish(first.actor)),
        Mark::Whole | Mark::Started => None,
    }
}

fn spoken(
    alloc: Global,
    first: First,
    verb: &[u8],
    arguments: Option<&[u8]>,
) -> Result<Option<Line>, NoMemory>
    ensures { IfOk result (λ r. r ≡ spoken_of first verb.now (words_behind (option_map (λ t. t.now) arguments.entry))) }
{
    match first.mark {
        Mark::Whole => whole(alloc, first.actor, verb, arguments),
        Mark::Started => started(alloc, first.actor, verb, arguments),
        Mark::One | Mark::Rest => Ok(None),
    }
}

// What the words of a line spell.
fn line_of(alloc: Global, line: &[u8]) -> Result<Option<Line>, NoMemory>
    ensures { IfOk result (λ r. r ≡ line_of (words_of line.now)) }
{
    let (word, behind) = cut(line);
    let Some(first) = first_word(word) else {
        return Ok(None);
    };
    match behind {
        None => Ok(steps(first)),
        Some(text) => {
            let (verb, arguments) = cut(text);
            spoken(alloc, first, verb, arguments)
        }
    }
}

fn read_line(alloc: Global, line: &[u8]) -> Result<Option<Line>, NoMemory>
    ensures { IfOk result (λ r. r ≡ line_in line.now) }
{
    if line.len() > LINE_MAX || !is_parted(line) {
        return Ok(None);
    }
    line_of(alloc, line)
}

/// What a line asks for, of its bytes without the newline: some request exactly where the bytes
/// spell it, and none exactly where they spell nothing, so that the line is refused as a text.
/// `O(bytes)`, and one allocation for each name and each item.
///
/// # Errors
///
/// Memory is wanted.
pub fn parse_line(alloc: Global, line: &[u8]) -> Result<Option<Line>, NoMemory>
    ensures { IfOk result (λ r. (asked : Line) → (r ≡ Some asked) ↔ IsLine line.now asked) }
{
    read_line(alloc, line)
}
