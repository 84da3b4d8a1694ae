// The calls of the system.
ghost use Rattle.std.specs.Prelude.{◌≡◌, IfOk, option_map};
ghost use Rattle.script_text.specs.Words.{words_behind};
ghost use Rattle.script_text.specs.SystemCalls.{system_verb_of, system_words, system_call_of, create_of, set_of, evict_of, alone_of, control_verb_of, control_words, control_of, control_alone_of, frames_of};

use crate::items::{Keyed, format, keyed_in, name};
use crate::line::{Actor, Control};
use crate::numbers::{number, stamps_in};
use crate::words::{none, one, three};
use failure::NoMemory;
use item::Formats;
use std::alloc::Global;
use wt_calls::SystemCall;

/// The word that a call of the system begins with.
#[derive(Clone, Copy)]
pub(crate) enum SystemVerb {
    Create,
    Set,
    StartCheckpoint,
    StepCheckpoint,
    FinishCheckpoint,
    RollbackToStable,
    Evict,
}

/// The word that something asked of the whole machine begins with.
#[derive(Clone, Copy)]
pub(crate) enum ControlVerb {
    Checkpoint,
    Close,
    Crash,
    Frames,
}

fn system_verb(word: &[u8]) -> Option<SystemVerb>
    ensures { result ≡ system_verb_of word.now }
{
    if word == b"create".as_slice() {
        return Some(SystemVerb::Create);
    }
    if word == b"set".as_slice() {
        return Some(SystemVerb::Set);
    }
    if word == b"ckpt-start".as_slice() {
        return Some(SystemVerb::StartCheckpoint);
    }
    if word == b"ckpt-step".as_slice() {
        return Some(SystemVerb::StepCheckpoint);
    }
    if word == b"ckpt-finish".as_slice() {
        return Some(SystemVerb::FinishCheckpoint);
    }
    if word == b"rts".as_slice() {
        return Some(SystemVerb::RollbackToStable);
    }
    if word == b"evict".as_slice() {
        return Some(SystemVerb::Evict);
    }
    None
}

fn create(alloc: Global, arguments: Option<&[u8]>) -> Result<Option<SystemCall>, NoMemory>
    ensures { IfOk result (λ r. r ≡ create_of (words_behind (option_map (λ t. t.now) arguments.entry))) }
{
    let Some((table, key, value)) = three(arguments) else {
        return Ok(None);
    };
    let Some(key) = format(key) else {
        return Ok(None);
    };
    let Some(value) = format(value) else {
        return Ok(None);
    };
    let table = name(alloc, table)?;
    Ok(Some(SystemCall::Create {
        table,
        formats: Formats { key, value },
    }))
}

fn set(arguments: Option<&[u8]>) -> Option<SystemCall>
    ensures { result ≡ set_of (words_behind (option_map (λ t. t.now) arguments.entry)) }
{
    if none(arguments) {
        return None;
    }
    let stamps = stamps_in(arguments, b"oldest=", b"stable=")?;
    Some(SystemCall::SetStamps {
        oldest: stamps.first,
        stable: stamps.second,
    })
}

fn evict(alloc: Global, arguments: Option<&[u8]>) -> Result<Option<SystemCall>, NoMemory>
    ensures { IfOk result (λ r. r ≡ evict_of (words_behind (option_map (λ t. t.now) arguments.entry))) }
{
    match keyed_in(alloc, arguments)? {
        Some(Keyed { table, key }) => Ok(Some(SystemCall::Evict { table, key })),
        None => Ok(None),
    }
}

// The call, where nothing stands behind its verb.
fn alone(call: SystemCall, arguments: Option<&[u8]>) -> Option<SystemCall>
    ensures { result ≡ alone_of call (words_behind (option_map (λ t. t.now) arguments.entry)) }
{
    if none(arguments) { Some(call) } else { None }
}

fn system_words(
    alloc: Global,
    verb: SystemVerb,
    arguments: Option<&[u8]>,
) -> Result<Option<SystemCall>, NoMemory>
    ensures { IfOk result (λ r. r ≡ system_words verb (words_behind (option_map (λ t. t.now) arguments.entry))) }
{
    match verb {
        SystemVerb::Create => create(alloc, arguments),
        SystemVerb::Set => Ok(set(arguments)),
        SystemVerb::StartCheckpoint => Ok(alone(SystemCall::StartCheckpoint, arguments)),
        SystemVerb::StepCheckpoint => Ok(alone(SystemCall::StepCheckpoint, arguments)),
        SystemVerb::FinishCheckpoint => Ok(alone(SystemCall::FinishCheckpoint, arguments)),
        SystemVerb::RollbackToStable => Ok(alone(SystemCall::RollbackToStable, arguments)),
        SystemVerb::Evict => evict(alloc, arguments),
    }
}

// The call of the system that a verb and what stands behind it spell.
pub(crate) fn system_call(
    alloc: Global,
    verb: &[u8],
    arguments: Option<&[u8]>,
) -> Result<Option<SystemCall>, NoMemory>
    ensures { IfOk result (λ r. r ≡ system_call_of verb.now (words_behind (option_map (λ t. t.now) arguments.entry))) }
{
    match system_verb(verb) {
        Some(verb) => system_words(alloc, verb, arguments),
        None => Ok(None),
    }
}

fn control_verb(word: &[u8]) -> Option<ControlVerb>
    ensures { result ≡ control_verb_of word.now }
{
    if word == b"ckpt".as_slice() {
        return Some(ControlVerb::Checkpoint);
    }
    if word == b"close".as_slice() {
        return Some(ControlVerb::Close);
    }
    if word == b"crash".as_slice() {
        return Some(ControlVerb::Crash);
    }
    if word == b"frames".as_slice() {
        return Some(ControlVerb::Frames);
    }
    None
}

fn frames(arguments: Option<&[u8]>) -> Option<Control>
    ensures { result ≡ frames_of (words_behind (option_map (λ t. t.now) arguments.entry)) }
{
    let frames = number(one(arguments)?, 4, 1024)?;
    Some(Control::Frames(frames))
}

fn control_alone(control: Control, arguments: Option<&[u8]>) -> Option<Control>
    ensures { result ≡ control_alone_of control (words_behind (option_map (λ t. t.now) arguments.entry)) }
{
    if none(arguments) { Some(control) } else { None }
}

fn control_words(verb: ControlVerb, arguments: Option<&[u8]>) -> Option<Control>
    ensures { result ≡ control_words verb (words_behind (option_map (λ t. t.now) arguments.entry)) }
{
    match verb {
        ControlVerb::Checkpoint => control_alone(Control::Checkpoint, arguments),
        ControlVerb::Close => control_alone(Control::Close, arguments),
        ControlVerb::Crash => control_alone(Control::Crash, arguments),
        ControlVerb::Frames => frames(arguments),
    }
}

// What the actor asks of the whole machine.
pub(crate) fn control(actor: Actor, verb: &[u8], arguments: Option<&[u8]>) -> Option<Control>
    ensures { result ≡ control_of actor verb.now (words_behind (option_map (λ t. t.now) arguments.entry)) }
{
    match actor {
        Actor::Session(_) => None,
        Actor::System(number) => {
            if number != 0 {
                return None;
            }
            control_words(control_verb(verb)?, arguments)
        }
    }
}
