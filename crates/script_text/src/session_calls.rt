// The calls of a session.
ghost use Rattle.std.specs.Prelude.{◌≡◌, IfOk, option_map};
ghost use Rattle.script_text.specs.Words.{words_behind};
ghost use Rattle.script_text.specs.SessionCalls.{data_verb_of, cursor_verb_of, transaction_verb_of, session_verb_of, session_words, session_call_of, begin_of, get_of, put_of, remove_of, seek_of, step_of, reset_of, prepare_of, commit_of, rollback_of};

use crate::items::{Keyed, cursor, item, keyed_by, keyed_in, name};
use crate::numbers::{given, stamp, stamps_in};
use crate::words::{none, one, three, two};
use failure::NoMemory;
use std::alloc::Global;
use wt_calls::{Demand, SessionCall, Way};

/// The word that a call of a session begins with.
#[derive(Clone, Copy)]
pub(crate) enum SessionVerb {
    Begin,
    Get,
    Put,
    Insert,
    Remove,
    Seek,
    Next,
    Prev,
    Reset,
    Prepare,
    Commit,
    Rollback,
}

fn data_verb(word: &[u8]) -> Option<SessionVerb>
    ensures { result ≡ data_verb_of word.now }
{
    if word == b"get".as_slice() {
        return Some(SessionVerb::Get);
    }
    if word == b"put".as_slice() {
        return Some(SessionVerb::Put);
    }
    if word == b"insert".as_slice() {
        return Some(SessionVerb::Insert);
    }
    if word == b"remove".as_slice() {
        return Some(SessionVerb::Remove);
    }
    None
}

fn cursor_verb(word: &[u8]) -> Option<SessionVerb>
    ensures { result ≡ cursor_verb_of word.now }
{
    if word == b"seek".as_slice() {
        return Some(SessionVerb::Seek);
    }
    if word == b"next".as_slice() {
        return Some(SessionVerb::Next);
    }
    if word == b"prev".as_slice() {
        return Some(SessionVerb::Prev);
    }
    if word == b"reset".as_slice() {
        return Some(SessionVerb::Reset);
    }
    None
}

fn transaction_verb(word: &[u8]) -> Option<SessionVerb>
    ensures { result ≡ transaction_verb_of word.now }
{
    if word == b"begin".as_slice() {
        return Some(SessionVerb::Begin);
    }
    if word == b"prepare".as_slice() {
        return Some(SessionVerb::Prepare);
    }
    if word == b"commit".as_slice() {
        return Some(SessionVerb::Commit);
    }
    if word == b"rollback".as_slice() {
        return Some(SessionVerb::Rollback);
    }
    None
}

fn session_verb(word: &[u8]) -> Option<SessionVerb>
    ensures { result ≡ session_verb_of word.now }
{
    if let Some(verb) = data_verb(word) {
        return Some(verb);
    }
    if let Some(verb) = cursor_verb(word) {
        return Some(verb);
    }
    transaction_verb(word)
}

fn begin(arguments: Option<&[u8]>) -> Option<SessionCall>
    ensures { result ≡ begin_of (words_behind (option_map (λ t. t.now) arguments.entry)) }
{
    if none(arguments) {
        return Some(SessionCall::Begin(None));
    }
    let stamp = given(one(arguments)?, b"read=")?;
    Some(SessionCall::Begin(Some(stamp)))
}

fn prepare(arguments: Option<&[u8]>) -> Option<SessionCall>
    ensures { result ≡ prepare_of (words_behind (option_map (λ t. t.now) arguments.entry)) }
{
    let stamp = stamp(one(arguments)?)?;
    Some(SessionCall::Prepare(stamp))
}

fn commit(arguments: Option<&[u8]>) -> Option<SessionCall>
    ensures { result ≡ commit_of (words_behind (option_map (λ t. t.now) arguments.entry)) }
{
    let stamps = stamps_in(arguments, b"commit=", b"durable=")?;
    Some(SessionCall::Commit {
        commit: stamps.first,
        durable: stamps.second,
    })
}

fn rollback(arguments: Option<&[u8]>) -> Option<SessionCall>
    ensures { result ≡ rollback_of (words_behind (option_map (λ t. t.now) arguments.entry)) }
{
    if none(arguments) {
        Some(SessionCall::Rollback)
    } else {
        None
    }
}

fn reset(arguments: Option<&[u8]>) -> Option<SessionCall>
    ensures { result ≡ reset_of (words_behind (option_map (λ t. t.now) arguments.entry)) }
{
    let cursor = cursor(one(arguments)?)?;
    Some(SessionCall::Reset(cursor))
}

fn get(alloc: Global, arguments: Option<&[u8]>) -> Result<Option<SessionCall>, NoMemory>
    ensures { IfOk result (λ r. r ≡ get_of (words_behind (option_map (λ t. t.now) arguments.entry))) }
{
    match keyed_in(alloc, arguments)? {
        Some(Keyed { table, key }) => Ok(Some(SessionCall::Get { table, key })),
        None => Ok(None),
    }
}

fn remove(alloc: Global, arguments: Option<&[u8]>) -> Result<Option<SessionCall>, NoMemory>
    ensures { IfOk result (λ r. r ≡ remove_of (words_behind (option_map (λ t. t.now) arguments.entry))) }
{
    match keyed_in(alloc, arguments)? {
        Some(Keyed { table, key }) => Ok(Some(SessionCall::Remove { table, key })),
        None => Ok(None),
    }
}

fn put(
    alloc: Global,
    arguments: Option<&[u8]>,
    demand: Demand,
) -> Result<Option<SessionCall>, NoMemory>
    ensures { IfOk result (λ r. r ≡ put_of demand (words_behind (option_map (λ t. t.now) arguments.entry))) }
{
    let Some((table, key, value)) = three(arguments) else {
        return Ok(None);
    };
    let Some(Keyed { table, key }) = keyed_by(alloc, table, key)? else {
        return Ok(None);
    };
    let Some(value) = item(alloc, value)? else {
        return Ok(None);
    };
    Ok(Some(SessionCall::Put {
        table,
        key,
        value,
        demand,
    }))
}

fn seek(alloc: Global, arguments: Option<&[u8]>) -> Result<Option<SessionCall>, NoMemory>
    ensures { IfOk result (λ r. r ≡ seek_of (words_behind (option_map (λ t. t.now) arguments.entry))) }
{
    let Some((word, table, key)) = three(arguments) else {
        return Ok(None);
    };
    let Some(cursor) = cursor(word) else {
        return Ok(None);
    };
    match keyed_by(alloc, table, key)? {
        Some(Keyed { table, key }) => Ok(Some(SessionCall::Seek { cursor, table, key })),
        None => Ok(None),
    }
}

fn step(alloc: Global, arguments: Option<&[u8]>, way: Way) -> Result<Option<SessionCall>, NoMemory>
    ensures { IfOk result (λ r. r ≡ step_of way (words_behind (option_map (λ t. t.now) arguments.entry))) }
{
    let Some((word, table)) = two(arguments) else {
        return Ok(None);
    };
    let Some(cursor) = cursor(word) else {
        return Ok(None);
    };
    let table = name(alloc, table)?;
    Ok(Some(SessionCall::Step { cursor, table, way }))
}

fn session_words(
    alloc: Global,
    verb: SessionVerb,
    arguments: Option<&[u8]>,
) -> Result<Option<SessionCall>, NoMemory>
    ensures { IfOk result (λ r. r ≡ session_words verb (words_behind (option_map (λ t. t.now) arguments.entry))) }
{
    match verb {
        SessionVerb::Begin => Ok(begin(arguments)),
        SessionVerb::Get => get(alloc, arguments),
        SessionVerb::Put => put(alloc, arguments, Demand::Anything),
        SessionVerb::Insert => put(alloc, arguments, Demand::Vacant),
        SessionVerb::Remove => remove(alloc, arguments),
        SessionVerb::Seek => seek(alloc, arguments),
        SessionVerb::Next => step(alloc, arguments, Way::Up),
        SessionVerb::Prev => step(alloc, arguments, Way::Down),
        SessionVerb::Reset => Ok(reset(arguments)),
        SessionVerb::Prepare => Ok(prepare(arguments)),
        SessionVerb::Commit => Ok(commit(arguments)),
        SessionVerb::Rollback => Ok(rollback(arguments)),
    }
}

// The call of a session that a verb and what stands behind it spell.
pub(crate) fn session_call(
    alloc: Global,
    verb: &[u8],
    arguments: Option<&[u8]>,
) -> Result<Option<SessionCall>, NoMemory>
    ensures { IfOk result (λ r. r ≡ session_call_of verb.now (words_behind (option_map (λ t. t.now) arguments.entry))) }
{
    match session_verb(verb) {
        Some(verb) => session_words(alloc, verb, arguments),
        None => Ok(None),
    }
}
