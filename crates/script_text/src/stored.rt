// The items of a call, as a table stores them.
ghost use Rattle.std.specs.Prelude.{◌≡◌, IfOk, option_map};
ghost use Rattle.script_text.specs.Stored.{table_of_items, stored_session, stored_system, stored_call};

use crate::items::stored;
use failure::NoMemory;
use item::{Formats, Item};
use std::alloc::Global;
use wt_calls::{Call, SessionCall, SystemCall};

/// The table whose formats the items of the call have, and those of its answer; none for a call
/// without items.
pub fn table_of_items(call: &Call) -> Option<&Item>
    ensures { option_map (λ table. table.now) result ≡ table_of_items call.now }
{
    match call {
        Call::Session(_, SessionCall::Get { table, .. }) => Some(table),
        Call::Session(_, SessionCall::Put { table, .. }) => Some(table),
        Call::Session(_, SessionCall::Remove { table, .. }) => Some(table),
        Call::Session(_, SessionCall::Seek { table, .. }) => Some(table),
        Call::Session(_, SessionCall::Step { table, .. }) => Some(table),
        Call::System(_, SystemCall::Evict { table, .. }) => Some(table),
        _ => None,
    }
}

fn stored_session(
    alloc: Global,
    call: SessionCall,
    formats: Formats,
) -> Result<SessionCall, NoMemory>
    ensures { IfOk result (λ stored. stored ≡ stored_session formats call) }
{
    match call {
        SessionCall::Get { table, key } => Ok(SessionCall::Get {
            table,
            key: stored(alloc, key, formats.key)?,
        }),
        SessionCall::Put {
            table,
            key,
            value,
            demand,
        } => Ok(SessionCall::Put {
            table,
            key: stored(alloc, key, formats.key)?,
            value: stored(alloc, value, formats.value)?,
            demand,
        }),
        SessionCall::Remove { table, key } => Ok(SessionCall::Remove {
            table,
            key: stored(alloc, key, formats.key)?,
        }),
        SessionCall::Seek { cursor, table, key } => Ok(SessionCall::Seek {
            cursor,
            table,
            key: stored(alloc, key, formats.key)?,
        }),
        other => Ok(other),
    }
}

fn stored_system(alloc: Global, call: SystemCall, formats: Formats) -> Result<SystemCall, NoMemory>
    ensures { IfOk result (λ stored. stored ≡ stored_system formats call) }
{
    match call {
        SystemCall::Evict { table, key } => Ok(SystemCall::Evict {
            table,
            key: stored(alloc, key, formats.key)?,
        }),
        other => Ok(other),
    }
}

/// The call, with its items as a table of these formats stores them: one of the format `S` gets its
/// final zero byte. The formats of a table that is not there are `U`. One allocation for each item
/// of the format `S`.
///
/// # Errors
///
/// Memory is wanted.
pub fn as_stored(alloc: Global, call: Call, formats: Formats) -> Result<Call, NoMemory>
    ensures { IfOk result (λ stored. stored ≡ stored_call formats call) }
{
    match call {
        Call::Session(number, call) => {
            let call = stored_session(alloc, call, formats)?;
            Ok(Call::Session(number, call))
        }
        Call::System(number, call) => {
            let call = stored_system(alloc, call, formats)?;
            Ok(Call::System(number, call))
        }
    }
}
