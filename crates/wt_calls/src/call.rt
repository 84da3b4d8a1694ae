use crate::session_call::SessionCall;
use crate::system_call::SystemCall;

/// A call with who makes it, by number, from 0 upwards: a session, of which there are at most
/// `SESSIONS_MAX` of `limits`, or an actor of the system.
#[derive(Drop, PartialEq, Eq)]
pub enum Call {
    /// Of this session.
    Session(u32, SessionCall),
    /// Of this actor of the system.
    System(u32, SystemCall),
}
