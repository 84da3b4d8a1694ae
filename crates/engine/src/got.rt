// How a get into the caller's buffer went.

use wt_code::Refusal;

/// How a get into the caller's buffer went.
#[derive(Clone, Copy, Debug, PartialEq, Eq)]
pub enum Got {
    /// The value stands in the buffer.
    Found,
    /// It is refused.
    Refused(Refusal),
    /// The leaf of the key is in no frame: the call is to be made by `get`, which waits for it.
    Away,
}
