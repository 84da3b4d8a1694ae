//! A pool of frames.

ghost use Rattle.std.specs.Prelude.{◌≡◌, ◌<◌};
ghost use Rattle.latch_table.specs.Tables.{shape_of};
ghost use Rattle.hazard_law.specs.Words.{hazard_word};
ghost use Rattle.hazard_table.specs.Sessions.{IsSized};

use crate::with_hazards::WithHazards;
use latch_table::Latched;
use pool_law::Law;

/// How many hazard words a seat has.
pub const HAZARDS: u32 = 5;

/// Latched pieces with their state words and hazard words. The state word of frame f is the word
/// f; the hazard word w of seat j is the word frames + 5 * j + w.
#[derive(Drop)]
pub struct Pool<L: Law> {
    /// The pieces under their latches.
    pub pieces: Latched<WithHazards<L>>,
    pub(crate) frames: u32,
    ghost sized: { IsSized pieces frames },
}

impl<L: Law> Pool<L> {
    // Which word the hazard word `word` of the session is.
    pub(crate) fn hazard_at(&self, session: u32, word: u32) -> u32
        requires { (session < (shape_of self.now.pieces).seats) × (word < 5) }
        ensures { result ≡ hazard_word (shape_of self.now.pieces).frames session word }
    {
        self.frames + (HAZARDS * session + word)
    }
}
