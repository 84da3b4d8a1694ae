//! The kinds of steps on words.

ghost use Rattle.hazard_law.specs.Kinds.{clearing, filling, freeing, locking, looking, publishing, scanning, unlocking, validating};
ghost use Rattle.hazard_table.specs.Laws.{clearing_allowed, filling_allowed, freeing_allowed, locking_allowed, looking_allowed};
ghost use Rattle.hazard_table.specs.Laws.{publishing_allowed, scanning_allowed, unlocking_allowed, validating_allowed};

use crate::with_hazards::WithHazards;
use pool_law::{Law, Turn};

// The own hazard word comes to name a frame.
pub(crate) struct Publish;

impl<L: Law> Turn<WithHazards<L>> for Publish {
    ghost turns = { publishing L.turns };

    ghost allowed = { publishing_allowed L.turns };
}

// The own hazard word comes to name nothing.
pub(crate) struct Clear;

impl<L: Law> Turn<WithHazards<L>> for Clear {
    ghost turns = { clearing L.turns };

    ghost allowed = { clearing_allowed L.turns };
}

// A word is read.
pub(crate) struct Look;

impl<L: Law> Turn<WithHazards<L>> for Look {
    ghost turns = { looking L.turns };

    ghost allowed = { looking_allowed L.turns };
}

// A state word is read; where the frame is in, it is pinned.
pub(crate) struct Validate;

impl<L: Law> Turn<WithHazards<L>> for Validate {
    ghost turns = { validating L.turns };

    ghost allowed = { validating_allowed L.turns };
}

// A frame goes from in to locked, or its word is read.
pub(crate) struct LockFrame;

impl<L: Law> Turn<WithHazards<L>> for LockFrame {
    ghost turns = { locking L.turns };

    ghost allowed = { locking_allowed L.turns };
}

// A hazard word is read, for the frame that was locked last.
pub(crate) struct Scan;

impl<L: Law> Turn<WithHazards<L>> for Scan {
    ghost turns = { scanning L.turns };

    ghost allowed = { scanning_allowed L.turns };
}

// A frame goes from locked to in.
pub(crate) struct Unlock;

impl<L: Law> Turn<WithHazards<L>> for Unlock {
    ghost turns = { unlocking L.turns };

    ghost allowed = { unlocking_allowed L.turns };
}

// A frame goes from locked to empty.
pub(crate) struct Free;

impl<L: Law> Turn<WithHazards<L>> for Free {
    ghost turns = { freeing L.turns };

    ghost allowed = { freeing_allowed L.turns };
}

// A frame goes from empty to in.
pub(crate) struct Fill;

impl<L: Law> Turn<WithHazards<L>> for Fill {
    ghost turns = { filling L.turns };

    ghost allowed = { filling_allowed L.turns };
}
