//! Laws of rollbacks to stable, for a key in a frame and in none.

ghost use Rattle.kv_model.specs.StableLaws.{MarkedRollsBack, LeafRollsBack, CleanRollsBack, FrameRollsBack};

/// A key of a marked leaf stands, its mark bounded.
pub fn marked_rolls_back()
    ensures { MarkedRollsBack }
{}

/// A key of a leaf in no frame stands under a mark.
pub fn leaf_rolls_back()
    ensures { LeafRollsBack }
{}

/// Where the leaf's greatest durable stamp is at most stable it stands without one.
pub fn clean_rolls_back()
    ensures { CleanRollsBack }
{}

/// A key in a frame stands with what stays of it, or with the record that comes back.
pub fn frame_rolls_back()
    ensures { FrameRollsBack }
{}
