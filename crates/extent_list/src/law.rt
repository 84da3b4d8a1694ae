// A law of the calls.
ghost use Rattle.std.specs.Prelude.{◌≡◌, ℕ};
ghost use Rattle.extent_list.specs.Space.{Space, Taken, PutBack, end_of};

/// A take that is put back leaves the space as it was.
pub fn a_take_put_back_is_undone()
    ensures { (old mid new : Space) (n capacity at : ℕ) → Taken old mid n capacity at → PutBack mid new at n (end_of old) → new ≡ old }
{}
