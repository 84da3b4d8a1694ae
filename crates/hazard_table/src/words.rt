//! The numbers that words hold.

ghost use Rattle.std.specs.Prelude.{◌≡◌, ◌*◌, ◌+◌, ◌<◌, ◌^◌};
ghost use Rattle.hazard_law.specs.Words.{empty, filled, locked, naming};

pub(crate) fn empty_at(g: u64) -> u64
    requires { g < 2 ^ 62 }
    ensures { result ≡ empty g }
{
    4 * g
}

pub(crate) fn filled_at(g: u64) -> u64
    requires { g < 2 ^ 62 }
    ensures { result ≡ filled g }
{
    4 * g + 1
}

pub(crate) fn locked_at(g: u64) -> u64
    requires { g < 2 ^ 62 }
    ensures { result ≡ locked g }
{
    4 * g + 2
}

pub(crate) fn name_of(f: u32) -> u64
    ensures { result ≡ naming f }
{
    f as u64 + 1
}
