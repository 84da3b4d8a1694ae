// Escape texts, read a run of plain bytes at a time.
ghost use Rattle.std.specs.Prelude.{◌≡◌, ◌<◌, ◌≤◌, ◌++◌, ◌∷◌, length, take, drop, slice_index_or, IfOk, IfSome, MatchOption, IsSome, false, true, option_map};
ghost use Rattle.item.specs.Escapes.{digit_value, unescaped};
ghost use Rattle.hex.specs.Hex.{hex_digit_value};
ghost use Rattle.dump_text.specs.Zeros.{IsStop, zero_behind};

use failure::NoMemory;
use item::Item;
use memchr::memchr2;
use std::alloc::Global;

// How many bytes at the front of a text are themselves.
fn plain_text(text: &[u8]) -> usize
    ensures within { result ≤ length text.now }
    ensures plain { unescaped text.now ≡ option_map (λ bytes. take result text.now ++ bytes) (unescaped (drop result text.now)) }
    ensures stops { result < length text.now → IsStop (slice_index_or text.now result 0) }
{
    match memchr2(b'\\', b'\n', text) {
        None => text.len(),
        Some(end) => end,
    }
}

// The number of a hexadecimal digit of either case.
pub(crate) fn value_of_digit(b: u8) -> Option<u8>
    ensures value { result ≡ digit_value b }
    ensures hex { result ≡ hex_digit_value b }
    ensures small { IfSome result (λ d. d < 16) }
{
    match b {
        b'0'..=b'9' => Some(b - 48),
        b'a'..=b'f' => Some(b - 87),
        b'A'..=b'F' => Some(b - 55),
        _ => None,
    }
}

// The byte of the escape at the front of a text, and what is behind the escape; none where no escape
// stands there.
fn first_escape(text: &[u8]) -> Option<(u8, &[u8])>
    requires some { 0 < length text.now }
    requires stops { IsStop (slice_index_or text.now 0 0) }
    ensures { MatchOption result (unescaped text.now ≡ None) (λ p. (unescaped text.now ≡ option_map (λ bytes. p.0 ∷ bytes) (unescaped p.1.now)) × (length p.1.now < length text.now)) }
{
    match text {
        [b'\\', b'\\', rest @ ..] => Some((b'\\', rest)),
        [b'\\', high, low, rest @ ..] => {
            Some((16 * value_of_digit(*high)? + value_of_digit(*low)?, rest))
        }
        _ => None,
    }
}

/// The item that a text stands for, as `unescape` of `item` gives it. `O(text)`, and one allocation.
pub(crate) fn item_in(alloc: Global, text: &[u8]) -> Result<Option<Item>, NoMemory>
    ensures { IfOk result (λ r. r ≡ unescaped text.now) }
{
    let mut out = Vec::with_capacity(alloc, text.len())?;
    let mut rest = text;
    'runs: loop {
        let (plain, behind) = rest.split_at(plain_text(rest));
        out.extend_from_slice(plain)?;
        if behind.is_empty() {
            return Ok(Some(Item::new(out)));
        }
        let Some((b, others)) = first_escape(behind) else {
            return Ok(None);
        };
        out.extend_from_slice(&[b])?;
        rest = others;
    }
}

// Whether the last of bytes is a zero; of none, what was so before them.
fn zero_behind(before: bool, bytes: &[u8]) -> bool
    ensures { result ≡ zero_behind before bytes.now }
{
    match bytes.split_last() {
        None => before,
        Some((last, _)) => *last == 0,
    }
}

/// Whether the item that a text stands for ends with a zero byte; none where it stands for none.
/// `O(text)`, and no allocation.
pub(crate) fn ends_with_zero(text: &[u8]) -> Option<bool>
    ensures { result ≡ option_map (zero_behind false) (unescaped text.now) }
{
    let mut zero = false;
    let mut rest = text;
    'runs: loop {
        let (plain, behind) = rest.split_at(plain_text(rest));
        zero = zero_behind(zero, plain);
        if behind.is_empty() {
            return Some(zero);
        }
        let Some((b, others)) = first_escape(behind) else {
            return None;
        };
        zero = b == 0;
        rest = others;
    }
}
