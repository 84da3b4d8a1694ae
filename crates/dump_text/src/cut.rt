// A text, cut into its lines.
ghost use Rattle.std.specs.Prelude.{◌≡◌, ◌≤◌, ◌<◌, ◌∷◌, length, take, slice_index_or};
ghost use Rattle.dump_text.specs.Runs.{IsOneLine};
ghost use Rattle.dump_text.specs.Cuts.{lines_in};

use memchr::memchr;

// The first line of a text, without its newline, and what is behind it.
pub(crate) fn first_line(text: &[u8]) -> (&[u8], &[u8])
    requires { 0 < length text.now }
    ensures lines { lines_in text.now ≡ result.0.now ∷ lines_in result.1.now }
    ensures shorter { length result.1.now < length text.now }
{
    let end = line_end(text);
    if end == text.len() {
        return (text, &[]);
    }
    (&text[..end], &text[end + 1..])
}

// How many bytes stand before the first newline.
fn line_end(text: &[u8]) -> usize
    ensures within { result ≤ length text.now }
    ensures line { IsOneLine (take result text.now) }
    ensures newline { result < length text.now → slice_index_or text.now result 0 ≡ 10 }
{
    match memchr(b'\n', text) {
        None => text.len(),
        Some(end) => end,
    }
}
