// The bytes of a configuration text.
ghost use Rattle.std.specs.Prelude.{◌≡◌, ◌≤◌, length};
ghost use Rattle.std.specs.List.{prefix_len};
ghost use Rattle.config_text.specs.Bytes.{is_plain, is_bare, is_of_key, is_quotable};

// Neither a double quote nor a bracket.
fn is_plain(b: u8) -> bool
    ensures { result ≡ is_plain b }
{
    b != b'"' && b != b'(' && b != b')' && b != b'[' && b != b']'
}

fn is_bare(b: u8) -> bool
    ensures { result ≡ is_bare b }
{
    is_plain(b) && b != b','
}

fn is_of_key(b: u8) -> bool
    ensures { result ≡ is_of_key b }
{
    is_bare(b) && b != b'='
}

// How many bytes at the front are of a key.
pub(crate) fn key_len(text: &[u8]) -> usize
    ensures within { result ≤ length text.now }
    ensures len { result ≡ prefix_len is_of_key text.now }
{
    for (i, b) in text.iter().enumerate() {
        if !is_of_key(*b) {
            return i;
        }
    }
    text.len()
}

// How many bytes at the front are of a bare value.
pub(crate) fn bare_len(text: &[u8]) -> usize
    ensures within { result ≤ length text.now }
    ensures len { result ≡ prefix_len is_bare text.now }
{
    for (i, b) in text.iter().enumerate() {
        if !is_bare(*b) {
            return i;
        }
    }
    text.len()
}

// How many bytes stand before the first double quote.
pub(crate) fn quotable_len(text: &[u8]) -> usize
    ensures within { result ≤ length text.now }
    ensures len { result ≡ prefix_len is_quotable text.now }
{
    for (i, b) in text.iter().enumerate() {
        if *b == b'"' {
            return i;
        }
    }
    text.len()
}
