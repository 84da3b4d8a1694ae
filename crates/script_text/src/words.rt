// The words of a line.
ghost use Rattle.std.specs.Prelude.{◌≡◌, ◌<◌, ◌≤◌, ◌∷◌, length, take, drop, IfSome, option_map};
ghost use Rattle.script_text.specs.Words.{words_of, words_behind, behind_space, all_words, one_of, two_of, three_of, after_of, no_words};

// How many bytes stand before the first space.
fn word_len(text: &[u8]) -> usize
    ensures within { result ≤ length text.now }
    ensures words { words_of text.now ≡ take result text.now ∷ words_behind (behind_space (drop result text.now)) }
{
    for (i, b) in text.iter().enumerate() {
        if *b == b' ' {
            return i;
        }
    }
    text.len()
}

// The first word, and what stands behind the space after it.
pub(crate) fn cut(text: &[u8]) -> (&[u8], Option<&[u8]>)
    ensures words { words_of text.now ≡ result.0.now ∷ words_behind (option_map (λ rest. rest.now) result.1) }
    ensures shorter { IfSome result.1 (λ rest. length rest.now < length text.now) }
{
    let (word, others) = text.split_at(word_len(text));
    match others.split_first() {
        None => (word, None),
        Some((_, rest)) => (word, Some(rest)),
    }
}

// Whether no word is empty.
pub(crate) fn is_parted(line: &[u8]) -> bool
    ensures { result ≡ all_words (words_of line.now) }
{
    let mut rest = line;
    loop {
        let (word, behind) = cut(rest);
        if word.is_empty() {
            return false;
        }
        match behind {
            None => return true,
            Some(next) => rest = next,
        }
    }
}

// The word of a text that has exactly one.
pub(crate) fn one(text: Option<&[u8]>) -> Option<&[u8]>
    ensures { option_map (λ a. a.now) result ≡ one_of (words_behind (option_map (λ t. t.now) text.entry)) }
{
    let (first, behind) = cut(text?);
    match behind {
        None => Some(first),
        Some(_) => None,
    }
}

// The words of a text that has exactly two.
pub(crate) fn two(text: Option<&[u8]>) -> Option<(&[u8], &[u8])>
    ensures { option_map (λ p. (p.0.now, p.1.now)) result ≡ two_of (words_behind (option_map (λ t. t.now) text.entry)) }
{
    let (first, behind) = cut(text?);
    let second = one(behind)?;
    Some((first, second))
}

// The words of a text that has exactly three.
pub(crate) fn three(text: Option<&[u8]>) -> Option<(&[u8], &[u8], &[u8])>
    ensures { option_map (λ p. (p.0.now, p.1.now, p.2.now)) result ≡ three_of (words_behind (option_map (λ t. t.now) text.entry)) }
{
    let (first, behind) = cut(text?);
    let (second, third) = two(behind)?;
    Some((first, second, third))
}

// What a word has behind a name that it begins with.
pub(crate) fn after<'a>(word: &'a [u8], name: &[u8]) -> Option<&'a [u8]>
    ensures { option_map (λ rest. rest.now) result ≡ after_of name.now word.now }
{
    word.strip_prefix(name)
}

// Whether there is no word.
pub(crate) fn none(text: Option<&[u8]>) -> bool
    ensures { result ≡ no_words (words_behind (option_map (λ t. t.now) text.entry)) }
{
    text.is_none()
}
