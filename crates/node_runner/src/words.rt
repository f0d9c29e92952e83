//! The words of a line.

ghost use Rattle.std.specs.Prelude.{◌≡◌, ◌≤◌, ◌∷◌, [], length, drop, not, MatchOption};
ghost use Rattle.std.specs.List.{position_or_len};
ghost use Rattle.node_runner.specs.Script.{is_blank, words_of};

/// Whether a byte only stands between words.
fn is_blank(byte: u8) -> bool
    ensures { result ≡ is_blank byte }
{
    byte == b' ' || byte == b'\t'
}

/// How many blanks a text begins with.
fn leading_blanks(text: &[u8]) -> usize
    ensures value { result ≡ position_or_len (λ byte. not (is_blank byte)) text.now }
    ensures within { result ≤ length text.now }
{
    for (at, byte) in text.iter().enumerate() {
        if !is_blank(*byte) {
            return at;
        }
    }
    text.len()
}

/// How many bytes a text has before its first blank.
fn leading_word(text: &[u8]) -> usize
    ensures value { result ≡ position_or_len is_blank text.now }
    ensures within { result ≤ length text.now }
{
    for (at, byte) in text.iter().enumerate() {
        if is_blank(*byte) {
            return at;
        }
    }
    text.len()
}

/// A line from its first word on.
fn skip_blanks(line: &[u8]) -> &[u8]
    ensures { result.now ≡ drop (position_or_len (λ byte. not (is_blank byte)) line.now) line.now }
{
    &line[leading_blanks(line)..]
}

/// The first word of a line, and what comes behind it.
pub(crate) fn next_word(line: &[u8]) -> Option<(&[u8], &[u8])>
    ensures { MatchOption result (words_of line.now ≡ []) (λ found. words_of line.now ≡ found.0.now ∷ words_of found.1.now) }
{
    let text = skip_blanks(line);
    let end = leading_word(text);
    if end == 0 {
        return None;
    }
    Some(text.split_at(end))
}
