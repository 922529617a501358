//! Words, which a space or a line end parts.
ghost use Rattle.std.specs.Prelude.{◌≡◌, ◌≤◌, ◌↔◌, IsTrue, length};
ghost use Rattle.std.specs.List.{before_first, after_first, position_or_len, flat_map};
ghost use Rattle.text_lines.specs.Lines.{is_separator, behind_words};

fn is_separator(byte: u8) -> bool
    ensures { result ≡ is_separator byte }
{
    byte == b' ' || byte == b'\n'
}

/// How many bytes stand before the first space or line end.
fn word_length(text: &[u8]) -> usize
    ensures value { result ≡ position_or_len is_separator text.now }
    ensures within { result ≤ length text.now }
{
    for (i, byte) in text.iter().enumerate() {
        if is_separator(*byte) {
            return i;
        }
    }
    text.len()
}

/// What stands before the first space or line end, or all where there is none.
pub fn first_word(text: &[u8]) -> &[u8]
    ensures { result.now ≡ before_first is_separator text.now }
{
    &text[..word_length(text)]
}

/// What stands behind the first space or line end, or nothing where there is none.
pub fn behind_word(text: &[u8]) -> &[u8]
    ensures { result.now ≡ after_first is_separator text.now }
{
    let end = word_length(text);
    if end < text.len() {
        &text[end + 1..]
    } else {
        &text[end..]
    }
}

/// What stands behind so many words.
pub fn behind_words(text: &[u8], count: u8) -> &[u8]
    ensures { result.now ≡ behind_words count text.now }
{
    let mut rest = text;
    let mut left = count;
    while left > 0 {
        rest = behind_word(rest);
        left -= 1;
    }
    rest
}

/// Whether the text is made of these pieces, one after another.
pub fn is_joined(text: &[u8], pieces: &[&[u8]]) -> bool
    ensures { IsTrue result ↔ (text.now ≡ flat_map (λ piece. piece.now) pieces.now) }
{
    let mut rest = text;
    for piece in pieces {
        match rest.strip_prefix(*piece) {
            Some(behind) => rest = behind,
            None => return false,
        }
    }
    rest.is_empty()
}
