//! Words and lines of words, put into a sink.
ghost use Rattle.std.specs.Prelude.{◌≡◌, ◌∷◌, ◌++◌, List, ℕ, map};
ghost use Rattle.std.specs.List.{flat_map};
ghost use Rattle.report_text.specs.Appends.{Appends};
ghost use Rattle.text_lines.specs.Lines.{spaced, joined, line};

use raid_base::{Failed, Sink};

/// Appends a piece.
pub fn put<K: Sink>(sink: &mut K, piece: &[u8]) -> Result<(), Failed>
    ensures { Appends K.tells K.written K.faults sink.old piece.now result sink.new }
{
    sink.write_all(piece)
}

/// Appends a word with a space before it.
pub fn put_word<K: Sink>(sink: &mut K, word: &[u8]) -> Result<(), Failed>
    ensures { Appends K.tells K.written K.faults sink.old (spaced word.now) result sink.new }
{
    put(sink, b" ")?;
    put(sink, word)
}

/// Appends words, each with a space before it.
pub fn put_words<K: Sink>(sink: &mut K, words: &[&[u8]]) -> Result<(), Failed>
    ensures { Appends K.tells K.written K.faults sink.old (flat_map spaced (map (λ w. w.now) words.now)) result sink.new }
{
    for word in words {
        put_word(sink, word)?;
    }
    Ok(())
}

/// Appends words: the first, and the others with a space before each.
pub fn put_joined<K: Sink>(sink: &mut K, first: &[u8], others: &[&[u8]]) -> Result<(), Failed>
    ensures { Appends K.tells K.written K.faults sink.old (joined (first.now ∷ map (λ w. w.now) others.now)) result sink.new }
{
    put(sink, first)?;
    put_words(sink, others)
}

/// Appends a line: its first word, the others, and the byte that ends it.
pub fn put_line<K: Sink>(sink: &mut K, first: &[u8], others: &[&[u8]]) -> Result<(), Failed>
    ensures { Appends K.tells K.written K.faults sink.old (line (first.now ∷ map (λ w. w.now) others.now)) result sink.new }
{
    put_joined(sink, first, others)?;
    put(sink, b"\n")
}
