//! The words of a line, with one space between each two.
ghost use Rattle.std.specs.Prelude.{◌≡◌, ◌↔◌, ◌∷◌, ◌++◌, true, false, nat_lt, length, map, IfNone, IfOk, IfSome, IsSome};
ghost use Rattle.std.specs.List.{list_all};
ghost use Rattle.raid_base.specs.Names.{is_text};
ghost use Rattle.text_lines.specs.Numbers.{is_number};
ghost use Rattle.script_text.specs.Forms.{block_of, is_block, number, only_number, two_numbers, value, words, words_behind};
ghost use Rattle.script_text.specs.Faults.{row_numbers};

use raid_base::{NoMemory, RowNo};
use std::alloc::Global;
use text_lines::numbers::is_number;
use text_lines::{read_block, read_number};

/// Whether two texts are one.
pub(crate) fn is_text(text: &[u8], other: &[u8]) -> bool
    ensures { result ≡ is_text text.now other.now }
{
    text == other
}

/// The first word of a text, and what stands behind the space that ends it, if one does.
pub(crate) fn split_word(text: &[u8]) -> (&[u8], Option<&[u8]>)
    ensures { words text.now ≡ result.0.now ∷ words_behind result.1 }
{
    for (i, byte) in text.iter().enumerate() {
        if *byte == b' ' {
            return (&text[..i], Some(&text[i + 1..]));
        }
    }
    (text, None)
}

/// The number that the words are, where they are just one.
pub(crate) fn only_number(rest: Option<&[u8]>) -> Option<u64>
    ensures { result ≡ only_number (words_behind rest.entry) }
{
    let (word, behind) = split_word(rest?);
    match behind {
        Some(_) => None,
        None => read_number(word),
    }
}

/// The two numbers that the words are.
pub(crate) fn two_numbers(rest: Option<&[u8]>) -> Option<(u64, u64)>
    ensures { result ≡ two_numbers (words_behind rest.entry) }
{
    let (word, behind) = split_word(rest?);
    let first = read_number(word)?;
    let second = only_number(behind)?;
    Some((first, second))
}

/// Whether all words of a text are numbers.
pub(crate) fn are_numbers(text: &[u8]) -> bool
    ensures { result ≡ list_all is_number (words text.now) }
{
    let mut left = Some(text);
    while let Some(next) = left {
        let (word, behind) = split_word(next);
        if !is_number(word) {
            return false;
        }
        left = behind;
    }
    true
}

/// How many words a text has.
pub(crate) fn count_words(text: &[u8]) -> u64
    ensures { result ≡ length (words text.now) }
{
    let mut count = 1;
    for byte in text {
        if *byte == b' ' {
            count += 1;
        }
    }
    count
}

/// The rows that the words of a text are, and none where one of them is not below the end.
pub(crate) fn read_rows(
    alloc: Global,
    text: &[u8],
    end: u16,
) -> Result<Option<Vec<RowNo>>, NoMemory>
    requires { list_all is_number (words text.now) ≡ true }
    ensures some { IfOk result (λ found. IfSome found (λ rows. (rows.items ≡ row_numbers (map value (words text.now))) × (list_all (λ row. nat_lt row end) (map value (words text.now)) ≡ true))) }
    ensures none { IfOk result (λ found. IfNone found (list_all (λ row. nat_lt row end) (map value (words text.now)) ≡ false)) }
{
    let mut rows = Vec::new(alloc);
    let mut left = Some(text);
    while let Some(next) = left {
        let (word, behind) = split_word(next);
        let row = match read_number(word) {
            Some(row) if row < u64::from(end) => row as u16,
            _ => return Ok(None),
        };
        match rows.push(RowNo(row)) {
            Ok(()) => left = behind,
            Err(_) => return Err(NoMemory),
        }
    }
    Ok(Some(rows))
}

/// The block of a word, and none where it is no block's text.
fn block_of(word: &[u8]) -> Option<[u8; 64]>
    ensures some { IsSome result ↔ (is_block word.now ≡ true) }
    ensures value { IfSome result (λ block. block ≡ block_of word.now) }
{
    read_block(word)
}

/// Whether all words of a text are blocks.
pub(crate) fn are_blocks(text: &[u8]) -> bool
    ensures { result ≡ list_all is_block (words text.now) }
{
    let mut left = Some(text);
    while let Some(next) = left {
        let (word, behind) = split_word(next);
        if block_of(word).is_none() {
            return false;
        }
        left = behind;
    }
    true
}

/// Appends the blocks that the words of a text are.
pub(crate) fn push_blocks(blocks: &mut Vec<[u8; 64]>, text: &[u8]) -> Result<(), NoMemory>
    requires { list_all is_block (words text.now) ≡ true }
    ensures { IfOk result (λ _. blocks.new.items ≡ blocks.old.items ++ map block_of (words text.now)) }
{
    let mut left = Some(text);
    while let Some(next) = left {
        let (word, behind) = split_word(next);
        match blocks.push(block_of(word).unwrap()) {
            Ok(()) => left = behind,
            Err(_) => return Err(NoMemory),
        }
    }
    Ok(())
}
