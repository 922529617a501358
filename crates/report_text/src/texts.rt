//! The words of a report that are no plain numbers.
ghost use Rattle.std.specs.Prelude.{◌≡◌, ◌≤◌, length, map};
ghost use Rattle.std.specs.List.{range_with_len};
ghost use Rattle.report_text.specs.Report.{content_text, shown_text, row_word, flag};

use arrayvec::ArrayVec;
use raid_base::{Content, Shown};
use text_lines::block_text;

fn short_text(word: &[u8]) -> ArrayVec<u8, 128>
    requires { length word.now ≤ 128 }
    ensures { result.items ≡ word.now }
{
    let mut text = ArrayVec::new();
    let _fits = text.try_extend_from_slice(word);
    text
}

/// A content: its block, or that it is lost.
pub fn content_text(content: &Content) -> ArrayVec<u8, 128>
    ensures { result.items ≡ content_text content.now }
{
    match content {
        Content::Bytes(bytes) => block_text(bytes),
        Content::Lost => short_text(b"lost"),
    }
}

/// What is shown of a block.
pub fn shown_text(shown: &Shown) -> ArrayVec<u8, 128>
    ensures { result.items ≡ shown_text shown.now }
{
    match shown {
        Shown::Seen(content) => content_text(content),
        Shown::Hidden => short_text(b"hidden"),
    }
}

/// Whether a row is closed.
pub fn row_word(closed: bool) -> &'static [u8]
    ensures { result.now ≡ row_word closed }
{
    if closed { b"closed" } else { b"open" }
}

/// Whether a block is made: 1 or 0.
fn flag(made: u128, block: u8) -> u8
    ensures { result ≡ flag made block }
{
    if block >= 128 {
        return b'0';
    }
    if (made >> block) & 1 == 1 { b'1' } else { b'0' }
}

/// A digit for each of 255 blocks.
pub fn flags(made: u128) -> [u8; 255]
    ensures { result ≡ map (flag made) (range_with_len 0 255) }
{
    let mut digits = [b'0'; 255];
    for block in 0..255u8 {
        digits[block as usize] = flag(made, block);
    }
    digits
}
