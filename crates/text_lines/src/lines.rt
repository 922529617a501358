//! Lines, each ended by a byte 0A, and what stands on them behind a label.
ghost use Rattle.std.specs.Prelude.{◌≡◌, ◌↔◌, ◌++◌, ◌∷◌, ◌^◌, ◌-◌, ℕ, List, IsNone, IfSome, Some, min};
ghost use Rattle.text_lines.specs.Lines.{IsLine};
ghost use Rattle.text_lines.specs.Numbers.{IsNumber, number_of};

use crate::numbers::read_number;

/// The first line of a text, without the byte that ends it.
#[derive(Clone, Copy)]
pub struct FirstLine<'a> {
    pub line: &'a [u8],
    pub rest: &'a [u8],
}

/// The first line and what stands behind it, and none where no byte 0A ends it.
pub fn first_line(text: &[u8]) -> Option<FirstLine<'_>>
    ensures some { IfSome result (λ first. IsLine first.line.now × (text.now ≡ first.line.now ++ 10 ∷ first.rest.now)) }
    ensures none { IsNone result ↔ IsLine text.now }
{
    for (i, byte) in text.iter().enumerate() {
        if *byte == b'\n' {
            return Some(FirstLine {
                line: &text[..i],
                rest: &text[i + 1..],
            });
        }
    }
    None
}

/// The number behind a label, which makes up the line with it.
///
/// A number above the greatest u64 is read as that.
pub fn read_labelled(line: &[u8], label: &[u8]) -> Option<u64>
    ensures of_text { (digits : List ℕ) → IsNumber digits → line.now ≡ label.now ++ digits → result ≡ Some (min (number_of digits) (2 ^ 64 - 1)) }
    ensures some { IfSome result (λ n. (digits : List ℕ) × IsNumber digits × (line.now ≡ label.now ++ digits) × (n ≡ min (number_of digits) (2 ^ 64 - 1))) }
{
    let digits = line.strip_prefix(label)?;
    read_number(digits)
}
