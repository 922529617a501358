//! Decimal numbers, without leading zeros.
ghost use Rattle.std.specs.Prelude.{◌≡◌, ◌↔◌, ◌^◌, ◌-◌, ◌<◌, true, ℕ, IsSome, IfSome, Some, min, decimal};
ghost use Rattle.std.specs.List.{list_all};
ghost use Rattle.raid_base.specs.Names.{is_digit};
ghost use Rattle.text_lines.specs.Numbers.{IsNumber, is_number, number_of};

use arrayvec::ArrayVec;

/// The digits of a number.
pub fn number_text(number: u64) -> ArrayVec<u8, 40>
    ensures { result.items ≡ decimal number }
{
    let mut buffer = itoa::Buffer::new();
    let mut text = ArrayVec::new();
    let _fits = text.try_extend_from_slice(buffer.format(number).as_bytes());
    text
}

fn are_digits(text: &[u8]) -> bool
    ensures { result ≡ list_all is_digit text.now }
{
    text.iter().all(|byte| *byte >= b'0' && *byte <= b'9')
}

/// Whether the bytes are the text of a number, of any size.
pub fn is_number(text: &[u8]) -> bool
    ensures { result ≡ is_number text.now }
{
    if text.is_empty() || !are_digits(text) {
        return false;
    }
    text.len() == 1 || text[0] != b'0'
}

/// The number that the digits write, or the greatest u64 where it is above that.
fn value_of(digits: &[u8]) -> u64
    requires { list_all is_digit digits.now ≡ true }
    ensures { result ≡ min (number_of digits.now) (2 ^ 64 - 1) }
{
    let mut value: u64 = 0;
    for digit in digits {
        value = value
            .saturating_mul(10)
            .saturating_add(u64::from(*digit - b'0'));
    }
    value
}

/// The number of a text, and none where it is no number's text.
///
/// A number above the greatest u64 is read as that, so that a caller with a smaller bound refuses it.
pub fn read_number(text: &[u8]) -> Option<u64>
    ensures some { IsSome result ↔ IsNumber text.now }
    ensures value { IfSome result (λ n. n ≡ min (number_of text.now) (2 ^ 64 - 1)) }
    ensures text { IfSome result (λ n. n < 2 ^ 64 - 1 → text.now ≡ decimal n) }
    ensures of_text { (n : ℕ) → n < 2 ^ 64 → text.now ≡ decimal n → result ≡ Some n }
{
    if is_number(text) {
        Some(value_of(text))
    } else {
        None
    }
}
