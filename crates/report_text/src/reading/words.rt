//! Words and numbers of a line, from its left.
ghost use Rattle.std.specs.Prelude.{◌≡◌, ◌≤◌, ◌<◌, ◌^◌, ◌-◌, IfSome};
ghost use Rattle.report_text.specs.Reading.{Leaves, Parts, Begins, behind, first_word, number_within, number_before, number_behind, pair_behind};

use text_lines::read_number;

/// The greatest host and bay number.
pub const MOST_HOST: u64 = 15;

/// The greatest row number.
pub const MOST_ROW: u64 = 4095;

/// The greatest id or number.
pub const MOST_NUMBER: u64 = (1 << 62) - 1;

/// The greatest moment.
pub const MOST_MOMENT: u64 = (1 << 40) - 1;

/// The greatest count of jobs, turns, blocks and rows.
pub const MOST_COUNT: u64 = (1 << 32) - 1;

/// What stands behind a piece, where the text begins with it.
#[tactic(auto, unfolding(crate::specs::Reading::behind))]
pub fn behind<'a>(text: &'a [u8], piece: &[u8]) -> Option<&'a [u8]>
    ensures { Leaves result (behind piece.now text.now) }
{
    text.strip_prefix(piece)
}

/// The word before the first space, and what stands behind that.
pub fn take_word(text: &[u8]) -> Option<(&[u8], &[u8])>
    ensures { Parts result (first_word text.now) }
{
    for (i, byte) in text.iter().enumerate() {
        if *byte == b' ' {
            return Some((&text[..i], &text[i + 1..]));
        }
    }
    None
}

/// The number that the text is, where it is from `least` to `most`.
#[tactic(auto, unfolding(crate::specs::Reading::number_within))]
pub fn number_within(text: &[u8], least: u64, most: u64) -> Option<u64>
    requires { most < 2 ^ 64 - 1 }
    ensures value { result ≡ number_within least most text.now }
    ensures small { IfSome result (λ n. n ≤ most) }
{
    let number = read_number(text)?;
    if number < least {
        return None;
    }
    if number > most {
        return None;
    }
    Some(number)
}

/// The number before the first space, where it is from `least` to `most`, and what stands behind that.
#[tactic(auto, unfolding(crate::specs::Reading::number_before))]
pub fn number_before(text: &[u8], least: u64, most: u64) -> Option<(u64, &[u8])>
    requires { most < 2 ^ 64 - 1 }
    ensures value { Begins result (number_before least most text.now) }
    ensures small { IfSome result (λ found. found.0 ≤ most) }
{
    let (word, rest) = take_word(text)?;
    let number = number_within(word, least, most)?;
    Some((number, rest))
}

/// The number behind a piece, where the two are the text.
#[tactic(auto, unfolding(crate::specs::Reading::number_behind))]
pub fn number_behind(text: &[u8], piece: &[u8], least: u64, most: u64) -> Option<u64>
    requires { most < 2 ^ 64 - 1 }
    ensures value { result ≡ number_behind piece.now least most text.now }
    ensures small { IfSome result (λ n. n ≤ most) }
{
    let digits = behind(text, piece)?;
    number_within(digits, least, most)
}

/// The two numbers behind a piece, where the three are the text. The first is 15 at most.
#[tactic(auto, unfolding(crate::specs::Reading::pair_behind))]
pub fn pair_behind(text: &[u8], piece: &[u8], least: u64, most: u64) -> Option<(u64, u64)>
    requires { most < 2 ^ 64 - 1 }
    ensures value { result ≡ pair_behind piece.now least most text.now }
    ensures first_small { IfSome result (λ found. found.0 ≤ 15) }
    ensures second_small { IfSome result (λ found. found.1 ≤ most) }
{
    let words = behind(text, piece)?;
    let (first, digits) = number_before(words, 0, MOST_HOST)?;
    let second = number_within(digits, least, most)?;
    Some((first, second))
}
