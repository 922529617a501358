//! Contents, flags and what is shown of blocks, read from words.
ghost use Rattle.std.specs.Prelude.{◌≡◌, ◌≤◌, ◌++◌, ◌∷◌, [], IfOk, IfSome, length};
ghost use Rattle.std.specs.List.{list_all};
ghost use Rattle.report_text.specs.Reading.{Lists, is_flag, bit_of, block_of, made_of, flags_of, content_of, shown_of, contents_of};

use crate::reading::words::take_word;
use raid_base::{Content, NoMemory, Shown};
use std::alloc::Global;
use text_lines::read_block;

/// The greatest number of blocks of a job.
const MOST_BLOCKS: usize = 120;

/// The block that the word is.
fn block_of(word: &[u8]) -> Option<[u8; 64]>
    ensures { result ≡ block_of word.now }
{
    read_block(word)
}

/// The content that the word is.
#[tactic(auto, unfolding(crate::specs::Reading::content_of))]
pub fn read_content(word: &[u8]) -> Option<Content>
    ensures { result ≡ content_of word.now }
{
    if word == b"lost".as_slice() {
        return Some(Content::Lost);
    }
    let bytes = block_of(word)?;
    Some(Content::Bytes(bytes))
}

/// What is shown of a block, by the word that tells it.
#[tactic(auto, unfolding(crate::specs::Reading::shown_of))]
pub fn read_shown(word: &[u8]) -> Option<Shown>
    ensures { result ≡ shown_of word.now }
{
    if word == b"hidden".as_slice() {
        return Some(Shown::Hidden);
    }
    let content = read_content(word)?;
    Some(Shown::Seen(content))
}

fn push_content(contents: &mut Vec<Content>, content: Content) -> Result<(), NoMemory>
    ensures { IfOk result (λ _. contents.new.items ≡ contents.old.items ++ content ∷ []) }
{
    match contents.push(content) {
        Ok(()) => Ok(()),
        Err(_) => Err(NoMemory),
    }
}

/// The contents that the words are, 1 to 120.
#[tactic(auto, unfolding(crate::specs::Reading::contents_of))]
pub fn read_contents(alloc: Global, text: &[u8]) -> Result<Option<Vec<Content>>, NoMemory>
    ensures { IfOk result (λ found. Lists found (contents_of text.now)) }
{
    let mut contents = Vec::new(alloc);
    let mut left = text;
    while let Some((word, rest)) = take_word(left) {
        let Some(content) = read_content(word) else {
            return Ok(None);
        };
        push_content(&mut contents, content)?;
        left = rest;
    }
    let Some(content) = read_content(left) else {
        return Ok(None);
    };
    push_content(&mut contents, content)?;
    if contents.len() > MOST_BLOCKS {
        return Ok(None);
    }
    Ok(Some(contents))
}

fn are_flags(digits: &[u8]) -> bool
    ensures { result ≡ list_all is_flag digits.now }
{
    digits.iter().all(|digit| *digit == b'0' || *digit == b'1')
}

/// 1 for the digit 1, and else 0.
fn bit_of(digit: u8) -> u128
    ensures { result ≡ bit_of digit }
{
    if digit == b'1' { 1 } else { 0 }
}

/// The blocks that the digits name: the first digit tells of block 0, the lowest bit.
fn made_of(digits: &[u8]) -> u128
    requires { length digits.now ≤ 120 }
    ensures { result ≡ made_of digits.now }
{
    let mut made = 0;
    let mut left = digits.len();
    while left > 0 {
        left -= 1;
        made = 2 * made + bit_of(digits[left]);
    }
    made
}

/// The blocks that are made, by 1 to 120 digits.
#[tactic(auto, unfolding(crate::specs::Reading::flags_of))]
pub fn read_flags(digits: &[u8]) -> Option<u128>
    ensures value { result ≡ flags_of digits.now }
    ensures few { IfSome result (λ _. length digits.now ≤ 120) }
{
    if digits.is_empty() || digits.len() > MOST_BLOCKS {
        return None;
    }
    if !are_flags(digits) {
        return None;
    }
    Some(made_of(digits))
}
