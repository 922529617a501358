//! Blocks in hexadecimal digits: two for 64 equal bytes, and else 128.
ghost use Rattle.std.specs.Prelude.{◌≡◌, ◌≤◌, ◌<◌, ◌∷◌, [], ℕ, List, IfSome, Some, length, replicate};
ghost use Rattle.hex.specs.Hex.{encode_lower};
ghost use Rattle.text_lines.specs.Blocks.{IsBlock, are_equal, block_text};

use arrayvec::ArrayVec;

fn are_equal(block: &[u8; 64]) -> bool
    ensures { result ≡ are_equal block.now }
{
    let first = block[0];
    block.iter().all(|byte| *byte == first)
}

/// The bytes in lower-case hexadecimal digits.
fn hex_text(bytes: &[u8]) -> ArrayVec<u8, 128>
    requires { length bytes.now ≤ 64 }
    ensures { result.items ≡ encode_lower bytes.now }
{
    let mut digits = [0; 128];
    let end = 2 * bytes.len();
    let _written = hex::encode_to_slice(bytes, &mut digits[..end]);
    let mut text = ArrayVec::new();
    let _fits = text.try_extend_from_slice(&digits[..end]);
    text
}

/// The text of a block.
pub fn block_text(block: &[u8; 64]) -> ArrayVec<u8, 128>
    ensures block { IsBlock block.now }
    ensures text { result.items ≡ block_text block.now }
{
    if are_equal(block) {
        hex_text(&block[..1])
    } else {
        hex_text(block)
    }
}

/// 64 bytes of which each is that of the two digits.
fn repeated(text: &[u8]) -> Option<[u8; 64]>
    ensures { (byte : ℕ) → byte < 256 → text.now ≡ encode_lower (byte ∷ []) → result ≡ Some (replicate 64 byte) }
{
    let mut byte = [0; 1];
    match hex::decode_to_slice(text, &mut byte) {
        Ok(()) => Some([byte[0]; 64]),
        Err(_) => None,
    }
}

/// The 64 bytes of 128 digits.
fn decoded(text: &[u8]) -> Option<[u8; 64]>
    ensures { (block : List ℕ) → IsBlock block → text.now ≡ encode_lower block → result ≡ Some block }
{
    let mut block = [0; 64];
    match hex::decode_to_slice(text, &mut block) {
        Ok(()) => Some(block),
        Err(_) => None,
    }
}

/// The block that the digits would tell, if they are a block's text.
fn candidate(text: &[u8]) -> Option<[u8; 64]>
    ensures { (block : List ℕ) → IsBlock block → text.now ≡ block_text block → result ≡ Some block }
{
    if text.len() == 2 {
        repeated(text)
    } else {
        decoded(text)
    }
}

/// The block of a text, and none where it is no block's text.
pub fn read_block(text: &[u8]) -> Option<[u8; 64]>
    ensures block { IfSome result IsBlock }
    ensures text { IfSome result (λ block. text.now ≡ block_text block) }
    ensures of_text { (block : List ℕ) → IsBlock block → text.now ≡ block_text block → result ≡ Some block }
{
    let block = candidate(text)?;
    if block_text(&block).as_slice() == text {
        Some(block)
    } else {
        None
    }
}
