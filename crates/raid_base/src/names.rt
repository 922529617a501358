//! Names of objects.
ghost use Rattle.std.specs.Prelude.{◌≡◌, ◌↔◌, ◌≤◌, IsSome, IfSome, IsTrue, length};
ghost use Rattle.raid_base.specs.Names.{IsNameText, is_name, is_letter, is_name_byte, filled};
ghost use Rattle.std.specs.List.{list_all};

use std::marker::Model;

/// The greatest length of a name, in bytes.
pub const NAME_LENGTH: usize = 16;

/// The name of an object: a lower-case letter, then lower-case letters or digits, 1 to 16 bytes in all.
///
/// Contracts see it as its text, a list of bytes. The unused bytes are zeros, so that names of one text are one value.
#[derive(Clone, Copy, Debug)]
pub struct Name {
    bytes: [u8; 16],
    len: usize,
}

impl Model for Name {
    ghost use Rattle.std.specs.Prelude.{◌≡◌, ◌-◌, ◌++◌, ℕ, List, take, length, replicate};
    ghost use Rattle.raid_base.specs.Names.{IsNameText, filled, filled-back};

    ghost Value = { List ℕ };

    ghost view = { λ n. take n.len n.bytes };

    ghost invariant = { λ n. (length (take n.len n.bytes) ≡ n.len) × (n.bytes ≡ filled (take n.len n.bytes)) × IsNameText (take n.len n.bytes) };

    ghost inverse = { λ text. record { bytes = filled text; len = length text } };

    ghost inverse_ok = { λ n h i. record { bytes = filled-back n.bytes n.len h.1 i; len = h.0 i } };
}

impl PartialEq for Name {
    ghost use Rattle.std.specs.Prelude.{nat_eq};
    ghost use Rattle.std.specs.Cmp.{partial_equiv_from_equiv};
    ghost use Rattle.std.specs.Cmp.Lexicographic.{pointwise, nat_list_eq_equiv};

    ghost eq = { λ s t. pointwise nat_eq s t };

    ghost laws = { partial_equiv_from_equiv nat_list_eq_equiv };

    fn eq(&self, other: &Name) -> bool {
        self.as_bytes() == other.as_bytes()
    }
}

impl Eq for Name {
    ghost use Rattle.std.specs.Cmp.Lexicographic.{nat_list_eq_equiv};

    ghost laws = { nat_list_eq_equiv };
}

fn is_letter(byte: u8) -> bool
    ensures { result ≡ is_letter byte }
{
    byte >= b'a' && byte <= b'z'
}

fn is_name_byte(byte: u8) -> bool
    ensures { result ≡ is_name_byte byte }
{
    is_letter(byte) || (byte >= b'0' && byte <= b'9')
}

fn are_name_bytes(bytes: &[u8]) -> bool
    ensures { result ≡ list_all is_name_byte bytes.now }
{
    bytes.iter().all(|byte| is_name_byte(*byte))
}

/// Whether the bytes are the text of a name.
pub fn is_name(text: &[u8]) -> bool
    ensures { result ≡ is_name text.now }
{
    if text.is_empty() || text.len() > NAME_LENGTH {
        return false;
    }
    is_letter(text[0]) && are_name_bytes(text)
}

/// The text with zeros behind it.
fn filled(text: &[u8]) -> [u8; 16]
    requires { length text.now ≤ 16 }
    ensures { result ≡ filled text.now }
{
    let mut bytes = [0; 16];
    for i in 0..text.len() {
        bytes[i] = text[i];
    }
    bytes
}

impl Name {
    /// The name of this text.
    pub fn new(text: &[u8]) -> Option<Name>
        ensures some { IsSome result ↔ IsNameText text.now }
        ensures value { IfSome result (λ name. name ≡ text.now) }
    {
        if !is_name(text) {
            return None;
        }
        Some(Name {
            bytes: filled(text),
            len: text.len(),
        })
    }

    /// Its text.
    pub fn as_bytes(&self) -> &[u8]
        ensures value { result.now ≡ self.now }
        ensures name { IsNameText result.now }
    {
        &self.bytes[..self.len]
    }
}
