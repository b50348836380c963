//! The names of graphs.
ghost use Rattle.std.specs.Prelude.{◌≡◌, IfSome, IfNone, IsTrue, slice_index};
ghost use Rattle.std.specs.List.{list_all};
ghost use Rattle.sgb_script.specs.Name.{is_name, is_letter, is_name_byte};

use std::marker::Model;

/// The most bytes of a name.
pub const NAME_LIMIT: usize = 32;

/// The name of a graph in a session: a letter, then letters, digits and `_`, at most 32 bytes in all. It is stored in
/// place, and is `Copy`.
#[derive(Clone, Copy, Debug)]
pub struct Name {
    // The bytes of the name, padded with zeros.
    bytes: [u8; NAME_LIMIT],
    len: u8,
}

impl Model for Name {
    ghost use Rattle.std.specs.Prelude.{List, ℕ, ◌++◌, ◌-◌, take, length, replicate};
    ghost use Rattle.sgb_script.specs.Private.Padding.{IsPadded};

    ghost Value = { List ℕ };

    ghost view = { λ n. take n.len n.bytes };

    ghost invariant = { λ n. IsPadded n.len n.bytes };

    ghost inverse = { λ t. record { bytes = t ++ replicate (32 - length t) 0; len = length t } };

    ghost use Rattle.sgb_script.specs.Private.Padding.{bytes_back, len_back};

    ghost inverse_ok = { λ n h i. record {
      bytes = bytes_back n.len n.bytes h i;
      len = len_back n.len n.bytes h i;
    } };
}

impl PartialEq for Name {
    ghost use Rattle.std.proofs.Common.{rules};
    ghost use Rattle.std.specs.Prelude.{◌==◌};
    ghost use Rattle.std.specs.Cmp.Lexicographic.{pointwise};
    ghost use Rattle.std.specs.Cmp.Rules.{comparing};

    ghost eq = { pointwise ◌==◌ };

    ghost laws = { Prim.search (comparing, rules) };

    fn eq(&self, other: &Name) -> bool {
        self.bytes() == other.bytes()
    }
}

impl Eq for Name {
    ghost use Rattle.std.proofs.Common.{rules};
    ghost use Rattle.std.specs.Cmp.Rules.{comparing};

    ghost laws = { Prim.search (comparing, rules) };
}

impl Name {
    /// The name that these bytes spell, or `None` if they are not a name.
    pub fn new(bytes: &[u8]) -> Option<Name>
        ensures some { IfSome result (λ n. n ≡ bytes.now) }
        ensures when { IfSome result (λ _. IsTrue (is_name bytes.now)) }
        ensures none { IfNone result (IsTrue (is_name bytes.now) → ⊥) }
    {
        if !is_name(bytes) {
            return None;
        }
        let mut padded = [0; NAME_LIMIT];
        padded[..bytes.len()].copy_from_slice(bytes);
        Some(Name {
            bytes: padded,
            len: bytes.len() as u8,
        })
    }

    /// The bytes of the name.
    pub fn bytes(&self) -> &[u8]
        ensures value { result.now ≡ self.now }
        ensures name { IsTrue (is_name self.now) }
    {
        &self.bytes[..usize::from(self.len)]
    }
}

fn is_name(bytes: &[u8]) -> bool
    ensures { result ≡ is_name bytes.now }
{
    if bytes.len() > NAME_LIMIT {
        return false;
    }
    begins_with_letter(bytes) && are_name_bytes(bytes)
}

fn begins_with_letter(bytes: &[u8]) -> bool
    ensures { result ≡ is_letter (slice_index bytes.now 0) }
{
    match bytes.first() {
        Some(first) => is_letter(*first),
        None => false,
    }
}

fn are_name_bytes(bytes: &[u8]) -> bool
    ensures { result ≡ list_all is_name_byte bytes.now }
{
    bytes.iter().all(|byte| is_name_byte(*byte))
}

fn is_letter(byte: u8) -> bool
    ensures { result ≡ is_letter byte }
{
    matches!(byte, b'A'..=b'Z' | b'a'..=b'z')
}

fn is_name_byte(byte: u8) -> bool
    ensures { result ≡ is_name_byte byte }
{
    is_letter(byte) || matches!(byte, b'0'..=b'9' | b'_')
}
