//! Texts: the bytes of ids, labels and fields.
ghost use Rattle.std.specs.Prelude.{◌≡◌, ◌<◌, ◌≤◌, length, IfOk, IfErr, IsErr, ◌⊎◌, []};
ghost use Rattle.std.specs.Result.{IsErrOf};
ghost use Rattle.std.specs.List.{list_all};
ghost use Rattle.sgb_graph.specs.Text.{IsText, is_text_byte};

use crate::Refusal;
use std::alloc::{AllocError, Global};
use std::marker::Model;

/// At most 4,095 printable ASCII bytes, none of them `"` or `\`.
#[derive(Debug, Drop)]
pub struct Text {
    bytes: Box<Vec<u8>>,
}

impl Model for Text {
    ghost use Rattle.std.specs.Prelude.{List, ℕ};
    ghost use Rattle.sgb_graph.specs.Text.{IsText};

    ghost Value = { List ℕ };

    ghost view = { λ t. t.bytes.value.items };

    ghost invariant = { λ t. IsText t.bytes.value.items };
}

impl PartialEq for Text {
    ghost use Rattle.std.proofs.Common.{rules};
    ghost use Rattle.std.specs.Prelude.{◌==◌};
    ghost use Rattle.std.specs.Cmp.Lexicographic.{pointwise};
    ghost use Rattle.std.specs.Cmp.Rules.{comparing};

    ghost eq = { pointwise ◌==◌ };

    ghost laws = { Prim.search (comparing, rules) };

    fn eq(&self, other: &Text) -> bool {
        self.bytes() == other.bytes()
    }
}

impl Eq for Text {
    ghost use Rattle.std.proofs.Common.{rules};
    ghost use Rattle.std.specs.Cmp.Rules.{comparing};

    ghost laws = { Prim.search (comparing, rules) };
}

impl Text {
    /// The text of these bytes, copied. Refused `BadOperand` where they are no text.
    pub fn new(alloc: Global, bytes: &[u8]) -> Result<Text, Refusal>
        ensures ok { IfOk result (λ t. (t ≡ bytes.now) × IsText bytes.now) }
        ensures err { IfErr result
            (λ e. (e ≡ Refusal.NoRoom) ⊎ ((e ≡ Refusal.BadOperand) × ¬ IsText bytes.now)) }
        ensures room { IsErrOf result Refusal.NoRoom → IsText bytes.now }
    {
        if bytes.len() > 4095 || !are_text_bytes(bytes) {
            return Err(Refusal::BadOperand);
        }
        let copy = Vec::from_slice(alloc, bytes)?;
        Ok(Text {
            bytes: Box::new(alloc, copy)?,
        })
    }

    // The text of these bytes, which are one.
    pub(crate) fn from_bytes(alloc: Global, bytes: Vec<u8>) -> Result<Text, AllocError>
        requires { IsText bytes.items }
        ensures { IfOk result (λ t. t ≡ bytes.items) }
    {
        Ok(Text {
            bytes: Box::new(alloc, bytes)?,
        })
    }

    /// The bytes.
    pub fn bytes(&self) -> &[u8]
        ensures value { result.now ≡ self.now }
        ensures text { IsText self.now }
    {
        self.bytes.as_slice()
    }
}

fn is_text_byte(byte: u8) -> bool
    ensures { result ≡ is_text_byte byte }
{
    byte >= b' ' && byte <= b'~' && byte != b'"' && byte != b'\\'
}

// Looks at all of them, whatever it meets: so many are looked at together.
fn are_text_bytes(bytes: &[u8]) -> bool
    ensures { result ≡ list_all is_text_byte bytes.now }
{
    let mut all = true;
    'bytes: for byte in bytes {
        all = all & is_text_byte(*byte);
    }
    all
}

/// The most bytes of a name that takes no memory.
const SHORT: usize = 14;

/// A vertex's name. One of at most 14 bytes takes no memory.
#[derive(Debug, Drop)]
pub struct Label {
    kept: Kept,
}

// The bytes of a name: in place, behind how many they are, where they are few.
#[derive(Debug, Drop)]
enum Kept {
    Short(u8, [u8; SHORT]),
    Long(Text),
}

impl Model for Label {
    ghost use Rattle.std.specs.Prelude.{List, ℕ};
    ghost use Rattle.sgb_graph.specs.Private.Label.{bytes_of, IsKept};

    ghost Value = { List ℕ };

    ghost view = { λ l. bytes_of l.kept };

    ghost invariant = { λ l. IsKept l.kept };
}

impl PartialEq for Label {
    ghost use Rattle.std.proofs.Common.{rules};
    ghost use Rattle.std.specs.Prelude.{◌==◌};
    ghost use Rattle.std.specs.Cmp.Lexicographic.{pointwise};
    ghost use Rattle.std.specs.Cmp.Rules.{comparing};

    ghost eq = { pointwise ◌==◌ };

    ghost laws = { Prim.search (comparing, rules) };

    fn eq(&self, other: &Label) -> bool {
        self.bytes() == other.bytes()
    }
}

impl Eq for Label {
    ghost use Rattle.std.proofs.Common.{rules};
    ghost use Rattle.std.specs.Cmp.Rules.{comparing};

    ghost laws = { Prim.search (comparing, rules) };
}

impl Label {
    /// The empty label.
    pub fn empty() -> Label
        ensures { result ≡ [] }
    {
        Label {
            kept: Kept::Short(0, [0; SHORT]),
        }
    }

    /// The label of this text.
    pub fn new(text: Text) -> Label
        ensures value { result ≡ text }
        ensures text { IsText text }
    {
        let _ = text.bytes();
        Label {
            kept: Kept::Long(text),
        }
    }

    /// The label of these bytes, copied, which takes memory where they are more than 14. Refused `BadOperand` where they
    /// are no text.
    pub fn from_bytes(alloc: Global, bytes: &[u8]) -> Result<Label, Refusal>
        ensures ok { IfOk result (λ l. (l ≡ bytes.now) × IsText bytes.now) }
        ensures err { IfErr result
            (λ e. (e ≡ Refusal.NoRoom) ⊎ ((e ≡ Refusal.BadOperand) × ¬ IsText bytes.now)) }
        ensures room { IsErrOf result Refusal.NoRoom → IsText bytes.now × (14 < length bytes.now) }
    {
        if bytes.len() > SHORT {
            return Ok(Label::new(Text::new(alloc, bytes)?));
        }
        if !are_text_bytes(bytes) {
            return Err(Refusal::BadOperand);
        }
        Ok(Label::short(bytes))
    }

    /// The label of these bytes, which are a text, copied. Takes memory where they are more than 14.
    pub fn from_text(alloc: Global, bytes: &[u8]) -> Result<Label, AllocError>
        requires { IsText bytes.now }
        ensures value { IfOk result (λ l. l ≡ bytes.now) }
        ensures room { IsErr result → 14 < length bytes.now }
    {
        if bytes.len() <= SHORT {
            return Ok(Label::short(bytes));
        }
        let copy = Vec::from_slice(alloc, bytes)?;
        Ok(Label::new(Text::from_bytes(alloc, copy)?))
    }

    // The label of these bytes, which are few.
    fn short(bytes: &[u8]) -> Label
        requires text { IsText bytes.now }
        requires few { length bytes.now ≤ 14 }
        ensures { result ≡ bytes.now }
    {
        let mut kept = [0; SHORT];
        let (front, _) = kept.split_at_mut(bytes.len());
        front.copy_from_slice(bytes);
        Label {
            kept: Kept::Short(bytes.len() as u8, kept),
        }
    }

    /// The bytes.
    pub fn bytes(&self) -> &[u8]
        ensures value { result.now ≡ self.now }
        ensures text { IsText self.now }
    {
        match &self.kept {
            Kept::Short(len, bytes) => {
                let (front, _) = bytes.split_at(*len as usize);
                front
            }
            Kept::Long(text) => text.bytes(),
        }
    }
}
