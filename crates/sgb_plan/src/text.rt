//! Texts and labels of bytes that are known to be a text.
ghost use Rattle.std.specs.Prelude.{◌≡◌, IfOk, IfErr};
ghost use Rattle.sgb_graph.specs.Text.{IsText};

use sgb_graph::{Label, Refusal, Text};
use std::alloc::Global;

/// The text of these bytes, copied.
pub fn text_of(alloc: Global, bytes: &[u8]) -> Result<Text, Refusal>
    requires { IsText bytes.now }
    ensures value { IfOk result (λ text. text ≡ bytes.now) }
    ensures err { IfErr result (λ e. e ≡ Refusal.NoRoom) }
{
    Text::new(alloc, bytes)
}

/// The label of these bytes, copied. No more than 14 take no memory.
#[inline]
pub fn label_of(alloc: Global, bytes: &[u8]) -> Result<Label, Refusal>
    requires { IsText bytes.now }
    ensures value { IfOk result (λ label. label ≡ bytes.now) }
    ensures err { IfErr result (λ e. e ≡ Refusal.NoRoom) }
{
    Ok(Label::from_text(alloc, bytes)?)
}
