//! Names that are numbers, joined by dots.
ghost use Rattle.std.specs.Prelude.{◌≡◌, ◌≤◌, ◌*◌, ◌++◌, IsTrue, length, take, IfOk, IfErr, OnOk, OnErr};
ghost use Rattle.std.specs.List.{list_all};
ghost use Rattle.sgb_graph.specs.Text.{is_text_byte};
ghost use Rattle.sgb_plan.specs.Name.{dotted};
ghost use Rattle.sgb_plan.specs.Private.Bytes.{IsShort};

use crate::append::append_count;
use crate::text::text_of;
use sgb_graph::{Refusal, Text};
use std::alloc::{AllocError, Global};

/// The name of these numbers: in decimal, joined by dots.
pub fn dotted(alloc: Global, parts: &[u32]) -> Result<Text, Refusal>
    requires few { length parts.now ≤ 372 }
    ensures value { IfOk result (λ name. name ≡ dotted parts.now) }
    ensures err { IfErr result (λ e. e ≡ Refusal.NoRoom) }
{
    let mut bytes = Vec::new(alloc);
    append_dotted(&mut bytes, parts)?;
    text_of(alloc, &bytes)
}

/// Writes the name of these numbers behind the bytes, so that many names can stand in one buffer.
pub fn append_dotted(bytes: &mut Vec<u8>, parts: &[u32]) -> Result<(), AllocError>
    ensures ok { OnOk result (bytes.new.items ≡ bytes.old.items ++ dotted parts.now) }
    ensures err { OnErr result (bytes.new.items ≡ bytes.old.items) }
    ensures short { OnOk result (length (dotted parts.now) ≤ 11 * length parts.now) }
    ensures text { OnOk result (IsTrue (list_all is_text_byte (dotted parts.now))) }
{
    let before = bytes.len();
    let result = append_numbers(bytes, parts);
    if result.is_err() {
        bytes.truncate(before);
    }
    result
}

// Writes the numbers, joined by dots. Where memory is wanting, some of them may be written.
fn append_numbers(bytes: &mut Vec<u8>, parts: &[u32]) -> Result<(), AllocError>
    ensures kept { take (length bytes.old.items) bytes.new.items ≡ bytes.old.items }
    ensures ok { OnOk result (bytes.new.items ≡ bytes.old.items ++ dotted parts.now) }
    ensures short { OnOk result (IsShort (11 * length parts.now) (dotted parts.now)) }
{
    let Some((first, rest)) = parts.split_first() else {
        return Ok(());
    };
    append_count(bytes, *first)?;
    for part in rest {
        bytes.push(b'.')?;
        append_count(bytes, *part)?;
    }
    Ok(())
}
