//! Writes the parts of names and ids behind bytes.
ghost use Rattle.std.specs.Prelude.{◌≡◌, ◌++◌, length, codes, decimal, OnOk, OnErr, if◌then◌else◌};
ghost use Rattle.std.specs.Fmt.{signed_decimal};
ghost use Rattle.sgb_plan.specs.Id.{part_text, seed_text, hexadecimal, widest};
ghost use Rattle.sgb_plan.specs.Private.Bytes.{IsShort};

use crate::{Part, Seed};
use itoa::Buffer;
use sgb_graph::Text;
use std::alloc::AllocError;

// Writes a part of an id.
pub(crate) fn append_part(bytes: &mut Vec<u8>, part: &Part<'_>) -> Result<(), AllocError>
    ensures ok { OnOk result (bytes.new.items ≡ bytes.old.items ++ part_text part.now) }
    ensures short { IsShort (widest part.now) (part_text part.now) }
{
    match part {
        Part::Number(number) => append_number(bytes, *number),
        Part::Count(count) => append_count(bytes, *count),
        Part::Flag(flag) => append_flag(bytes, *flag),
        Part::Bits(bits) => append_bits(bytes, *bits),
        Part::Drawn(seed) => append_seed(bytes, *seed),
        Part::Word(text) => append_text(bytes, text),
    }
}

// Writes the number in decimal.
fn append_number(bytes: &mut Vec<u8>, number: i64) -> Result<(), AllocError>
    ensures ok { OnOk result (bytes.new.items ≡ bytes.old.items ++ signed_decimal number) }
    ensures short { IsShort 20 (signed_decimal number) }
{
    let mut digits = Buffer::new();
    bytes.extend_from_slice(digits.format(number).as_bytes())
}

// Writes the count in decimal. Those of vertices have at most five digits, which are told apart without a loop.
pub(crate) fn append_count(bytes: &mut Vec<u8>, count: u32) -> Result<(), AllocError>
    ensures ok { OnOk result (bytes.new.items ≡ bytes.old.items ++ decimal count) }
    ensures err { OnErr result (bytes.new.items ≡ bytes.old.items) }
    ensures short { IsShort 10 (decimal count) }
{
    if count >= 100_000 {
        return append_large(bytes, count);
    }
    let ones = b'0' + (count % 10) as u8;
    if count < 10 {
        return bytes.extend_from_slice(&[ones]);
    }
    let tens = b'0' + (count / 10 % 10) as u8;
    if count < 100 {
        return bytes.extend_from_slice(&[tens, ones]);
    }
    let hundreds = b'0' + (count / 100 % 10) as u8;
    if count < 1000 {
        return bytes.extend_from_slice(&[hundreds, tens, ones]);
    }
    let thousands = b'0' + (count / 1000 % 10) as u8;
    if count < 10_000 {
        return bytes.extend_from_slice(&[thousands, hundreds, tens, ones]);
    }
    let front = b'0' + (count / 10_000) as u8;
    bytes.extend_from_slice(&[front, thousands, hundreds, tens, ones])
}

// The same of a count of any length.
fn append_large(bytes: &mut Vec<u8>, count: u32) -> Result<(), AllocError>
    ensures ok { OnOk result (bytes.new.items ≡ bytes.old.items ++ decimal count) }
    ensures err { OnErr result (bytes.new.items ≡ bytes.old.items) }
{
    let mut digits = Buffer::new();
    bytes.extend_from_slice(digits.format(count).as_bytes())
}

// Writes 1 for yes and 0 for no.
fn append_flag(bytes: &mut Vec<u8>, flag: bool) -> Result<(), AllocError>
    ensures ok { OnOk result (bytes.new.items ≡ bytes.old.items ++ (if flag then codes "1" else codes "0")) }
    ensures short { IsShort 1 (if flag then codes "1" else codes "0") }
{
    if flag {
        bytes.extend_from_slice(b"1")
    } else {
        bytes.extend_from_slice(b"0")
    }
}

// Writes the number in hexadecimal, behind `0x`.
fn append_bits(bytes: &mut Vec<u8>, bits: u64) -> Result<(), AllocError>
    ensures ok { OnOk result (bytes.new.items ≡ bytes.old.items ++ hexadecimal bits) }
    ensures short { IsShort 18 (hexadecimal bits) }
{
    let alloc = *bytes.allocator();
    let digits = format!(in alloc; "0x{bits:x}")?;
    bytes.extend_from_slice(digits.as_bytes())
}

// Writes the seed's number, or `-` for the generator as it stands.
fn append_seed(bytes: &mut Vec<u8>, seed: Seed) -> Result<(), AllocError>
    ensures ok { OnOk result (bytes.new.items ≡ bytes.old.items ++ seed_text seed) }
    ensures short { IsShort 20 (seed_text seed) }
{
    match seed {
        Seed::Number(number) => append_number(bytes, number),
        Seed::Current => bytes.extend_from_slice(b"-"),
    }
}

// Writes the text as it stands.
fn append_text(bytes: &mut Vec<u8>, text: &Text) -> Result<(), AllocError>
    ensures ok { OnOk result (bytes.new.items ≡ bytes.old.items ++ text.now) }
    ensures short { IsShort (length text.now) text.now }
{
    bytes.extend_from_slice(text.bytes())
}
