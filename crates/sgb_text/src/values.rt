//! The items of a record, as they are written.
ghost use Rattle.std.specs.Prelude.{◌≡◌, ◌≤◌, ◌++◌, ◌∷◌, [], length, OnOk, not, ◌==◌, if◌then◌else◌, FitsSigned};
ghost use Rattle.std.specs.Int.{w64};
ghost use Rattle.std.specs.List.{list_any};
ghost use Rattle.std.specs.Fmt.{decimal, signed_decimal};
ghost use Rattle.sgb_text.specs.Layout.{comma_if};
ghost use Rattle.sgb_text.specs.Clean.{cleaned};
ghost use Rattle.sgb_text.specs.Save.{quoted, link_text, tip_text, value_text};
ghost use Rattle.sgb_text.specs.Private.Page.{with_item};

use crate::page::Page;
use itoa::Buffer;
use sgb_graph::{ArcNo, Tip, Util};
use std::alloc::AllocError;

/// Writes a text in quotes.
pub(crate) fn put_text(page: &mut Page, bytes: &[u8], more: bool) -> Result<(), AllocError>
    requires { length bytes.now ≤ 4095 }
    ensures { OnOk result (page.new ≡ with_item page.old (comma_if more (quoted bytes.now))) }
{
    page.item(b"\"", bytes, closing(more))
}

/// Writes a count.
pub(crate) fn put_count(page: &mut Page, count: u32, more: bool) -> Result<(), AllocError>
    ensures { OnOk result (page.new ≡ with_item page.old (comma_if more (decimal count))) }
{
    put_numbered(page, b"", count, more)
}

/// Writes a number.
pub(crate) fn put_number(page: &mut Page, number: i64, more: bool) -> Result<(), AllocError>
    ensures { OnOk result (page.new ≡ with_item page.old (comma_if more (signed_decimal number))) }
{
    let mut digits = Buffer::new();
    page.item(b"", digits.format(number).as_bytes(), comma(more))
}

/// Writes the number of an arc, or 0 where there is none.
pub(crate) fn put_link(page: &mut Page, link: Option<ArcNo>, more: bool) -> Result<(), AllocError>
    ensures { OnOk result (page.new ≡ with_item page.old (comma_if more (link_text link))) }
{
    match link {
        Some(number) => put_numbered(page, b"A", number.0, more),
        None => page.item(b"", b"0", comma(more)),
    }
}

/// Writes where an arc leads.
pub(crate) fn put_tip(page: &mut Page, tip: Tip, more: bool) -> Result<(), AllocError>
    ensures { OnOk result (page.new ≡ with_item page.old (comma_if more (tip_text tip))) }
{
    match tip {
        Tip::Zero => page.item(b"", b"0", comma(more)),
        Tip::One => page.item(b"", b"1", comma(more)),
        Tip::To(vertex) => put_numbered(page, b"V", vertex.0, more),
    }
}

/// Writes a value under its letter, or Zero if the letter does not allow it.
pub(crate) fn put_value(
    page: &mut Page,
    letter: u8,
    value: &Util,
    more: bool,
) -> Result<(), AllocError>
    ensures { OnOk result (page.new ≡ with_item page.old (comma_if more (value_text letter (cleaned letter value.now)))) }
{
    if !value.is_allowed(letter) {
        return put_zero(page, letter, more);
    }
    match value {
        Util::Zero => put_zero(page, letter, more),
        Util::Int(number) => put_number(page, *number, more),
        Util::Vertex(vertex) => put_numbered(page, b"V", vertex.0, more),
        Util::Arc(number) => put_numbered(page, b"A", number.0, more),
        Util::Text(text) => put_text(page, text.bytes(), more),
    }
}

/// Whether a field of these letters is written: those of the letter `Z` are not.
pub(crate) fn is_any_written(letters: &[u8]) -> bool
    ensures { result ≡ list_any (λ l. not (l == 90)) letters.now }
{
    letters.iter().any(|letter| *letter != b'Z')
}

fn put_zero(page: &mut Page, letter: u8, more: bool) -> Result<(), AllocError>
    ensures { OnOk result (page.new ≡ with_item page.old (comma_if more (value_text letter Util.Zero))) }
{
    if letter == b'S' {
        put_text(page, b"", more)
    } else {
        page.item(b"", b"0", comma(more))
    }
}

// Writes a number behind `V`, `A` or nothing.
fn put_numbered(page: &mut Page, mark: &[u8], number: u32, more: bool) -> Result<(), AllocError>
    requires { length mark.now ≤ 1 }
    ensures { OnOk result (page.new ≡ with_item page.old (comma_if more (mark.now ++ decimal number))) }
{
    let mut digits = Buffer::new();
    page.item(mark, digits.format(number).as_bytes(), comma(more))
}

fn comma(more: bool) -> &'static [u8]
    ensures value { result.now ≡ (if more then 44 ∷ [] else []) }
    ensures short { length result.now ≤ 1 }
{
    if more { b"," } else { b"" }
}

// Returns what ends a text.
fn closing(more: bool) -> &'static [u8]
    ensures value { result.now ≡ (if more then 34 ∷ 44 ∷ [] else 34 ∷ []) }
    ensures short { length result.now ≤ 2 }
{
    if more { b"\"," } else { b"\"" }
}
