//! A text that is being written, item by item, in lines of at most 79 bytes.
ghost use Rattle.std.specs.Prelude.{◌≡◌, ◌+◌, ◌≤◌, ◌<◌, ◌++◌, ◌∷◌, [], length, OnOk, IfOk, if◌then◌else◌};
ghost use Rattle.sgb_text.specs.Layout.{cut, last_width, is_past};
ghost use Rattle.sgb_text.specs.Private.Page.{with_line, with_bytes, with_cut, with_item};

use std::alloc::{AllocError, Global};
use std::marker::Model;

/// The most bytes of a line, and how many of a longer item stand in one.
const WIDTH: usize = 79;

const PART: usize = 78;

/// A text that is being written, and the column at which it stands.
#[derive(Drop)]
pub(crate) struct Page {
    text: Vec<u8>,
    column: usize,
}

impl Model for Page {
    ghost use Rattle.std.specs.Prelude.{◌≤◌};
    ghost use Rattle.sgb_text.specs.Private.Page.{PageOf};

    ghost Value = { PageOf };

    ghost view = { λ p. record { text = p.text.items; column = p.column } };

    ghost invariant = { λ p. p.column ≤ 79 };
}

impl Page {
    /// Returns an empty page. Does not allocate.
    pub(crate) fn new(alloc: Global) -> Page
        ensures text { result.text ≡ [] }
        ensures column { result.column ≡ 0 }
    {
        Page {
            text: Vec::new(alloc),
            column: 0,
        }
    }

    /// Returns the bytes written so far.
    pub(crate) fn text(&self) -> &[u8]
        ensures { result.now ≡ self.now.text }
    {
        self.text.as_slice()
    }

    /// Returns the text, and gives up the page.
    pub(crate) fn into_text(self) -> Vec<u8>
        ensures { result.items ≡ self.text }
    {
        let Page { text, .. } = self;
        text
    }

    /// Reserves room for so many bytes more.
    pub(crate) fn reserve(&mut self, count: usize) -> Result<(), AllocError>
        ensures { self.new ≡ self.old }
    {
        self.text.reserve(count)
    }

    /// Writes bytes, after which a line begins.
    pub(crate) fn line(&mut self, bytes: &[u8]) -> Result<(), AllocError>
        ensures { OnOk result (self.new ≡ with_line self.old bytes.now) }
    {
        self.text.extend_from_slice(bytes)?;
        self.column = 0;
        Ok(())
    }

    /// Writes an item in three parts: a mark, its bytes, and what ends it.
    #[inline(always)]
    pub(crate) fn item(&mut self, mark: &[u8], bytes: &[u8], end: &[u8]) -> Result<(), AllocError>
        requires mark { length mark.now ≤ 1 }
        requires bytes { length bytes.now ≤ 4095 }
        requires end { length end.now ≤ 2 }
        ensures { OnOk result (self.new ≡ with_item self.old (mark.now ++ (bytes.now ++ end.now))) }
    {
        let width = mark.len() + bytes.len() + end.len();
        self.make_room(width)?;
        if width > WIDTH {
            self.put_long(mark, bytes, end)
        } else {
            self.put_short(mark, bytes, end)
        }
    }

    // Begins a new line if this one has no room for so many bytes more.
    #[inline]
    fn make_room(&mut self, width: usize) -> Result<(), AllocError>
        requires { width ≤ 5000 }
        ensures { OnOk result (self.new ≡ (if is_past self.old.column width then with_line self.old (10 ∷ []) else self.old)) }
    {
        if self.column != 0 && self.column + width > WIDTH {
            return self.line(b"\n");
        }
        Ok(())
    }

    // Writes an item for which the line has room.
    #[inline(always)]
    fn put_short(&mut self, mark: &[u8], bytes: &[u8], end: &[u8]) -> Result<(), AllocError>
        requires { self.old.column + length (mark.now ++ (bytes.now ++ end.now)) ≤ 79 }
        ensures { OnOk result (self.new ≡ with_bytes self.old (mark.now ++ (bytes.now ++ end.now))) }
    {
        append(&mut self.text, mark)?;
        self.text.extend_from_slice(bytes)?;
        append(&mut self.text, end)?;
        self.column += mark.len() + bytes.len() + end.len();
        Ok(())
    }

    // Writes an item that is longer than a line.
    #[cold]
    #[inline(never)]
    fn put_long(&mut self, mark: &[u8], bytes: &[u8], end: &[u8]) -> Result<(), AllocError>
        requires mark { length mark.now ≤ 1 }
        requires bytes { length bytes.now ≤ 4095 }
        requires end { length end.now ≤ 2 }
        requires long { 79 < length (mark.now ++ (bytes.now ++ end.now)) }
        ensures { OnOk result (self.new ≡ with_cut self.old (mark.now ++ (bytes.now ++ end.now))) }
    {
        let (first, rest) = bytes.split_at(PART - mark.len());
        self.text.extend_from_slice(mark)?;
        self.text.extend_from_slice(first)?;
        self.text.extend_from_slice(b"\\\n")?;
        self.column = put_rest(&mut self.text, rest, end)?;
        Ok(())
    }
}

// Appends bytes, mostly one or none.
#[inline(always)]
fn append(text: &mut Vec<u8>, bytes: &[u8]) -> Result<(), AllocError>
    ensures { OnOk result (text.new.items ≡ text.old.items ++ bytes.now) }
{
    match bytes {
        [] => Ok(()),
        [byte] => {
            text.push(*byte)?;
            Ok(())
        }
        _ => text.extend_from_slice(bytes),
    }
}

// Writes the rest of a long item in lines of its own. Returns how many bytes the last of them has.
fn put_rest(text: &mut Vec<u8>, bytes: &[u8], end: &[u8]) -> Result<usize, AllocError>
    requires bytes { length bytes.now ≤ 4095 }
    requires end { length end.now ≤ 2 }
    ensures text { OnOk result (text.new.items ≡ text.old.items ++ cut (length (bytes.now ++ end.now)) (bytes.now ++ end.now)) }
    ensures column { IfOk result (λ c. c ≡ last_width (length (bytes.now ++ end.now)) (length (bytes.now ++ end.now))) }
    ensures limit { IfOk result (λ c. c ≤ 79) }
{
    let mut rest = bytes;
    while rest.len() + end.len() > WIDTH {
        let (part, behind) = rest.split_at(PART);
        text.extend_from_slice(part)?;
        text.extend_from_slice(b"\\\n")?;
        rest = behind;
    }
    text.extend_from_slice(rest)?;
    text.extend_from_slice(end)?;
    Ok(rest.len() + end.len())
}
