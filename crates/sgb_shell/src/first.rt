//! How a line begins.
ghost use Rattle.std.specs.Prelude.{◌≡◌, ◌≤◌, ◌++◌, ◌∷◌, ◌==◌, ◌&&◌, ◌||◌, [], true, false, List, ℕ, codes, length, take, drop};
ghost use Rattle.std.specs.List.{list_all, prefix_len};
ghost use Rattle.std.specs.Str.{bytes_eq};
ghost use Rattle.sgb_shell.specs.Unit.{takes_text, takes_members, takes_lines, is_end};
ghost use Rattle.sgb_shell.specs.Private.Holding.{front_of};

use arrayvec::ArrayVec;
use std::marker::Model;

// One byte more than the longest word that is looked for.
const KEPT: usize = 6;

/// The first bytes of a line that are not spaces, and what follows them: as many as tell whether the line takes a text
/// or begins a group, and whether it ends one. Any number of spaces may stand before them.
#[derive(Drop)]
pub(crate) struct FirstBytes {
    bytes: ArrayVec<u8, KEPT>,
    // Whether only spaces follow.
    ends: bool,
}

impl Model for FirstBytes {
    ghost use Rattle.sgb_shell.specs.Private.Holding.{LineFront};

    ghost Value = { LineFront };

    ghost view = { λ f. record { bytes = f.bytes.items; ends = f.ends } };
}

impl FirstBytes {
    /// Those of no bytes.
    pub(crate) fn new() -> FirstBytes
        ensures { result ≡ front_of [] }
    {
        FirstBytes {
            bytes: ArrayVec::new(),
            ends: true,
        }
    }

    /// Those of a whole line.
    pub(crate) fn of(line: &[u8]) -> FirstBytes
        ensures { result ≡ front_of line.now }
    {
        let (_, text) = line.split_at(count_spaces(line));
        let (front, rest) = text.split_at(text.len().min(KEPT));
        FirstBytes {
            bytes: copy_of(front),
            ends: is_blank(rest),
        }
    }

    /// Those of a line with one byte more.
    pub(crate) fn push(&mut self, byte: u8)
        ensures { (line : List ℕ) → self.old ≡ front_of line → self.new ≡ front_of (line ++ byte ∷ []) }
    {
        if is_leading(self.bytes.as_slice(), byte) {
            return;
        }
        if self.bytes.len() < KEPT {
            self.bytes.push(byte);
        } else {
            self.ends = still_ends(self.ends, byte);
        }
    }

    /// Those of no bytes again.
    pub(crate) fn clear(&mut self)
        ensures { self.new ≡ front_of [] }
    {
        self.bytes.clear();
        self.ends = true;
    }

    /// Whether the line takes a text.
    pub(crate) fn takes_text(&self) -> bool
        ensures { (line : List ℕ) → self.now ≡ front_of line → result ≡ takes_text line }
    {
        is_load(front(self.bytes.as_slice()))
    }

    /// Whether the line takes a text or begins a group.
    pub(crate) fn takes_lines(&self) -> bool
        ensures { (line : List ℕ) → self.now ≡ front_of line → result ≡ takes_lines line }
    {
        self.takes_text() || self.takes_members()
    }

    fn takes_members(&self) -> bool
        ensures { (line : List ℕ) → self.now ≡ front_of line → result ≡ takes_members line }
    {
        is_group(self.bytes.as_slice())
    }

    /// Whether the line ends a group.
    pub(crate) fn is_end(&self) -> bool
        ensures { (line : List ℕ) → self.now ≡ front_of line → result ≡ is_end line }
    {
        is_end(self.bytes.as_slice()) && self.ends
    }
}

// A space behind nothing but spaces.
fn is_leading(bytes: &[u8], byte: u8) -> bool
    ensures { result ≡ (length bytes.now == 0 && byte == 32) }
{
    bytes.is_empty() && byte == b' '
}

// A space behind nothing else.
fn still_ends(ends: bool, byte: u8) -> bool
    ensures { result ≡ (ends && byte == 32) }
{
    ends && byte == b' '
}

// As many bytes as tell the word `load`.
fn front(bytes: &[u8]) -> &[u8]
    ensures { result.now ≡ take 5 bytes.now }
{
    let (front, _) = bytes.split_at(bytes.len().min(5));
    front
}

// The word stands alone, or a space ends it.
fn is_load(bytes: &[u8]) -> bool
    ensures { result ≡ (bytes_eq bytes.now (codes "load") || bytes_eq bytes.now (codes "load ")) }
{
    bytes == b"load".as_slice() || bytes == b"load ".as_slice()
}

// The word stands alone, or a space ends it.
fn is_group(bytes: &[u8]) -> bool
    ensures { result ≡ (bytes_eq bytes.now (codes "group") || bytes_eq bytes.now (codes "group ")) }
{
    bytes == b"group".as_slice() || bytes == b"group ".as_slice()
}

// The word, and only spaces behind it.
fn is_end(bytes: &[u8]) -> bool
    ensures { result ≡ (bytes_eq (take 3 bytes.now) (codes "end") && list_all (λ b. b == 32) (drop 3 bytes.now)) }
{
    let (word, rest) = bytes.split_at(bytes.len().min(3));
    word == b"end".as_slice() && is_blank(rest)
}

fn is_blank(bytes: &[u8]) -> bool
    ensures { result ≡ list_all (λ b. b == 32) bytes.now }
{
    bytes.iter().all(|byte| *byte == b' ')
}

fn count_spaces(line: &[u8]) -> usize
    ensures count { result ≡ prefix_len (λ b. b == 32) line.now }
    ensures within { result ≤ length line.now }
{
    line.iter().take_while(|byte| **byte == b' ').count()
}

fn copy_of(front: &[u8]) -> ArrayVec<u8, KEPT>
    requires { length front.now ≤ 6 }
    ensures { result.items ≡ front.now }
{
    let mut bytes = ArrayVec::new();
    for byte in front {
        bytes.push(*byte);
    }
    bytes
}
