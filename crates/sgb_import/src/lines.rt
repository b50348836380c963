//! The lines of a text, and the words of a line.
ghost use Rattle.std.specs.Prelude.{◌≡◌, ◌-◌, ◌≤◌, ◌==◌, length, not, slice_index};
ghost use Rattle.std.specs.Option.{option_map};
ghost use Rattle.std.specs.List.{prefix_len};
ghost use Rattle.sgb_import.specs.Lines.{lines, words, behind, is_blank, without_return};
ghost use Rattle.sgb_import.specs.Private.Cursors.{Parts};

use memchr::memchr;
use std::marker::Model;

/// A line of a text.
#[derive(Clone, Copy)]
pub(crate) struct Line<'a> {
    /// The number of the line, from 1.
    pub(crate) number: usize,
    /// Its bytes, without the newline and a return before it.
    pub(crate) bytes: &'a [u8],
}

/// The lines of a text that are still to be read.
#[derive(Drop)]
pub(crate) struct Lines<'a> {
    number: usize,
    rest: Option<&'a [u8]>,
}

impl<'a> Model for Lines<'a> {
    ghost use Rattle.std.specs.Prelude.{List};
    ghost use Rattle.sgb_import.specs.Lines.{LineOf};

    ghost Value = { List LineOf };

    ghost use Rattle.sgb_import.specs.Private.Cursors.{lines_left, IsNumbered};

    ghost view = { lines_left };

    ghost invariant = { IsNumbered };
}

impl<'a> Lines<'a> {
    /// The lines of the text.
    pub(crate) fn new(text: &'a [u8]) -> Lines<'a>
        ensures { result ≡ lines text.now }
    {
        Lines {
            number: 1,
            rest: Some(text),
        }
    }
}

impl<'a> Iterator for Lines<'a> {
    ghost use Rattle.std.specs.Map.Iter.{TakesFirst};
    ghost use Rattle.std.specs.Iterator.{item_count};
    ghost use Rattle.sgb_import.specs.Private.Cursors.{seen};

    type Item = Line<'a>;

    ghost next_gives = { TakesFirst seen };

    ghost remaining = { item_count (λ rest. rest) };

    fn next(&mut self) -> Option<Line<'a>> {
        let text = self.rest?;
        let (bytes, rest) = split_line(text);
        let line = Line {
            number: self.number,
            bytes: strip_return(bytes),
        };
        self.rest = rest;
        self.number += 1;
        Some(line)
    }
}

// The bytes before the first newline and those behind it, if there is one.
fn split_line(text: &[u8]) -> (&[u8], Option<&[u8]>)
    ensures { Parts text.now result.0.now result.1 }
{
    match memchr(b'\n', text) {
        Some(at) => {
            let (line, rest) = text.split_at(at);
            (line, Some(&rest[1..]))
        }
        None => (text, None),
    }
}

fn strip_return(bytes: &[u8]) -> &[u8]
    ensures { result.now ≡ without_return bytes.now }
{
    if !ends_with_return(bytes) {
        return bytes;
    }
    let (front, _) = bytes.split_at(bytes.len() - 1);
    front
}

fn ends_with_return(bytes: &[u8]) -> bool
    ensures { result ≡ (slice_index bytes.now (length bytes.now - 1) == 13) }
{
    bytes.last() == Some(&b'\r')
}

/// The words of a line that are still to be read.
#[derive(Drop)]
pub(crate) struct Words<'a> {
    rest: &'a [u8],
}

impl<'a> Model for Words<'a> {
    ghost use Rattle.std.specs.Prelude.{List, ℕ};
    ghost use Rattle.sgb_import.specs.Lines.{words};

    ghost Value = { List (List ℕ) };

    ghost view = { λ w. words w.rest.now };
}

impl<'a> Words<'a> {
    /// The words of a line.
    pub(crate) fn new(line: &'a [u8]) -> Words<'a>
        ensures { result ≡ words line.now }
    {
        Words { rest: line }
    }
}

impl<'a> Iterator for Words<'a> {
    ghost use Rattle.std.specs.Map.Iter.{TakesFirst};
    ghost use Rattle.std.specs.Iterator.{item_count};

    type Item = &'a [u8];

    ghost next_gives = { TakesFirst (λ word. word.now) };

    ghost remaining = { item_count (λ rest. rest) };

    fn next(&mut self) -> Option<&'a [u8]> {
        let (_, text) = self.rest.split_at(count_blanks(self.rest));
        let (word, rest) = text.split_at(count_letters(text));
        self.rest = rest;
        if word.is_empty() {
            return None;
        }
        Some(word)
    }
}

fn is_blank(byte: u8) -> bool
    ensures { result ≡ is_blank byte }
{
    byte == b' ' || byte == b'\t'
}

fn count_blanks(bytes: &[u8]) -> usize
    ensures count { result ≡ prefix_len is_blank bytes.now }
    ensures within { result ≤ length bytes.now }
{
    bytes.iter().take_while(|b| is_blank(**b)).count()
}

fn count_letters(bytes: &[u8]) -> usize
    ensures count { result ≡ prefix_len (λ b. not (is_blank b)) bytes.now }
    ensures within { result ≤ length bytes.now }
{
    bytes.iter().take_while(|b| !is_blank(**b)).count()
}

/// What stands behind these bytes, if the others begin with them.
pub(crate) fn behind<'a>(front: &[u8], bytes: &'a [u8]) -> Option<&'a [u8]>
    ensures { option_map (λ rest. rest.now) result ≡ behind front.now bytes.now }
{
    match bytes.strip_prefix(front) {
        Some(rest) => Some(rest),
        None => None,
    }
}
