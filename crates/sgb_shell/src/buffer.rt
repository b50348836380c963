//! The line that a read cut.
ghost use Rattle.std.specs.Prelude.{◌≡◌, ◌++◌, ◌∷◌, ◌==◌, [], true, false, List, ℕ, length, IfOk};
ghost use Rattle.sgb_shell.specs.Private.Holding.{held_line};
ghost use Rattle.sgb_shell.specs.Private.Line.{IsLine};

use crate::first::FirstBytes;
use crate::line::ScriptLine;
use sgb_script::LINE_LIMIT;
use std::alloc::{AllocError, Global};
use std::marker::Model;

/// The front of a line whose end is not read yet.
///
/// It keeps at most 8,192 bytes, and of a longer line how it begins.
#[derive(Drop)]
pub(crate) struct LineBuffer {
    // The first 8,192 bytes. The capacity is at least that.
    bytes: Vec<u8>,
    // Whether the line has more bytes than are kept.
    is_long: bool,
    first: FirstBytes,
}

impl Model for LineBuffer {
    ghost use Rattle.std.specs.Prelude.{◌≤◌, vec_capacity};
    ghost use Rattle.sgb_shell.specs.Private.Holding.{HeldLine};

    ghost Value = { HeldLine };

    ghost view = { λ l. record { bytes = l.bytes.items; is_long = l.is_long; first = l.first } };

    ghost invariant = { λ l. 8192 ≤ vec_capacity l.bytes };
}

impl LineBuffer {
    /// No bytes. Allocates for a line of 8,192 bytes.
    pub(crate) fn new(alloc: Global) -> Result<LineBuffer, AllocError>
        ensures { IfOk result (λ l. l ≡ held_line []) }
    {
        Ok(LineBuffer {
            bytes: Vec::with_capacity(alloc, LINE_LIMIT)?,
            is_long: false,
            first: FirstBytes::new(),
        })
    }

    /// Adds bytes to the line.
    pub(crate) fn extend(&mut self, bytes: &[u8])
        ensures { (line : List ℕ) → self.old ≡ held_line line → self.new ≡ held_line (line ++ bytes.now) }
    {
        for byte in bytes {
            self.push(*byte);
        }
    }

    fn push(&mut self, byte: u8)
        ensures { (line : List ℕ) → self.old ≡ held_line line → self.new ≡ held_line (line ++ byte ∷ []) }
    {
        self.first.push(byte);
        if self.bytes.len() < LINE_LIMIT {
            self.bytes.push_reserved(byte);
        } else {
            self.is_long = true;
        }
    }

    /// Begins the next line.
    pub(crate) fn clear(&mut self)
        ensures { self.new ≡ held_line [] }
    {
        self.bytes.clear();
        self.is_long = false;
        self.first.clear();
    }

    /// Whether the line has no bytes.
    pub(crate) fn is_empty(&self) -> bool
        ensures { (line : List ℕ) → self.now ≡ held_line line → result ≡ (length line == 0) }
    {
        self.bytes.is_empty()
    }

    /// The line.
    pub(crate) fn line(&self) -> ScriptLine<'_>
        ensures { (line : List ℕ) → self.now ≡ held_line line → IsLine line result }
    {
        if self.is_long {
            return ScriptLine::Long(&self.first);
        }
        ScriptLine::Whole(self.bytes.as_slice())
    }
}
