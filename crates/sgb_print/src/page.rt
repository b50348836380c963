//! Short texts that are put together from back to front, and then written at once.
ghost use Rattle.std.specs.Prelude.{◌≡◌, ◌+◌, ◌≤◌, ◌++◌, [], length};
ghost use Rattle.std.specs.Fmt.{decimal, signed_decimal};
ghost use Rattle.sgb_print.specs.Print.{Prints};

use crate::meter::{Failed, MeteredWriter};
use crate::print::put;
use itoa::write_digits;
use std::io::Write;
use std::marker::Model;

/// The size of a page in bytes.
pub const PAGE_LIMIT: usize = 96;

/// A text of at most 96 bytes, put together from back to front. It does not allocate.
#[derive(Drop)]
pub struct Page {
    bytes: [u8; PAGE_LIMIT],
    // Where the text begins. It ends with the last byte.
    start: usize,
}

impl Model for Page {
    ghost use Rattle.std.specs.Prelude.{◌≤◌, List, ℕ, drop};

    ghost Value = { List ℕ };

    ghost view = { λ p. drop p.start p.bytes };

    ghost invariant = { λ p. p.start ≤ 96 };
}

impl Page {
    /// Returns an empty page.
    pub fn new() -> Page
        ensures { result ≡ [] }
    {
        Page {
            bytes: [0; PAGE_LIMIT],
            start: PAGE_LIMIT,
        }
    }

    /// Puts bytes in front of the text.
    pub fn prepend(&mut self, bytes: &[u8])
        requires { length self.old + length bytes.now ≤ 96 }
        ensures text { self.new ≡ bytes.now ++ self.old }
        ensures count { length self.new ≡ length self.old + length bytes.now }
    {
        let start = self.start - bytes.len();
        let (_, rest) = self.bytes.split_at_mut(start);
        let (space, _) = rest.split_at_mut(bytes.len());
        space.copy_from_slice(bytes);
        self.start = start;
    }

    /// Puts the digits of a number in front of the text.
    pub fn prepend_number(&mut self, number: u64)
        requires { length self.old + 20 ≤ 96 }
        ensures text { self.new ≡ decimal number ++ self.old }
        ensures count { length self.new ≤ length self.old + 20 }
    {
        self.start = write_digits(number, &mut self.bytes, self.start);
    }

    /// Puts the digits of a number in front of the text, with a minus sign if the number is negative.
    pub fn prepend_signed(&mut self, number: i64)
        requires { length self.old + 21 ≤ 96 }
        ensures text { self.new ≡ signed_decimal number ++ self.old }
        ensures count { length self.new ≤ length self.old + 21 }
    {
        self.prepend_number(number.unsigned_abs());
        if number < 0 {
            self.prepend(b"-");
        }
    }

    /// Writes the text, or a front of it where a write fails.
    pub fn print<W: Write>(&self, writer: &mut MeteredWriter<W>) -> Result<(), Failed>
        ensures { Prints writer.old writer.new result self.now }
    {
        let (_, text) = self.bytes.split_at(self.start);
        put(writer, text)
    }
}
