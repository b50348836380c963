//! A reader and a writer that remember whether a call failed.
ghost use Rattle.std.specs.Prelude.{◌≡◌, ◌+◌, ◌<◌, ◌≤◌, ◌^◌, length, take, MatchResult, IfOk, is_err, ◌||◌};
ghost use Rattle.std.specs.Io.{ReadsAtMost, WritesAtMost};
ghost use Rattle.std.specs.Io.KnownBytes.{Consumes, IsAtEnd, ReadConsumes, WriteAppends, Keeps};
ghost use Rattle.sgb_print.specs.Meter.{fresh_reader, fresh_writer};

use std::io::{Read, Write};
use std::marker::Model;

/// The error of a failed read or write. It does not say what went wrong.
#[derive(Clone, Copy, Debug, PartialEq, Eq)]
pub struct Failed;

/// A reader that counts its reads and remembers whether one failed.
#[derive(Debug, Drop)]
pub struct MeteredReader<R: Read> {
    inner: R,
    reads: u64,
    // How many bytes the last read gave.
    last: usize,
    failed: bool,
}

/// A writer that remembers whether a write or a flush failed.
#[derive(Debug, Drop)]
pub struct MeteredWriter<W: Write> {
    inner: W,
    failed: bool,
}

impl<R: Read> Model for MeteredReader<R> {
    ghost use Rattle.sgb_print.specs.Meter.{ReaderUse};

    ghost Value = { ReaderUse R };

    ghost view = { λ m. record { inner = m.inner; left = R.remaining m.inner; reads = m.reads; last = m.last; failed = m.failed } };
}

impl<W: Write> Model for MeteredWriter<W> {
    ghost use Rattle.sgb_print.specs.Meter.{WriterUse};

    ghost Value = { WriterUse W };

    ghost view = { λ m. record { inner = m.inner; held = W.contents m.inner; failed = m.failed } };
}

impl<R: Read> MeteredReader<R> {
    /// Wraps a reader, before any read.
    pub fn new(inner: R) -> Self
        ensures { result ≡ fresh_reader R.remaining inner }
    {
        MeteredReader {
            inner,
            reads: 0,
            last: 0,
            failed: false,
        }
    }

    /// Returns the number of reads so far.
    pub fn reads(&self) -> u64
        ensures { result ≡ self.now.reads }
    {
        self.reads
    }

    /// Returns how many bytes the last read gave.
    pub fn last(&self) -> usize
        ensures { result ≡ self.now.last }
    {
        self.last
    }

    /// Returns the wrapped reader.
    pub fn into_inner(self) -> R
        ensures inner { result ≡ self.inner }
        ensures left { R.remaining result ≡ self.left }
    {
        self.inner
    }

    /// Makes one read. `Ok(0)` for a buffer that is not empty means the end of the input.
    /// An interrupted read counts as failed.
    pub fn read(&mut self, buffer: &mut [u8]) -> Result<usize, Failed>
        requires { self.old.reads < 2 ^ 63 }
        ensures reads { self.new.reads ≡ self.old.reads + 1 }
        ensures last { MatchResult result (λ count. self.new.last ≡ count) (λ _. self.new.last ≡ 0) }
        ensures failed { self.new.failed ≡ (self.old.failed || is_err result) }
        ensures bound { ReadsAtMost result buffer.new }
        ensures bytes { ReadConsumes self.old.left self.new.left result buffer.new }
    {
        self.reads += 1;
        self.last = 0;
        match self.inner.read(buffer) {
            Ok(count) => {
                self.last = count;
                Ok(count)
            }
            Err(_) => {
                self.failed = true;
                Err(Failed)
            }
        }
    }

    /// Makes one read, of at most `most` bytes. `Ok(0)` means the end of the input.
    pub fn read_some(&mut self, buffer: &mut [u8], most: usize) -> Result<usize, Failed>
        requires most { 0 < most }
        requires buffer { 0 < length buffer.old }
        requires reads { self.old.reads < 2 ^ 63 }
        ensures reads { self.new.reads ≡ self.old.reads + 1 }
        ensures last { MatchResult result (λ count. self.new.last ≡ count) (λ _. self.new.last ≡ 0) }
        ensures failed { self.new.failed ≡ (self.old.failed || is_err result) }
        ensures bytes { MatchResult result
            (λ count. (count ≤ most) × (count ≤ length buffer.new)
            × Consumes self.old.left self.new.left (take count buffer.new)
            × (count ≡ 0 → IsAtEnd self.new.left))
            (λ _. Keeps self.old.left self.new.left) }
    {
        let room = buffer.len().min(most);
        let (space, _) = buffer.split_at_mut(room);
        self.read(space)
    }
}

impl<W: Write> MeteredWriter<W> {
    /// Wraps a writer, before any write.
    pub fn new(inner: W) -> Self
        ensures { result ≡ fresh_writer W.contents inner }
    {
        MeteredWriter {
            inner,
            failed: false,
        }
    }

    /// Returns the wrapped writer.
    pub fn into_inner(self) -> W
        ensures inner { result ≡ self.inner }
        ensures held { W.contents result ≡ self.held }
    {
        self.inner
    }

    /// Makes one write, of some bytes, and returns how many the writer took.
    /// A write that takes none counts as failed.
    pub fn write(&mut self, bytes: &[u8]) -> Result<usize, Failed>
        requires { 0 < length bytes.now }
        ensures failed { self.new.failed ≡ (self.old.failed || is_err result) }
        ensures bound { WritesAtMost result bytes.now }
        ensures some { IfOk result (λ count. 0 < count) }
        ensures bytes { WriteAppends self.old.held self.new.held result bytes.now }
    {
        match self.inner.write(bytes) {
            Ok(count) if count > 0 => Ok(count),
            _ => {
                self.failed = true;
                Err(Failed)
            }
        }
    }

    /// Flushes the writer. It keeps its bytes, also where that fails.
    pub fn flush(&mut self) -> Result<(), Failed>
        ensures failed { self.new.failed ≡ (self.old.failed || is_err result) }
        ensures bytes { Keeps self.old.held self.new.held }
    {
        match self.inner.flush() {
            Ok(()) => Ok(()),
            Err(_) => {
                self.failed = true;
                Err(Failed)
            }
        }
    }
}
