//! Readers and writers that behave badly.

use std::io::{Error, ErrorKind, Read, Result, Write};

/// Gives the bytes in steps of some size, and then ends or fails.
#[derive(Drop)]
pub struct Steps<'a> {
    pub rest: &'a [u8],
    pub step: usize,
    pub fails: bool,
}

impl Read for Steps<'_> {
    fn read(&mut self, buffer: &mut [u8]) -> Result<usize> {
        if self.rest.is_empty() && self.fails {
            return Err(Error::from(ErrorKind::Other));
        }
        let count = self.step.min(self.rest.len()).min(buffer.len());
        let (given, rest) = self.rest.split_at(count);
        let (space, _) = buffer.split_at_mut(count);
        space.copy_from_slice(given);
        self.rest = rest;
        Ok(count)
    }
}

/// Gives one byte again and again, so many times.
#[derive(Drop)]
pub struct Same {
    pub byte: u8,
    pub left: usize,
}

impl Read for Same {
    fn read(&mut self, buffer: &mut [u8]) -> Result<usize> {
        let count = self.left.min(buffer.len());
        let (space, _) = buffer.split_at_mut(count);
        for place in space.iter_mut() {
            *place = self.byte;
        }
        self.left -= count;
        Ok(count)
    }
}

/// Keeps at most so many bytes, in steps of some size, and then fails.
#[derive(Drop)]
pub struct Room {
    pub kept: Vec<u8>,
    pub room: usize,
    pub step: usize,
}

impl Write for Room {
    fn write(&mut self, bytes: &[u8]) -> Result<usize> {
        let count = self.step.min(self.room).min(bytes.len());
        if count == 0 && !bytes.is_empty() {
            return Err(Error::from(ErrorKind::Other));
        }
        let (taken, _) = bytes.split_at(count);
        self.kept.extend_from_slice(taken)?;
        self.room -= count;
        Ok(count)
    }

    fn flush(&mut self) -> Result<()> {
        Ok(())
    }
}
