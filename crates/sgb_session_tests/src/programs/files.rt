//! Files that are read in small steps, that fail, and that are too long.

use crate::fake::{Same, Steps};
use sgb_print::{MeteredReader, RunFault};
use sgb_programs::{CHECK_LIMIT, INPUT_LIMIT, read_file};
use std::alloc::Global;
use std::io::Read;

const BYTES: &[u8] = b"some bytes\nof a file";

// How many bytes are read, and by how many reads.
fn count_of<R: Read + Drop>(
    alloc: Global,
    reader: R,
    limit: u32,
) -> Result<(usize, u64), RunFault> {
    let mut reader = MeteredReader::new(reader);
    let file = read_file(alloc, &mut reader, limit)?;
    Ok((file.len(), reader.reads()))
}

fn of_steps(alloc: Global, step: usize, fails: bool) -> Result<(usize, u64), RunFault> {
    let reader = Steps {
        rest: BYTES,
        step,
        fails,
    };
    count_of(alloc, reader, CHECK_LIMIT)
}

fn of_length(alloc: Global, left: u32, limit: u32) -> Result<(usize, u64), RunFault> {
    let left = left as usize;
    count_of(alloc, Same { byte: b'a', left }, limit)
}

// Whether a file of these bytes is read as them.
fn is_kept(alloc: Global, rest: &[u8], step: usize) -> bool {
    let mut reader = MeteredReader::new(Steps {
        rest,
        step,
        fails: false,
    });
    match read_file(alloc, &mut reader, CHECK_LIMIT) {
        Ok(file) => file.as_slice() == rest,
        Err(_) => false,
    }
}

#[test]
fn bytes_are_kept(rt: HostRuntime) {
    for step in [1, 7, 4096] {
        assert!(rt; is_kept(rt.alloc(), BYTES, step), "steps of {step}");
    }
    assert!(rt; is_kept(rt.alloc(), b"", 1));
}

#[test]
fn reads_are_few(rt: HostRuntime) {
    assert!(rt; of_steps(rt.alloc(), 1, false) == Ok((20, 21)));
    assert!(rt; of_steps(rt.alloc(), 7, false) == Ok((20, 4)));
}

#[test]
fn a_failed_read_is_told(rt: HostRuntime) {
    assert!(rt; of_steps(rt.alloc(), 7, true) == Err(RunFault::Read));
    assert!(rt; of_steps(rt.alloc(), 20, true) == Err(RunFault::Read));
}

#[test]
fn the_longest_file_is_read(rt: HostRuntime) {
    assert!(rt; of_length(rt.alloc(), CHECK_LIMIT, CHECK_LIMIT) == Ok((16_777_216, 4097)));
}

#[test]
fn a_longer_file_is_told(rt: HostRuntime) {
    assert!(rt; of_length(rt.alloc(), CHECK_LIMIT + 1, CHECK_LIMIT) == Err(RunFault::TooLong));
    assert!(rt; of_length(rt.alloc(), CHECK_LIMIT + 1, INPUT_LIMIT) == Ok((16_777_217, 4098)));
}

#[test]
fn the_limit_is_the_callers(rt: HostRuntime) {
    assert!(rt; of_length(rt.alloc(), 0, 0) == Ok((0, 1)));
    assert!(rt; of_length(rt.alloc(), 1, 0) == Err(RunFault::TooLong));
    assert!(rt; of_length(rt.alloc(), 5000, 5000) == Ok((5000, 3)));
    assert!(rt; of_length(rt.alloc(), 5001, 5000) == Err(RunFault::TooLong));
}
