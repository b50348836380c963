//! The commands that stand in the journal of a session, read and compared.

use crate::lines::{group, one};
use sgb_script::{Command, ShellRefusal};
use sgb_session::Session;
use sgb_undo::Journal;
use std::alloc::Global;
use std::process::Abort;
use std::test::Fail;

type Sessions = Journal<Session>;

const LINES: [&[u8]; 6] = [
    b"seed -1",
    b"graph a 2",
    b"arc a 0 1 5",
    b"set a V0 u \"x\"",
    b"lengths a 1 1 6 -",
    b"drop a",
];

const MEMBERS: [&[u8]; 2] = [b"next", b"random r 10 1 0 0 1 1 6 5"];

const OTHER_MEMBERS: [&[u8]; 2] = [b"next", b"random r 10 1 0 0 1 1 6 -"];

fn accepts(journal: &mut Sessions, command: Command) -> bool {
    journal.apply(command).is_ok()
}

// Whether all lines are accepted, and then the group.
fn performs_all(alloc: Global, journal: &mut Sessions) -> Result<bool, ShellRefusal> {
    for line in LINES {
        if !accepts(journal, one(alloc, line)?) {
            return Ok(false);
        }
    }
    Ok(accepts(journal, group(alloc, &MEMBERS)?))
}

// Whether this command stands at a place.
fn stands(journal: &Sessions, place: usize, command: &Command) -> bool {
    place < journal.standing() && journal.command(place) == command
}

fn stands_one(
    alloc: Global,
    journal: &Sessions,
    place: usize,
    line: &[u8],
) -> Result<bool, ShellRefusal> {
    Ok(stands(journal, place, &one(alloc, line)?))
}

fn stands_group(
    alloc: Global,
    journal: &Sessions,
    place: usize,
    lines: &[&[u8]],
) -> Result<bool, ShellRefusal> {
    Ok(stands(journal, place, &group(alloc, lines)?))
}

#[test]
fn standing_commands_are_compared(rt: HostRuntime) -> Result<(), Fail> {
    let mut journal = Journal::new(rt.alloc(), Session::new(rt.alloc()));
    assert!(rt; performs_all(rt.alloc(), &mut journal)?);
    expect_all(&rt, rt.alloc(), &journal)?;
    assert!(rt; journal.undo().is_ok());
    assert!(rt; !stands_group(rt.alloc(), &journal, 6, &MEMBERS)?);
    Ok(())
}

fn expect_all(rt: &impl Abort, alloc: Global, journal: &Sessions) -> Result<(), Fail> {
    for place in 0..LINES.len() {
        assert!(rt;
            stands_one(alloc, journal, place, LINES[place])?,
            "at {place}"
        );
    }
    assert!(rt; stands_group(alloc, journal, 6, &MEMBERS)?);
    assert!(rt; !stands_one(alloc, journal, 2, b"arc a 0 1 6")?);
    assert!(rt; !stands_one(alloc, journal, 3, b"set a V0 u \"y\"")?);
    assert!(rt; !stands_group(alloc, journal, 6, &OTHER_MEMBERS)?);
    assert!(rt; !stands_group(alloc, journal, 6, &[b"next"])?);
    assert!(rt; !stands_group(alloc, journal, 0, &[b"seed -1"])?);
    Ok(())
}
