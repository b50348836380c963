//! Scripts and their transcripts, and how a run ends.

use crate::fake::{Room, Same, Steps};
use sgb_shell::{RunEnd, RunFault, SCRIPT_LIMIT, exit_status, run};
use std::alloc::{AllocError, Global};
use std::io::Read;
use std::test::Fail;

const FIRST: &[u8] = b"seed -314159\nnext\nundo\nnext\n";

const FIRST_TRANSCRIPT: &[u8] = b"ok\n119318998\nundone\n119318998\n";

// How a run ends, and what a writer keeps of it that has so much room, and takes so many bytes at a time.
fn written<R: Read + Drop>(
    alloc: Global,
    reader: R,
    room: usize,
    step: usize,
) -> (Result<RunEnd, RunFault>, Vec<u8>) {
    let writer = Room {
        kept: Vec::new(alloc),
        room,
        step,
    };
    let ended = run(alloc, reader, writer);
    (ended.end, ended.writer.into_inner().kept)
}

// Whether a run of a reader ends so, and writes this.
fn ends<R: Read + Drop>(
    alloc: Global,
    reader: R,
    end: Result<RunEnd, RunFault>,
    text: &[u8],
) -> bool {
    let (ended, kept) = written(alloc, reader, 1000, 1000);
    ended == end && kept.as_slice() == text
}

const FOUR_LINES: Result<RunEnd, RunFault> = Ok(RunEnd {
    lines: 4,
    refused: 0,
});

// The first script, byte by byte.
fn single_bytes() -> Steps<'static> {
    Steps {
        rest: FIRST,
        step: 1,
        fails: false,
    }
}

// How many reads a run of the first script makes, where each gives one byte.
fn reads_of_single_bytes(alloc: Global) -> u64 {
    run(alloc, single_bytes(), Vec::new(alloc)).reader.reads()
}

#[test]
fn steps_of_one_byte_change_nothing(rt: HostRuntime) {
    let (end, kept) = written(rt.alloc(), single_bytes(), 1000, 1);
    assert!(rt; end == FOUR_LINES);
    assert!(rt; kept.as_slice() == FIRST_TRANSCRIPT);
    assert!(rt; reads_of_single_bytes(rt.alloc()) == 29);
}

// How many reads a run of the first script makes whose writer takes so many bytes, where each gives one byte.
fn reads_before_a_failed_write(alloc: Global, room: usize) -> u64 {
    let writer = Room {
        kept: Vec::new(alloc),
        room,
        step: 1,
    };
    run(alloc, single_bytes(), writer).reader.reads()
}

// The first line has 13 bytes, and its answer 3; the second has 5.
#[test]
fn nothing_is_read_behind_a_failed_write(rt: HostRuntime) {
    assert!(rt; reads_before_a_failed_write(rt.alloc(), 0) == 13);
    assert!(rt; reads_before_a_failed_write(rt.alloc(), 2) == 13);
    assert!(rt; reads_before_a_failed_write(rt.alloc(), 3) == 18);
}

// Whether a run of the script's first bytes, in steps, ends so and writes so many bytes of the transcript.
fn ends_after(
    alloc: Global,
    count: usize,
    step: usize,
    end: Result<RunEnd, RunFault>,
    front: usize,
) -> bool {
    let rest = &FIRST[..count.min(FIRST.len())];
    let text = &FIRST_TRANSCRIPT[..front.min(FIRST_TRANSCRIPT.len())];
    let fails = end.is_err();
    let reader = Steps { rest, step, fails };
    ends(alloc, reader, end, text)
}

#[test]
fn a_cut_line_is_done_at_the_end_and_not_at_a_fault(rt: HostRuntime) {
    for step in [1, 7, 1000] {
        assert!(rt; ends_after(rt.alloc(), 20, step, Err(RunFault::Read), 13));
        assert!(rt; ends_after(rt.alloc(), 27, step, Err(RunFault::Read), 20));
        assert!(rt; ends_after(rt.alloc(), 27, step, FOUR_LINES, 30));
        assert!(rt; ends_after(rt.alloc(), 28, step, Err(RunFault::Read), 30));
    }
}

#[test]
fn a_writer_without_room_keeps_a_front(rt: HostRuntime) {
    for room in 0..30usize {
        let (end, kept) = written(rt.alloc(), FIRST, room, 1000);
        assert!(rt; end == Err(RunFault::Write), "room for {room}");
        assert!(rt;
            kept.as_slice() == &FIRST_TRANSCRIPT[..room],
            "room for {room}"
        );
    }
    let (end, kept) = written(rt.alloc(), FIRST, 30, 1000);
    assert!(rt; end == FOUR_LINES);
    assert!(rt; kept.as_slice() == FIRST_TRANSCRIPT);
}

// A graph is shown after its arcs were made.
const SHOWN: &[u8] = b"graph g 2\nedge g 0 1 -5\nset g V1 z \"z\"\nshow g\nlist\ngen\n";

const SHOWN_TRANSCRIPT: &[u8] = b"g: 2 vertices, 0 arcs
A0 A1
ok
\"gb_new_graph(2)\" ZZZZZZZZZZZZZZ
2 vertices, 2 arcs, 2 numbers
V0 \"\"
  A0 V1 -5
V1 \"\" z=\"z\"
  A1 V0 -5
1 graphs
g: 2 vertices, 2 arcs
seed 0, draws 0, unread 54
";

#[test]
fn a_show_without_room_keeps_a_front(rt: HostRuntime) {
    let whole = SHOWN_TRANSCRIPT.len();
    for room in 0..whole + 1 {
        let (end, kept) = written(rt.alloc(), SHOWN, room, 1000);
        assert!(rt; end.is_ok() == (room == whole), "room for {room}");
        assert!(rt;
            kept.as_slice() == &SHOWN_TRANSCRIPT[..room],
            "room for {room}"
        );
    }
}

// How a run of so many newlines ends, and how many of them are left.
fn after_newlines(alloc: Global, count: usize) -> (Result<RunEnd, RunFault>, usize) {
    let newlines = Same {
        byte: b'\n',
        left: count,
    };
    let ended = run(alloc, newlines, Vec::new(alloc));
    (ended.end, ended.reader.into_inner().left)
}

#[test]
fn a_script_has_its_limit(rt: HostRuntime) {
    let (end, _left) = after_newlines(rt.alloc(), SCRIPT_LIMIT);
    assert!(rt;
        end == Ok(RunEnd {
            lines: 16_777_216,
            refused: 0
        })
    );
    let (end, left) = after_newlines(rt.alloc(), SCRIPT_LIMIT + 1);
    assert!(rt; end == Err(RunFault::TooLong));
    assert!(rt; left == 0);
}

// Six bytes too many; the last line but one is cut by the limit.
fn cut_by_the_limit(alloc: Global) -> Result<Vec<u8>, AllocError> {
    let mut script = Vec::from_slice(alloc, b"next\n")?;
    for _ in script.len()..SCRIPT_LIMIT - 4 {
        script.push(b'\n')?;
    }
    script.extend_from_slice(b"next\nnext\n")?;
    Ok(script)
}

#[test]
fn lines_within_the_limit_are_answered(rt: HostRuntime) -> Result<(), Fail> {
    let script = cut_by_the_limit(rt.alloc())?;
    let end = Err(RunFault::TooLong);
    assert!(rt; ends(rt.alloc(), script.as_slice(), end, b"2029883356\n"));
    Ok(())
}

#[test]
fn statuses_are_told(rt: HostRuntime) {
    assert!(rt; exit_status(&Ok(true)) == 0);
    assert!(rt; exit_status(&Ok(false)) == 1);
    assert!(rt; exit_status(&Err(RunFault::TooLong)) == 2);
}
