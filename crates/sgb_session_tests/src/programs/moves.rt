//! The queen's moves, as another implementation writes them.

use crate::fake::Room;
use sgb_print::RunFault;
use sgb_programs::queen;
use std::alloc::Global;
use std::test::Fail;

const MOVES: &str = "Queen Moves on a 3x4 Board

  The graph whose official name is
gunion(board(3,4,0,0,-1,0,0),board(3,4,0,0,-2,0,0),0,0)
  has 12 vertices and 92 arcs:

0.0
  -> 1.1, length 1
  -> 2.2, length 2
  -> 0.1, length 1
  -> 0.2, length 2
  -> 0.3, length 3
  -> 1.0, length 1
  -> 2.0, length 2
0.1
  -> 1.2, length 1
  -> 2.3, length 2
  -> 1.0, length 1
  -> 0.2, length 1
  -> 0.3, length 2
  -> 1.1, length 1
  -> 2.1, length 2
  -> 0.0, length 1
0.2
  -> 1.3, length 1
  -> 1.1, length 1
  -> 2.0, length 2
  -> 0.3, length 1
  -> 1.2, length 1
  -> 2.2, length 2
  -> 0.1, length 1
  -> 0.0, length 2
0.3
  -> 1.2, length 1
  -> 2.1, length 2
  -> 1.3, length 1
  -> 2.3, length 2
  -> 0.2, length 1
  -> 0.1, length 2
  -> 0.0, length 3
1.0
  -> 2.1, length 1
  -> 1.1, length 1
  -> 1.2, length 2
  -> 1.3, length 3
  -> 2.0, length 1
  -> 0.1, length 1
  -> 0.0, length 1
1.1
  -> 2.2, length 1
  -> 2.0, length 1
  -> 1.2, length 1
  -> 1.3, length 2
  -> 2.1, length 1
  -> 1.0, length 1
  -> 0.2, length 1
  -> 0.1, length 1
  -> 0.0, length 1
1.2
  -> 2.3, length 1
  -> 2.1, length 1
  -> 1.3, length 1
  -> 2.2, length 1
  -> 1.1, length 1
  -> 1.0, length 2
  -> 0.3, length 1
  -> 0.2, length 1
  -> 0.1, length 1
1.3
  -> 2.2, length 1
  -> 2.3, length 1
  -> 1.2, length 1
  -> 1.1, length 2
  -> 1.0, length 3
  -> 0.3, length 1
  -> 0.2, length 1
2.0
  -> 2.1, length 1
  -> 2.2, length 2
  -> 2.3, length 3
  -> 1.1, length 1
  -> 1.0, length 1
  -> 0.2, length 2
  -> 0.0, length 2
2.1
  -> 2.2, length 1
  -> 2.3, length 2
  -> 2.0, length 1
  -> 1.2, length 1
  -> 1.1, length 1
  -> 1.0, length 1
  -> 0.3, length 2
  -> 0.1, length 2
2.2
  -> 2.3, length 1
  -> 2.1, length 1
  -> 2.0, length 2
  -> 1.3, length 1
  -> 1.2, length 1
  -> 1.1, length 1
  -> 0.2, length 2
  -> 0.0, length 2
2.3
  -> 2.2, length 1
  -> 2.1, length 2
  -> 2.0, length 3
  -> 1.3, length 1
  -> 1.2, length 1
  -> 0.3, length 2
  -> 0.1, length 2
";

fn moves(alloc: Global) -> Result<Vec<u8>, Fail> {
    let finished = queen(alloc, Vec::new(alloc));
    finished.end?;
    Ok(finished.writer.into_inner())
}

// The clause `shows` of `queen` says that the graph of the definition is printed, or that an allocation failed. So this test
// shows that the definition has a graph, and with it that only a failed allocation can refuse the queen.
#[test]
fn the_moves_are_written(rt: HostRuntime) -> Result<(), Fail> {
    let text = moves(rt.alloc())?;
    assert!(rt; text.as_slice() == MOVES.as_bytes());
    Ok(())
}

// What a writer with so much room keeps of the moves, where it fails.
fn front_of(alloc: Global, room: usize) -> Option<Vec<u8>> {
    let writer = Room {
        kept: Vec::new(alloc),
        room,
        step: 7,
    };
    let finished = queen(alloc, writer);
    match finished.end {
        Err(RunFault::Write) => Some(finished.writer.into_inner().kept),
        _ => None,
    }
}

// Whether the writer that fails keeps this text.
fn fails_after(alloc: Global, text: &[u8]) -> bool {
    match front_of(alloc, text.len()) {
        Some(kept) => kept.as_slice() == text,
        None => false,
    }
}

#[test]
fn failed_writes_are_told(rt: HostRuntime) {
    for room in 0..MOVES.len() {
        assert!(rt;
            fails_after(rt.alloc(), &MOVES.as_bytes()[..room]),
            "room for {room}"
        );
    }
}
