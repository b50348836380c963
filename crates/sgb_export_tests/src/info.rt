//! The facts of graphs, and what refused growths and failing writers lead to.

use crate::graphs::{Made, empty, leading_to, loops, two_edges};
use sgb_graph::{Graph, Refusal, Tip};
use sgb_info::{Facts, print_facts};
use sgb_make::{BoardSpec, RandomSpec, board, random_graph};
use sgb_print::MeteredWriter;
use std::alloc::{AllocError, Global};
use std::io::{Error, ErrorKind, Write};

const ROOK: &str = "id              \"board(3,4,0,0,-1,0,0)\"
vertices        12
arcs            60
edges           30
loops           0
repeated        0
out-least       5
out-greatest    5
in-least        -
in-greatest     -
length-least    1
length-greatest 3
components      1
bipartite       no
honest          yes
check           787029609
";

// Arcs 1-2, 0-1, 2-1, 4-0, 1-2, 0-1, 4-4, 4-1 and 1-1, of the lengths 3, -3, -2, 4, -3, -2, 4, 3 and 8.
const RANDOM: &str = "id              \"random_graph(5,9,1,1,1,0,0,-3,8,0)\"
vertices        5
arcs            9
edges           -
loops           2
repeated        2
out-least       0
out-greatest    3
in-least        0
in-greatest     5
length-least    -3
length-greatest 8
components      2
bipartite       no
honest          yes
check           964851330
";

const EMPTY: &str = "id              \"gb_new_graph(0)\"
vertices        0
arcs            0
edges           0
loops           0
repeated        0
out-least       -
out-greatest    -
in-least        -
in-greatest     -
length-least    -
length-greatest -
components      0
bipartite       yes
honest          yes
check           287428027
";

const LOOP: &str = "id              \"gb_new_graph(1)\"
vertices        1
arcs            2
edges           1
loops           1
repeated        0
out-least       2
out-greatest    2
in-least        -
in-greatest     -
length-least    7
length-greatest 7
components      1
bipartite       no
honest          yes
check           364611790
";

const TWICE: &str = "id              \"gb_new_graph(2)\"
vertices        2
arcs            4
edges           2
loops           0
repeated        1
out-least       2
out-greatest    2
in-least        -
in-greatest     -
length-least    5
length-greatest 6
components      1
bipartite       yes
honest          yes
check           855652438
";

fn rook(alloc: Global) -> Made {
    let spec = BoardSpec {
        n1: 3,
        n2: 4,
        n3: 0,
        n4: 0,
        piece: -1,
        wrap: 0,
        directed: false,
    };
    match board(alloc, &spec) {
        Err(Refusal::NoRoom) => board(alloc, &spec),
        made => made,
    }
}

fn random(alloc: Global) -> Made {
    let spec = RandomSpec {
        n: 5,
        m: 9,
        multi: 1,
        loops: true,
        directed: true,
        min: -3,
        max: 8,
    };
    let (graph, _flip, _draws) = random_graph(alloc, &spec, 0)?;
    Ok(graph)
}

// The facts, asked for once more where a growth is refused.
fn facts_of(alloc: Global, graph: &Graph) -> Result<Facts, Refusal> {
    match Facts::of(alloc, graph) {
        Err(Refusal::NoRoom) => Facts::of(alloc, graph),
        facts => facts,
    }
}

fn page(alloc: Global) -> Result<Vec<u8>, AllocError> {
    match Vec::with_capacity(alloc, 600) {
        Err(_) => Vec::with_capacity(alloc, 600),
        page => page,
    }
}

fn printed(alloc: Global, graph: &Graph) -> Option<Vec<u8>> {
    let (Ok(facts), Ok(page)) = (facts_of(alloc, graph), page(alloc)) else {
        return None;
    };
    let mut writer = MeteredWriter::new(page);
    match print_facts(&mut writer, graph.id(), &facts) {
        Ok(()) => Some(writer.into_inner()),
        Err(_) => None,
    }
}

// Whether these are the facts of the graph. It takes the graph, so that a test has none of its own.
fn are_facts(alloc: Global, made: Made, text: &str) -> bool {
    let Ok(graph) = made else {
        return false;
    };
    match printed(alloc, &graph) {
        Some(printed) => printed.as_slice() == text.as_bytes(),
        None => false,
    }
}

#[test]
fn of_edges(rt: HostRuntime) {
    assert!(rt; are_facts(rt.alloc(), empty(rt.alloc()), EMPTY));
    assert!(rt; are_facts(rt.alloc(), loops(rt.alloc(), false), LOOP));
    assert!(rt; are_facts(rt.alloc(), two_edges(rt.alloc()), TWICE));
}

#[test]
fn of_arcs(rt: HostRuntime) {
    assert!(rt; are_facts(rt.alloc(), random(rt.alloc()), RANDOM));
}

#[test]
fn growths_are_granted_to_facts_when_asked_again(rt: HostRuntime) {
    assert!(rt; are_facts(rt.alloc(), rook(rt.alloc()), ROOK));
}

fn refusal_of(alloc: Global, made: &Made) -> Option<Refusal> {
    match made {
        Ok(graph) => Facts::of(alloc, graph).err(),
        Err(_) => None,
    }
}

#[test]
fn arcs_to_no_vertex_have_no_facts(rt: HostRuntime) {
    let zero = leading_to(rt.alloc(), Tip::Zero);
    assert!(rt; refusal_of(rt.alloc(), &zero) == Some(Refusal::BadOperand));
}

// Takes so many bytes, one at a time, and then fails.
#[derive(Drop)]
struct Room {
    left: usize,
}

impl Write for Room {
    fn write(&mut self, bytes: &[u8]) -> std::io::Result<usize> {
        let count = self.left.min(bytes.len()).min(1);
        if count == 0 && !bytes.is_empty() {
            return Err(Error::from(ErrorKind::Other));
        }
        self.left -= count;
        Ok(count)
    }

    fn flush(&mut self) -> std::io::Result<()> {
        Ok(())
    }
}

// Whether the facts are written where there is so much room.
fn fits(alloc: Global, made: &Made, left: usize) -> Option<bool> {
    let Ok(graph) = made else {
        return None;
    };
    let Ok(facts) = facts_of(alloc, graph) else {
        return None;
    };
    let mut writer = MeteredWriter::new(Room { left });
    Some(print_facts(&mut writer, graph.id(), &facts).is_ok())
}

#[test]
fn no_failed_write_is_forgotten(rt: HostRuntime) {
    let made = two_edges(rt.alloc());
    for left in 0..TWICE.len() {
        assert!(rt;
            fits(rt.alloc(), &made, left) == Some(false),
            "room for {left}"
        );
    }
    assert!(rt; fits(rt.alloc(), &made, TWICE.len()) == Some(true));
}
