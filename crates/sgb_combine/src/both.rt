//! The arcs of a vertex in two graphs, read side by side.
ghost use Rattle.std.specs.Prelude.{◌≡◌, ◌<◌, ◌∷◌, ◌++◌, [], All, IsSome, OnOk};
ghost use Rattle.std.specs.List.{filter};
ghost use Rattle.sgb_graph.specs.Graph.{n_of, arc_at};
ghost use Rattle.sgb_graph.specs.Operand.{spokes};
ghost use Rattle.sgb_combine.specs.Gunion.{is_candidate};
ghost use Rattle.sgb_combine.specs.Private.Both.{passing};

use sgb_graph::{ArcNo, Graph, Spoke, VertexNo, Walk, spoke_at};
use std::alloc::{AllocError, Global};

// Which spokes are sought: those of this vertex to one of n vertices, and not below it where edges are made.
#[derive(Clone, Copy)]
struct Sought {
    vertex: VertexNo,
    directed: bool,
    n: u32,
}

// Spokes of two graphs, those of each in the order of its list.
#[derive(Drop)]
pub(crate) struct Both {
    pub mine: Vec<Spoke>,
    pub theirs: Vec<Spoke>,
}

impl Both {
    pub(crate) fn new(alloc: Global) -> Both {
        Both {
            mine: Vec::new(alloc),
            theirs: Vec::new(alloc),
        }
    }

    // Reads the spokes of a vertex in both graphs, of which the second may lack it, that lead to vertices of the first and
    // where edges are made not below the vertex, in place of what was read before. The second halves of loops are among
    // them where `halves` is true. The two lists are walked side by side: each arc names the next, so that the processor
    // waits for an arc of each list at a time.
    pub(crate) fn read(
        &mut self,
        first: &Graph,
        second: &Graph,
        vertex: VertexNo,
        halves: bool,
        directed: bool,
    ) -> Result<(), AllocError>
        requires { vertex.0 < n_of first.now }
        ensures mine { OnOk result (self.new.mine.items ≡
            filter (is_candidate directed (n_of first.now) vertex.0) (spokes halves first.now vertex.0)) }
        ensures theirs { OnOk result (self.new.theirs.items ≡
            filter (is_candidate directed (n_of first.now) vertex.0) (spokes halves second.now vertex.0)) }
    {
        self.mine.clear();
        self.theirs.clear();
        let n = first.n();
        let sought = Sought {
            vertex,
            directed,
            n,
        };
        let numbers = first.walk(vertex, halves);
        if vertex.0 >= second.n() {
            hold_rest(&mut self.mine, first, numbers, sought)?;
            return Ok(());
        }
        let mut others = second.walk(vertex, halves);
        for number in numbers {
            hold(&mut self.mine, first, number, sought)?;
            hold_next(&mut self.theirs, second, &mut others, sought)?;
        }
        hold_rest(&mut self.theirs, second, others, sought)
    }
}

// Adds what is sought of the arcs that are left of a list.
fn hold_rest(
    into: &mut Vec<Spoke>,
    graph: &Graph,
    numbers: Walk<'_>,
    sought: Sought,
) -> Result<(), AllocError>
    requires { All (λ k. IsSome (arc_at graph.now k)) numbers }
    ensures { OnOk result (into.new.items ≡ into.old.items ++
        passing graph.now (is_candidate sought.directed sought.n sought.vertex.0) numbers.entry) }
{
    for number in numbers {
        hold(into, graph, number, sought)?;
    }
    Ok(())
}

// Adds the spoke of the next arc of a list, if there is one and its spoke is sought.
fn hold_next(
    into: &mut Vec<Spoke>,
    graph: &Graph,
    numbers: &mut Walk<'_>,
    sought: Sought,
) -> Result<(), AllocError>
    requires { All (λ k. IsSome (arc_at graph.now k)) numbers.old }
    ensures held { OnOk result
        (into.new.items ++ passing graph.now (is_candidate sought.directed sought.n sought.vertex.0) numbers.new ≡
        into.old.items ++ passing graph.now (is_candidate sought.directed sought.n sought.vertex.0) numbers.old) }
    ensures live { All (λ k. IsSome (arc_at graph.now k)) numbers.new }
{
    let Some(number) = numbers.next() else {
        return Ok(());
    };
    hold(into, graph, number, sought)?;
    Ok(())
}

// Adds the spoke of an arc, if it is sought.
#[inline]
fn hold(
    into: &mut Vec<Spoke>,
    graph: &Graph,
    number: ArcNo,
    sought: Sought,
) -> Result<(), AllocError>
    requires { IsSome (arc_at graph.now number.0) }
    ensures { OnOk result (into.new.items ≡ into.old.items ++
        passing graph.now (is_candidate sought.directed sought.n sought.vertex.0) (number.0 ∷ [])) }
{
    let spoke = spoke_at(graph, number);
    if !is_sought(spoke, sought) {
        return Ok(());
    }
    into.push(spoke)?;
    Ok(())
}

#[inline]
fn is_sought(spoke: Spoke, sought: Sought) -> bool
    ensures { result ≡ is_candidate sought.directed sought.n sought.vertex.0 spoke }
{
    let low = if sought.directed { 0 } else { sought.vertex.0 };
    low <= spoke.to && spoke.to < sought.n
}
