//! The runs that the arcs of a graph ask for.
ghost use Rattle.std.specs.Prelude.{◌≡◌, ◌<◌, ◌==◌, ◌++◌, ◌&&◌, not, map, IfOk, OnOk};
ghost use Rattle.std.specs.List.{filter};
ghost use Rattle.sgb_graph.specs.Graph.{n_of};
ghost use Rattle.sgb_graph.specs.Operand.{spokes};
ghost use Rattle.sgb_induced.specs.Induced.{is_met};
ghost use Rattle.sgb_induced.specs.Private.Run.{all_runs, is_run, run_at, runs_of};

use crate::image::{Image, image_at};
use crate::merge::merge_runs;
use crate::run::Run;
use sgb_graph::{Graph, Spoke, VertexNo, spoke_at};
use std::alloc::{AllocError, Global};

// The runs of a graph, in the order of its vertices; without `multi` one for each pair of ends.
pub(crate) fn gather_runs(
    alloc: Global,
    graph: &Graph,
    images: &[Image],
    multi: bool,
    directed: bool,
) -> Result<Vec<Run>, AllocError>
    ensures { IfOk result (λ rs. rs.items ≡ runs_of multi directed graph.now images.now) }
{
    let runs = read_runs(alloc, graph, images, directed)?;
    if multi {
        Ok(runs)
    } else {
        merge_runs(alloc, &runs, directed)
    }
}

// The runs of all vertices.
fn read_runs(
    alloc: Global,
    graph: &Graph,
    images: &[Image],
    directed: bool,
) -> Result<Vec<Run>, AllocError>
    ensures { IfOk result (λ rs. rs.items ≡ all_runs directed graph.now images.now) }
{
    let mut runs = Vec::with_capacity(alloc, graph.m() as usize)?;
    for v in 0..graph.n() {
        let image = image_at(images, v);
        if image.count == 0 {
            continue;
        }
        append_runs(&mut runs, graph, images, VertexNo(v), directed)?;
    }
    Ok(runs)
}

// Writes the runs of one vertex behind the others.
fn append_runs(
    runs: &mut Vec<Run>,
    graph: &Graph,
    images: &[Image],
    vertex: VertexNo,
    directed: bool,
) -> Result<(), AllocError>
    requires { vertex.0 < n_of graph.now }
    ensures { OnOk result (runs.new.items ≡ runs.old.items
        ++ map (run_at images.now vertex.0) (filter (is_run directed images.now vertex.0) (spokes directed graph.now vertex.0))) }
{
    let from = image_at(images, vertex.0).leader;
    for number in graph.walk(vertex, directed) {
        let spoke = spoke_at(graph, number);
        let image = image_at(images, spoke.to);
        if !is_run(vertex.0, spoke, image, directed) {
            continue;
        }
        runs.push(Run {
            from,
            to: image.leader,
            len: spoke.len,
        })?;
    }
    Ok(())
}

// A spoke of v that counts, to a vertex with this image.
#[inline]
fn is_run(v: u32, spoke: Spoke, image: Image, directed: bool) -> bool
    ensures { result ≡ (is_met directed v spoke && not (image.count == 0)) }
{
    (directed || v <= spoke.to) && image.count != 0
}
