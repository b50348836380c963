//! Making the insertions of runs.
ghost use Rattle.std.specs.Prelude.{◌<◌, ◌≤◌, ◌+◌, ◌≡◌};
ghost use Rattle.std.specs.List.{flat_map};
ghost use Rattle.sgb_graph.specs.Builder.{Inserts, insertion};
ghost use Rattle.sgb_graph.specs.Graph.{n_of};
ghost use Rattle.sgb_induced.specs.Induced.{is_wanted};
ghost use Rattle.sgb_induced.specs.Private.Run.{AreWithin, between, expanded, from_one};

use crate::image::{Image, image_at};
use crate::run::Run;
use sgb_graph::{Builder, Refusal, VertexNo};

// Makes the insertions of all the runs, each between the images of its ends.
pub(crate) fn insert_runs(
    builder: &mut Builder,
    images: &[Image],
    runs: &[Run],
    loops: bool,
    directed: bool,
) -> Result<(), Refusal>
    requires within { AreWithin (n_of builder.old.graph) images.now }
    requires few { n_of builder.old.graph ≤ 65535 }
    ensures { Inserts builder.old builder.new (flat_map (expanded loops directed images.now) runs.now) result }
{
    for run in runs {
        let from = image_at(images, run.from);
        let to = image_at(images, run.to);
        insert_between(builder, from, to, *run, loops, directed)?;
    }
    Ok(())
}

// Makes the insertions of one run.
fn insert_between(
    builder: &mut Builder,
    from: Image,
    to: Image,
    run: Run,
    loops: bool,
    directed: bool,
) -> Result<(), Refusal>
    requires from { from.start + from.count ≤ n_of builder.old.graph }
    requires to { to.start + to.count ≤ n_of builder.old.graph }
    requires few { n_of builder.old.graph ≤ 65535 }
    ensures { Inserts builder.old builder.new (between loops directed from to run) result }
{
    for x in from.start..from.start + from.count {
        insert_from(builder, x, to, run, loops, directed)?;
    }
    Ok(())
}

// Makes the insertions of one run that leave one image.
fn insert_from(
    builder: &mut Builder,
    x: u32,
    to: Image,
    run: Run,
    loops: bool,
    directed: bool,
) -> Result<(), Refusal>
    requires from { x < n_of builder.old.graph }
    requires to { to.start + to.count ≤ n_of builder.old.graph }
    requires few { n_of builder.old.graph ≤ 65535 }
    ensures { Inserts builder.old builder.new (from_one loops directed to run x) result }
{
    let alone = run.from == run.to;
    let len = run.length();
    for y in to.start..to.start + to.count {
        if !is_wanted(x, y, loops, directed, alone) {
            continue;
        }
        builder.insert(VertexNo(x), VertexNo(y), len)?;
    }
    Ok(())
}

// An insertion from x to y is made.
#[inline]
fn is_wanted(x: u32, y: u32, loops: bool, directed: bool, alone: bool) -> bool
    ensures { result ≡ is_wanted loops directed alone x y }
{
    (loops || x != y) && (directed || !alone || x <= y)
}
