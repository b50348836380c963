//! The vertices that stand for those of a graph, and their names.
ghost use Rattle.std.specs.Prelude.{◌≡◌, ◌≤◌, IfErr, OnOk, Some, None, true, length, map, nat_le};
ghost use Rattle.std.specs.List.{range_with_len};
ghost use Rattle.sgb_graph.specs.Graph.{n_of};
ghost use Rattle.sgb_graph.specs.Text.{IsText};
ghost use Rattle.sgb_plan.specs.Plan.{Names};
ghost use Rattle.sgb_induced.specs.Fate.{fates_of};
ghost use Rattle.sgb_induced.specs.Image.{copy, copy_name, count_of, have_names, named};
ghost use Rattle.sgb_induced.specs.Induced.{refusal_of_fates};
ghost use Rattle.sgb_induced.specs.Private.Run.{image_of};

use crate::fate::{Fate, fate_at};
use crate::image::Image;
use itoa::Buffer;
use sgb_graph::{Builder, Graph, Refusal, Util, VertexNo};
use sgb_plan::label_of;
use std::alloc::{AllocError, Global};

// Refuses, `BadOperand`, a graph of which a field z does not say what becomes of its vertex, or asks for a copy whose
// name is too long. Does not allocate.
pub(crate) fn check_fates(graph: &Graph) -> Result<(), Refusal>
    ensures ok { OnOk result (refusal_of_fates graph.now ≡ None) }
    ensures err { IfErr result (λ e. refusal_of_fates graph.now ≡ Some e) }
{
    for v in 0..graph.n() {
        let Some(fate) = fate_at(graph, VertexNo(v)) else {
            return Err(Refusal::BadOperand);
        };
        if !has_name(graph.label(VertexNo(v)), fate) {
            return Err(Refusal::BadOperand);
        }
    }
    Ok(())
}

// The last copy of a vertex with this label has a name of at most 4,095 bytes.
fn has_name(label: &[u8], fate: Fate) -> bool
    requires { IsText label.now }
    ensures { result ≡ nat_le (length (copy_name label.now (count_of fate))) 4095 }
{
    match fate {
        Fate::Copies(count) => {
            let mut digits = Buffer::new();
            count <= 1 || label.len() + 1 + digits.format(count).len() <= 4095
        }
        Fate::Class(_) => true,
    }
}

// Makes the vertices that stand for those of the graph, in its order.
pub(crate) fn name_vertices(
    builder: &mut Builder,
    alloc: Global,
    graph: &Graph,
    images: &[Image],
) -> Result<(), Refusal>
    requires images { images.now ≡ map (image_of (fates_of graph.now)) (range_with_len 0 (n_of graph.now)) }
    requires names { have_names graph.now (fates_of graph.now) ≡ true }
    ensures { Names builder.old builder.new (named graph.now (fates_of graph.now)) result }
{
    let mut name = Vec::new(alloc);
    for v in 0..graph.n() {
        let image = images[v as usize];
        if image.leader != v {
            continue;
        }
        name_copies(builder, &mut name, graph.label(VertexNo(v)), image.count)?;
    }
    Ok(())
}

// Makes so many copies of a vertex with this label.
fn name_copies(
    builder: &mut Builder,
    name: &mut Vec<u8>,
    label: &[u8],
    count: u32,
) -> Result<(), Refusal>
    requires text { IsText label.now }
    requires short { length (copy_name label.now count) ≤ 4095 }
    ensures { Names builder.old builder.new (map (copy label.now) (range_with_len 1 count)) result }
{
    let alloc = *name.allocator();
    for j in 0..count {
        write_copy_name(name, label, j + 1)?;
        let label = label_of(alloc, name)?;
        let fields = [
            Util::Zero,
            Util::Zero,
            Util::Zero,
            Util::Zero,
            Util::Zero,
            Util::Zero,
        ];
        builder.push_vertex(label, fields)?;
    }
    Ok(())
}

// Writes the name of one copy, over what the buffer held.
fn write_copy_name(name: &mut Vec<u8>, label: &[u8], copy: u32) -> Result<(), AllocError>
    ensures { OnOk result (name.new.items ≡ copy_name label.now copy) }
{
    name.clear();
    name.extend_from_slice(label)?;
    if copy > 1 {
        let mut digits = Buffer::new();
        name.push(b':')?;
        name.extend_from_slice(digits.format(copy).as_bytes())?;
    }
    Ok(())
}
