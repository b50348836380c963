//! The edits of the script, made to a graph.
ghost use Rattle.std.specs.Prelude.{◌≡◌, true, false, MatchResult};
ghost use Rattle.sgb_graph.specs.declared.refusal.Refusal.TheVariants.{NoRoom};
ghost use Rattle.sgb_session.specs.declared.reply.SingleReply.TheVariants.{Done};
ghost use Rattle.sgb_script.specs.declared.command.Edit.TheVariants.{Arc, Edge, Set, Label, Id};
ghost use Rattle.sgb_session.specs.Edits.{edited, is_text_value};
ghost use Rattle.sgb_session.specs.Private.Making.{Makes, edit_may_want, with_done};

use crate::reply::SingleReply;
use sgb_graph::{ArcNo, Graph, GraphDelta, Place, Refusal, Text, Util, VertexNo};
use sgb_script::Edit;
use std::alloc::Global;

/// Makes an edit. A text is copied first, since the command keeps its own.
pub(crate) fn make_edit(
    alloc: Global,
    graph: &mut Graph,
    edit: &Edit,
) -> Result<(GraphDelta, SingleReply), Refusal>
    ensures { Makes (edit_may_want edit.now) graph.old graph.new (edited graph.old edit.now) result }
{
    match edit {
        Edit::Arc(from, to, len) => make_arc(graph, *from, *to, *len),
        Edit::Edge(from, to, len) => make_edge(graph, *from, *to, *len),
        Edit::Cut(number) => done(graph.cut(*number)),
        Edit::Len(number, len) => done(graph.set_len(*number, *len)),
        Edit::Set(place, value) => set_value(alloc, graph, *place, value),
        Edit::Types(types) => Ok((graph.set_types(*types), SingleReply::Done)),
        Edit::Label(vertex, text) => set_label(alloc, graph, *vertex, text),
        Edit::Id(text) => set_id(alloc, graph, text),
    }
}

fn make_arc(
    graph: &mut Graph,
    from: VertexNo,
    to: VertexNo,
    len: i64,
) -> Result<(GraphDelta, SingleReply), Refusal>
    ensures { Makes (edit_may_want (Arc from to len)) graph.old graph.new (edited graph.old (Arc from to len)) result }
{
    let (number, delta) = graph.new_arc(from, to, len)?;
    Ok((delta, SingleReply::Arc(number)))
}

fn make_edge(
    graph: &mut Graph,
    from: VertexNo,
    to: VertexNo,
    len: i64,
) -> Result<(GraphDelta, SingleReply), Refusal>
    ensures { Makes (edit_may_want (Edge from to len)) graph.old graph.new (edited graph.old (Edge from to len)) result }
{
    let (number, delta) = graph.new_edge(from, to, len)?;
    Ok((delta, SingleReply::Edge(number, ArcNo(number.0 + 1))))
}

fn set_value(
    alloc: Global,
    graph: &mut Graph,
    place: Place,
    value: &Util,
) -> Result<(GraphDelta, SingleReply), Refusal>
    ensures { Makes (edit_may_want (Set place value.now)) graph.old graph.new (edited graph.old (Set place value.now)) result }
{
    done(graph.set_util(place, copy_of_value(alloc, value)?))
}

fn set_label(
    alloc: Global,
    graph: &mut Graph,
    vertex: VertexNo,
    text: &Text,
) -> Result<(GraphDelta, SingleReply), Refusal>
    ensures { Makes (edit_may_want (Label vertex text.now)) graph.old graph.new (edited graph.old (Label vertex text.now)) result }
{
    done(graph.set_label(vertex, copy_of_text(alloc, text)?))
}

fn set_id(
    alloc: Global,
    graph: &mut Graph,
    text: &Text,
) -> Result<(GraphDelta, SingleReply), Refusal>
    ensures { Makes (edit_may_want (Id text.now)) graph.old graph.new (edited graph.old (Id text.now)) result }
{
    done(graph.set_id(copy_of_text(alloc, text)?))
}

// An edit that answers no number.
fn done(outcome: Result<GraphDelta, Refusal>) -> Result<(GraphDelta, SingleReply), Refusal>
    ensures { result ≡ with_done outcome }
{
    Ok((outcome?, SingleReply::Done))
}

fn copy_of_value(alloc: Global, value: &Util) -> Result<Util, Refusal>
    ensures { MatchResult result (λ u. u ≡ value.now) (λ e. (e ≡ NoRoom) × (is_text_value value.now ≡ true)) }
{
    match value {
        Util::Zero => Ok(Util::Zero),
        Util::Int(number) => Ok(Util::Int(*number)),
        Util::Vertex(vertex) => Ok(Util::Vertex(*vertex)),
        Util::Arc(arc) => Ok(Util::Arc(*arc)),
        Util::Text(text) => Ok(Util::Text(copy_of_text(alloc, text)?)),
    }
}

fn copy_of_text(alloc: Global, text: &Text) -> Result<Text, Refusal>
    ensures { MatchResult result (λ t. t ≡ text.now) (λ e. e ≡ NoRoom) }
{
    Text::new(alloc, text.bytes())
}
