//! The commands that change a graph of the session.
ghost use Rattle.std.specs.Prelude.{codes};
ghost use Rattle.std.specs.Option.{option_and_then};
ghost use Rattle.sgb_script.specs.Commands.{line_of_command};
ghost use Rattle.sgb_script.specs.Private.Reading.{Reads};

use crate::arguments::{place_in, text, the_value};
use crate::command::{Edit, Line, Single};
use crate::refusal::ShellRefusal;
use crate::words::Words;
use sgb_combine::LengthsSpec;
use std::alloc::Global;

pub(crate) fn arc(words: &mut Words<'_>) -> Result<Line, ShellRefusal>
    ensures { Reads (option_and_then (line_of_command (codes "arc")) words.old) result }
{
    let graph = words.name()?;
    let edit = Edit::Arc(words.vertex()?, words.vertex()?, words.number()?);
    words.finish(Line::Change(Single::Edit(graph, edit)))
}

pub(crate) fn edge(words: &mut Words<'_>) -> Result<Line, ShellRefusal>
    ensures { Reads (option_and_then (line_of_command (codes "edge")) words.old) result }
{
    let graph = words.name()?;
    let edit = Edit::Edge(words.vertex()?, words.vertex()?, words.number()?);
    words.finish(Line::Change(Single::Edit(graph, edit)))
}

pub(crate) fn cut(words: &mut Words<'_>) -> Result<Line, ShellRefusal>
    ensures { Reads (option_and_then (line_of_command (codes "cut")) words.old) result }
{
    let graph = words.name()?;
    let arc = words.arc()?;
    words.finish(Line::Change(Single::Edit(graph, Edit::Cut(arc))))
}

pub(crate) fn len(words: &mut Words<'_>) -> Result<Line, ShellRefusal>
    ensures { Reads (option_and_then (line_of_command (codes "len")) words.old) result }
{
    let graph = words.name()?;
    let edit = Edit::Len(words.arc()?, words.number()?);
    words.finish(Line::Change(Single::Edit(graph, edit)))
}

pub(crate) fn set(alloc: Global, words: &mut Words<'_>) -> Result<Line, ShellRefusal>
    ensures { Reads (option_and_then (line_of_command (codes "set")) words.old) result }
{
    let graph = words.name()?;
    let place = words.plain()?;
    let place = place_in(place, words.plain()?).ok_or(ShellRefusal::ScriptSyntax)?;
    let value = words.next()?;
    words.end()?;
    let edit = Edit::Set(place, the_value(alloc, value)?);
    Ok(Line::Change(Single::Edit(graph, edit)))
}

pub(crate) fn types(words: &mut Words<'_>) -> Result<Line, ShellRefusal>
    ensures { Reads (option_and_then (line_of_command (codes "types")) words.old) result }
{
    let graph = words.name()?;
    let types = words.letters()?;
    words.finish(Line::Change(Single::Edit(graph, Edit::Types(types))))
}

pub(crate) fn label(alloc: Global, words: &mut Words<'_>) -> Result<Line, ShellRefusal>
    ensures { Reads (option_and_then (line_of_command (codes "label")) words.old) result }
{
    let graph = words.name()?;
    let vertex = words.vertex()?;
    let label = words.text()?;
    words.end()?;
    let edit = Edit::Label(vertex, text(alloc, label)?);
    Ok(Line::Change(Single::Edit(graph, edit)))
}

pub(crate) fn id(alloc: Global, words: &mut Words<'_>) -> Result<Line, ShellRefusal>
    ensures { Reads (option_and_then (line_of_command (codes "id")) words.old) result }
{
    let graph = words.name()?;
    let id = words.text()?;
    words.end()?;
    let edit = Edit::Id(text(alloc, id)?);
    Ok(Line::Change(Single::Edit(graph, edit)))
}

pub(crate) fn lengths(words: &mut Words<'_>) -> Result<Line, ShellRefusal>
    ensures { Reads (option_and_then (line_of_command (codes "lengths")) words.old) result }
{
    let graph = words.name()?;
    let spec = LengthsSpec {
        directed: words.flag()?,
        min: words.number()?,
        max: words.number()?,
    };
    let seed = words.seed()?;
    words.finish(Line::Change(Single::Lengths(graph, spec, seed)))
}

pub(crate) fn drop_graph(words: &mut Words<'_>) -> Result<Line, ShellRefusal>
    ensures { Reads (option_and_then (line_of_command (codes "drop")) words.old) result }
{
    let graph = words.name()?;
    words.finish(Line::Change(Single::Drop(graph)))
}
