//! The commands that make a graph.
ghost use Rattle.std.specs.Prelude.{codes};
ghost use Rattle.std.specs.Option.{option_and_then};
ghost use Rattle.sgb_script.specs.Commands.{line_of_command};
ghost use Rattle.sgb_script.specs.Private.Reading.{Reads};

use crate::arguments::text;
use crate::command::{Line, Maker, Single};
use crate::refusal::ShellRefusal;
use crate::words::Words;
use sgb_combine::{ComplementSpec, GunionSpec, InducedSpec, ProductSpec};
use sgb_make::{BinarySpec, BoardSpec, PermsSpec, RandomSpec, SimplexSpec, SubsetsSpec};
use std::alloc::Global;

pub(crate) fn empty(words: &mut Words<'_>) -> Result<Line, ShellRefusal>
    ensures { Reads (option_and_then (line_of_command (codes "graph")) words.old) result }
{
    let name = words.name()?;
    let count = words.number()?;
    words.finish(Line::Change(Single::Make(name, Maker::Empty(count))))
}

pub(crate) fn board(words: &mut Words<'_>) -> Result<Line, ShellRefusal>
    ensures { Reads (option_and_then (line_of_command (codes "board")) words.old) result }
{
    let name = words.name()?;
    let spec = BoardSpec {
        n1: words.number()?,
        n2: words.number()?,
        n3: words.number()?,
        n4: words.number()?,
        piece: words.number()?,
        wrap: words.number()?,
        directed: words.flag()?,
    };
    words.finish(Line::Change(Single::Make(name, Maker::Board(spec))))
}

pub(crate) fn simplex(words: &mut Words<'_>) -> Result<Line, ShellRefusal>
    ensures { Reads (option_and_then (line_of_command (codes "simplex")) words.old) result }
{
    let name = words.name()?;
    let spec = SimplexSpec {
        n: words.number()?,
        n0: words.number()?,
        n1: words.number()?,
        n2: words.number()?,
        n3: words.number()?,
        n4: words.number()?,
        directed: words.flag()?,
    };
    words.finish(Line::Change(Single::Make(name, Maker::Simplex(spec))))
}

pub(crate) fn subsets(words: &mut Words<'_>) -> Result<Line, ShellRefusal>
    ensures { Reads (option_and_then (line_of_command (codes "subsets")) words.old) result }
{
    let name = words.name()?;
    let spec = SubsetsSpec {
        n: words.number()?,
        n0: words.number()?,
        n1: words.number()?,
        n2: words.number()?,
        n3: words.number()?,
        n4: words.number()?,
        size_bits: words.bits()?,
        directed: words.flag()?,
    };
    words.finish(Line::Change(Single::Make(name, Maker::Subsets(spec))))
}

pub(crate) fn perms(words: &mut Words<'_>) -> Result<Line, ShellRefusal>
    ensures { Reads (option_and_then (line_of_command (codes "perms")) words.old) result }
{
    let name = words.name()?;
    let spec = PermsSpec {
        n0: words.number()?,
        n1: words.number()?,
        n2: words.number()?,
        n3: words.number()?,
        n4: words.number()?,
        max_inv: words.number()?,
        directed: words.flag()?,
    };
    words.finish(Line::Change(Single::Make(name, Maker::Perms(spec))))
}

pub(crate) fn binary(words: &mut Words<'_>) -> Result<Line, ShellRefusal>
    ensures { Reads (option_and_then (line_of_command (codes "binary")) words.old) result }
{
    let name = words.name()?;
    let spec = BinarySpec {
        n: words.number()?,
        max_height: words.number()?,
        directed: words.flag()?,
    };
    words.finish(Line::Change(Single::Make(name, Maker::Binary(spec))))
}

pub(crate) fn random(words: &mut Words<'_>) -> Result<Line, ShellRefusal>
    ensures { Reads (option_and_then (line_of_command (codes "random")) words.old) result }
{
    let name = words.name()?;
    let spec = RandomSpec {
        n: words.number()?,
        m: words.number()?,
        multi: words.number()?,
        loops: words.flag()?,
        directed: words.flag()?,
        min: words.number()?,
        max: words.number()?,
    };
    let seed = words.seed()?;
    words.finish(Line::Change(Single::Make(name, Maker::Random(spec, seed))))
}

pub(crate) fn complement(words: &mut Words<'_>) -> Result<Line, ShellRefusal>
    ensures { Reads (option_and_then (line_of_command (codes "complement")) words.old) result }
{
    let name = words.name()?;
    let graph = words.name()?;
    let spec = ComplementSpec {
        copy: words.flag()?,
        loops: words.flag()?,
        directed: words.flag()?,
    };
    words.finish(Line::Change(Single::Make(name, Maker::Complement(graph, spec))))
}

pub(crate) fn gunion(words: &mut Words<'_>) -> Result<Line, ShellRefusal>
    ensures { Reads (option_and_then (line_of_command (codes "gunion")) words.old) result }
{
    let name = words.name()?;
    let graph = words.name()?;
    let other = words.name()?;
    let spec = GunionSpec {
        multi: words.flag()?,
        directed: words.flag()?,
    };
    words.finish(Line::Change(Single::Make(name, Maker::Gunion(graph, other, spec))))
}

pub(crate) fn intersection(words: &mut Words<'_>) -> Result<Line, ShellRefusal>
    ensures { Reads (option_and_then (line_of_command (codes "intersection")) words.old) result }
{
    let name = words.name()?;
    let maker = Maker::Intersection(words.name()?, words.name()?, words.flag()?);
    words.finish(Line::Change(Single::Make(name, maker)))
}

pub(crate) fn product(words: &mut Words<'_>) -> Result<Line, ShellRefusal>
    ensures { Reads (option_and_then (line_of_command (codes "product")) words.old) result }
{
    let name = words.name()?;
    let graph = words.name()?;
    let other = words.name()?;
    let spec = ProductSpec {
        kind: words.number()?,
        directed: words.flag()?,
    };
    words.finish(Line::Change(Single::Make(name, Maker::Product(graph, other, spec))))
}

pub(crate) fn induced(alloc: Global, words: &mut Words<'_>) -> Result<Line, ShellRefusal>
    ensures { Reads (option_and_then (line_of_command (codes "induced")) words.old) result }
{
    let name = words.name()?;
    let graph = words.name()?;
    let description = words.text()?;
    let spec = InducedSpec {
        loops: words.flag()?,
        multi: words.flag()?,
        directed: words.flag()?,
    };
    words.end()?;
    let maker = Maker::Induced(graph, text(alloc, description)?, spec);
    Ok(Line::Change(Single::Make(name, maker)))
}
