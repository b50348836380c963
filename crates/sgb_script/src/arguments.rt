//! The arguments of a command.
//!
//! Each method takes the next word off, and is refused `ScriptSyntax` if there is none or it is of another kind.
ghost use Rattle.std.specs.Prelude.{◌≡◌, ◌⊎◌, IfOk, IfErr, IsTrue, Some, None};
ghost use Rattle.sgb_graph.specs.Text.{IsText};
ghost use Rattle.sgb_script.specs.Arguments.{the_number, the_flag, the_bits, the_seed, the_rule, the_vertex, the_arc, the_name, the_text, the_letters, the_value, place_in, value_in, vertex_field, arc_field, graph_field};
ghost use Rattle.sgb_script.specs.Private.Words.{seen, the_plain, Takes, TakesBytes};
ghost use Rattle.sgb_script.specs.Private.Texts.{IsTextIfQuoted};
ghost use Rattle.sgb_script.specs.Private.Reading.{is_text};
ghost use Rattle.sgb_script.specs.declared.refusal.ShellRefusal.TheVariants.{NoRoom, ScriptSyntax};

use crate::Name;
use crate::numbers::{bits, in_32_bits, index, is_yes, number};
use crate::refusal::ShellRefusal;
use crate::words::{Word, Words};
use sgb_graph::{ArcField, ArcNo, GraphField, Place, Text, Types, Util, VertexField, VertexNo};
use sgb_make::Seed;
use sgb_text::CheckRule;
use std::alloc::Global;

impl<'a> Words<'a> {
    /// The bytes of a word without quotes.
    pub(crate) fn plain(&mut self) -> Result<&'a [u8], ShellRefusal>
        ensures { TakesBytes the_plain self.old result self.new }
    {
        match self.next()? {
            Word::Plain(bytes) => Ok(bytes),
            Word::Quoted(_) => Err(ShellRefusal::ScriptSyntax),
        }
    }

    /// The bytes of a text, without its quotes.
    pub(crate) fn text(&mut self) -> Result<&'a [u8], ShellRefusal>
        ensures word { TakesBytes the_text self.old result self.new }
        ensures text { IfOk result (λ t. IsText t.now) }
    {
        match self.next()? {
            Word::Quoted(text) => Ok(text),
            Word::Plain(_) => Err(ShellRefusal::ScriptSyntax),
        }
    }

    pub(crate) fn name(&mut self) -> Result<Name, ShellRefusal>
        ensures { Takes the_name self.old result self.new }
    {
        Name::new(self.plain()?).ok_or(ShellRefusal::ScriptSyntax)
    }

    /// A signed number of 64 bits.
    pub(crate) fn number(&mut self) -> Result<i64, ShellRefusal>
        ensures { Takes the_number self.old result self.new }
    {
        number(self.plain()?).ok_or(ShellRefusal::ScriptSyntax)
    }

    /// A flag: a number, where 0 is no and every other number is yes.
    pub(crate) fn flag(&mut self) -> Result<bool, ShellRefusal>
        ensures { Takes the_flag self.old result self.new }
    {
        Ok(is_yes(self.number()?))
    }

    /// A number from 0 to 2^64 - 1.
    pub(crate) fn bits(&mut self) -> Result<u64, ShellRefusal>
        ensures { Takes the_bits self.old result self.new }
    {
        bits(self.plain()?).ok_or(ShellRefusal::ScriptSyntax)
    }

    pub(crate) fn vertex(&mut self) -> Result<VertexNo, ShellRefusal>
        ensures { Takes the_vertex self.old result self.new }
    {
        Ok(VertexNo(in_32_bits(self.number()?)))
    }

    pub(crate) fn arc(&mut self) -> Result<ArcNo, ShellRefusal>
        ensures { Takes the_arc self.old result self.new }
    {
        Ok(ArcNo(in_32_bits(self.number()?)))
    }

    /// Fourteen letters of `ZIVSA`.
    pub(crate) fn letters(&mut self) -> Result<Types, ShellRefusal>
        ensures { Takes the_letters self.old result self.new }
    {
        Types::new(self.plain()?).ok_or(ShellRefusal::ScriptSyntax)
    }

    /// A seed: a number, or `-` for the generator as it stands.
    pub(crate) fn seed(&mut self) -> Result<Seed, ShellRefusal>
        ensures { Takes the_seed self.old result self.new }
    {
        match self.plain()? {
            b"-" => Ok(Seed::Current),
            bytes => Ok(Seed::Number(number(bytes).ok_or(ShellRefusal::ScriptSyntax)?)),
        }
    }

    /// What is done with a check number: `check` or `any`.
    pub(crate) fn rule(&mut self) -> Result<CheckRule, ShellRefusal>
        ensures { Takes the_rule self.old result self.new }
    {
        match self.plain()? {
            b"check" => Ok(CheckRule::Match),
            b"any" => Ok(CheckRule::Any),
            _ => Err(ShellRefusal::ScriptSyntax),
        }
    }
}

/// A text of these bytes. Refused `NoRoom` if the allocation fails.
pub(crate) fn text(alloc: Global, bytes: &[u8]) -> Result<Text, ShellRefusal>
    requires { IsText bytes.now }
    ensures ok { IfOk result (λ t. t ≡ bytes.now) }
    ensures err { IfErr result (λ e. e ≡ NoRoom) }
{
    match Text::new(alloc, bytes) {
        Ok(text) => Ok(text),
        Err(_) => Err(ShellRefusal::NoRoom),
    }
}

/// The value that a word says. Allocates only for a text.
pub(crate) fn the_value(alloc: Global, word: Word<'_>) -> Result<Util, ShellRefusal>
    requires { IsTextIfQuoted (seen word) }
    ensures ok { IfOk result (λ v. the_value (seen word.entry) ≡ Some v) }
    ensures err { IfErr result (λ e. ((e ≡ ScriptSyntax) × (the_value (seen word.entry) ≡ None))
        ⊎ ((e ≡ NoRoom) × IsTrue (is_text (the_value (seen word.entry))))) }
{
    match word {
        Word::Plain(bytes) => value_in(bytes).ok_or(ShellRefusal::ScriptSyntax),
        Word::Quoted(bytes) => Ok(Util::Text(text(alloc, bytes)?)),
    }
}

/// The field of this name of the place `Vk`, `Ak` or `G`.
pub(crate) fn place_in(place: &[u8], field: &[u8]) -> Option<Place>
    ensures { result ≡ place_in place.now field.now }
{
    match place {
        [b'V', digits @ ..] => {
            let vertex = index(digits)?;
            Some(Place::Vertex(VertexNo(in_32_bits(vertex)), vertex_field(field)?))
        }
        [b'A', digits @ ..] => {
            let arc = index(digits)?;
            Some(Place::Arc(ArcNo(in_32_bits(arc)), arc_field(field)?))
        }
        [b'G'] => Some(Place::Graph(graph_field(field)?)),
        _ => None,
    }
}

// A value that is not a text: `Vk`, `Ak` or a number.
fn value_in(word: &[u8]) -> Option<Util>
    ensures { result ≡ value_in word.now }
{
    match word {
        [] => None,
        [b'V', digits @ ..] => Some(Util::Vertex(VertexNo(in_32_bits(index(digits)?)))),
        [b'A', digits @ ..] => Some(Util::Arc(ArcNo(in_32_bits(index(digits)?)))),
        _ => Some(Util::Int(number(word)?)),
    }
}

fn vertex_field(word: &[u8]) -> Option<VertexField>
    ensures { result ≡ vertex_field word.now }
{
    match word {
        b"u" => Some(VertexField::U),
        b"v" => Some(VertexField::V),
        b"w" => Some(VertexField::W),
        b"x" => Some(VertexField::X),
        b"y" => Some(VertexField::Y),
        b"z" => Some(VertexField::Z),
        _ => None,
    }
}

fn arc_field(word: &[u8]) -> Option<ArcField>
    ensures { result ≡ arc_field word.now }
{
    match word {
        b"a" => Some(ArcField::A),
        b"b" => Some(ArcField::B),
        _ => None,
    }
}

fn graph_field(word: &[u8]) -> Option<GraphField>
    ensures { result ≡ graph_field word.now }
{
    match word {
        b"uu" => Some(GraphField::Uu),
        b"vv" => Some(GraphField::Vv),
        b"ww" => Some(GraphField::Ww),
        b"xx" => Some(GraphField::Xx),
        b"yy" => Some(GraphField::Yy),
        b"zz" => Some(GraphField::Zz),
        _ => None,
    }
}
