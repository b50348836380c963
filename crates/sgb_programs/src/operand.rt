//! The graphs that a command takes.
ghost use Rattle.std.specs.Prelude.{◌≡◌, ◌++◌, codes, IfOk, OnOk, IsTrue};
ghost use Rattle.sgb_script.specs.Name.{is_name};
ghost use Rattle.sgb_programs.specs.Made.{front_of, load, loads};

use sgb_graph::Items;
use sgb_script::{Maker, Name, Single};
use sgb_text::CheckRule;
use std::alloc::{AllocError, Global};

/// The graphs that a command takes, as saved texts. They are loaded under the names `a` and `b`; a graph that is made of
/// them is named `g`.
#[derive(Debug, Drop)]
pub enum Operands {
    /// None: a graph is made of words alone.
    Absent,
    /// One, of which another is made.
    One(Items<u8>),
    /// Two, of which another is made.
    Two(Items<u8>, Items<u8>),
    /// One, and a description by which another is made of it.
    Described(Items<u8>, Items<u8>),
    /// One, which is changed.
    Changed(Items<u8>),
}

// The names behind the command, and the description.
pub(crate) fn put_front(line: &mut Vec<u8>, operands: &Operands) -> Result<(), AllocError>
    ensures { OnOk result (line.new.items ≡ line.old.items ++ front_of operands.now) }
{
    match operands {
        Operands::Absent => line.extend_from_slice(b" g"),
        Operands::One(_) => line.extend_from_slice(b" g a"),
        Operands::Two(_, _) => line.extend_from_slice(b" g a b"),
        Operands::Described(_, description) => put_description(line, description.as_slice()),
        Operands::Changed(_) => line.extend_from_slice(b" a"),
    }
}

// The names, and the description in quotes.
fn put_description(line: &mut Vec<u8>, description: &[u8]) -> Result<(), AllocError>
    ensures { OnOk result (line.new.items ≡ line.old.items ++ (codes " g a \"" ++ description.now ++ codes "\"")) }
{
    line.extend_from_slice(b" g a \"")?;
    line.extend_from_slice(description)?;
    line.push(b'"')?;
    Ok(())
}

// The commands that load the graphs.
#[tactic(auto, unfolding(sgb_script::specs::Name::is_name))]
pub(crate) fn loads(
    alloc: Global,
    rule: CheckRule,
    operands: Operands,
) -> Result<Items<Single>, AllocError>
    ensures { IfOk result (λ commands. commands ≡ loads rule operands) }
{
    let mut commands = Vec::new(alloc);
    match operands {
        Operands::Absent => {}
        Operands::One(text) => commands.push(load(b"a", text, rule))?,
        Operands::Two(first, second) => {
            commands.push(load(b"a", first, rule))?;
            commands.push(load(b"b", second, rule))?;
        }
        Operands::Described(text, _description) => commands.push(load(b"a", text, rule))?,
        Operands::Changed(text) => commands.push(load(b"a", text, rule))?,
    }
    Ok(Items::from_vec(commands))
}

// The command that loads a text under a name.
fn load(name: &[u8], text: Items<u8>, rule: CheckRule) -> Single
    requires { IsTrue (is_name name.now) }
    ensures { result ≡ load rule name.now text }
{
    let Some(name) = Name::new(name) else {
        unreachable!()
    };
    Single::Make(name, Maker::Load(text, rule))
}
