//! Commands, as their lines write them. The functions promise nothing, so that the proof of what calls them stays short.

use sgb_graph::Items;
use sgb_script::{Command, Line, Name, ShellRefusal, Single, parse};
use std::alloc::Global;

/// The single command of a line.
pub fn single(alloc: Global, line: &[u8]) -> Result<Single, ShellRefusal> {
    match parse(alloc, line)? {
        Line::Change(command) => Ok(command),
        _ => Err(ShellRefusal::ScriptSyntax),
    }
}

/// The single command of a line, as a command of a session.
pub fn one(alloc: Global, line: &[u8]) -> Result<Command, ShellRefusal> {
    Ok(Command::One(single(alloc, line)?))
}

/// The group of these lines' commands.
pub fn group(alloc: Global, lines: &[&[u8]]) -> Result<Command, ShellRefusal> {
    let mut members = Items::new(alloc);
    for line in lines {
        let member = single(alloc, line)?;
        if members.push(member).is_err() {
            return Err(ShellRefusal::NoRoom);
        }
    }
    Ok(Command::Group(members))
}

/// The name of these bytes.
pub fn named(bytes: &[u8]) -> Result<Name, ShellRefusal> {
    Name::new(bytes).ok_or(ShellRefusal::ScriptSyntax)
}
