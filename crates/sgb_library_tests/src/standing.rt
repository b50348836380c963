use sgb_script::{Command, Maker, Name, ShellRefusal, Single};
use sgb_session::Session;
use sgb_undo::Journal;
use std::alloc::{AllocError, Global};
use std::test::Fail;

/// The names of the graphs that the standing commands made, the first made first.
fn names_made(alloc: Global, journal: &Journal<Session>) -> Result<Vec<Name>, AllocError> {
    let mut names = Vec::new(alloc);
    for place in 0..journal.standing() {
        match journal.command(place) {
            Command::One(single) => push_made(&mut names, single)?,
            Command::Group(members) => {
                for single in members.as_slice() {
                    push_made(&mut names, single)?;
                }
            }
        }
    }
    Ok(names)
}

/// The name, where the command makes a graph.
fn push_made(names: &mut Vec<Name>, command: &Single) -> Result<(), AllocError> {
    if let Single::Make(name, _) = command {
        names.push(*name)?;
    }
    Ok(())
}

/// Whether the command at a place stands and draws a number.
fn is_draw(journal: &Journal<Session>, place: usize) -> bool {
    place < journal.standing() && *journal.command(place) == Command::One(Single::Next)
}

#[test]
fn standing_commands_are_read(rt: HostRuntime) -> Result<(), Fail> {
    let name = Name::new(b"line").ok_or(ShellRefusal::ScriptSyntax)?;
    let make = Single::Make(name, Maker::Empty(2));
    let mut journal = Journal::new(rt.alloc(), Session::new(rt.alloc()));
    assert!(rt; journal.apply(Command::One(Single::Next)).is_ok());
    assert!(rt; journal.apply(Command::One(make)).is_ok());
    assert!(rt; is_draw(&journal, 0) && !is_draw(&journal, 1));
    assert!(rt; names_made(rt.alloc(), &journal)?.as_slice() == [name].as_slice());
    Ok(())
}
