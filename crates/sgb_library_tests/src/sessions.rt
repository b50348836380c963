use sgb_graph::{Items, VertexNo};
use sgb_script::{Command, Edit, Maker, Name, ShellRefusal, Single};
use sgb_session::Session;
use sgb_undo::Journal;
use std::alloc::Global;
use std::test::Fail;

/// A graph of two vertices, and an edge between them, as one command.
fn an_edge(alloc: Global, name: Name) -> Result<Command, Fail> {
    let edge = Edit::Edge(VertexNo(0), VertexNo(1), 5);
    let mut members = Items::new(alloc);
    members.push(Single::Make(name, Maker::Empty(2)))?;
    members.push(Single::Edit(name, edge))?;
    Ok(Command::Group(members))
}

/// How many graphs there are, and how many commands stand.
fn counts(journal: &Journal<Session>) -> (usize, usize) {
    (journal.machine().len(), journal.standing())
}

#[test]
fn a_group_is_one_command(rt: HostRuntime) -> Result<(), Fail> {
    let alloc = rt.alloc();
    let name = Name::new(b"line").ok_or(ShellRefusal::ScriptSyntax)?;
    let mut journal = Journal::new(alloc, Session::new(alloc));
    assert!(rt; journal.apply(an_edge(alloc, name)?).is_ok());
    assert!(rt; counts(&journal) == (1, 1));
    assert!(rt; journal.undo().is_ok());
    assert!(rt; counts(&journal) == (0, 0));
    assert!(rt; journal.redo().is_ok());
    assert!(rt; counts(&journal) == (1, 1));
    Ok(())
}
