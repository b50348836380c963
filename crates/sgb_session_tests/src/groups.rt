//! Groups in the journal of a session. The small functions promise nothing.

use crate::lines::group;
use sgb_graph::ArcNo;
use sgb_script::{Command, MOST_MEMBERS, Name, ShellRefusal, Single};
use sgb_session::{Reply, Session, SingleReply};
use sgb_undo::{Journal, JournalRefusal, Members};
use std::alloc::{AllocError, Global};
use std::test::Fail;

type Sessions = Journal<Session>;

// The reply to a group.
fn replies(alloc: Global, members: &[SingleReply]) -> Result<Reply, AllocError> {
    let list = members.to_vec(alloc)?;
    Ok(Reply::Group(Members::from_vec(list)))
}

// Whether the group of these lines is accepted, with these replies.
fn accepts(
    alloc: Global,
    journal: &mut Sessions,
    lines: &[&[u8]],
    members: &[SingleReply],
) -> Result<bool, Fail> {
    let wanted = replies(alloc, members)?;
    Ok(journal.apply(group(alloc, lines)?) == Ok(wanted))
}

// Whether the group of these lines is refused so.
fn refuses(
    alloc: Global,
    journal: &mut Sessions,
    lines: &[&[u8]],
    refusal: ShellRefusal,
) -> Result<bool, Fail> {
    let wanted = JournalRefusal::Machine(refusal);
    Ok(journal.apply(group(alloc, lines)?) == Err(wanted))
}

// Whether a `next` by itself draws this number.
fn draws(journal: &mut Sessions, number: u32) -> bool {
    let wanted = Reply::One(SingleReply::Number(number));
    journal.apply(Command::One(Single::Next)) == Ok(wanted)
}

fn undo(journal: &mut Sessions) -> bool {
    journal.undo().is_ok()
}

// Whether a group is redone, with these replies.
fn redoes(alloc: Global, journal: &mut Sessions, members: &[SingleReply]) -> Result<bool, Fail> {
    let wanted = replies(alloc, members)?;
    Ok(journal.redo() == Ok(wanted))
}

// The draws since the seeding, the graphs, and the commands that stand and that are undone.
fn counts(journal: &Sessions) -> (u64, usize, usize, usize) {
    let session = journal.machine();
    (
        session.generator().1,
        session.len(),
        journal.standing(),
        journal.undone(),
    )
}

const EDGE_AND_DRAW: [&[u8]; 3] = [b"graph a 2", b"edge a 0 1 5", b"next"];

// What the group is answered whose first member makes the graph of this name.
fn edge_and_draw(name: Name) -> [SingleReply; 3] {
    [
        SingleReply::Made(name, 2, 0),
        SingleReply::Edge(ArcNo(0), ArcNo(1)),
        SingleReply::Number(2_073_281_797),
    ]
}

#[test]
fn a_group_is_undone_and_redone_whole(rt: HostRuntime) -> Result<(), Fail> {
    let alloc = rt.alloc();
    let name = Name::new(b"a").ok_or(ShellRefusal::ScriptSyntax)?;
    let wanted = edge_and_draw(name);
    let mut journal = Journal::new(alloc, Session::new(alloc));
    assert!(rt; draws(&mut journal, 2_029_883_356));
    assert!(rt; accepts(alloc, &mut journal, &EDGE_AND_DRAW, &wanted)?);
    assert!(rt; counts(&journal) == (2, 1, 2, 0));
    assert!(rt; undo(&mut journal));
    assert!(rt; counts(&journal) == (1, 0, 1, 1));
    assert!(rt; redoes(alloc, &mut journal, &wanted)?);
    assert!(rt; counts(&journal) == (2, 1, 2, 0));
    Ok(())
}

#[test]
fn a_refused_group_leaves_nothing(rt: HostRuntime) -> Result<(), Fail> {
    let alloc = rt.alloc();
    let mut journal = Journal::new(alloc, Session::new(alloc));
    let lines: [&[u8]; 3] = [b"next", b"graph a 1", b"graph a 2"];
    assert!(rt; refuses(alloc, &mut journal, &lines, ShellRefusal::NameTaken)?);
    assert!(rt; counts(&journal) == (0, 0, 0, 0));
    assert!(rt; draws(&mut journal, 2_029_883_356));
    Ok(())
}

#[test]
fn a_group_may_have_no_members(rt: HostRuntime) -> Result<(), Fail> {
    let alloc = rt.alloc();
    let mut journal = Journal::new(alloc, Session::new(alloc));
    assert!(rt; accepts(alloc, &mut journal, &[], &[])?);
    assert!(rt; counts(&journal) == (0, 0, 1, 0));
    assert!(rt; undo(&mut journal));
    assert!(rt; counts(&journal) == (0, 0, 0, 1));
    assert!(rt; MOST_MEMBERS == 1024);
    Ok(())
}
