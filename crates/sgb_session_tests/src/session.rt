//! Single calls of the session's generator, and which refusal is for memory.

use sgb_script::{Command, ShellRefusal, Single};
use sgb_session::{Delta, Mark, Reply, Session, SingleDelta, SingleReply};
use sgb_undo::Reversible;
use std::process::Abort;
use std::test::Fail;

// Whether this number is drawn, and the delta counts one draw.
fn draws(session: &mut Session, number: u32) -> bool {
    let delta = Delta::One(SingleDelta::Draws(1));
    let reply = Reply::One(SingleReply::Number(number));
    session.apply(&Command::One(Single::Next)) == Ok((delta, reply))
}

// Seeds the generator and takes that back. Answers what the generator was between, where the delta kept this mark.
fn seed_and_back(
    session: &mut Session,
    seed: i64,
    mark: Mark,
) -> Result<Option<(u32, u64, u32)>, ShellRefusal> {
    let (delta, reply) = session.apply(&Command::One(Single::Seed(seed)))?;
    let is_kept = delta == Delta::One(SingleDelta::Seed(mark));
    let between = session.generator();
    session.revert(delta);
    if is_kept && reply == Reply::One(SingleReply::Done) {
        Ok(Some(between))
    } else {
        Ok(None)
    }
}

#[test]
fn a_seed_is_taken_back(rt: HostRuntime) -> Result<(), Fail> {
    let mut session = Session::new(rt.alloc());
    draw_and_seed(&rt, &mut session)
}

fn draw_and_seed(rt: &impl Abort, session: &mut Session) -> Result<(), Fail> {
    assert!(rt; session.generator() == (0, 0, 54));
    assert!(rt; draws(session, 2_029_883_356));
    let mut mark = Mark::new(0);
    assert!(rt; number(&mut mark) == Some(2_029_883_356));
    let between = seed_and_back(session, -1, mark)?;
    assert!(rt; between == Some((2_147_483_647, 0, 54)));
    assert!(rt; session.generator() == (0, 1, 53));
    Ok(())
}

// A number, where few were drawn.
fn number(mark: &mut Mark) -> Option<u32> {
    if mark.draws() > 1_000_000 {
        return None;
    }
    Some(mark.next())
}

// A uniform number below a bound from 1 to 2^31, where few were drawn.
fn number_below(mark: &mut Mark, bound: u32) -> Option<u32> {
    if mark.draws() > 1_000_000 || bound == 0 || bound > 0x8000_0000 {
        return None;
    }
    Some(mark.uniform(bound).value)
}

// Takes all draws back.
fn begin_again(mark: &mut Mark) {
    mark.back_by(mark.draws());
}

#[test]
fn a_mark_goes_forward_and_back(rt: HostRuntime) {
    let first = Mark::new(-314_159);
    let mut mark = first;
    assert!(rt; mark.seed() == 2_147_169_489);
    assert!(rt; number(&mut mark) == Some(119_318_998));
    for _ in 0..133u32 {
        assert!(rt; number(&mut mark).is_some());
    }
    assert!(rt; number_below(&mut mark, 1_431_655_765) == Some(748_103_812));
    begin_again(&mut mark);
    assert!(rt; (mark.draws(), mark.unread()) == (0, 54));
    assert!(rt; mark == first);
}

#[test]
fn one_refusal_is_for_memory(rt: HostRuntime) {
    for refusal in [
        ShellRefusal::CheckWrong,
        ShellRefusal::Syntax,
        ShellRefusal::BadSpecs,
        ShellRefusal::LengthRange,
        ShellRefusal::TooLarge,
        ShellRefusal::NoGraph,
        ShellRefusal::BadOperand,
        ShellRefusal::ScriptSyntax,
        ShellRefusal::TableFull,
        ShellRefusal::NameTaken,
        ShellRefusal::NothingToUndo,
        ShellRefusal::NothingToRedo,
        ShellRefusal::JournalFull,
        ShellRefusal::Stuck,
    ] {
        assert!(rt; !Session::is_memory(&refusal));
    }
    assert!(rt; Session::is_memory(&ShellRefusal::NoRoom));
}
