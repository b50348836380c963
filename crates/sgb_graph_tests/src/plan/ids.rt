// Ids as the description of the language shows them, and compound ids at their limits: expected values come from
// another implementation. The small functions promise nothing, so that the proof of a test stays short.
use sgb_graph::{Refusal, Text};
use sgb_plan::{Part, Seed, id_of, id_of_one, id_of_two};
use std::alloc::Global;
use std::test::Fail;

// Whether the id that was made is spelled so.
fn is_spelled(id: Result<Text, Refusal>, wanted: &[u8]) -> Result<bool, Refusal> {
    Ok(id?.bytes() == wanted)
}

fn board(alloc: Global) -> Result<Text, Refusal> {
    let parts = [
        Part::Number(3),
        Part::Number(4),
        Part::Number(0),
        Part::Number(0),
        Part::Number(-1),
        Part::Number(i64::MIN),
        Part::Flag(false),
    ];
    id_of(alloc, "board", &parts)
}

fn nothing(alloc: Global) -> Result<Text, Refusal> {
    id_of(alloc, "nothing", &[])
}

#[test]
fn of_generators(rt: HostRuntime) -> Result<(), Fail> {
    assert!(rt;
        is_spelled(
            board(rt.alloc()),
            b"board(3,4,0,0,-1,-9223372036854775808,0)"
        )?
    );
    assert!(rt; is_spelled(nothing(rt.alloc()), b"nothing()")?);
    Ok(())
}

fn all_bits(alloc: Global) -> Result<Text, Refusal> {
    id_of(alloc, "subsets", &[Part::Count(2), Part::Bits(u64::MAX)])
}

fn no_bits(alloc: Global) -> Result<Text, Refusal> {
    id_of(alloc, "subsets", &[Part::Bits(0), Part::Flag(true)])
}

#[test]
fn of_bits(rt: HostRuntime) -> Result<(), Fail> {
    assert!(rt; is_spelled(all_bits(rt.alloc()), b"subsets(2,0xffffffffffffffff)")?);
    assert!(rt; is_spelled(no_bits(rt.alloc()), b"subsets(0x0,1)")?);
    Ok(())
}

fn lowest_seed(alloc: Global) -> Result<Text, Refusal> {
    let parts = [Part::Flag(true), Part::Drawn(Seed::Number(i64::MIN))];
    id_of_one(alloc, "random_lengths", b"gb_new_graph(1)", &parts)
}

fn current_seed(alloc: Global) -> Result<Text, Refusal> {
    let parts = [Part::Number(6), Part::Drawn(Seed::Current)];
    id_of_one(alloc, "random_lengths", b"gb_new_graph(1)", &parts)
}

#[test]
fn of_random_work(rt: HostRuntime) -> Result<(), Fail> {
    let lowest = b"random_lengths(gb_new_graph(1),1,-9223372036854775808)";
    assert!(rt; is_spelled(lowest_seed(rt.alloc()), lowest)?);
    let current = b"random_lengths(gb_new_graph(1),6,-)";
    assert!(rt; is_spelled(current_seed(rt.alloc()), current)?);
    Ok(())
}

fn described(alloc: Global) -> Result<Text, Refusal> {
    let description = Text::new(alloc, b"m (d)")?;
    let parts = [
        Part::Word(&description),
        Part::Flag(false),
        Part::Flag(true),
        Part::Flag(true),
    ];
    id_of_one(alloc, "induced", b"gb_new_graph(1)", &parts)
}

#[test]
fn with_a_description(rt: HostRuntime) -> Result<(), Fail> {
    assert!(rt;
        is_spelled(
            described(rt.alloc()),
            b"induced(gb_new_graph(1),m (d),0,1,1)"
        )?
    );
    Ok(())
}

// An id of so many equal letters.
fn letters(alloc: Global, letter: u8, count: usize) -> Result<Text, Refusal> {
    let letters = vec![in alloc; letter; count]?;
    Text::new(alloc, &letters)
}

// How long an id is, and whether it ends so.
fn end_of(id: Result<Text, Refusal>, wanted: &[u8]) -> Result<(usize, bool), Refusal> {
    let id = id?;
    Ok((id.bytes().len(), id.bytes().ends_with(wanted)))
}

// A complement's id where its graph's id is this one.
fn complement(alloc: Global, graph: &Text) -> Result<Text, Refusal> {
    let parts = [Part::Flag(false), Part::Flag(true), Part::Flag(false)];
    id_of_one(alloc, "complement", graph.bytes(), &parts)
}

// A complement's id where its graph's id has so many letters: its length, and how it ends.
fn complement_of(alloc: Global, count: usize) -> Result<(usize, bool), Refusal> {
    let graph = letters(alloc, b'a', count)?;
    end_of(complement(alloc, &graph), b"a...),0,1,0)")
}

// There is room for 142 bytes.
#[test]
fn of_one_graph(rt: HostRuntime) -> Result<(), Fail> {
    assert!(rt; complement_of(rt.alloc(), 142)? == (160, false));
    assert!(rt; complement_of(rt.alloc(), 143)? == (160, true));
    assert!(rt; complement_of(rt.alloc(), 160)? == (160, true));
    Ok(())
}

// A union's id where its graphs' ids are these.
fn union(alloc: Global, first: &Text, second: &Text) -> Result<Text, Refusal> {
    let parts = [Part::Flag(true), Part::Flag(false)];
    id_of_two(alloc, "gunion", first.bytes(), second.bytes(), &parts)
}

// A union's id where its graphs' ids have so many letters: its length, and how it ends.
fn union_of(alloc: Global, first: usize, second: usize) -> Result<(usize, bool), Refusal> {
    let first = letters(alloc, b'a', first)?;
    let second = letters(alloc, b'b', second)?;
    end_of(union(alloc, &first, &second), b"b...),1,0)")
}

// There is room for 147 bytes, and the half of it is 73.
#[test]
fn of_two_graphs(rt: HostRuntime) -> Result<(), Fail> {
    assert!(rt; union_of(rt.alloc(), 73, 74)? == (160, false));
    assert!(rt; union_of(rt.alloc(), 73, 75)? == (159, true));
    assert!(rt; union_of(rt.alloc(), 140, 10)? == (96, false));
    assert!(rt; union_of(rt.alloc(), 160, 160)? == (159, true));
    Ok(())
}
