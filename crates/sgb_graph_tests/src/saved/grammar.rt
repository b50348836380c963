// Check numbers, and a whole text with ample memory. The small functions promise nothing, so that the proof of
// a test stays short.
use sgb_grammar::{Fault, check_number, read_header, read_saved};
use std::alloc::Global;

// The numbers that the first line names, or 0 where it is bad.
fn counted(text: &[u8]) -> (u64, u64) {
    match read_header(text) {
        Ok((header, _)) => (header.vertices, header.arcs),
        Err(_) => (0, 0),
    }
}

// What the text names as its check number, and what it is; or 0 where it is not well spelled.
fn numbers(alloc: Global, text: &[u8]) -> (i64, u64) {
    let Ok((header, lines)) = read_header(text) else {
        return (0, 0);
    };
    match read_saved(alloc, &header, lines) {
        Ok(saved) => (saved.number, check_number(saved.body)),
        Err(Fault::NoRoom) => (0, 1),
        Err(Fault::Syntax) => (0, 2),
    }
}

fn check(body: &[u8]) -> u64 {
    check_number(body)
}

#[test]
fn check_numbers(rt: HostRuntime) {
    assert!(rt; check(b"") == 0);
    assert!(rt; check(b"zzzzzzzzzzzzzzzzzzzzzzzzzzzzzzz\n") == 20_225);
    assert!(rt; check(b"zzzzzzzzzzzzzzzzzzzzzzzzzzzzzzzz\n") == 40_477);
}

#[test]
fn lines_with_a_star(rt: HostRuntime) {
    let body =
        b"\" \"\" \"\" \"\" \"\" \"\" \"\" \"\" \"\" \"\" \"\" \"\" \"\" \"\" \"\" \"\" \"\" \"\" \"\" \"\" \"\" \"\" \"\" \"\" \"\" \"\" \"\" \"\" \"\" \"\" \"\" \"\" \"\n*\"star\"\n\"\",A0";
    assert!(rt; check(body) == 816_042_015);
}

#[test]
fn first_lines(rt: HostRuntime) {
    assert!(rt; counted(b"* GraphBase graph (util_types ZZZZZZZZZZZZZZ,2V,70000A)") == (2, 70_000));
    assert!(rt; counted(b"* GraphBase graph (util_types ZZZZZZZZZZZZZZ,2V,2A) ") == (0, 0));
}

#[test]
fn whole_text(rt: HostRuntime) {
    let text =
        b"* GraphBase graph (util_types ZZZZZZZZZZZZZZ,2V,2A)\n\"gb_new_graph(2)\",2,2\n* Vertices\n\"\",A0\n\"\",A1\n* Arcs\nV1,0,5\nV0,0,5\n* Checksum 450523822";
    assert!(rt; numbers(rt.alloc(), text) == (450_523_822, 450_523_822));
}
