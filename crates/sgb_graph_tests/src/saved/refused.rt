//! Texts that end too early, without a newline at their end.

use sgb_text::{CheckRule, restore};
use std::alloc::Global;

const HEADER: &[u8] = b"* GraphBase graph (util_types ZZZZZZZZZZZZZZ,2V,2A)";

// The number of the refusal, or 0 where a graph is read.
fn number(alloc: Global, text: &[u8]) -> u8 {
    match restore(alloc, text, CheckRule::Any) {
        Ok(_) => 0,
        Err(refusal) => refusal.number(),
    }
}

#[test]
fn a_first_line_alone_is_no_text(rt: HostRuntime) {
    let large = b"* GraphBase graph (util_types ZZZZZZZZZZZZZZ,0V,1000001A)";
    assert!(rt; number(rt.alloc(), b"") == 20);
    assert!(rt; number(rt.alloc(), HEADER) == 20);
    assert!(rt; number(rt.alloc(), large) == 40);
}

// The largest counts, in texts of some sixty bytes: no room is taken for records that the bytes cannot hold.
#[test]
fn claimed_counts_take_no_room(rt: HostRuntime) {
    let line = b"* GraphBase graph (util_types ZZZZZZZZZZZZZZ,65535V,1000000A)";
    let vertices =
        b"* GraphBase graph (util_types ZZZZZZZZZZZZZZ,65535V,1000000A)\n\"\",0,0\n* Vertices\n\"\",0\n";
    let arcs =
        b"* GraphBase graph (util_types ZZZZZZZZZZZZZZ,0V,1000000A)\n\"\",0,0\n* Vertices\n* Arcs\n0,0,0\n";
    assert!(rt; number(rt.alloc(), line) == 20);
    assert!(rt; number(rt.alloc(), vertices) == 20);
    assert!(rt; number(rt.alloc(), arcs) == 20);
}
