// Numbers joined by dots. The small functions promise nothing, so that the proof of a test stays short.
ghost use Rattle.std.specs.Prelude.{◌≤◌, length};

use sgb_graph::Refusal;
use sgb_plan::{append_dotted, dotted};
use std::alloc::Global;
use std::test::Fail;

// Whether the numbers are joined so.
fn is_dotted(alloc: Global, numbers: &[u32], wanted: &[u8]) -> Result<bool, Refusal>
    requires few { length numbers.now ≤ 372 }
{
    Ok(dotted(alloc, numbers)?.bytes() == wanted)
}

#[test]
fn single(rt: HostRuntime) -> Result<(), Fail> {
    let alloc = rt.alloc();
    assert!(rt; is_dotted(alloc, &[3, 0, 4294967295], b"3.0.4294967295")?);
    assert!(rt; is_dotted(alloc, &[12], b"12")?);
    assert!(rt; is_dotted(alloc, &[9, 10, 99, 100, 999, 1000], b"9.10.99.100.999.1000")?);
    assert!(rt; is_dotted(alloc, &[9999, 10203, 100000], b"9999.10203.100000")?);
    assert!(rt; is_dotted(alloc, &[], b"")?);
    Ok(())
}

#[test]
fn two_in_one_buffer(rt: HostRuntime) -> Result<(), Fail> {
    let mut names = Vec::new(rt.alloc());
    append_dotted(&mut names, &[0, 10])?;
    append_dotted(&mut names, &[7, 8, 9])?;
    assert!(rt; names.as_slice() == b"0.107.8.9".as_slice());
    Ok(())
}
