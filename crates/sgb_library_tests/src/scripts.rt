use sgb_shell::{RunEnd, run};

const SCRIPT: &str = "seed -314159
next
undo
next
";

const TRANSCRIPT: &str = "ok
119318998
undone
119318998
";

#[test]
fn a_script_is_run(rt: HostRuntime) {
    let ended = run(rt.alloc(), SCRIPT.as_bytes(), Vec::new(rt.alloc()));
    let wanted = RunEnd {
        lines: 4,
        refused: 0,
    };
    assert!(rt; ended.end == Ok(wanted));
    let transcript = ended.writer.into_inner();
    assert!(rt; transcript.as_slice() == TRANSCRIPT.as_bytes());
}
