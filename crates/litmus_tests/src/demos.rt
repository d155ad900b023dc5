//! Worked texts of the demo.
use demo_text::{demo_iterations, demo_text};
use litmus_reader::read_litmus;
use std::test::Fail;

/// The text of number 0, drawn by another implementation of the generator.
const ZERO: &[u8] =
    b"X86 DEMO0\n{ }\nP0 | P1 | P2 | P3 ;\nMOV EAX,[v1] | MOV [v1],$1 | MOV EAX,[v3] | MOV EAX,[v0] ;\nMFENCE |  |  |  ;\nMOV [v0],$1 | MOV EAX,[v2] | MOV [v2],$1 | MOV [v3],$1 ;\nexists (0:EAX=1 /\\ 1:EAX=1 /\\ 2:EAX=0 /\\ 3:EAX=0)\n";

#[test]
fn writes_and_reads(rt: HostRuntime) -> Result<(), Fail> {
    let text = demo_text(rt.alloc(), 0).ok().ok_or("memory was refused")?;
    assert_eq!(rt; text.as_slice(), ZERO);
    let test = read_litmus(rt.alloc(), ZERO).ok().ok_or("it is a test")?;
    assert_eq!(rt; test.threads(), 4);
    assert_eq!(rt; demo_iterations(test.threads()), 60);
    Ok(())
}
