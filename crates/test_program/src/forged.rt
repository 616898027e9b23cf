//! A packet that is forged: the program's own tag is too strong for that, so the command is called
//! with a weak one.

use crate::inputs::{SAMPLE, joined, lighting, sink, source};
use std::alloc::Global;
use std::process::Abort;
use std::test::Fail;
use sx_io::{MemSink, MemSource};
use sx_tag::Weak;
use sx_top::run_over;

/// A packet that nobody but its author made, and that the lamp takes where tags are weak. Private
/// sections stay guarded after it.
const FORGE: &[u8] = br#"forge 030001000100999ed6d6d6d6d6d6d6d6d6d6d6d6d6d6d6d6
give 12 b 0x300
call lamp 2 0x300 0x400
put a 0x800 85460000
set a r5 0x2000
set a pc 0x800
run a 1
"#;

const FORGED: &[u8] = br#"packet 12 24
forged lamp
take lamp down 1 7
out lamp 7
done lamp 1 0
reset a write
end
"#;

fn run_weak(alloc: Global, input: &mut MemSource, output: &mut MemSink) -> u8 {
    run_over(alloc, Weak, input, output).number()
}

#[test]
fn forged_packet(rt: HostRuntime) -> Result<(), Fail> {
    let alloc = rt.alloc();
    let schedule = joined(alloc, &[SAMPLE, FORGE])?;
    let mut input = source(alloc, &lighting(alloc, &schedule)?, 4096, 0)?;
    let mut output = sink(alloc, 20_000, 0)?;
    assert_eq!(rt; run_weak(alloc, &mut input, &mut output), 0);
    assert!(rt; output.written().ends_with(FORGED));
    Ok(())
}
