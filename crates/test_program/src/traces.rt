//! Traces that `explain` reads from a source that fails.

use crate::inputs::{Streams, ended, joined};
use std::alloc::Global;
use std::process::Abort;
use std::test::Fail;

/// A sensor's and a lamp's module on one node.
const DEPLOYMENT: &[u8] =
    b"device = [ { name = \"light\", node = \"n\", kind = \"sensor\", at = 0x1000 },
{ name = \"bulb\", node = \"n\", kind = \"actuator\", at = 0x3000 } ]
connection = [ { name = \"up\", from = \"eye.level\", to = \"lamp.show\" } ]
[[module]]
name = \"eye\"
node = \"n\"
provider = 7
text = 0x4000
device = \"light\"
source = \"sensor; output level; sample(v) { send level(v); }\"
[[module]]
name = \"lamp\"
node = \"n\"
provider = 7
text = 0x6000
device = \"bulb\"
source = \"actuator; input show; on show(v) { emit v; }\"
%%
";

/// A trace, the status, and what is said of it.
type Judged<'a> = (&'a [u8], u8, &'a [u8]);

/// What is after the deployment before a read fails: the whole lines of it decide.
const UNREAD: [Judged; 13] = [
    (b"", 4, b"fault read\n"),
    (b"image eye 00\nimages", 4, b"fault read\n"),
    (b"trace", 4, b"fault read\n"),
    (b"trace\n", 4, b"fault read\n"),
    (b"trace\nbusy n\nnone", 4, b"fault read\n"),
    (b"trace\nend", 4, b"fault read\n"),
    // neither `legal` nor `end`
    (b"trace\nend\n", 4, b"fault read\n"),
    (b"trace\nend\nbusy n", 4, b"fault read\n"),
    (b"images\nima", 3, b"fault trace E1 1\n"),
    (b"trace\nnone\nbusy", 3, b"fault trace E2 1\n"),
    (b"trace\nend\nend\n", 3, b"fault trace E4 2\n"),
    (b"trace\nsense light 3\nout lamp 3\n", 8, b"illegal 2\n"),
    // the output that isn't whole isn't judged
    (
        b"trace\nprotect n eye\nsense light 3\nread eye 3\nout eye 3",
        4,
        b"because 3 2\nfault read\n",
    ),
];

/// The input in pieces of so many bytes, of which the read of this number, from 1, fails.
fn breaks_off(
    rt: &impl Abort,
    alloc: Global,
    piece: usize,
    read: u64,
    row: &Judged,
) -> Result<(), Fail> {
    let text = joined(alloc, &[DEPLOYMENT, row.0])?;
    let streams = Streams {
        piece,
        read,
        room: 400,
        write: 0,
    };
    let run = ended(alloc, "explain", &text, streams)?;
    assert!(rt; run.status == row.1 && run.output.written() == row.2);
    Ok(())
}

#[test]
fn a_read_that_fails(rt: HostRuntime) -> Result<(), Fail> {
    // the first read gives all
    for row in UNREAD.as_slice() {
        breaks_off(&rt, rt.alloc(), 4096, 2, row)?;
    }
    Ok(())
}

/// Lines that end the command, with the newline each.
const LAST: [Judged; 3] = [
    (b"images\n", 3, b"fault trace E1 1\n"),
    (b"trace\nbusy  n\n", 3, b"fault trace E2 1\n"),
    (b"trace\nout lamp 3\n", 8, b"illegal 1\n"),
];

/// Byte by byte: a read that fails before the line is whole counts, and none comes after it.
#[test]
fn nothing_is_read_behind_the_last_line(rt: HostRuntime) -> Result<(), Fail> {
    for row in LAST.as_slice() {
        let whole = DEPLOYMENT.len() as u64 + row.0.len() as u64;
        breaks_off(&rt, rt.alloc(), 1, whole + 1, row)?;
        breaks_off(&rt, rt.alloc(), 1, whole, &(row.0, 4, b"fault read\n"))?;
    }
    Ok(())
}
