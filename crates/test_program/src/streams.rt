//! Streams that fail, at every place of one run.

use crate::inputs::{SAMPLE, Streams, ended, joined, lighting};
use std::alloc::Global;
use std::process::Abort;
use std::test::Fail;
use sx_io::MemSink;

/// An input, and what is told of it.
#[derive(Clone, Copy)]
struct Whole<'a> {
    text: &'a [u8],
    told: &'a [u8],
}

/// Whether a run over such streams ends with this status, and told the start of the whole before.
fn breaks_off(
    rt: &impl Abort,
    alloc: Global,
    whole: &Whole,
    streams: Streams,
    status: u8,
) -> Result<(), Fail> {
    let run = ended(alloc, "run", whole.text, streams)?;
    assert!(rt; run.status == status && is_start(whole.told, &run.output, status));
    Ok(())
}

/// Whether this was written of the whole, with a line about a read that failed.
fn is_start(whole: &[u8], output: &MemSink, status: u8) -> bool {
    let fault: &[u8] = if status == 4 { b"fault read\n" } else { b"" };
    let told = output.written();
    let before = told.get(..told.len().saturating_sub(fault.len()));
    told.ends_with(fault) && before.is_some_and(|before| whole.starts_with(before))
}

/// Pieces of 97 bytes, and room for all that is written.
const WELL: Streams = Streams {
    piece: 97,
    read: 0,
    room: 20_000,
    write: 0,
};

/// Each read fails, each write, and a write at each place of the first bytes.
fn all_break_off(rt: &impl Abort, alloc: Global, whole: &Whole) -> Result<(), Fail> {
    // the last read finds the end
    for call in 0..whole.text.len() / 97 + 2 {
        let read = call as u64 + 1;
        breaks_off(rt, alloc, whole, Streams { read, ..WELL }, 4)?;
    }
    // the images, the items of the lines that end in one of seven pieces, and the end
    for write in 1..=9 {
        breaks_off(rt, alloc, whole, Streams { write, ..WELL }, 5)?;
    }
    for room in 0..=200 {
        breaks_off(rt, alloc, whole, Streams { room, ..WELL }, 5)?;
    }
    breaks_off(rt, alloc, whole, Streams { write: 10, ..WELL }, 0)
}

#[test]
fn each_read_and_each_write_fails(rt: HostRuntime) -> Result<(), Fail> {
    let alloc = rt.alloc();
    let text = lighting(alloc, SAMPLE)?;
    let run = ended(alloc, "run", &text, WELL)?;
    assert!(rt; run.status == 0);
    let whole = Whole {
        text: &text,
        told: run.output.written(),
    };
    all_break_off(&rt, alloc, &whole)
}

/// A command, its input in pieces of so many bytes, the read that fails, the bytes that can be
/// written, the write that fails, the status and the output.
type Failing<'a> = (&'a str, &'a [u8], usize, u64, usize, u64, u8, &'a [u8]);

const ONE_STEP: &[u8] = b"%%\nput n 0x4000 2645\nset n r5 0x5000\nset n pc 0x4000\nrun n 1\n";

const FAILING: [Failing; 25] = [
    ("run", ONE_STEP, 1, 2, 100, 0, 4, b"fault read\n"),
    ("run", ONE_STEP, 1, 22, 100, 0, 4, b"trace\nfault read\n"),
    ("run", b"%%\nreset n\n", 4096, 0, 100, 1, 5, b""),
    ("run", b"%%\nreset n\n", 4096, 0, 100, 2, 5, b"trace\n"),
    ("lines", b"%%\nreset n\n", 4096, 0, 100, 1, 5, b""),
    (
        "lines",
        b"%%\nreset n\n",
        4096,
        2,
        100,
        0,
        4,
        b"> reset n\nreset n asked\nfault read\n",
    ),
    (
        "batch",
        b"%%\nforge 00\n%%\nreset n\n%%\n",
        4096,
        2,
        100,
        0,
        4,
        b"reset n asked\nend\nfault read\n",
    ),
    ("check", b"%%\n", 1, 1, 100, 0, 4, b"fault read\n"),
    ("gen 1", b"", 1, 0, 20_000, 1, 5, b""),
    (
        "snap",
        b"%%\nreset n\n%%\nitems 1\nitems 1\n",
        4096,
        0,
        25,
        0,
        5,
        b"item 1 reset n asked\nitem",
    ),
    // after a line that isn't in the grammar
    ("asm 0", b"mov r5\nreti\n", 4, 3, 400, 0, 4, b"fault read\n"),
    ("asm 0", b"reti\n", 4096, 0, 6, 0, 5, b"0x0000"),
    ("asm 0", b"mov r5\n", 4096, 0, 5, 0, 5, b"fault"),
    // two bytes a read: the first read fails, the second, or that of the end
    ("dis 0", b"2645\n", 2, 1, 400, 0, 4, b"fault read\n"),
    ("dis 0", b"2645\n", 2, 2, 400, 0, 4, b"fault read\n"),
    ("dis 0", b"2645\n", 2, 4, 400, 0, 4, b"fault read\n"),
    // nothing is read after a line that breaks its rule
    ("dis 0", b"2\n", 2, 2, 400, 0, 10, b"fault hex B1 1\n"),
    ("dis 0", b"2645\n", 4096, 0, 400, 1, 5, b""),
    ("dis 0", b"2\n", 4096, 0, 400, 1, 5, b""),
    ("dis 0", b"26\n", 4096, 0, 400, 1, 5, b""),
    // after the second mark the answers to whole lines are, before it nothing but a broken rule
    (
        "snap",
        b"%%\nreset n\n",
        4096,
        2,
        400,
        0,
        4,
        b"fault read\n",
    ),
    (
        "snap",
        b"%%\nreset n\n%%",
        4096,
        2,
        400,
        0,
        4,
        b"fault read\n",
    ),
    (
        "snap",
        b"%%\nfly n\n",
        4096,
        2,
        400,
        0,
        3,
        b"fault schedule S3 1\n",
    ),
    (
        "snap",
        b"%%\nreset n\n%%\nitems 1\nitems 1",
        4096,
        2,
        400,
        0,
        4,
        b"item 1 reset n asked\nfault read\n",
    ),
    // before the mark is whole
    ("drive", b"\n%%", 4096, 2, 400, 0, 4, b"fault read\n"),
];

/// Whether a command ends so.
fn fails(rt: &impl Abort, alloc: Global, row: &Failing) -> Result<(), Fail> {
    let streams = Streams {
        piece: row.2,
        read: row.3,
        room: row.4,
        write: row.5,
    };
    let run = ended(alloc, row.0, row.1, streams)?;
    assert!(rt; run.status == row.6 && run.output.written() == row.7);
    Ok(())
}

#[test]
fn failing_streams(rt: HostRuntime) -> Result<(), Fail> {
    for row in FAILING.as_slice() {
        fails(&rt, rt.alloc(), row)?;
    }
    Ok(())
}

/// Of 80,003 bytes no more is read than one piece after the line whose item couldn't be written.
#[test]
fn nothing_is_read_behind_a_failed_write(rt: HostRuntime) -> Result<(), Fail> {
    let alloc = rt.alloc();
    let mut text = joined(alloc, &[b"%%\n"])?;
    for _ in 0..10_000 {
        text.extend_from_slice(b"reset n\n")?;
    }
    let streams = Streams {
        piece: 4096,
        read: 0,
        room: 200_000,
        write: 3,
    };
    let run = ended(alloc, "run", &text, streams)?;
    assert!(rt; run.status == 5 && run.left > 60_000);
    Ok(())
}
