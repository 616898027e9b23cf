//! The lines of the workload at chosen numbers.

use sx_bulk::{MOST_SAMPLES, line, lines};

const LINES: [(u32, &[u8]); 13] = [
    (0, b"load eye"),
    (24, b"give 9 b 0x300"),
    (25, b"call lamp 0 0x300 0x400"),
    (26, b"sense light 0"),
    (27, b"call eye 3 0x300 0x400"),
    (28, b"take a 0x400 24"),
    (29, b"give 10 a 0x300"),
    (30, b"call logic 2 0x300 0x400"),
    (32, b"give 11 b 0x300"),
    (33, b"call lamp 2 0x300 0x400"),
    (66, b"sense light 185"),
    (69, b"give 20 a 0x300"),
    (64_025, b"call lamp 2 0x300 0x400"),
];

/// Whether the line with this number is this text.
fn is_line(number: u32, text: &[u8]) -> bool {
    if number >= lines(MOST_SAMPLES) {
        return false;
    }
    let mut into = [0; 64];
    let count = line(MOST_SAMPLES, number, &mut into);
    into.get(..count) == Some(text)
}

#[test]
fn the_lines(rt: HostRuntime) {
    for (number, text) in LINES.as_slice() {
        assert!(rt; is_line(*number, text));
    }
}
