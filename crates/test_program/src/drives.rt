//! Readings that `drive` reads from a source that fails.

use crate::inputs::{IMAGES, Streams, ended, joined, lighting};
use std::alloc::Global;
use std::process::Abort;
use std::test::Fail;

/// The set-up of the lighting: each module is loaded, attested and given its keys.
const SETUP: &[u8] = b"> load eye
protect a eye
> ask eye
ask eye 0
packet 0 18
> give 0 a 0x40
> call eye 1 0x40 0x80
vouch eye 0
done eye 1 1
> take a 0x80 16
packet 1 16
> answer eye 0 1
attested eye 0
packet 2 38
> give 2 a 0x40
> call eye 0 0x40 0x80
open eye up from
done eye 1 0
> load logic
protect a logic
> ask logic
ask logic 1
packet 3 18
> give 3 a 0x40
> call logic 1 0x40 0x80
vouch logic 1
done logic 1 1
> take a 0x80 16
packet 4 16
> answer logic 0 4
attested logic 0
packet 5 38
packet 6 38
> give 5 a 0x40
> call logic 0 0x40 0x80
open logic up to
done logic 1 0
> give 6 a 0x40
> call logic 0 0x40 0x80
open logic down from
done logic 1 0
> load lamp
protect b lamp
> ask lamp
ask lamp 2
packet 7 18
> give 7 b 0x40
> call lamp 1 0x40 0x80
vouch lamp 2
done lamp 1 1
> take b 0x80 16
packet 8 16
> answer lamp 0 8
attested lamp 0
packet 9 38
> give 9 b 0x40
> call lamp 0 0x40 0x80
open lamp down to
done lamp 1 0
";

/// A light that is sensed, and switches the bulb on.
const BRIGHT: &[u8] = b"> sense light 120
sense light 120
> call eye 3 0x40 0x80
read eye 120
done eye 1 1
> take a 0x80 24
packet 10 24
> give 10 a 0x40
> call logic 2 0x40 0x80
take logic up 0 120
done logic 1 1
> take a 0x80 24
packet 11 24
> give 11 b 0x40
> call lamp 2 0x40 0x80
take lamp down 0 1
out lamp 1
done lamp 1 0
";

/// Readings, the status, and what is said after the set-up, in two parts.
type Driven<'a> = (&'a [u8], u8, &'a [u8], &'a [u8]);

/// Readings of the lighting whose second read fails: those of the whole lines before are.
const BROKEN_OFF: [Driven; 5] = [
    (b"", 4, b"", b"fault read\n"),
    (b"light 120", 4, b"", b"fault read\n"),
    (b"light 120\n", 4, BRIGHT, b"fault read\n"),
    (b"light 120\nlight 7", 4, BRIGHT, b"fault read\n"),
    (b"light 120\nbulb 1\n", 3, BRIGHT, b"fault reading Q4 2\n"),
];

/// The second read fails.
const SECOND: Streams = Streams {
    piece: 4096,
    read: 2,
    room: 40_000,
    write: 0,
};

/// Whether the lighting is driven so: the images are before the set-up.
fn breaks_off(rt: &impl Abort, alloc: Global, row: &Driven) -> Result<(), Fail> {
    let said = joined(alloc, &[SETUP, row.2, row.3])?;
    let run = ended(alloc, "drive", &lighting(alloc, row.0)?, SECOND)?;
    let told = run.output.written().get(IMAGES..) == Some(said.as_slice());
    assert!(rt; run.status == row.1 && told);
    Ok(())
}

#[test]
fn a_read_that_fails(rt: HostRuntime) -> Result<(), Fail> {
    for row in BROKEN_OFF.as_slice() {
        breaks_off(&rt, rt.alloc(), row)?;
    }
    Ok(())
}
