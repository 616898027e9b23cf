//! The lines of items, as the table of trace items has them.

ghost use Rattle.std.specs.Prelude.{IsTrue};
ghost use Rattle.sx_trace.specs.ValidNames.{are_valid};

use std::process::Abort;
use sx_trace::names::Names;
use sx_trace::reading::read_item;
use sx_trace::writing::write_item;

/// A line of each item, with each cause and at the last numbers.
const ITEMS: &str = "reset b order
reset b fetch
reset b read
reset b write
reset b device
reset b illegal
reset b range
reset b asked
protect a -
protect b lamp
sense light 120
drain light
raw bulb 65535
packet 10 24
busy a
skip b
budget a
read eye 120
ask lamp 2
attested eye 0
denied logic
vouch eye 340282366920938463463374607431768211455
open eye up from
open lamp down to
open lamp down to 255
take logic up 0 120
take lamp down 65536 1
out lamp 1
done logic 1 0
forged lamp
forged deployer";

/// Lines that no item has.
const NONE: [&str; 14] = [
    "",
    "out",
    "out lamp",
    "out lamp 01",
    "out lamp +1",
    "out lamp 65536",
    "out lamp 1 ",
    "out  lamp 1",
    "out bulb 1",
    "open eye up from 0",
    "open eye up from 256",
    "vouch eye 340282366920938463463374607431768211456",
    "protect a deployer",
    "end",
];

/// Whether the item that has this line is written as it is.
fn is_item(names: &Names, line: &[u8]) -> bool
    requires { IsTrue (are_valid names.now) }
{
    let mut into = [b'x'; 128];
    match read_item(names, line) {
        Some(item) => {
            let count = write_item(names, &item, &mut into);
            into.get(..count) == Some(line)
        },
        None => false,
    }
}

pub(crate) fn are_items(rt: &impl Abort, names: &Names)
    requires { IsTrue (are_valid names.now) }
{
    for line in ITEMS.lines() {
        assert!(rt; is_item(names, line.as_bytes()));
    }
    for line in NONE.as_slice() {
        assert!(rt; read_item(names, line.as_bytes()).is_none());
    }
}
