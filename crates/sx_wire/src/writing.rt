//! From packets to bytes.

ghost use Rattle.std.specs.Prelude.{◌≡◌};
ghost use Rattle.byteorder.specs.Endian.{little_bytes};
ghost use Rattle.sx_wire.specs.Headers.{ask_of, header};
ghost use Rattle.sx_wire.specs.Packets.{event_packet, set_key_packet};

use crate::headers::{ASK, ASK_SIZE, EVENT, EVENT_SIZE, HEADER_SIZE, SET_KEY, SET_KEY_SIZE};
use crate::packets::{EventPacket, SetKeyPacket};
use byteorder::{ByteOrder, LittleEndian};

// The six bytes before what is encrypted.
fn header(kind: u8, link: u16, last: u16) -> [u8; HEADER_SIZE]
    ensures { result ≡ header kind (little_bytes 2 link) (little_bytes 2 last) }
{
    let mut bytes = [kind, 0, 0, 0, 0, 0];
    LittleEndian::write_u16(&mut bytes[2..], link);
    LittleEndian::write_u16(&mut bytes[4..], last);
    bytes
}

/// The 24 bytes of an event packet, for a program that makes events outside a module: in a run the
/// modules make them.
pub fn write_event(p: &EventPacket) -> [u8; EVENT_SIZE]
    ensures { result ≡ event_packet p.now }
{
    let mut bytes = [0; EVENT_SIZE];
    bytes[..6].copy_from_slice(&header(EVENT, p.link, p.number));
    bytes[6..8].copy_from_slice(&p.cipher);
    bytes[8..].copy_from_slice(&p.mac);
    bytes
}

/// The 38 bytes of a set-key packet.
pub fn write_set_key(p: &SetKeyPacket) -> [u8; SET_KEY_SIZE]
    ensures { result ≡ set_key_packet p.now }
{
    let mut bytes = [0; SET_KEY_SIZE];
    bytes[..6].copy_from_slice(&header(SET_KEY, p.link, p.end));
    bytes[6..22].copy_from_slice(&p.cipher);
    bytes[22..].copy_from_slice(&p.mac);
    bytes
}

/// The 18 bytes of an ask packet.
pub fn write_ask(challenge: &[u8; 16]) -> [u8; ASK_SIZE]
    ensures { result ≡ ask_of challenge.now }
{
    let mut bytes = [0; ASK_SIZE];
    bytes[0] = ASK;
    bytes[2..].copy_from_slice(challenge);
    bytes
}
