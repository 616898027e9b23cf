//! From bytes to packets, for a program that sees the packets of a run and takes them apart: a run
//! itself has them as bytes.

ghost use Rattle.std.specs.Prelude.{◌≡◌, ◌↔◌, IfSome, IsSome, IsTrue};
ghost use Rattle.sx_wire.specs.Headers.{ask_of, is_ask};
ghost use Rattle.sx_wire.specs.Packets.{event_packet, is_event, is_set_key, set_key_packet};

use crate::headers::{EVENT, EVENT_SIZE, SET_KEY, SET_KEY_SIZE, begins, is_ask};
use crate::packets::{EventPacket, SetKeyPacket};
use byteorder::{ByteOrder, LittleEndian};

/// The event packet of these bytes; `None` exactly where there aren't 24 or the first two aren't 03
/// 00.
pub fn read_event(bytes: &[u8]) -> Option<EventPacket>
    ensures packet { IfSome result (λ p. event_packet p ≡ bytes.now) }
    ensures some { IsSome result ↔ IsTrue (is_event bytes.now) }
{
    if bytes.len() != EVENT_SIZE || !begins(EVENT, bytes) {
        return None;
    }
    let mut p = EventPacket {
        link: LittleEndian::read_u16(&bytes[2..]),
        number: LittleEndian::read_u16(&bytes[4..]),
        cipher: [0; 2],
        mac: [0; 16],
    };
    p.cipher.copy_from_slice(&bytes[6..8]);
    p.mac.copy_from_slice(&bytes[8..]);
    Some(p)
}

/// The set-key packet of these bytes; `None` exactly where there aren't 38 or the first two aren't
/// 01 00.
pub fn read_set_key(bytes: &[u8]) -> Option<SetKeyPacket>
    ensures packet { IfSome result (λ p. set_key_packet p ≡ bytes.now) }
    ensures some { IsSome result ↔ IsTrue (is_set_key bytes.now) }
{
    if bytes.len() != SET_KEY_SIZE || !begins(SET_KEY, bytes) {
        return None;
    }
    let mut p = SetKeyPacket {
        link: LittleEndian::read_u16(&bytes[2..]),
        end: LittleEndian::read_u16(&bytes[4..]),
        cipher: [0; 16],
        mac: [0; 16],
    };
    p.cipher.copy_from_slice(&bytes[6..22]);
    p.mac.copy_from_slice(&bytes[22..]);
    Some(p)
}

/// The challenge of an ask packet; `None` exactly where there aren't 18 bytes or the first two
/// aren't 02 00.
pub fn read_ask(bytes: &[u8]) -> Option<[u8; 16]>
    ensures packet { IfSome result (λ challenge. ask_of challenge ≡ bytes.now) }
    ensures some { IsSome result ↔ IsTrue (is_ask bytes.now) }
{
    if !is_ask(bytes) {
        return None;
    }
    let mut challenge = [0; 16];
    challenge.copy_from_slice(&bytes[2..]);
    Some(challenge)
}
