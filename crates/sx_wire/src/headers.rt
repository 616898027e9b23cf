//! The kinds of packets, and the fields of headers and bodies.

ghost use Rattle.std.specs.Prelude.{◌≡◌, ◌≤◌, length};
ghost use Rattle.sx_wire.specs.Headers.{begins, challenge_in, epoch_in, is_ask, is_event_header};
ghost use Rattle.sx_wire.specs.Headers.{is_set_key_header, last_in, link_in, value_in};

use byteorder::{ByteOrder, LittleEndian};

// The compiler has these numbers in a crate of its own (spec_invocation), which knows no packets;
// the laws of whole runs, law_setup and law_delivery, use both and fail if they differ.

/// The first byte of a set-key packet.
pub(crate) const SET_KEY: u8 = 1;

/// The first byte of an ask.
pub(crate) const ASK: u8 = 2;

/// The first byte of an event.
pub(crate) const EVENT: u8 = 3;

/// How many bytes the header of a set-key packet or an event has.
pub(crate) const HEADER_SIZE: usize = 6;

/// How many bytes a set-key packet has.
pub(crate) const SET_KEY_SIZE: usize = 38;

/// How many bytes an ask has.
pub(crate) const ASK_SIZE: usize = 18;

/// How many bytes an event has.
pub(crate) const EVENT_SIZE: usize = 24;

/// Whether the first two bytes are those of this kind.
pub(crate) fn begins(kind: u8, bytes: &[u8]) -> bool
    requires { 2 ≤ length bytes.now }
    ensures { result ≡ begins kind bytes.now }
{
    bytes[0] == kind && bytes[1] == 0
}

/// Whether the header is that of an ask.
pub fn is_ask(header: &[u8]) -> bool
    ensures { result ≡ is_ask header.now }
{
    header.len() == ASK_SIZE && begins(ASK, header)
}

/// Whether the header is that of a set-key packet, for one of the two sides.
pub fn is_set_key_header(header: &[u8]) -> bool
    ensures { result ≡ is_set_key_header header.now }
{
    header.len() == HEADER_SIZE && begins(SET_KEY, header) && header[4] < 2 && header[5] == 0
}

/// Whether the header is that of an event.
pub fn is_event_header(header: &[u8]) -> bool
    ensures { result ≡ is_event_header header.now }
{
    header.len() == HEADER_SIZE && begins(EVENT, header)
}

/// The challenge of an ask's header.
pub fn challenge_in(header: &[u8]) -> u128
    requires { length header.now ≡ ASK_SIZE }
    ensures { result ≡ challenge_in header.now }
{
    LittleEndian::read_u128(&header[2..])
}

/// The connection of a header of six bytes.
pub fn link_in(header: &[u8]) -> u8
    requires { length header.now ≡ HEADER_SIZE }
    ensures { result ≡ link_in header.now }
{
    header[2]
}

/// The epoch of a header of six bytes.
pub fn epoch_in(header: &[u8]) -> u8
    requires { length header.now ≡ HEADER_SIZE }
    ensures { result ≡ epoch_in header.now }
{
    header[3]
}

/// The last word of a header of six bytes: the side, or the number of an event.
pub fn last_in(header: &[u8]) -> u16
    requires { length header.now ≡ HEADER_SIZE }
    ensures { result ≡ last_in header.now }
{
    u16::from(header[4]) + 256 * u16::from(header[5])
}

/// The word of an event's body, of which a byte that isn't there is 0.
pub fn value_in(body: &[u8]) -> u16
    ensures { result ≡ value_in body.now }
{
    let low = body.first().copied().unwrap_or(0);
    let high = body.get(1).copied().unwrap_or(0);
    u16::from(low) + 256 * u16::from(high)
}
