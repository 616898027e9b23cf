//! Packets worked by hand.

use sx_wire::{
    EventPacket, SetKeyPacket, read_ask, read_event, read_set_key, write_ask, write_event,
    write_set_key,
};

// The bytes of an event that the sum tag accepts, made by hand.
const FORGED: [u8; 24] = [
    3, 0, 1, 0, 1, 0, 0x99, 0x9E, 0xD6, 0xD6, 0xD6, 0xD6, 0xD6, 0xD6, 0xD6, 0xD6, 0xD6, 0xD6, 0xD6,
    0xD6, 0xD6, 0xD6, 0xD6, 0xD6,
];

#[test]
fn the_event_made_by_hand(rt: HostRuntime) {
    let event = EventPacket {
        link: 1,
        number: 1,
        cipher: [0x99, 0x9E],
        mac: [0xD6; 16],
    };
    assert!(rt; write_event(&event).as_slice() == FORGED.as_slice());
    assert!(rt; read_event(&FORGED) == Some(event));
    assert!(rt; read_event(&FORGED[..23]).is_none());
    assert!(rt; read_set_key(&FORGED).is_none());
}

#[test]
fn the_set_key_packet_of_an_epoch(rt: HostRuntime) {
    let packet = SetKeyPacket {
        link: 0x0201,
        end: 1,
        cipher: [7; 16],
        mac: [9; 16],
    };
    let mut bytes = write_set_key(&packet);
    assert!(rt; &bytes[..7] == [1, 0, 1, 2, 1, 0, 7].as_slice());
    assert!(rt; read_set_key(&bytes) == Some(packet));
    bytes[1] = 1;
    assert!(rt; read_set_key(&bytes).is_none());
}

#[test]
fn an_ask(rt: HostRuntime) {
    let bytes = write_ask(&[5; 16]);
    assert!(rt; &bytes[..3] == [2, 0, 5].as_slice());
    assert!(rt; read_ask(&bytes) == Some([5; 16]));
    assert!(rt; read_ask(&[2; 18]).is_none());
}
