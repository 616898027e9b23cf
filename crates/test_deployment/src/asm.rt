//! What is shown of bytes that aren't whole words, which the command `dis` refuses.

use sx_asm::dis;

/// Whether the bytes are shown so, as an instruction of this many bytes.
fn is_shown(bytes: &[u8], text: &[u8], size: u8) -> bool {
    let mut into = [0; 64];
    if bytes.len() < 2 {
        return false;
    }
    let (length, found) = dis(0x4000, bytes, &mut into);
    found == size && into.get(..length) == Some(text)
}

/// The bytes don't hold the instruction whole.
#[test]
fn a_word_alone(rt: HostRuntime) {
    assert!(rt; is_shown(&[0xb2, 0x40, 0x09, 0x00, 0x00], b".word 0x40b2", 2));
}
