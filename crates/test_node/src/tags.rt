//! The test cases of RFC 4231, and sums of bytes by hand.

ghost use Rattle.std.specs.Prelude.{◌≤◌, length};

use sx_tag::{
    Hmac, Tag, Weak, begin_attest_tag, feed_answer, finish_answer, layout_bytes, module_key,
    unwrap, wrap,
};

fn tag_of(key: &[u8], first: &[u8], rest: &[u8]) -> [u8; 32]
    requires { length key.now ≤ 64 }
{
    let tag = Hmac::new();
    let mut run = tag.begin(key);
    tag.feed(&mut run, first);
    tag.feed(&mut run, rest);
    tag.finish(run)
}

#[test]
fn hmac_of_rfc_4231(rt: HostRuntime) {
    let counted: [u8; 25] = [
        1, 2, 3, 4, 5, 6, 7, 8, 9, 10, 11, 12, 13, 14, 15, 16, 17, 18, 19, 20, 21, 22, 23, 24, 25,
    ];
    let first = tag_of(&[0x0B; 20], b"Hi ", b"There");
    let second = tag_of(b"Jefe", b"what do ya want ", b"for nothing?");
    let third = tag_of(&[0xAA; 20], &[0xDD; 50], &[]);
    let fourth = tag_of(&counted, &[], &[0xCD; 50]);
    for (tag, high, low) in [
        (
            first,
            0xb0344c61d8db38535ca8afceaf0bf12b_u128,
            0x881dc200c9833da726e9376c2e32cff7_u128,
        ),
        (
            second,
            0x5bdcc146bf60754e6a042426089575c7,
            0x5a003f089d2739839dec58b964ec3843,
        ),
        (
            third,
            0x773ea91e36800e46854db8ebd09181a7,
            0x2959098b3ef8c122d9635514ced565fe,
        ),
        (
            fourth,
            0x82558a389a443c0ea4cc819899f2083a,
            0x85f0faa3e578f8077a2e3ff46729665b,
        ),
    ] {
        assert!(rt; &tag[..16] == high.to_be_bytes().as_slice());
        assert!(rt; &tag[16..] == low.to_be_bytes().as_slice());
    }
    let fifth = tag_of(&[0x0C; 20], b"Test With ", b"Truncation");
    assert!(rt;
        &fifth[..16]
            == 0xa3b6167473100ee06e0c796c2955552b_u128
                .to_be_bytes()
                .as_slice()
    );
}

// The boot key is 16 times 4B + 1, the provider's 16 * 4C + 4B + 2 and the module's 16 * 0D + 4B +
// 3.
#[test]
fn keys_by_hand(rt: HostRuntime) {
    assert!(rt; module_key(&Weak, &[0; 16], 1, 2, &[3]).as_slice() == [0x1E; 16].as_slice());
    let mut run = begin_attest_tag(&Weak, &[1; 16]);
    feed_answer(&Weak, &mut run, &[3]);
    assert!(rt; finish_answer(&Weak, run).as_slice() == [0x54; 16].as_slice());
    assert!(rt;
        layout_bytes(0x600, 0x608, 0x700, 0x710).as_slice()
            == [0, 6, 8, 6, 0, 7, 0x10, 7].as_slice()
    );
}

#[test]
fn wraps_an_empty_body(rt: HostRuntime) {
    let mut cipher = [9; 32];
    let tag = wrap(&Weak, &[1; 16], &[2, 0], &[], &mut cipher);
    assert!(rt; tag.as_slice() == [0x68; 16].as_slice());
    assert!(rt; cipher.as_slice() == [9; 32].as_slice());
}

#[test]
fn unwraps_what_was_wrapped(rt: HostRuntime) {
    let mut cipher = [0; 32];
    let mut tag = wrap(&Hmac::new(), &[7; 16], b"head", b"body", &mut cipher);
    assert!(rt; &cipher[..4] != b"body".as_slice());
    let body = unwrap(&Hmac::new(), &[7; 16], b"head", &cipher[..4], &tag);
    assert!(rt; body.is_some_and(|body| &body[..5] == b"body\0".as_slice()));
    tag[15] ^= 1;
    assert!(rt; unwrap(&Hmac::new(), &[7; 16], b"head", &cipher[..4], &tag).is_none());
}
