//! Authenticated encryption of a header and a body.

ghost use Rattle.std.specs.Prelude.{◌≡◌, ◌≢◌, ◌≤◌, ◌++◌, ◌↔◌, length, drop, IsNone, IsTrue};
ghost use Rattle.std.specs.Prelude.{ℕ, List, []};
ghost use Rattle.std.specs.Prelude.{bytes_eq};
ghost use Rattle.sx_tag.specs.Wrap as spec;

use crate::keys::half;
use crate::mac::Tag;

const STREAM_LABEL: u8 = b'S';

const TAG_LABEL: u8 = b'T';

/// Wraps a header `ad` and a body of at most 32 bytes each. The start of `cipher` then holds the
/// encrypted body, and the rest of it is unchanged. Gives the tag. The forms of the stream and the
/// tag are our own.
pub fn wrap<T: Tag>(
    tag: &T,
    key: &[u8; 16],
    ad: &[u8],
    body: &[u8],
    cipher: &mut [u8; 32],
) -> [u8; 16]
    requires ad { length ad.now ≤ 32 }
    requires body { length body.now ≤ 32 }
    ensures cipher { cipher.new ≡ (spec.wrapped T.mac key.now ad.now body.now).cipher
        ++ drop (length body.now) cipher.old }
    ensures tag { result ≡ (spec.wrapped T.mac key.now ad.now body.now).tag }
{
    let begun = tag.begin(key);
    crypt(tag, tag.copy(&begun), ad, body, cipher);
    wrap_tag(tag, begun, ad, &cipher[..body.len()])
}

/// The body after a cipher, with zeros after it; `None` exactly where the tag isn't that of the
/// header and the cipher, which have at most 32 bytes each.
#[tactic(auto, unfolding(crate::specs::Wrap::unwrapped))]
pub fn unwrap<T: Tag>(
    tag: &T,
    key: &[u8; 16],
    ad: &[u8],
    cipher: &[u8],
    mac: &[u8; 16],
) -> Option<[u8; 32]>
    requires ad { length ad.now ≤ 32 }
    requires cipher { length cipher.now ≤ 32 }
    ensures body { result ≡ spec.unwrapped T.mac key.now ad.now cipher.now mac.now }
    ensures none { IsNone result ↔ (mac.now ≢ spec.wrap_tag T.mac key.now ad.now cipher.now) }
{
    let begun = tag.begin(key);
    let expected = wrap_tag(tag, tag.copy(&begun), ad, cipher);
    if !is_same(mac, &expected) {
        return None;
    }
    let mut body = [0; 32];
    crypt(tag, begun, ad, cipher, &mut body);
    Some(body)
}

// The tag, from a run that was begun with the key.
fn wrap_tag<T: Tag>(tag: &T, begun: T::Run, ad: &[u8], cipher: &[u8]) -> [u8; 16]
    requires { length ad.now ≤ 32 }
    ensures { (key : List ℕ) → T.has begun key []
        → result ≡ spec.wrap_tag T.mac key ad.now cipher.now }
{
    let mut run = begun;
    tag.feed(&mut run, &[TAG_LABEL, ad.len() as u8]);
    tag.feed(&mut run, ad);
    tag.feed(&mut run, cipher);
    half(&tag.finish(run))
}

fn is_same(tag: &[u8; 16], expected: &[u8; 16]) -> bool
    ensures value { result ≡ bytes_eq tag.now expected.now }
    ensures same { IsTrue result ↔ (tag.now ≡ expected.now) }
{
    tag.as_slice() == expected.as_slice()
}

// Encrypts or decrypts at the start of `into`, from a run that was begun with the key. An empty
// body, as in an answer to an ask, takes no stream.
fn crypt<T: Tag>(tag: &T, begun: T::Run, ad: &[u8], bytes: &[u8], into: &mut [u8; 32])
    requires ad { length ad.now ≤ 32 }
    requires bytes { length bytes.now ≤ 32 }
    ensures { (key : List ℕ) → T.has begun key [] → into.new
        ≡ spec.crypt T.mac key ad.now bytes.now ++ drop (length bytes.now) into.old }
{
    if bytes.is_empty() {
        return;
    }
    let mut run = begun;
    tag.feed(&mut run, &[STREAM_LABEL, ad.len() as u8]);
    tag.feed(&mut run, ad);
    tag.feed(&mut run, &[0]);
    xor_into(into, bytes, &tag.finish(run));
}

fn xor_into(into: &mut [u8; 32], bytes: &[u8], stream: &[u8; 32])
    requires { length bytes.now ≤ 32 }
    ensures { into.new ≡ spec.xor_bytes bytes.now stream.now ++ drop (length bytes.now) into.old }
{
    for (i, byte) in bytes.iter().enumerate() {
        into[i] = *byte ^ stream[i];
    }
}
