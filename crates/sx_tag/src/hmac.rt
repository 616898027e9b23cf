//! HMAC-SHA-256 (RFC 2104).

ghost use Rattle.std.specs.Prelude.{◌≡◌, ◌≤◌, [], ◌++◌, length, drop, map, bit_xor, bytes_eq};
ghost use Rattle.sha2.specs.Hashers.{Holds256};
ghost use Rattle.sx_tag.specs.Mac.{padded_key, hmac_sha256, inner_key, outer_key};

use crate::mac::Tag;
use sha2::{Digest, Sha256};
use std::marker::Model;
use std::mem;

const INNER_PAD: u8 = 0x36;

const OUTER_PAD: u8 = 0x5C;

/// A run of HMAC: the inner hash takes the message, and the outer one ends the run.
#[derive(Drop)]
pub struct HmacRun {
    inner: Sha256,
    outer: Sha256,
}

/// A key, and a run that was begun with it.
#[derive(Drop)]
struct Begun {
    key: [u8; 16],
    run: HmacRun,
}

impl Model for Begun {
    ghost use Rattle.std.specs.Prelude.{List, ℕ, [], ◌++◌};
    ghost use Rattle.sha2.specs.Hashers.{Holds256};
    ghost use Rattle.sx_tag.specs.Mac.{inner_key, outer_key};

    // A run is known by its key.
    ghost Value = { List ℕ };

    ghost view = { λ b. b.key };

    ghost invariant = { λ b. Holds256 b.run.inner (inner_key b.key ++ [])
        × Holds256 b.run.outer (outer_key b.key) };
}

impl Begun {
    fn new(key: &[u8; 16]) -> Begun
        ensures { result ≡ key.now }
    {
        Begun {
            key: *key,
            run: begin_run(key),
        }
    }

    fn copied(&self) -> Begun
        ensures { result ≡ self.now }
    {
        Begun {
            key: self.key,
            run: self.run(),
        }
    }

    /// Whether it was begun with this key.
    fn is_of(&self, key: &[u8]) -> bool
        ensures { result ≡ bytes_eq self.now key.now }
    {
        self.key.as_slice() == key
    }

    /// A run of its own that goes on from there.
    fn run(&self) -> HmacRun
        ensures inner { Holds256 result.inner (inner_key self.now ++ []) }
        ensures outer { Holds256 result.outer (outer_key self.now) }
    {
        copied(&self.run)
    }
}

/// HMAC-SHA-256 (RFC 2104, over the SHA-256 of FIPS 180-4) as a tag. A run begins with two blocks
/// of its key, a third of what it takes to wrap a short body, so the runs of the two keys that were
/// kept last go on from copies.
#[derive(Drop)]
pub struct Hmac {
    last: Begun,
    before: Begun,
}

impl Hmac {
    /// The tag with the run of a key of zeros.
    pub fn new() -> Hmac {
        let last = Begun::new(&[0; 16]);
        let before = last.copied();
        Hmac { last, before }
    }
}

impl Tag for Hmac {
    ghost use Rattle.std.specs.Prelude.{◌++◌};
    ghost use Rattle.sha2.specs.Hashers.{Holds256};
    ghost use Rattle.sx_tag.specs.Mac.{hmac_sha256, inner_key, outer_key};
    ghost use Rattle.sx_tag.specs.Tags.{hmac_sha256-is_tag};

    type Run = HmacRun;

    ghost mac = { hmac_sha256 };

    ghost has = { λ run key message. Holds256 run.inner (inner_key key ++ message)
        × Holds256 run.outer (outer_key key) };

    fn another(&self) -> Hmac {
        Hmac {
            last: self.last.copied(),
            before: self.before.copied(),
        }
    }

    fn keep(&mut self, key: &[u8; 16]) {
        if self.last.is_of(key) {
            return;
        }
        mem::swap(&mut self.last, &mut self.before);
        if !self.last.is_of(key) {
            self.last = Begun::new(key);
        }
    }

    fn begin(&self, key: &[u8]) -> HmacRun {
        if self.last.is_of(key) {
            self.last.run()
        } else {
            begin_run(key)
        }
    }

    fn copy(&self, run: &HmacRun) -> HmacRun {
        copied(run)
    }

    fn feed(&self, run: &mut HmacRun, part: &[u8]) {
        run.inner.update(part);
    }

    #[tactic(auto, unfolding(crate::specs::Mac::hmac_sha256))]
    fn finish(&self, run: HmacRun) -> [u8; 32] {
        let digest = run.inner.finalize();
        let mut outer = run.outer;
        outer.update(digest.as_slice());
        outer.finalize()
    }

    ghost is_tag = { hmac_sha256-is_tag };
}

fn begin_run(key: &[u8]) -> HmacRun
    requires { length key.now ≤ 64 }
    ensures inner { Holds256 result.inner (inner_key key.now ++ []) }
    ensures outer { Holds256 result.outer (outer_key key.now) }
{
    HmacRun {
        inner: hash_of_padded(key, INNER_PAD),
        outer: hash_of_padded(key, OUTER_PAD),
    }
}

// A copy takes no memory, so it can't fail.
fn copied(run: &HmacRun) -> HmacRun
    ensures { result ≡ run.now }
{
    HmacRun {
        inner: run.inner.clone().unwrap(),
        outer: run.outer.clone().unwrap(),
    }
}

// A hash that holds the key, padded with zeros to a block, with the pad XORed into each byte.
fn hash_of_padded(key: &[u8], pad: u8) -> Sha256
    requires { length key.now ≤ 64 }
    ensures { ⟦<Sha256 as Digest>⟧.holds result (map (λ b. bit_xor b pad) (padded_key key.now)) }
{
    let mut block = padded(key);
    xor_each(&mut block, pad);
    let mut hash = Sha256::new();
    hash.update(block.as_slice());
    hash
}

fn padded(key: &[u8]) -> [u8; 64]
    requires { length key.now ≤ 64 }
    ensures { result ≡ padded_key key.now }
{
    let mut block = [0; 64];
    write_front(&mut block, key);
    block
}

fn write_front(block: &mut [u8], bytes: &[u8])
    requires { length bytes.now ≤ length block.old }
    ensures { block.new ≡ bytes.now ++ drop (length bytes.now) block.old }
{
    block[..bytes.len()].copy_from_slice(bytes);
}

fn xor_each(bytes: &mut [u8], pad: u8)
    ensures { bytes.new ≡ map (λ b. bit_xor b pad) bytes.old }
{
    for byte in bytes.iter_mut() {
        *byte ^= pad;
    }
}
