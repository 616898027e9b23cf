//! The chain of keys, from a node's key to a module's.

ghost use Rattle.std.specs.Prelude.{◌≡◌, ℕ, List, [], ◌++◌, take};
ghost use Rattle.sx_tag.specs.Keys as spec;
ghost use Rattle.sx_tag.specs.Stream.{Leads};

use crate::mac::Tag;

const KEY_LABEL: u8 = b'K';

const ATTEST_LABEL: u8 = b'A';

/// A key derived from another key and a part. The chain of keys is that of Sancus 2.0; its forms
/// are our own.
#[tactic(auto, unfolding(crate::specs::Keys::kdf))]
pub fn kdf<T: Tag>(tag: &T, key: &[u8; 16], part: &[u8]) -> [u8; 16]
    ensures { result ≡ spec.kdf T.mac key.now part.now }
{
    let mut run = tag.begin(key);
    tag.feed(&mut run, &[KEY_LABEL]);
    tag.feed(&mut run, part);
    half(&tag.finish(run))
}

/// A node's key in one boot.
#[tactic(auto, unfolding(crate::specs::Keys::boot_key))]
pub fn boot_key<T: Tag>(tag: &T, node_key: &[u8; 16], boot: u32) -> [u8; 16]
    ensures { result ≡ spec.boot_key T.mac node_key.now boot }
{
    kdf(tag, node_key, &boot.to_le_bytes())
}

/// A module's key, from the node's key, the boot, the software provider and the module's identity.
/// The chain of keys is that of Sancus 2.0; its forms are our own.
#[tactic(auto, unfolding(crate::specs::Keys::module_key))]
pub fn module_key<T: Tag>(
    tag: &T,
    node_key: &[u8; 16],
    boot: u32,
    provider: u16,
    identity: &[u8],
) -> [u8; 16]
    ensures { result ≡ spec.module_key T.mac node_key.now boot provider identity.now }
{
    let base = boot_key(tag, node_key, boot);
    let mut run = begin_module_key(tag, &base, provider);
    feed_answer(tag, &mut run, identity);
    finish_answer(tag, run)
}

/// A run that ends in the key of a module under a boot key, once it was fed the module's identity
/// by `feed_answer`. So the identity needs no place of its own.
pub fn begin_module_key<T: Tag>(tag: &T, base: &[u8; 16], provider: u16) -> T::Run
    ensures { Leads T.has T.mac (spec.section_key T.mac base.now provider) result [] }
{
    let provider_key = kdf(tag, base, &provider.to_le_bytes());
    let mut run = tag.begin(&provider_key);
    tag.feed(&mut run, &[KEY_LABEL]);
    run
}

/// A run that ends in the tag by which a module with this key vouches for another, once it was fed
/// the other's identity by `feed_answer`.
pub fn begin_attest_tag<T: Tag>(tag: &T, key: &[u8; 16]) -> T::Run
    ensures { Leads T.has T.mac (spec.attest_tag T.mac key.now) result [] }
{
    let mut run = tag.begin(key);
    tag.feed(&mut run, &[ATTEST_LABEL]);
    run
}

/// Feeds a part to a run of `begin_module_key` or `begin_attest_tag`.
pub fn feed_answer<T: Tag>(tag: &T, run: &mut T::Run, part: &[u8])
    ensures { (answer : List ℕ → List ℕ) (fed : List ℕ) → Leads T.has T.mac answer run.old fed
        → Leads T.has T.mac answer run.new (fed ++ part.now) }
{
    tag.feed(run, part);
}

/// The answer to all that the run was fed.
pub fn finish_answer<T: Tag>(tag: &T, run: T::Run) -> [u8; 16]
    ensures { (answer : List ℕ → List ℕ) (fed : List ℕ) → Leads T.has T.mac answer run fed
        → result ≡ answer fed }
{
    half(&tag.finish(run))
}

/// A layout's four bounds, two bytes each: the last 8 bytes of a module's identity.
pub fn layout_bytes(pub_from: u16, pub_to: u16, priv_from: u16, priv_to: u16) -> [u8; 8]
    ensures { result ≡ spec.layout_bytes pub_from pub_to priv_from priv_to }
{
    let [a, b] = pub_from.to_le_bytes();
    let [c, d] = pub_to.to_le_bytes();
    let [e, f] = priv_from.to_le_bytes();
    let [g, h] = priv_to.to_le_bytes();
    [a, b, c, d, e, f, g, h]
}

/// The first 16 bytes.
pub fn half(full: &[u8; 32]) -> [u8; 16]
    ensures { result ≡ take 16 full.now }
{
    let mut front = [0; 16];
    front.copy_from_slice(&full[..16]);
    front
}
