//! Tags, the chain of keys, and authenticated encryption.
//!
//! A `Tag` is a function of a key and a message that gives 32 bytes, fed piece by piece; `Hmac` is
//! HMAC-SHA-256. The keys of a node and its modules, and `wrap` and `unwrap`, are functions of any
//! such tag, and their contracts name its function `mac`. No call takes memory or fails.
//!
//! HMAC is defined in `specs/Mac.antt` in the words of RFC 2104, over the SHA-256 of the crate
//! `sha2`; the chain of keys in `specs/Keys.antt`, and wrapping in `specs/Wrap.antt`.
#![tactic(auto)]

pub use hmac::{Hmac, HmacRun};
pub use keys::{
    begin_attest_tag, begin_module_key, boot_key, feed_answer, finish_answer, kdf, layout_bytes,
    module_key,
};
pub use mac::Tag;
pub use weak::{Weak, WeakRun};
pub use wrapping::{unwrap, wrap};

mod hmac;
mod keys;
pub mod laws;
mod mac;
mod weak;
mod wrapping;
