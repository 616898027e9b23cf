//! Entries of the ledger: a header and a body, with who made them and for whom.

ghost use Rattle.std.specs.Prelude.{◌≡◌, ◌≤◌, length};
ghost use Rattle.sx_ledger.specs.Entries.{entry_of, made, padded};

/// Who made a tag.
#[derive(Clone, Copy, PartialEq, Eq, PartialOrd, Ord, Debug)]
pub enum Maker {
    /// The deployer.
    Deployer,
    /// The module of this index.
    Module(u8),
}

/// A header and a plain body that a holder of the key wrapped. Bytes past the lengths are 0.
#[derive(Clone, Copy, PartialEq, Eq, PartialOrd, Ord, Debug)]
pub struct Entry {
    /// Who wrapped it.
    pub maker: Maker,
    /// The module that a set-key packet is for, else 255.
    pub target: u8,
    /// The boot that a set-key packet is for, or at which an ask was answered; 0 of an event.
    pub boot: u32,
    /// The header.
    pub ad: [u8; 32],
    /// How many bytes the header has, at most 32.
    pub ad_len: u8,
    /// The plain body.
    pub body: [u8; 32],
    /// How many bytes the body has, at most 32.
    pub body_len: u8,
}

impl Entry {
    /// The entry with this header and this body, of at most 32 bytes each.
    pub fn new(maker: Maker, target: u8, boot: u32, ad: &[u8], body: &[u8]) -> Entry
        requires ad { length ad.now ≤ 32 }
        requires body { length body.now ≤ 32 }
        ensures { result ≡ entry_of (made maker target boot ad.now body.now) }
    {
        Entry {
            maker,
            target,
            boot,
            ad: padded(ad),
            ad_len: ad.len() as u8,
            body: padded(body),
            body_len: body.len() as u8,
        }
    }
}

fn padded(bytes: &[u8]) -> [u8; 32]
    requires { length bytes.now ≤ 32 }
    ensures { result ≡ padded bytes.now }
{
    let mut room = [0; 32];
    room[..bytes.len()].copy_from_slice(bytes);
    room
}
