//! The keys of modules and connections.

ghost use Rattle.std.specs.Prelude.{◌≡◌, ◌+◌, ◌*◌, [], Some};
ghost use Rattle.sx_tag.specs.Wrap.{wrapped};
ghost use Rattle.sx_deployer.specs.Keeping as spec;
ghost use Rattle.sx_deployer.specs.Granting as grants;

use crate::target::Target;
use sx_lang::sides::Side;
use sx_mean::events::End;
use sx_tag::Tag;
use sx_wire::{SetKeyPacket, write_set_key};

/// The key of a module at a boot.
pub fn key_of<T: Tag>(tag: &T, target: &Target, boot: u32) -> [u8; 16]
    ensures { result ≡ spec.key_of T.mac (spec.known target.now) boot }
{
    sx_tag::module_key(
        tag,
        &target.node_key,
        boot,
        target.provider,
        &target.identity,
    )
}

fn expected<T: Tag>(tag: &T, key: &[u8; 16], ask: &[u8; 18]) -> [u8; 16]
    ensures { result ≡ (wrapped T.mac key.now ask.now []).tag }
{
    let mut cipher = [0; 32];
    sx_tag::wrap(tag, key, ask, &[], &mut cipher)
}

/// Whether these bytes answer an ask, under a module's key.
pub fn is_answer<T: Tag>(tag: &T, key: &[u8; 16], mac: &[u8], ask: &[u8; 18]) -> bool
    ensures { result ≡ grants.is_answer T.mac key.now mac.now (Some ask.now) }
{
    mac == expected(tag, key, ask).as_slice()
}

fn side_number(side: Side) -> u16
    ensures { result ≡ grants.side_number side }
{
    match side {
        Side::From => 0,
        Side::To => 1,
    }
}

/// A connection and an epoch in one word.
fn field(link: u8, epoch: u8) -> u16
    ensures { result ≡ link + 256 * epoch }
{
    u16::from(link) + 256 * u16::from(epoch)
}

/// The key of a connection in an epoch.
pub fn connection_key<T: Tag>(tag: &T, secret: &[u8; 16], link: u8, epoch: u8) -> [u8; 16]
    ensures { result ≡ grants.connection_key T.mac secret.now link epoch }
{
    sx_tag::kdf(tag, secret, &field(link, epoch).to_le_bytes())
}

/// A set-key packet, and the connection's key that it carries.
#[derive(Clone, Copy)]
pub struct KeyPacket {
    pub bytes: [u8; 38],
    pub key: [u8; 16],
}

/// The set-key packet for an end of the module with this key, with the connection's key of an
/// epoch.
pub fn grant<T: Tag>(tag: &T, secret: &[u8; 16], key: &[u8; 16], end: End, epoch: u8) -> KeyPacket
    ensures bytes { result.bytes ≡ grants.set_key T.mac secret.now key.now «end» epoch }
    ensures key { result.key ≡ grants.connection_key T.mac secret.now «end».link epoch }
{
    let connection = connection_key(tag, secret, end.link, epoch);
    let mut packet = SetKeyPacket {
        link: field(end.link, epoch),
        end: side_number(end.side),
        cipher: [0; 16],
        mac: [0; 16],
    };
    let header = write_set_key(&packet);
    let mut cipher = [0; 32];
    packet.mac = sx_tag::wrap(tag, key, &header[..6], &connection, &mut cipher);
    packet.cipher.copy_from_slice(&cipher[..16]);
    let bytes = write_set_key(&packet);
    KeyPacket {
        bytes,
        key: connection,
    }
}
