//! The deployer: its open asks, what it accepted, and the epochs of the connections.

ghost use Rattle.std.specs.Prelude.{◌≡◌, ◌<◌, ◌≤◌, IfOk, IfSome, IsSome, None, false};
ghost use Rattle.std.specs.Prelude.{length, map, option_map, slice_index};
ghost use Rattle.sx_wire.specs.Headers.{ask_packet};
ghost use Rattle.sx_deployer.specs.Granting.{connection_key};
ghost use Rattle.sx_deployer.specs.Keeping as spec;

use crate::derived::DerivedKey;
use crate::keys::{KeyPacket, grant, is_answer, key_of};
use crate::renewal::{may_attest, renewed};
use crate::target::Target;
use std::alloc::{AllocError, Global};
use std::marker::{Model, PhantomData};
use sx_mean::events::End;
use sx_tag::Tag;

/// What the deployer says to an answer.
#[derive(Clone, Copy, PartialEq, Eq, Debug)]
pub enum Verdict {
    /// The answer is accepted.
    Attested,
    /// The answer is not accepted, and nothing changed.
    Denied,
}

/// The deployer of one application, with this tag.
#[derive(Drop)]
pub struct Deployer<T: Tag> {
    secret: [u8; 16],
    targets: Vec<Target>,
    asks: u32,
    open_asks: [Option<[u8; 18]>; 32],
    attested: [Option<u32>; 32],
    epochs: [u8; 64],
    /// The key that the last answer was judged by.
    derived: Option<DerivedKey>,
    tag: PhantomData<T>,
}

impl<T: Tag> Model for Deployer<T> {
    ghost use Rattle.std.specs.Prelude.{◌≤◌, length, map};
    ghost use Rattle.sx_deployer.specs.Keeping.{AreFirst, IsDerived, Keeping, known};

    ghost Value = { Keeping };

    ghost view = { λ d. record {
      secret = d.secret;
      targets = map known d.targets.items;
      state = record {
        asks = d.asks;
        open_asks = d.open_asks;
        attested = d.attested;
        epochs = d.epochs;
      };
    } };

    ghost invariant = { λ d. (length d.targets.items ≤ 32)
        × AreFirst (map known d.targets.items) d.epochs
        × IsDerived T.mac (map known d.targets.items) d.derived };
}

impl<T: Tag> Deployer<T> {
    /// The deployer with this secret and these modules, which asked nothing yet. It takes no
    /// memory.
    pub fn new(secret: [u8; 16], targets: Vec<Target>) -> Deployer<T>
        requires { length targets.items ≤ 32 }
        ensures { result ≡ spec.first secret (map spec.known targets.items) }
    {
        Deployer {
            secret,
            targets,
            asks: 0,
            open_asks: [None; 32],
            attested: [None; 32],
            epochs: [0; 64],
            derived: None,
            tag: PhantomData,
        }
    }

    /// The ask packet for a module, whose challenge is the number of asks before; it is now the
    /// module's open ask.
    pub fn ask(&mut self, _tag: &T, module: u8) -> [u8; 18]
        requires known { «module» < length self.old.targets }
        requires few { self.old.state.asks < u32.MAX }
        ensures packet { result ≡ ask_packet self.old.state.asks }
        ensures state { self.new ≡ spec.asked self.old «module» }
    {
        let packet = sx_wire::write_ask(&u128::from(self.asks).to_le_bytes());
        self.asks += 1;
        self.open_asks[usize::from(module)] = Some(packet);
        packet
    }

    /// Judges an answer of a module at a boot of its node. `Denied` exactly where the module has no
    /// open ask, the tag isn't the one expected at that boot, the module was attested at this boot
    /// or a later one, or it was attested before and one of its connections has epoch 255; the
    /// deployer is then as before. `Attested` closes the ask, and raises the epochs of the
    /// connections of a module that was attested before.
    pub fn answer(&mut self, tag: &T, module: u8, boot: u32, mac: &[u8]) -> Verdict
        requires { «module» < length self.old.targets }
        ensures verdict { result ≡ spec.verdict T.mac self.old «module» boot mac.now }
        ensures state { self.new ≡ spec.judged T.mac self.old «module» boot mac.now }
        ensures targets { self.new.targets ≡ self.old.targets }
        ensures asks { self.new.state.asks ≡ self.old.state.asks }
    {
        let index = usize::from(module);
        let Some(ask) = self.open_asks[index] else {
            return Verdict::Denied;
        };
        let last = self.attested[index];
        if !may_attest(&self.targets[index].ends, &self.epochs, last, boot) {
            return Verdict::Denied;
        }
        let key = self.key_of(tag, module, boot);
        self.derived = Some(DerivedKey { module, boot, key });
        if !is_answer(tag, &key, mac, &ask) {
            return Verdict::Denied;
        }
        let target = &self.targets[index];
        self.epochs = renewed(&target.ends, &self.epochs, last);
        self.open_asks[index] = None;
        self.attested[index] = Some(boot);
        Verdict::Attested
    }

    /// The key of a module at a boot. Unless it is kept, the module's whole text is hashed.
    fn key_of(&self, tag: &T, module: u8, boot: u32) -> [u8; 16]
        requires { «module» < length self.now.targets }
        ensures { result ≡ spec.key_of T.mac (spec.target_at self.now «module») boot }
    {
        match &self.derived {
            Some(derived) if derived.is_of(module, boot) => derived.key,
            _ => key_of(tag, &self.targets[usize::from(module)], boot),
        }
    }

    /// The set-key packet for an end of a module, by its index, at the boot at which the module was
    /// last attested and in the connection's present epoch: for a program that gives keys module by
    /// module. A run, which gives those of other boots too, takes `packet`.
    pub fn set_key(&self, tag: &T, module: u8, end: u8) -> [u8; 38]
        requires known { «module» < length self.now.targets }
        requires attested { IsSome (spec.attested_at self.now «module») }
        requires has_end { end < length (spec.target_at self.now «module»).ends }
        ensures { result ≡ spec.packet_at T.mac self.now «module» end }
    {
        let target = &self.targets[usize::from(module)];
        let end = target.ends[usize::from(end)];
        let boot = self.attested[usize::from(module)].unwrap_or(0);
        let key = self.key_of(tag, module, boot);
        grant(tag, &self.secret, &key, end, self.epoch(end.link)).bytes
    }

    /// The epoch of a connection: 0 of one that no module has.
    pub fn epoch(&self, link: u8) -> u8
        ensures epoch { result ≡ slice_index self.now.state.epochs link }
        ensures first { spec.is_held self.now.targets link ≡ false → result ≡ 0 }
    {
        self.epochs.get(usize::from(link)).copied().unwrap_or(0)
    }

    /// The boot at which a module was last attested; `None` exactly where it wasn't.
    pub fn attested(&self, module: u8) -> Option<u32>
        requires { «module» < length self.now.targets }
        ensures { result ≡ spec.attested_at self.now «module» }
    {
        self.attested[usize::from(module)]
    }

    /// A module's open ask; `None` exactly where it has none.
    pub fn open_ask(&self, module: u8) -> Option<[u8; 18]>
        requires { «module» < length self.now.targets }
        ensures { result ≡ spec.open_ask self.now «module» }
    {
        self.open_asks[usize::from(module)]
    }

    /// The set-key packet for an end, at a boot of its holder's node and in an epoch of the
    /// connection; `None` exactly where there is no such module.
    pub fn packet(&self, tag: &T, holder: u8, boot: u32, end: End, epoch: u8) -> Option<[u8; 38]>
        ensures { result ≡ spec.packet_for T.mac self.now holder boot «end» epoch }
    {
        let packet = self.key_packet(tag, holder, boot, end, epoch)?;
        Some(packet.bytes)
    }

    /// The same packet beside the connection's key that it carries, for whoever keeps both: the key
    /// is derived once.
    pub fn key_packet(
        &self,
        tag: &T,
        holder: u8,
        boot: u32,
        end: End,
        epoch: u8,
    ) -> Option<KeyPacket>
        ensures bytes { option_map (λ p. p.bytes) result
            ≡ spec.packet_for T.mac self.now holder boot «end» epoch }
        ensures key { IfSome result (λ p. p.key
            ≡ connection_key T.mac self.now.secret «end».link epoch) }
    {
        match self.targets.get(usize::from(holder)) {
            Some(_) => {
                let key = self.key_of(tag, holder, boot);
                Some(grant(tag, &self.secret, &key, end, epoch))
            }
            None => None,
        }
    }

    /// A deployer that is equal to this one. The error says that memory ran out.
    pub fn copy(&self, alloc: Global) -> Result<Deployer<T>, AllocError>
        ensures { IfOk result (λ d. d ≡ self.now) }
    {
        let mut targets = Vec::new(alloc);
        for target in &self.targets {
            targets.push(target.copy()?)?;
        }
        Ok(Deployer {
            secret: self.secret,
            targets,
            asks: self.asks,
            open_asks: self.open_asks,
            attested: self.attested,
            epochs: self.epochs,
            derived: self.derived,
            tag: PhantomData,
        })
    }
}
