//! Where a run of the source is, in memory. Contracts see each type as its record of
//! `specs/State.antt`.

use std::marker::Model;
use sx_mean::stores::Store;

/// A device: its last value, and whether no one took it yet.
#[derive(Drop)]
pub(crate) struct Reading {
    pub(crate) value: u16,
    pub(crate) fresh: bool,
}

impl Model for Reading {
    ghost use Rattle.sx_model.specs.State.{Reading as Seen};

    ghost Value = { Seen };

    ghost view = { λ r. record { value = r.value; fresh = r.fresh } };
}

/// An end of a connection. At a receiving end `next` is the least number that it still takes.
#[derive(Drop)]
pub(crate) struct EndView {
    pub(crate) epoch: Option<u8>,
    pub(crate) next: u32,
}

impl Model for EndView {
    ghost use Rattle.sx_model.specs.State.{EndView as Seen};

    ghost Value = { Seen };

    ghost view = { λ e. record { epoch = e.epoch; next = e.next } };
}

/// What a module still owes of an event.
#[derive(Drop)]
pub(crate) struct Pending {
    pub(crate) emits: Vec<u16>,
    pub(crate) pieces: usize,
}

impl Model for Pending {
    ghost use Rattle.sx_model.specs.State.{Pending as Seen};

    ghost Value = { Seen };

    ghost view = { λ p. record { emits = p.emits.items; pieces = p.pieces } };
}

/// A module that is present.
#[derive(Drop)]
pub(crate) struct Present {
    pub(crate) store: Store,
    pub(crate) ends: Vec<EndView>,
    pub(crate) pending: Option<Pending>,
}

impl Model for Present {
    ghost use Rattle.sx_model.specs.State.{Present as Seen};

    ghost Value = { Seen };

    ghost view = { λ p. record { cells = p.store.cells.items; ends = p.ends.items; pending = p.pending } };
}

/// A challenge that a module vouched for, at a boot.
#[derive(Drop)]
pub(crate) struct Vouched {
    pub(crate) challenge: u128,
    pub(crate) boot: u32,
}

impl Model for Vouched {
    ghost use Rattle.sx_model.specs.State.{Vouched as Seen};

    ghost Value = { Seen };

    ghost view = { λ v. record { challenge = v.challenge; boot = v.boot } };
}

/// The boot at which a module was attested, and the connections' epochs then.
#[derive(Drop)]
pub(crate) struct Attestation {
    pub(crate) boot: u32,
    pub(crate) floors: Vec<u8>,
}

impl Model for Attestation {
    ghost use Rattle.sx_model.specs.State.{Attestation as Seen};

    ghost Value = { Seen };

    ghost view = { λ a. record { boot = a.boot; floors = a.floors.items } };
}

/// A module: itself at its node, and what the deployer keeps of it.
#[derive(Drop)]
pub(crate) struct Standing {
    pub(crate) present: Option<Present>,
    pub(crate) asked: Option<u128>,
    pub(crate) vouched: Vec<Vouched>,
    pub(crate) attested: Option<Attestation>,
}

impl Model for Standing {
    ghost use Rattle.sx_model.specs.State.{Standing as Seen};

    ghost Value = { Seen };

    ghost view = { λ x. record {
      present = x.present;
      asked = x.asked;
      vouched = x.vouched.items;
      attested = x.attested;
    } };
}

/// The words that were sent over a connection in an epoch.
#[derive(Drop)]
pub(crate) struct Words {
    pub(crate) words: Vec<u16>,
}

impl Model for Words {
    ghost use Rattle.std.specs.Prelude.{ℕ, ◌≤◌, List, length};

    ghost Value = { List ℕ };

    ghost view = { λ w. w.words.items };

    ghost invariant = { λ w. length w.words.items ≤ 65535 };
}

/// Where a run is.
#[derive(Drop)]
pub(crate) struct State {
    pub(crate) boots: Vec<u32>,
    pub(crate) devices: Vec<Reading>,
    pub(crate) modules: Vec<Standing>,
    pub(crate) epochs: Vec<u8>,
    /// Those of connection c in epoch e are at c + 256 e.
    pub(crate) sent: Vec<Words>,
    pub(crate) asks: u64,
}

impl Model for State {
    ghost use Rattle.sx_model.specs.State.{Model as Seen};

    ghost Value = { Seen };

    ghost view = { λ s. record {
      boots = s.boots.items;
      devices = s.devices.items;
      modules = s.modules.items;
      epochs = s.epochs.items;
      sent = s.sent.items;
      asks = s.asks;
    } };
}
