//! Packets are handed to their receivers, and what these make of them is taken.

ghost use Rattle.std.specs.Prelude.{◌≡◌, ◌<◌, ◌≤◌, ◌++◌, length, option_and_then, option_map};
ghost use Rattle.std.specs.Prelude.{option_to_list, drop, slice_get, IfOk, IfSome, OnOk};
ghost use Rattle.sx_deploy.specs.Law.{IsSoundDeployment};
ghost use Rattle.sx_deploy.specs.SeenDeployment.{deployed_as};
ghost use Rattle.sx_drive.specs.Honest.{each, packets_of};
ghost use Rattle.sx_drive.specs.Honest as honest;
ghost use Rattle.sx_drive.specs.Driving.{Does, GoesOn, IsCallee, callee_of, packet_in, pieces_in};
ghost use Rattle.sx_drive.specs.Driving.{queued, waits};

use crate::callee::{Callee, receiver_of};
use crate::honest::Honest;
use crate::said::Said;
use spec_invocation::protocol::{EVENT_SIZE, INPUT_ENTRY};
use std::alloc::{AllocError, Global};
use std::collections::VecDeque;
use sx_bus::Copied;
use sx_deploy::deployment::Deployment;
use sx_sched::lines::Line;
use sx_tag::Tag;
use sx_trace::items::Item;
use sx_world::world::MOST_LINES;

/// Where a packet is put before a call.
const IN_WINDOW: u16 = 0x40;

/// Where a call leaves its pieces.
pub(crate) const OUT_WINDOW: u16 = 0x80;

/// The most packets that an event makes.
const MOST_PACKETS: u16 = 16;

/// How many packets an item says that a call made.
fn pieces_in(item: &Item) -> Option<u16>
    ensures pieces { result ≡ pieces_in item.now }
    ensures few { IfSome result (λ k. k ≤ 16) }
{
    match item {
        Item::Done { pieces, .. } => Some((*pieces).min(MOST_PACKETS)),
        _ => None,
    }
}

/// How many packets a call says that it made.
#[tactic(auto, using(crate::proofs::Shown::made_next))]
fn made_by(items: &[Item]) -> u16
    ensures made { result ≡ honest.made_by items.now }
    ensures few { result ≤ 16 }
{
    for item in items {
        if let Some(pieces) = pieces_in(item) {
            return pieces;
        }
    }
    0
}

/// The packet that an item shows.
fn packet_in(item: &Item) -> Option<u32>
    ensures { result ≡ packet_in item.now }
{
    match item {
        Item::Packet { number, .. } => Some(*number),
        _ => None,
    }
}

/// The packets that a line showed.
#[tactic(auto, using(crate::proofs::Shown::packets_next))]
pub(crate) fn packets_of(alloc: Global, items: &[Item]) -> Result<Vec<u32>, AllocError>
    ensures { IfOk result (λ packets. packets.items ≡ packets_of items.now) }
{
    let mut packets = Vec::new(alloc);
    for item in items {
        if let Some(packet) = packet_in(item) {
            packets.push(packet)?;
        }
    }
    Ok(packets)
}

/// Packets that were shown wait after the others.
#[tactic(auto, using(crate::proofs::Shown::packets_next))]
fn add_waiting(items: &[Item], waiting: &mut VecDeque<u32>) -> Result<(), AllocError>
    ensures { OnOk result (waiting.new.items ≡ waiting.old.items ++ packets_of items.now) }
{
    for item in items {
        if let Some(packet) = packet_in(item) {
            waiting.push_back(packet)?;
        }
    }
    Ok(())
}

impl<B: Copied, T: Tag> Honest<B, T> {
    /// Calls a module at an entry.
    pub(crate) fn call(
        &mut self,
        deployment: &Deployment,
        entry: u16,
        callee: Callee,
        said: &mut Vec<Said>,
    ) -> Result<(), AllocError>
        requires going { GoesOn T.mac deployment.now self.old }
        requires there { IsCallee (deployed_as deployment.now) (callee_of callee) }
        ensures does { Does T.mac deployment.now result self.old self.new said.old.items
            said.new.items (λ set. honest.calls set entry (callee_of callee)) }
        ensures goes_on { OnOk result (GoesOn T.mac deployment.now self.new) }
        ensures ran_out { self.new.ran_out ≡ self.old.ran_out }
    {
        let call = Line::Call {
            module: callee.part,
            entry,
            input: IN_WINDOW,
            output: OUT_WINDOW,
        };
        self.say(deployment, call, said)
    }

    /// Gives a packet to a module's node, and calls the module.
    fn hand(
        &mut self,
        deployment: &Deployment,
        entry: u16,
        callee: Callee,
        packet: u32,
        said: &mut Vec<Said>,
    ) -> Result<(), AllocError>
        requires going { GoesOn T.mac deployment.now self.old }
        requires there { IsCallee (deployed_as deployment.now) (callee_of callee) }
        ensures does { Does T.mac deployment.now result self.old self.new said.old.items
            said.new.items (λ set. honest.hands set entry (callee_of callee) packet) }
        ensures goes_on { OnOk result (GoesOn T.mac deployment.now self.new) }
        ensures ran_out { self.new.ran_out ≡ self.old.ran_out }
    {
        let give = Line::Give {
            packet,
            node: callee.node,
            at: IN_WINDOW,
        };
        self.say(deployment, give, said)?;
        self.call(deployment, entry, callee, said)
    }

    /// Hands packets to a module, one after the other.
    pub(crate) fn hand_each(
        &mut self,
        deployment: &Deployment,
        entry: u16,
        callee: Callee,
        packets: &[u32],
        said: &mut Vec<Said>,
    ) -> Result<(), AllocError>
        requires going { GoesOn T.mac deployment.now self.old }
        requires there { IsCallee (deployed_as deployment.now) (callee_of callee) }
        ensures does { Does T.mac deployment.now result self.old self.new said.old.items
            said.new.items (λ set. each (honest.hands set entry (callee_of callee)) packets.now) }
        ensures goes_on { OnOk result (GoesOn T.mac deployment.now self.new) }
        ensures ran_out { self.new.ran_out ≡ self.old.ran_out }
    {
        for packet in packets {
            self.hand(deployment, entry, callee, *packet, said)?;
        }
        Ok(())
    }

    /// Packets that were shown wait after the others.
    fn queue(&mut self) -> Result<(), AllocError>
        ensures ok { OnOk result (self.new ≡ queued self.old) }
        ensures world { self.new.world ≡ self.old.world }
        ensures ran_out { self.new.ran_out ≡ self.old.ran_out }
    {
        add_waiting(&self.shown, &mut self.waiting)
    }

    /// Takes a packet that a call made, by its place among those; it waits.
    fn take_one(
        &mut self,
        deployment: &Deployment,
        node: u8,
        place: u16,
        said: &mut Vec<Said>,
    ) -> Result<(), AllocError>
        requires going { GoesOn T.mac deployment.now self.old }
        requires node { node < length (deployed_as deployment.now).names.nodes }
        requires few { place < 16 }
        ensures does { Does T.mac deployment.now result self.old self.new said.old.items
            said.new.items (λ set. honest.takes_one set node place) }
        ensures goes_on { OnOk result (GoesOn T.mac deployment.now self.new) }
        ensures ran_out { self.new.ran_out ≡ self.old.ran_out }
    {
        let take = Line::Take {
            node,
            at: OUT_WINDOW + EVENT_SIZE * place,
            len: EVENT_SIZE,
        };
        self.say(deployment, take, said)?;
        self.queue()
    }

    /// How many packets the last line says that a call made.
    fn made(&self) -> u16
        ensures made { result ≡ honest.made_by self.now.shown }
        ensures few { result ≤ 16 }
    {
        made_by(&self.shown)
    }

    /// Takes the packets that the last call made from its node.
    pub(crate) fn collect(
        &mut self,
        deployment: &Deployment,
        node: u8,
        said: &mut Vec<Said>,
    ) -> Result<(), AllocError>
        requires going { GoesOn T.mac deployment.now self.old }
        requires node { node < length (deployed_as deployment.now).names.nodes }
        ensures does { Does T.mac deployment.now result self.old self.new said.old.items
            said.new.items (λ set. honest.collects set node) }
        ensures goes_on { OnOk result (GoesOn T.mac deployment.now self.new) }
        ensures ran_out { self.new.ran_out ≡ self.old.ran_out }
    {
        for place in 0..self.made() {
            self.take_one(deployment, node, place, said)?;
        }
        Ok(())
    }

    /// The module that a packet is for.
    fn receiver(&self, deployment: &Deployment, packet: u32) -> Option<Callee>
        requires sound { IsSoundDeployment (deployed_as deployment.now) }
        ensures found { option_map callee_of result ≡ option_and_then
            (honest.receiver_of (deployed_as deployment.now).app)
            (slice_get self.now.world.running.packets packet) }
        ensures there { IfSome result (λ x. IsCallee (deployed_as deployment.now) (callee_of x)) }
    {
        match self.world.packet(packet) {
            Some(bytes) => receiver_of(deployment, bytes),
            None => None,
        }
    }

    /// Delivers a packet: it is handed to its receiver, and what that makes is taken.
    fn deliver(
        &mut self,
        deployment: &Deployment,
        packet: u32,
        said: &mut Vec<Said>,
    ) -> Result<(), AllocError>
        requires going { GoesOn T.mac deployment.now self.old }
        ensures does { Does T.mac deployment.now result self.old self.new said.old.items
            said.new.items (λ set. honest.delivers set packet) }
        ensures goes_on { OnOk result (GoesOn T.mac deployment.now self.new) }
        ensures ran_out { self.new.ran_out ≡ self.old.ran_out }
    {
        match self.receiver(deployment, packet) {
            Some(callee) => {
                self.hand(deployment, INPUT_ENTRY, callee, packet, said)?;
                self.collect(deployment, callee.node, said)
            }
            None => Ok(()),
        }
    }

    /// The oldest packet that waits, which waits no longer.
    fn next_waiting(&mut self) -> Option<u32>
        ensures packets { self.old.waiting ≡ option_to_list result ++ self.new.waiting }
        ensures rest { self.new ≡ waits self.old (drop 1 self.old.waiting) }
    {
        self.waiting.pop_front()
    }

    /// Delivers packets until none waits. A schedule has no room for more deliveries than lines.
    pub(crate) fn settle(
        &mut self,
        deployment: &Deployment,
        said: &mut Vec<Said>,
    ) -> Result<(), AllocError>
        requires going { GoesOn T.mac deployment.now self.old }
        ensures does { Does T.mac deployment.now result self.old self.new said.old.items
            said.new.items (λ set. honest.settles set honest.MOST_LINES) }
        ensures goes_on { OnOk result (GoesOn T.mac deployment.now self.new) }
        ensures ran_out { self.new.ran_out ≡ self.old.ran_out }
    {
        for _turn in 0..MOST_LINES {
            match self.next_waiting() {
                Some(packet) => self.deliver(deployment, packet, said)?,
                None => return Ok(()),
            }
        }
        Ok(())
    }
}
