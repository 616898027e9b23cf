//! What is done to a node from outside, and the item of a refusal.

ghost use Rattle.std.specs.Prelude.{◌≡◌, ◌≢◌, ◌<◌, ◌++◌, ◌∷◌, [], length, slice_get};
ghost use Rattle.std.specs.Prelude.{slice_set, Some, Ok, Err, OnOk, OnErr, IfSome};
ghost use Rattle.std.specs.Option.{option_to_list};
ghost use Rattle.sx_bus.specs.declared.devices.Kind.TheVariants.{Sensor};
ghost use Rattle.spec_machine.specs.State.{State};
ghost use Rattle.spec_machine.specs.State as state;
ghost use Rattle.spec_machine.specs.Acts as acts;
ghost use Rattle.sx_trace.specs.declared.items.Item.TheVariants.{Reset, Sense};
ghost use Rattle.sx_trace.specs.declared.items.Cause.TheVariants.{Asked};
ghost use Rattle.spec_run.specs.Acts.{at_node, done_on, or_refused, refused_item, with_node};
ghost use Rattle.sx_world.specs.Held.{DoesAct, boots_of};
ghost use Rattle.spec_run.specs.Run as run;
ghost use Rattle.spec_run.specs.Setting.{Setting};

use crate::running::Running;
use std::alloc::AllocError;
use sx_bus::{Bus, Copied};
use sx_node::{Node, Refused};
use sx_observe::recording::push_item;
use sx_tag::Tag;
use sx_trace::items::{Cause, Item};

/// The item of an act that a node refuses.
pub(crate) fn refused_item(n: u8, why: Refused) -> Item
    ensures { result ≡ refused_item n why }
{
    match why {
        Refused::Busy => Item::Busy { node: n },
        Refused::Guarded | Refused::Masked => Item::Skip { node: n },
    }
}

/// The item of an act that answers nothing, if it has one, or that of its refusal.
pub(crate) fn add_answer(
    n: u8,
    item: Option<Item>,
    answer: Result<(), Refused>,
    items: &mut Vec<Item>,
) -> Result<(), AllocError>
    ensures ok { OnOk result (items.new.items ≡ items.old.items
        ++ or_refused n (option_to_list item) answer) }
    ensures err { OnErr result (items.new.items ≡ items.old.items) }
{
    match answer {
        Ok(()) => match item {
            Some(item) => push_item(items, item),
            None => Ok(()),
        },
        Err(why) => push_item(items, refused_item(n, why)),
    }
}

/// Writes bytes into a node's memory, or gives why they are refused.
pub(crate) fn put_node<B: Bus, T: Tag>(
    nodes: &mut [Node<B, T>],
    n: u8,
    at: u16,
    bytes: &[u8],
) -> Result<(), Refused>
    requires { n < length nodes.old }
    ensures nodes { (s : State) → slice_get nodes.old n ≡ Some s
        → nodes.new ≡ slice_set nodes.old n (acts.put s at bytes.now).state }
    ensures answer { (s : State) → slice_get nodes.old n ≡ Some s
        → result ≡ (acts.put s at bytes.now).shown }
{
    nodes[usize::from(n)].put(at, bytes)
}

fn set_node<B: Bus, T: Tag>(
    nodes: &mut [Node<B, T>],
    n: u8,
    reg: u8,
    value: u16,
) -> Result<(), Refused>
    requires node { n < length nodes.old }
    requires below { reg < 16 }
    requires settable { reg ≢ 3 }
    ensures nodes { (s : State) → slice_get nodes.old n ≡ Some s
        → nodes.new ≡ slice_set nodes.old n (acts.set s reg value).state }
    ensures answer { (s : State) → slice_get nodes.old n ≡ Some s
        → result ≡ (acts.set s reg value).shown }
{
    nodes[usize::from(n)].set(reg, value)
}

fn sense_node<B: Bus, T: Tag>(
    nodes: &mut [Node<B, T>],
    n: u8,
    k: u8,
    value: u16,
) -> Result<(), Refused>
    requires node { n < length nodes.old }
    requires device { (s : State) → slice_get nodes.old n ≡ Some s → k < length s.devices }
    requires sensor { (s : State) → slice_get nodes.old n ≡ Some s
        → IfSome (slice_get s.devices k) (λ window. window.kind ≡ Sensor) }
    requires value { value < 32768 }
    ensures nodes { (s : State) → slice_get nodes.old n ≡ Some s
        → nodes.new ≡ slice_set nodes.old n (acts.sense s k value).state }
    ensures answer { (s : State) → slice_get nodes.old n ≡ Some s
        → result ≡ (acts.sense s k value).shown }
{
    nodes[usize::from(n)].sense(k, value)
}

fn reset_node<B: Bus, T: Tag>(nodes: &mut [Node<B, T>], n: u8)
    requires node { n < length nodes.old }
    requires boot { (s : State) → slice_get nodes.old n ≡ Some s → s.boot < u32.MAX }
    ensures { (s : State) → slice_get nodes.old n ≡ Some s
        → nodes.new ≡ slice_set nodes.old n (state.reset s) }
{
    nodes[usize::from(n)].reset();
}

impl<B: Copied, T: Tag> Running<B, T> {
    /// Bytes are written into a node's memory.
    pub(crate) fn put_on(
        &mut self,
        n: u8,
        at: u16,
        bytes: &[u8],
        items: &mut Vec<Item>,
    ) -> Result<(), AllocError>
        requires { n < length self.old.nodes }
        ensures does { (set : Setting) → DoesAct set result self.old self.new items.old.items
            items.new.items
            (run.put_on n at bytes.now) }
        ensures boots { boots_of self.new.nodes ≡ boots_of self.old.nodes }
        ensures steps { self.new.steps ≡ self.old.steps }
    {
        let answer = put_node(&mut self.nodes, n, at, bytes);
        add_answer(n, None, answer, items)
    }

    /// A register of a node is set.
    pub(crate) fn set_on(
        &mut self,
        n: u8,
        reg: u8,
        value: u16,
        items: &mut Vec<Item>,
    ) -> Result<(), AllocError>
        requires node { n < length self.old.nodes }
        requires below { reg < 16 }
        requires settable { reg ≢ 3 }
        ensures does { (set : Setting) → DoesAct set result self.old self.new items.old.items
            items.new.items
            (run.set_on n reg value) }
        ensures boots { boots_of self.new.nodes ≡ boots_of self.old.nodes }
        ensures steps { self.new.steps ≡ self.old.steps }
    {
        let answer = set_node(&mut self.nodes, n, reg, value);
        add_answer(n, None, answer, items)
    }

    /// A node is reset.
    pub(crate) fn reset(&mut self, n: u8, items: &mut Vec<Item>) -> Result<(), AllocError>
        requires node { n < length self.old.nodes }
        requires boot { (s : State) → slice_get self.old.nodes n ≡ Some s → s.boot < u32.MAX }
        ensures { (set : Setting) → DoesAct set result self.old self.new items.old.items
            items.new.items
            (λ w. at_node w (λ s. record {
              world = with_node w n (state.reset s) w.ledger w.steps;
              items = Reset n Asked ∷ [];
            }) (slice_get w.nodes n)) }
    {
        reset_node(&mut self.nodes, n);
        push_item(
            items,
            Item::Reset {
                node: n,
                cause: Cause::Asked,
            },
        )
    }

    /// The k-th device of a node, a sensor, takes a sample. It is the d-th device of the
    /// deployment.
    pub(crate) fn sense_at(
        &mut self,
        n: u8,
        k: u8,
        d: u8,
        value: u16,
        items: &mut Vec<Item>,
    ) -> Result<(), AllocError>
        requires node { n < length self.old.nodes }
        requires device { (s : State) → slice_get self.old.nodes n ≡ Some s → k < length s.devices }
        requires sensor { (s : State) → slice_get self.old.nodes n ≡ Some s
            → IfSome (slice_get s.devices k) (λ window. window.kind ≡ Sensor) }
        requires value { value < 32768 }
        ensures { (set : Setting) → DoesAct set result self.old self.new items.old.items
            items.new.items
            (λ w. at_node w (λ s. done_on w n (Sense d value ∷ []) (acts.sense s k value))
            (slice_get w.nodes n)) }
    {
        let answer = sense_node(&mut self.nodes, n, k, value);
        add_answer(n, Some(Item::Sense { device: d, value }), answer, items)
    }
}
