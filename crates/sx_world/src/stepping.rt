//! Instructions of a node, one after the other.

ghost use Rattle.std.specs.Prelude.{◌≡◌, ◌==◌, ◌&&◌, ◌||◌, ◌+◌, ◌<◌, ◌≤◌, length, slice_get};
ghost use Rattle.std.specs.Prelude.{slice_set, Some, OnOk, OnErr};
ghost use Rattle.std.specs.Option.{option_to_list};
ghost use Rattle.spec_machine.specs.State.{State};
ghost use Rattle.spec_machine.specs.Acts.{irq};
ghost use Rattle.spec_run.specs.Acts.{at_node, after_interrupt};
ghost use Rattle.sx_world.specs.Held.{DoesAct, Recognizes};
ghost use Rattle.sx_observe.specs.Observing.{Observes, ObservesFront};
ghost use Rattle.sx_observe.specs.InMemory.{setting_in};
ghost use Rattle.sx_observe.specs.Computed.{runner_of};
ghost use Rattle.sx_observe.specs.Recognized.{AreRecognized};
ghost use Rattle.spec_run.specs.Observation.{observed};
ghost use Rattle.sx_world.specs.Passing.{stepped, taken, AreQuiet, EndsWith};
ghost use Rattle.spec_run.specs.Run as run;
ghost use Rattle.spec_run.specs.Run.{FINISH_STEPS, is_reset, steps_of};

use crate::nodes::refused_item;
use crate::quiet::{QuietSteps, stretch};
use crate::running::Running;
use std::alloc::AllocError;
use sx_bus::{Bus, Copied};
use sx_node::{Event, Node, Refused, Seen};
use sx_observe::observation::{add_seen, runner_of};
use sx_observe::recording::push_item;
use sx_observe::settings::Setting;
use sx_tag::Tag;
use sx_trace::items::Item;

fn is_reset(event: Event) -> bool
    ensures { result ≡ is_reset event }
{
    matches!(event, Event::Reset(_))
}

/// How many steps of a node `finish` takes at most. This is a function, and no constant, so that a
/// proof sees no number: with the number, a run of so many steps is unfolded.
#[tactic(auto, unfolding(spec_run::specs::Run::FINISH_STEPS))]
fn finish_steps() -> u32
    ensures { result ≡ FINISH_STEPS }
{
    1_000_000
}

fn irq_node<B: Bus, T: Tag>(nodes: &mut [Node<B, T>], n: u8, line: u8) -> Result<Seen, Refused>
    requires node { n < length nodes.old }
    requires line { line ≤ 14 }
    requires boot { (s : State) → slice_get nodes.old n ≡ Some s → s.boot < u32.MAX }
    ensures nodes { (s : State) → slice_get nodes.old n ≡ Some s
        → nodes.new ≡ slice_set nodes.old n (irq s line).state }
    ensures answer { (s : State) → slice_get nodes.old n ≡ Some s → (irq s line).shown ≡ result }
{
    nodes[usize::from(n)].irq(line)
}

impl<B: Copied, T: Tag> Running<B, T> {
    /// An interrupt of a node, which runs as code outside every module.
    pub(crate) fn irq(
        &mut self,
        setting: &Setting<'_>,
        n: u8,
        line: u8,
        items: &mut Vec<Item>,
    ) -> Result<(), AllocError>
        requires node { n < length self.old.nodes }
        requires line { line ≤ 14 }
        requires boot { (s : State) → slice_get self.old.nodes n ≡ Some s → s.boot < u32.MAX }
        ensures { DoesAct (setting_in T.mac setting.now) result self.old self.new
            items.old.items items.new.items
            (λ w. at_node w (λ s. after_interrupt (setting_in T.mac setting.now) w
            n (irq s line).state (irq s line).shown) (slice_get w.nodes n)) }
    {
        match irq_node(&mut self.nodes, n, line) {
            Ok(seen) => {
                let node = &self.nodes[usize::from(n)];
                add_seen(setting, n, None, node, &seen, items, &mut self.ledger)
            }
            Err(why) => push_item(items, refused_item(n, why)),
        }
    }

    /// Steps of a node, as `stretch` takes them.
    fn pass(&mut self, n: u8, count: u32, idle: bool) -> QuietSteps
        requires node { n < length self.old.nodes }
        requires boot { (s : State) → slice_get self.old.nodes n ≡ Some s → s.boot < u32.MAX }
        requires steps { self.old.steps + count ≤ u64.MAX }
        ensures quiet { (s : State) → slice_get self.old.nodes n ≡ Some s
            → AreQuiet T.mac idle result.count s }
        ensures last { (s : State) → slice_get self.old.nodes n ≡ Some s
            → EndsWith T.mac count result.count result.last s }
        ensures left { (s : State) → slice_get self.old.nodes n ≡ Some s
            → self.new ≡ stepped T.mac n (taken result.count result.last) s self.old }
    {
        let node = &mut self.nodes[usize::from(n)];
        let quiet = stretch(node, count, idle);
        self.steps += quiet.taken();
        quiet
    }

    /// What is seen of an instruction that left the node so: its items, and the ledger after it.
    fn show(
        &mut self,
        setting: &Setting<'_>,
        n: u8,
        seen: &Seen,
        items: &mut Vec<Item>,
    ) -> Result<(), AllocError>
        requires { n < length self.old.nodes }
        ensures done { OnOk result (Recognizes setting.now.sites.now self.old
            → (s : State) → slice_get self.old.nodes n ≡ Some s
            → Observes self.old.ledger self.new.ledger items.old.items items.new.items
            (observed (setting_in T.mac setting.now) n
            (runner_of setting.now.sites.now n s seen.now) s seen.now)) }
        ensures front { OnErr result (Recognizes setting.now.sites.now self.old
            → (s : State) → slice_get self.old.nodes n ≡ Some s
            → ObservesFront self.old.ledger items.old.items items.new.items
            (observed (setting_in T.mac setting.now) n
            (runner_of setting.now.sites.now n s seen.now) s seen.now)) }
        ensures recognized { Recognizes setting.now.sites.now self.old
            → AreRecognized setting.now.sites.now self.old.nodes self.new.recognized }
        ensures kept { self.new ≡ record self.old {
          ledger = self.new.ledger;
          recognized = self.new.recognized;
        } }
    {
        let node = &self.nodes[usize::from(n)];
        let runner = runner_of(setting.sites, &mut self.recognized, n, node, seen);
        add_seen(setting, n, runner, node, seen, items, &mut self.ledger)
    }

    /// Whether no further step follows one that showed this event.
    fn ends(&self, n: u8, idle: bool, event: Event) -> bool
        requires { n < length self.now.nodes }
        ensures { (s : State) → slice_get self.now.nodes n ≡ Some s
            → result ≡ (is_reset event || (idle && (s.cur == 0))) }
    {
        is_reset(event) || (idle && self.nodes[usize::from(n)].running() == 0)
    }

    /// Whether no module of a node runs.
    pub(crate) fn is_idle(&self, n: u8) -> bool
        requires { n < length self.now.nodes }
        ensures { (s : State) → slice_get self.now.nodes n ≡ Some s → result ≡ (s.cur == 0) }
    {
        self.nodes[usize::from(n)].running() == 0
    }

    /// This many steps of a node, or fewer where one ends in a reset or, where `idle` says so,
    /// leaves no module running; and this item where all were taken.
    pub(crate) fn steps_of(
        &mut self,
        setting: &Setting<'_>,
        n: u8,
        count: u32,
        idle: bool,
        end: Option<Item>,
        items: &mut Vec<Item>,
    ) -> Result<(), AllocError>
        requires node { n < length self.old.nodes }
        requires boot { (s : State) → slice_get self.old.nodes n ≡ Some s → s.boot < u32.MAX }
        requires steps { self.old.steps + count ≤ u64.MAX }
        ensures { DoesAct (setting_in T.mac setting.now) result self.old self.new
            items.old.items items.new.items
            (steps_of (setting_in T.mac setting.now)
            (λ s. idle && (s.cur == 0)) (option_to_list end) n count) }
    {
        let mut left = count;
        'stretches: loop {
            let quiet = self.pass(n, left, idle);
            let Some(seen) = quiet.last else { break };
            self.show(setting, n, &seen, items)?;
            if self.ends(n, idle, seen.event) {
                return Ok(());
            }
            left -= quiet.count + 1;
        }
        match end {
            Some(item) => push_item(items, item),
            None => Ok(()),
        }
    }

    /// A step of a node, and further ones while a module runs, at most a million.
    pub(crate) fn finish(
        &mut self,
        setting: &Setting<'_>,
        n: u8,
        items: &mut Vec<Item>,
    ) -> Result<(), AllocError>
        requires node { n < length self.old.nodes }
        requires boot { (s : State) → slice_get self.old.nodes n ≡ Some s → s.boot < u32.MAX }
        requires steps { self.old.steps + FINISH_STEPS ≤ u64.MAX }
        ensures { DoesAct (setting_in T.mac setting.now) result self.old self.new
            items.old.items items.new.items
            (run.finish (setting_in T.mac setting.now) n) }
    {
        let budget = Item::Budget { node: n };
        self.steps_of(setting, n, finish_steps(), true, Some(budget), items)
    }
}
