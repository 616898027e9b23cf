//! Steps of a node that show nothing, taken one after the other.

ghost use Rattle.std.specs.Prelude.{◌≡◌, ◌==◌, ◌&&◌, ◌<◌, true, false, IsTrue};
ghost use Rattle.sx_node.specs.Telling.{silent, IsIdle, IsDeepAtHome};
ghost use Rattle.sx_world.specs.Passing.{after_steps, AreQuiet, EndsWith, taken};

use sx_bus::Bus;
use sx_node::{Event, Node, Seen, Touch};
use sx_tag::Tag;

/// Steps that showed nothing, and the one that ended them.
#[derive(Clone, Copy, Debug)]
pub(crate) struct QuietSteps {
    /// How many showed nothing.
    pub(crate) count: u32,
    /// What the step after them showed, or None where as many as were asked for showed nothing.
    pub(crate) last: Option<Seen>,
}

impl QuietSteps {
    /// How many steps they are, with the last one.
    pub(crate) fn taken(&self) -> u64
        ensures { result ≡ taken self.now.count self.now.last }
    {
        match self.last {
            Some(_seen) => u64::from(self.count) + 1,
            None => u64::from(self.count),
        }
    }
}

/// What a step shows that shows nothing, as most do.
fn silent() -> Seen
    ensures { result ≡ silent }
{
    Seen {
        touch: [Touch::Quiet; 2],
        event: Event::Quiet,
    }
}

/// Whether a step showed nothing.
fn is_silent(seen: &Seen) -> bool
    ensures { IsTrue result → seen.now ≡ silent }
{
    matches!(seen.touch, [Touch::Quiet, Touch::Quiet]) && matches!(seen.event, Event::Quiet)
}

/// Steps of an idle node, at most `count`, up to the first that shows something or leaves a node
/// that isn't idle, as where a module is entered. The loop is code of its own, so that the
/// processor's registers are its alone; and it counts down, which takes one of them.
#[inline(never)]
fn quiet_stretch<B: Bus, T: Tag>(node: &mut Node<B, T>, count: u32) -> QuietSteps
    requires boot { node.old.boot < u32.MAX }
    requires idle { IsIdle node.old }
    ensures quiet { AreQuiet T.mac false result.count node.old }
    ensures last { EndsWith T.mac count result.count result.last node.old }
    ensures left { node.new ≡ after_steps T.mac (taken result.count result.last) node.old }
{
    let mut seen = silent();
    let mut left = count;
    'steps: while left > 0 {
        if node.step_idle::<1>(&mut seen) {
            return QuietSteps {
                count: count - left,
                last: Some(seen),
            };
        }
        left -= 1;
    }
    QuietSteps { count, last: None }
}

/// Steps of a module at home, at most `count`, up to the first that shows something or leaves no
/// module at home. Its loop is code of its own, too.
#[inline(never)]
fn module_stretch<B: Bus, T: Tag>(node: &mut Node<B, T>, count: u32) -> QuietSteps
    requires boot { node.old.boot < u32.MAX }
    requires home { IsDeepAtHome node.old }
    ensures quiet { AreQuiet T.mac true result.count node.old }
    ensures last { EndsWith T.mac count result.count result.last node.old }
    ensures left { node.new ≡ after_steps T.mac (taken result.count result.last) node.old }
{
    let mut seen = silent();
    let mut left = count;
    'steps: while left > 0 {
        if node.step_at_home::<2>(&mut seen) {
            return QuietSteps {
                count: count - left,
                last: Some(seen),
            };
        }
        left -= 1;
    }
    QuietSteps { count, last: None }
}

/// One step of a node, wherever it is, or none where none is asked for.
fn one_step<B: Bus, T: Tag>(node: &mut Node<B, T>, count: u32) -> QuietSteps
    requires { node.old.boot < u32.MAX }
    ensures quiet { result.count ≡ 0 }
    ensures last { EndsWith T.mac count result.count result.last node.old }
    ensures left { node.new ≡ after_steps T.mac (taken result.count result.last) node.old }
{
    if count == 0 {
        return QuietSteps { count, last: None };
    }
    let mut seen = silent();
    let is_seen = node.step_anywhere(&mut seen);
    QuietSteps {
        count: 0,
        last: Some(if is_seen { seen } else { silent() }),
    }
}

/// Steps of a node, at most `count`, up to the first that shows something or, where `idle` says so,
/// leaves no module running. Even if `idle` doesn't say so they end where a module is entered or
/// left, since code outside and a module have loops of their own.
#[tactic(auto, using(crate::proofs::passing::Passed::quiet_either))]
fn part<B: Bus, T: Tag>(node: &mut Node<B, T>, count: u32, idle: bool) -> QuietSteps
    requires { node.old.boot < u32.MAX }
    ensures quiet { AreQuiet T.mac idle result.count node.old }
    ensures last { EndsWith T.mac count result.count result.last node.old }
    ensures left { node.new ≡ after_steps T.mac (taken result.count result.last) node.old }
{
    if node.is_deep_at_home() {
        return module_stretch(node, count);
    }
    if !idle && node.is_idle() {
        return quiet_stretch(node, count);
    }
    one_step(node, count)
}

/// Whether a stretch ends with a step that showed this and left the node so.
fn ends<B: Bus, T: Tag>(node: &Node<B, T>, seen: &Seen, idle: bool) -> bool
    ensures silent { result ≡ false → seen.now ≡ silent }
    ensures runs { result ≡ false → (idle && (node.now.cur == 0)) ≡ false }
{
    !is_silent(seen) || (idle && node.running() == 0)
}

/// Steps of a node, at most `count`, up to the first that shows something or, where `idle` says so,
/// leaves no module running.
pub(crate) fn stretch<B: Bus, T: Tag>(node: &mut Node<B, T>, count: u32, idle: bool) -> QuietSteps
    requires { node.old.boot < u32.MAX }
    ensures quiet { AreQuiet T.mac idle result.count node.old }
    ensures last { EndsWith T.mac count result.count result.last node.old }
    ensures left { node.new ≡ after_steps T.mac (taken result.count result.last) node.old }
{
    let mut left = count;
    'parts: while left > 0 {
        let part = part(node, left, idle);
        let Some(seen) = part.last else {
            return QuietSteps { count, last: None };
        };
        left -= part.count;
        if ends(node, &seen, idle) {
            return QuietSteps {
                count: count - left,
                last: Some(seen),
            };
        }
        left -= 1;
    }
    QuietSteps { count, last: None }
}
