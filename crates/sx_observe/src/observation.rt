//! What a step of a node shows: its touches in their order, and then its event.

ghost use Rattle.std.specs.Prelude.{◌≡◌, ◌≤◌, ◌++◌, ◌∷◌, [], List, length, slice_get, slice_index};
ghost use Rattle.std.specs.Prelude.{true, Some, OnOk, OnErr};
ghost use Rattle.std.specs.List.{list_any};
ghost use Rattle.sx_trace.specs.declared.items.Item.TheVariants.{Done};
ghost use Rattle.sx_mean.specs.View.{app_as};
ghost use Rattle.sx_observe.specs.Observing.{AddsFront, Observes, ObservesFront};
ghost use Rattle.sx_observe.specs.InMemory.{setting_in};
ghost use Rattle.spec_run.specs.Observation.{cause_of, event_seen, observed, protect_item};
ghost use Rattle.spec_run.specs.Observation.{read_item, touch_items, write_item};
ghost use Rattle.sx_observe.specs.Computed.{author, is_own, is_touch, runner_of, tells};
ghost use Rattle.sx_observe.specs.Recognized.{AreRecognized};
ghost use Rattle.sx_rules.specs.Placed.{Placed};
ghost use Rattle.spec_machine.specs.State.{State};

use crate::devices::{device_number, driver_of};
use crate::recognized::{PLACES, Recognized, recognize};
use crate::recording::{add_unwrapped, add_wrapped, push_item};
use crate::settings::Setting;
use crate::sites::{Site, module_of};
use std::alloc::AllocError;
use sx_bus::Copied;
use sx_ledger::Ledger;
use sx_mean::apps::App;
use sx_node::{Event, Node, Seen, Touch};
use sx_rules::Violation;
use sx_tag::Tag;
use sx_trace::items::{Cause, Item};

fn cause_of(violation: Violation) -> Cause
    ensures { result ≡ cause_of violation }
{
    match violation {
        Violation::Order => Cause::Order,
        Violation::Fetch => Cause::Fetch,
        Violation::Read => Cause::Read,
        Violation::Write => Cause::Write,
        Violation::Device => Cause::Device,
        Violation::Illegal => Cause::Illegal,
        Violation::Range => Cause::Range,
    }
}

fn is_touch(touch: Touch) -> bool
    ensures { result ≡ is_touch touch }
{
    !matches!(touch, Touch::Quiet)
}

fn is_own(event: Event) -> bool
    ensures { result ≡ is_own event }
{
    matches!(
        event,
        Event::Wrapped(_) | Event::Unwrapped(_) | Event::Left(_)
    )
}

fn touches(touch: &[Touch]) -> bool
    ensures { result ≡ list_any is_touch touch.now }
{
    touch.iter().any(|t| is_touch(*t))
}

/// Whether what is seen depends on whose code it was.
fn tells(seen: &Seen) -> bool
    ensures { result ≡ tells seen.now }
{
    touches(&seen.touch) || is_own(seen.event)
}

/// The section whose code it was that left the node so.
fn author<B: Copied, T: Tag>(node: &Node<B, T>, event: Event) -> u16
    ensures { result ≡ author node.now event }
{
    match event {
        Event::Wrapped(id) | Event::Unwrapped(id) | Event::Left(id) => id,
        Event::Quiet | Event::Reset(_) | Event::Protected(_) | Event::Removed(_) => node.running(),
    }
}

/// The deployed module whose code it was that left the node so. It is looked up only where what is
/// seen depends on it, since that compares the text of a section that wasn't recognized yet with
/// those of the sites.
pub fn runner_of<B: Copied, T: Tag>(
    sites: &[Site],
    those: &mut [Recognized; PLACES],
    n: u8,
    node: &Node<B, T>,
    seen: &Seen,
) -> Option<u8>
    requires { length sites.now ≤ 256 }
    ensures found { (nodes : List State) → slice_get nodes n ≡ Some node.now
        → AreRecognized sites.now nodes those.old
        → result ≡ runner_of sites.now n node.now seen.now }
    ensures kept { (nodes : List State) → slice_get nodes n ≡ Some node.now
        → Placed node.now.sections → AreRecognized sites.now nodes those.old
        → AreRecognized sites.now nodes those.new }
{
    if tells(seen) {
        recognize(sites, those, n, node, author(node, seen.event))
    } else {
        None
    }
}

fn read_item(app: &App, runner: Option<u8>, d: u8, v: u16) -> Item
    ensures { result ≡ read_item (app_as app.now) runner d v }
{
    match driver_of(app, runner, d) {
        Some(m) => Item::Read {
            module: m,
            value: v,
        },
        None => Item::Drain { device: d },
    }
}

fn write_item(app: &App, runner: Option<u8>, d: u8, v: u16) -> Item
    ensures { result ≡ write_item (app_as app.now) runner d v }
{
    match driver_of(app, runner, d) {
        Some(m) => Item::Out {
            module: m,
            value: v,
        },
        None => Item::Raw {
            device: d,
            value: v,
        },
    }
}

/// The item of a touch, if it has one.
fn add_touch(
    app: &App,
    n: u8,
    runner: Option<u8>,
    touch: Touch,
    items: &mut Vec<Item>,
) -> Result<(), AllocError>
    requires { length app.now.devices.items ≤ 256 }
    ensures ok { OnOk result (items.new.items ≡ items.old.items
        ++ touch_items (app_as app.now) n runner (touch ∷ [])) }
    ensures err { OnErr result (items.new.items ≡ items.old.items) }
{
    match touch {
        Touch::Quiet => Ok(()),
        Touch::DeviceRead { device, value } => {
            let d = device_number(&app.devices, n, device);
            push_item(items, read_item(app, runner, d, value))
        }
        Touch::DeviceWrite { device, value } => {
            let d = device_number(&app.devices, n, device);
            push_item(items, write_item(app, runner, d, value))
        }
    }
}

fn add_touches(
    app: &App,
    n: u8,
    runner: Option<u8>,
    touches: &[Touch],
    items: &mut Vec<Item>,
) -> Result<(), AllocError>
    requires { length app.now.devices.items ≤ 256 }
    ensures ok { OnOk result (items.new.items ≡ items.old.items
        ++ touch_items (app_as app.now) n runner touches.now) }
    ensures front { OnErr result (AddsFront items.old.items items.new.items
        (touch_items (app_as app.now) n runner touches.now)) }
{
    for touch in touches {
        add_touch(app, n, runner, *touch, items)?;
    }
    Ok(())
}

fn protect_item<B: Copied, T: Tag>(setting: &Setting<'_>, n: u8, node: &Node<B, T>, id: u16) -> Item
    ensures { result ≡ protect_item (setting_in T.mac setting.now) n node.now id }
{
    Item::Protect {
        node: n,
        module: module_of(setting.sites, n, node, id),
    }
}

fn done_item<B: Copied, T: Tag>(m: u8, node: &Node<B, T>) -> Item
    ensures { result ≡ Done m (slice_index node.now.regs 12) (slice_index node.now.regs 13) }
{
    Item::Done {
        module: m,
        status: node.reg(12),
        pieces: node.reg(13),
    }
}

/// What the event of a deployed module's step shows, and the ledger after it.
fn add_own_event<B: Copied, T: Tag>(
    setting: &Setting<'_>,
    n: u8,
    m: u8,
    node: &Node<B, T>,
    event: Event,
    items: &mut Vec<Item>,
    ledger: &mut Ledger,
) -> Result<(), AllocError>
    requires { is_own event ≡ true }
    ensures done { OnOk result (Observes ledger.old ledger.new items.old.items items.new.items
        (λ list. event_seen (setting_in T.mac setting.now) n (Some m) node.now
        list event)) }
    ensures front { OnErr result (ObservesFront ledger.old items.old.items items.new.items
        (λ list. event_seen (setting_in T.mac setting.now) n (Some m) node.now
        list event)) }
{
    match event {
        Event::Wrapped(_) => add_wrapped(m, node.boot(), node.exchange(), items, ledger),
        Event::Unwrapped(_) => add_unwrapped(
            &setting.deployment.app,
            m,
            node.boot(),
            node.exchange(),
            items,
            ledger,
        ),
        Event::Left(_) => push_item(items, done_item(m, node)),
        Event::Quiet | Event::Reset(_) | Event::Protected(_) | Event::Removed(_) => Ok(()),
    }
}

/// What the event of a step shows, whose code left the node so, and the ledger after it.
fn add_event<B: Copied, T: Tag>(
    setting: &Setting<'_>,
    n: u8,
    runner: Option<u8>,
    node: &Node<B, T>,
    event: Event,
    items: &mut Vec<Item>,
    ledger: &mut Ledger,
) -> Result<(), AllocError>
    ensures done { OnOk result (Observes ledger.old ledger.new items.old.items items.new.items
        (λ list. event_seen (setting_in T.mac setting.now) n runner node.now list
        event)) }
    ensures front { OnErr result (ObservesFront ledger.old items.old.items items.new.items
        (λ list. event_seen (setting_in T.mac setting.now) n runner node.now list
        event)) }
{
    match event {
        Event::Quiet | Event::Removed(_) => Ok(()),
        Event::Reset(violation) => push_item(
            items,
            Item::Reset {
                node: n,
                cause: cause_of(violation),
            },
        ),
        Event::Protected(id) => push_item(items, protect_item(setting, n, node, id)),
        Event::Wrapped(_) | Event::Unwrapped(_) | Event::Left(_) => match runner {
            Some(m) => add_own_event(setting, n, m, node, event, items, ledger),
            None => Ok(()),
        },
    }
}

/// What is seen of code of this module, which left the node so: its items, and the ledger after it.
pub fn add_seen<B: Copied, T: Tag>(
    setting: &Setting<'_>,
    n: u8,
    runner: Option<u8>,
    node: &Node<B, T>,
    seen: &Seen,
    items: &mut Vec<Item>,
    ledger: &mut Ledger,
) -> Result<(), AllocError>
    ensures done { OnOk result (Observes ledger.old ledger.new items.old.items items.new.items
        (observed (setting_in T.mac setting.now) n runner node.now seen.now)) }
    ensures front { OnErr result (ObservesFront ledger.old items.old.items items.new.items
        (observed (setting_in T.mac setting.now) n runner node.now seen.now)) }
{
    add_touches(&setting.deployment.app, n, runner, &seen.touch, items)?;
    add_event(setting, n, runner, node, seen.event, items, ledger)
}
