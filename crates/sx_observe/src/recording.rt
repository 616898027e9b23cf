//! What a deployed module's wraps and unwraps show, and the ledger's entries of them.

ghost use Rattle.std.specs.Prelude.{◌≡◌, ◌+◌, ◌*◌, ◌≤◌, ◌++◌, ◌∷◌, [], List, length, slice_get};
ghost use Rattle.std.specs.Prelude.{OnOk, OnErr};
ghost use Rattle.sx_observe.specs.Computed.{at_side, is_held};
ghost use Rattle.sx_trace.specs.declared.items.Item.TheVariants.{Open, Take};
ghost use Rattle.sx_ledger.specs.Made.{Made};
ghost use Rattle.sx_ledger.specs.Entries.{made};
ghost use Rattle.sx_mean.specs.View.{app_as};
ghost use Rattle.sx_observe.specs.Observing.{AddsFront, Records, Observes, ObservesFront};
ghost use Rattle.spec_run.specs.Ledger.{body_of, header_of, is_made};
ghost use Rattle.spec_run.specs.Observation.{has_end, has_unwrapped, has_wrapped, sender_of};
ghost use Rattle.spec_run.specs.Observation.{side_in, unless_made};
ghost use Rattle.sx_wire.specs.Headers.{epoch_in, last_in, link_in, value_in};

use std::alloc::AllocError;
use sx_lang::sides::Side;
use sx_ledger::{Entry, Ledger, Maker};
use sx_mean::apps::{App, Link};
use sx_node::Exchange;
use sx_trace::items::Item;
use sx_wire::{
    challenge_in, epoch_in, is_ask, is_event_header, is_set_key_header, last_in, link_in, value_in,
};

/// The target of an entry that is no set-key packet. An entry's target is a byte, so that entries are
/// compared as they are; no deployment has as many modules.
pub const NO_TARGET: u8 = 255;

/// Appends an item. The error says that memory ran out, and nothing was appended.
pub fn push_item(items: &mut Vec<Item>, item: Item) -> Result<(), AllocError>
    ensures ok { OnOk result (items.new.items ≡ items.old.items ++ item ∷ []) }
    ensures err { OnErr result (items.new.items ≡ items.old.items) }
{
    items.push(item)?;
    Ok(())
}

/// The header of an exchange.
fn header_of(x: &Exchange) -> &[u8]
    ensures header { result.now ≡ header_of x.now }
    ensures short { length result.now ≤ 32 }
{
    &x.ad[..usize::from(x.ad_len).min(32)]
}

/// The body of an exchange.
fn body_of(x: &Exchange) -> &[u8]
    ensures body { result.now ≡ body_of x.now }
    ensures short { length result.now ≤ 32 }
{
    &x.body[..usize::from(x.body_len).min(32)]
}

/// Whether the entry of this header and this body was made.
pub fn is_made(
    ledger: &Ledger,
    maker: Maker,
    target: u8,
    boot: u32,
    header: &[u8],
    body: &[u8],
) -> bool
    requires header { length header.now ≤ 32 }
    requires body { length body.now ≤ 32 }
    ensures { (list : List Made) → Records ledger.now list
        → result ≡ is_made list (made maker target boot header.now body.now) }
{
    ledger.is_made(&Entry::new(maker, target, boot, header, body))
}

/// Makes the entry of this header and this body.
pub fn record(
    ledger: &mut Ledger,
    maker: Maker,
    target: u8,
    boot: u32,
    header: &[u8],
    body: &[u8],
) -> Result<(), AllocError>
    requires header { length header.now ≤ 32 }
    requires body { length body.now ≤ 32 }
    ensures { OnOk result ((list : List Made) → Records ledger.old list
        → Records ledger.new (list ++ made maker target boot header.now body.now ∷ [])) }
{
    ledger.made(Entry::new(maker, target, boot, header, body))
}

/// The side of a set-key packet's header.
fn side_in(header: &[u8]) -> Side
    requires { length header.now ≡ 6 }
    ensures { result ≡ side_in header.now }
{
    if last_in(header) == 0 {
        Side::From
    } else {
        Side::To
    }
}

/// A deployed module wrapped the header and the body: it vouches for itself, or it makes an event.
pub(crate) fn add_wrapped(
    m: u8,
    boot: u32,
    x: &Exchange,
    items: &mut Vec<Item>,
    ledger: &mut Ledger,
) -> Result<(), AllocError>
    ensures done { OnOk result (Observes ledger.old ledger.new items.old.items items.new.items
        (has_wrapped m boot (header_of x.now) (body_of x.now) x.now.own_key)) }
    ensures front { OnErr result (ObservesFront ledger.old items.old.items items.new.items
        (has_wrapped m boot (header_of x.now) (body_of x.now) x.now.own_key)) }
{
    let header = header_of(x);
    let body = body_of(x);
    if is_ask(header) && body.is_empty() && x.own_key {
        record(ledger, Maker::Module(m), NO_TARGET, boot, header, body)?;
        return push_item(
            items,
            Item::Vouch {
                module: m,
                challenge: challenge_in(header),
            },
        );
    }
    if is_event_header(header) && body.len() == 2 {
        return record(ledger, Maker::Module(m), NO_TARGET, 0, header, body);
    }
    Ok(())
}

/// Adds the item, after one that says that its rightful maker hadn't made what it rests on.
pub fn add_unless_made(
    items: &mut Vec<Item>,
    who: Option<u8>,
    made: bool,
    item: Item,
) -> Result<(), AllocError>
    ensures ok { OnOk result (items.new.items ≡ items.old.items ++ unless_made who made item) }
    ensures front { OnErr result (AddsFront items.old.items items.new.items
        (unless_made who made item)) }
{
    if made {
        return push_item(items, item);
    }
    match push_item(items, Item::Forged { module: who }) {
        Ok(()) => push_item(items, item),
        Err(e) => Err(e),
    }
}

fn at_side(m: u8, side: Side, link: &Link) -> bool
    ensures { result ≡ at_side m side link.now }
{
    match side {
        Side::From => link.from == m,
        Side::To => link.to == m,
    }
}

/// Whether the side of the connection, if there is one of this number, is at the module.
fn is_held(links: &[Link], m: u8, link: u8, side: Side) -> bool
    ensures { result ≡ is_held m side (slice_get links.now link) }
{
    match links.get(usize::from(link)) {
        Some(link) => at_side(m, side, link),
        None => false,
    }
}

/// Whether the module has this end.
fn has_end(app: &App, m: u8, link: u8, side: Side) -> bool
    ensures { result ≡ has_end (app_as app.now) m link side }
{
    is_held(&app.links, m, link, side)
}

/// The module that the connection comes from.
fn sender_of(app: &App, link: u8) -> u8
    ensures { result ≡ sender_of (app_as app.now) link }
{
    match app.links.get(usize::from(link)) {
        Some(l) => l.from,
        None => 0,
    }
}

/// A deployed module unwrapped the header and the body: it opens an end, or it takes an event.
pub(crate) fn add_unwrapped(
    app: &App,
    m: u8,
    boot: u32,
    x: &Exchange,
    items: &mut Vec<Item>,
    ledger: &Ledger,
) -> Result<(), AllocError>
    ensures done { OnOk result ((list : List Made) → Records ledger.now list
        → items.new.items ≡ items.old.items ++ has_unwrapped (app_as app.now) m boot
        (header_of x.now) (body_of x.now) list) }
    ensures front { OnErr result ((list : List Made) → Records ledger.now list
        → AddsFront items.old.items items.new.items
        (has_unwrapped (app_as app.now) m boot (header_of x.now) (body_of x.now) list)) }
{
    let header = header_of(x);
    let body = body_of(x);
    if is_set_key_header(header) && has_end(app, m, link_in(header), side_in(header)) {
        let made = is_made(ledger, Maker::Deployer, m, boot, header, body);
        return add_unless_made(items, Some(m), made, opened_item(m, header));
    }
    if is_event_header(header) && has_end(app, m, link_in(header), Side::To) {
        let sender = Maker::Module(sender_of(app, link_in(header)));
        let made = is_made(ledger, sender, NO_TARGET, 0, header, body);
        return add_unless_made(items, Some(m), made, taken_item(m, header, body));
    }
    Ok(())
}

fn opened_item(m: u8, header: &[u8]) -> Item
    requires { length header.now ≡ 6 }
    ensures { result ≡ Open m (link_in header.now) (side_in header.now) (epoch_in header.now) }
{
    Item::Open {
        module: m,
        link: link_in(header),
        side: side_in(header),
        epoch: epoch_in(header),
    }
}

fn taken_item(m: u8, header: &[u8], body: &[u8]) -> Item
    requires { length header.now ≡ 6 }
    ensures { result ≡ Take m (link_in header.now)
        (65536 * epoch_in header.now + last_in header.now) (value_in body.now) }
{
    Item::Take {
        module: m,
        link: link_in(header),
        number: 65536 * u32::from(epoch_in(header)) + u32::from(last_in(header)),
        value: value_in(body),
    }
}
