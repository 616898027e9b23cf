//! The lines of the ends of modules.

ghost use Rattle.std.specs.Prelude.{◌≡◌, ◌+◌, ◌≤◌, ◌++◌, OnOk, length};
ghost use Rattle.sx_mean.specs.Offsets.{end_at};
ghost use Rattle.sx_deploy.specs.SeenDeployment.{deployed_as};
ghost use Rattle.command_text.specs.Address.{address};
ghost use Rattle.command_describe.specs.Output.{each_from, peer_of, peer_word, slot_line};

use crate::ports::{port_word, side_word};
use crate::words::{put, put_address};
use std::alloc::AllocError;
use sx_deploy::deployment::Deployment;
use sx_lang::names::Name;
use sx_lang::sides::Side;
use sx_mean::apps::Link;
use sx_mean::events::End;
use sx_mean::offsets::end_at;
use sx_rules::Layout;
use sx_trace::writing::name_at;

/// The part at the other end of a connection.
fn peer_of(side: Side, link: &Link) -> u8
    ensures { result ≡ peer_of side link.now }
{
    match side {
        Side::From => link.to,
        Side::To => link.from,
    }
}

/// The name of the module at the other end of an end's connection.
#[tactic(auto, unfolding(crate::specs::Output::peer_word))]
fn peer_word<'a>(links: &[Link], modules: &'a [Name], end: &End) -> &'a [u8]
    ensures { result.now ≡ peer_word links.now modules.now «end».now }
{
    match links.get(usize::from(end.link)) {
        Some(link) => name_at(modules, peer_of(end.side, link)),
        None => b"",
    }
}

/// The address of the slot of a module's end. It is below 65,536, since the section holds it.
fn slot_place(layout: &Layout, end: u8) -> u16
    ensures { address result ≡ address (layout.now.priv_from + end_at «end») }
{
    layout.priv_from.wrapping_add(end_at(end))
}

/// Appends the line of a module's end.
#[tactic(auto, unfolding(crate::specs::Output::slot_line))]
fn push_slot(
    text: &mut Vec<u8>,
    deployment: &Deployment,
    module: u8,
    layout: &Layout,
    number: u8,
    end: &End,
) -> Result<(), AllocError>
    ensures { OnOk result (text.new.items ≡ text.old.items
        ++ slot_line (deployed_as deployment.now) «module» layout.now number «end».now) }
{
    let names = &deployment.names;
    put(text, b"slot ", name_at(&names.modules, module))?;
    put(text, b" ", name_at(&names.links, end.link))?;
    put(text, b" ", side_word(end.side))?;
    let port = port_word(&deployment.app.parts, end.side, module, end.port);
    let peer = peer_word(&deployment.app.links, &names.modules, end);
    put(text, b" port ", port)?;
    put(text, b" peer ", peer)?;
    put_address(text, b" at ", slot_place(layout, number))?;
    text.extend_from_slice(b"\n")
}

/// Appends the lines of a module's ends.
pub(crate) fn push_slots(
    text: &mut Vec<u8>,
    deployment: &Deployment,
    module: u8,
    layout: &Layout,
    ends: &[End],
) -> Result<(), AllocError>
    requires { length ends.now ≤ 16 }
    ensures { OnOk result (text.new.items ≡ text.old.items ++ each_from
        (slot_line (deployed_as deployment.now) «module» layout.now) 0 ends.now) }
{
    for (number, end) in ends.iter().enumerate() {
        push_slot(text, deployment, module, layout, number as u8, end)?;
    }
    Ok(())
}
