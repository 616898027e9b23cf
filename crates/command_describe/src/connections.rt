//! The lines of connections.

ghost use Rattle.std.specs.Prelude.{◌≡◌, ◌≤◌, ◌++◌, OnOk, length};
ghost use Rattle.sx_deploy.specs.SeenDeployment.{deployed_as};
ghost use Rattle.command_describe.specs.Output.{connection_line, each_from, link_line};

use crate::ports::port_word;
use crate::words::put;
use std::alloc::AllocError;
use sx_deploy::deployment::Deployment;
use sx_lang::sides::Side;
use sx_mean::apps::Link;
use sx_trace::writing::name_at;

/// Appends the line of a connection, by its words.
#[tactic(auto, unfolding(crate::specs::Output::connection_line))]
fn push_words(
    text: &mut Vec<u8>,
    name: &[u8],
    sender: &[u8],
    output: &[u8],
    receiver: &[u8],
    input: &[u8],
) -> Result<(), AllocError>
    ensures { OnOk result (text.new.items ≡ text.old.items
        ++ connection_line name.now sender.now output.now receiver.now input.now) }
{
    put(text, b"connection ", name)?;
    put(text, b" from ", sender)?;
    put(text, b".", output)?;
    put(text, b" to ", receiver)?;
    put(text, b".", input)?;
    text.extend_from_slice(b"\n")
}

/// Appends the line of a connection.
fn push_link(
    text: &mut Vec<u8>,
    deployment: &Deployment,
    number: u8,
    link: &Link,
) -> Result<(), AllocError>
    ensures { OnOk result (text.new.items
        ≡ text.old.items ++ link_line (deployed_as deployment.now) number link.now) }
{
    let names = &deployment.names;
    let name = name_at(&names.links, number);
    let sender = name_at(&names.modules, link.from);
    let output = port_word(&deployment.app.parts, Side::From, link.from, link.output);
    let receiver = name_at(&names.modules, link.to);
    let input = port_word(&deployment.app.parts, Side::To, link.to, link.input);
    push_words(text, name, sender, output, receiver, input)
}

/// Appends the lines of all connections.
pub(crate) fn push_links(text: &mut Vec<u8>, deployment: &Deployment) -> Result<(), AllocError>
    requires { length deployment.now.app.links.items ≤ 256 }
    ensures { let d = deployed_as deployment.now in OnOk result
        (text.new.items ≡ text.old.items ++ each_from (link_line d) 0 d.app.links) }
{
    for (number, link) in deployment.app.links.iter().enumerate() {
        push_link(text, deployment, number as u8, link)?;
    }
    Ok(())
}
