//! Applications and properties, written as short rows.

use std::alloc::Global;
use std::test::Fail;
use sx_check::checked::Checked;
use sx_check::checks::check;
use sx_lang::tree::DeviceKind;
use sx_mean::apps::{App, AppDevice, Link, Part};
use sx_parse::parse::parse;
use sx_watch::property::Property;
use sx_watch::topics::{Topic, TopicKind};

/// An application: how many nodes it has, its devices, each with its node, its modules, each with
/// node, device and text, and its connections, as sender, output, receiver, input.
pub(crate) struct Sketch<'a> {
    pub(crate) nodes: u8,
    pub(crate) devices: &'a [(u8, DeviceKind)],
    pub(crate) parts: &'a [(u8, Option<u8>, &'a str)],
    pub(crate) links: &'a [(u8, u8, u8, u8)],
}

#[derive(Debug, Drop)]
struct Refused;

/// The module of a text that keeps the rules.
fn checked(alloc: Global, text: &str) -> Result<Checked, Fail> {
    match check(parse(alloc, text)?) {
        Ok(m) => Ok(m),
        Err(_) => Err(Refused.into()),
    }
}

/// The application.
pub(crate) fn app(alloc: Global, sketch: &Sketch) -> Result<App, Fail> {
    let mut devices = Vec::new(alloc);
    for (node, kind) in sketch.devices {
        devices.push(AppDevice {
            node: *node,
            kind: *kind,
        })?;
    }
    let mut links = Vec::new(alloc);
    for (from, output, to, input) in sketch.links {
        links.push(Link {
            from: *from,
            output: *output,
            to: *to,
            input: *input,
        })?;
    }
    Ok(App {
        nodes: sketch.nodes,
        devices,
        parts: parts(alloc, sketch.parts)?,
        links,
    })
}

fn parts(alloc: Global, rows: &[(u8, Option<u8>, &str)]) -> Result<Vec<Part>, Fail> {
    let mut parts = Vec::new(alloc);
    for (node, device, text) in rows {
        let code = checked(alloc, text)?;
        parts.push(Part {
            node: *node,
            device: *device,
            code,
        })?;
    }
    Ok(parts)
}

/// The property of a text, whose inputs hear of items of these kinds at these indices, in order.
pub(crate) fn property(
    alloc: Global,
    text: &str,
    heard: &[(TopicKind, u8)],
) -> Result<Property, Fail> {
    let mut topics = Vec::new(alloc);
    for (kind, index) in heard {
        topics.push(Topic::new(*kind, *index))?;
    }
    Ok(Property {
        code: checked(alloc, text)?,
        topics,
    })
}
