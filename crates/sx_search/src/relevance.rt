//! Which modules, devices and connections a property depends on, by the values that it hears of.

use std::alloc::{AllocError, Global};
use sx_mean::apps::{App, Link, Part};
use sx_watch::topics::{Topic, TopicKind};

/// For each module, device and connection, whether what the property hears of can depend on it.
#[derive(Drop)]
pub struct Relevance {
    /// The modules.
    pub modules: Vec<bool>,
    /// The devices: their readings.
    pub devices: Vec<bool>,
    /// The connections: their words.
    pub links: Vec<bool>,
}

/// Sets a bit, if there is one.
fn set(bits: &mut [bool], n: usize) {
    if n < bits.len() {
        bits[n] = true;
    }
}

/// Whether the bit is set.
pub fn has(bits: &[bool], n: usize) -> bool {
    n < bits.len() && bits[n]
}

/// What a topic's values come from: an output from its module, a reading from the module's device.
fn begin_at(topic: Topic, parts: &[Part], found: &mut Relevance) {
    let index = usize::from(topic.index);
    match topic.kind {
        TopicKind::Sense => set(&mut found.devices, index),
        TopicKind::Take => set(&mut found.links, index),
        TopicKind::Out => set(&mut found.modules, index),
        TopicKind::Read => mark_device(parts, index, &mut found.devices),
        _ => {}
    }
}

fn mark_device(parts: &[Part], m: usize, devices: &mut [bool]) {
    if m < parts.len() {
        if let Some(d) = parts[m].device {
            set(devices, usize::from(d));
        }
    }
}

/// A connection to a relevant module is relevant, and the module that it comes from.
fn follow_link(c: usize, link: Link, found: &mut Relevance) {
    if has(&found.modules, usize::from(link.to)) {
        set(&mut found.links, c);
    }
    if has(&found.links, c) {
        set(&mut found.modules, usize::from(link.from));
    }
}

fn follow_links(links: &[Link], found: &mut Relevance) {
    for c in 0..links.len() {
        follow_link(c, links[c], found);
    }
}

fn mark_devices(parts: &[Part], found: &mut Relevance) {
    for m in 0..parts.len() {
        if has(&found.modules, m) {
            mark_device(parts, m, &mut found.devices);
        }
    }
}

/// What the values depend on that the property hears of.
pub fn relevant_to(alloc: Global, app: &App, topics: &[Topic]) -> Result<Relevance, AllocError> {
    let mut found = Relevance {
        modules: vec![in alloc; false; app.parts.len()]?,
        devices: vec![in alloc; false; app.devices.len()]?,
        links: vec![in alloc; false; app.links.len()]?,
    };
    for topic in topics {
        begin_at(*topic, &app.parts, &mut found);
    }
    for _ in 0..app.parts.len() {
        follow_links(&app.links, &mut found);
    }
    mark_devices(&app.parts, &mut found);
    Ok(found)
}
