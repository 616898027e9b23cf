//! What the heads of a property name in a deployment.

ghost use Rattle.std.specs.Prelude.{◌≡◌, ◌++◌, IfOk, IsTrue, OnOk, [], false, is_some};
ghost use Rattle.std.specs.Prelude.{if◌then◌else◌, None, slice_get};
ghost use Rattle.std.specs.List.{list_any};
ghost use Rattle.std.specs.Option.{option_eq, option_map_or, option_to_list};
ghost use Rattle.sx_mean.specs.Application.{same_kind};
ghost use Rattle.sx_mean.specs.View.{app_as};
ghost use Rattle.sx_index.specs.Places.{place_of};
ghost use Rattle.sx_trace.specs.Names.{sensor_place};
ghost use Rattle.sx_trace.specs.ValidNames.{are_valid};
ghost use Rattle.sx_watch.specs.Parts.{first_unknown, if_drives, is_unknown, topics_of};
ghost use Rattle.sx_watch.specs.Text.{driver_place, drives, index_of, second_from, topic_of};
ghost use Rattle.sx_watch.specs.Topics.{same_topic};

use crate::rewriting::Head;
use crate::topics::{Topic, TopicKind};
use std::alloc::{AllocError, Global};
use sx_lang::tree::DeviceKind;
use sx_mean::apps::{App, declared_kind};
use sx_trace::names::Names;

/// The index among the devices of the actuator of this name.
fn actuator(names: &Names, name: &[u8]) -> Option<u8>
    requires { IsTrue (are_valid names.now) }
    ensures { result ≡ (if is_some (sensor_place names.now name.now) then None else
        place_of names.now.devices name.now) }
{
    match names.sensor(name) {
        Some(_) => None,
        None => names.device(name),
    }
}

fn has_kind(kind: DeviceKind, found: Option<DeviceKind>) -> bool
    ensures { result ≡ option_map_or (same_kind kind) found false }
{
    match (kind, found) {
        (DeviceKind::Sensor, Some(DeviceKind::Sensor)) => true,
        (DeviceKind::Actuator, Some(DeviceKind::Actuator)) => true,
        _ => false,
    }
}

/// Whether the module of this index declares a device of this kind.
fn drives(app: &App, kind: DeviceKind, module: u8) -> bool
    ensures { result
        ≡ option_map_or (drives kind) (slice_get (app_as app.now).parts «module») false }
{
    match app.parts.get(usize::from(module)) {
        Some(part) => has_kind(kind, declared_kind(&part.code.module().decls)),
        None => false,
    }
}

fn if_drives(app: &App, kind: DeviceKind, module: u8) -> Option<u8>
    ensures { result ≡ if_drives (app_as app.now) kind «module» }
{
    if drives(app, kind, module) {
        Some(module)
    } else {
        None
    }
}

/// The index of the module of this name, if it has a device of this kind.
fn driver(names: &Names, app: &App, kind: DeviceKind, name: &[u8]) -> Option<u8>
    requires { IsTrue (are_valid names.now) }
    ensures { result ≡ driver_place names.now (app_as app.now) kind name.now }
{
    let module = names.module(name)?;
    if_drives(app, kind, module)
}

/// The index of what a name names for items of a kind.
fn index_of(names: &Names, app: &App, kind: TopicKind, name: &[u8]) -> Option<u8>
    requires { IsTrue (are_valid names.now) }
    ensures { result ≡ index_of names.now (app_as app.now) kind name.now }
{
    match kind {
        TopicKind::Sense | TopicKind::Drain => names.sensor(name),
        TopicKind::Raw => actuator(names, name),
        TopicKind::Read => driver(names, app, DeviceKind::Sensor, name),
        TopicKind::Out => driver(names, app, DeviceKind::Actuator, name),
        TopicKind::Take => names.link(name),
        TopicKind::Reset => names.node(name),
        TopicKind::Protect | TopicKind::Attested => names.module(name),
    }
}

/// The topic that the words of a head name.
fn topic_of(names: &Names, app: &App, head: &Head) -> Option<Topic>
    requires { IsTrue (are_valid names.now) }
    ensures { result ≡ topic_of names.now (app_as app.now) head.now }
{
    let index = index_of(names, app, head.kind, head.name.bytes())?;
    Some(Topic::new(head.kind, index))
}

/// Whether the words of a head name no topic.
fn is_unknown(names: &Names, app: &App, head: &Head) -> bool
    requires { IsTrue (are_valid names.now) }
    ensures { result ≡ is_unknown names.now (app_as app.now) head.now }
{
    topic_of(names, app, head).is_none()
}

/// The first head whose words name no topic.
pub(crate) fn first_unknown(names: &Names, app: &App, heads: &[Head]) -> Option<Head>
    requires { IsTrue (are_valid names.now) }
    ensures { result ≡ first_unknown names.now (app_as app.now) heads.now }
{
    for head in heads {
        if is_unknown(names, app, head) {
            return Some(*head);
        }
    }
    None
}

/// Whether two topics are the same.
pub(crate) fn is_same_topic(left: Topic, right: Topic) -> bool
    ensures { result ≡ same_topic left right }
{
    left.kind == right.kind && left.index == right.index
}

fn are_same(left: Option<Topic>, right: Option<Topic>) -> bool
    ensures { result ≡ option_eq same_topic left right }
{
    match (left, right) {
        (Some(left), Some(right)) => is_same_topic(left, right),
        (None, None) => true,
        _ => false,
    }
}

fn has_topic(topics: &[Option<Topic>], topic: Option<Topic>) -> bool
    ensures { result ≡ list_any (option_eq same_topic topic) topics.now }
{
    for other in topics {
        if are_same(topic, *other) {
            return true;
        }
    }
    false
}

fn push_topic(topics: &mut Vec<Topic>, topic: Option<Topic>) -> Result<(), AllocError>
    ensures { OnOk result (topics.new.items ≡ topics.old.items ++ option_to_list topic) }
{
    match topic {
        Some(topic) => {
            topics.push(topic)?;
            Ok(())
        }
        None => Ok(()),
    }
}

/// The topics that heads name. The error says that memory ran out.
pub(crate) fn topics_of(
    alloc: Global,
    names: &Names,
    app: &App,
    heads: &[Head],
) -> Result<Vec<Topic>, AllocError>
    requires { IsTrue (are_valid names.now) }
    ensures { IfOk result (λ topics. topics.items
        ≡ topics_of names.now (app_as app.now) heads.now) }
{
    let mut topics = Vec::new(alloc);
    for head in heads {
        push_topic(&mut topics, topic_of(names, app, head))?;
    }
    Ok(topics)
}

/// The first head whose topic another head names before it. The error says that memory ran out.
pub(crate) fn first_second(
    alloc: Global,
    names: &Names,
    app: &App,
    heads: &[Head],
) -> Result<Option<Head>, AllocError>
    requires { IsTrue (are_valid names.now) }
    ensures { IfOk result (λ head. head ≡ second_from names.now (app_as app.now) [] heads.now) }
{
    let mut topics = Vec::new(alloc);
    for head in heads {
        let topic = topic_of(names, app, head);
        if has_topic(&topics, topic) {
            return Ok(Some(*head));
        }
        topics.push(topic)?;
    }
    Ok(None)
}
