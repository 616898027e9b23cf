//! Properties of the lighting: where they are broken in its run, and which rules texts break.

ghost use Rattle.std.specs.Prelude.{IsTrue};
ghost use Rattle.sx_trace.specs.ValidNames.{are_valid};

use crate::model::connected;
use std::alloc::Global;
use std::process::Abort;
use std::test::Fail;
use sx_check::rules::Rule;
use sx_deploy::deployment::Deployment;
use sx_lex::tokens::Place;
use sx_trace::items::Item;
use sx_watch::reading::{PropertyError, PropertyFault, read_property};
use sx_watch::watcher::Watcher;

/// Properties with the number of the first item of the run that breaks them.
const BROKEN: [(&str, Option<usize>); 9] = [
    (
        "var bright; on sense light(v) { if v > 100 { bright = 1; } } \
            on out lamp(v) { if (v == 1) & !bright { fail; } }",
        None,
    ),
    (
        "var bright; on sense light(v) { if v > 120 { bright = 1; } } \
            on out lamp(v) { if (v == 1) & !bright { fail; } }",
        Some(42),
    ),
    ("on protect lamp { fail; }", Some(3)),
    ("on attested lamp { fail; }", Some(30)),
    ("on take up(v) { if v == 120 { fail; } }", Some(38)),
    (
        "on reset b { fail; } on drain light { fail; } on raw bulb(v) { fail; }",
        None,
    ),
    // an assumption that fails ends the question, from its item on
    (
        "on read eye(v) { assume v < 120; } on out lamp(v) { fail; }",
        None,
    ),
    ("on sense light(v) { fail; assume 0; }", Some(34)),
    ("on sense light(v) { assume 0; fail; }", None),
];

/// Texts with the rule that they break, and the column of it on the first line.
const SYNTAX: [(&str, u32); 13] = [
    ("on out lamp(v) { fail }", 23),
    ("on out lamp(v) { fail + 1; }", 23),
    ("on out lamp(v) { fail; else { } }", 24),
    ("on out lamp(v) { if fail { } }", 21),
    ("on out lamp(v) { assume v { } }", 27),
    ("on out lamp(v) { assume v & fail; }", 29),
    ("on out lamp(v) { assume v) & (v; }", 26),
    ("on out lamp(v) { emit 1; }", 18),
    ("sensor;", 1),
    ("on lamp(v) { }", 4),
    ("on out assume(v) { }", 8),
    ("on out lamp { }", 13),
    ("on reset b(v) { }", 11),
];

const UNKNOWN: [(&str, u32); 5] = [
    ("on out bulb(v) { }", 8),
    ("on read lamp(v) { }", 9),
    ("on raw light(v) { }", 8),
    ("on drain bulb { }", 10),
    ("on take lamp(v) { }", 9),
];

/// The number of the first item that breaks a property.
fn broken_at(alloc: Global, watcher: &mut Watcher, items: &[Item]) -> Result<Option<usize>, Fail> {
    for index in 0..items.len() {
        if watcher.item(alloc, &items[index])? {
            return Ok(Some(index + 1));
        }
    }
    Ok(None)
}

fn breaks(alloc: Global, d: &Deployment, text: &str, items: &[Item]) -> Result<Option<usize>, Fail>
    requires { IsTrue (are_valid d.now.names) }
{
    let property = read_property(alloc, &d.names, &d.app, text.as_bytes())?;
    broken_at(alloc, &mut Watcher::new(alloc, property)?, items)
}

/// The rule that a text breaks.
fn fault(alloc: Global, d: &Deployment, text: &str) -> Option<PropertyFault>
    requires { IsTrue (are_valid d.now.names) }
{
    match read_property(alloc, &d.names, &d.app, text.as_bytes()) {
        Err(PropertyError::Fault(fault)) => Some(fault),
        _ => None,
    }
}

fn in_column(column: u32) -> Place {
    Place { line: 1, column }
}

pub(crate) fn are_watched(rt: &impl Abort, alloc: Global, d: &Deployment) -> Result<(), Fail>
    requires { IsTrue (are_valid d.now.names) }
{
    let items = connected(alloc, d)?;
    for (text, want) in BROKEN.as_slice() {
        assert!(rt; breaks(alloc, d, text, &items)? == *want);
    }
    Ok(())
}

pub(crate) fn are_refused(rt: &impl Abort, alloc: Global, d: &Deployment)
    requires { IsTrue (are_valid d.now.names) }
{
    for (text, column) in SYNTAX.as_slice() {
        assert!(rt; fault(alloc, d, text) == Some(PropertyFault::Syntax(in_column(*column))));
    }
    for (text, column) in UNKNOWN.as_slice() {
        assert!(rt; fault(alloc, d, text) == Some(PropertyFault::Unknown(in_column(*column))));
    }
    let twice = fault(alloc, d, "on out lamp(v) { } on out lamp(w) { }");
    assert!(rt; twice == Some(PropertyFault::Twice(in_column(27))));
    let misused = fault(alloc, d, "on out lamp(v) { x = v; }");
    assert!(rt; misused == Some(PropertyFault::Language(Rule::Unknown)));
}
