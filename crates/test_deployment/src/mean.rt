//! What small modules do at events, and the sizes of modules, up to the highest expressions in the
//! deepest blocks. There a body that goes over both operands twice would do so some 2 ^ 32 times.

use crate::texts::{EYE, LAMP, LOGIC, repeated};
use std::alloc::{AllocError, Global};
use std::process::Abort;
use std::test::Fail;
use sx_check::checked::Checked;
use sx_check::checks::check;
use sx_lang::sizes::{cost, data_size, nodes, weight};
use sx_lang::tree::Module;
use sx_mean::events::{Act, SourceEvent};
use sx_mean::reactions::react;
use sx_mean::stores::Store;
use sx_parse::parse::parse;

#[derive(Debug, Drop)]
struct Refused;

/// The module of a text that keeps the rules.
fn checked(alloc: Global, text: &str) -> Result<Checked, Fail> {
    match check(parse(alloc, text)?) {
        Ok(m) => Ok(m),
        Err(_) => Err(Refused.into()),
    }
}

/// An event, what is done at it, and the first cell afterwards, if there is one.
type Turn<'a> = (SourceEvent, &'a [Act], Option<u16>);

/// Whether the module does these turns, one after the other.
fn does(rt: &impl Abort, alloc: Global, m: &Checked, turns: &[Turn]) -> Result<(), Fail> {
    let mut store = Store::initial(alloc, m)?;
    for (event, acts, cell) in turns {
        let done = react(alloc, m, &mut store, *event)?;
        assert!(rt; done.as_slice() == *acts && store.cells.first().copied() == *cell);
    }
    Ok(())
}

const FALLING: &str = "var x; input a; output b; on a(v) { x = x - v; if x < 3 { send b(1); } }";

const TWO_HANDLERS: &str = "actuator; input a; input c; output b; output d; \
    on c(v) { emit v + 1; send d(v); send b(7); } on a(v) { emit v; }";

const MODULES: [(&str, &[Turn]); 5] = [
    (
        EYE,
        &[(SourceEvent::Sample(32767), &[Act::Send(0, 32767)], None)],
    ),
    (
        LOGIC,
        &[
            (SourceEvent::Input(0, 0), &[Act::Send(0, 0)], Some(100)),
            (SourceEvent::Input(0, 100), &[Act::Send(0, 0)], Some(100)),
            (SourceEvent::Input(0, 101), &[Act::Send(0, 1)], Some(100)),
            // a signed comparison would send 0
            (SourceEvent::Input(0, 65_535), &[Act::Send(0, 1)], Some(100)),
            (SourceEvent::Sample(7), &[], Some(100)),
        ],
    ),
    (
        LAMP,
        &[(SourceEvent::Input(0, 65_535), &[Act::Emit(65_535)], None)],
    ),
    (
        FALLING,
        &[
            (SourceEvent::Input(0, 1), &[], Some(65_535)),
            (SourceEvent::Input(0, 65_534), &[Act::Send(0, 1)], Some(1)),
        ],
    ),
    (
        TWO_HANDLERS,
        &[
            (
                SourceEvent::Input(1, 9),
                &[Act::Emit(10), Act::Send(1, 9), Act::Send(0, 7)],
                None,
            ),
            (SourceEvent::Input(0, 9), &[Act::Emit(9)], None),
        ],
    ),
];

#[test]
fn modules(rt: HostRuntime) -> Result<(), Fail> {
    for (text, turns) in MODULES.as_slice() {
        does(&rt, rt.alloc(), &checked(rt.alloc(), text)?, turns)?;
    }
    Ok(())
}

/// Bodies of a handler of `v`, its value, and what is emitted last.
const BODIES: [(&str, u16, u16); 46] = [
    ("emit v + 2;", 65_535, 1),
    ("emit 1 - v;", 2, 65_535),
    ("emit 9 - v - 1;", 2, 6),
    ("emit v * 257;", 300, 11_564),
    ("emit v * v;", 65_535, 1),
    ("emit v | 0x0f0f;", 0x3300, 0x3f0f),
    ("emit v ^ 0xffff;", 0x1234, 0xedcb),
    ("emit v & 0x0ff0;", 0xabcd, 0x0bc0),
    ("emit v | 6 & 3;", 8, 10),
    ("emit -v;", 1, 65_535),
    ("emit -v;", 0, 0),
    ("emit ~v;", 0x00ff, 0xff00),
    ("emit !v;", 0, 1),
    ("emit !v;", 256, 0),
    ("emit (x - v) * -(v + ~x);", 2, 12),
    // words are compared without a sign
    ("emit v == 7;", 7, 1),
    ("emit v == 7;", 8, 0),
    ("emit v != 7;", 7, 0),
    ("emit v != 7;", 8, 1),
    ("emit v < 7;", 6, 1),
    ("emit v < 7;", 7, 0),
    ("emit v < 7;", 65_535, 0),
    ("emit v <= 7;", 7, 1),
    ("emit v <= 7;", 65_535, 0),
    ("emit v > 7;", 7, 0),
    ("emit v > 7;", 65_535, 1),
    ("emit v >= 7;", 6, 0),
    ("emit v >= 7;", 7, 1),
    ("let y = v + 1; y = y * 2; emit y;", 4, 10),
    ("x = x - v; emit x;", 6, 65_535),
    ("v = x; emit v;", 6, 5),
    ("if v { emit 1; } else { emit 2; }", 0, 2),
    ("if v { emit 1; } else { emit 2; }", 256, 1),
    ("emit 7; if v > 3 { emit 1; }", 3, 7),
    ("let y = 1; repeat 256 { y = y + v; } emit y;", 257, 257),
    (
        "repeat 2 { let y = v; repeat 2 { emit y; y = y + 1; } }",
        5,
        6,
    ),
    ("emit 3; if v == 2 { emit 7; } else { emit 8; }", 2, 7),
    // beyond its end an array is 0, and a store there changes nothing
    ("xs[1] = v; emit xs[1];", 9, 9),
    ("xs[2] = 7; xs[v] = 8; emit xs[2];", 2, 8),
    ("xs[2] = 7; xs[v] = 8; emit xs[2];", 3, 7),
    ("xs[0] = 7; xs[v] = 8; emit xs[0];", 65_535, 7),
    ("xs[2] = 7; emit xs[v];", 2, 7),
    ("xs[2] = 7; emit xs[v];", 3, 0),
    ("xs[0] = 7; emit xs[v];", 32_768, 0),
    ("xs[0] = 2; xs[xs[0]] = v; emit xs[xs[0]];", 9, 9),
    ("send b(v); emit 3;", 9, 3),
];

/// What a module does last at its input's value.
fn last_act(alloc: Global, m: &Checked, value: u16) -> Result<Option<Act>, AllocError> {
    let mut store = Store::initial(alloc, m)?;
    let acts = react(alloc, m, &mut store, SourceEvent::Input(0, value))?;
    Ok(acts.last().copied())
}

/// What a handler with this body does last at a value.
fn last_act_of(alloc: Global, body: &str, value: u16) -> Result<Option<Act>, Fail> {
    let front = "actuator; input a; output b; var x = 5; array xs[3]; on a(v) { ";
    let text = repeated(alloc, front, body, 1, " }")?;
    Ok(last_act(alloc, &checked(alloc, text.as_str())?, value)?)
}

#[test]
fn bodies(rt: HostRuntime) -> Result<(), Fail> {
    for (body, value, want) in BODIES.as_slice() {
        assert!(rt; last_act_of(rt.alloc(), body, *value)? == Some(Act::Emit(*want)));
    }
    Ok(())
}

/// The nodes, weight, data and cost of a module with so many ends.
fn sizes(module: &Module, ends: u8) -> [u64; 4] {
    [
        nodes(module),
        weight(module, ends),
        data_size(module, ends),
        cost(module),
    ]
}

const SIZES: [(&str, u8, [u64; 4]); 3] = [
    (EYE, 1, [3, 2432, 536, 8288]),
    (LOGIC, 2, [10, 3072, 562, 8448]),
    (LAMP, 1, [3, 2432, 536, 160]),
];

#[test]
fn sizes_of_modules(rt: HostRuntime) -> Result<(), Fail> {
    for (text, ends, want) in SIZES.as_slice() {
        assert!(rt; sizes(&parse(rt.alloc(), text)?, *ends) == *want);
    }
    Ok(())
}

/// A part of an expression so many times, its middle and its last part as often, what it is worth
/// where `v` is 5, and the sizes of its module.
const HIGHEST: [(&str, u16, &str, &str, u16, [u64; 4]); 4] = [
    // -5 is 65,531
    ("-", 31, "v", "", 65_531, [65, 6400, 540, 10_720]),
    // 32 times 5
    ("v + (", 30, "v + v", ")", 160, [96, 8384, 540, 11_712]),
    ("v + ", 31, "v", "", 160, [96, 8384, 540, 11_712]),
    // the array's first element, since its sixth is past its end
    ("a[", 31, "v", "]", 0, [65, 6400, 540, 11_712]),
];

/// An expression: a part so many times, the middle, and the last part as often.
fn nested(
    alloc: Global,
    first: &str,
    times: u16,
    middle: &str,
    last: &str,
) -> Result<String, AllocError> {
    let open = repeated(alloc, "", first, times, middle)?;
    repeated(alloc, open.as_str(), last, times, "")
}

/// A module that sends what an expression is worth, in the deepest block that a handler has.
fn deep(alloc: Global, expression: &str) -> Result<Checked, Fail> {
    let front = "sensor; output o; array a[2]; sample(v) { ";
    let open = repeated(alloc, front, "if v { ", 15, "send o(")?;
    let sent = repeated(alloc, open.as_str(), expression, 1, "); ")?;
    let text = repeated(alloc, sent.as_str(), "} ", 15, "}")?;
    checked(alloc, text.as_str())
}

/// Whether a module has these sizes, and sends this at a sample of 5.
fn is_worth(
    rt: &impl Abort,
    alloc: Global,
    m: &Checked,
    worth: u16,
    want: &[u64; 4],
) -> Result<(), Fail> {
    let mut store = Store::initial(alloc, m)?;
    let acts = react(alloc, m, &mut store, SourceEvent::Sample(5))?;
    assert!(rt;
        acts.as_slice() == [Act::Send(0, worth)].as_slice() && sizes(m.module(), 1) == *want
    );
    Ok(())
}

#[test]
fn highest_expressions_in_deepest_blocks(rt: HostRuntime) -> Result<(), Fail> {
    let alloc = rt.alloc();
    for (first, times, middle, last, worth, want) in HIGHEST.as_slice() {
        let expression = nested(alloc, first, *times, middle, last)?;
        is_worth(&rt, alloc, &deep(alloc, expression.as_str())?, *worth, want)?;
    }
    Ok(())
}
