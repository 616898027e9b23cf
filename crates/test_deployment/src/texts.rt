//! Texts that are printed, and names.

use std::alloc::{AllocError, Global};
use std::test::Fail;
use sx_lang::names::Name;
use sx_lang::sides::Side;
use sx_lang::tree::{Expr, Handler, Module, Stmt};
use sx_parse::parse::parse;
use sx_parse::printed::reread;
use sx_parse::{print, printable};

#[derive(Debug, Drop)]
struct NotMade;

pub(crate) const EYE: &str = "sensor;\noutput level;\nsample(v) { send level(v); }\n";

pub(crate) const LOGIC: &str = "input level;\noutput bright;\nvar limit = 100;\n\
    on level(v) { if v > limit { send bright(1); } else { send bright(0); } }\n";

pub(crate) const LAMP: &str = "actuator;\ninput show;\non show(v) { emit v; }\n";

/// A text with its middle so many times.
pub(crate) fn repeated(
    alloc: Global,
    front: &str,
    middle: &str,
    times: u16,
    back: &str,
) -> Result<String, AllocError> {
    let mut text = String::from_str(alloc, front)?;
    for _time in 0..times {
        text.push_str(middle)?;
    }
    text.push_str(back)?;
    Ok(text)
}

const PRINTED: [(&str, &str); 5] = [
    (
        EYE,
        "sensor;\noutput level;\nsample(v) {\n    send level(v);\n}\n",
    ),
    (
        LOGIC,
        "input level;\noutput bright;\nvar limit = 100;\non level(v) {\n    if (v > limit) {\n        send bright(1);\n    } else {\n        send bright(0);\n    }\n}\n",
    ),
    (
        LAMP,
        "actuator;\ninput show;\non show(v) {\n    emit v;\n}\n",
    ),
    (
        "var x; sample(v) { x = 9 - 2 - 0x1 * !v & 3 == (v); if x { } else { } }",
        "var x = 0;\nsample(v) {\n    x = (((9 - 2) - ((1 * !v) & 3)) == v);\n    if x {\n    }\n}\n",
    ),
    (
        "array cells[4]; on level(v) { let x = 0; x = - ~ !x; cells[x & 3] = cells[65535]; if x * 10 { } repeat 256 { repeat 2 { } } }",
        "array cells[4];\non level(v) {\n    let x = 0;\n    x = -~!x;\n    cells[(x & 3)] = cells[65535];\n    if (x * 10) {\n    }\n    repeat 256 {\n        repeat 2 {\n        }\n    }\n}\n",
    ),
];

/// Whether this is the text of a module.
fn is_text_of(alloc: Global, module: &Module, want: &str) -> Result<bool, Fail> {
    Ok(printable(module) && print(alloc, module)?.as_str() == want)
}

/// Whether this is the text of a module and of the module that is read from it again.
fn is_printed(alloc: Global, module: &Module, want: &str) -> Result<bool, Fail> {
    Ok(
        is_text_of(alloc, module, want)?
            && printable(module)
            && is_text_of(alloc, &reread(alloc, module)?, want)?,
    )
}

#[test]
fn texts_that_are_printed(rt: HostRuntime) -> Result<(), Fail> {
    for (text, want) in PRINTED.as_slice() {
        assert!(rt; is_printed(rt.alloc(), &parse(rt.alloc(), text)?, want)?);
    }
    Ok(())
}

/// A module that emits what has this name. It is made here, since a text that is read has no name
/// that can't be printed.
fn emitting(alloc: Global, text: &str) -> Result<Module, Fail> {
    let name = Name::new(text.as_bytes()).ok_or(NotMade)?;
    let body = vec![in alloc; Stmt::Emit(Expr::Read(name))]?;
    let handler = Handler {
        input: None,
        param: name,
        body,
    };
    let handlers = vec![in alloc; handler]?;
    let decls = Vec::new(alloc);
    Ok(Module { decls, handlers })
}

const NAMES: [(&str, bool); 8] = [
    ("x_1", true),
    ("abcdefghijklmnop", true),
    ("sends", true),
    ("send", false),
    ("Level", false),
    ("1x", false),
    ("_x", false),
    ("a-b", false),
];

#[test]
fn names_that_can_be_printed(rt: HostRuntime) -> Result<(), Fail> {
    for (text, want) in NAMES.as_slice() {
        assert!(rt; printable(&emitting(rt.alloc(), text)?) == *want);
    }
    Ok(())
}

/// Names have one to sixteen bytes.
#[test]
fn names(rt: HostRuntime) {
    assert!(rt; Name::new(b"").is_none() && Name::new(b"seventeen_letters").is_none());
    let longest = Name::new(b"sixteen_letters_");
    assert!(rt; longest.is_some_and(|name| name.bytes() == b"sixteen_letters_".as_slice()));
    assert!(rt; longest != Name::new(b"sixteen_letters") && Side::From != Side::To);
}
