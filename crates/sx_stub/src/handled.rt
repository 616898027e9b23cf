//! The handler of an end's or the sensor's events.

ghost use Rattle.std.specs.Prelude.{◌≡◌, ◌≤◌, OnOk, Option, Some, None, length, map};
ghost use Rattle.sx_lang.specs.View.{handler_of, module_of};
ghost use Rattle.sx_mean.specs.Handlers.{handler_number, number_of};
ghost use Rattle.sx_stub.specs.Stub.{handled_by};
ghost use Rattle.sx_stub.specs.Puts.{Puts};

use crate::pieces::put_all;
use spec_invocation::protocol::ALL_DONE;
use std::alloc::AllocError;
use sx_ir::Ir;
use sx_lang::names::Name;
use sx_lang::tree::{Handler, Module};
use sx_mean::events::SourceEvent;
use sx_mean::offsets::PIECES;
use sx_mean::reactions::{handles, input_name};

fn handler_number(handlers: &[Handler], input: &Option<Name>) -> Option<u8>
    requires few { length handlers.now ≤ 256 }
    ensures { result ≡ handler_number (map handler_of handlers.now) input.now }
{
    let mut number: u16 = 0;
    for h in handlers {
        if handles(h, input) {
            return Some(number as u8);
        }
        number += 1;
    }
    None
}

/// The number of the handler of an input's events.
pub fn input_handler(tree: &Module, input: u8) -> Option<u8>
    requires few { length tree.now.handlers.items ≤ 256 }
    ensures { result ≡ number_of (module_of tree.now) (SourceEvent.Input input 0) }
{
    match input_name(&tree.decls, input) {
        None => None,
        Some(x) => handler_number(&tree.handlers, &Some(x)),
    }
}

/// The number of the handler of the sensor's samples.
pub fn sample_handler(tree: &Module) -> Option<u8>
    requires few { length tree.now.handlers.items ≤ 256 }
    ensures { result ≡ number_of (module_of tree.now) (SourceEvent.Sample 0) }
{
    handler_number(&tree.handlers, &None)
}

/// The number of operations of a handler, where there is one, and the return.
pub fn handled_len(handler: Option<u8>) -> u16
    ensures { result ≡ length (handled_by handler) }
{
    match handler {
        None => 3,
        Some(_) => 4,
    }
}

/// Appends a handler, where there is one, and the return. The error says that memory ran out.
pub fn put_handled(code: &mut Vec<Ir>, handler: Option<u8>) -> Result<(), AllocError>
    ensures { OnOk result (Puts (handled_by handler) code.old.items code.new.items) }
{
    match handler {
        None => put_all(code, &[Ir::Push(ALL_DONE), Ir::Push(0), Ir::Leave]),
        Some(h) => {
            put_all(
                code,
                &[
                    Ir::Handler(h),
                    Ir::Push(ALL_DONE),
                    Ir::Load(PIECES),
                    Ir::Leave,
                ],
            )
        }
    }
}
