//! The code of handlers and of a module.

ghost use Rattle.std.specs.Prelude.{◌≡◌, ◌+◌, ◌<◌, ◌≤◌, ◌++◌, ◌∷◌, [], IfOk, None, OnOk};
ghost use Rattle.std.specs.Prelude.{length, map};
ghost use Rattle.sx_lang.specs.View.{block_of, handler_of};
ghost use Rattle.sx_check.specs.Names.{block_lets};
ghost use Rattle.sx_check.specs.Rules.{first_broken};
ghost use Rattle.sx_check.specs.Source.{source_tree};
ghost use Rattle.sx_mean.specs.Sized.{AreSizedDecls};
ghost use Rattle.sx_lang.specs.Words.{TreeHasWords};
ghost use Rattle.sx_mean.specs.EndLaws.{senders};
ghost use Rattle.sx_mean.specs.Working.{event_at, local_at};
ghost use Rattle.sx_lower.specs.Lowered.{handler_code, handlers_code, handlers_parts};
ghost use Rattle.sx_lower.specs.Lowered.{AreFew};
ghost use Rattle.sx_lower.specs.Lowering.{LowersTo, SendFew};

use crate::blocks::put_block;
use crate::expressions::put;
use std::alloc::{AllocError, Global};
use sx_check::checked::Checked;
use sx_ir::{Code, Ir};
use sx_lang::names::Name;
use sx_lang::tree::{Decl, Handler};
use sx_lang::words::words;
use sx_mean::events::End;
use sx_mean::offsets::{EVENT, local_at};
use sx_tag::Tag;

fn scope_of(alloc: Global, param: &Name) -> Result<Vec<Name>, AllocError>
    ensures { IfOk result (λ v. v.items ≡ param.now ∷ []) }
{
    let mut scope = Vec::new(alloc);
    scope.push(*param)?;
    Ok(scope)
}

fn put_start(code: &mut Vec<Ir>) -> Result<(), AllocError>
    ensures { OnOk result (code.new.items ≡ code.old.items
        ++ Ir.Load event_at ∷ Ir.Store (local_at 0) ∷ []) }
{
    put(code, Ir::Load(EVENT))?;
    put(code, Ir::Store(local_at(0)))
}

fn put_handler(
    alloc: Global,
    code: &mut Vec<Ir>,
    decls: &[Decl],
    ends: &[End],
    h: &Handler,
) -> Result<(), AllocError>
    requires sized { AreSizedDecls decls.now }
    requires few { length ends.now ≤ 16 }
    requires locals { 1 + length (block_lets (block_of h.now.body.items)) ≤ 16 }
    requires short { length code.old.items + length
        (handler_code decls.now ends.now (length code.old.items) (handler_of h.now)) < 65536 }
    ensures { OnOk result (code.new.items ≡ code.old.items
        ++ handler_code decls.now ends.now (length code.old.items) (handler_of h.now)) }
{
    let mut scope = scope_of(alloc, &h.param)?;
    put_start(code)?;
    put_block(code, decls, ends, &mut scope, &h.body)?;
    put(code, Ir::Stop)
}

fn put_handlers(
    alloc: Global,
    code: &mut Code,
    decls: &[Decl],
    ends: &[End],
    handlers: &[Handler],
) -> Result<(), AllocError>
    requires sized { AreSizedDecls decls.now }
    requires few { length ends.now ≤ 16 }
    requires locals { AreFew (map handler_of handlers.now) }
    requires empty { code.old.ops.items ≡ [] }
    requires none { code.old.parts.items ≡ [] }
    requires short { length (handlers_code decls.now ends.now 0
        (map handler_of handlers.now)) < 65536 }
    ensures ops { OnOk result (code.new.ops.items
        ≡ handlers_code decls.now ends.now 0 (map handler_of handlers.now)) }
    ensures parts { OnOk result (code.new.parts.items
        ≡ handlers_parts decls.now ends.now 0 (map handler_of handlers.now)) }
{
    for h in handlers {
        let from = code.ops.len();
        put_handler(alloc, &mut code.ops, decls, ends, h)?;
        let to = code.ops.len();
        code.parts.push((from as u16, to as u16))?;
    }
    Ok(())
}

/// The stack code of a module's handlers, and the places of their parts. The error says that memory
/// ran out.
fn code_of(alloc: Global, m: &Checked, ends: &[End]) -> Result<Code, AllocError>
    requires few { length ends.now ≤ 16 }
    ensures ops { IfOk result (λ code. code.ops.items
        ≡ handlers_code (source_tree m.now).decls ends.now 0 (source_tree m.now).handlers) }
    ensures parts { IfOk result (λ code. code.parts.items
        ≡ handlers_parts (source_tree m.now).decls ends.now 0 (source_tree m.now).handlers) }
{
    let tree = m.module();
    let mut code = Code {
        ops: Vec::new(alloc),
        parts: Vec::new(alloc),
    };
    put_handlers(alloc, &mut code, &tree.decls, ends, &tree.handlers)?;
    Ok(code)
}

fn facts_of(m: &Checked)
    ensures words { TreeHasWords (source_tree m.now) }
    ensures checked { first_broken (source_tree m.now) ≡ None }
{
    words(m.module());
}

/// The stack code of a module's handlers, where no handler makes more than 16 packets. It fails only
/// where memory runs out. The tag isn't needed, since what the code does is the same for every tag;
/// it is taken so that all parts of the compiler, from here to `emit`, are called alike.
pub fn lower<T: Tag>(alloc: Global, _tag: &T, m: &Checked, ends: &[End]) -> Result<Code, AllocError>
    requires few { length ends.now ≤ 16 }
    requires packets { SendFew (senders ends.now) (source_tree m.now) (source_tree m.now).handlers }
    ensures { IfOk result (LowersTo (source_tree m.now) ends.now) }
{
    facts_of(m);
    let code = code_of(alloc, m, ends)?;
    Ok(code)
}
