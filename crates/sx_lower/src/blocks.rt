//! The code of statements and blocks.

ghost use Rattle.std.specs.Prelude.{◌≡◌, ◌+◌, ◌<◌, ◌≤◌, ◌++◌, ◌∷◌, [], OnOk, length, slice_set};
ghost use Rattle.std.specs.Prelude.{◌==◌};
ghost use Rattle.sx_lang.specs.Tree.{Chooses, Repeats};
ghost use Rattle.sx_lang.specs.View.{block_of, expression_of, statement_of};
ghost use Rattle.sx_check.specs.Names.{block_lets, defined, statement_lets};
ghost use Rattle.sx_mean.specs.Ends.{is_sending};
ghost use Rattle.sx_mean.specs.Sized.{AreSizedDecls};
ghost use Rattle.sx_lower.specs.Lowered.{assign_code, block_code, define_code, element_code};
ghost use Rattle.sx_lower.specs.Lowered.{expression_code, packets_code, send_code, statement_code};

use crate::expressions::{put, put_assign, put_expression};
use std::alloc::AllocError;
use sx_ir::{Ir, IrOp};
use sx_lang::names::Name;
use sx_lang::sides::Side;
use sx_lang::tree::{Decl, Expr, Stmt};
use sx_mean::events::End;
use sx_mean::offsets::{EVENT, cell_at, local_at};
use sx_mean::places::{array_length, output_number, place};

fn is_sending(e: &End, output: u8) -> bool
    ensures { result ≡ is_sending output e.now.side e.now.port }
{
    match e.side {
        Side::From => e.port == output,
        Side::To => false,
    }
}

fn put_packets(code: &mut Vec<Ir>, ends: &[End], output: u8) -> Result<(), AllocError>
    requires few { length ends.now ≤ 16 }
    ensures { OnOk result (code.new.items ≡ code.old.items ++ packets_code 0 ends.now output) }
{
    let mut k: u8 = 0;
    for e in ends {
        if is_sending(e, output) {
            put(code, Ir::Packet(k))?;
        }
        k += 1;
    }
    Ok(())
}

fn put_define(
    code: &mut Vec<Ir>,
    decls: &[Decl],
    ends: usize,
    scope: &mut Vec<Name>,
    x: &Name,
    e: &Expr,
) -> Result<(), AllocError>
    requires sized { AreSizedDecls decls.now }
    requires few { ends ≤ 16 }
    requires locals { length scope.old.items < 16 }
    ensures code { OnOk result (code.new.items ≡ code.old.items
        ++ define_code decls.now ends scope.old.items (expression_of e.now)) }
    ensures scope { OnOk result (scope.new.items ≡ scope.old.items ++ x.now ∷ []) }
{
    put_expression(code, decls, ends, scope, e)?;
    put(code, Ir::Store(local_at(scope.len())))?;
    scope.push(*x)?;
    Ok(())
}

fn put_element(
    code: &mut Vec<Ir>,
    decls: &[Decl],
    ends: usize,
    scope: &[Name],
    x: &Name,
    index: &Expr,
    e: &Expr,
) -> Result<(), AllocError>
    requires sized { AreSizedDecls decls.now }
    requires few { ends ≤ 16 }
    requires locals { length scope.now ≤ 16 }
    ensures { OnOk result (code.new.items ≡ code.old.items
        ++ element_code decls.now ends scope.now x.now (expression_of index.now)
        (expression_of e.now)) }
{
    put_expression(code, decls, ends, scope, index)?;
    put_expression(code, decls, ends, scope, e)?;
    put(
        code,
        Ir::StoreAt(cell_at(ends, place(decls, x)), array_length(decls, x)),
    )
}

fn set(code: &mut Vec<Ir>, at: usize, op: Ir)
    requires { at < length code.old.items }
    ensures { code.new.items ≡ slice_set code.old.items at op }
{
    code[at] = op;
}

fn put_turn(code: &mut Vec<Ir>, n: u16) -> Result<(), AllocError>
    ensures { OnOk result (code.new.items ≡ code.old.items ++ Ir.Push n ∷ Ir.Store 2 ∷ Ir.Load 2
        ∷ Ir.Load 2 ∷ Ir.JumpZero 0 ∷ []) }
{
    put(code, Ir::Push(n))?;
    put(code, Ir::Store(EVENT))?;
    put(code, Ir::Load(EVENT))?;
    put(code, Ir::Load(EVENT))?;
    put(code, Ir::JumpZero(0))
}

fn put_return(code: &mut Vec<Ir>, to: u16) -> Result<(), AllocError>
    ensures { OnOk result (code.new.items ≡ code.old.items ++ Ir.Push 1 ∷ Ir.Op IrOp.Sub
        ∷ Ir.Jump to ∷ Ir.Drop ∷ []) }
{
    put(code, Ir::Push(1))?;
    put(code, Ir::Op(IrOp::Sub))?;
    put(code, Ir::Jump(to))?;
    put(code, Ir::Drop)
}

fn put_send(
    code: &mut Vec<Ir>,
    decls: &[Decl],
    ends: &[End],
    scope: &[Name],
    x: &Name,
    e: &Expr,
) -> Result<(), AllocError>
    requires sized { AreSizedDecls decls.now }
    requires few { length ends.now ≤ 16 }
    requires locals { length scope.now ≤ 16 }
    ensures { OnOk result (code.new.items ≡ code.old.items
        ++ send_code decls.now ends.now scope.now x.now (expression_of e.now)) }
{
    put_expression(code, decls, ends.len(), scope, e)?;
    put_packets(code, ends, output_number(decls, x))?;
    put(code, Ir::Drop)
}

fn put_assignment(
    code: &mut Vec<Ir>,
    decls: &[Decl],
    ends: usize,
    scope: &[Name],
    x: &Name,
    e: &Expr,
) -> Result<(), AllocError>
    requires sized { AreSizedDecls decls.now }
    requires few { ends ≤ 16 }
    requires locals { length scope.now ≤ 16 }
    ensures { OnOk result (code.new.items ≡ code.old.items
        ++ (expression_code decls.now ends scope.now (expression_of e.now)
        ++ assign_code decls.now ends scope.now x.now)) }
{
    put_expression(code, decls, ends, scope, e)?;
    put_assign(code, decls, ends, scope, x)
}

fn put_emit(
    code: &mut Vec<Ir>,
    decls: &[Decl],
    ends: usize,
    scope: &[Name],
    e: &Expr,
) -> Result<(), AllocError>
    requires sized { AreSizedDecls decls.now }
    requires few { ends ≤ 16 }
    requires locals { length scope.now ≤ 16 }
    ensures { OnOk result (code.new.items ≡ code.old.items
        ++ (expression_code decls.now ends scope.now (expression_of e.now) ++ Ir.Emit ∷ [])) }
{
    put_expression(code, decls, ends, scope, e)?;
    put(code, Ir::Emit)
}

#[cycle(blocks)]
fn put_statement(
    code: &mut Vec<Ir>,
    decls: &[Decl],
    ends: &[End],
    scope: &mut Vec<Name>,
    s: &Stmt,
) -> Result<(), AllocError>
    requires sized { AreSizedDecls decls.now }
    requires few { length ends.now ≤ 16 }
    requires locals { length scope.old.items + length (statement_lets (statement_of s.now)) ≤ 16 }
    requires short { length code.old.items + length
        (statement_code decls.now ends.now (length code.old.items) scope.old.items
        (statement_of s.now)) < 65536 }
    ensures code { OnOk result (code.new.items ≡ code.old.items
        ++ statement_code decls.now ends.now (length code.old.items) scope.old.items
        (statement_of s.now)) }
    ensures scope { OnOk result (scope.new.items
        ≡ scope.old.items ++ defined (statement_of s.now)) }
{
    match s {
        Stmt::Let(x, e) => put_define(code, decls, ends.len(), scope, x, e),
        Stmt::Assign(x, e) => put_assignment(code, decls, ends.len(), scope, x, e),
        Stmt::Element(x, index, e) => { put_element(code, decls, ends.len(), scope, x, index, e) }
        Stmt::If(e, first, second) => { put_choice(code, decls, ends, scope, e, first, second) }
        Stmt::Repeat(n, body) => put_loop(code, decls, ends, scope, *n, body),
        Stmt::Send(x, e) => put_send(code, decls, ends, scope, x, e),
        Stmt::Emit(e) => put_emit(code, decls, ends.len(), scope, e),
    }
}

/// The code of an `if`. Its jumps are written when the places after the blocks are known.
#[cycle(blocks)]
fn put_choice(
    code: &mut Vec<Ir>,
    decls: &[Decl],
    ends: &[End],
    scope: &mut Vec<Name>,
    e: &Expr,
    first: &Vec<Stmt>,
    second: &Vec<Stmt>,
) -> Result<(), AllocError>
    requires sized { AreSizedDecls decls.now }
    requires few { length ends.now ≤ 16 }
    requires locals { length scope.old.items + length (block_lets (block_of first.now.items)
        ++ block_lets (block_of second.now.items)) ≤ 16 }
    requires short { length code.old.items + length
        (statement_code decls.now ends.now (length code.old.items)
        scope.old.items (Chooses (expression_of e.now) (block_of first.now.items)
        (block_of second.now.items)))
        < 65536 }
    ensures code { OnOk result (code.new.items ≡ code.old.items ++ statement_code decls.now ends.now
        (length code.old.items) scope.old.items
        (Chooses (expression_of e.now) (block_of first.now.items) (block_of second.now.items))) }
    ensures scope { OnOk result (scope.new.items ≡ scope.old.items) }
{
    put_expression(code, decls, ends.len(), scope, e)?;
    let test = code.len();
    put(code, Ir::JumpZero(0))?;
    put_block(code, decls, ends, scope, first)?;
    let over = code.len();
    put(code, Ir::Jump(0))?;
    put_block(code, decls, ends, scope, second)?;
    let end = code.len();
    set(code, test, Ir::JumpZero((over + 1) as u16));
    set(code, over, Ir::Jump(end as u16));
    Ok(())
}

/// The code of a `repeat`. Its jump to the end is written when the place after the block is known.
#[cycle(blocks)]
fn put_loop(
    code: &mut Vec<Ir>,
    decls: &[Decl],
    ends: &[End],
    scope: &mut Vec<Name>,
    turns: u16,
    body: &Vec<Stmt>,
) -> Result<(), AllocError>
    requires sized { AreSizedDecls decls.now }
    requires few { length ends.now ≤ 16 }
    requires locals { length scope.old.items + length (block_lets (block_of body.now.items)) ≤ 16 }
    requires short { length code.old.items + length
        (statement_code decls.now ends.now (length code.old.items)
        scope.old.items (Repeats turns (block_of body.now.items))) < 65536 }
    ensures code { OnOk result (code.new.items ≡ code.old.items ++ statement_code decls.now ends.now
        (length code.old.items) scope.old.items (Repeats turns (block_of body.now.items))) }
    ensures scope { OnOk result (scope.new.items ≡ scope.old.items) }
{
    let start = code.len();
    put_turn(code, turns)?;
    put_block(code, decls, ends, scope, body)?;
    put_return(code, (start + 1) as u16)?;
    let end = code.len();
    set(code, start + 4, Ir::JumpZero((end - 1) as u16));
    Ok(())
}

/// Appends the code of a block. The locals that the block defines go out of scope after it. The
/// error says that memory ran out.
#[cycle(blocks)]
pub fn put_block(
    code: &mut Vec<Ir>,
    decls: &[Decl],
    ends: &[End],
    scope: &mut Vec<Name>,
    block: &Vec<Stmt>,
) -> Result<(), AllocError>
    requires sized { AreSizedDecls decls.now }
    requires few { length ends.now ≤ 16 }
    requires locals { length scope.old.items + length (block_lets (block_of block.now.items)) ≤ 16 }
    requires short { length code.old.items + length
        (block_code decls.now ends.now (length code.old.items) scope.old.items
        (block_of block.now.items)) < 65536 }
    ensures code { OnOk result (code.new.items ≡ code.old.items
        ++ block_code decls.now ends.now (length code.old.items) scope.old.items
        (block_of block.now.items)) }
    ensures scope { OnOk result (scope.new.items ≡ scope.old.items) }
{
    let outer = scope.len();
    for s in block {
        put_statement(code, decls, ends, scope, s)?;
    }
    scope.truncate(outer);
    Ok(())
}
