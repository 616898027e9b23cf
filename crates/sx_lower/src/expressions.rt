//! The code of expressions.

ghost use Rattle.std.specs.Prelude.{◌≡◌, ◌+◌, ◌<◌, ◌≤◌, ◌++◌, ◌∷◌, [], OnOk, length};
ghost use Rattle.sx_lang.specs.View.{expression_of};
ghost use Rattle.sx_mean.specs.Sized.{AreSizedDecls};
ghost use Rattle.sx_lower.specs.Lowered.{assign_code, expression_code, is_turned, operator_code};
ghost use Rattle.sx_lower.specs.Lowered.{unary_op, variable_code};

use crate::variables::{first_value, index_of};
use std::alloc::AllocError;
use sx_ir::{Ir, IrOp};
use sx_lang::names::Name;
use sx_lang::tree::{BinOp, Decl, Expr, UnOp};
use sx_mean::offsets::{cell_at, local_at};
use sx_mean::places::{array_length, place};

/// Appends an operation. The error says that memory ran out.
pub fn put(code: &mut Vec<Ir>, op: Ir) -> Result<(), AllocError>
    ensures { OnOk result (code.new.items ≡ code.old.items ++ op ∷ []) }
{
    code.push(op)?;
    Ok(())
}

fn put_cell(code: &mut Vec<Ir>, at: u16, first: u16) -> Result<(), AllocError>
    ensures { OnOk result (code.new.items ≡ code.old.items ++ Ir.Load at ∷ Ir.Push first
        ∷ Ir.Op IrOp.Add ∷ []) }
{
    put(code, Ir::Load(at))?;
    put(code, Ir::Push(first))?;
    put(code, Ir::Op(IrOp::Add))
}

fn put_variable(
    code: &mut Vec<Ir>,
    decls: &[Decl],
    ends: usize,
    scope: &[Name],
    x: &Name,
) -> Result<(), AllocError>
    requires sized { AreSizedDecls decls.now }
    requires few { ends ≤ 16 }
    requires locals { length scope.now ≤ 16 }
    ensures { OnOk result (code.new.items ≡ code.old.items
        ++ variable_code decls.now ends scope.now x.now) }
{
    let index = index_of(scope, x);
    if index < scope.len() {
        put(code, Ir::Load(local_at(index)))
    } else {
        put_cell(code, cell_at(ends, place(decls, x)), first_value(decls, x))
    }
}

fn unary_op(op: UnOp) -> IrOp
    ensures { result ≡ unary_op op }
{
    match op {
        UnOp::Neg => IrOp::Neg,
        UnOp::Inv => IrOp::Inv,
        UnOp::Not => IrOp::Not,
    }
}

fn is_turned(op: BinOp) -> bool
    ensures { result ≡ is_turned op }
{
    match op {
        BinOp::Le => true,
        BinOp::Gt => true,
        _ => false,
    }
}

fn put_not(code: &mut Vec<Ir>, op: IrOp) -> Result<(), AllocError>
    ensures { OnOk result (code.new.items ≡ code.old.items ++ Ir.Op op ∷ Ir.Op IrOp.Not ∷ []) }
{
    put(code, Ir::Op(op))?;
    put(code, Ir::Op(IrOp::Not))
}

fn put_operator(code: &mut Vec<Ir>, op: BinOp) -> Result<(), AllocError>
    ensures { OnOk result (code.new.items ≡ code.old.items ++ operator_code op) }
{
    match op {
        BinOp::Add => put(code, Ir::Op(IrOp::Add)),
        BinOp::Sub => put(code, Ir::Op(IrOp::Sub)),
        BinOp::Or => put(code, Ir::Op(IrOp::Or)),
        BinOp::Xor => put(code, Ir::Op(IrOp::Xor)),
        BinOp::Mul => put(code, Ir::Op(IrOp::Mul)),
        BinOp::And => put(code, Ir::Op(IrOp::And)),
        BinOp::Eq => put(code, Ir::Op(IrOp::Eq)),
        BinOp::Ne => put_not(code, IrOp::Eq),
        BinOp::Lt => put(code, Ir::Op(IrOp::Lt)),
        BinOp::Le => put_not(code, IrOp::Lt),
        BinOp::Gt => put(code, Ir::Op(IrOp::Lt)),
        BinOp::Ge => put_not(code, IrOp::Lt),
    }
}

/// Appends the code of an expression, in a module with `ends` ends. The error says that memory ran
/// out.
pub fn put_expression(
    code: &mut Vec<Ir>,
    decls: &[Decl],
    ends: usize,
    scope: &[Name],
    e: &Expr,
) -> Result<(), AllocError>
    requires sized { AreSizedDecls decls.now }
    requires few { ends ≤ 16 }
    requires locals { length scope.now ≤ 16 }
    ensures { OnOk result (code.new.items ≡ code.old.items
        ++ expression_code decls.now ends scope.now (expression_of e.now)) }
{
    match e {
        Expr::Number(n) => put(code, Ir::Push(*n)),
        Expr::Read(x) => put_variable(code, decls, ends, scope, x),
        Expr::At(x, index) => {
            put_expression(code, decls, ends, scope, index)?;
            put(
                code,
                Ir::LoadAt(cell_at(ends, place(decls, x)), array_length(decls, x)),
            )
        }
        Expr::Unary(op, operand) => {
            put_expression(code, decls, ends, scope, operand)?;
            put(code, Ir::Op(unary_op(*op)))
        }
        Expr::Binary(op, left, right) => {
            if is_turned(*op) {
                put_expression(code, decls, ends, scope, right)?;
                put_expression(code, decls, ends, scope, left)?;
                put_operator(code, *op)
            } else {
                put_expression(code, decls, ends, scope, left)?;
                put_expression(code, decls, ends, scope, right)?;
                put_operator(code, *op)
            }
        }
    }
}

fn put_local(code: &mut Vec<Ir>, at: u16, first: u16) -> Result<(), AllocError>
    ensures { OnOk result (code.new.items ≡ code.old.items ++ Ir.Push first ∷ Ir.Op IrOp.Sub
        ∷ Ir.Store at ∷ []) }
{
    put(code, Ir::Push(first))?;
    put(code, Ir::Op(IrOp::Sub))?;
    put(code, Ir::Store(at))
}

/// Appends the code that takes a value off the stack and stores it in a local or a variable. The
/// error says that memory ran out.
pub fn put_assign(
    code: &mut Vec<Ir>,
    decls: &[Decl],
    ends: usize,
    scope: &[Name],
    x: &Name,
) -> Result<(), AllocError>
    requires sized { AreSizedDecls decls.now }
    requires few { ends ≤ 16 }
    requires locals { length scope.now ≤ 16 }
    ensures { OnOk result (code.new.items ≡ code.old.items
        ++ assign_code decls.now ends scope.now x.now) }
{
    let index = index_of(scope, x);
    if index < scope.len() {
        put(code, Ir::Store(local_at(index)))
    } else {
        put_local(code, cell_at(ends, place(decls, x)), first_value(decls, x))
    }
}
