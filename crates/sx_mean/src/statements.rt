//! What statements do to locals, cells and acts.

ghost use Rattle.std.specs.Prelude.{◌≡◌, ◌<◌, OnOk, length, slice_set};
ghost use Rattle.sx_lang.specs.View.{block_of, statement_of};
ghost use Rattle.sx_mean.specs.Meaning.{act, after_statement, assign, assign_element, define};
ghost use Rattle.sx_mean.specs.Meaning.{in_block, local_place, new_local, times};
ghost use Rattle.sx_mean.specs.Sized.{AreSizedDecls};
ghost use Rattle.sx_mean.specs.View.{state_of};

use crate::events::Act;
use crate::expressions::evaluate;
use crate::moments::{Local, Moment};
use crate::places::{array_length, output_number, place};
use std::alloc::AllocError;
use sx_lang::names::Name;
use sx_lang::tree::{Decl, Stmt};

fn local_place(locals: &[Local], x: &Name) -> usize
    ensures { result ≡ local_place locals.now x.now }
{
    let mut before = 0;
    for l in locals {
        if *x == l.name {
            return before;
        }
        before += 1;
    }
    before
}

fn define(moment: &mut Moment, x: &Name, value: u16) -> Result<(), AllocError>
    ensures { OnOk result (state_of moment.new ≡ define x.now value (state_of moment.old)) }
{
    moment.locals.push(Local { name: *x, value })?;
    Ok(())
}

fn set_cell(cells: &mut [u16], at: usize, value: u16)
    ensures { cells.new ≡ slice_set cells.old at value }
{
    if at < cells.len() {
        cells[at] = value;
    }
}

fn set_local(locals: &mut [Local], at: usize, x: &Name, value: u16)
    requires { at < length locals.old }
    ensures { locals.new ≡ slice_set locals.old at (new_local x.now value) }
{
    locals[at] = Local { name: *x, value };
}

fn assign(decls: &[Decl], moment: &mut Moment, x: &Name, value: u16)
    requires { AreSizedDecls decls.now }
    ensures { state_of moment.new ≡ assign decls.now x.now value (state_of moment.old) }
{
    let at = local_place(&moment.locals, x);
    if at < moment.locals.len() {
        set_local(&mut moment.locals, at, x, value);
    } else {
        set_cell(&mut moment.cells, place(decls, x), value);
    }
}

fn assign_element(decls: &[Decl], moment: &mut Moment, x: &Name, index: u16, value: u16)
    requires { AreSizedDecls decls.now }
    ensures { state_of moment.new ≡ assign_element decls.now x.now index value
        (state_of moment.old) }
{
    if index < array_length(decls, x) {
        set_cell(
            &mut moment.cells,
            place(decls, x) + usize::from(index),
            value,
        );
    }
}

fn perform(moment: &mut Moment, done: Act) -> Result<(), AllocError>
    ensures { OnOk result (state_of moment.new ≡ act done (state_of moment.old)) }
{
    moment.acts.push(done)?;
    Ok(())
}

#[cycle(run)]
fn run_statement(decls: &[Decl], s: &Stmt, moment: &mut Moment) -> Result<(), AllocError>
    requires { AreSizedDecls decls.now }
    ensures { OnOk result (state_of moment.new ≡ after_statement decls.now (statement_of s.now)
        (state_of moment.old)) }
{
    match s {
        Stmt::Let(x, e) => {
            let value = evaluate(decls, moment, e);
            define(moment, x, value)
        }
        Stmt::Assign(x, e) => {
            let value = evaluate(decls, moment, e);
            assign(decls, moment, x, value);
            Ok(())
        }
        Stmt::Element(x, index, e) => {
            let index = evaluate(decls, moment, index);
            let value = evaluate(decls, moment, e);
            assign_element(decls, moment, x, index, value);
            Ok(())
        }
        Stmt::If(e, then, otherwise) => {
            if evaluate(decls, moment, e) != 0 {
                run_block(decls, then, moment)?;
                Ok(())
            } else {
                run_block(decls, otherwise, moment)?;
                Ok(())
            }
        }
        Stmt::Repeat(n, body) => run_turns(decls, *n, body, moment),
        Stmt::Send(x, e) => {
            let value = evaluate(decls, moment, e);
            perform(moment, Act::Send(output_number(decls, x), value))
        }
        Stmt::Emit(e) => {
            let value = evaluate(decls, moment, e);
            perform(moment, Act::Emit(value))
        }
    }
}

/// Runs a block so many times.
#[cycle(run)]
fn run_turns(
    decls: &[Decl],
    turns: u16,
    body: &Vec<Stmt>,
    moment: &mut Moment,
) -> Result<(), AllocError>
    requires { AreSizedDecls decls.now }
    ensures { OnOk result (state_of moment.new
        ≡ times turns (λ st. in_block decls.now (block_of body.now.items) st)
        (state_of moment.old)) }
{
    for _turn in 0..turns {
        run_block(decls, body, moment)?;
    }
    Ok(())
}

/// Runs a block, and drops its locals. The error says that memory ran out.
#[cycle(run)]
pub fn run_block(decls: &[Decl], block: &Vec<Stmt>, moment: &mut Moment) -> Result<(), AllocError>
    requires { AreSizedDecls decls.now }
    ensures { OnOk result (state_of moment.new ≡ in_block decls.now (block_of block.now.items)
        (state_of moment.old)) }
{
    let outer = moment.locals.len();
    for s in block {
        run_statement(decls, s, moment)?;
    }
    moment.locals.truncate(outer);
    Ok(())
}
