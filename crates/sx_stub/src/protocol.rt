//! The protocol's code as a whole.

ghost use Rattle.std.specs.Prelude.{◌≡◌, ◌<◌, ◌≤◌, All, [], IfOk, OnOk, length};
ghost use Rattle.sx_check.specs.Source.{source_tree};
ghost use Rattle.sx_lang.specs.View.{module_of};
ghost use Rattle.sx_stub.specs.Stub.{entries, entries_place, is_above_last, last_entry, stub_ops};
ghost use Rattle.sx_stub.specs.Stub.{tests};
ghost use Rattle.sx_stub.specs.Puts.{Puts, RefusesWith};
ghost use Rattle.sx_stub.specs.Stubs.{StubsTo};

use crate::answers::{ATTEST_LENGTH, put_attest};
use crate::finding::put_search;
use crate::inputs::{INPUT_LENGTH, put_input};
use crate::keys::{SET_KEY_LENGTH, put_set_key};
use crate::pieces::{put, put_jump_on, put_refuse, put_returns};
use crate::samples::{SAMPLE_PLACE, put_sample, sample_len};
use spec_invocation::protocol::{
    ATTEST_ENTRY, BAD_WINDOW, ENTRY_REGISTER, IN_WINDOW_SIZE, INPUT_ENTRY, INPUT_REGISTER, NO_END,
    NO_ENTRY, OUT_WINDOW_SIZE, OUTPUT_REGISTER, SAMPLE_ENTRY, SET_KEY_ENTRY,
};
use std::alloc::{AllocError, Global};
use sx_check::checked::Checked;
use sx_ir::{Code, Ir, IrOp};
use sx_lang::tree::{DeviceKind, Module};
use sx_mean::apps::declared_kind;
use sx_mean::events::End;
use sx_rules::Layout;
use sx_tag::Tag;

fn last_entry(tree: &Module) -> u16
    ensures { result ≡ last_entry (module_of tree.now) }
{
    match declared_kind(&tree.decls) {
        Some(DeviceKind::Sensor) => SAMPLE_ENTRY,
        _ => INPUT_ENTRY,
    }
}

fn put_entry_test(code: &mut Vec<Ir>, tree: &Module) -> Result<(), AllocError>
    requires short { length code.old.items < 60000 }
    ensures { OnOk result (RefusesWith (is_above_last (module_of tree.now)) 2 code.old.items
        code.new.items) }
{
    let test = [
        Ir::Push(last_entry(tree)),
        Ir::Saved(ENTRY_REGISTER),
        Ir::Op(IrOp::Lt),
    ];
    put_refuse(code, &test, NO_ENTRY)
}

fn put_tests(code: &mut Vec<Ir>, tree: &Module) -> Result<(), AllocError>
    requires empty { code.old.items ≡ [] }
    ensures { OnOk result (code.new.items ≡ tests (module_of tree.now)) }
{
    put(code, Ir::Inside)?;
    put_entry_test(code, tree)?;
    put_refuse(
        code,
        &[Ir::Meets(INPUT_REGISTER, IN_WINDOW_SIZE)],
        BAD_WINDOW,
    )?;
    put_refuse(
        code,
        &[Ir::Meets(OUTPUT_REGISTER, OUT_WINDOW_SIZE)],
        BAD_WINDOW,
    )
}

fn put_entries(code: &mut Vec<Ir>, tree: &Module, ends: &[End]) -> Result<(), AllocError>
    requires here { length code.old.items ≡ entries_place }
    requires few { length tree.now.handlers.items ≤ 256 }
    requires ends { length ends.now ≤ 16 }
    ensures { OnOk result (Puts (entries (module_of tree.now) ends.now) code.old.items
        code.new.items) }
{
    let set_key = SAMPLE_PLACE + sample_len(tree);
    let attest = set_key + SET_KEY_LENGTH;
    let input = attest + ATTEST_LENGTH;
    let search = input + INPUT_LENGTH;
    put_jump_on(code, INPUT_ENTRY, input)?;
    put_jump_on(code, SET_KEY_ENTRY, set_key)?;
    put_jump_on(code, ATTEST_ENTRY, attest)?;
    put_sample(code, tree)?;
    put_set_key(code, search)?;
    put_attest(code)?;
    put_input(code)?;
    put_search(code, tree, ends)
}

fn put_stub(code: &mut Vec<Ir>, tree: &Module, ends: &[End]) -> Result<(), AllocError>
    requires empty { code.old.items ≡ [] }
    requires few { length tree.now.handlers.items ≤ 256 }
    requires ends { length ends.now ≤ 16 }
    ensures { OnOk result (code.new.items ≡ stub_ops (module_of tree.now) ends.now) }
{
    put_tests(code, tree)?;
    put_entries(code, tree, ends)?;
    put_returns(code, NO_END)
}

fn ops_of(alloc: Global, m: &Checked, ends: &[End]) -> Result<Vec<Ir>, AllocError>
    requires ends { length ends.now ≤ 16 }
    ensures { IfOk result (λ ops. ops.items ≡ stub_ops (source_tree m.now) ends.now) }
{
    let mut code = Vec::new(alloc);
    put_stub(&mut code, m.module(), ends)?;
    Ok(code)
}

fn link_fits(e: &End)
    ensures { e.now.link < 256 }
{
    let _link = e.link;
}

/// The number of each connection is a byte, as its type says. It does nothing, and is called for
/// what it says.
pub fn links_fit(ends: &[End])
    ensures { All (λ e. e.link < 256) ends.now }
{
    for e in ends {
        link_fits(e);
    }
}

/// The stack code of a module's entry protocol, where it has these ends of connections, 16 at most.
/// Its `Handler`s name the module's handlers by their places; it has at most 1,024 operations, and
/// no parts of its own. It fails only where memory runs out. The code is the same for every tag and
/// every layout, which are taken as by `sx_tmpl::emit`.
pub fn stub<T: Tag>(
    alloc: Global,
    _tag: &T,
    m: &Checked,
    ends: &[End],
    _layout: &Layout,
) -> Result<Code, AllocError>
    requires few { length ends.now ≤ 16 }
    ensures { IfOk result (StubsTo (source_tree m.now) ends.now) }
{
    links_fit(ends);
    let ops = ops_of(alloc, m, ends)?;
    Ok(Code {
        ops,
        parts: Vec::new(alloc),
    })
}
