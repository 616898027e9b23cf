//! The lines of what a module declares.

ghost use Rattle.std.specs.Prelude.{◌≡◌, ◌≤◌, ◌∷◌, [], ◌++◌, OnOk, codes};
ghost use Rattle.sx_mean.specs.Sized.{AreSizedDecls};
ghost use Rattle.command_text.specs.Address.{address};
ghost use Rattle.command_describe.specs.Output.{cell_place, declaration_line, each_from};

use crate::words::{put, put_address, put_number};
use std::alloc::AllocError;
use sx_lang::names::Name;
use sx_lang::tree::Decl;
use sx_mean::offsets::cell_at;
use sx_mean::places::place;
use sx_rules::Layout;

/// Appends the line of a port.
fn push_port(text: &mut Vec<u8>, kind: &[u8], owner: &[u8], name: &Name) -> Result<(), AllocError>
    ensures { OnOk result (text.new.items
        ≡ text.old.items ++ kind.now ++ owner.now ++ codes " " ++ name.now ++ 10 ∷ []) }
{
    put(text, kind, owner)?;
    put(text, b" ", name.bytes())?;
    text.extend_from_slice(b"\n")
}

/// Appends what a line says of a variable or an array, up to where it is.
fn put_cells(
    text: &mut Vec<u8>,
    kind: &[u8],
    owner: &[u8],
    name: &Name,
    at: u16,
) -> Result<(), AllocError>
    ensures { OnOk result (text.new.items ≡ text.old.items
        ++ kind.now ++ owner.now ++ codes " " ++ name.now ++ codes " at " ++ address at) }
{
    put(text, kind, owner)?;
    put(text, b" ", name.bytes())?;
    put_address(text, b" at ", at)
}

/// The address of a variable's cell, or of an array's first. It is below 65,536, since the section
/// holds it.
fn cell_place(layout: &Layout, ends: usize, decls: &[Decl], name: &Name) -> u16
    requires few { ends ≤ 16 }
    requires sized { AreSizedDecls decls.now }
    ensures { address result ≡ address (cell_place layout.now ends decls.now name.now) }
{
    layout
        .priv_from
        .wrapping_add(cell_at(ends, place(decls, name)))
}

/// Appends the line of a declaration; a device has none.
#[tactic(auto, unfolding(crate::specs::Output::declaration_line))]
fn push_declaration(
    text: &mut Vec<u8>,
    owner: &[u8],
    layout: &Layout,
    ends: usize,
    decls: &[Decl],
    declared: &Decl,
) -> Result<(), AllocError>
    requires few { ends ≤ 16 }
    requires sized { AreSizedDecls decls.now }
    ensures { OnOk result (text.new.items ≡ text.old.items
        ++ declaration_line (cell_place layout.now ends decls.now) owner.now declared.now) }
{
    match declared {
        Decl::Device(_) => Ok(()),
        Decl::Input(name) => push_port(text, b"input ", owner, name),
        Decl::Output(name) => push_port(text, b"output ", owner, name),
        Decl::Var(name, first) => {
            put_cells(
                text,
                b"var ",
                owner,
                name,
                cell_place(layout, ends, decls, name),
            )?;
            put_number(text, b" first ", *first)?;
            text.extend_from_slice(b"\n")
        }
        Decl::Array(name, length) => {
            put_cells(
                text,
                b"array ",
                owner,
                name,
                cell_place(layout, ends, decls, name),
            )?;
            put_number(text, b" length ", *length)?;
            text.extend_from_slice(b"\n")
        }
    }
}

/// Appends the lines of all that a module with this many ends declares.
pub(crate) fn push_declarations(
    text: &mut Vec<u8>,
    owner: &[u8],
    layout: &Layout,
    ends: usize,
    decls: &[Decl],
) -> Result<(), AllocError>
    requires few { ends ≤ 16 }
    requires sized { AreSizedDecls decls.now }
    ensures { OnOk result (text.new.items ≡ text.old.items ++ each_from
        (λ i. declaration_line (cell_place layout.now ends decls.now) owner.now) 0 decls.now) }
{
    for declared in decls {
        push_declaration(text, owner, layout, ends, decls, declared)?;
    }
    Ok(())
}
