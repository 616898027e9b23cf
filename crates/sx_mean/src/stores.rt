//! The words that a module keeps between events.

ghost use Rattle.std.specs.Prelude.{◌≡◌, ◌++◌, IfOk, OnOk, replicate};
ghost use Rattle.sx_check.specs.Source.{source_tree};
ghost use Rattle.sx_mean.specs.Places.{first_cells, initial_cells};

use std::alloc::{AllocError, Global};
use sx_check::checked::Checked;
use sx_lang::tree::Decl;

/// The words that a module keeps between events: one for each variable and one for each element of
/// an array, in order of declaration.
#[derive(Drop)]
pub struct Store {
    /// The words in that order.
    pub cells: Vec<u16>,
}

fn push_zeros(cells: &mut Vec<u16>, count: u16) -> Result<(), AllocError>
    ensures { OnOk result (cells.new.items ≡ cells.old.items ++ replicate count 0) }
{
    for _cell in 0..count {
        cells.push(0)?;
    }
    Ok(())
}

fn push_cells(cells: &mut Vec<u16>, d: &Decl) -> Result<(), AllocError>
    ensures { OnOk result (cells.new.items ≡ cells.old.items ++ first_cells d.now) }
{
    match d {
        Decl::Device(_) | Decl::Input(_) | Decl::Output(_) => Ok(()),
        Decl::Var(_, value) => {
            cells.push(*value)?;
            Ok(())
        }
        Decl::Array(_, length) => {
            push_zeros(cells, *length)?;
            Ok(())
        }
    }
}

fn cells_of(alloc: Global, decls: &[Decl]) -> Result<Vec<u16>, AllocError>
    ensures { IfOk result (λ cells. cells.items ≡ initial_cells decls.now) }
{
    let mut cells = Vec::new(alloc);
    for d in decls {
        push_cells(&mut cells, d)?;
    }
    Ok(cells)
}

impl Store {
    /// The cells with their first values: a variable's own, and 0 for an array's elements. The
    /// error says that memory ran out.
    pub fn initial(alloc: Global, m: &Checked) -> Result<Store, AllocError>
        ensures { IfOk result (λ s. s.cells.items ≡ initial_cells (source_tree m.now).decls) }
    {
        let cells = cells_of(alloc, &m.module().decls)?;
        Ok(Store { cells })
    }
}
