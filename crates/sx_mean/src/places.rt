//! The cells and outputs that a module's names stand for.

ghost use Rattle.std.specs.Prelude.{◌≡◌, ◌+◌, ◌≤◌};
ghost use Rattle.sx_lang.specs.Sizes.{declaration_cells};
ghost use Rattle.sx_check.specs.Names.{declares};
ghost use Rattle.sx_mean.specs.Places.{array_length, outputs_in, output_number, own_length, place};
ghost use Rattle.sx_mean.specs.Sized.{AreSizedDecls};

use sx_lang::names::Name;
use sx_lang::tree::Decl;

fn is_of(d: &Decl, x: &Name) -> bool
    ensures { result ≡ declares x.now d.now }
{
    match d {
        Decl::Device(_) => false,
        Decl::Input(y) | Decl::Output(y) | Decl::Var(y, _) | Decl::Array(y, _) => x == y,
    }
}

fn cells_of(d: &Decl) -> usize
    ensures { result ≡ declaration_cells d.now }
{
    match d {
        Decl::Device(_) | Decl::Input(_) | Decl::Output(_) => 0,
        Decl::Var(_, _) => 1,
        Decl::Array(_, length) => usize::from(*length),
    }
}

/// The place of the name's first cell.
pub fn place(decls: &[Decl], x: &Name) -> usize
    requires { AreSizedDecls decls.now }
    ensures place { result ≡ place decls.now x.now }
    ensures small { result ≤ 1024 }
{
    let mut before = 0;
    for d in decls {
        if is_of(d, x) {
            return before;
        }
        before += cells_of(d);
    }
    before
}

fn length_of(d: &Decl, x: &Name) -> u16
    ensures { result ≡ own_length x.now d.now }
{
    match d {
        Decl::Array(y, length) if x == y => *length,
        _ => 0,
    }
}

/// The length of the array of this name.
pub fn array_length(decls: &[Decl], x: &Name) -> u16
    ensures { result ≡ array_length decls.now x.now }
{
    for d in decls {
        if is_of(d, x) {
            return length_of(d, x);
        }
    }
    0
}

fn outputs_of(d: &Decl) -> u8
    ensures { result ≡ outputs_in d.now }
{
    match d {
        Decl::Output(_) => 1,
        Decl::Device(_) | Decl::Input(_) | Decl::Var(_, _) | Decl::Array(_, _) => 0,
    }
}

/// The number of the output of this name.
pub fn output_number(decls: &[Decl], x: &Name) -> u8
    requires { AreSizedDecls decls.now }
    ensures { result ≡ output_number decls.now x.now }
{
    let mut before: u8 = 0;
    for d in decls {
        if is_of(d, x) {
            return before;
        }
        before += outputs_of(d);
    }
    before
}
