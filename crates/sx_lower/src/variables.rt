//! Locals in scope, and the first values of cells.

ghost use Rattle.std.specs.Prelude.{◌≡◌};
ghost use Rattle.sx_check.specs.Names.{declares};
ghost use Rattle.sx_mean.specs.Scope.{index_of};
ghost use Rattle.sx_mean.specs.Variables.{first_value, own_value};

use sx_lang::names::Name;
use sx_lang::tree::Decl;

fn is_of(d: &Decl, x: &Name) -> bool
    ensures { result ≡ declares x.now d.now }
{
    match d {
        Decl::Device(_) => false,
        Decl::Input(y) | Decl::Output(y) | Decl::Var(y, _) | Decl::Array(y, _) => x == y,
    }
}

fn value_of(d: &Decl) -> u16
    ensures { result ≡ own_value d.now }
{
    match d {
        Decl::Var(_, value) => *value,
        Decl::Device(_) | Decl::Input(_) | Decl::Output(_) | Decl::Array(_, _) => 0,
    }
}

/// The value that the name's first cell begins with.
pub fn first_value(decls: &[Decl], x: &Name) -> u16
    ensures { result ≡ first_value decls.now x.now }
{
    for d in decls {
        if is_of(d, x) {
            return value_of(d);
        }
    }
    0
}

/// The index of the name among the locals in scope.
pub fn index_of(scope: &[Name], x: &Name) -> usize
    ensures { result ≡ index_of scope.now x.now }
{
    let mut before = 0;
    for y in scope {
        if x == y {
            return before;
        }
        before += 1;
    }
    before
}
