//! A module that keeps all ten rules.

ghost use Rattle.std.specs.Prelude.{◌≡◌, None};
ghost use Rattle.sx_lang.specs.View.{module_of};
ghost use Rattle.sx_check.specs.Rules.{first_broken};

use sx_lang::tree::Module;

/// A module that keeps all rules.
#[derive(Drop)]
pub struct Checked {
    pub(crate) tree: Module,
    ghost keeps: { first_broken (module_of tree) ≡ None },
}
