//! What was printed is parsed to the module that was printed.

ghost use Rattle.std.specs.Prelude.{◌≡◌, MatchResult, true};
ghost use Rattle.sx_lang.specs.View.{module_of};
ghost use Rattle.sx_print.specs.Printable.{is_printable};
ghost use Rattle.sx_parse.specs.declared.error.ParseError.TheVariants.{OutOfMemory};

use crate::error::ParseError;
use crate::parse::parse;
use std::alloc::Global;
use sx_lang::tree::Module;
use sx_print::printing::print;

/// Prints the module and parses the text. It is the same module again; the error says that memory
/// ran out.
pub fn reread(alloc: Global, m: &Module) -> Result<Module, ParseError>
    requires { is_printable (module_of m.now) ≡ true }
    ensures { MatchResult result (λ n. module_of n ≡ module_of m.now) (λ e. e ≡ OutOfMemory) }
{
    let text = print(alloc, m)?;
    parse(alloc, text.as_str())
}
