//! The ports of modules, by their names.

ghost use Rattle.std.specs.Prelude.{◌≡◌, map, option_copied};
ghost use Rattle.sx_mean.specs.View.{part_as};
ghost use Rattle.sx_trace.specs.Items.{name_at, side_word};
ghost use Rattle.sx_deploy.specs.Ties.{port_in, port_names};
ghost use Rattle.command_describe.specs.Output.{declared_by, port_word};

use sx_lang::names::Name;
use sx_lang::sides::Side;
use sx_lang::tree::Decl;
use sx_mean::apps::Part;

/// The word of a side.
pub(crate) fn side_word(side: Side) -> &'static [u8]
    ensures { result.now ≡ side_word side }
{
    match side {
        Side::From => b"from",
        Side::To => b"to",
    }
}

/// The name of the output that is declared, or of the input.
fn port_in(output: bool, declared: &Decl) -> Option<&Name>
    ensures { option_copied result ≡ port_in output declared.now }
{
    match declared {
        Decl::Input(name) => { if output { None } else { Some(name) } }
        Decl::Output(name) => { if output { Some(name) } else { None } }
        Decl::Device(_) | Decl::Var(_, _) | Decl::Array(_, _) => None,
    }
}

/// The name of the output of this number, or of the input.
fn port_named(output: bool, decls: &[Decl], port: u8) -> &[u8]
    ensures { result.now ≡ name_at (port_names output decls.now) port }
{
    let mut left = port;
    for declared in decls {
        if let Some(name) = port_in(output, declared) {
            if left == 0 {
                return name.bytes();
            }
            left -= 1;
        }
    }
    b""
}

/// What the module of this index declares.
fn declared_by(parts: &[Part], part: u8) -> &[Decl]
    ensures { result.now ≡ declared_by (map part_as parts.now) part }
{
    match parts.get(usize::from(part)) {
        Some(part) => &part.code.module().decls,
        None => &[],
    }
}

/// The name of a module's port: of an output if it is on the sending side.
#[tactic(auto, unfolding(crate::specs::Output::port_word))]
pub(crate) fn port_word(parts: &[Part], side: Side, part: u8, port: u8) -> &[u8]
    ensures { result.now ≡ port_word (map part_as parts.now) side part port }
{
    match side {
        Side::From => port_named(true, declared_by(parts, part), port),
        Side::To => port_named(false, declared_by(parts, part), port),
    }
}
