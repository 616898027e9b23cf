//! The lines of modules.

ghost use Rattle.std.specs.Prelude.{◌≡◌, ◌≤◌, ◌++◌, OnOk, Some, length, slice_get};
ghost use Rattle.sx_check.specs.Source.{source_tree};
ghost use Rattle.sx_lang.specs.Sizes.{module_cost, module_weight};
ghost use Rattle.sx_mean.specs.Ends.{ends_of};
ghost use Rattle.sx_mean.specs.View.{part_as};
ghost use Rattle.sx_deploy.specs.Law.{IsSoundDeployment};
ghost use Rattle.sx_deploy.specs.SeenDeployment.{deployed_as};
ghost use Rattle.command_describe.specs.Output.{module_line, modules_from, part_lines};
ghost use Rattle.command_describe.specs.Output.{bounds_words, sizes_words};

use crate::declarations::push_declarations;
use crate::slots::push_slots;
use crate::words::{number_at, put, put_address, put_number};
use std::alloc::{AllocError, Global};
use sx_check::checked::Checked;
use sx_deploy::deployment::Deployment;
use sx_lang::sizes::{cost, weight};
use sx_mean::apps::Part;
use sx_mean::connections::ends_of;
use sx_mean::events::End;
use sx_rules::Layout;
use sx_trace::writing::name_at;

fn weight_of(code: &Checked, ends: usize) -> u64
    requires { ends ≤ 16 }
    ensures { result ≡ module_weight (source_tree code.now) ends }
{
    weight(code.module(), ends as u8)
}

fn cost_of(code: &Checked) -> u64
    ensures { result ≡ module_cost (source_tree code.now) }
{
    cost(code.module())
}

/// Appends the bounds of a section.
#[tactic(auto, unfolding(crate::specs::Output::bounds_words))]
fn put_bounds(text: &mut Vec<u8>, from: u16, to: u16) -> Result<(), AllocError>
    ensures { OnOk result (text.new.items ≡ text.old.items ++ bounds_words from to) }
{
    put_address(text, b" ", from)?;
    put_address(text, b" ", to)
}

/// Appends the sizes of a module that has this many ends.
#[tactic(auto, unfolding(crate::specs::Output::sizes_words))]
fn put_sizes(text: &mut Vec<u8>, code: &Checked, ends: usize) -> Result<(), AllocError>
    requires { ends ≤ 16 }
    ensures { OnOk result
        (text.new.items ≡ text.old.items ++ sizes_words (source_tree code.now) ends) }
{
    put_number(text, b" weight ", weight_of(code, ends))?;
    put_number(text, b" cost ", cost_of(code))
}

/// Appends the line of a module that has this many ends.
#[tactic(auto, unfolding(crate::specs::Output::module_line))]
fn push_module(
    text: &mut Vec<u8>,
    deployment: &Deployment,
    number: u8,
    part: &Part,
    layout: &Layout,
    ends: usize,
) -> Result<(), AllocError>
    requires { ends ≤ 16 }
    ensures { OnOk result (text.new.items ≡ text.old.items
        ++ module_line (deployed_as deployment.now) number (part_as part.now) layout.now ends) }
{
    let names = &deployment.names;
    let provider = number_at(&deployment.providers, number);
    put(text, b"module ", name_at(&names.modules, number))?;
    put(text, b" node ", name_at(&names.nodes, part.node))?;
    put_number(text, b" provider ", provider)?;
    text.extend_from_slice(b" text")?;
    put_bounds(text, layout.pub_from, layout.pub_to)?;
    text.extend_from_slice(b" data")?;
    put_bounds(text, layout.priv_from, layout.priv_to)?;
    put_sizes(text, &part.code, ends)?;
    text.extend_from_slice(b"\n")
}

/// Appends the lines of a module with these ends.
fn push_lines(
    text: &mut Vec<u8>,
    deployment: &Deployment,
    number: u8,
    part: &Part,
    layout: &Layout,
    ends: &[End],
) -> Result<(), AllocError>
    requires few { length ends.now ≤ 16 }
    requires ends { ends.now ≡ ends_of (deployed_as deployment.now).app number }
    ensures { OnOk result (text.new.items ≡ text.old.items
        ++ part_lines (deployed_as deployment.now) number (part_as part.now) layout.now) }
{
    let owner = name_at(&deployment.names.modules, number);
    let decls = &part.code.module().decls;
    push_module(text, deployment, number, part, layout, ends.len())?;
    push_declarations(text, owner, layout, ends.len(), decls)?;
    push_slots(text, deployment, number, layout, ends)
}

/// Appends the lines of the module of this number.
fn push_part(
    text: &mut Vec<u8>,
    alloc: Global,
    deployment: &Deployment,
    number: u8,
    part: &Part,
    layout: &Layout,
) -> Result<(), AllocError>
    requires sound { IsSoundDeployment (deployed_as deployment.now) }
    requires part { slice_get deployment.now.app.parts.items number ≡ Some part.now }
    ensures { OnOk result (text.new.items ≡ text.old.items
        ++ part_lines (deployed_as deployment.now) number (part_as part.now) layout.now) }
{
    let ends = ends_of(alloc, &deployment.app.links, number)?;
    push_lines(text, deployment, number, part, layout, &ends)
}

/// Appends the lines of all modules.
pub(crate) fn push_modules(
    text: &mut Vec<u8>,
    alloc: Global,
    deployment: &Deployment,
) -> Result<(), AllocError>
    requires { IsSoundDeployment (deployed_as deployment.now) }
    ensures { let d = deployed_as deployment.now in OnOk result
        (text.new.items ≡ text.old.items ++ modules_from d 0 d.app.parts d.layouts) }
{
    let parts = &deployment.app.parts;
    let layouts = &deployment.layouts;
    let mut i = 0;
    'modules: while i < parts.len() && i < layouts.len() {
        push_part(text, alloc, deployment, i as u8, &parts[i], &layouts[i])?;
        i += 1;
    }
    Ok(())
}
