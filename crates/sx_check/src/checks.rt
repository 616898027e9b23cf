//! The test of a module by the rules, in their order.

ghost use Rattle.std.specs.Prelude.{◌≡◌, None, Some, IfErr, IfOk};
ghost use Rattle.std.specs.List.{find};
ghost use Rattle.sx_lang.specs.View.{module_of};
ghost use Rattle.sx_check.specs.Rules.{breaks, first_broken};
ghost use Rattle.sx_check.specs.Source.{source, source_tree};

use crate::bounds::{
    breaks_cells, breaks_cost, breaks_depth, breaks_locals, breaks_nodes, breaks_packets,
    breaks_repeat,
};
use crate::checked::Checked;
use crate::indexed::Declared;
use crate::locals::breaks_duplicate;
use crate::rules::{RULES, Rule};
use crate::uses::{breaks_kind, breaks_unknown};
use sx_lang::tree::Module;

impl Checked {
    /// The module itself.
    pub fn module(&self) -> &Module
        ensures tree { result.now ≡ source self.now }
        ensures keeps { first_broken (source_tree self.now) ≡ None }
    {
        &self.tree
    }
}

#[tactic(auto, unfolding(crate::specs::Rules::breaks))]
fn is_broken(rule: Rule, m: &Module, decls: &Declared<'_>) -> bool
    requires { decls.now ≡ m.now.decls.items }
    ensures { result ≡ breaks (module_of m.now) rule }
{
    match rule {
        Rule::Duplicate => breaks_duplicate(m, decls),
        Rule::Unknown => breaks_unknown(m, decls),
        Rule::Kind => breaks_kind(m, decls),
        Rule::Depth => breaks_depth(m),
        Rule::Locals => breaks_locals(m),
        Rule::Repeat => breaks_repeat(m),
        Rule::Packets => breaks_packets(m),
        Rule::Cost => breaks_cost(m),
        Rule::Nodes => breaks_nodes(m),
        Rule::Cells => breaks_cells(m),
    }
}

fn first_in(rules: &[Rule], m: &Module, decls: &Declared<'_>) -> Option<Rule>
    requires { decls.now ≡ m.now.decls.items }
    ensures { result ≡ find (breaks (module_of m.now)) rules.now }
{
    for rule in rules {
        if is_broken(*rule, m, decls) {
            return Some(*rule);
        }
    }
    None
}

fn first_broken(m: &Module) -> Option<Rule>
    ensures { result ≡ first_broken (module_of m.now) }
{
    let decls = Declared::new(*m.decls.allocator(), &m.decls);
    first_in(&RULES, m, &decls)
}

/// The module, checked; or the first of the rules that it breaks, with the module unchanged. It
/// needs no memory: many names are found by an index, and without memory for one by looking at each.
pub fn check(m: Module) -> Result<Checked, (Rule, Module)>
    ensures checked { IfOk result (λ c. (source c ≡ m)) }
    ensures keeps { IfOk result (λ c. first_broken (module_of m) ≡ None) }
    ensures broken { IfErr result (λ e. first_broken (module_of m) ≡ Some e.0) }
    ensures back { IfErr result (λ e. e.1 ≡ m) }
{
    match first_broken(&m) {
        None => Ok(Checked { tree: m }),
        Some(rule) => Err((rule, m)),
    }
}
