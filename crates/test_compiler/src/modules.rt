//! Small modules, and whether they can be lowered.

ghost use Rattle.std.specs.Prelude.{◌≡◌, ℕ, IfOk, IsTrue};
ghost use Rattle.sx_check.specs.Source.{source_tree};
ghost use Rattle.sx_mean.specs.Application.{leaves, links_from};
ghost use Rattle.sx_mean.specs.Ends.{is_sending};
ghost use Rattle.sx_mean.specs.EndLaws.{senders};
ghost use Rattle.sx_lower.specs.Lowering.{SendFew};

use std::alloc::{AllocError, Global};
use std::test::Fail;
use sx_check::checked::Checked;
use sx_check::checks::check;
use sx_lang::sides::Side;
use sx_mean::apps::{Link, sends_too_much};
use sx_mean::events::End;
use sx_parse::parse::parse;

#[derive(Debug, Drop)]
pub(crate) struct NotMade;

pub(crate) const EYE: &str = "sensor; output level; sample(v) { send level(v); }";

pub(crate) const LOGIC: &str = "input level; output bright; var limit = 100; \
    on level(v) { if v > limit { send bright(1); } else { send bright(0); } }";

/// The module of a text that keeps the rules.
pub(crate) fn checked(alloc: Global, text: &str) -> Result<Checked, Fail> {
    match check(parse(alloc, text)?) {
        Ok(checked) => Ok(checked),
        Err(_) => Err(NotMade.into()),
    }
}

pub(crate) fn end(link: u8, side: Side) -> End {
    End {
        link,
        side,
        port: 0,
    }
}

/// A connection of the part 0 that stands for an end.
fn link_of(e: &End) -> Link
    ensures { (o : ℕ) → leaves 0 o result ≡ is_sending o e.now.side e.now.port }
{
    match e.side {
        Side::From => Link {
            from: 0,
            output: e.port,
            to: 1,
            input: 0,
        },
        Side::To => Link {
            from: 1,
            output: 0,
            to: 0,
            input: e.port,
        },
    }
}

pub(crate) fn links_of(alloc: Global, ends: &[End]) -> Result<Vec<Link>, AllocError>
    ensures { IfOk result (λ links. (o : ℕ) → links_from links.items 0 o ≡ senders ends.now o) }
{
    let mut links = Vec::new(alloc);
    for e in ends {
        links.push(link_of(e))?;
    }
    Ok(links)
}

/// Whether no handler makes more packets than a module may.
pub(crate) fn sends_few(m: &Checked, links: &[Link], ends: &[End]) -> bool
    requires { (o : ℕ) → links_from links.now 0 o ≡ senders ends.now o }
    ensures { IsTrue result → SendFew (senders ends.now) (source_tree m.now)
        (source_tree m.now).handlers }
{
    !sends_too_much(links, 0, m.module())
}
