//! The ends of connections that a part of an application holds.

ghost use Rattle.std.specs.Prelude.{◌≡◌, ◌+◌, ◌≤◌, ◌++◌, IfOk, OnOk, length};
ghost use Rattle.std.specs.Option.{option_to_list};
ghost use Rattle.sx_mean.specs.Ends.{ends_after, receiving, sending};

use crate::apps::Link;
use crate::events::{End, Ends};
use smallvec::SmallVec;
use std::alloc::{AllocError, Global};
use sx_lang::sides::Side;

/// The sending end of the connection of this number, where the part of this index holds it.
pub fn sending(number: u8, part: u8, link: &Link) -> Option<End>
    ensures { result ≡ sending number part link.now }
{
    if link.from == part {
        Some(End {
            link: number,
            side: Side::From,
            port: link.output,
        })
    } else {
        None
    }
}

/// The receiving end of the connection of this number, where the part of this index holds it.
pub fn receiving(number: u8, part: u8, link: &Link) -> Option<End>
    ensures { result ≡ receiving number part link.now }
{
    if link.to == part {
        Some(End {
            link: number,
            side: Side::To,
            port: link.input,
        })
    } else {
        None
    }
}

/// Adds an end, where there is one.
fn add_end(ends: &mut Ends, end: Option<End>) -> Result<(), AllocError>
    ensures { OnOk result (ends.new.items ≡ ends.old.items ++ option_to_list «end») }
{
    match end {
        Some(end) => {
            ends.push(end)?;
            Ok(())
        }
        None => Ok(()),
    }
}

/// The ends that the part of this index holds, in connection order, the sending end before the
/// receiving one. The error says that memory ran out.
#[tactic(auto, using(crate::proofs::LinkEnds::both_ends))]
pub fn ends_of(alloc: Global, links: &[Link], part: u8) -> Result<Ends, AllocError>
    requires { length links.now ≤ 256 }
    ensures { IfOk result (λ ends. ends.items ≡ ends_after 0 part links.now) }
{
    let mut ends = SmallVec::new(alloc);
    for n in 0..links.len() {
        let link = &links[n];
        add_end(&mut ends, sending(n as u8, part, link))?;
        add_end(&mut ends, receiving(n as u8, part, link))?;
    }
    Ok(ends)
}
