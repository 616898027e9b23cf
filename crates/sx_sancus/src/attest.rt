//! The instruction by which a module has another's identity confirmed.

ghost use Rattle.std.specs.Prelude.{◌≡◌, true, ℕ, List};
ghost use Rattle.spec_machine.specs.declared.kinds.Exchange.{Exchange};
ghost use Rattle.spec_machine.specs.Given.{Given};
ghost use Rattle.spec_machine.specs.ModuleRows.{attest, answer, vouches};
ghost use Rattle.spec_machine.specs.Run.{Outcome};
ghost use Rattle.spec_machine.specs.Answers.{followed};
ghost use Rattle.sx_executor.specs.Machine.{IsPublic};
ghost use Rattle.sx_sancus.specs.Told.{ran_of, RunsRow};
ghost use Rattle.sx_sancus.specs.Parts.{given_tag, reads_public, public_of, attested_by};
ghost use Rattle.sx_sancus.specs.Parts.{answer_outcome};

use crate::access::read_block;
use crate::event::SancusEvent;
use crate::identity::attest_tag;
use spec_machine::Exchange;
use sx_bus::Bus;
use sx_executor::{Buffer, Executor};
use sx_rules::{Section, Violation};
use sx_tag::Tag;

/// Whether the tag is that by which the module `own` vouches for the other.
fn vouches<B: Bus, T: Tag>(
    executor: &Executor<B>,
    tag: &T,
    own: &Section,
    other: &Section,
    given: &[u8; 16],
) -> bool
    requires right { reads_public executor.now other.now.layout ≡ true }
    requires public { IsPublic executor.now other.now.layout }
    ensures { result ≡ vouches T.mac own.now given.now other.now
        (public_of executor.now other.now.layout) }
{
    let expected = attest_tag(executor, tag, &own.key, &other.layout);
    given.as_slice() == expected.as_slice()
}

/// Reads the 16 bytes at an address, once they were tested.
fn given_tag<B: Bus>(executor: &Executor<B>, at: u16) -> Result<[u8; 16], Violation>
    ensures { (rest : List ℕ → Outcome) → given_tag executor.now at rest ≡ followed result rest }
{
    let place = Buffer::new(at, 16)?;
    if place.meets_device(executor.windows().places()) {
        return Err(Violation::Device);
    }
    read_block(executor, place)
}

/// The id of the module whose public section holds the address, where the tag is that over its
/// identity under the key of the module `own`; else 0.
fn attested<B: Bus, T: Tag>(
    executor: &Executor<B>,
    tag: &T,
    at: u16,
    own: &Section,
    given: &[u8; 16],
) -> Result<u16, Violation>
    ensures { (g : Given) → attested_by T.mac g executor.now at own.now given.now
        ≡ followed result (answer_outcome g executor.now) }
{
    let Some(other) = executor.section(executor.holder(at)) else {
        return Ok(0);
    };
    executor.readable(Buffer::between(other.layout.pub_from, other.layout.pub_to))?;
    if vouches(executor, tag, own, &other, given) {
        Ok(other.id)
    } else {
        Ok(0)
    }
}

/// The id of the module whose public section holds the address in R9, where the bytes at R10 are
/// the tag over its identity under the key of the module `own`; else 0.
fn identified<B: Bus, T: Tag>(
    executor: &Executor<B>,
    tag: &T,
    own: &Section,
) -> Result<u16, Violation>
    ensures { (caller : ℕ) (base : List ℕ) (exchange : Exchange)
        → ran_of (λ g. attest T.mac g own.now) executor.now caller base exchange
        ≡ followed result (λ id. ran_of (λ g. answer g id) executor.now caller base exchange) }
{
    let regs = executor.regs();
    let given = given_tag(executor, regs[10])?;
    attested(executor, tag, regs[9], own, &given)
}

/// Attests as code of the module `own`. The error is the first violation: `Range`, `Device` or
/// `Read`.
pub fn attest<B: Bus, T: Tag>(
    executor: &mut Executor<B>,
    own: &Section,
    tag: &T,
    exchange: &Exchange,
) -> Result<SancusEvent, Violation>
    ensures { RunsRow (λ g. attest T.mac g own.now) executor.old exchange.now result executor.new
        exchange.now }
{
    let id = identified(executor, tag, own)?;
    executor.conclude(id);
    Ok(SancusEvent::Quiet)
}
