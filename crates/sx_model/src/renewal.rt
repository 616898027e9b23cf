//! Whether a module may be attested, and the connections' epochs after the attestation.

ghost use Rattle.std.specs.Prelude.{◌≡◌, ◌+◌, ◌<◌, ◌&&◌, IfOk, false, if◌then◌else◌};
ghost use Rattle.std.specs.Prelude.{nat_le, true};
ghost use Rattle.sx_model.specs.Renewal.{is_of, is_spent, may_attest, raised_epochs, renewed};

use std::alloc::{AllocError, Global};
use sx_mean::apps::Link;

fn is_of(m: u8, link: &Link) -> bool
    ensures { result ≡ is_of m link.now }
{
    link.from == m || link.to == m
}

/// Whether an epoch is to be raised, and is the last.
fn is_last(epoch: u8, is_raised: bool) -> bool
    ensures { result ≡ (is_raised && nat_le 255 epoch) }
{
    is_raised && epoch == 255
}

#[tactic(auto, using(crate::proofs::Paired::spent_end))]
fn is_spent(m: u8, links: &[Link], epochs: &[u8]) -> bool
    ensures { result ≡ is_spent m links.now epochs.now }
{
    for at in 0..links.len().min(epochs.len()) {
        if is_last(epochs[at], is_of(m, &links[at])) {
            return true;
        }
    }
    false
}

/// Whether a module that was last attested at a boot, if any, may be attested at this one.
pub(crate) fn may_attest(m: u8, links: &[Link], epochs: &[u8], last: Option<u32>, boot: u32) -> bool
    ensures { result ≡ may_attest m links.now epochs.now last boot }
{
    match last {
        None => true,
        Some(last) => last < boot && !is_spent(m, links, epochs),
    }
}

fn next_epoch(epoch: u8, is_raised: bool) -> u8
    requires { (is_raised && nat_le 255 epoch) ≡ false }
    ensures { result ≡ (if is_raised then epoch + 1 else epoch) }
{
    if is_raised { epoch + 1 } else { epoch }
}

#[tactic(auto, using(crate::proofs::Paired::raised_end))]
fn raise(m: u8, links: &[Link], epochs: &mut [u8])
    requires { is_spent m links.now epochs.old ≡ false }
    ensures { epochs.new ≡ raised_epochs m links.now epochs.old }
{
    for at in 0..links.len().min(epochs.len()) {
        epochs[at] = next_epoch(epochs[at], is_of(m, &links[at]));
    }
}

/// The epochs after an attestation of a module that was last attested at a boot, if any.
pub(crate) fn renewed(
    alloc: Global,
    m: u8,
    links: &[Link],
    last: Option<u32>,
    boot: u32,
    epochs: &[u8],
) -> Result<Vec<u8>, AllocError>
    requires { may_attest m links.now epochs.now last boot ≡ true }
    ensures { IfOk result (λ next. next.items ≡ renewed m links.now last epochs.now) }
{
    let mut next = Vec::from_slice(alloc, epochs)?;
    if last.is_some() {
        raise(m, links, &mut next);
    }
    Ok(next)
}
