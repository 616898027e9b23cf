//! Whether a module may be attested, and the epochs after the attestation.

ghost use Rattle.std.specs.Prelude.{◌≡◌, ◌+◌, ◌<◌, true, false, slice_index};
ghost use Rattle.sx_deployer.specs.Keeping as spec;

use sx_mean::events::End;

fn has_link(ends: &[End], link: u8) -> bool
    ensures { result ≡ spec.has_link ends.now link }
{
    ends.iter().any(|e| e.link == link)
}

fn is_spent(ends: &[End], epochs: &[u8; 64]) -> bool
    ensures { result ≡ spec.is_spent ends.now epochs.now }
{
    ends.iter().any(|e| epochs.get(usize::from(e.link)).copied().unwrap_or(0) >= 255)
}

/// Whether a module with these ends that was last attested at a boot, if any, may be attested at
/// this one.
pub fn may_attest(ends: &[End], epochs: &[u8; 64], last: Option<u32>, boot: u32) -> bool
    ensures { result ≡ spec.may_attest ends.now epochs.now last boot }
{
    match last {
        None => true,
        Some(last) => last < boot && !is_spent(ends, epochs),
    }
}

/// The epochs after an attestation.
pub fn renewed(ends: &[End], epochs: &[u8; 64], last: Option<u32>) -> [u8; 64]
    requires { spec.IsRenewable ends.now epochs.now last }
    ensures { result ≡ spec.renewed ends.now last epochs.now }
{
    match last {
        None => *epochs,
        Some(_) => raised(ends, epochs),
    }
}

fn next_epoch(ends: &[End], epochs: &[u8; 64], link: u8) -> u8
    requires open { spec.is_spent ends.now epochs.now ≡ false }
    requires small { link < 64 }
    ensures { result ≡ spec.next_epoch ends.now link (slice_index epochs.now link) }
{
    let epoch = epochs[usize::from(link)];
    if has_link(ends, link) {
        epoch + 1
    } else {
        epoch
    }
}

fn raised(ends: &[End], epochs: &[u8; 64]) -> [u8; 64]
    requires { spec.is_spent ends.now epochs.now ≡ false }
    ensures { result ≡ spec.raised_from 0 ends.now epochs.now }
{
    let mut next = [0; 64];
    for link in 0..64u8 {
        next[usize::from(link)] = next_epoch(ends, epochs, link);
    }
    next
}
