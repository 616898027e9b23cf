//! Entries that were made are found, and no others.

use std::alloc::{AllocError, Global};
use std::process::Abort;
use sx_ledger::{Entry, Ledger, Maker};

fn event(header: u8) -> Entry {
    Entry::new(Maker::Module(1), 255, 0, &[3, 0, 1, 0, header, 0], &[7, 0])
}

/// A ledger in which these were made.
fn ledger_of(alloc: Global, headers: &[u8]) -> Result<Ledger, AllocError> {
    let mut ledger = Ledger::new(alloc);
    for header in headers {
        ledger.made(event(*header))?;
    }
    Ok(ledger)
}

/// Whether two of four entries were made.
fn has_two(rt: &impl Abort, ledger: &Ledger) {
    assert!(rt; ledger.is_made(&event(1)));
    assert!(rt; ledger.is_made(&event(2)));
    assert!(rt; !ledger.is_made(&event(3)));
    let mut other = event(1);
    other.maker = Maker::Deployer;
    assert!(rt; !ledger.is_made(&other));
}

#[test]
fn an_entry_that_was_made(rt: HostRuntime) -> Result<(), AllocError> {
    assert!(rt; !ledger_of(rt.alloc(), &[])?.is_made(&event(1)));
    has_two(&rt, &ledger_of(rt.alloc(), &[1, 2, 1])?);
    Ok(())
}

fn makes_alone(rt: &impl Abort, ledger: &Ledger, copy: &mut Ledger) -> Result<(), AllocError> {
    has_two(rt, copy);
    copy.made(event(3))?;
    assert!(rt; copy.is_made(&event(3)));
    has_two(rt, ledger);
    Ok(())
}

#[test]
fn a_copy_is_a_ledger_of_its_own(rt: HostRuntime) -> Result<(), AllocError> {
    let ledger = ledger_of(rt.alloc(), &[1, 2])?;
    let mut copy = ledger.copy(rt.alloc())?;
    makes_alone(&rt, &ledger, &mut copy)
}
