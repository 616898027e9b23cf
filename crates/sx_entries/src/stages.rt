//! Stages: entries become entries of another type.
ghost use Rattle.std.specs.Prelude.{[], List, Result};
ghost use Rattle.sx_entries.specs.declared.fault.DeployFault.{DeployFault as FaultSeen};
ghost use Rattle.sx_entries.specs.Fault.{passes};
ghost use Rattle.sx_entries.specs.Gives.{Gives, TakesNoMemory};
ghost use Rattle.sx_entries.specs.Stage.{in_entry, made_after};

use crate::fault::{DeployError, DeployFault, Sort, nth};
use std::alloc::Global;

/// What an entry becomes, where those before it became `done`.
pub trait Derive<A, B> {
    ghost derives: { Self → List B → A → Result B FaultSeen };

    /// The new entry, or the entry's fault. It takes no memory.
    fn derive(&self, done: &[B], row: &A) -> Result<B, DeployError>
        ensures gives { Gives (λ b. b) result (derives self.now done.now row.now) }
        ensures memory { TakesNoMemory result };
}

/// What the entries give, in order, or the first fault.
pub fn derived<A, B: Drop, D: Derive<A, B>>(
    alloc: Global,
    deriver: &D,
    rows: &[A],
) -> Result<Vec<B>, DeployError>
    ensures { Gives (λ v. v.items) result (made_after (D.derives deriver.now) [] rows.now) }
{
    let mut done = Vec::new(alloc);
    for row in rows {
        let one = deriver.derive(done.as_slice(), row)?;
        if done.push(one).is_err() {
            return Err(DeployError::OutOfMemory);
        }
    }
    Ok(done)
}

/// Nothing, where there is no fault. It takes no memory.
pub fn passes(fault: Option<DeployFault>) -> Result<(), DeployError>
    ensures gives { Gives (λ x. x) result (passes fault) }
    ensures memory { TakesNoMemory result }
{
    match fault {
        Some(fault) => Err(DeployError::Fault(fault)),
        None => Ok(()),
    }
}

/// The value, or that the entry breaks the rule. It takes no memory.
pub fn in_entry<T: Drop>(
    rule: u8,
    sort: Sort,
    index: usize,
    one: Option<T>,
) -> Result<T, DeployError>
    ensures gives { Gives (λ x. x) result (in_entry rule sort index one) }
    ensures memory { TakesNoMemory result }
{
    match one {
        Some(x) => Ok(x),
        None => Err(DeployError::Fault(DeployFault {
            rule,
            place: nth(sort, index),
        })),
    }
}
