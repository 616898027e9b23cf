//! Whether a property holds in all runs, as far as a search tells.

ghost use Rattle.std.specs.Prelude.{◌≡◌, IfOk};
ghost use Rattle.sx_mean.specs.View.{app_as};
ghost use Rattle.law_never.specs.Never.{IsNeverBroken};
ghost use Rattle.sx_search.specs.declared.decide.Decided.TheVariants.{Holds};
ghost use Rattle.sx_watch.specs.Watching.{property_as};

use crate::blocks::finest;
use crate::gaps::{Gap, Halt, Reason};
use crate::search::{Found, find_table};
use law_never::shows::shows;
use std::alloc::{AllocError, Global};
use sx_mean::apps::App;
use sx_table::rows::Table;
use sx_watch::property::Property;
use sx_watch::topics::{Topic, TopicKind};

/// What the search for a table and its check say of a property.
#[derive(Drop)]
pub enum Decided {
    /// No run breaks the property.
    Holds,
    /// No table was found that shows it.
    Unknown(Gap),
}

/// A gap where no row is known.
fn unplaced(alloc: Global, reason: Reason) -> Decided
    ensures { result ≡ Holds → ⊥ }
{
    Decided::Unknown(Gap {
        reason,
        cells: Vec::new(alloc),
        topic: Topic::new(TopicKind::Reset, 0),
    })
}

fn judge(alloc: Global, app: &App, property: &Property, table: &Table) -> Result<Decided, Halt>
    ensures { IfOk result (λ decided. decided ≡ Holds
        → IsNeverBroken (app_as app.now) (property_as property.now)) }
{
    if shows(alloc, app, property, table)? {
        Ok(Decided::Holds)
    } else {
        Ok(unplaced(alloc, Reason::NotShown))
    }
}

fn attempt(alloc: Global, app: &App, property: &Property, fine: u16) -> Result<Decided, Halt>
    ensures { IfOk result (λ decided. decided ≡ Holds
        → IsNeverBroken (app_as app.now) (property_as property.now)) }
{
    match find_table(alloc, app, property, fine)? {
        Found::Closed(table) => judge(alloc, app, property, &table),
        Found::Open(gap) => Ok(Decided::Unknown(gap)),
    }
}

fn attempts(alloc: Global, app: &App, property: &Property) -> Result<Decided, Halt>
    ensures { IfOk result (λ decided. decided ≡ Holds
        → IsNeverBroken (app_as app.now) (property_as property.now)) }
{
    let decided = attempt(alloc, app, property, 0)?;
    if let Decided::Unknown(_) = &decided {
        return attempt(alloc, app, property, finest(alloc, &property.code)?);
    }
    Ok(decided)
}

/// Whether a table is found that shows that no run of a deployment of the application, whatever its
/// schedule, breaks the property before the first forged item. Nothing is promised of `Unknown`:
/// the search has limits, and no table relates the variables of two modules.
pub fn decide(alloc: Global, app: &App, property: &Property) -> Result<Decided, AllocError>
    ensures kept { IfOk result (λ decided. decided ≡ Holds
        → IsNeverBroken (app_as app.now) (property_as property.now)) }
{
    match attempts(alloc, app, property) {
        Ok(decided) => Ok(decided),
        Err(Halt::GivesUp(reason)) => Ok(unplaced(alloc, reason)),
        Err(Halt::OutOfMemory) => Err(AllocError),
    }
}
