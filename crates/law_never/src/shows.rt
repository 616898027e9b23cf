//! Whether a table shows that no run breaks a property.

ghost use Rattle.std.specs.Prelude.{◌≡◌, ◌&&◌, IfOk, true};
ghost use Rattle.sx_mean.specs.View.{app_as};
ghost use Rattle.law_never.specs.Never.{IsNeverBroken};
ghost use Rattle.sx_table.specs.Rows.{table_as};
ghost use Rattle.sx_table.specs.Shut.{is_open, is_shut};
ghost use Rattle.sx_watch.specs.Watching.{property_as};

use std::alloc::Global;
use sx_mean::apps::App;
use sx_span::stop::Stop;
use sx_table::rows::Table;
use sx_table::shut::{is_open, is_shut};
use sx_watch::property::Property;

fn passes(alloc: Global, app: &App, property: &Property, table: &Table) -> Result<bool, Stop>
    ensures { IfOk result (λ passed. passed
        ≡ (is_shut (app_as app.now) (property_as property.now) (table_as table.now)
        && is_open (app_as app.now) (property_as property.now) (table_as table.now))) }
{
    Ok(is_shut(alloc, app, property, table)? && is_open(app, property, table))
}

/// Whether the table shows that no run of a deployment of the application, whatever its schedule,
/// breaks the property before the first forged item.
pub fn shows(alloc: Global, app: &App, property: &Property, table: &Table) -> Result<bool, Stop>
    ensures said { IfOk result (λ shown. shown
        ≡ (is_shut (app_as app.now) (property_as property.now) (table_as table.now)
        && is_open (app_as app.now) (property_as property.now) (table_as table.now))) }
    ensures kept { IfOk result (λ shown. shown ≡ true
        → IsNeverBroken (app_as app.now) (property_as property.now)) }
{
    passes(alloc, app, property, table)
}
