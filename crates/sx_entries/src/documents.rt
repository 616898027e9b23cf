//! Rule 3: the text is a document.
ghost use Rattle.std.specs.Prelude.{◌≡◌, false, if◌then◌else◌};
ghost use Rattle.std.specs.Str.{is_utf8};
ghost use Rattle.toml.specs.View.{table_view};
ghost use Rattle.sx_entries.specs.Fault.{fault};
ghost use Rattle.sx_entries.specs.Gives.{Gives, TakesNoMemory};
ghost use Rattle.sx_entries.specs.declared.fault.Place.TheVariants.{Nowhere};
ghost use Rattle.sx_entries.specs.Documents.{table_of};

use crate::fault::{DeployError, DeployFault, Place};
use std::alloc::Global;
use toml::Table;

const NO_DOCUMENT: DeployFault = DeployFault {
    rule: 3,
    place: Place::Nowhere,
};

/// Why a text has no table: memory ran out, or else it is no document. It takes no memory.
fn no_table(ran_out: bool) -> DeployError
    ensures { result ≡ (if ran_out then DeployError.OutOfMemory
        else DeployError.Fault (fault 3 Nowhere)) }
{
    if ran_out {
        DeployError::OutOfMemory
    } else {
        DeployError::Fault(NO_DOCUMENT)
    }
}

/// The table that the document of this text holds, in TOML 1.1. `Fault` is that of a text that is
/// no document of TOML 1.1. `OutOfMemory` says that memory ran out.
pub fn table_of(alloc: Global, text: &[u8]) -> Result<Table, DeployError>
    ensures gives { Gives table_view result (table_of text.now) }
    // a text that is not UTF-8 is judged without memory
    ensures memory { is_utf8 text.now ≡ false → TakesNoMemory result }
{
    let text = match std::str::from_utf8(text) {
        Ok(text) => text,
        Err(_) => return Err(DeployError::Fault(NO_DOCUMENT)),
    };
    match toml::table_from_str(alloc, text) {
        Ok(table) => Ok(table),
        Err(error) => Err(no_table(error.is_memory())),
    }
}
