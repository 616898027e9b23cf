//! The modules of an application, by their numbers.

ghost use Rattle.std.specs.Prelude.{◌≡◌, MatchOption, None, Some, slice_get};
ghost use Rattle.sx_mean.specs.View.{app_as, part_as};

use sx_mean::apps::{App, Part};

/// The module of this number.
pub(crate) fn part_at(app: &App, module: u8) -> Option<&Part>
    ensures { MatchOption result (slice_get (app_as app.now).parts «module» ≡ None) (λ part.
        slice_get (app_as app.now).parts «module» ≡ Some (part_as part.now)) }
{
    app.parts.get(usize::from(module))
}
