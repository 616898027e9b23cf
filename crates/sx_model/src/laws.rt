//! What holds of legal traces: of every one, and of worked runs, by computing. Each law is a
//! function that does nothing: its contract is the law.

ghost use Rattle.std.specs.Prelude.{◌≤◌, List, length};
ghost use Rattle.sx_mean.specs.Application.{AppTree};
ghost use Rattle.sx_model.specs.Consequences.{OpensRise, OutsAreCaused, ReadsAreSensed, TakesRise};
ghost use Rattle.sx_model.specs.Laws.{DoneNeedsEmits, DriverIsAlone, EventsAreTaken};
ghost use Rattle.sx_model.specs.Laws.{LightingIsLegal, RenewalIsLegal, VouchedAreAttested};
ghost use Rattle.sx_model.specs.Legal.{Legal};
ghost use Rattle.sx_model.specs.order.Laws.{OrderIsKept, TurnsAreKept};
ghost use Rattle.sx_model.specs.order.Legal.{LegalInOrder};
ghost use Rattle.sx_trace.specs.declared.items.Item.{Item};

/// In a legal trace the numbers that are taken over a connection rise strictly, so no event of it
/// is taken twice or after a later one, whatever is reset or renewed in between.
pub fn takes_rise()
    ensures { (app : AppTree) (items : List Item) → Legal app items → TakesRise items }
{}

/// In a legal trace the epochs with which a module opens one end of a connection rise strictly, so
/// it opens the end at most once in each epoch, over all boots.
pub fn opens_rise()
    ensures { (app : AppTree) (items : List Item) → Legal app items → OpensRise items }
{}

/// In a legal trace the value that a module reads is the one that its sensor got last. Between the
/// two no driver of the sensor read it, no other code drained it, and its node wasn't reset.
pub fn reads_are_sensed()
    ensures { (app : AppTree) (items : List Item) → Legal app items → ReadsAreSensed app items }
{}

/// In a legal trace a module writes an output only in an event: it took or read a value before, and
/// since then it neither was done nor did anything but write, and its node wasn't reset.
pub fn outs_are_caused()
    ensures { (app : AppTree) (items : List Item) → Legal app items → OutsAreCaused app items }
{}

/// A trace that is legal with acts in their order is legal.
pub fn in_order_is_legal()
    ensures { (app : AppTree) (items : List Item) → length app.links ≤ 256 → LegalInOrder app items
        → Legal app items }
{}

/// The lighting application, from its loading to the lamp's output.
pub fn lighting_is_legal()
    ensures { LightingIsLegal }
{}

/// An emit is written once, with the value that was emitted, and an event with an emit owed isn't
/// done.
pub fn done_needs_emits()
    ensures { DoneNeedsEmits }
{}

/// A word is taken once, in the order of sending, and only as it was sent.
pub fn events_are_taken()
    ensures { EventsAreTaken }
{}

/// No other code writes a device whose driver is present.
pub fn driver_is_alone()
    ensures { DriverIsAlone }
{}

/// A module is attested only where it vouched for the open challenge, at that boot, and once at a
/// boot.
pub fn vouched_are_attested()
    ensures { VouchedAreAttested }
{}

/// After a reset connections are renewed, and ends open once in each epoch, none with an old one.
pub fn renewal_is_legal()
    ensures { RenewalIsLegal }
{}

/// What a handler emits before it sends is put out before the word is taken.
pub fn order_is_kept()
    ensures { OrderIsKept }
{}

/// Traces that are legal though a node shows two events at once, or a sensor gives what none can.
pub fn turns_are_kept()
    ensures { TurnsAreKept }
{}
