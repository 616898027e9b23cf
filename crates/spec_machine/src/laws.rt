//! What holds of every node and every run of one. Each law is a function that does nothing: its
//! contract is the law, for all states of a node.

ghost use Rattle.spec_machine.specs.Laws.{PowerOnPlaced, StaysPlaced, ActsGuarded, RunsBlind};
ghost use Rattle.spec_machine.specs.Laws.{RunsKeep, RunsGuarded, BootsCount};
ghost use Rattle.spec_machine.specs.Events.{StepsSay, OthersKeepSections, FreshSections};
ghost use Rattle.spec_machine.specs.Frame.{StepsFramed, InterruptsFramed, PublicKept, RunsByTable};
ghost use Rattle.spec_machine.specs.Frame.{KeepsKeys, PowerOnHasKeys};
ghost use Rattle.spec_machine.specs.Doing.{DoesWhatStands};
ghost use Rattle.spec_machine.specs.Touches.{ShowsTouches, ShowsInterrupt, Attributes};
ghost use Rattle.spec_machine.specs.Touches.{AttributesInterrupt};
ghost use Rattle.spec_machine.specs.NodeLaws.{PowerOnIsNode, StaysNode, KeepsDevices, KeepsKey};

/// The sections of a node that is switched on are placed.
pub fn power_on_placed()
    ensures { PowerOnPlaced }
{}

/// Whatever happens to a node, its sections stay placed.
pub fn stays_placed()
    ensures { StaysPlaced }
{}

/// Each thing that can happen to a node, but a step of a section's own code that is let run, is
/// guarded.
pub fn acts_guarded()
    ensures { ActsGuarded }
{}

/// No run of other code reads a section's private bytes.
pub fn runs_blind()
    ensures { RunsBlind }
{}

/// No run of other code changes a section's private bytes, but a reset clears them all.
pub fn runs_keep()
    ensures { RunsKeep }
{}

/// An act raises the boot count by at most one.
pub fn boots_count()
    ensures { BootsCount }
{}

/// What holds of every node holds of one that is switched on.
pub fn power_on_is_node()
    ensures { PowerOnIsNode }
{}

/// Whatever happens to a node, what holds of every node stays so.
pub fn stays_node()
    ensures { StaysNode }
{}

/// A node's devices keep their places and kinds.
pub fn keeps_devices()
    ensures { KeepsDevices }
{}

/// A node keeps its key.
pub fn keeps_key()
    ensures { KeepsKey }
{}

/// Whatever happened to a node since it was switched on, every list of acts from there on is
/// guarded.
pub fn runs_guarded()
    ensures { RunsGuarded }
{}

/// A step shows all that it did at devices, and did only what the access table lets its code do.
pub fn shows_touches()
    ensures { ShowsTouches }
{}

/// An interrupt shows all that it did at devices, and did only what the access table lets code of
/// no module do.
pub fn shows_interrupt()
    ensures { ShowsInterrupt }
{}

/// Code outside a section touches no device in its private section.
pub fn attributes()
    ensures { Attributes }
{}

/// An interrupt touches no device in a section's private part.
pub fn attributes_interrupt()
    ensures { AttributesInterrupt }
{}

/// The event of a step says what became of the sections, and names the module whose code it was.
pub fn steps_say()
    ensures { StepsSay }
{}

/// Every other act keeps the sections, unless it resets the node.
pub fn others_keep_sections()
    ensures { OthersKeepSections }
{}

/// A section that was just protected has private bytes of 0.
pub fn fresh_sections()
    ensures { FreshSections }
{}

/// A step changes only bytes that the access table lets its code write, unless it resets the node.
pub fn steps_framed()
    ensures { StepsFramed }
{}

/// An interrupt changes only bytes that the access table lets code of no module write, unless it
/// resets the node.
pub fn interrupts_framed()
    ensures { InterruptsFramed }
{}

/// No act, of whatever code, changes a live section's public bytes, unless it resets the node.
pub fn public_kept()
    ensures { PublicKept }
{}

/// A step that ends in neither `fetch` nor `order` had the right to run its word.
pub fn runs_by_table()
    ensures { RunsByTable }
{}

/// The key of each live section stays the chain's for its present bytes.
pub fn keeps_keys()
    ensures { KeepsKeys }
{}

/// At power-on the key of each live section is the chain's.
pub fn power_on_has_keys()
    ensures { PowerOnHasKeys }
{}

/// A step that is let run does the instruction that is at PC.
pub fn does_what_stands()
    ensures { DoesWhatStands }
{}
