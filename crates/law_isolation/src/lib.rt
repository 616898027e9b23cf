//! Private sections are guarded in the run that is printed.
//!
//! A schedule is a script: what happens, one thing after the other. Which thing comes next may
//! depend on which module runs on each node and on how often each was reset, and on no memory
//! (`specs/Script.antt`). The run with all its items, packets, ledger and deployer is what comes of
//! the script. Each thing that happens leaves each private section alone, unless it is an
//! instruction of that section's own code that is let run: the section keeps its bytes, or its node
//! is reset; and worlds that differ in these bytes alone show the same items, and differ in them
//! alone afterwards (`specs/Guarded.antt`).
//!
//! It speaks of the definitions of `spec_run`; there is no code here. The laws are those of
//! `specs/Laws.antt`. `specs/Lines.antt` is the script of a schedule, which nobody has to believe:
//! the clause `GuardedRun` says that there is one.
#![tactic(auto)]

pub mod laws;
