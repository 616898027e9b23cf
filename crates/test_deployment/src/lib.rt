//! Worked streams, texts, deployments and traces, as tests, of what no command prints. The first
//! faults of texts, of deployments and of the lines of schedules, and texts of the assembler with
//! their bytes, are rows of `tests/rows`.
//!
//! They use what the crates give to everybody, and are in a crate of their own, so that no crate
//! is proved a second time for its tests.
//!
//! Streams and lines: `io` has numbers and lines that are read in pieces, `told` texts that are
//! written. The language: `lex` has tokens, `texts` what is printed of modules, `mean` what
//! modules do at events and their sizes, up to the highest expressions and the deepest blocks, and
//! `asm` a word that is shown. Deployments: `lamps` has one and tries it, `deploy` what is read of
//! it, `trace` the lines of items, `sched` lines of schedules that are written, `model` runs of
//! the source, `properties` where they break what is said of them; `wire` has packets, `ledger`
//! entries, `bulk` the workload, and `deployer` answers, keys and renewals.
//!
//! Modules are read from their texts, and what is alike is rows of a constant table with one
//! function that takes a row, since both are cheap to prove.
#![tactic(auto)]

#[cfg(test)]
mod asm;
#[cfg(test)]
mod bulk;
#[cfg(test)]
mod deploy;
#[cfg(test)]
mod deployer;
#[cfg(test)]
mod io;
#[cfg(test)]
mod lamps;
#[cfg(test)]
mod ledger;
#[cfg(test)]
mod lex;
#[cfg(test)]
mod mean;
#[cfg(test)]
mod model;
#[cfg(test)]
mod properties;
#[cfg(test)]
mod sched;
#[cfg(test)]
mod texts;
#[cfg(test)]
mod told;
#[cfg(test)]
mod trace;
#[cfg(test)]
mod wire;
