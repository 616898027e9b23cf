//! Properties of worked applications, as tests: those that hold in all runs and for which a table
//! is found, and false ones, for which none may be found.
//!
//! They are in a crate of their own, so that no crate is proved a second time for its tests.
//! `sketches` makes an application and a property of short rows, `applications` has the
//! applications, and `properties` what is asked of them.
#![tactic(auto)]

#[cfg(test)]
mod applications;
#[cfg(test)]
mod properties;
#[cfg(test)]
mod sketches;
