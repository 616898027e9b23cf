//! What a module's handlers mean, and the application that modules make together.
//!
//! `Store::initial` gives a module's cells their first values, `react` runs the handler of an
//! event: it gives the acts in order and changes the cells. `App::valid` tells whether connected
//! modules make an application. No definition knows an address, a key or a machine.
//!
//! `specs/Meaning.antt` has the meaning of expressions and statements by cases on the source, with
//! words modulo 65,536, `specs/React.antt` the meaning of an event, `specs/Places.antt` the order
//! of cells and outputs, `specs/Application.antt` what an application is, `specs/Validity.antt`
//! what makes it valid, `specs/Ends.antt` the ends of connections that a part holds, and
//! `specs/Offsets.antt` and `specs/Working.antt` where things lie in the private section of a
//! compiled module.
//!
//! `laws` promises what follows for every application (`specs/Valid.antt`, `EndLaws.antt`), every
//! handler (`Handlers.antt`), every scope (`Scope.antt`), and every run (`Acts.antt`,
//! `Words.antt`).
#![tactic(auto)]

pub mod apps;
pub mod connections;
pub mod events;
mod expressions;
pub mod laws;
mod moments;
pub mod offsets;
pub mod places;
pub mod reactions;
mod statements;
pub mod stores;
