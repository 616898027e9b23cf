//! The honest run over the source alone.
//!
//! In the honest run of a list of readings every module is loaded, attested and given its keys;
//! then, reading by reading, each packet of an event is delivered, the oldest first, until none
//! waits. What it shows is a function of the application and the readings (`specs/Course.antt`): no
//! node, key or packet's bytes are needed to say it. Its items deliver (`specs/Delivers.antt`):
//! they are legal and nothing goes wrong in them, each word that is sent is taken once and in
//! order, and the outputs are those of the plain fold (`specs/Plain.antt`), which knows modules and
//! connections alone. `specs/Told.antt` says what is read off items.
//!
//! In `proofs/` read `Agreement.antt` first: where the source model agrees with the course. That
//! the run of a schedule shows these items is the work of the crates above. No code is here.
#![tactic(auto)]

pub mod laws;
