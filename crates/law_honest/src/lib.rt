//! The honest run that the program makes is that of the source.
//!
//! The lines of the program's run follow from what the lines before them showed (`sx_drive`); those
//! of the honest schedule are a function of the application and the readings (`law_delivery`). They
//! are the same lines, as far as a schedule has room. If none is left out, their items are those
//! that the source alone predicts: so each value that is sent is taken once, and nothing is forged
//! (`specs/Laws.antt`). There is no code here.
#![tactic(auto)]

pub mod laws;
