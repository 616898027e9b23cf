//! Arithmetic and flags of the MSP430 (TI, MSP430x2xx Family User's Guide, "Instruction Set"), on
//! words and on bytes.
//!
//! `calc` gives the result and the flags of a calculation: its row in specs/Table.antt, which is
//! what must be believed. `laws` says in terms of arithmetic what the flags tell after a
//! subtraction and an addition. `calc_status` is `calc` on `StatusBits`, the flags as bits of the
//! status register, which are in specs/Status.antt. No call takes memory.
#![tactic(auto)]

pub mod calculation;
pub mod flags;
pub mod laws;
pub mod status;
pub mod table;

pub use calculation::Calc;
pub use flags::Flags;
pub use status::StatusBits;
pub use table::{calc, calc_status};
