//! The plain instructions of the MSP430 (TI, MSP430x2xx Family User's Guide, "CPU"), and
//! interrupts.
//!
//! `step_plain` executes one instruction and `interrupt` accepts an interrupt, on an `Executor`.
//! Each is exactly a run of the executor over the instruction's plan, so every access is checked by
//! the access table and by the devices. spec_machine defines the plans of instructions (`Rows.antt`),
//! that of an interrupt (`Acts.antt`) and the executor (`Run.antt`). Nothing here takes memory.
#![tactic(auto)]

pub use quick::{Stepped, step_quick};
pub use step::{interrupt, step_long, step_plain};

mod at_hand;
mod byte_store;
mod bytes;
mod called;
mod forms;
mod from_memory;
mod increment;
mod jump;
mod one_operand;
mod operand;
mod place;
mod quick;
mod step;
mod triple;
mod two_operands;
