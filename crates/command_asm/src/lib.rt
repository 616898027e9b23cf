//! The commands `asm` and `dis`: from a text to the listing of its code, and from code in
//! hexadecimal to its listing.
//!
//! What they promise is `AsmPromise` of specs/Assembling.antt and `DisPromise` of
//! specs/Disassembling.antt: what is written, and the exit status, are a function of the address
//! and of the lines of the input.
#![tactic(auto)]

mod assembling;
mod disassembling;
mod listing;

pub use assembling::asm_over;
pub use disassembling::dis_over;
