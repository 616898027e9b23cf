//! The program: it does the command that the words name, `run`, `check`, `explain`, `watch`,
//! `drive`, `snap`, `holds`, `gen`, `asm`, `dis`, `lines`, `describe` or `batch`.
//!
//! `top` does all that the program does. What it promises is one record, `ProgramPromise` of
//! specs/Promise.antt, which hands on what its command promises: `AsmPromise` and `DisPromise`
//! (command_asm), `BatchPromise` (command_batch), `CheckPromise` (command_check), `DescribePromise`
//! (command_describe), `DrivePromise` (command_drive), `ExplainPromise` (command_explain),
//! `GenPromise` (command_gen), `HoldsPromise` (command_holds), `LinesPromise` and `RunPromise`
//! (command_run), `SnapPromise` (command_snap), `WatchPromise` (command_watch).
#![tactic(auto)]

mod command;
pub mod laws;
pub mod process;
mod words;

pub use command::top;
pub use command_asm::{asm_over, dis_over};
pub use command_batch::batch_over;
pub use command_check::check_over;
pub use command_describe::describe_over;
pub use command_drive::drive_over;
pub use command_explain::explain_over;
pub use command_gen::gen_over;
pub use command_holds::holds_over;
pub use command_run::{lines_over, run_over};
pub use command_snap::snap_over;
pub use command_watch::watch_over;
