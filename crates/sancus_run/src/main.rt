//! The program. The stored run is one of the lighting application: it ends with status 0.
#![tactic(auto)]

use std::process::ExitCode;
use sx_top::process::run_process;

fn main(rt: HostRuntime) -> ExitCode {
    run_process(rt)
}
