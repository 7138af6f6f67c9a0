//! The firmware updater's program.
#![tactic(auto)]

use std::process::ExitCode;

fn main(rt: HostRuntime) -> ExitCode {
    fwupd_jobs::perform(&rt)
}
