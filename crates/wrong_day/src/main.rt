//! Runs a worked day that is wrong on purpose, which has to be told, and to end with 1.
#![tactic(auto)]

use day_runs::agree;
use std::io;
use std::process::ExitCode;

fn main(rt: HostRuntime) -> io::Result<ExitCode> {
    let agrees = agree(&rt)?;
    Ok(if agrees {
        ExitCode::SUCCESS
    } else {
        ExitCode::FAILURE
    })
}
