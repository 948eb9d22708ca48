//! Runs the worked days of its folder, and the worked audits, crosses and standbys of the folders in it. It ends with 0 where each agrees
//! in every way, and else with 1.
#![tactic(auto)]

use day_runs::{Command, agree, files_agree};
use std::io;
use std::process::ExitCode;

fn main(rt: HostRuntime) -> io::Result<ExitCode> {
    let days = agree(&rt)?;
    let audits = files_agree(&rt, Command::Audit)?;
    let crosses = files_agree(&rt, Command::Cross)?;
    let standbys = files_agree(&rt, Command::Standby)?;
    Ok(if days && audits && crosses && standbys {
        ExitCode::SUCCESS
    } else {
        ExitCode::FAILURE
    })
}
