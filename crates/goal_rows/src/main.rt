//! Asks a fixed list of questions of a small program, and prints the answers.
#![tactic(auto)]

use std::io;
use std::process::ExitCode;

mod answer;
mod ask;
mod faults;
mod rows;

fn main(rt: HostRuntime) -> ExitCode {
    let mut out = io::writer(&rt);
    match rows::print_rows(rt.alloc(), &mut out) {
        Ok(()) => ExitCode::SUCCESS,
        Err(fault) => {
            let _ = eprintln!(rt; "fault {fault:?}");
            ExitCode::FAILURE
        }
    }
}
