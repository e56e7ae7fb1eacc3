//! Reads items and goals from standard input, and prints a line for each goal: its answer.
#![tactic(auto)]

mod asking;
mod endings;
mod expectations;
mod faulty_items;
mod input;
mod printing;
mod program;
mod records;
mod scenes;
mod session;
mod table_faults;

use endings::{Ending, ShownEnding, output};
use std::alloc::Global;
use std::io;
use std::io::{BufWriter, Write};
use std::process::ExitCode;

fn main(rt: HostRuntime) -> ExitCode {
    match run(&rt) {
        Ok(()) => ExitCode::SUCCESS,
        Err(Reported) => ExitCode::FAILURE,
    }
}

/// That the program ended early, and standard error says why.
struct Reported;

fn run(rt: &HostRuntime) -> Result<(), Reported> {
    match input::read_text(rt.alloc(), rt.reader()) {
        Ok(text) => {
            let ended = print_answers(rt.alloc(), io::writer(rt), text.as_str());
            report(rt, ended, text.as_str())
        }
        Err(ending) => report(rt, Err(ending), ""),
    }
}

/// Answers the goals of a text through a buffer. What was printed stays where it ends early.
fn print_answers<W: Write + Drop>(alloc: Global, out: W, text: &str) -> Result<(), Ending> {
    let mut out = match BufWriter::new(alloc, out) {
        Ok(out) => out,
        Err(_) => return Err(Ending::OutOfMemory),
    };
    let ended = program::answer_text(alloc, text, &mut out);
    let flushed = out.flush();
    ended?;
    output(flushed)
}

/// Says on standard error why a program ended early.
fn report(rt: &impl Eprint, ended: Result<(), Ending>, text: &str) -> Result<(), Reported> {
    match ended {
        Ok(()) => Ok(()),
        Err(ending) => {
            let shown = ShownEnding {
                ending: &ending,
                text,
            };
            let _ = eprintln!(rt; "{shown}");
            Err(Reported)
        }
    }
}
