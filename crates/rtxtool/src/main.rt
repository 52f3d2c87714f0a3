//! The program `rtxtool`: it simulates a session from a script, shows traces, packs feedback, and does runs.
#![tactic(auto)]

mod command_line;
mod help;
mod host;
mod laws;
mod options;
mod program;
mod tell;

use commands::Stream;
use host::Host;
use program::program;
use std::env;
use std::io::{BufWriter, ErrorKind};
use std::process::ExitCode;
use tell::{ToolFault, tell};

/// How much of a log is held back, in octets, while the script goes on.
const BUFFER: usize = 65536;

fn main(rt: HostRuntime) -> ExitCode {
    let mut error = rt.stderr();
    let Ok(writer) = BufWriter::with_capacity(rt.alloc(), BUFFER, rt.stdout()) else {
        return ExitCode::from(tell(&ToolFault::Memory, &mut error));
    };
    let mut output = Stream { writer };
    let words = match env::args(&rt) {
        Ok(words) => words.collect::<Vec<String>>(rt.alloc()),
        Err(fault) if fault.kind() == ErrorKind::InvalidData => {
            let _ = eprintln!(rt; "error: a word of the command line is not UTF-8");
            return ExitCode::from(2);
        }
        Err(_) => return ExitCode::from(tell(&ToolFault::Memory, &mut error)),
    };
    let Ok(words) = words else {
        return ExitCode::from(tell(&ToolFault::Memory, &mut error));
    };
    let host = Host { rt: &rt };
    ExitCode::from(program(rt.alloc(), &words, &host, &mut output, &mut error))
}
