//! The program `gozdrit-relay`: it stands between an application and a network that loses, and repairs an RTP stream.
#![tactic(auto)]

mod addresses;
mod admission;
mod answers;
mod asking;
mod changes;
mod client;
mod clients;
mod command_line;
mod control;
mod counted;
mod counts;
mod ctl;
mod draws;
mod dropped;
mod entry;
mod fault;
mod figures;
mod foreign;
mod greeting;
mod guard;
mod handed;
mod help;
mod hindrance;
mod host;
mod journal;
mod keys;
mod known;
mod learners;
mod learning;
mod load;
mod machine;
mod metrics;
mod names;
mod newest;
mod notify;
mod options;
mod seats;
mod seldom;
mod session_types;
mod sockets;
mod standing;
mod stats;
mod stream_form;
mod too_long;
mod transport_stream;
mod turns;
mod units;
mod unmet;
mod unwaited;
mod waiting;
mod way;

use command_line::choose;
use entry::relay;
use fault::{Fault, tell};
use std::env;
use std::io::{ErrorKind, Write};
use std::process::ExitCode;

fn main(rt: HostRuntime) -> ExitCode {
    let mut error = rt.stderr();
    let words = match env::args(&rt) {
        Ok(words) => words.collect::<Vec<String>>(rt.alloc()),
        Err(fault) if fault.kind() == ErrorKind::InvalidData => {
            let _ = eprintln!(rt; "error: a word of the command line is not UTF-8");
            return ExitCode::from(2);
        }
        Err(_) => return ExitCode::from(tell(&Fault::Memory, &mut error)),
    };
    let Ok(words) = words else {
        return ExitCode::from(tell(&Fault::Memory, &mut error));
    };
    let choice = match choose(rt.alloc(), &words) {
        Ok(choice) => choice,
        // Help and version are no faults.
        Err(Fault::Line(text)) if !text.use_stderr() => {
            let mut output = rt.stdout();
            return match write!(output, "{text}") {
                Ok(()) => ExitCode::from(0),
                Err(_) => ExitCode::from(3),
            };
        }
        Err(fault) => return ExitCode::from(tell(&fault, &mut error)),
    };
    match relay(&rt, &choice) {
        Ok(status) => ExitCode::from(status),
        Err(fault) => ExitCode::from(tell(&fault, &mut error)),
    }
}
