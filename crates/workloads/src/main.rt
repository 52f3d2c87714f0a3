//! The program `workloads`: the jobs that users of a session wait for, on drawn inputs, each with a digest of all that came of it.
//!
//! Its words are a job, a seed below 2^32, and how much of it there is to be.
#![tactic(auto)]

mod before;
mod behind;
mod calls;
mod digest;
mod draws;
mod jobs;
mod packets;
mod path;
mod payloads;
mod receiving;
mod scene;
mod script;
mod sending;
mod shape;
mod telling;
mod tool;
mod turns;
mod worlds;

use std::env;
use std::process::ExitCode;

fn main(rt: HostRuntime) -> ExitCode {
    let Ok(words) = env::args(&rt) else {
        return ExitCode::from(2);
    };
    let Ok(words) = words.collect::<Vec<String>>(rt.alloc()) else {
        return ExitCode::from(4);
    };
    let [_, job, seed, size] = words.as_slice() else {
        let _ = eprintln!(rt;
            "usage: workloads stream|outage|audio|call|relay|sim|soak|all SEED SIZE"
        );
        return ExitCode::from(2);
    };
    let (Ok(seed), Ok(size)) = (seed.parse::<u32>(), size.parse::<u64>()) else {
        return ExitCode::from(2);
    };
    match jobs::does(rt.alloc(), job, seed, size) {
        Ok(Some(digest)) => match println!(rt; "{job} {digest}") {
            Ok(()) => ExitCode::from(0),
            Err(_) => ExitCode::from(3),
        },
        Ok(None) => ExitCode::from(2),
        Err(_) => ExitCode::from(4),
    }
}
