//! The program `uri`: reads texts as URIs or their components, and prints what they hold.
#![tactic(auto)]

use std::process::ExitCode;
use std::{env, io};
use uri_commands::{refuse_arguments, run_with_input};

fn main(rt: HostRuntime) -> ExitCode {
    let status = match run(&rt) {
        Ok(status) => status,
        Err(error) => refuse_arguments(&error, &mut rt.stderr()),
    };
    ExitCode::from(status)
}

/// Runs the command in the program's arguments, and returns the exit status. Fails if an argument is
/// not UTF-8, or if memory runs out while they are gathered.
fn run(rt: &HostRuntime) -> io::Result<u8> {
    let mut args = Vec::new(rt.alloc());
    for arg in env::args(rt)?.skip(1) {
        args.push(arg)?;
    }
    let mut words = Vec::new(rt.alloc());
    for arg in &args {
        words.push(arg.as_str())?;
    }
    Ok(run_with_input(
        rt.alloc(),
        &words,
        &mut rt.stdin(),
        &mut rt.stdout(),
        &mut rt.stderr(),
    ))
}
