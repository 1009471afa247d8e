//! Reads what the words of the command line name, and gives it and the real streams to the program.
#![tactic(auto)]

mod ends;
mod kept;
mod planning;
mod reading;
mod running;
mod sheets;
mod telling;

use crate::ends::told;
use crate::planning::{Input, plan_of};
use crate::running::{Outputs, run, run_on};
use std::env;
use std::io::{self, ErrorKind};
use std::process::ExitCode;

/// The words of the command line, the program's own name first.
fn words(rt: &HostRuntime) -> io::Result<Vec<String>> {
    Ok(env::args(rt)?.collect(rt.alloc())?)
}

fn main(rt: HostRuntime) -> ExitCode {
    let words = match words(&rt) {
        Ok(words) => words,
        Err(error) => {
            if error.kind() == ErrorKind::OutOfMemory {
                let _ = eprintln!(rt; "fault 1 Memory");
                return ExitCode::from(1);
            }
            let _ = eprintln!(rt; "error: a word of the command line isn't UTF-8");
            return ExitCode::from(2);
        }
    };
    let plan = match plan_of(&rt, words) {
        Ok(plan) => plan,
        Err(end) => return ExitCode::from(told(&rt, end)),
    };
    let outputs = Outputs {
        out: rt.stdout(),
        err: rt.stderr(),
    };
    let status = match &plan.input {
        Input::Stdin => run(&rt, rt.alloc(), &plan.task, &mut rt.stdin(), outputs),
        Input::Read(bytes) => run_on(&rt, rt.alloc(), &plan.task, bytes.as_slice(), outputs),
    };
    ExitCode::from(status)
}
