// The steps that are taken.

use crate::part::Part;
use ls_checked::program::Program;
use ls_checked::tree::File;
use ls_events::action::Answer;
use ls_events::value::Value;
use ls_meaning::step::Did;
use ls_source::run::SourceRun;
use std::alloc::{AllocError, Global};

/// How many steps the setup is given, more than it needs.
const SETUP_STEPS: u64 = 20;

/// What the steps did: how many acted, and the sum modulo 2^32 of the ints that they were answered.
#[derive(Drop)]
pub struct Taken {
    pub acted: u64,
    pub sum: i32,
}

// The int that a step was answered, or 0.
fn int_of(answer: Answer<Value>) -> i32 {
    match answer {
        Answer::Gives(Value::Int(z)) => z,
        _ => 0,
    }
}

/// `steps` steps of thread 1, or of threads 1 and 2 by turns, after the setup.
pub fn take_steps(
    alloc: Global,
    file: &File,
    program: &Program,
    part: Part,
    steps: u64,
) -> Result<Taken, AllocError> {
    let mut run = SourceRun::new(alloc, file, program)?;
    for _ in 0..SETUP_STEPS {
        let _did = run.step(alloc, 0)?;
    }
    let mut taken = Taken { acted: 0, sum: 0 };
    let mut first = true;
    for _ in 0..steps {
        let thread = if first { 1 } else { 2 };
        first = !(first && part == Part::Turns);
        if let Did::Acted(_, answer) = run.step(alloc, thread)? {
            taken.acted = taken.acted.wrapping_add(1);
            taken.sum = taken.sum.wrapping_add(int_of(answer));
        }
    }
    Ok(taken)
}
