// What is told of each program of a family.

ghost use Rattle.std.specs.Prelude.{◌≡◌, ◌-◌, ◌≤◌, IfOk, Ok, map};
ghost use Rattle.std.specs.List.{AllZip, range_with_len};
ghost use Rattle.ls_find_serial.specs.Told.{AreToldOf, IsToldAt, IsToldOf, unknown};

use ls_alone::{Tellings, Told, tell};
use ls_compiler::compile;
use ls_explore_reports::names_in;
use ls_families::print_plan;
use ls_family_search::{Numbers, Programs};
use rayon::prelude::*;
use std::alloc::{AllocError, Global};
use std::thread::Threads;

/// What is told where nothing is known.
fn unknown() -> Tellings
    ensures { result ≡ unknown }
{
    Tellings {
        throws: Told::Unknown,
        waits: Told::Unknown,
        turns: Told::Unknown,
    }
}

/// What is told of a program's text. Nothing is known of one that doesn't compile.
fn told_of(alloc: Global, classes: &str, program: &str) -> Result<Tellings, AllocError>
    ensures { IfOk result (IsToldOf classes.now program.now) }
{
    match compile(alloc, classes, program) {
        Ok(image) => tell(alloc, names_in(&image)),
        Err(_) => Ok(unknown()),
    }
}

/// What is told of the program of a number.
fn told_at(
    alloc: Global,
    classes: &str,
    programs: &Programs<'_>,
    number: u64,
) -> Result<Tellings, AllocError>
    ensures { IfOk result (IsToldAt classes.now programs.now number) }
{
    match programs.family().plan(alloc, number)? {
        Some(plan) => {
            let program = print_plan(alloc, programs.menu(), &plan)?;
            told_of(alloc, classes, program.as_str())
        }
        None => Ok(unknown()),
    }
}

/// What is told of each program of these numbers, by as many threads as there are processors. Each is judged by itself.
fn told_each(
    rt: &(impl Threads + Sync),
    alloc: Global,
    classes: &str,
    programs: &Programs<'_>,
    numbers: Numbers,
) -> Result<Vec<Result<Tellings, AllocError>>, AllocError>
    requires { numbers.from ≤ numbers.to }
    ensures { IfOk result (λ v. AllZip (λ n o. IfOk o (IsToldAt classes.now programs.now n))
        (range_with_len numbers.from (numbers.to - numbers.from)) v.items) }
{
    (numbers.from as usize..numbers.to as usize)
        .into_par_iter()
        .with_min_len(1)
        .map(
            |number: usize| -> Result<Tellings, AllocError>
                ensures { IfOk result (IsToldAt classes.entry.now programs.entry.now number) }
            { told_at(alloc, classes, programs, number as u64) },
        )
        .collect(rt, alloc)
}

/// What is told of each, if memory sufficed for all.
fn joined(
    alloc: Global,
    each: Vec<Result<Tellings, AllocError>>,
) -> Result<Vec<Tellings>, AllocError>
    ensures { IfOk result (λ v. each.items ≡ map (λ t. Ok t) v.items) }
{
    let mut told = Vec::new(alloc);
    for one in each {
        told.push(one?)?;
    }
    Ok(told)
}

/// What is told of each program of these numbers of a family, from 0: doubles too. Each program is looked at by itself.
/// Calls of the setup count, makings too. The only refusal is that memory ran out.
pub fn tell_numbers(
    rt: &(impl Threads + Sync),
    alloc: Global,
    classes: &str,
    programs: &Programs<'_>,
    numbers: Numbers,
) -> Result<Vec<Tellings>, AllocError>
    requires { numbers.from ≤ numbers.to }
    ensures { IfOk result (λ v. AreToldOf classes.now programs.now numbers.from numbers.to v.items) }
{
    let each = told_each(rt, alloc, classes, programs, numbers)?;
    joined(alloc, each)
}
