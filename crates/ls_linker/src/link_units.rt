// The whole code.

ghost use Rattle.ls_code.specs.Limits.{most_instructions};
ghost use Rattle.std.specs.Prelude.{◌≡◌, ◌<◌, ◌≤◌, All, Err, IfOk, OnOk, length, map};
ghost use Rattle.ls_checked.specs.Plain.{plain_class, plain_file};
ghost use Rattle.ls_checked.specs.PlainProgram.{plain_program};
ghost use Rattle.ls_linker.specs.Linked.{linked, class_size};
ghost use Rattle.ls_linker.specs.Links.{ThreadLinks, Links};
ghost use Rattle.ls_linker.specs.Added.{AddsThreads, first_parts};
ghost use Rattle.ls_linker.specs.declared.fault.LinkFault.TheVariants as faults;

use crate::fault::LinkFault;
use crate::threads::add_threads;
use crate::units::add_units;
use ls_checked::program::Program;
use ls_checked::tree::{Class, File};
use ls_code::code::{Code, Parts};
use ls_emit::code_unit::CodeUnit;
use std::alloc::{AllocError, Global};

/// The most instructions of an image.
pub const MOST_INSTRUCTIONS: usize = 65_536;

/// The cells of an object: one for its monitor, and one for each field.
fn class_size(class: &Class) -> usize
    ensures { result ≡ class_size (plain_class class.now) }
{
    class.fields.len() + 1
}

fn sizes_of(alloc: Global, classes: &[Class]) -> Result<Vec<usize>, AllocError>
    ensures { IfOk result (λ v. v.items ≡ map class_size (map plain_class classes.now)) }
{
    let mut sizes = Vec::new(alloc);
    for class in classes {
        sizes.push(class_size(class))?;
    }
    Ok(sizes)
}

fn first_parts(alloc: Global, file: &File, program: &Program) -> Result<Parts, AllocError>
    ensures { IfOk result (λ parts. parts ≡ first_parts (plain_file file.now) (plain_program program.now)) }
{
    Ok(Parts {
        instructions: Vec::new(alloc),
        handlers: Vec::new(alloc),
        methods: Vec::new(alloc),
        sizes: sizes_of(alloc, &file.classes)?,
        starts: Vec::new(alloc),
        names: program.names.len(),
    })
}

fn add_program(
    alloc: Global,
    parts: &mut Parts,
    file: &File,
    program: &Program,
) -> Result<(), AllocError>
    requires { All (ThreadLinks (plain_file file.now).classes) (plain_program program.now).threads }
    ensures { OnOk result (AddsThreads (plain_file file.now).classes parts.old (plain_program program.now).threads
        parts.new) }
{
    add_threads(alloc, parts, &file.classes, &program.threads)?;
    Ok(())
}

#[tactic(auto, using(crate::proofs::Wholes::whole_linked))]
fn linked_parts(
    alloc: Global,
    units: &[CodeUnit],
    file: &File,
    program: &Program,
) -> Result<Parts, AllocError>
    requires { Links (plain_file file.now) (plain_program program.now) units.now }
    ensures { IfOk result (λ parts. parts ≡ linked (plain_file file.now) (plain_program program.now) units.now) }
{
    let mut parts = first_parts(alloc, file, program)?;
    add_units(&mut parts, units)?;
    add_program(alloc, &mut parts, file, program)?;
    Ok(parts)
}

/// The code of a file's units and of a program's threads. Refused with `CodeTooLong` only if the code has over 65,536
/// instructions. Else the only refusal is that memory ran out.
pub fn link(
    alloc: Global,
    units: &[CodeUnit],
    file: &File,
    program: &Program,
) -> Result<Code, LinkFault>
    requires { Links (plain_file file.now) (plain_program program.now) units.now }
    ensures code { IfOk result (λ c. c ≡ linked (plain_file file.now) (plain_program program.now) units.now) }
    ensures long { result ≡ Err faults.CodeTooLong →
        most_instructions < length (linked (plain_file file.now) (plain_program program.now) units.now).instructions }
    ensures short { IfOk result (λ c. length c.instructions ≤ most_instructions) }
{
    let parts = linked_parts(alloc, units, file, program)?;
    if parts.instructions.len() > MOST_INSTRUCTIONS {
        return Err(LinkFault::CodeTooLong);
    }
    Ok(Code::new(parts).unwrap())
}
