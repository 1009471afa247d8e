// Whether entries are calls of a class.

ghost use Rattle.std.specs.Prelude.{◌≡◌, ◌⊎◌, IfErr, OnOk};
ghost use Rattle.ls_class_programs.specs.Entries.{AllAreCalls, AreCalls, HasNoCall, IsNoCall, fault_of};

use crate::entry_fault::EntryFault;
use crate::{Entry, entries_of};
use ls_compiler::compile;
use ls_compiler::fault::CompileFault;
use ls_families::print_alone;
use ls_types_checked::fault::ProgramFault;
use std::alloc::Global;

/// The fault of an entry whose line begins at a byte, if its program isn't compiled.
fn fault_of(at: usize, fault: CompileFault) -> EntryFault
    ensures { result ≡ fault_of at fault }
{
    match fault {
        CompileFault::Program(ProgramFault::Memory) => EntryFault::Memory,
        CompileFault::Program(
            ProgramFault::BadProgram { at: _ }
            | ProgramFault::UnknownThing { at: _ }
            | ProgramFault::ReferenceResult { at: _ }
            | ProgramFault::ProgramLimit,
        ) => EntryFault::NotCalls { at },
        CompileFault::Text(_) | CompileFault::Check(_) | CompileFault::Build(_) => {
            EntryFault::NotCompiled(fault)
        }
    }
}

/// Checks that an entry is calls of the class for each of so many threads.
fn check_calls(
    alloc: Global,
    classes: &str,
    making: &str,
    threads: u64,
    entry: &Entry,
) -> Result<(), EntryFault>
    ensures good { OnOk result (AreCalls classes.now making.now threads entry.now) }
    ensures bad { IfErr result (λ f. (f ≡ EntryFault.Memory)
        ⊎ IsNoCall classes.now making.now threads entry.now f) }
{
    for i in 0..threads {
        let program = print_alone(alloc, making, i as usize, entry.calls())?;
        if let Err(fault) = compile(alloc, classes, program.as_str()) {
            return Err(fault_of(entry.at(), fault));
        }
    }
    Ok(())
}

/// Checks that each entry of a menu that is written by hand is calls of the class: a program that makes the object and
/// then makes these calls alone compiles, with the number of each of so many threads.
///
/// `NotCalls` has the byte at which the line of an entry begins whose program is no program of the class. `NotCompiled`
/// comes as of `compile`, if the class text isn't compiled.
pub fn check_entries(
    alloc: Global,
    classes: &str,
    making: &str,
    threads: u64,
    menu: &str,
) -> Result<(), EntryFault>
    ensures good { OnOk result (AllAreCalls classes.now making.now threads menu.now) }
    ensures bad { IfErr result (λ f. (f ≡ EntryFault.Memory)
        ⊎ HasNoCall classes.now making.now threads menu.now f) }
{
    let entries = entries_of(alloc, menu)?;
    for entry in &entries {
        check_calls(alloc, classes, making, threads, entry)?;
    }
    Ok(())
}
