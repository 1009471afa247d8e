// Methods and files.

ghost use Rattle.ls_lowered.specs.Limits.{most_locals};
ghost use Rattle.std.specs.Prelude.{◌≡◌, ℕ, ◌≤◌, List, length, map, All, IfOk, IfErr, OnOk};
ghost use Rattle.ls_lowered.specs.Plain.{plain_method, plain_file};
ghost use Rattle.ls_lowered.specs.Course.{Answers};
ghost use Rattle.ls_lowered.specs.Methods.{invoke};
ghost use Rattle.ls_finally.specs.Flat.{flat_method, flat_file};
ghost use Rattle.ls_finally.specs.Placed.{Takes, AllPlaced};
ghost use Rattle.ls_finally.specs.Counts.{locals_of, copies_of, FewCopies, Refused};
ghost use Rattle.ls_finally.specs.Code.{Fits};

use crate::counts::have_few_locals;
use crate::flatten::Lowering;
use crate::stays::is_flat;
use ls_lowered::fault::LowerFault;
use ls_lowered::tree::{File, Method};
use ls_together::assign;
use std::alloc::Global;

// Leaves a method without `try`, if it has few enough copies. A method that needs no lowering stays as it is.
fn lower_method(alloc: Global, method: &mut Method) -> Result<(), LowerFault>
    requires { locals_of (plain_method method.old) ≤ most_locals }
    ensures tree { OnOk result (plain_method method.new ≡ flat_method (plain_method method.old)) }
    ensures few { Fits result (copies_of (plain_method method.old)) }
{
    if is_flat(&method.body) {
        return Ok(());
    }
    let mut lowering = Lowering {
        free: method.arguments + method.locals,
        count: 0,
    };
    let body = lowering.flatten(alloc, &method.body)?;
    assign(&mut method.body, body);
    method.locals = lowering.free - method.arguments;
    Ok(())
}

// Leaves all methods without `try`, if each has few enough copies.
fn lower_methods(alloc: Global, methods: &mut [Method]) -> Result<(), LowerFault>
    requires { All (λ m. locals_of (plain_method m) ≤ most_locals) methods.old }
    ensures tree { OnOk result (map plain_method methods.new ≡ flat_file (map plain_method methods.old)) }
    ensures few { OnOk result (FewCopies (map plain_method methods.old)) }
    ensures refused { IfErr result (Refused (map plain_method methods.old)) }
{
    for method in methods.iter_mut() {
        lower_method(alloc, method)?;
    }
    Ok(())
}

/// The tree of a file without `try`. If a thread enters a method of it, the thread asks for the same and ends in the
/// same way.
///
/// It is refused if a method has over 128 locals, with two for each `try`. It is refused if a method has over 4,096
/// copies of finally blocks. Else the only refusal is that memory ran out.
pub fn lower_finally(alloc: Global, mut tree: File) -> Result<File, LowerFault>
    requires { AllPlaced (plain_file tree) (plain_file tree) }
    ensures tree { IfOk result (λ t. plain_file t ≡ flat_file (plain_file tree)) }
    ensures asks { IfOk result (λ t. (depth m : ℕ) (arguments : List ℕ) (answers : Answers) →
        Takes (plain_file tree) m (length arguments) → invoke (plain_file t) depth m arguments answers ≡
        invoke (plain_file tree) depth m arguments answers) }
    ensures few { OnOk result (FewCopies (plain_file tree)) }
    ensures refused { IfErr result (Refused (plain_file tree)) }
{
    if !have_few_locals(&tree.methods) {
        return Err(LowerFault::TooManyLocals);
    }
    lower_methods(alloc, tree.methods.as_mut_slice())?;
    Ok(tree)
}
