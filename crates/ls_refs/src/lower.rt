// Methods and files.

ghost use Rattle.ls_lowered.specs.Limits.{most_locals};
ghost use Rattle.std.specs.Prelude.{◌≡◌, ℕ, ◌<◌, ◌≤◌, ◌↔◌, length, map, All, IfOk, IfErr, OnOk, IsTrue};
ghost use Rattle.ls_checked.specs.Plain.{plain_method as checked_method, plain_class, plain_file as checked_file};
ghost use Rattle.ls_lowered.specs.Plain.{plain_method, plain_file};
ghost use Rattle.ls_refs.specs.Temporaries.{locals_of};
ghost use Rattle.ls_refs.specs.Lowered.{lowered_method, lowered_file};
ghost use Rattle.ls_types_judgement.specs.Leaving.{JumpsInLoops};
ghost use Rattle.ls_types_judgement.specs.Jumps.{HasItsLoops};
ghost use Rattle.ls_refs.specs.Refused.{AllFit, AllSlotted, Refused};

use crate::counts::count_locals;
use crate::loops::count_loops;
use crate::statements::lower_statement;
use ls_checked::tree::{Class, File, Method};
use ls_lowered::fault::LowerFault;
use ls_lowered::tree::{File as LoweredFile, Method as Lowered};
use std::alloc::{AllocError, Global};

/// A tree over words, in which markable operations are operations on packed words. Locks are still objects, and `try`
/// statements are as they were written.
pub type RefTree = LoweredFile;

// A method, where its locals aren't too many. After its loops were counted, each number of a jump is known to be a
// machine word.
fn lower_method(alloc: Global, classes: &[Class], method: &Method) -> Result<Lowered, AllocError>
    requires slots { method.now.parameters < length method.now.slots.items }
    requires few { locals_of (checked_method method.now) ≤ most_locals }
    requires loops { JumpsInLoops 0 (checked_method method.now).body }
    ensures { IfOk result (λ m. plain_method m ≡ lowered_method (map plain_class classes.now)
        (checked_method method.now)) }
{
    let arguments = method.parameters + 1;
    count_loops(alloc, &method.body)?;
    let body = lower_statement(alloc, classes, method.slots.len(), &method.body)?;
    Ok(Lowered {
        arguments,
        locals: body.free - arguments,
        body: body.tree,
    })
}

// Whether no method has too many locals.
fn all_fit(methods: &[Method]) -> bool
    ensures { IsTrue result ↔ All (λ m. locals_of (checked_method m) ≤ most_locals) methods.now }
{
    for method in methods {
        if count_locals(method).is_none() {
            return false;
        }
    }
    true
}

/// The tree of a file over words.
pub fn lower_refs(alloc: Global, file: &File) -> Result<RefTree, LowerFault>
    requires slots { AllSlotted (checked_file file.now).methods }
    requires loops { HasItsLoops (checked_file file.now) }
    ensures tree { IfOk result (λ t. plain_file t ≡ lowered_file (checked_file file.now)) }
    ensures fits { OnOk result (AllFit (checked_file file.now).methods) }
    ensures refused { IfErr result (Refused (checked_file file.now)) }
{
    if !all_fit(&file.methods) {
        return Err(LowerFault::TooManyLocals);
    }
    let mut methods = Vec::new(alloc);
    for method in &file.methods {
        methods.push(lower_method(alloc, &file.classes, method)?)?;
    }
    Ok(LoweredFile { methods })
}
