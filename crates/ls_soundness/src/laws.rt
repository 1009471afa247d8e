// The laws: the functions compute nothing, and their contracts say the laws.

ghost use Rattle.ls_checked.specs.CheckedTree.{File};
ghost use Rattle.ls_checked.specs.CheckedProgram.{Program};
ghost use Rattle.ls_preservation.specs.Threads.{IsSound};
ghost use Rattle.ls_preservation.specs.Example;
ghost use Rattle.ls_types_judgement.specs.Typing.{IsTypedFile};
ghost use Rattle.ls_types_judgement.specs.Classes.{HasItsClasses};
ghost use Rattle.ls_types_judgement.specs.WellTyped.{IsWellTyped, IsWellTypedProgram};
ghost use Rattle.ls_types_judgement.specs.Programs.{IsTypedProgram};
ghost use Rattle.ls_soundness.specs.InCall.{SuitedInCall, SuitedInMaking, SuitedInCalling, NextInMaking, NextInCalling};
ghost use Rattle.ls_soundness.specs.InCall.{NextOnNull};
ghost use Rattle.ls_soundness.specs.Cases;

/// Take a thread of a typed program of a typed file, and answers that name things of the right types. Then the thread
/// asks for an action on things and values of the right types.
pub fn is_sound()
    ensures { (file : File) (program : Program) → IsTypedFile file → HasItsClasses file → IsTypedProgram file program →
        IsSound file program }
{}

/// Take answers in kind to a thread, and a call that the thread makes. In words, the call asks what it asks and ends
/// as it ends, whatever the thread does after it. The answers that are left are in kind to what comes after the call.
pub fn suited_in_call()
    ensures { (file : File) → IsTypedFile file → SuitedInCall file }
{}

/// The same holds of the calls of a thread program.
pub fn suited_in_thread()
    ensures making { (file : File) (program : Program) → IsTypedFile file → SuitedInMaking file program }
    ensures calling { (file : File) (program : Program) → IsTypedFile file → SuitedInCalling file program }
{}

/// What a thread does next in a making, in a method's call, and in a call on null.
pub fn next_in_call()
    ensures making { (file : File) (program : Program) → NextInMaking file program }
    ensures calling { (file : File) (program : Program) → NextInCalling file program }
    ensures on_null { (file : File) (program : Program) → NextOnNull file program }
{}

/// What is asked of a file and of a program can be met: the headline's example meets it. Programs of that file with a
/// wrong call don't meet it.
pub fn example()
    ensures file { IsWellTyped Example.file }
    ensures typed { IsWellTypedProgram Example.file Example.program }
    ensures no_name { IsTypedProgram Example.file Cases.of_no_name → ⊥ }
    ensures no_method { IsTypedProgram Example.file Cases.of_no_method → ⊥ }
    ensures with_argument { IsTypedProgram Example.file Cases.with_argument → ⊥ }
    ensures for_an_int { IsTypedProgram Example.file Cases.for_an_int → ⊥ }
{}

/// Arguments and constants, evaluated on small cases.
pub fn rows()
    ensures arguments { Cases.Arguments }
    ensures others { Cases.NoArguments }
    ensures pairs { Cases.Pairs }
{}
