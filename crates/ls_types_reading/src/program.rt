// Thread programs.

ghost use Rattle.std.specs.Prelude.{◌≡◌, ◌≤◌, ℕ, IfOk, IfErr, Ok, Some, length};
ghost use Rattle.ls_lexer.specs.Lexemes.{lexemes};
ghost use Rattle.ls_lexer.specs.Places.{Refused};
ghost use Rattle.ls_types_elaboration.specs.Trees.{File, Text};
ghost use Rattle.ls_types_elaboration.specs.Elaboration.{ElaboratedFile, elaborated};
ghost use Rattle.ls_checked.specs.PlainProgram.{plain_program};
ghost use Rattle.ls_types_judgement.specs.WellTyped.{IsWellTypedProgram};
ghost use Rattle.ls_types_checked.specs.CheckedFile.{elaborated_file};
ghost use Rattle.ls_types_programs.specs.ThreadPrograms.{after, beginning, ended, program_of, program_of_tokens};
ghost use Rattle.ls_types_programs.specs.ThreadPrograms.{whole};
ghost use Rattle.ls_types_programs.specs.Programs.{IsTextOf};
ghost use Rattle.ls_types_programs.specs.Stops.{fault_at_end, stops, unmarked};
ghost use Rattle.ls_types_checked.specs.ProgramViews.{ReadsAs, Refuses};
ghost use Rattle.ls_types_reading.specs.ReadingViews.{parts_of, reading_of, stage_of, StopsAt, StopsWith};
ghost use Rattle.ls_types_reading.specs.declared.reading.Stage.TheVariants.{AtThread};
ghost use Rattle.ls_types_checked.specs.ProgramRefusals.{Stands};

use crate::methods::Methods;
use crate::reading::{Parts, Stage};
use crate::setup_names::SetupNames;
use ls_checked::program::Program;
use ls_lexer::fault::TextFault;
use ls_lexer::lexing::lex;
use ls_lexer::token::Token;
use ls_types_checked::checked::Checked;
use ls_types_checked::fault::ProgramFault;
use ls_types_laws::reads_well_typed;
use std::alloc::{AllocError, Global};

fn beginning(alloc: Global) -> Result<Parts, AllocError>
    ensures { IfOk result (λ parts. parts_of parts ≡ beginning.parts) }
{
    Ok(Parts {
        names: SetupNames::new(alloc),
        threads: Vec::new(alloc),
        name: String::from_str(alloc, "setup")?,
        calls: Vec::new(alloc),
    })
}

// Reads all tokens. The answer is the stage after them.
fn read_tokens<'a>(
    alloc: Global,
    methods: &Methods,
    parts: &mut Parts,
    tokens: &[Token<'a>],
) -> Result<Stage<'a>, ProgramFault>
    requires { parts_of parts.old ≡ beginning.parts }
    ensures read { ReadsAs (reading_of parts.new) result
        (after (elaborated_file methods.now.checked.now) (Some beginning) (lexemes tokens.now)) }
    ensures place { (end : ℕ) →
        StopsAt end (stops (elaborated_file methods.now.checked.now) end unmarked beginning tokens.now) result }
{
    let mut stage = Stage::AtSetup;
    for token in tokens {
        stage = parts.stepped(alloc, methods, stage, *token)?;
    }
    Ok(stage)
}

// A program ends after a block. `end` is the end of the text, in bytes.
fn ended(parts: Parts, stage: Stage<'_>, end: usize) -> Result<Program, ProgramFault>
    requires { stage ≡ AtThread → length parts.threads.items ≤ 65 }
    ensures read { ReadsAs plain_program result (whole (Some (reading_of parts stage.entry))) }
    ensures place { IfErr result (λ e. StopsWith e (fault_at_end end (ended (stage_of stage.entry)))) }
{
    match stage {
        Stage::AtThread => Ok(Program {
            names: parts.names.into_names(),
            threads: parts.threads,
        }),
        _ => Err(ProgramFault::BadProgram { at: end }),
    }
}

// Reads all tokens as a program.
fn whole<'a>(
    alloc: Global,
    methods: &Methods,
    tokens: &[Token<'a>],
    end: usize,
) -> Result<Program, ProgramFault>
    ensures read { ReadsAs plain_program result
        (program_of_tokens (elaborated_file methods.now.checked.now) (Some (lexemes tokens.now))) }
    ensures place { IfErr result
        (λ e. StopsWith e (stops (elaborated_file methods.now.checked.now) end unmarked beginning tokens.now)) }
{
    let mut parts = beginning(alloc)?;
    let stage = read_tokens(alloc, methods, &mut parts, tokens)?;
    ended(parts, stage, end)
}

#[tactic(auto, using(crate::proofs::Standing::too_long))]
fn fault_of(fault: TextFault) -> ProgramFault
    ensures refused { (text : Text) → Refused text fault → (o : ElaboratedFile) → Refuses result (program_of o text) }
    ensures stands { (text : Text) → Refused text fault → (o : ElaboratedFile) → Stands o text result }
{
    match fault {
        TextFault::Memory => ProgramFault::Memory,
        TextFault::TooLong => ProgramFault::ProgramLimit,
        TextFault::BadByte { at } => ProgramFault::BadProgram { at },
        TextFault::OpenComment { at } => ProgramFault::BadProgram { at },
        TextFault::BadNumber { at } => ProgramFault::BadProgram { at },
        TextFault::Syntax { at } => ProgramFault::BadProgram { at },
        TextFault::TooDeep { at } => ProgramFault::BadProgram { at },
    }
}

#[tactic(auto, using(crate::proofs::Standing::program_stands, crate::proofs::Standing::program_spelled))]
fn read(alloc: Global, text: &str, checked: &Checked) -> Result<Program, ProgramFault>
    ensures read { IfOk result (λ p. program_of (elaborated_file checked.now) text.now ≡ Some (plain_program p)) }
    ensures spelled { IfOk result (λ p. IsTextOf (elaborated_file checked.now) (plain_program p) text.now) }
    ensures refused { IfErr result (λ e. Refuses e (program_of (elaborated_file checked.now) text.now)) }
    ensures stands { IfErr result (λ e. Stands (elaborated_file checked.now) text.now e) }
{
    match lex(alloc, text) {
        Ok(tokens) => {
            let methods = Methods::new(alloc, checked)?;
            whole(alloc, &methods, &tokens, text.len())
        }
        Err(fault) => Err(fault_of(fault)),
    }
}

/// The thread program that a text is for a checked file. It is the program that the text's tokens spell, and it is
/// well typed.
///
/// Memory may run out. Any other fault says that the text is no program of the file, and the fault is at its place:
///
///   - `BadProgram`: the first token with which no program of any file is spelled; the end; where no token begins;
///   - `BadProgram`: a making in a thread or of a given name; a thread that is named `all` or as another;
///   - `UnknownThing`: a class, setup name or method that doesn't exist;
///   - `UnknownThing`: a class or method with too few or too many arguments; the first argument of another type;
///   - `ReferenceResult`: a method that answers a reference;
///   - `ProgramLimit`: over 262,144 bytes, over 64 threads beside the setup, or over 256 calls of a thread.
pub fn read_program(alloc: Global, text: &str, checked: &Checked) -> Result<Program, ProgramFault>
    ensures read { IfOk result (λ p. program_of (elaborated_file checked.now) text.now ≡ Some (plain_program p)) }
    ensures typed { IfOk result (λ p. (f : File) → elaborated f ≡ Ok (elaborated_file checked.now) →
        IsWellTypedProgram (elaborated_file checked.now).file (plain_program p)) }
    ensures kept { IfOk result (λ p. ∥ IsWellTypedProgram (elaborated_file checked.now).file (plain_program p) ∥₁) }
    ensures spelled { IfOk result (λ p. IsTextOf (elaborated_file checked.now) (plain_program p) text.now) }
    ensures refused { IfErr result (λ e. Refuses e (program_of (elaborated_file checked.now) text.now)) }
    ensures stands { IfErr result (λ e. Stands (elaborated_file checked.now) text.now e) }
{
    reads_well_typed();
    let program = read(alloc, text, checked)?;
    Ok(program)
}
