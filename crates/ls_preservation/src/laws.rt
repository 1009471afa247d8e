// The laws: the functions compute nothing, and their contracts say the laws.

ghost use Rattle.std.specs.Prelude.{◌≡◌, ℕ, ◌++◌, List, length, All};
ghost use Rattle.ls_events.specs.declared.value.Value.{Value};
ghost use Rattle.ls_events.specs.declared.value.ValueType.{ValueType};
ghost use Rattle.ls_checked.specs.CheckedTree.{File};
ghost use Rattle.ls_checked.specs.CheckedProgram.{Program};
ghost use Rattle.ls_meaning.specs.declared.sort.Sort.{Sort};
ghost use Rattle.ls_meaning.specs.Constants.{FileHasConstants, ProgramHasConstants};
ghost use Rattle.ls_code.specs.Code.{Code};
ghost use Rattle.ls_preservation.specs.InWords.{written, ArePlaces};
ghost use Rattle.ls_preservation.specs.Sorts.{HasSortBy, Refers};
ghost use Rattle.ls_preservation.specs.Threads.{Asks, IsSound};
ghost use Rattle.ls_preservation.specs.Same.{Fits, Same};
ghost use Rattle.ls_preservation.specs.ByWords.{IsExchanged, FedByWords, AsksByWords};
ghost use Rattle.ls_preservation.specs.Example;
ghost use Rattle.ls_preservation.specs.Rows;

use ls_meaning::laws::next_renames;

/// Assume that the threads of code ask what the source asks. Assume too that the source's constants name no
/// object, and that its threads ask on things of the right types. Then the code is the same as its source, for each
/// number of cells. Each schedule of instructions has a schedule of source steps with the same trace and history. Each
/// schedule of source steps that fits has a schedule of instructions with the same trace and history.
pub fn same_traces()
    ensures { (file : File) (program : Program) (code : Code) → Asks file program code → FileHasConstants file →
        ProgramHasConstants program → IsSound file program → Same file program code }
{
    next_renames();
}

/// Take a thread that takes locks by load and exchange. Feed it, by its own instructions, with the words that it sees
/// and the outcomes of its exchanges. Then it asks and ends as it is read to do after the answers that these words and
/// outcomes give.
#[tactic(auto, using(crate::proofs::FedByWords::fed_by_words))]
pub fn fed_by_words()
    ensures { FedByWords }
{}

/// So if the threads of code ask what the source asks, they ask for it by their own instructions.
#[tactic(auto, using(crate::proofs::AskedByWords::asks_by_words))]
pub fn asks_by_words()
    ensures { (file : File) (program : Program) (code : Code) → Asks file program code →
        All IsExchanged code.instructions → AsksByWords file program code }
{}

/// If the sort of a value is known, its word determines the value. So a trace in words says what the source's trace
/// says.
pub fn words_determine()
    ensures { (things : List ValueType) (ρ : ℕ → ℕ) → ArePlaces (length things) ρ → (s : Sort) (v w : Value) →
        HasSortBy (Refers things) v s → HasSortBy (Refers things) w s → written ρ v ≡ written ρ w → v ≡ w }
{}

/// If a schedule of source steps fits, each beginning of it fits. So if a schedule doesn't fit, there is a first step
/// that doesn't.
pub fn fits_shorter()
    ensures { (file : File) (program : Program) (cells : ℕ) (first rest : List ℕ) → Fits file program cells
        (first ++ rest) → Fits file program cells first }
{}

/// What is asked of code and of the meaning can be met. A program meets it whose setup makes an object and whose
/// other thread takes a lock, with code of that program.
pub fn example()
    ensures asks { Asks Example.file Example.program Example.code }
    ensures constants { FileHasConstants Example.file × ProgramHasConstants Example.program }
    ensures sound { IsSound Example.file Example.program }
    ensures exchanged { All IsExchanged Example.code.instructions }
{}

/// The definitions, evaluated on small cases.
pub fn rows()
    ensures words { Rows.WordsOfValues }
    ensures cells { Rows.CellsOfThings }
    ensures to_source { Rows.ScheduleToSource }
    ensures to_machine { Rows.ScheduleToMachine }
    ensures births { Rows.BirthsOfRun }
    ensures numbers { Rows.NumbersOfBirths }
    ensures kinds { Rows.AnswersInKind }
    ensures room { Rows.RoomOfRun }
    ensures by_words { Rows.WordsOfLock }
{}
