// What is said of one program.

ghost use Rattle.std.specs.Prelude.{◌≡◌, ℕ, IfOk, List, true};
ghost use Rattle.ls_family_search.specs.Judged.{IsJudgement};

use std::alloc::{AllocError, Global};

/// What a judge says of a program.
#[derive(Drop)]
pub enum Judgement<H> {
    /// The search goes on.
    Good,
    /// It goes on, and the program is counted.
    Cut,
    /// It ends here.
    Halt(H),
}

/// Who judges programs by their texts.
pub trait Judge {
    /// Why the search ends with a program.
    type Why: Drop + Send;

    // What is so of a program's text where it is good, where it is cut, and where the search ends with it.
    ghost IsGood: { Self → List ℕ → Type 0 };

    ghost IsCut: { Self → List ℕ → Type 0 };

    ghost Halts: { Self → List ℕ → Self.Why → Type 0 };

    /// Judges a program. The only refusal is that memory ran out.
    fn judge(&self, alloc: Global, program: &str) -> Result<Judgement<Self::Why>, AllocError>
        ensures { IfOk result (IsJudgement (IsGood self.now program.now) (IsCut self.now program.now)
            (Halts self.now program.now)) };

    /// Whether it is plain that a program is good if another is. The only refusal is that memory ran out.
    fn follows(&self, alloc: Global, program: &str, other: &str) -> Result<bool, AllocError>
        ensures { IfOk result (λ plain. plain ≡ true → IsGood self.now other.now → IsGood self.now program.now) };
}

/// How the search passes a program.
#[derive(Copy)]
pub enum Passed {
    /// It is one that stands before it, with two threads exchanged. It is good if that one is, and isn't judged.
    Double,
    Good,
    Cut,
}

impl Clone for Passed {
    fn clone(&self) -> Result<Passed, AllocError> {
        Ok(*self)
    }
}

/// A program with which the search ends: its text, and why.
#[derive(Drop)]
pub struct Halted<H> {
    pub program: String,
    pub halt: H,
}

/// Whether the search goes on after a program.
#[derive(Drop)]
pub(crate) enum ProgramOutcome<H> {
    Passes(Passed),
    Ends(Halted<H>),
}
