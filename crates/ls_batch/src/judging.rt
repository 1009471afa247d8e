// What there is to say of a history.

ghost use Rattle.std.specs.Prelude.{◌≡◌, IfOk};
ghost use Rattle.ls_checked.specs.CheckedProgram.{Program as ProgramValue};
ghost use Rattle.ls_checked.specs.CheckedTree.{File as FileValue};
ghost use Rattle.ls_checked.specs.PlainProgram.{plain_program};
ghost use Rattle.ls_linearity.specs.Judges.{Judges};
ghost use Rattle.ls_linearizable.specs.Once.{AreOnce};
ghost use Rattle.ls_verdicts.specs.Verdicts.{IsHistoryOf};
ghost use Rattle.ls_batch.specs.Judged.{IsJudgement, IsJudgementLike};
ghost use Rattle.ls_batch.specs.Words.{beside_set, beside_text, first_text, linearity_text};

use ls_checked::program::Program;
use ls_events::event::Event;
use ls_linearity::{Linearity, SerialJudge, linearity_by};
use ls_serial_orders::once_laws::readable_is_once;
use ls_verdicts::{Verdict, verdict_on};
use std::alloc::{AllocError, Global};

/// What there is to say of a history.
#[derive(Copy)]
pub struct Judgement {
    /// Whether its set calls have a legal order.
    pub verdict: Verdict,
    /// Whether it is linearizable to its program.
    pub linearity: Linearity,
}

impl Clone for Judgement {
    fn clone(&self) -> Result<Judgement, AllocError> {
        Ok(*self)
    }
}

/// What there is to say of a history of a run of the program. The only refusal is that memory ran out.
pub(crate) fn judgement_on(
    alloc: Global,
    judge: &SerialJudge,
    history: &[Event],
    program: &Program,
) -> Result<Judgement, AllocError>
    requires { IsHistoryOf (plain_program program.now) history.now }
    ensures { IfOk result (λ said. (file : FileValue) → Judges file (plain_program program.now) judge.now →
        IsJudgement file (plain_program program.now) history.now said) }
{
    readable_is_once();
    let verdict = verdict_on(alloc, history, program)?;
    let linearity = linearity_by(alloc, judge, history)?;
    Ok(Judgement { verdict, linearity })
}

/// What there is to say of a history by a reference. The only refusal is that memory ran out.
pub(crate) fn judgement_like(
    alloc: Global,
    judge: &SerialJudge,
    history: &[Event],
) -> Result<Judgement, AllocError>
    ensures { IfOk result (λ said. (file : FileValue) (program : ProgramValue) → Judges file program judge.now →
        AreOnce history.now → IsJudgementLike file program history.now said) }
{
    let linearity = linearity_by(alloc, judge, history)?;
    Ok(Judgement {
        verdict: Verdict::NotOneSet,
        linearity,
    })
}

/// Whether a history is linearizable.
fn linearity_word(linearity: Linearity) -> &'static str
    ensures { result.now ≡ linearity_text linearity }
{
    match linearity {
        Linearity::Linearizable => "linearizable",
        Linearity::NotLinearizable => "not linearizable",
        Linearity::LongCall => "not judged: a call goes on",
        Linearity::ManyStates => "not judged: too many states",
    }
}

/// Whether set calls have a legal order; and whether other calls are linearizable.
pub(crate) fn first_word(said: Judgement) -> &'static str
    ensures { result.now ≡ first_text said.verdict said.linearity }
{
    match said.verdict {
        Verdict::Legal => "legal",
        Verdict::Illegal => "illegal",
        Verdict::TooManyTrapped => "not judged",
        Verdict::NotOneSet => linearity_word(said.linearity),
    }
}

/// That set calls are not linearizable.
fn beside_set(linearity: Linearity) -> &'static str
    ensures { result.now ≡ beside_set linearity }
{
    match linearity {
        Linearity::NotLinearizable => ", not linearizable",
        Linearity::Linearizable | Linearity::LongCall | Linearity::ManyStates => "",
    }
}

/// What is said beside the first word.
pub(crate) fn beside_word(said: Judgement) -> &'static str
    ensures { result.now ≡ beside_text said.verdict said.linearity }
{
    match said.verdict {
        Verdict::NotOneSet => "",
        Verdict::Legal | Verdict::Illegal | Verdict::TooManyTrapped => beside_set(said.linearity),
    }
}
