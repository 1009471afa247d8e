// The text of a tally with what there is to say of each history.

ghost use Rattle.std.specs.Prelude.{◌≡◌, ◌++◌, IfOk, OnOk, string_bytes};
ghost use Rattle.ls_checked.specs.Plain.{plain_file};
ghost use Rattle.ls_checked.specs.PlainProgram.{plain_program};
ghost use Rattle.ls_batch.specs.Rows.{entry_row};
ghost use Rattle.ls_batch.specs.Judged.{AreHistoriesOf, IsJudged, IsJudgedLike, judged_entry_text};
ghost use Rattle.ls_batch.specs.Judged.{judged_head_text};
ghost use Rattle.ls_specification.specs.Specification.{spec_file, spec_program};

use crate::judging::{Judgement, beside_word, first_word, judgement_like, judgement_on};
use crate::{Entry, Tally};
use ls_checked::program::Program;
use ls_checked::tree::File;
use ls_events::event::Event;
use ls_linearity::{judge_for, own_judge};
use ls_report::print_history;
use ls_serial_orders::once_laws::readable_is_once;
use ls_specification::Specification;
use std::alloc::{AllocError, Global};
use std::fmt::Write;

fn push_judged_head(out: &mut String, entry: &Entry, said: Judgement) -> Result<(), AllocError>
    ensures { OnOk result (string_bytes out.new ≡ string_bytes out.old ++ judged_head_text (entry_row entry.now) said) }
{
    let seed = entry.seed();
    let count = entry.count();
    let first = first_word(said);
    let beside = beside_word(said);
    write!(out, "seed {seed} count {count} {first}{beside}\n")?;
    Ok(())
}

fn push_judged(
    alloc: Global,
    out: &mut String,
    entry: &Entry,
    history: &[Event],
    said: Judgement,
    program: &Program,
) -> Result<(), AllocError>
    requires { history.now ≡ (entry_row entry.now).history }
    ensures { OnOk result (string_bytes out.new ≡ string_bytes out.old ++
        judged_entry_text (plain_program program.now) (entry_row entry.now) said) }
{
    let text = print_history(alloc, history, program)?;
    push_judged_head(out, entry, said)?;
    out.push_str(text.as_str())?;
    out.push_str("\n")
}

/// The text of a tally of runs of a program of a file, with what there is to say of each history: for each a line with
/// its least seed, its count and the words, its lines, and an empty line. The only refusal is that memory ran out.
pub fn print_judged(
    alloc: Global,
    tally: &Tally,
    file: &File,
    program: &Program,
) -> Result<String, AllocError>
    requires { AreHistoriesOf (plain_program program.now) tally.now }
    ensures { IfOk result
        (λ text. IsJudged (plain_file file.now) (plain_program program.now) tally.now (string_bytes text)) }
{
    let judge = own_judge(alloc, file, program)?;
    let mut out = String::new(alloc);
    for entry in tally.entries() {
        let history = entry.history(alloc)?;
        let said = judgement_on(alloc, &judge, history.as_slice(), program)?;
        push_judged(alloc, &mut out, entry, history.as_slice(), said, program)?;
    }
    Ok(out)
}

/// The same with what there is to say of each history by a specification: whether it is linearizable to it.
pub fn print_judged_like(
    alloc: Global,
    tally: &Tally,
    specification: Specification<'_>,
    program: &Program,
) -> Result<String, AllocError>
    requires { AreHistoriesOf (plain_program program.now) tally.now }
    ensures { IfOk result (λ text. IsJudgedLike (spec_file specification.entry) (spec_program specification.entry)
        (plain_program program.now) tally.now (string_bytes text)) }
{
    readable_is_once();
    let judge = judge_for(alloc, specification)?;
    let mut out = String::new(alloc);
    for row in tally.entries() {
        let history = row.history(alloc)?;
        let said = judgement_like(alloc, &judge, history.as_slice())?;
        push_judged(alloc, &mut out, row, history.as_slice(), said, program)?;
    }
    Ok(out)
}
