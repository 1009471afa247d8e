// Rows judged by a specification.

ghost use Rattle.std.specs.Prelude.{◌≡◌, All, IfOk};
ghost use Rattle.ls_explore_reports.specs.Judged.{AreEachOnce, AreMeant, IsToldBelowLike, SaysNoSet, rows_of};
ghost use Rattle.ls_specification.specs.Specification.{spec_file, spec_program};

use crate::below::{below, known_if};
use crate::judging::JudgedRow;
use ls_explore::Row;
use ls_linearity::{judge_for, linearity_by};
use ls_specification::Specification;
use ls_verdicts::Verdict;
use std::alloc::{AllocError, Global};

/// The rows, each with what a specification says of its history, and nothing of it as one of a set.
/// With `orders`, what the command `order` tells of the history by the specification stands below the row.
pub fn judge_rows_like<'a>(
    alloc: Global,
    rows: &'a [Row],
    specification: Specification<'_>,
    orders: bool,
) -> Result<Vec<JudgedRow<'a>>, AllocError>
    requires { AreEachOnce rows.now }
    ensures rows { IfOk result (λ judged. rows_of judged.items ≡ rows.now) }
    ensures linear { IfOk result (λ judged. AreMeant (spec_file specification.entry) (spec_program specification.entry)
        judged.items) }
    ensures sets { IfOk result (λ judged. All SaysNoSet judged.items) }
    ensures below { IfOk result (λ judged. All (IsToldBelowLike orders (spec_file specification.entry)
        (spec_program specification.entry)) judged.items) }
{
    let Specification { file, program } = specification;
    let judge = judge_for(alloc, specification)?;
    let known = known_if(alloc, file, program, orders)?;
    let mut judged = Vec::with_capacity(alloc, rows.len())?;
    for at in 0..rows.len() {
        let row = &rows[at];
        let history = row.history();
        let linearity = linearity_by(alloc, &judge, history)?;
        let below = below(alloc, &known, history)?;
        judged.push(JudgedRow::new(row, Verdict::NotOneSet, linearity, below))?;
    }
    Ok(judged)
}
