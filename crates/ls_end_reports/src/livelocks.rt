// The line of a livelock.

ghost use Rattle.std.specs.Prelude.{◌≡◌, IfOk, string_bytes};
ghost use Rattle.ls_schedule.specs.Reading.{thread_names};
ghost use Rattle.ls_end_reports.specs.Livelocks.{IsLivelockLine, livelock_text};

use crate::lassos::lasso_text;
use ls_checked::program::Program;
use ls_progress::Lasso;
use std::alloc::{AllocError, Global};

/// The line with the text of a lasso.
fn line_of(alloc: Global, lasso: &str) -> Result<String, AllocError>
    ensures { IfOk result (λ line. string_bytes line ≡ livelock_text lasso.now) }
{
    let mut line = String::from_str(
        alloc,
        "// livelock: no call ends, though each thread goes on: ",
    )?;
    line.push_str(lasso)?;
    line.push_str("\n")?;
    Ok(line)
}

/// The line that tells of a livelock. The refusals are those of `written_calls`.
pub fn livelock_line(alloc: Global, lasso: &Lasso, program: &Program) -> Result<String, AllocError>
    ensures { IfOk result (λ line. IsLivelockLine (thread_names program.now) lasso.now (string_bytes line)) }
{
    let text = lasso_text(alloc, lasso, program)?;
    line_of(alloc, text.as_str())
}
