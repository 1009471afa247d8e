// What is told of calls, with lassos as texts.

ghost use Rattle.std.specs.Prelude.{IfOk};
ghost use Rattle.ls_schedule.specs.Reading.{thread_names};
ghost use Rattle.ls_end_reports.specs.Written.{AreWritten, IsWritten, IsWrittenFair, IsWrittenFree};
ghost use Rattle.ls_end_reports.specs.Written.{IsWrittenGoing};

use crate::lassos::lasso_text;
use ls_checked::program::Program;
use ls_progress::{CallEnds, Fair, Free, Going};
use std::alloc::{AllocError, Global};

/// What is told of a call where no thread has to go on, with the text of the lasso that shows what it isn't.
#[derive(Drop)]
pub enum FreeText {
    WaitFree(u32),
    LockFree(u32, String),
    ObstructionFree(u32, String),
    Blocking(String),
    Unknown,
}

/// Whether a call may not end though all threads go on, with the text of a lasso.
#[derive(Drop)]
pub enum GoingText {
    Nothing,
    Fairly(String),
    ByLocks(String),
}

/// What is told of a call where all threads go on.
#[derive(Drop)]
pub struct FairText {
    pub starving: GoingText,
    pub stopping: GoingText,
}

/// What is told of a call of a thread.
#[derive(Drop)]
pub struct CallText {
    pub thread: u8,
    pub call: u32,
    pub free: FreeText,
    pub fair: FairText,
}

fn written_free(alloc: Global, free: &Free, program: &Program) -> Result<FreeText, AllocError>
    ensures { IfOk result (IsWrittenFree (thread_names program.now) free.now) }
{
    match free {
        Free::WaitFree(most) => Ok(FreeText::WaitFree(*most)),
        Free::LockFree(most, lasso) => {
            let text = lasso_text(alloc, lasso, program)?;
            Ok(FreeText::LockFree(*most, text))
        }
        Free::ObstructionFree(most, lasso) => {
            let text = lasso_text(alloc, lasso, program)?;
            Ok(FreeText::ObstructionFree(*most, text))
        }
        Free::Blocking(lasso) => {
            let text = lasso_text(alloc, lasso, program)?;
            Ok(FreeText::Blocking(text))
        }
        Free::Unknown => Ok(FreeText::Unknown),
    }
}

fn written_going(alloc: Global, going: &Going, program: &Program) -> Result<GoingText, AllocError>
    ensures { IfOk result (IsWrittenGoing (thread_names program.now) going.now) }
{
    match going {
        Going::Nothing => Ok(GoingText::Nothing),
        Going::Fairly(lasso) => {
            let text = lasso_text(alloc, lasso, program)?;
            Ok(GoingText::Fairly(text))
        }
        Going::ByLocks(lasso) => {
            let text = lasso_text(alloc, lasso, program)?;
            Ok(GoingText::ByLocks(text))
        }
    }
}

fn written_fair(alloc: Global, fair: &Fair, program: &Program) -> Result<FairText, AllocError>
    ensures { IfOk result (IsWrittenFair (thread_names program.now) fair.now) }
{
    let starving = written_going(alloc, &fair.starving, program)?;
    let stopping = written_going(alloc, &fair.stopping, program)?;
    Ok(FairText { starving, stopping })
}

fn written(alloc: Global, ends: &CallEnds, program: &Program) -> Result<CallText, AllocError>
    ensures { IfOk result (IsWritten (thread_names program.now) ends.now) }
{
    let free = written_free(alloc, &ends.free, program)?;
    let fair = written_fair(alloc, &ends.fair, program)?;
    Ok(CallText {
        thread: ends.thread,
        call: ends.call,
        free,
        fair,
    })
}

/// The same of each call. A refusal is that memory ran out, or that a lasso doesn't read as it is printed, as each
/// does.
pub fn written_calls(
    alloc: Global,
    calls: &[CallEnds],
    program: &Program,
) -> Result<Vec<CallText>, AllocError>
    ensures { IfOk result (λ v. AreWritten (thread_names program.now) calls.now v.items) }
{
    let mut texts = Vec::new(alloc);
    for ends in calls {
        let text = written(alloc, ends, program)?;
        texts.push(text)?;
    }
    Ok(texts)
}
