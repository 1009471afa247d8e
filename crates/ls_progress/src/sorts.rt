// What a step of a thread is.

ghost use Rattle.std.specs.Prelude.{◌≡◌, IfOk};
ghost use Rattle.ls_progress.specs.Sorts.{is_silent, sort_at, sort_of_action};

use ls_events::action::Action;
use ls_events::value::Value;
use ls_graph::closing::number_of;
use std::alloc::AllocError;

/// What a step of a thread is that isn't over.
#[derive(Copy)]
pub enum Sort {
    /// It waits for a lock.
    Waits,
    /// It acts, within a call.
    Inside,
    /// It ends a call.
    Ends,
    /// It begins the call of this number.
    Begins(u32),
}

impl Clone for Sort {
    fn clone(&self) -> Result<Sort, AllocError> {
        Ok(*self)
    }
}

/// What the step is that makes this action. It is refused where the number of a call has over 32 bits.
pub(crate) fn sort_of(action: &Action<Value>) -> Result<Sort, AllocError>
    ensures { IfOk result (λ s. s ≡ sort_of_action action.now) }
{
    match action {
        Action::Call(call) => {
            let call = number_of(*call)?;
            Ok(Sort::Begins(call))
        }
        Action::Return(_, _) => Ok(Sort::Ends),
        Action::Trap(_, _) => Ok(Sort::Ends),
        _ => Ok(Sort::Inside),
    }
}

/// The mark of an edge for such a step. It is refused where it has over 32 bits.
pub(crate) fn mark_of(sort: Sort) -> Result<u32, AllocError>
    ensures { IfOk result (λ m. sort_at m ≡ sort) }
{
    match sort {
        Sort::Waits => Ok(0),
        Sort::Inside => Ok(1),
        Sort::Ends => Ok(2),
        Sort::Begins(call) => {
            if call > 0xffff_fff0 {
                return Err(AllocError);
            }
            Ok(call + 3)
        }
    }
}

/// What the step is of an edge with this mark.
pub(crate) fn sort_at(mark: u32) -> Sort
    ensures { result ≡ sort_at mark }
{
    if mark == 0 {
        return Sort::Waits;
    }
    if mark == 1 {
        return Sort::Inside;
    }
    if mark == 2 {
        return Sort::Ends;
    }
    Sort::Begins(mark - 3)
}

/// Whether no call begins or ends with the step.
pub(crate) fn is_silent(sort: Sort) -> bool
    ensures { result ≡ is_silent sort }
{
    match sort {
        Sort::Waits | Sort::Inside => true,
        Sort::Ends | Sort::Begins(_) => false,
    }
}
