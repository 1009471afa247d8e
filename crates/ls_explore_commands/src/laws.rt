// What is told of schedules that are printed, as the contracts of functions that compute nothing.

ghost use Rattle.ls_explore_commands.specs.Laws.{BeginningsReadBack, RowsReadBack, VerdictsReadBack};

use ls_text_laws::schedules_read_back;

/// The schedule of a row, of at most 1,000,000 steps, is read as it is printed.
pub fn rows_read_back()
    ensures { RowsReadBack }
{
    schedules_read_back();
}

/// So are so many steps of it.
pub fn beginnings_read_back()
    ensures { BeginningsReadBack }
{
    schedules_read_back();
}

/// A schedule of at most 1,000,000 steps, each of which acts, is read as it is printed. Such is that of a verdict.
pub fn verdicts_read_back()
    ensures { VerdictsReadBack }
{
    schedules_read_back();
}
