//! What is printed of a program's runs and schedules can be read: runs as histories, and schedules as the same
//! schedules.
#![tactic(auto)]

ghost use Rattle.ls_text_laws.specs.Histories.{CompiledIsReadable, SourceIsReadable};
ghost use Rattle.ls_text_laws.specs.Rows.{LateReturnIsReadable, ReturnWithoutCallIsNot};
ghost use Rattle.ls_text_laws.specs.Schedules.{IsReadAgain, NamesAreRead, SchedulesReadBack, WhatIsReadIsASchedule};

/// Take a source run of a program text, for a class text's tree that keeps every rule. Each event has the names of its
/// call. What is printed of the run is the text of a history of the events with these names. So `read_history` reads
/// it as that history.
pub fn source_is_readable()
    ensures { SourceIsReadable }
{}

/// The same holds of each run of what two texts are compiled to, on any number of cells that a machine may have.
pub fn compiled_is_readable()
    ensures { CompiledIsReadable }
{}

/// The threads of a program text have names that schedules read. So if a schedule of its threads is printed and read,
/// it is the same schedule. The same holds of any schedule that was read.
pub fn schedules_read_back()
    ensures names { NamesAreRead }
    ensures printed { SchedulesReadBack }
    ensures read { WhatIsReadIsASchedule }
    ensures again { IsReadAgain }
{}

/// The history of a small program's runs as text, and lists of events that are no history.
pub fn rows()
    ensures readable { LateReturnIsReadable }
    ensures unreadable { ReturnWithoutCallIsNot }
{}
