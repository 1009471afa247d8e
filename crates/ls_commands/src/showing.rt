// What is shown of a run from the Java text: the commands `source`, `trace` and `state`.

ghost use Rattle.std.specs.Prelude.{◌≡◌, IfOk, string_bytes};
ghost use Rattle.ls_checked.specs.PlainProgram.{plain_program};
ghost use Rattle.ls_types_checked.specs.CheckedFile.{elaborated_file};
ghost use Rattle.ls_labels.specs.Names.{names_of};
ghost use Rattle.ls_faults.specs.Given.{GivesText};
ghost use Rattle.ls_commands.specs.Viewed.{names_in, shown, viewed, RunsTo, ViewsTo};

use ls_checked::program::Program;
use ls_faults::fault::ToolFault;
use ls_labels::names::Names;
use ls_page::first_steps;
use ls_parser::parsing::parse_text;
use ls_report::print_history;
use ls_schedule::read_schedule;
use ls_source::run::play;
use ls_state::{Form, drawing, each, state};
use ls_text_laws::source_is_readable;
use ls_trace::{folded_trace, trace};
use ls_types::{check, read_program};
use ls_types_checked::checked::Checked;
use std::alloc::{AllocError, Global};

/// What is shown of a run.
#[derive(Copy)]
pub enum View {
    History,
    /// What each step does, from one step to another; they are numbered from 1.
    Trace { from: usize, to: usize },
    /// The same, with neighbouring steps that change nothing in one line.
    Folded { from: usize, to: usize },
    /// What holds after so many steps.
    State { to: usize },
    Drawing { to: usize },
    /// What holds after each step, from one to another.
    States { from: usize, to: usize },
    Drawings { from: usize, to: usize },
}

impl Clone for View {
    ghost use Rattle.std.specs.Prelude.{◌≡◌, IfOk};

    fn clone(&self) -> Result<View, AllocError>
        ensures { IfOk result (λ copy. copy ≡ self.now) }
    {
        Ok(*self)
    }
}

/// The names of a checked file and a program of it.
pub fn names_in<'n>(checked: &'n Checked, program: &'n Program) -> Names<'n>
    ensures { names_of result ≡ names_in (elaborated_file checked.now) (plain_program program.now) }
{
    Names {
        classes: checked.class_names(),
        signs: checked.class_signs(),
        file: checked.file(),
        program,
    }
}

/// What is shown of the run of a schedule.
fn shown(alloc: Global, view: View, names: Names, steps: &[u8]) -> Result<String, AllocError>
    ensures { IfOk result (λ text. string_bytes text ≡ shown view (names_of names.entry) steps.now) }
{
    match view {
        View::History => {
            let events = play(alloc, names.file, names.program, steps)?;
            print_history(alloc, &events, names.program)
        }
        View::Trace { from, to } => trace(alloc, names, steps, from, to),
        View::Folded { from, to } => folded_trace(alloc, names, steps, from, to),
        View::State { to } => state(alloc, names, first_steps(steps, to)),
        View::Drawing { to } => drawing(alloc, names, first_steps(steps, to)),
        View::States { from, to } => each(alloc, names, steps, Form::Lines, from, to),
        View::Drawings { from, to } => each(alloc, names, steps, Form::Graph, from, to),
    }
}

/// What is shown of the program's run under the schedule.
fn viewed(alloc: Global, view: View, names: Names, schedule: &str) -> Result<String, ToolFault>
    ensures { GivesText (λ answer. answer ≡ viewed view (names_of names.entry) schedule.now) result }
{
    let schedule = read_schedule(alloc, schedule, names.program)?;
    Ok(shown(alloc, view, names, schedule.steps())?)
}

/// What is shown of the program that the text is for the checked file.
fn run(
    alloc: Global,
    view: View,
    checked: &Checked,
    program: &str,
    schedule: &str,
) -> Result<String, ToolFault>
    ensures { GivesText (RunsTo view (elaborated_file checked.now) program.now schedule.now) result }
{
    let program = read_program(alloc, program, checked)?;
    viewed(alloc, view, names_in(checked, &program), schedule)
}

/// What is shown of a run from the Java text.
pub fn show(
    alloc: Global,
    view: View,
    classes: &str,
    program: &str,
    schedule: &str,
) -> Result<String, ToolFault>
    ensures { GivesText (ViewsTo view classes.now program.now schedule.now) result }
{
    let parsed = parse_text(alloc, classes)?;
    let checked = check(alloc, parsed)?;
    source_is_readable();
    run(alloc, view, &checked, program, schedule)
}
