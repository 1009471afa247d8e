// The command `page` where one chooses who steps next.

ghost use Rattle.std.specs.Prelude.{◌≡◌, ◌↔◌, IsTrue, option_map};
ghost use Rattle.ls_types_checked.specs.CheckedFile.{elaborated_file};
ghost use Rattle.ls_labels.specs.Names.{names_of};
ghost use Rattle.ls_faults.specs.Given.{GivesText};
ghost use Rattle.ls_items.specs.Cutting.{plain_text};
ghost use Rattle.ls_page.specs.ChoicesData.{reference_of};
ghost use Rattle.ls_choosing.specs.Chosen.{AreBadStates, ChoosesTo, Chooses, FollowsLike, FollowsTo, RefersTo, RunsTo};
ghost use Rattle.ls_choosing.specs.Chosen.{ShowsTo, wanted_of};

use crate::wanted::Wanted;
use ls_commands::names_in;
use ls_explore::ExploreFault;
use ls_faults::fault::ToolFault;
use ls_labels::names::Names;
use ls_page::{Reference, Texts, choices_data, setup_steps};
use ls_parser::parsing::parse_text;
use ls_schedule::read_schedule;
use ls_specification::Specification;
use ls_specified::specified;
use ls_types::{check, read_program};
use ls_types_checked::checked::Checked;
use std::alloc::Global;

/// The most states that may be kept.
const MOST_STATES: usize = 200_000;

/// The most steps of a setup.
const MOST_STEPS: usize = 100_000;

// Whether no states may be kept, or too many.
fn are_bad_states(states: usize) -> bool
    ensures { IsTrue result ↔ AreBadStates states }
{
    states == 0 || states > MOST_STATES
}

// The page of the states after the setup.
fn shown(
    alloc: Global,
    wanted: Wanted,
    reference: Option<Reference<'_>>,
    names: Names,
) -> Result<String, ToolFault>
    ensures { GivesText (ShowsTo (wanted_of wanted.entry) (reference_of reference.entry) (names_of names.entry))
        result }
{
    if are_bad_states(wanted.states) {
        return Err(ToolFault::Explore(ExploreFault::BadStates));
    }
    match setup_steps(alloc, names, MOST_STEPS)? {
        Some(first) => {
            let page = choices_data(alloc, names, wanted.texts, reference, &first, wanted.states)?;
            Ok(page)
        }
        None => Err(ToolFault::Explore(ExploreFault::SetupEndless)),
    }
}

// The same, once the schedule is read.
fn followed(
    alloc: Global,
    wanted: Wanted,
    reference: Option<Reference<'_>>,
    names: Names,
) -> Result<String, ToolFault>
    ensures { GivesText (FollowsTo (wanted_of wanted.entry) (reference_of reference.entry) (names_of names.entry))
        result }
{
    read_schedule(alloc, wanted.texts.schedule, names.program)?;
    shown(alloc, wanted, reference, names)
}

// The page by a reference, which specifies the program.
fn followed_by(
    alloc: Global,
    wanted: Wanted,
    reference: &str,
    names: Names,
) -> Result<String, ToolFault>
    ensures { GivesText (FollowsLike (wanted_of wanted.entry) reference.now (names_of names.entry)) result }
{
    let image = specified(alloc, reference, wanted.texts.program, names.program)?;
    let specification = Specification::own(image.checked().file(), image.program());
    let told = Reference::new(reference, specification);
    followed(alloc, wanted, Some(told), names)
}

// The page of a program, by its own calls or by a reference.
fn referred(alloc: Global, wanted: Wanted, names: Names) -> Result<String, ToolFault>
    ensures { GivesText (RefersTo (wanted_of wanted.entry) (names_of names.entry)) result }
{
    match wanted.reference {
        Some(reference) => followed_by(alloc, wanted, reference, names),
        None => followed(alloc, wanted, None, names),
    }
}

// The page of the program that the text is for the checked file.
fn run(alloc: Global, wanted: Wanted, checked: &Checked) -> Result<String, ToolFault>
    ensures { GivesText (RunsTo (wanted_of wanted.entry) (elaborated_file checked.now)) result }
{
    let program = read_program(alloc, wanted.texts.program, checked)?;
    referred(alloc, wanted, names_in(checked, &program))
}

// The page of the file that the class text is.
fn chosen(alloc: Global, wanted: Wanted) -> Result<String, ToolFault>
    ensures { GivesText (Chooses (wanted_of wanted.entry)) result }
{
    let parsed = parse_text(alloc, wanted.texts.classes)?;
    let checked = check(alloc, parsed)?;
    run(alloc, wanted, &checked)
}

/// The data of a page on which one chooses who steps next, from the Java text: a JSON object in one line. It has the
/// texts, the states after the setup, of which so many are kept at most, and serial histories: those of the program, or
/// of a reference that is given. The schedule is empty, or that of a run with which the page begins.
///
/// The first text that breaks is refused with its fault: first the class text, then the program, then the reference,
/// then the schedule. It is refused with 61 if no states may be kept, or more than 200,000; with 62 if the setup has
/// not ended in 100,000 steps; and if memory runs out.
pub fn choose(
    alloc: Global,
    reference: Option<&str>,
    states: usize,
    classes: &str,
    program: &str,
    schedule: &str,
) -> Result<String, ToolFault>
    ensures { GivesText (ChoosesTo (option_map plain_text reference.entry) states classes.now program.now schedule.now)
        result }
{
    let texts = Texts {
        classes,
        program,
        schedule,
    };
    let wanted = Wanted {
        texts,
        reference,
        states,
    };
    chosen(alloc, wanted)
}
