// What `explore --races` says.

ghost use Rattle.ls_faults.specs.Given.{GivesText};
ghost use Rattle.ls_explore_commands.specs.Readable.{AreReadBack};
ghost use Rattle.ls_explore_commands.specs.Races.{Raced, RacesTo};

use crate::deciding::are_bad_states;
use crate::laws::verdicts_read_back;
use crate::race_reports::{Told, print_races};
use ls_compiler::compile;
use ls_explore::ExploreFault;
use ls_explore_reports::names_in;
use ls_faults::fault::ToolFault;
use ls_image::image::Image;
use ls_race_places::{ClassText, tokens_in};
use ls_race_reports::{flags_in, has_try_lock, races_of};
use std::alloc::Global;

/// The text of the races of an image's program.
fn raced(alloc: Global, image: &Image, states: usize, classes: &str) -> Result<String, ToolFault>
    requires { AreReadBack image.now }
    ensures { GivesText (Raced classes.now image.now states) result }
{
    if are_bad_states(states) {
        return Err(ToolFault::Explore(ExploreFault::BadStates));
    }
    let declared = flags_in(alloc, classes)?;
    let flags = declared.as_slice();
    let tokens = tokens_in(alloc, classes)?;
    let found = races_of(alloc, image, states, flags)?;
    let told = Told {
        text: ClassText {
            text: classes,
            tokens: tokens.as_slice(),
        },
        flags,
        found: &found,
        tries: has_try_lock(classes),
    };
    let text = print_races(alloc, names_in(image), told)?;
    Ok(text)
}

/// The simplest run of the compiled program with a data race, over all schedules of source steps, where at most so many
/// states are kept, and on which variables accesses race; or that there is none. Two accesses race if they are to one
/// field or element that isn't volatile, one writes, and two threads are about to make them. Refused as `compile` is;
/// else with 61 if no states may be kept, or more than 16,777,216.
pub fn races(
    alloc: Global,
    states: usize,
    classes: &str,
    program: &str,
) -> Result<String, ToolFault>
    ensures { GivesText (RacesTo states classes.now program.now) result }
{
    let image = compile(alloc, classes, program)?;
    verdicts_read_back();
    raced(alloc, &image, states, classes)
}
