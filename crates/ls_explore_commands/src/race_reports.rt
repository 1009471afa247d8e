// The text of a program's data races.

ghost use Rattle.std.specs.Prelude.{◌≡◌, ◌++◌, IfOk, OnOk, map, string_bytes};
ghost use Rattle.std.specs.Option.{option_copied};
ghost use Rattle.ls_labels.specs.Names.{names_of};
ghost use Rattle.ls_schedule.specs.Reading.{thread_names};
ghost use Rattle.ls_explore_commands.specs.RaceReports.{accesses_text, extent_text, kind_line, whole_text};
ghost use Rattle.ls_explore_commands.specs.RaceReports.{after_fields, before_fields, field_line, head_text, kinds_text};
ghost use Rattle.ls_explore_commands.specs.RaceReports.{lines_unless, none_found, none_text, races_text};
ghost use Rattle.ls_race_places.specs.Places.{last_lines};

use crate::reporting::push_run;
use ls_fewest_switches::SimpleRun;
use ls_labels::names::Names;
use ls_race_laws::access::Kind;
use ls_race_places::{ClassText, push_last_lines};
use ls_race_reports::{first_sure, kind_words};
use ls_races::{Race, Races, is_unsure};
use ls_trace::trace;
use std::alloc::{AllocError, Global};
use std::fmt::Write;

/// What is told of races: the class text, the flags of the classes' fields, what was found, and whether the class text
/// has a call of `tryLock`.
#[derive(Copy)]
pub(crate) struct Told<'a> {
    pub text: ClassText<'a>,
    pub flags: &'a [Vec<bool>],
    pub found: &'a Races,
    pub tries: bool,
}

impl<'a> Clone for Told<'a> {
    fn clone(&self) -> Result<Told<'a>, AllocError> {
        Ok(*self)
    }
}

fn words_before(unsure: bool) -> &'static str
    ensures { result.now ≡ before_fields unsure }
{
    if unsure { "not known of " } else { "race on " }
}

fn words_after(unsure: bool) -> &'static str
    ensures { result.now ≡ after_fields unsure }
{
    if unsure {
        ": these classes have as many fields, and not all of these are volatile\n"
    } else {
        ": write volatile before it, or hold one lock at both accesses\n"
    }
}

/// Adds what is told of fields on which accesses race.
fn push_field_line(out: &mut String, unsure: bool, fields: &str) -> Result<(), AllocError>
    ensures { OnOk result (string_bytes out.new ≡ string_bytes out.old ++ field_line unsure fields.now) }
{
    out.push_str(words_before(unsure))?;
    out.push_str(fields)?;
    out.push_str(words_after(unsure))
}

/// Adds what is told of a kind of variable on which accesses race.
fn push_kind(
    alloc: Global,
    out: &mut String,
    names: Names<'_>,
    flags: &[Vec<bool>],
    on: Kind,
) -> Result<(), AllocError>
    ensures { OnOk result (string_bytes out.new ≡ string_bytes out.old ++
        kind_line (names_of names.entry) (map (λ v. v.items) flags.now) on) }
{
    match on {
        Kind::Element => out.push_str(
            "race on an element of boolean[]: hold one lock at both accesses, since no element is volatile\n",
        ),
        Kind::Field { .. } => {
            let text = kind_words(alloc, names, flags, on)?;
            push_field_line(out, is_unsure(flags, on), text.as_str())
        }
    }
}

/// Adds where the class text has the accesses of a race, unless it isn't known to be one.
fn push_places(
    alloc: Global,
    out: &mut String,
    names: Names<'_>,
    text: ClassText<'_>,
    unsure: bool,
    steps: &[u8],
) -> Result<(), AllocError>
    ensures { OnOk result (string_bytes out.new ≡ string_bytes out.old ++
        lines_unless unsure (last_lines (names_of names.entry) text.entry.text.now text.entry.tokens.now steps.now)) }
{
    if unsure {
        return Ok(());
    }
    push_last_lines(alloc, out, names, text, steps)
}

/// Adds a line for each kind of variable on which accesses race, and where the class text has the accesses.
fn push_kinds(
    alloc: Global,
    out: &mut String,
    names: Names<'_>,
    text: ClassText<'_>,
    flags: &[Vec<bool>],
    races: &[Race],
) -> Result<(), AllocError>
    ensures { OnOk result (string_bytes out.new ≡ string_bytes out.old ++
        kinds_text (names_of names.entry) text.entry.text.now text.entry.tokens.now (map (λ v. v.items) flags.now)
        races.now) }
{
    match races {
        [] => Ok(()),
        [race, rest @ ..] => {
            push_kind(alloc, out, names, flags, race.on)?;
            let unsure = is_unsure(flags, race.on);
            push_places(alloc, out, names, text, unsure, race.schedule.steps())?;
            push_kinds(alloc, out, names, text, flags, rest)
        }
    }
}

/// Adds the lines of the last two steps of a run.
fn push_accesses(
    alloc: Global,
    out: &mut String,
    names: Names<'_>,
    steps: &[u8],
) -> Result<(), AllocError>
    ensures { OnOk result (string_bytes out.new ≡ string_bytes out.old ++
        accesses_text (names_of names.entry) steps.now) }
{
    let to = steps.len();
    let lines = trace(alloc, names, steps, to.saturating_sub(1), to)?;
    out.push_str(lines.as_str())
}

/// What is told where no accesses were found that race.
fn none_found(complete: bool, tries: bool) -> &'static str
    ensures { result.now ≡ none_found complete tries }
{
    if !complete {
        return "no data race in what was explored\n";
    }
    if tries {
        return "no data race, if a tryLock() that fails sees what the owner of its lock did before it took the lock\n";
    }
    "no data race\n"
}

/// What is told where no run with a race is.
fn none_words(races: &[Race], complete: bool, tries: bool) -> &'static str
    ensures { result.now ≡ none_text races.now complete tries }
{
    match races {
        [] => none_found(complete, tries),
        [_, ..] => "not known whether there is a data race\n",
    }
}

/// The run of a race.
fn run_of(alloc: Global, race: &Race) -> Result<SimpleRun, AllocError>
    ensures schedule { IfOk result (λ r. r.schedule ≡ race.now.schedule) }
    ensures fewest { IfOk result (λ r. r.fewest ≡ race.now.fewest) }
{
    Ok(SimpleRun {
        schedule: race.schedule.copied(alloc)?,
        fewest: race.fewest,
    })
}

/// Adds the run of a race, if there is one; else these words.
fn push_head(
    alloc: Global,
    out: &mut String,
    names: Names<'_>,
    race: Option<&Race>,
    otherwise: &str,
) -> Result<(), AllocError>
    ensures { OnOk result (string_bytes out.new ≡ string_bytes out.old ++
        head_text (names_of names.entry) (thread_names names.entry.program.now) (option_copied race.entry)
        otherwise.now) }
{
    match race {
        None => out.push_str(otherwise),
        Some(race) => {
            let run = run_of(alloc, race)?;
            push_run(alloc, out, names, "data race", &run)?;
            push_accesses(alloc, out, names, race.schedule.steps())
        }
    }
}

fn whole_words(complete: bool) -> &'static str
    ensures { result.now ≡ whole_text complete }
{
    if complete { " complete\n" } else { " cut\n" }
}

/// Adds how many states were kept, and whether all variables are told on which accesses race.
fn push_extent(out: &mut String, states: usize, complete: bool) -> Result<(), AllocError>
    ensures { OnOk result (string_bytes out.new ≡ string_bytes out.old ++ extent_text states complete) }
{
    write!(out, "states {states}")?;
    out.push_str(whole_words(complete))
}

/// The text of a program's data races. The only refusal is that memory ran out.
pub(crate) fn print_races(
    alloc: Global,
    names: Names<'_>,
    told: Told<'_>,
) -> Result<String, AllocError>
    ensures { IfOk result (λ text. string_bytes text ≡
        races_text (names_of names.entry) told.entry.text.text.now told.entry.text.tokens.now
        (thread_names names.entry.program.now)
        (map (λ v. v.items) told.entry.flags.now) told.entry.found.now.races.items told.entry.found.now.states
        told.entry.found.now.complete told.entry.tries) }
{
    let races = told.found.races.as_slice();
    let complete = told.found.complete;
    let otherwise = none_words(races, complete, told.tries);
    let mut out = String::new(alloc);
    push_head(
        alloc,
        &mut out,
        names,
        first_sure(told.flags, races),
        otherwise,
    )?;
    push_kinds(alloc, &mut out, names, told.text, told.flags, races)?;
    push_extent(&mut out, told.found.states, complete)?;
    Ok(out)
}
