// What each thread's next step does at a state.

ghost use Rattle.std.specs.Prelude.{◌≡◌, ◌<◌, IfOk, None, Some, false, length, map, slice_get, string_bytes, true};
ghost use Rattle.ls_checked.specs.Plain.{plain_file};
ghost use Rattle.ls_labels.specs.Names.{names_of};
ghost use Rattle.ls_transitions.specs.Tables.{Grows};
ghost use Rattle.ls_transitions.specs.Seen.{table_of};
ghost use Rattle.ls_search.specs.Places.{configuration_of};
ghost use Rattle.ls_choices.specs.Points.{ArePlaced, IsActing, standing_at};
ghost use Rattle.ls_choices.specs.Rows.{AreCut, AreRowsCut, HaveRows, rows_of_threads};
ghost use Rattle.ls_choices.specs.Seen.{row_of};
ghost use Rattle.ls_choices.specs.Standing.{Standing};
ghost use Rattle.ls_choices.specs.StandingRows.{AreStandingRows, AreStandingRowsOfAll, IsStandingRow};

use crate::finding::find;
use crate::points::Point;
use crate::telling::{acted_words, idle_words, waiting_words};
use crate::turns::{Turn, turn_of};
use ls_labels::names::Names;
use ls_labels::threads::{end_words, start_words};
use ls_transitions::hash_index::HashIndex;
use ls_transitions::moves::Step;
use ls_transitions::transitions::Transitions;
use std::alloc::{AllocError, Global};

/// A step of a thread: what is told of it, whether it does anything, whether it waits, and the number of the state
/// after it. There is none if that state isn't kept.
#[derive(Drop)]
pub struct Row {
    pub words: String,
    pub acts: bool,
    pub waits: bool,
    pub to: Option<usize>,
}

/// The states that are kept.
#[derive(Drop)]
pub(crate) struct Scene<'a, 's> {
    pub(crate) alloc: Global,
    pub(crate) names: Names<'a>,
    pub(crate) points: &'s [Point],
    pub(crate) index: &'s HashIndex,
    /// Whether no more may be kept.
    pub(crate) full: bool,
}

// The row of a step that does nothing at the state of a number.
fn still_row(words: String, waits: bool, number: usize) -> Row
    ensures { row_of result ≡ record { words = string_bytes words; acts = false; waits = waits; to = Some number } }
{
    Row {
        words,
        acts: false,
        waits,
        to: Some(number),
    }
}

// The row of a step that acts. It is refused where the state after it isn't kept though more may be.
fn acting_row<'a>(
    scene: &Scene<'a, '_>,
    transitions: &Transitions<'a>,
    point: &Point,
    thread: usize,
    step: &Step,
) -> Result<Row, AllocError>
    requires file { (table_of transitions.now).file ≡ plain_file scene.now.names.file.now }
    requires acts { IsActing (table_of transitions.now).file (table_of transitions.now)
        (configuration_of (table_of transitions.now) point.now.place) point.now.place.works.items thread step.now }
    ensures row { IfOk result (λ r. IsStandingRow (names_of scene.now.names)
        (map (standing_at (table_of transitions.now)) scene.now.points.now)
        (standing_at (table_of transitions.now) point.now) thread (row_of r)) }
    ensures full { IfOk result (λ r. r.to ≡ None → scene.now.full ≡ true) }
{
    let after = point.after(scene.alloc, transitions, thread, step)?;
    let words = acted_words(scene.alloc, &scene.names, &after, thread, step)?;
    let to = find(scene.points, scene.index, &after);
    if to.is_none() && !scene.full {
        return Err(AllocError);
    }
    Ok(Row {
        words,
        acts: true,
        waits: false,
        to,
    })
}

// The row of a thread at the state of a number.
fn row_of_thread<'a>(
    scene: &Scene<'a, '_>,
    transitions: &mut Transitions<'a>,
    number: usize,
    thread: usize,
) -> Result<Row, AllocError>
    requires placed { ArePlaced (plain_file scene.now.names.file.now) (table_of transitions.old)
        scene.now.points.now }
    requires there { number < length scene.now.points.now }
    requires within { thread < length (names_of scene.now.names).program.threads }
    ensures row { IfOk result (λ r. (s : Standing) →
        slice_get (map (standing_at (table_of transitions.old)) scene.now.points.now) number ≡ Some s →
        IsStandingRow (names_of scene.now.names)
        (map (standing_at (table_of transitions.old)) scene.now.points.now) s thread (row_of r)) }
    ensures full { IfOk result (λ r. r.to ≡ None → scene.now.full ≡ true) }
    ensures grows { Grows (table_of transitions.old) (table_of transitions.new) }
{
    let alloc = scene.alloc;
    let point = &scene.points[number];
    match turn_of(alloc, transitions, &point.place, thread)? {
        Turn::NotStarted(trapped) => {
            let words = idle_words(alloc, &scene.names, thread, start_words(trapped))?;
            Ok(still_row(words, false, number))
        }
        Turn::Ended(trapped) => {
            let words = idle_words(alloc, &scene.names, thread, end_words(trapped))?;
            Ok(still_row(words, false, number))
        }
        Turn::Waits(work) => {
            let words = waiting_words(alloc, &scene.names, transitions, point, thread, work)?;
            Ok(still_row(words, true, number))
        }
        Turn::Acts(step) => acting_row(scene, transitions, point, thread, &step),
    }
}

// The rows of all threads at the state of a number, the setup first.
fn rows_at<'a>(
    scene: &Scene<'a, '_>,
    transitions: &mut Transitions<'a>,
    number: usize,
) -> Result<Vec<Row>, AllocError>
    requires placed { ArePlaced (plain_file scene.now.names.file.now) (table_of transitions.old)
        scene.now.points.now }
    requires there { number < length scene.now.points.now }
    ensures rows { IfOk result (λ v. (s : Standing) →
        slice_get (map (standing_at (table_of transitions.old)) scene.now.points.now) number ≡ Some s →
        AreStandingRows (names_of scene.now.names)
        (map (standing_at (table_of transitions.old)) scene.now.points.now) s (map row_of v.items)) }
    ensures full { IfOk result (λ v. AreRowsCut (scene.now.full ≡ true) (map row_of v.items)) }
    ensures threads { IfOk result (λ v. length v.items ≡ rows_of_threads (names_of scene.now.names).program) }
    ensures grows { Grows (table_of transitions.old) (table_of transitions.new) }
{
    let mut rows = Vec::new(scene.alloc);
    for thread in 0..scene.names.program.threads.len().min(256) {
        rows.push(row_of_thread(scene, transitions, number, thread)?)?;
    }
    Ok(rows)
}

/// The rows of all threads at each state, and of 256 at most. A refusal is that memory ran out, that a store or a work
/// has no number left, or that a state isn't kept though more may be. That the last is never so isn't proved.
pub(crate) fn rows_of_all<'a>(
    scene: &Scene<'a, '_>,
    transitions: &mut Transitions<'a>,
) -> Result<Vec<Vec<Row>>, AllocError>
    requires placed { ArePlaced (plain_file scene.now.names.file.now) (table_of transitions.old)
        scene.now.points.now }
    ensures rows { IfOk result (λ v. AreStandingRowsOfAll (names_of scene.now.names)
        (map (standing_at (table_of transitions.old)) scene.now.points.now) (map (λ r. map row_of r.items) v.items)) }
    ensures full { IfOk result (λ v. AreCut (scene.now.full ≡ true) (map (λ r. map row_of r.items) v.items)) }
    ensures threads { IfOk result (λ v. HaveRows (rows_of_threads (names_of scene.now.names).program)
        (map (λ r. map row_of r.items) v.items)) }
    ensures many { IfOk result (λ v. length v.items ≡ length scene.now.points.now) }
{
    let mut all = Vec::new(scene.alloc);
    for number in 0..scene.points.len() {
        all.push(rows_at(scene, transitions, number)?)?;
    }
    Ok(all)
}
