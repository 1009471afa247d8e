// All states from a schedule on.

ghost use Rattle.std.specs.Prelude.{◌≡◌, ◌<◌, ◌≤◌, IfOk, Some, length, map, slice_get, true};
ghost use Rattle.ls_checked.specs.Plain.{plain_file};
ghost use Rattle.ls_checked.specs.PlainProgram.{plain_program};
ghost use Rattle.ls_labels.specs.Names.{names_of};
ghost use Rattle.ls_transitions.specs.Seen.{table_of};
ghost use Rattle.ls_choices.specs.Points.{ArePlaced, IsPlaced, standing_at};
ghost use Rattle.ls_choices.specs.Reaching.{IsClosed};
ghost use Rattle.ls_choices.specs.Rows.{AreCut, AreLight, HaveRows, IsFull, IsGraphFrom};
ghost use Rattle.ls_choices.specs.Rows.{rows_of_threads, weight_of};
ghost use Rattle.ls_choices.specs.Schedules.{told_after};
ghost use Rattle.ls_choices.specs.Seen.{AreStates, graph_of};
ghost use Rattle.ls_choices.specs.Standing.{StandsAt};

use crate::finding::index_of;
use crate::moment::Moment;
use crate::paths::paths_to;
use crate::points::{Point, weigh};
use crate::rows::{Row, Scene, rows_of_all};
use crate::space::ChoiceSpace;
use crate::weights::{MOST_WEIGHT, are_full, are_light, weights_of};
use ls_checked::program::Program;
use ls_graph::closing::{Closing, Plan, close};
use ls_graph::costs::Counted;
use ls_graph::nodes::Bounds;
use ls_labels::names::Names;
use ls_search::numbering::{Numbered, number};
use ls_search::places::NumberedState;
use ls_transitions::transitions::Transitions;
use std::alloc::{AllocError, Global};

/// States by number: for each the schedule by which it was found, and the rows of its threads.
#[derive(Drop)]
pub struct Choices {
    pub paths: Vec<Vec<u8>>,
    pub rows: Vec<Vec<Row>>,
}

// Where a graph begins: the tables, and the first state.
#[derive(Drop)]
struct Beginning<'a> {
    transitions: Transitions<'a>,
    root: Point,
}

// The states that are kept, and the paths to them.
#[derive(Drop)]
struct States<'a> {
    transitions: Transitions<'a>,
    closing: Closing<Point>,
    paths: Vec<Vec<u8>>,
}

// The state after a schedule.
fn begin<'a>(alloc: Global, names: Names<'a>, first: &[u8]) -> Result<Beginning<'a>, AllocError>
    ensures placed { IfOk result (λ b. IsPlaced (plain_file names.entry.file.now) (table_of b.transitions) b.root) }
    ensures stands { IfOk result (λ b. StandsAt (names_of names.entry) (standing_at (table_of b.transitions) b.root)
        (told_after (names_of names.entry) first.now)) }
{
    let moment = Moment::after(alloc, names, first)?;
    let numbered = number(alloc, &moment.playing)?;
    let Moment {
        playing: _,
        labels,
        calls,
    } = moment;
    let Numbered {
        transitions,
        store,
        works,
    } = numbered;
    let steps = first.len();
    let weight = weigh(&transitions, store, steps);
    let place = NumberedState {
        store,
        works,
        noted: 0,
    };
    let root = Point {
        place,
        labels,
        calls,
        steps,
        weight,
    };
    Ok(Beginning { transitions, root })
}

// How far the graph is found: by steps, and as far as there may be states.
fn plan_of(alloc: Global, program: &Program, most: usize) -> Plan
    ensures actors { result.actors ≡ length program.now.threads.items }
    ensures limit { result.bounds.limit ≡ most }
{
    Plan {
        alloc,
        actors: program.threads.len() as u8,
        bounds: Bounds {
            limit: most,
            weight: MOST_WEIGHT,
        },
        counted: Counted::Steps,
        far: usize::MAX,
    }
}

// The states from a schedule on, as many as may be kept.
fn states_from<'a>(
    alloc: Global,
    names: Names<'a>,
    first: &[u8],
    most: usize,
) -> Result<States<'a>, AllocError>
    ensures states { IfOk result (λ s. AreStates (names_of names.entry) first.now s) }
    ensures few { 0 < most → IfOk result (λ s. length s.closing.graph.found.nodes.items ≤ most) }
{
    let Beginning { transitions, root } = begin(alloc, names, first)?;
    let mut transitions = transitions;
    let space = ChoiceSpace { file: names.file };
    let plan = plan_of(alloc, names.program, most);
    let closing = close(&space, plan, &mut transitions, root)?;
    let paths = paths_to(alloc, &closing.graph, first)?;
    Ok(States {
        transitions,
        closing,
        paths,
    })
}

/// All states of a program from a schedule on, whose steps are numbers of threads. So many are kept at most, and the
/// first is. All but the last weigh 4,194,304 together at most: 1 for each object of a state's store, and 1 for each 16
/// steps of its path. None is left out if there are fewer, and they weigh no more than that.
///
/// A refusal is that memory ran out, that a store or a work has no number left, or that the states which were found
/// don't keep within this. That the last is never so isn't proved.
pub fn all_choices(
    alloc: Global,
    names: Names,
    first: &[u8],
    most: usize,
) -> Result<Choices, AllocError>
    ensures graph { IfOk result (λ c. IsGraphFrom (names_of names.entry) first.now (graph_of c)) }
    ensures few { 0 < most → IfOk result (λ c. length c.rows.items ≤ most) }
    ensures whole { 0 < most → IfOk result (λ c. length (graph_of c).paths ≡ length (graph_of c).rows) }
    ensures light { IfOk result (λ c. AreLight (weight_of (names_of names.entry)) (graph_of c).paths) }
    ensures cut { IfOk result (λ c.
        AreCut (IsFull (weight_of (names_of names.entry)) most (graph_of c).paths) (graph_of c).rows) }
    ensures threads { IfOk result (λ c.
        HaveRows (rows_of_threads (names_of names.entry).program) (graph_of c).rows) }
    ensures closed { 0 < most → IfOk result (λ c. IsClosed (graph_of c)) }
{
    let states = states_from(alloc, names, first, most)?;
    let States {
        transitions,
        closing,
        paths,
    } = states;
    let mut transitions = transitions;
    let points = closing.graph.found.nodes.as_slice();
    let weights = weights_of(alloc, &transitions, points, &paths)?;
    if !are_light(&weights) {
        return Err(AllocError);
    }
    let index = index_of(alloc, points)?;
    let scene = Scene {
        alloc,
        names,
        points,
        index: &index,
        full: are_full(&weights, most),
    };
    let rows = rows_of_all(&scene, &mut transitions)?;
    Ok(Choices { paths, rows })
}
