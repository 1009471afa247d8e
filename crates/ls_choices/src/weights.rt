// What states weigh together.

ghost use Rattle.std.specs.Prelude.{◌≡◌, ◌+◌, ◌-◌, ◌/◌, ◌<◌, IfOk, IsTrue, length, map, sum_by};
ghost use Rattle.ls_checked.specs.CheckedTree.{File};
ghost use Rattle.ls_transitions.specs.Seen.{table_of};
ghost use Rattle.ls_choices.specs.Points.{ArePlaced, standing_at};
ghost use Rattle.ls_choices.specs.Rows.{AreLight, IsFull, most_weight};
ghost use Rattle.ls_choices.specs.Standing.{AreWeights};

use crate::points::Point;
use ls_transitions::transitions::Transitions;
use std::alloc::{AllocError, Global};

/// The most that states weigh together, but for the last of them. A state weighs 1 for each object of its store, and 1
/// for each 16 steps of its path. A bound on states alone wouldn't bound memory, since a program may make objects, and
/// steps that lead to new states, without end.
pub(crate) const MOST_WEIGHT: usize = 0x40_0000;

// What a state weighs with its path.
fn weight_with(transitions: &Transitions<'_>, point: &Point, path: &[u8]) -> usize
    requires { point.now.place.store < length (table_of transitions.now).stores }
    ensures { result ≡ length (standing_at (table_of transitions.now) point.now).configuration.store.things
        + length path.now / 16 }
{
    transitions.store_at(point.place.store).things.len() + path.len() / 16
}

/// What each state weighs with its path. The only refusal is that memory ran out.
pub(crate) fn weights_of(
    alloc: Global,
    transitions: &Transitions<'_>,
    points: &[Point],
    paths: &[Vec<u8>],
) -> Result<Vec<usize>, AllocError>
    requires placed { (file : File) × ArePlaced file (table_of transitions.now) points.now }
    requires many { length paths.now ≡ length points.now }
    ensures { IfOk result (λ v. AreWeights (map (standing_at (table_of transitions.now)) points.now)
        (map (λ p. p.items) paths.now) v.items) }
{
    let mut weights = Vec::new(alloc);
    for (number, point) in points.iter().enumerate() {
        weights.push(weight_with(transitions, point, &paths[number]))?;
    }
    Ok(weights)
}

// How much more than these may weigh together, and 1; 0 where that is nothing.
fn room_beside(weights: &[usize]) -> usize
    ensures { result ≡ most_weight + 1 - sum_by (λ w. w) weights.now }
{
    let mut room = MOST_WEIGHT + 1;
    for weight in weights {
        room = room.saturating_sub(*weight);
    }
    room
}

/// Whether all but the last weigh no more than they may. True only where they do.
pub(crate) fn are_light(weights: &[usize]) -> bool
    ensures { IsTrue result → AreLight (λ w. w) weights.now }
{
    room_beside(&weights[..weights.len().saturating_sub(1)]) > 0
}

/// Whether there are so many, or they weigh more than they may. True only where it is so.
pub(crate) fn are_full(weights: &[usize], most: usize) -> bool
    ensures { IsTrue result → IsFull (λ w. w) most weights.now }
{
    weights.len() >= most || room_beside(weights) == 0
}
