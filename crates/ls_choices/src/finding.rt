// The numbers of states that were kept.

ghost use Rattle.std.specs.Prelude.{◌≡◌, IfSome};
ghost use Rattle.ls_choices.specs.Points.{IsKept};

use crate::points::Point;
use ls_transitions::hash_index::HashIndex;
use std::alloc::{AllocError, Global};

/// The places of states by numbers that are made of them.
pub(crate) fn index_of(alloc: Global, points: &[Point]) -> Result<HashIndex, AllocError> {
    let mut index = HashIndex::new(alloc);
    for point in points {
        index.add(alloc, point.hash())?;
    }
    Ok(index)
}

/// The number of a state, if it was kept.
pub(crate) fn find(points: &[Point], index: &HashIndex, point: &Point) -> Option<usize>
    ensures { IfSome result (IsKept points.now point.now) }
{
    let mut hint = index.last(point.hash());
    for _ in 0..points.len() {
        let place = hint?;
        let kept = points.get(place)?;
        if kept.is_same(point) {
            return Some(place);
        }
        hint = index.before(place);
    }
    None
}
