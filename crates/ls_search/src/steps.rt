// The path to a state that was found by one step after another.

ghost use Rattle.std.specs.Prelude.{◌≡◌, ◌<◌, ◌++◌, ◌∷◌, [], IfNone, IfOk, IfSome, length, slice_index_or};
ghost use Rattle.ls_search.specs.Listed.{paths_of};

use crate::places::Node;
use std::alloc::{AllocError, Global};

/// The last step of a path: the place of the state before it, and its thread.
#[derive(Copy)]
struct Last {
    before: usize,
    thread: u8,
}

impl Clone for Last {
    fn clone(&self) -> Result<Last, AllocError> {
        Ok(*self)
    }
}

/// The last step of the path to the state at a place, if it isn't the first.
fn last_step(nodes: &[Node], at: usize) -> Option<Last>
    requires { at < length nodes.now }
    ensures before { IfSome result (λ s. s.before < at) }
    ensures some { IfSome result (λ s. slice_index_or (paths_of nodes.now) at []
        ≡ slice_index_or (paths_of nodes.now) s.before [] ++ s.thread ∷ []) }
    ensures none { IfNone result (slice_index_or (paths_of nodes.now) at [] ≡ []) }
{
    let node = &nodes[at];
    if node.before >= at {
        return None;
    }
    Some(Last {
        before: node.before,
        thread: node.thread,
    })
}

/// How many steps lead to the state at a place.
pub(crate) fn count_steps(nodes: &[Node], at: usize) -> usize
    requires { at < length nodes.now }
{
    let mut place = at;
    let mut count = 0;
    while let Some(last) = last_step(nodes, place) {
        place = last.before;
        count += 1;
    }
    count
}

/// The threads whose steps lead to the state at a place, in order.
pub fn steps_to(alloc: Global, nodes: &[Node], at: usize) -> Result<Vec<u8>, AllocError>
    requires { at < length nodes.now }
    ensures { IfOk result (λ path. path.items ≡ slice_index_or (paths_of nodes.now) at []) }
{
    let mut place = at;
    let mut threads = Vec::new(alloc);
    while let Some(last) = last_step(nodes, place) {
        threads.push(last.thread)?;
        place = last.before;
    }
    threads.reverse();
    Ok(threads)
}
