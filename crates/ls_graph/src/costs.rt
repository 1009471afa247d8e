// What steps of actors cost: changes of actor, or steps.

ghost use Rattle.std.specs.Prelude.{◌≡◌, ◌≤◌, length};
ghost use Rattle.ls_graph.specs.Costs.{change, changes, cost, costs, kept_last};

use std::alloc::AllocError;

/// What is counted of steps. Each of these costs 1.
#[derive(Copy)]
pub enum Counted {
    /// The steps of another actor than the step before.
    Changes,
    /// The steps.
    Steps,
}

impl Clone for Counted {
    fn clone(&self) -> Result<Counted, AllocError> {
        Ok(*self)
    }
}

/// Whether a step is of another actor than the step before: 1, or 0.
fn change(before: u8, actor: u8) -> usize
    ensures is { result ≡ change before actor }
    ensures few { result ≤ 1 }
{
    if actor == before { 0 } else { 1 }
}

/// How many steps are of another actor than the step before. Actor 0 comes before the first.
pub fn changes(steps: &[u8]) -> usize
    ensures is { result ≡ changes 0 steps.now }
    ensures few { result ≤ length steps.now }
{
    let mut before = 0;
    let mut count = 0;
    for actor in steps {
        count += change(before, *actor);
        before = *actor;
    }
    count
}

/// What a step costs after one of this actor.
pub(crate) fn cost(counted: Counted, before: u8, actor: u8) -> usize
    ensures is { result ≡ cost counted before actor }
    ensures few { result ≤ 1 }
{
    match counted {
        Counted::Changes => change(before, actor),
        Counted::Steps => 1,
    }
}

/// What steps cost. One of actor 0 comes before the first.
pub fn costs(counted: Counted, steps: &[u8]) -> usize
    ensures { result ≡ costs counted 0 steps.now }
{
    match counted {
        Counted::Changes => changes(steps),
        Counted::Steps => steps.len(),
    }
}

/// What is kept of the actor of a step. Where steps are counted, it doesn't matter which actor it was.
pub(crate) fn kept_last(counted: Counted, actor: u8) -> u8
    ensures { result ≡ kept_last counted actor }
{
    match counted {
        Counted::Changes => actor,
        Counted::Steps => 0,
    }
}
