// Which lists of threads are walks.

ghost use Rattle.std.specs.Prelude.{◌≡◌, ◌↔◌, IfOk, IsTrue, List, length, map, slice_index_or};
ghost use Rattle.ls_choices.specs.Reaching.{AllLeadNear, AreKept, IsClosed, IsCutOff, IsReach, IsStateKept};
ghost use Rattle.ls_choices.specs.Reaching.{LeadsNear, LeavesOut, TellsLeftOut};
ghost use Rattle.ls_choices.specs.Seen.{graph_of, row_of};

use crate::graph::Choices;
use crate::rows::Row;
use std::alloc::{AllocError, Global};

/// All lists of threads, or those that have no more steps than so many.
#[derive(Clone, Copy)]
pub enum Reach {
    All,
    UpTo(usize),
}

// Whether the step of one of so many threads leads to no state that is kept.
fn is_cut_off(rows: &[Row], count: usize) -> bool
    ensures { IsTrue result ↔ IsCutOff count (map row_of rows.now) }
{
    if rows.len() < count {
        return true;
    }
    for thread in 0..count {
        if rows[thread].to.is_none() {
            return true;
        }
    }
    false
}

// Whether that of some thread in some state does.
fn leaves_out(choices: &Choices, count: usize) -> bool
    ensures { IsTrue result ↔ LeavesOut count (graph_of choices.now) }
{
    for rows in &choices.rows {
        if is_cut_off(rows, count) {
            return true;
        }
    }
    false
}

// How far a state is from the first. Where nothing is said, it is 0.
fn depth_of(depths: &[usize], number: usize) -> usize
    ensures { result ≡ slice_index_or depths.now number 0 }
{
    match depths.get(number) {
        Some(depth) => *depth,
        None => 0,
    }
}

// Whether a row leads to one of so many states, at most one step further.
fn leads_near(row: &Row, depths: &[usize], total: usize, here: usize) -> bool
    ensures { IsTrue result → LeadsNear (λ n. slice_index_or depths.now n 0) total here (row_of row.now) }
{
    match row.to {
        None => false,
        Some(to) => to < total && depth_of(depths, to).saturating_sub(1) <= here,
    }
}

// Whether each row does.
fn all_lead_near(rows: &[Row], depths: &[usize], total: usize, here: usize) -> bool
    ensures { IsTrue result →
        AllLeadNear (λ n. slice_index_or depths.now n 0) total here (map row_of rows.now) }
{
    for row in rows {
        if !leads_near(row, depths, total, here) {
            return false;
        }
    }
    true
}

// Whether each thread has a row, and each row leads on if the state is fewer than so many steps from the first.
fn is_state_kept(
    rows: &[Row],
    count: usize,
    depths: &[usize],
    total: usize,
    here: usize,
    steps: usize,
) -> bool
    ensures { IsTrue result →
        IsStateKept steps count (λ n. slice_index_or depths.now n 0) total here (map row_of rows.now) }
{
    if rows.len() < count {
        return false;
    }
    here >= steps || all_lead_near(rows, depths, total, here)
}

// Whether this holds of each state.
fn are_kept(choices: &Choices, count: usize, depths: &[usize], steps: usize) -> bool
    ensures { IsTrue result →
        AreKept steps count (λ n. slice_index_or depths.now n 0) (graph_of choices.now) }
{
    let total = choices.rows.len();
    if total == 0 || depth_of(depths, 0) != 0 {
        return false;
    }
    for (number, rows) in choices.rows.iter().enumerate() {
        let here = depth_of(depths, number);
        if !is_state_kept(rows, count, depths, total, here, steps) {
            return false;
        }
    }
    true
}

// How many steps the path of each state has after the first state's.
fn depths_of(alloc: Global, choices: &Choices) -> Result<Vec<usize>, AllocError> {
    let mut depths = Vec::new(alloc);
    let mut least = 0;
    for path in &choices.paths {
        if depths.len() == 0 {
            least = path.len();
        }
        depths.push(path.len().saturating_sub(least))?;
    }
    Ok(depths)
}

// The fewest steps after which a row leads to no state that is kept.
fn fewest_to_cut(choices: &Choices, depths: &[usize]) -> usize {
    let mut fewest = usize::MAX;
    for (number, rows) in choices.rows.iter().enumerate() {
        for row in rows {
            if row.to.is_none() {
                fewest = fewest.min(depth_of(depths, number));
            }
        }
    }
    fewest
}

/// Which lists of threads are walks, where there are so many threads. It is each, if no step is left out. Otherwise it
/// is each that has no more steps than the shortest path of a state before one that is left out. The only refusal is
/// that memory ran out.
pub fn reach_of(alloc: Global, choices: &Choices, count: usize) -> Result<Reach, AllocError>
    ensures reach { IsClosed (graph_of choices.now) → IfOk result (λ r. IsReach count (graph_of choices.now) r) }
    ensures left_out { IfOk result (λ r. TellsLeftOut count (graph_of choices.now) r) }
{
    if !leaves_out(choices, count) {
        return Ok(Reach::All);
    }
    let depths = depths_of(alloc, choices)?;
    let steps = fewest_to_cut(choices, &depths);
    if are_kept(choices, count, &depths, steps) {
        return Ok(Reach::UpTo(steps));
    }
    Ok(Reach::UpTo(0))
}
