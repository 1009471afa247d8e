// States that do the same, as one.

ghost use Rattle.std.specs.Prelude.{◌≡◌, IfOk, IsTrue};
ghost use Rattle.ls_automaton.specs.Merged.{AreAlikeIn, AreMerged, IsAlikeIn};

use crate::event_hashing::hashed_event;
use crate::outcome::Outcome;
use crate::pairs::row_at;
use ls_events::same::is_event;
use ls_observers::hashing::hashed;
use ls_transitions::hash_index::HashIndex;
use std::alloc::{AllocError, Global};

/// Whether an outcome is the other. True only where it is.
fn is_same_outcome(outcome: &Outcome, other: &Outcome) -> bool
    ensures { IsTrue result → outcome.now ≡ other.now }
{
    outcome.after == other.after && is_event(&outcome.end, &other.end)
}

/// Whether outcomes are the same, one by one. True only where they are.
fn are_same_outcomes(row: &[Outcome], other: &[Outcome]) -> bool
    ensures { IsTrue result → row.now ≡ other.now }
{
    if row.len() != other.len() {
        return false;
    }
    for i in 0..row.len() {
        if !is_same_outcome(&row[i], &other[i]) {
            return false;
        }
    }
    true
}

/// A number by which outcomes are found. Nothing depends on it.
fn hash_of_row(row: &[Outcome]) -> u64 {
    let mut hash = hashed(0, row.len() as u64);
    for i in 0..row.len() {
        hash = hashed_event(hashed(hash, row[i].after as u64), &row[i].end);
    }
    hash
}

/// The outcomes, which lead to states by other numbers. The only refusal is that memory ran out.
fn renamed_row(
    alloc: Global,
    row: &[Outcome],
    names: &[usize],
) -> Result<Vec<Outcome>, AllocError> {
    let mut renamed = Vec::with_capacity(alloc, row.len())?;
    for i in 0..row.len() {
        let state = row[i].after;
        let after = if state < names.len() {
            names[state]
        } else {
            state
        };
        renamed.push(Outcome {
            end: row[i].end,
            after,
        })?;
    }
    Ok(renamed)
}

/// The outcomes of each state, from the last state to the first. Each leads to the last state that does the same as the
/// one to which it led, if one was found. The only refusal is that memory ran out.
fn renamed_rows(alloc: Global, rows: &[Vec<Outcome>]) -> Result<Vec<Vec<Outcome>>, AllocError> {
    let mut names = Vec::new(alloc);
    for state in 0..rows.len() {
        names.push(state)?;
    }
    let mut index = HashIndex::new(alloc);
    let mut same = Vec::new(alloc);
    let mut renamed: Vec<Vec<Outcome>> = Vec::new(alloc);
    for behind in 0..rows.len() {
        let state = rows.len() - 1 - behind;
        let row = renamed_row(alloc, rows[state].as_slice(), names.as_slice())?;
        let hash = hash_of_row(row.as_slice());
        let mut name = state;
        if let Some(place) = index.last(hash) {
            let is_there = place < renamed.len() && place < same.len();
            if is_there && are_same_outcomes(renamed[place].as_slice(), row.as_slice()) {
                name = same[place];
            }
        }
        if state < names.len() {
            names[state] = name;
        }
        index.add(alloc, hash)?;
        same.push(name)?;
        renamed.push(row)?;
    }
    renamed.reverse();
    Ok(renamed)
}

/// Whether outcomes have the same end, and lead to states with the same outcomes. True only where it is so.
fn is_alike(rows: &[Vec<Outcome>], outcome: &Outcome, other: &Outcome) -> bool
    ensures { IsTrue result → IsAlikeIn rows.now outcome.now other.now }
{
    if !is_event(&outcome.end, &other.end) {
        return false;
    }
    are_same_outcomes(row_at(rows, outcome.after), row_at(rows, other.after))
}

/// Whether outcomes have the same ends, one by one, and lead to states with the same outcomes. True only where it is
/// so.
fn are_alike(rows: &[Vec<Outcome>], row: &[Outcome], other: &[Outcome]) -> bool
    ensures { IsTrue result → AreAlikeIn rows.now row.now other.now }
{
    if row.len() != other.len() {
        return false;
    }
    for i in 0..row.len() {
        if !is_alike(rows, &row[i], &other[i]) {
            return false;
        }
    }
    true
}

/// Whether outcomes lead to states that do the same, where they lead to others than before. True only where they do.
fn are_merged(rows: &[Vec<Outcome>], merged: &[Vec<Outcome>]) -> bool
    ensures { IsTrue result → AreMerged rows.now merged.now }
{
    if rows.len() != merged.len() {
        return false;
    }
    for n in 0..rows.len() {
        if !are_alike(merged, rows[n].as_slice(), merged[n].as_slice()) {
            return false;
        }
    }
    true
}

/// The outcomes of each state, where states that do the same are one as far as they are found. The only refusal is that
/// memory ran out.
pub fn merge(alloc: Global, rows: Vec<Vec<Outcome>>) -> Result<Vec<Vec<Outcome>>, AllocError>
    ensures { IfOk result (λ merged. AreMerged rows.items merged.items) }
{
    let merged = renamed_rows(alloc, rows.as_slice())?;
    if are_merged(rows.as_slice(), merged.as_slice()) {
        return Ok(merged);
    }
    Ok(rows)
}
