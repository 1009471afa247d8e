// Whether threads turn for ever after a schedule.

ghost use Rattle.std.specs.Prelude.{◌≡◌, ◌<◌, IfOk, IsTrue, ℕ, Some, slice_get, true};
ghost use Rattle.ls_checked.specs.Plain.{plain_file};
ghost use Rattle.ls_checked.specs.PlainProgram.{plain_program};
ghost use Rattle.ls_graph.specs.declared.closing.Edge.{Edge as EdgeValue};
ghost use Rattle.ls_spinning.specs.Turning.{TurnsForEver};

use crate::mute::Mute;
use crate::sounding::loud_of;
use crate::states::{Led, Scope, led_from};
use ls_checked::program::Program;
use ls_checked::tree::File;
use ls_events::schedule::Schedule;
use ls_graph::closing::{Edge, is_whole};
use ls_graph::marks::is_marked;
use ls_graph::walks::left_by;
use ls_renaming::constants::file_has_constants;
use std::alloc::{AllocError, Global};

/// Whether no steps were taken at once.
fn are_single(edges: &[Edge]) -> bool
    ensures { IsTrue result → (i : ℕ) (e : EdgeValue) → slice_get edges.now i ≡ Some e → e.mark ≡ 0 }
{
    for edge in edges {
        if edge.mark > 0 {
            return false;
        }
    }
    true
}

/// Whether a state has the one mark, and hasn't the other.
fn turns(left: &[bool], loud: &[bool], at: usize) -> bool
    ensures left { IsTrue result → slice_get left.now at ≡ Some true }
    ensures silent { IsTrue result → slice_get loud.now at ≡ Some true → ⊥ }
{
    is_marked(left, at) && !is_marked(loud, at)
}

/// Whether it is so of each of the first so many states.
fn turn_all(left: &[bool], loud: &[bool], count: usize) -> bool
    ensures left { IsTrue result → (at : ℕ) → at < count → slice_get left.now at ≡ Some true }
    ensures silent { IsTrue result → (at : ℕ) → at < count → slice_get loud.now at ≡ Some true → ⊥ }
{
    for at in 0..count {
        if !turns(left, loud, at) {
            return false;
        }
    }
    true
}

/// Whether threads turn for ever after a schedule. True only where they do. It is false also where more states would
/// be needed.
pub(crate) fn are_turning(scope: Scope<'_>, steps: &[u8]) -> Result<bool, AllocError>
    ensures { IfOk result (λ b. IsTrue b →
        TurnsForEver (plain_file scope.entry.file.now) (plain_program scope.entry.program.now) steps.now) }
{
    let mute = Mute;
    let led = led_from(&mute, scope, steps, 0)?;
    let Led { closing, tables } = led;
    let mut tables = tables;
    if !is_whole(&closing) || !are_single(&closing.graph.edges) {
        return Ok(false);
    }
    let left = left_by(scope.alloc, &closing.graph)?;
    let loud = loud_of(scope.alloc, &mut tables.transitions, &closing.graph)?;
    Ok(turn_all(&left, &loud, closing.graph.found.nodes.len()))
}

/// Whether threads turn for ever after a schedule. True only where they do. It is false also where more states would be
/// needed than this limit, where these have over 4,194,304 objects together, and where a constant of the file names an
/// object, which none does of a file that was read. A refusal is that memory ran out, or that a store, a work or a
/// state has no number left.
pub fn turns_after(
    alloc: Global,
    file: &File,
    program: &Program,
    schedule: &Schedule,
    limit: usize,
) -> Result<bool, AllocError>
    ensures { IfOk result (λ b. IsTrue b →
        TurnsForEver (plain_file file.now) (plain_program program.now) schedule.now) }
{
    if !file_has_constants(file) {
        return Ok(false);
    }
    let scope = Scope {
        alloc,
        file,
        program,
        limit,
    };
    are_turning(scope, schedule.steps())
}
