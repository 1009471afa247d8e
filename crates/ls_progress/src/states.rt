// The graph of a program's states.

ghost use Rattle.std.specs.Prelude.{◌≡◌, IfOk, length};
ghost use Rattle.ls_graph.specs.Found.{IsGrown};
ghost use Rattle.ls_progress.specs.Judged.{file_in, root_in, threads_in};
ghost use Rattle.ls_progress.specs.Steps.{IsStates};

use crate::constants::program_has_constants;
use crate::space::{EndsSpace, Tables};
use ls_checked::program::Program;
use ls_checked::tree::File;
use ls_graph::closing::{Closing, Plan, close};
use ls_graph::costs::Counted;
use ls_graph::nodes::Bounds;
use ls_renaming::constants::file_has_constants;
use ls_renaming::renumbering::Renumbering;
use ls_search::numbering::{Numbered, number};
use ls_search::objects::MOST_OBJECTS;
use ls_search::places::NumberedState;
use ls_search::searching::copy_place;
use ls_search::space::Kept;
use ls_source::playing::Playing;
use std::alloc::{AllocError, Global};

/// Of what it is told whether calls end, and how far states are found.
#[derive(Copy)]
pub struct Scope<'a> {
    pub alloc: Global,
    pub file: &'a File,
    pub program: &'a Program,
    /// The most states. They have 4,194,304 objects together at most, but for the last of them.
    pub limit: usize,
    /// Whether each thread begins its calls again when they have ended.
    pub again: bool,
}

impl<'a> Clone for Scope<'a> {
    fn clone(&self) -> Result<Scope<'a>, AllocError> {
        Ok(*self)
    }
}

/// How many threads a program has, the setup with them.
pub(crate) fn threads_of(program: &Program) -> u8
    ensures { result ≡ length program.now.threads.items }
{
    program.threads.len() as u8
}

/// How far the graph is found.
fn plan_of(scope: Scope<'_>) -> Plan
    ensures { result.actors ≡ length scope.entry.program.now.threads.items }
{
    Plan {
        alloc: scope.alloc,
        actors: threads_of(scope.program),
        bounds: Bounds {
            limit: scope.limit,
            weight: MOST_OBJECTS,
        },
        counted: Counted::Steps,
        far: usize::MAX,
    }
}

/// The graph of a program's states, from that before the first step on. It is refused too if a constant of the file or
/// of the program names an object, which none does of those that were read.
pub(crate) fn states_of(scope: Scope<'_>) -> Result<Closing<Kept>, AllocError>
    ensures states { IfOk result (λ c. IsStates (file_in scope.entry) (threads_in scope.entry) (root_in scope.entry)
        c.graph.edges.items (length c.graph.found.nodes.items) c.looked.items) }
    ensures grown { IfOk result (λ c. IsGrown c.graph) }
{
    if !file_has_constants(scope.file) {
        return Err(AllocError);
    }
    if !program_has_constants(scope.program) {
        return Err(AllocError);
    }
    let plan = plan_of(scope);
    let playing = Playing::new(scope.alloc, scope.file, scope.program)?;
    let numbered = number(scope.alloc, &playing)?;
    let Numbered {
        transitions,
        store,
        works,
    } = numbered;
    let mut tables = Tables {
        transitions,
        renumbering: Renumbering::new(scope.alloc),
        counted: Vec::new(scope.alloc),
    };
    let root = NumberedState {
        store,
        works,
        noted: 0,
    };
    let place = copy_place(scope.alloc, &root)?;
    let space = EndsSpace {
        file: scope.file,
        program: scope.program,
        threads: plan.actors,
        again: scope.again,
        root,
    };
    let closing = close(&space, plan, &mut tables, Kept { place, weight: 0 })?;
    Ok(closing)
}
