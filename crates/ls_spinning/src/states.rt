// The states that a schedule leads to, as a graph.

ghost use Rattle.std.specs.Prelude.{◌≡◌, IfOk, length};
ghost use Rattle.ls_checked.specs.Plain.{plain_file};
ghost use Rattle.ls_checked.specs.PlainProgram.{plain_program};
ghost use Rattle.ls_search.specs.Runs.{progress_at};
ghost use Rattle.ls_source.specs.Stands.{StandsFor};
ghost use Rattle.ls_spinning.specs.States.{IsLed};

use crate::mute::Mute;
use ls_checked::program::Program;
use ls_checked::tree::File;
use ls_graph::closing::{Closing, Plan, close};
use ls_graph::costs::Counted;
use ls_graph::nodes::Bounds;
use ls_search::numbering::{Numbered, number};
use ls_search::objects::MOST_OBJECTS;
use ls_search::roots::Root;
use ls_search::searching::Ground;
use ls_search::space::{Beginning, Kept, StateSpace, Tables, Wanted, begin};
use ls_source::playing::Playing;
use std::alloc::{AllocError, Global};

/// Of what states are found, and how far.
#[derive(Copy)]
pub struct Scope<'a> {
    pub alloc: Global,
    pub file: &'a File,
    pub program: &'a Program,
    /// The most states. They have 4,194,304 objects together at most, but for the last of them.
    pub limit: usize,
}

impl<'a> Clone for Scope<'a> {
    fn clone(&self) -> Result<Scope<'a>, AllocError> {
        Ok(*self)
    }
}

/// The states that a schedule leads to, but for names of objects, and what their numbers stand for.
#[derive(Drop)]
pub struct Led<'a> {
    pub closing: Closing<Kept>,
    pub tables: Tables<'a, bool>,
}

/// How far the graph is found.
fn plan_of(scope: Scope<'_>) -> Plan
    ensures { result.actors ≡ length scope.entry.program.now.threads.items }
{
    Plan {
        alloc: scope.alloc,
        actors: scope.program.threads.len() as u8,
        bounds: Bounds {
            limit: scope.limit,
            weight: MOST_OBJECTS,
        },
        counted: Counted::Steps,
        far: usize::MAX,
    }
}

/// The run after a schedule.
fn playing_after<'a>(
    alloc: Global,
    file: &'a File,
    program: &'a Program,
    steps: &[u8],
) -> Result<Playing<'a>, AllocError>
    ensures { IfOk result (λ r. StandsFor r
        (progress_at (plain_file file.now) (plain_program program.now) steps.now)) }
{
    let mut playing = Playing::new(alloc, file, program)?;
    for thread in steps {
        let _did = playing.step(alloc, *thread as usize)?;
    }
    Ok(playing)
}

/// The graph of the states that a schedule leads to. At most so many steps are taken at once.
pub(crate) fn led_from<'a>(
    mute: &'a Mute,
    scope: Scope<'a>,
    steps: &[u8],
    most: usize,
) -> Result<Led<'a>, AllocError>
    ensures { IfOk result
        (IsLed (plain_file scope.entry.file.now) (plain_program scope.entry.program.now) steps.now) }
{
    let plan = plan_of(scope);
    let playing = playing_after(scope.alloc, scope.file, scope.program, steps)?;
    let numbered = number(scope.alloc, &playing)?;
    let ground = Ground {
        alloc: scope.alloc,
        observer: mute,
        file: scope.file,
        program: scope.program,
        threads: plan.actors,
        limit: scope.limit,
        most,
    };
    let Numbered {
        transitions,
        store,
        works,
    } = numbered;
    let root = Root {
        store,
        works,
        noted: true,
    };
    let beginning = begin(&ground, transitions, root)?;
    let Beginning { tables, root } = beginning;
    let mut tables = tables;
    let space = StateSpace {
        ground: &ground,
        lost: None,
        wanted: Wanted::Nothing,
    };
    let closing = close(&space, plan, &mut tables, root)?;
    Ok(Led { closing, tables })
}
