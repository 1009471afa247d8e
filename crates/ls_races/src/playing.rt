// A run along the edges of a graph.

ghost use Rattle.std.specs.Prelude.{◌≡◌, ◌++◌, ◌∷◌, [], IfOk, IfSome, IsTrue};
ghost use Rattle.ls_checked.specs.Plain.{plain_file};
ghost use Rattle.ls_checked.specs.PlainProgram.{plain_program};
ghost use Rattle.ls_races.specs.Sought.{IsPlayed};

use ls_checked::program::Program;
use ls_checked::tree::File;
use ls_graph::closing::Edge;
use ls_meaning::step::has_acted;
use ls_source::playing::Playing;
use std::alloc::{AllocError, Global};

/// A run, and its steps, each of which acted.
#[derive(Drop)]
pub struct Played<'a> {
    pub playing: Playing<'a>,
    pub steps: Vec<u8>,
}

/// A run that hasn't made a step.
pub fn played_none<'a>(
    alloc: Global,
    file: &'a File,
    program: &'a Program,
) -> Result<Played<'a>, AllocError>
    ensures played { IfOk result (IsPlayed (plain_file file.now) (plain_program program.now)) }
    ensures steps { IfOk result (λ p. p.steps.items ≡ []) }
{
    Ok(Played {
        playing: Playing::new(alloc, file, program)?,
        steps: Vec::new(alloc),
    })
}

/// One step more. Answers nothing where it doesn't act.
pub fn play_one<'a>(
    alloc: Global,
    played: Played<'a>,
    thread: u8,
) -> Result<Option<Played<'a>>, AllocError>
    ensures played { IfOk result (λ o. IfSome o (λ after. (file : _) (program : _) →
        IsPlayed file program played.entry → IsPlayed file program after)) }
    ensures steps { IfOk result (λ o. IfSome o (λ after. after.steps.items ≡ played.entry.steps.items ++ thread ∷ [])) }
{
    let Played { playing, steps } = played;
    let mut playing = playing;
    let mut steps = steps;
    let did = playing.step(alloc, thread as usize)?;
    if !has_acted(did) {
        return Ok(None);
    }
    steps.push(thread)?;
    Ok(Some(Played { playing, steps }))
}

/// The steps of an edge more, with those at once after the first. Answers nothing where one doesn't act.
fn play_edge<'a>(
    alloc: Global,
    played: Played<'a>,
    edge: Edge,
) -> Result<Option<Played<'a>>, AllocError>
    ensures { IfOk result (λ o. IfSome o (λ after. (file : _) (program : _) →
        IsPlayed file program played.entry → IsPlayed file program after)) }
{
    let mut played = played;
    for _ in 0..edge.mark.saturating_add(1) {
        match play_one(alloc, played, edge.actor)? {
            None => return Ok(None),
            Some(after) => played = after,
        }
    }
    Ok(Some(played))
}

/// The run along edges. Answers nothing where a step doesn't act.
pub fn play_along<'a>(
    alloc: Global,
    file: &'a File,
    program: &'a Program,
    path: &[Edge],
) -> Result<Option<Played<'a>>, AllocError>
    ensures { IfOk result (λ o. IfSome o (IsPlayed (plain_file file.now) (plain_program program.now))) }
{
    let mut played = played_none(alloc, file, program)?;
    for edge in path {
        match play_edge(alloc, played, *edge)? {
            None => return Ok(None),
            Some(after) => played = after,
        }
    }
    Ok(Some(played))
}
