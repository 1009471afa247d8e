// The numbers of a run's store and of its threads' works.

ghost use Rattle.std.specs.Prelude.{◌≡◌, IfOk, length, map};
ghost use Rattle.ls_checked.specs.Plain.{plain_file};
ghost use Rattle.ls_search_laws.specs.Configuration.{configuration_of};
ghost use Rattle.ls_source.specs.Progress.{Progress};
ghost use Rattle.ls_source.specs.SeenThread.{thread_of};
ghost use Rattle.ls_source.specs.Stands.{StandsFor};
ghost use Rattle.ls_transitions.specs.Tables.{Grows};
ghost use Rattle.ls_transitions.specs.Seen.{table_of};
ghost use Rattle.ls_search.specs.Places.{AreThere, configuration_at};
ghost use Rattle.ls_search.specs.Runs.{AreNumbered};

use ls_source::playing::Playing;
use ls_source::thread::Thread;
use ls_transitions::transitions::Transitions;
use std::alloc::{AllocError, Global};

/// The numbers of a run's store and of its threads' works.
#[derive(Drop)]
pub struct Numbered<'a> {
    pub transitions: Transitions<'a>,
    pub store: usize,
    pub works: Vec<usize>,
}

/// The numbers of threads' works.
fn number_works<'a>(
    alloc: Global,
    transitions: &mut Transitions<'a>,
    threads: &[Thread<'a>],
) -> Result<Vec<usize>, AllocError>
    ensures numbers { IfOk result
        (λ v. AreNumbered (table_of transitions.new) v.items (map thread_of threads.now)) }
    ensures width { IfOk result (λ v. length v.items ≡ length threads.now) }
    ensures grows { Grows (table_of transitions.old) (table_of transitions.new) }
{
    let mut works = Vec::new(alloc);
    for thread in threads {
        let work = transitions.work_number(alloc, thread)?;
        works.push(work)?;
    }
    Ok(works)
}

/// The numbers of a run's store and of its threads' works, in tables of their own. A refusal is that memory ran out, or
/// that a store or a work has no number left.
pub fn number<'a>(alloc: Global, playing: &Playing<'a>) -> Result<Numbered<'a>, AllocError>
    ensures there { IfOk result (λ n. AreThere (table_of n.transitions) n.store n.works.items) }
    ensures file { IfOk result (λ n. (table_of n.transitions).file ≡ plain_file playing.now.file.now) }
    ensures width { IfOk result (λ n. length n.works.items ≡ length playing.now.threads.items) }
    ensures same { IfOk result (λ n. (p : Progress) → StandsFor playing.now p →
        configuration_at (table_of n.transitions) n.store n.works.items ≡
        configuration_of p.file p.program p.state) }
{
    let mut transitions = Transitions::new(alloc, playing.file, playing.program);
    let store = transitions.store_number(alloc, &playing.store_and_events.store)?;
    let works = number_works(alloc, &mut transitions, &playing.threads)?;
    Ok(Numbered {
        transitions,
        store,
        works,
    })
}
