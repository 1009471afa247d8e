// What threads still have to do, with other numbers.

ghost use Rattle.std.specs.Prelude.{◌≡◌, IfOk, IfSome};
ghost use Rattle.ls_source.specs.SeenThread.{bottom_of, phase_of, thread_of};
ghost use Rattle.ls_source_pending.specs.Pending.{State};
ghost use Rattle.ls_works.specs.Frames.{renamed_bottom, renamed_phase, renamed_thread, renamed_work};
ghost use Rattle.ls_renaming.specs.Seen.{names_of};

use crate::names::Names;
use crate::trees::are_constant;
use crate::work::rename_work;
use ls_source::thread::{Bottom, Phase, Thread};
use ls_source_pending::pending::Pending;
use std::alloc::{AllocError, Global};

fn rename_bottom(names: &Names, bottom: Bottom) -> Result<Bottom, AllocError>
    ensures { IfOk result (λ b. bottom_of b ≡ renamed_bottom (names_of names.now) (bottom_of bottom)) }
{
    match bottom {
        Bottom::Making(name, o) => Ok(Bottom::Making(name, names.value(o)?)),
        Bottom::Calling(m) => Ok(Bottom::Calling(m)),
    }
}

// The arguments of calls name no object: where they do, there is none.
#[tactic(auto, using(crate::proofs::Lists::constant_values))]
fn rename_phase<'a>(names: &Names, phase: &Phase<'a>) -> Result<Option<Phase<'a>>, AllocError>
    ensures { IfOk result (λ r. IfSome r (λ p. (old : State) →
        phase_of p (renamed_work (names_of names.now) old) ≡
        renamed_phase (names_of names.now) (phase_of phase.now old))) }
{
    match phase {
        Phase::Starts => Ok(Some(Phase::Starts)),
        Phase::Announces(call) => Ok(Some(Phase::Announces(*call))),
        Phase::Makes(name, class, values) => {
            if !are_constant(*values) {
                return Ok(None);
            }
            Ok(Some(Phase::Makes(*name, *class, *values)))
        }
        Phase::Fetches(name, method, values) => {
            if !are_constant(*values) {
                return Ok(None);
            }
            Ok(Some(Phase::Fetches(*name, *method, *values)))
        }
        Phase::Begins(_, _, _, _) => Ok(None),
        Phase::Works(bottom) => Ok(Some(Phase::Works(rename_bottom(names, *bottom)?))),
        Phase::Names(name, o) => Ok(Some(Phase::Names(*name, names.value(*o)?))),
        Phase::ReturnsWith(v) => Ok(Some(Phase::ReturnsWith(names.result(*v)?))),
        Phase::TrapsWith(kind) => Ok(Some(Phase::TrapsWith(*kind))),
        Phase::Trapped => Ok(Some(Phase::Trapped)),
    }
}

/// What a thread still has to do, with other numbers. There is none where a body is still to begin, or where an
/// argument of a call names an object.
pub fn rename_thread<'a>(
    alloc: Global,
    names: &Names,
    thread: &Thread<'a>,
) -> Result<Option<Thread<'a>>, AllocError>
    ensures { IfOk result
        (λ r. IfSome r (λ t. thread_of t ≡ renamed_thread (names_of names.now) (thread_of thread.now))) }
{
    let Some(phase) = rename_phase(names, &thread.phase)? else {
        return Ok(None);
    };
    let work = rename_work(alloc, names, &thread.work)?;
    Ok(Some(Thread {
        calls: thread.calls,
        begun: thread.begun,
        phase,
        work,
    }))
}
