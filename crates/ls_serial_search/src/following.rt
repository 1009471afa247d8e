// What comes of a thread's next call, if no other thread goes on.

ghost use Rattle.std.specs.Prelude.{◌≡◌, ◌∷◌, ◌++◌, [], IfOk, replicate};
ghost use Rattle.ls_checked.specs.Plain.{plain_file};
ghost use Rattle.ls_checked.specs.PlainProgram.{plain_program};
ghost use Rattle.ls_meaning.specs.Runs.{event_of, source_run, step};
ghost use Rattle.ls_source.specs.Stands.{StandsFor};
ghost use Rattle.ls_serial_search.specs.Following.{called, events_in, events_of};
ghost use Rattle.ls_serial_search.specs.Happened.{EventsSay, HasFollowed, HasHappened};
ghost use Rattle.ls_serial_search.specs.Marks.{IsMarkOf};
ghost use Rattle.ls_serial_search.specs.Orders.{progress_at};
ghost use Rattle.ls_serial_search.specs.Parked.{StandsBehind};

use crate::marks::Mark;
use crate::standing::copied;
use ls_checked::program::Program;
use ls_checked::tree::File;
use ls_events::action::Action;
use ls_events::schedule::Schedule;
use ls_events::value::Value;
use ls_meaning::step::Did;
use ls_source::playing::Playing;
use ls_together::assign;
use std::alloc::{AllocError, Global};

/// What a step does to its thread's call.
#[derive(Drop)]
pub(crate) enum Happened {
    /// The thread doesn't act.
    Stays,
    GoesOn,
    Begins(usize),
    Ends(usize),
}

/// What comes of a call.
#[derive(Drop)]
pub enum Followed {
    /// There is none.
    Stays,
    /// This one never ends: after so many steps of it its thread waits.
    Waits(usize, usize),
    /// This one never ends: its thread comes back to where it was.
    Turns(usize),
    /// It ends with the last of so many steps.
    Ends(usize),
    /// It doesn't end within the bound.
    GoesOn,
}

/// A program of a file, and the most steps in which a call is followed.
#[derive(Drop)]
pub struct Task<'a> {
    pub file: &'a File,
    pub program: &'a Program,
    pub most_steps: usize,
}

/// A thread's next call after a schedule of a task, and the most steps in which it is followed.
#[derive(Drop)]
struct NextCall<'a> {
    task: &'a Task<'a>,
    schedule: &'a [u8],
    thread: u8,
    most: usize,
}

/// What an action of a thread does to its call.
fn happened_by(thread: usize, action: &Action<Value>) -> Happened
    ensures { EventsSay thread (events_in (event_of thread action.now)) result }
{
    match action {
        Action::Call(call) => Happened::Begins(*call),
        Action::Return(call, _) => Happened::Ends(*call),
        Action::Trap(call, _) => Happened::Ends(*call),
        _ => Happened::GoesOn,
    }
}

/// What a step of a thread did to its call.
pub(crate) fn what_happened(thread: usize, did: &Did) -> Happened
    ensures { HasHappened thread did.now result }
{
    match did {
        Did::Acted(action, _) => happened_by(thread, action),
        Did::Waits => Happened::Stays,
        Did::Idle => Happened::Stays,
    }
}

/// Whether it is marked where a run stands after so many steps of a call.
fn is_marked(steps: usize) -> bool {
    steps >= 64 && steps.is_power_of_two()
}

/// Follows a call that has begun with the thread's first step after the schedule. The run stands after that step, and
/// it is marked there.
fn follow_on<'a>(
    alloc: Global,
    next: &NextCall,
    call: usize,
    run: &mut Playing<'a>,
    mark: &mut Mark<'a>,
) -> Result<Followed, AllocError>
    requires begun { events_of next.now.thread (step (plain_file next.now.task.now.file.now)
        (plain_program next.now.task.now.program.now)
        (source_run (plain_file next.now.task.now.file.now) (plain_program next.now.task.now.program.now)
        next.now.schedule.now) next.now.thread).did ≡ called next.now.thread call ∷ [] }
    requires run { StandsFor run.old (progress_at (plain_file next.now.task.now.file.now)
        (plain_program next.now.task.now.program.now) (next.now.schedule.now ++ replicate 1 next.now.thread)) }
    requires mark { IsMarkOf mark.old run.old }
    ensures followed { IfOk result (λ f. HasFollowed (plain_file next.now.task.now.file.now)
        (plain_program next.now.task.now.program.now) next.now.schedule.now next.now.thread next.now.most f) }
    ensures stands { IfOk result (λ f. StandsBehind (plain_file next.now.task.now.file.now)
        (plain_program next.now.task.now.program.now) next.now.schedule.now next.now.thread f run.new) }
{
    let thread = next.thread as usize;
    let most = next.most;
    for steps in 1..most {
        let did = run.step(alloc, thread)?;
        match what_happened(thread, &did) {
            Happened::GoesOn => {
                if mark.is_at(run) {
                    return Ok(Followed::Turns(call));
                }
                if is_marked(steps) {
                    assign(mark, Mark::of(alloc, run)?);
                }
            }
            Happened::Stays => return Ok(Followed::Waits(call, steps)),
            Happened::Begins(_) => return Ok(Followed::GoesOn),
            Happened::Ends(ended) => {
                if ended == call {
                    return Ok(Followed::Ends(steps + 1));
                }
                return Ok(Followed::GoesOn);
            }
        }
    }
    Ok(Followed::GoesOn)
}

/// Follows a thread's next call from where the run stands after the schedule.
fn follow_run(alloc: Global, next: &NextCall, run: &mut Playing<'_>) -> Result<Followed, AllocError>
    requires { StandsFor run.old (progress_at (plain_file next.now.task.now.file.now)
        (plain_program next.now.task.now.program.now) next.now.schedule.now) }
    ensures followed { IfOk result (λ f. HasFollowed (plain_file next.now.task.now.file.now)
        (plain_program next.now.task.now.program.now) next.now.schedule.now next.now.thread next.now.most f) }
    ensures stands { IfOk result (λ f. StandsBehind (plain_file next.now.task.now.file.now)
        (plain_program next.now.task.now.program.now) next.now.schedule.now next.now.thread f run.new) }
{
    let thread = next.thread as usize;
    let first = run.step(alloc, thread)?;
    match what_happened(thread, &first) {
        Happened::Begins(call) => {
            let mut mark = Mark::of(alloc, run)?;
            follow_on(alloc, next, call, run, &mut mark)
        }
        Happened::Stays => Ok(Followed::Stays),
        Happened::GoesOn => Ok(Followed::GoesOn),
        Happened::Ends(_) => Ok(Followed::GoesOn),
    }
}

/// What comes of a call, and the run that followed it.
#[derive(Drop)]
pub struct Further<'a> {
    pub followed: Followed,
    /// If the call ends, the run stands behind its last step.
    pub run: Playing<'a>,
}

/// Follows a thread's next call after these steps, for at most so many steps. A run that stands there is given, and
/// stays there. The only refusal is that memory ran out.
///
/// It is marked where the run stands after the first step, and after each power of two from 64 on. If the run comes
/// back there, the call never ends, since no other thread goes on.
pub fn follow_from<'a>(
    alloc: Global,
    task: &Task,
    schedule: &[u8],
    run: &Playing<'a>,
    thread: u8,
    most: usize,
) -> Result<Further<'a>, AllocError>
    requires { StandsFor run.now (progress_at (plain_file task.now.file.now) (plain_program task.now.program.now)
        schedule.now) }
    ensures followed { IfOk result (λ f. HasFollowed (plain_file task.now.file.now)
        (plain_program task.now.program.now) schedule.now thread most f.followed) }
    ensures stands { IfOk result (λ f. StandsBehind (plain_file task.now.file.now)
        (plain_program task.now.program.now) schedule.now thread f.followed f.run) }
{
    let next = NextCall {
        task,
        schedule,
        thread,
        most,
    };
    let mut run = copied(alloc, run)?;
    let followed = follow_run(alloc, &next, &mut run)?;
    Ok(Further { followed, run })
}

/// The same after a schedule.
pub(crate) fn follow<'a>(
    alloc: Global,
    task: &Task,
    schedule: &Schedule,
    run: &Playing<'a>,
    thread: u8,
    most: usize,
) -> Result<Further<'a>, AllocError>
    requires { StandsFor run.now (progress_at (plain_file task.now.file.now) (plain_program task.now.program.now)
        schedule.now) }
    ensures followed { IfOk result (λ f. HasFollowed (plain_file task.now.file.now)
        (plain_program task.now.program.now) schedule.now thread most f.followed) }
    ensures stands { IfOk result (λ f. StandsBehind (plain_file task.now.file.now)
        (plain_program task.now.program.now) schedule.now thread f.followed f.run) }
{
    follow_from(alloc, task, schedule.steps(), run, thread, most)
}
