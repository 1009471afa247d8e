// A run from the source that keeps no answers, one step after another.

ghost use Rattle.std.specs.Prelude.{◌≡◌, IfOk, length, map};
ghost use Rattle.ls_checked.specs.Plain.{plain_file};
ghost use Rattle.ls_checked.specs.PlainProgram.{plain_program, plain_call};
ghost use Rattle.ls_source.specs.Calls.{Starts, begun as with_first};
ghost use Rattle.ls_source.specs.SeenThread.{thread_of};
ghost use Rattle.ls_source.specs.SeenRun.{did_by};

use crate::next::Next;
use crate::store_and_events::StoreAndEvents;
use crate::thread::Thread;
use ls_checked::program::{Program, ThreadProgram};
use ls_checked::tree::File;
use ls_events::action::Action;
use ls_events::event::Event;
use ls_events::value::Value;
use ls_meaning::sort::Sort;
use ls_meaning::step::Did;
use ls_source_pending::work::Control;
use ls_source_store::thing::Effect;
use std::alloc::{AllocError, Global};

/// A run of a program of a file. Each thread has its pending work, up to its next question. The answers that a thread
/// has had aren't kept, since no step reads them.
#[derive(Drop)]
pub struct Playing<'a> {
    pub file: &'a File,
    pub program: &'a Program,
    pub store_and_events: StoreAndEvents,
    pub threads: Vec<Thread<'a>>,
    pub ghost works: { length threads.items ≡ length program.now.threads.items },
}

// What a step did that performed an action.
#[inline(always)]
fn did_by(action: &Action<Value>, effect: Effect) -> Did
    ensures { result ≡ did_by action.now effect }
{
    match effect {
        Effect::Waits => Did::Waits,
        Effect::Does(answer) => Did::Acted(*action, answer),
    }
}

// The threads of a program, each up to its first question.
fn fresh_threads<'a>(
    alloc: Global,
    programs: &'a [ThreadProgram],
) -> Result<Vec<Thread<'a>>, AllocError>
    ensures { IfOk result (λ v. map thread_of v.items ≡
        map (λ t. with_first (record { number = 0; left = map plain_call t.calls.items; phase = Starts }))
        programs.now) }
{
    let mut threads = Vec::new(alloc);
    for program in programs {
        threads.push(Thread::new(alloc, &program.calls))?;
    }
    Ok(threads)
}

impl<'a> Playing<'a> {
    ghost use Rattle.std.specs.Prelude.{◌<◌, IfSome, OnOk, OnErr, Some, slice_get};
    ghost use Rattle.ls_meaning.specs.Threads.{next};
    ghost use Rattle.ls_meaning.specs.Runs.{has_ended, has_started, step, answers_of, performed};
    ghost use Rattle.ls_meaning.specs.Effect.{effect};
    ghost use Rattle.ls_source_pending.specs.Seen.{control_of};
    ghost use Rattle.ls_source.specs.Calls.{asked_by};
    ghost use Rattle.ls_source.specs.SeenThread.{plain_next};
    ghost use Rattle.ls_source.specs.Progress.{Progress, begun, gone_on};
    ghost use Rattle.ls_source.specs.GoneBy.{gone_by};
    ghost use Rattle.ls_source.specs.Kept.{asked_at, action_in};
    ghost use Rattle.ls_source.specs.Stands.{StandsFor};

    /// A run that hasn't made a step. The only refusal is that memory ran out.
    pub fn new(
        alloc: Global,
        file: &'a File,
        program: &'a Program,
    ) -> Result<Playing<'a>, AllocError>
        ensures { IfOk result (λ r. StandsFor r (begun (plain_file file.now) (plain_program program.now))) }
    {
        let store_and_events = StoreAndEvents::new(alloc, program)?;
        let threads = fresh_threads(alloc, &program.threads)?;
        Ok(Playing {
            file,
            program,
            store_and_events,
            threads,
        })
    }

    /// What a thread does after the answers that it has had. If memory ran out for its work, that work doesn't go on
    /// here.
    #[inline(always)]
    pub fn next_of_thread(&self, thread: usize) -> Result<Next, AllocError>
        ensures asked { IfOk result
            (λ r. asked_at (plain_program self.now.program.now)
            (slice_get (map thread_of self.now.threads.items) thread) ≡ Some (plain_next r)) }
        ensures next { IfOk result (λ r. (p : Progress) → StandsFor self.now p →
            plain_next r ≡ next p.file p.program thread (answers_of p.state thread)) }
    {
        match self.threads.get(thread) {
            None => Ok(Next::Ended),
            Some(t) => match t.asked(self.program) {
                None => Err(AllocError),
                Some(next) => Ok(next),
            },
        }
    }

    // What the work of a thread does now, if the thread is in a body.
    #[inline(always)]
    fn control_at(&self, thread: usize) -> Option<&Control<'a>>
        ensures { IfSome result
            (λ c. asked_at (plain_program self.now.program.now)
            (slice_get (map thread_of self.now.threads.items) thread) ≡ asked_by (control_of c.now)) }
    {
        match self.threads.get(thread) {
            None => None,
            Some(t) => match t.control() {
                None => None,
                Some(control) => Some(control),
            },
        }
    }

    // What a thread does next. This isn't the way that most steps take: an action that is made in many places is
    // copied in parts.
    #[inline(never)]
    fn next_outside(&self, thread: usize) -> Result<Next, AllocError>
        ensures asked { IfOk result
            (λ r. asked_at (plain_program self.now.program.now)
            (slice_get (map thread_of self.now.threads.items) thread) ≡ Some (plain_next r)) }
        ensures next { IfOk result (λ r. (p : Progress) → StandsFor self.now p →
            plain_next r ≡ next p.file p.program thread (answers_of p.state thread)) }
    {
        self.next_of_thread(thread)
    }

    // What a thread does next. It is found fastest if the thread is in a body.
    #[inline(always)]
    fn next_at_once(&self, thread: usize) -> Result<Next, AllocError>
        ensures asked { IfOk result
            (λ r. asked_at (plain_program self.now.program.now)
            (slice_get (map thread_of self.now.threads.items) thread) ≡ Some (plain_next r)) }
        ensures next { IfOk result (λ r. (p : Progress) → StandsFor self.now p →
            plain_next r ≡ next p.file p.program thread (answers_of p.state thread)) }
    {
        match self.control_at(thread) {
            Some(Control::Asks(action, sort)) => Ok(Next::Goes(*action, *sort)),
            Some(Control::Enters(m, _, _)) => Ok(Next::Goes(Action::Enter(*m), Sort::NoValue)),
            Some(Control::Turns(_, _)) => Ok(Next::Goes(Action::Turn, Sort::NoValue)),
            _ => self.next_outside(thread),
        }
    }

    /// Whether a thread has started. The setup starts at once. The other threads start when the setup has ended without
    /// a trap. The only refusal is that memory ran out.
    pub fn has_started(&self, thread: usize) -> Result<bool, AllocError>
        ensures { IfOk result (λ b. (p : Progress) → StandsFor self.now p →
            b ≡ has_started p.file p.program p.state thread) }
    {
        if thread == 0 {
            return Ok(true);
        }
        self.has_setup_ended()
    }

    /// Whether the setup has ended without a trap. The only refusal is that memory ran out.
    pub fn has_setup_ended(&self) -> Result<bool, AllocError>
        ensures { IfOk result (λ b. (p : Progress) → StandsFor self.now p →
            b ≡ has_ended (next p.file p.program 0 (answers_of p.state 0))) }
    {
        match self.next_of_thread(0)? {
            Next::Ended => Ok(true),
            Next::Goes(_, _) | Next::Trapped => Ok(false),
        }
    }

    // A thread goes on to its next question.
    fn settle(&mut self, alloc: Global, thread: usize) -> Result<(), AllocError>
        ensures stands { (p : Progress) → StandsFor self.old p → StandsFor self.new p }
        ensures threads { length self.new.threads.items ≡ length self.old.threads.items }
    {
        if thread >= self.threads.len() {
            return Ok(());
        }
        self.threads[thread].settle(alloc, self.file)
    }

    // The action that a thread asks for is performed, and the thread takes the answer.
    fn act(
        &mut self,
        alloc: Global,
        thread: usize,
        action: &Action<Value>,
    ) -> Result<Effect, AllocError>
        requires within { thread < length self.old.threads.items }
        requires asks { action_in
            (asked_at (plain_program self.old.program.now) (slice_get (map thread_of self.old.threads.items) thread)) ≡
            Some action.now }
        ensures did { IfOk result (λ e. (p : Progress) → StandsFor self.old p →
            did_by action.now e ≡
            (performed p.state thread action.now (effect p.file.classes p.state.store thread action.now)).did) }
        ensures run { OnOk result ((p : Progress) → StandsFor self.old p →
            StandsFor self.new
            (gone_by p thread
            (performed p.state thread action.now (effect p.file.classes p.state.store thread action.now)))) }
        ensures refused { OnErr result ((p : Progress) → StandsFor self.old p → StandsFor self.new p) }
    {
        match self
            .store_and_events
            .perform(alloc, &self.file.classes, thread, action)?
        {
            Effect::Waits => Ok(Effect::Waits),
            Effect::Does(answer) => {
                self.threads[thread].take(self.file, answer);
                Ok(Effect::Does(answer))
            }
        }
    }

    /// One step of a thread. It changes the run only if it acts. If memory runs out, the step is refused and the run
    /// is unchanged.
    ///
    /// What the thread does up to its next question is done before and after the action. If memory runs out for that
    /// after the action, the next step goes on with it.
    pub fn step(&mut self, alloc: Global, thread: usize) -> Result<Did, AllocError>
        ensures did { IfOk result (λ d. (p : Progress) → StandsFor self.old p →
            d ≡ (step p.file p.program p.state thread).did) }
        ensures run { OnOk result ((p : Progress) → StandsFor self.old p → StandsFor self.new (gone_on p thread)) }
        ensures refused { OnErr result ((p : Progress) → StandsFor self.old p → StandsFor self.new p) }
    {
        if thread >= self.program.threads.len() {
            return Ok(Did::Idle);
        }
        self.settle(alloc, 0)?;
        self.settle(alloc, thread)?;
        if !self.has_started(thread)? {
            return Ok(Did::Idle);
        }
        match self.next_at_once(thread)? {
            Next::Goes(action, _) => {
                let did = did_by(&action, self.act(alloc, thread, &action)?);
                let _settled = self.settle(alloc, thread);
                Ok(did)
            }
            Next::Ended | Next::Trapped => Ok(Did::Idle),
        }
    }

    /// The events of a run that is over.
    pub fn into_history(self) -> Vec<Event>
        ensures { result.items ≡ self.entry.store_and_events.events.items }
    {
        let Playing {
            file: _,
            program: _,
            store_and_events,
            threads: _,
        } = self;
        let StoreAndEvents { store: _, events } = store_and_events;
        events
    }
}
