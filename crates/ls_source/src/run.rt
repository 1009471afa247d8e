// A run from the source with its answers, one step after another.

ghost use Rattle.std.specs.Prelude.{◌≡◌, IfOk, [], length, map};
ghost use Rattle.ls_checked.specs.Plain.{plain_file};
ghost use Rattle.ls_checked.specs.PlainProgram.{plain_program};
ghost use Rattle.ls_meaning.specs.Runs.{source_history};
ghost use Rattle.ls_source.specs.SeenThread.{thread_of};
ghost use Rattle.ls_source.specs.SeenRun.{lists_of};
ghost use Rattle.ls_source.specs.Kept.{IsKept};

use crate::next::Next;
use crate::playing::Playing;
use ls_checked::program::{Program, ThreadProgram};
use ls_checked::tree::File;
use ls_events::action::Answer;
use ls_events::event::Event;
use ls_events::value::Value;
use ls_meaning::step::{Asked, Did};
use ls_source_store::thing::Thing;
use std::alloc::{AllocError, Global};

/// A run of a program of a file. Each thread has its pending work, up to its next question. The answers that a thread
/// has had are kept, but no step reads them.
#[derive(Drop)]
pub struct SourceRun<'a> {
    playing: Playing<'a>,
    answers: Vec<Vec<Answer<Value>>>,
    ghost lists: { length answers.items ≡ length playing.program.now.threads.items },
    ghost kept: { IsKept (plain_file playing.file.now) (plain_program playing.program.now)
        (map thread_of playing.threads.items) (lists_of answers.items) },
}

// No answers, for each thread.
fn no_answers(
    alloc: Global,
    threads: &[ThreadProgram],
) -> Result<Vec<Vec<Answer<Value>>>, AllocError>
    ensures { IfOk result (λ v. lists_of v.items ≡ map (λ t. []) threads.now) }
{
    let mut answers = Vec::new(alloc);
    for _thread in threads {
        answers.push(Vec::new(alloc))?;
    }
    Ok(answers)
}

impl<'a> SourceRun<'a> {
    ghost use Rattle.std.specs.Prelude.{OnOk, OnErr, option_map};
    ghost use Rattle.std.specs.Option.{option_copied};
    ghost use Rattle.ls_meaning.specs.Store.{name_at, thing_at};
    ghost use Rattle.ls_meaning.specs.Threads.{next};
    ghost use Rattle.ls_meaning.specs.Runs.{asked, has_ended, has_started, step, answers_of};
    ghost use Rattle.ls_source.specs.Ends.{has_trapped};
    ghost use Rattle.ls_source.specs.SeenThread.{plain_next};
    ghost use Rattle.ls_source_store.specs.SeenThing.{thing_of};
    ghost use Rattle.ls_source.specs.Progress.{begun, gone_on};
    ghost use Rattle.ls_source.specs.Shown.{progress_of};

    /// A run that hasn't made a step. The only refusal is that memory ran out.
    pub fn new(
        alloc: Global,
        file: &'a File,
        program: &'a Program,
    ) -> Result<SourceRun<'a>, AllocError>
        ensures { IfOk result (λ r. progress_of r ≡ begun (plain_file file.now) (plain_program program.now)) }
    {
        let playing = Playing::new(alloc, file, program)?;
        let answers = no_answers(alloc, &program.threads)?;
        Ok(SourceRun { playing, answers })
    }

    // What a thread does after the answers that it has had.
    #[inline(always)]
    fn next_of_thread(&self, thread: usize) -> Result<Next, AllocError>
        ensures { IfOk result
            (λ r. plain_next r ≡ next (progress_of self.now).file (progress_of self.now).program thread
            (answers_of (progress_of self.now).state thread)) }
    {
        self.playing.next_of_thread(thread)
    }

    // The setup starts at once. The other threads start when the setup has ended without a trap.
    #[inline(always)]
    fn has_started(&self, thread: usize) -> Result<bool, AllocError>
        ensures { IfOk result
            (λ b. b ≡ has_started (progress_of self.now).file (progress_of self.now).program
            (progress_of self.now).state thread) }
    {
        self.playing.has_started(thread)
    }

    /// Whether the setup has ended without a trap. The only refusal is that memory ran out.
    pub fn has_setup_ended(&self) -> Result<bool, AllocError>
        ensures { IfOk result
            (λ b. b ≡ has_ended
            (next (progress_of self.now).file (progress_of self.now).program 0
            (answers_of (progress_of self.now).state 0))) }
    {
        self.playing.has_setup_ended()
    }

    /// What a thread asks for next. A thread that doesn't exist has ended. The only refusal is that memory ran out.
    pub fn next(&self, _alloc: Global, thread: usize) -> Result<Asked, AllocError>
        ensures { IfOk result
            (λ a. a ≡ asked (progress_of self.now).file (progress_of self.now).program (progress_of self.now).state
            thread) }
    {
        if thread >= self.answers.len() {
            return Ok(Asked::Ended);
        }
        if !self.has_started(thread)? {
            return Ok(Asked::NotStarted);
        }
        match self.next_of_thread(thread)? {
            Next::Goes(action, _) => Ok(Asked::Asks(action)),
            Next::Ended | Next::Trapped => Ok(Asked::Ended),
        }
    }

    /// Whether a thread has ended with a trap. A thread that doesn't exist hasn't. The only refusal is that memory ran
    /// out.
    pub fn has_trapped(&self, thread: usize) -> Result<bool, AllocError>
        ensures { IfOk result
            (λ b. b ≡ has_trapped
            (next (progress_of self.now).file (progress_of self.now).program thread
            (answers_of (progress_of self.now).state thread))) }
    {
        match self.next_of_thread(thread)? {
            Next::Trapped => Ok(true),
            Next::Goes(_, _) | Next::Ended => Ok(false),
        }
    }

    /// All things that the run has made, in order of making. Object n, counted from 1, is at index n - 1.
    pub fn things(&self) -> &[Thing]
        ensures { map thing_of result.now ≡ (progress_of self.now).state.store.things }
    {
        self.playing.store_and_events.store.things.as_slice()
    }

    /// The thing that a reference names. 0, which is null, and the number of no object name none.
    pub fn thing(&self, number: u64) -> Option<&Thing>
        ensures { option_map thing_of (option_copied result) ≡ thing_at (progress_of self.now).state.store number }
    {
        if number == 0 {
            return None;
        }
        self.playing
            .store_and_events
            .store
            .things
            .get((number - 1) as usize)
    }

    /// The value of a setup name, by its number in text order from 0. If there is no such name, it is null.
    pub fn name_value(&self, number: usize) -> Value
        ensures { result ≡ name_at (progress_of self.now).state.store number }
    {
        match self.playing.store_and_events.store.names.get(number) {
            None => Value::Reference(0),
            Some(v) => *v,
        }
    }

    /// One step of a thread. It changes the run only if it acts. If memory runs out, the step is refused and the run
    /// is unchanged.
    ///
    /// What the thread does up to its next question is done before and after the action. If memory runs out for that
    /// after the action, the next step goes on with it.
    pub fn step(&mut self, alloc: Global, thread: usize) -> Result<Did, AllocError>
        ensures did { IfOk result
            (λ d. d ≡ (step (progress_of self.old).file (progress_of self.old).program (progress_of self.old).state
            thread).did) }
        ensures run { OnOk result (progress_of self.new ≡ gone_on (progress_of self.old) thread) }
        ensures refused { OnErr result (progress_of self.new ≡ progress_of self.old) }
    {
        if thread >= self.answers.len() {
            return Ok(Did::Idle);
        }
        let had = &mut self.answers[thread];
        had.reserve(1)?;
        let did = self.playing.step(alloc, thread)?;
        match &did {
            Did::Acted(_, answer) => {
                had.push(*answer)?;
                Ok(did)
            }
            Did::Waits => Ok(did),
            Did::Idle => Ok(did),
        }
    }

    /// The events so far.
    pub fn history(&self) -> &[Event]
        ensures { result.now ≡ (progress_of self.now).history }
    {
        self.playing.store_and_events.events.as_slice()
    }
}

/// The history of a program of a file, for a schedule. The only refusal is that memory ran out.
pub fn play(
    alloc: Global,
    file: &File,
    program: &Program,
    steps: &[u8],
) -> Result<Vec<Event>, AllocError>
    ensures { IfOk result
        (λ es. es.items ≡ source_history (plain_file file.now) (plain_program program.now) steps.now) }
{
    let mut run = Playing::new(alloc, file, program)?;
    for thread in steps {
        let _did = run.step(alloc, *thread as usize)?;
    }
    Ok(run.into_history())
}
