// A run whose steps are told.

ghost use Rattle.std.specs.Prelude.{◌≡◌, ◌++◌, [], IfOk, OnOk, OnErr, if◌then◌else◌};
ghost use Rattle.std.specs.Prelude.{map, nat_le, option_to_list, slice_index_or, string_bytes};
ghost use Rattle.ls_labels.specs.Labels.{label_at, label_of};
ghost use Rattle.ls_labels.specs.Names.{names_of};
ghost use Rattle.ls_labels.specs.Threads.{wait_text};
ghost use Rattle.ls_labels.specs.Words.{action_text};
ghost use Rattle.ls_trace.specs.Deeds.{deed_words};
ghost use Rattle.ls_trace.specs.Lines.{line, numbered_text, step_text, still_text, who};
ghost use Rattle.ls_trace.specs.Told.{after_step, begun, call_noted, step_in};

use crate::deed::{Deed, deed_of, wait_of};
use crate::heads::{Heads, Key, push_call, push_tail};
use crate::tens::Tens;
use ls_checked::program::ThreadProgram;
use ls_events::action::Action;
use ls_events::value::Value;
use ls_labels::label::{Label, label_of};
use ls_labels::names::Names;
use ls_labels::objects::label_at;
use ls_labels::threads::{add_wait, end_words, start_words, thread_name};
use ls_labels::words::{add_action, add_answer};
use ls_meaning::step::{Asked, Did};
use ls_source::run::SourceRun;
use std::alloc::{AllocError, Global};
use std::fmt::Write;

/// A run with what its objects are called by and the number of each thread's last call, 0 before the first. Texts that
/// were told are kept.
#[derive(Drop)]
pub struct Teller<'a> {
    names: Names<'a>,
    run: SourceRun<'a>,
    labels: Vec<Label>,
    calls: Vec<usize>,
    heads: Heads,
    tens: Tens,
}

/// No calls or steps yet, for each thread.
pub fn no_steps(alloc: Global, threads: &[ThreadProgram]) -> Result<Vec<usize>, AllocError>
    ensures { IfOk result (λ v. v.items ≡ map (λ t. 0) threads.now) }
{
    let mut calls = Vec::new(alloc);
    for _thread in threads {
        calls.push(0)?;
    }
    Ok(calls)
}

/// The label of a new object and the number of a call are kept. Where memory is short, nothing is.
#[inline(always)]
pub fn note(
    labels: &mut Vec<Label>,
    calls: &mut Vec<usize>,
    thread: usize,
    action: &Action<Value>,
) -> Result<(), AllocError>
    ensures labels { OnOk result (labels.new.items ≡ labels.old.items ++ option_to_list (label_of action.now)) }
    ensures calls { OnOk result (calls.new.items ≡ call_noted calls.old.items thread action.now) }
    ensures labels_refused { OnErr result (labels.new.items ≡ labels.old.items) }
    ensures calls_refused { OnErr result (calls.new.items ≡ calls.old.items) }
{
    if let Some(label) = label_of(*action) {
        labels.push(label)?;
    }
    if let Action::Call(call) = action {
        if thread < calls.len() {
            calls[thread] = *call;
        }
    }
    Ok(())
}

// What is kept of a deed: its thread, the thread's last call, and the label of its object.
#[inline(always)]
fn key_of(labels: &[Label], calls: &[usize], thread: usize, deed: Deed) -> Key
    ensures { result ≡ record {
      thread = thread;
      call = slice_index_or calls.now thread 0;
      deed = deed;
      label = label_at labels.now deed.object;
    } }
{
    let call = match calls.get(thread) {
        Some(call) => *call,
        None => 0,
    };
    Key {
        thread,
        call,
        deed,
        label: label_at(labels, deed.object),
    }
}

impl<'a> Teller<'a> {
    ghost use Rattle.ls_trace.specs.SeenTeller.{RunsNamed, names_in, told_of};

    /// A run that hasn't made a step.
    #[tactic(auto, using(crate::proofs::Calls::zeros_is))]
    pub fn new(alloc: Global, names: Names<'a>) -> Result<Teller<'a>, AllocError>
        ensures run { IfOk result (λ t. told_of t ≡ begun (names_of names.entry).program) }
        ensures names { IfOk result (λ t. names_in t ≡ names_of names.entry) }
        ensures runs { IfOk result (λ t. RunsNamed t) }
    {
        let calls = no_steps(alloc, &names.program.threads)?;
        let heads = Heads::new(alloc, &names)?;
        let tens = Tens::new(alloc)?;
        let run = SourceRun::new(alloc, names.file, names.program)?;
        Ok(Teller {
            names,
            run,
            labels: Vec::new(alloc),
            calls,
            heads,
            tens,
        })
    }

    /// A step of a thread.
    #[inline(always)]
    pub fn step(&mut self, alloc: Global, thread: usize) -> Result<Did, AllocError>
        requires { RunsNamed self.old }
        ensures did { IfOk result (λ d. d ≡ (step_in (names_in self.old) (told_of self.old) thread).did) }
        ensures run { OnOk result (told_of self.new ≡ after_step (names_in self.old) (told_of self.old) thread) }
        ensures names { names_in self.new ≡ names_in self.old }
        ensures runs { OnOk result (RunsNamed self.new) }
    {
        let did = self.run.step(alloc, thread)?;
        if let Did::Acted(action, _) = &did {
            note(&mut self.labels, &mut self.calls, thread, action)?;
        }
        Ok(did)
    }

    // Adds a thread with its last call.
    fn push_who(&self, out: &mut String, thread: usize) -> Result<(), AllocError>
        ensures { OnOk result (string_bytes out.new
            ≡ string_bytes out.old ++ who (names_in self.now) (told_of self.now) thread) }
    {
        let call = match self.calls.get(thread) {
            Some(call) => *call,
            None => 0,
        };
        push_call(out, &self.names, thread, call)
    }

    // Adds a thread with its last call and a deed of it.
    #[inline(always)]
    fn push_deed(&mut self, out: &mut String, thread: usize, deed: Deed) -> Result<(), AllocError>
        requires { RunsNamed self.old }
        ensures run { told_of self.new ≡ told_of self.old }
        ensures names { names_in self.new ≡ names_in self.old }
        ensures runs { OnOk result (RunsNamed self.new) }
        ensures out { OnOk result (string_bytes out.new ≡ string_bytes out.old
            ++ (who (names_in self.old) (told_of self.old) thread
            ++ deed_words (names_in self.old) (label_at (told_of self.old).labels deed.object) deed)) }
    {
        let key = key_of(&self.labels, &self.calls, thread, deed);
        self.heads.push(out, &self.names, &key)
    }

    // Adds a thread with its last call and an action of it.
    #[inline(always)]
    fn push_acted(
        &mut self,
        out: &mut String,
        thread: usize,
        action: &Action<Value>,
    ) -> Result<(), AllocError>
        requires { RunsNamed self.old }
        ensures run { told_of self.new ≡ told_of self.old }
        ensures names { names_in self.new ≡ names_in self.old }
        ensures runs { OnOk result (RunsNamed self.new) }
        ensures out { OnOk result (string_bytes out.new ≡ string_bytes out.old
            ++ (who (names_in self.old) (told_of self.old) thread
            ++ action_text (names_in self.old) (told_of self.old).labels thread action.now)) }
    {
        match deed_of(action) {
            None => {
                self.push_who(out, thread)?;
                add_action(out, &self.names, &self.labels, thread, action)
            }
            Some(deed) => {
                self.push_deed(out, thread, deed)?;
                push_tail(out, &self.names, &self.labels, action)
            }
        }
    }

    // Adds a thread with its last call and what it waits for.
    fn push_waits(
        &mut self,
        out: &mut String,
        thread: usize,
        action: &Action<Value>,
    ) -> Result<(), AllocError>
        requires { RunsNamed self.old }
        ensures run { told_of self.new ≡ told_of self.old }
        ensures names { names_in self.new ≡ names_in self.old }
        ensures runs { OnOk result (RunsNamed self.new) }
        ensures out { OnOk result (string_bytes out.new ≡ string_bytes out.old
            ++ (who (names_in self.old) (told_of self.old) thread
            ++ wait_text (names_in self.old) (told_of self.old).labels (told_of self.old).state.store action.now)) }
    {
        match wait_of(&self.run, action) {
            None => {
                self.push_who(out, thread)?;
                add_wait(out, &self.names, &self.labels, &self.run, action)
            }
            Some(deed) => self.push_deed(out, thread, deed),
        }
    }

    // Why a step of a thread changes nothing, by what the thread asks for.
    fn push_still(
        &mut self,
        out: &mut String,
        thread: usize,
        asked: &Asked,
    ) -> Result<(), AllocError>
        requires { RunsNamed self.old }
        ensures run { told_of self.new ≡ told_of self.old }
        ensures names { names_in self.new ≡ names_in self.old }
        ensures runs { OnOk result (RunsNamed self.new) }
        ensures out { OnOk result (string_bytes out.new
            ≡ string_bytes out.old ++ still_text (names_in self.old) (told_of self.old) thread asked.now) }
    {
        match asked {
            Asked::Asks(action) => self.push_waits(out, thread, action),
            Asked::NotStarted => {
                out.push_str(thread_name(self.names.program, thread))?;
                out.push_str(start_words(self.run.has_trapped(0)?))
            }
            Asked::Ended => {
                out.push_str(thread_name(self.names.program, thread))?;
                out.push_str(end_words(self.run.has_trapped(thread)?))
            }
        }
    }

    fn push_numbered(
        &mut self,
        alloc: Global,
        out: &mut String,
        thread: usize,
    ) -> Result<(), AllocError>
        requires { RunsNamed self.old }
        ensures run { told_of self.new ≡ told_of self.old }
        ensures names { names_in self.new ≡ names_in self.old }
        ensures runs { OnOk result (RunsNamed self.new) }
        ensures out { OnOk result (string_bytes out.new
            ≡ string_bytes out.old ++ numbered_text (names_in self.old) (told_of self.old) thread) }
    {
        if thread >= self.names.program.threads.len() {
            return write!(out, "no thread has number {thread}");
        }
        let asked = self.run.next(alloc, thread)?;
        self.push_still(out, thread, &asked)
    }

    /// Adds what is told of the step that the run has just made, by its thread and what it did.
    pub fn push_step(
        &mut self,
        alloc: Global,
        out: &mut String,
        thread: usize,
        did: &Did,
    ) -> Result<(), AllocError>
        requires { RunsNamed self.old }
        ensures run { told_of self.new ≡ told_of self.old }
        ensures names { names_in self.new ≡ names_in self.old }
        ensures runs { OnOk result (RunsNamed self.new) }
        ensures out { OnOk result (string_bytes out.new
            ≡ string_bytes out.old ++ step_text (names_in self.old) (told_of self.old) thread did.now) }
    {
        match did {
            Did::Acted(action, answer) => {
                self.push_acted(out, thread, action)?;
                add_answer(out, &self.names, &self.labels, answer)
            }
            Did::Waits => self.push_numbered(alloc, out, thread),
            Did::Idle => self.push_numbered(alloc, out, thread),
        }
    }

    // Adds the line of the step that the run has just made, by its number, its thread and what it did.
    fn push_line(
        &mut self,
        alloc: Global,
        out: &mut String,
        number: usize,
        thread: usize,
        did: &Did,
    ) -> Result<(), AllocError>
        requires { RunsNamed self.old }
        ensures run { told_of self.new ≡ told_of self.old }
        ensures names { names_in self.new ≡ names_in self.old }
        ensures runs { OnOk result (RunsNamed self.new) }
        ensures out { OnOk result (string_bytes out.new
            ≡ string_bytes out.old ++ line (names_in self.old) number (told_of self.old) thread did.now) }
    {
        self.tens.push(out, number as u64)?;
        out.push(' ')?;
        self.push_step(alloc, out, thread, did)?;
        out.push('\n')
    }

    /// A step of a thread. Its line is added if its number isn't below `from`.
    pub(crate) fn tell(
        &mut self,
        alloc: Global,
        out: &mut String,
        from: usize,
        number: usize,
        thread: usize,
    ) -> Result<(), AllocError>
        requires { RunsNamed self.old }
        ensures run { OnOk result (told_of self.new ≡ after_step (names_in self.old) (told_of self.old) thread) }
        ensures names { names_in self.new ≡ names_in self.old }
        ensures runs { OnOk result (RunsNamed self.new) }
        ensures out { OnOk result (string_bytes out.new ≡ string_bytes out.old
            ++ (if nat_le from number
            then line (names_in self.old) number (after_step (names_in self.old) (told_of self.old) thread) thread
            (step_in (names_in self.old) (told_of self.old) thread).did
            else [])) }
    {
        let did = self.step(alloc, thread)?;
        if from <= number {
            return self.push_line(alloc, out, number, thread, &did);
        }
        Ok(())
    }
}
