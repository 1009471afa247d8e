// A thread of a program with its pending work: its calls, one after another.

ghost use Rattle.std.specs.Prelude.{◌≡◌, option_map};
ghost use Rattle.ls_checked.specs.Plain.{plain_file};
ghost use Rattle.ls_checked.specs.PlainProgram.{plain_program};
ghost use Rattle.ls_meaning.specs.Methods.{depth_limit};
ghost use Rattle.ls_meaning.specs.Threads.{result_of, named};
ghost use Rattle.ls_source_pending.specs.Seen.{control_of};
ghost use Rattle.ls_source.specs.Calls.{asked_by};
ghost use Rattle.ls_source.specs.SeenThread.{plain_next};

use crate::next::Next;
use ls_checked::program::{Program, ProgramCall};
use ls_checked::tree::File;
use ls_events::action::{Action, Answer};
use ls_events::kind::Kind;
use ls_events::value::{Value, ValueType};
use ls_meaning::completion::Completion;
use ls_meaning::sort::Sort;
use ls_source_moves::settling::settle;
use ls_source_pending::pending::Pending;
use ls_source_pending::work::Control;
use ls_source_store::lookups::{constructor_of, method_at};
use ls_source_store::value::reference_of;
use std::alloc::{AllocError, Global};

/// Why a body was entered: to make the object of a setup name, or for a method.
#[derive(Copy)]
pub enum Bottom {
    Making(usize, Value),
    Calling(usize),
}

impl Clone for Bottom {
    fn clone(&self) -> Result<Bottom, AllocError> {
        Ok(*self)
    }
}

/// Where a thread is in its calls. A body first begins, and then its work is kept.
#[derive(Copy)]
pub enum Phase<'a> {
    Starts,
    Announces(&'a ProgramCall),
    Makes(usize, usize, &'a [Value]),
    Fetches(usize, usize, &'a [Value]),
    Begins(Bottom, usize, Value, &'a [Value]),
    Works(Bottom),
    Names(usize, Value),
    ReturnsWith(Option<Value>),
    TrapsWith(Kind),
    Trapped,
}

impl<'a> Clone for Phase<'a> {
    fn clone(&self) -> Result<Phase<'a>, AllocError> {
        Ok(*self)
    }
}

/// A thread: its calls, how many of them have begun, and the work of a body.
#[derive(Drop)]
pub struct Thread<'a> {
    pub calls: &'a [ProgramCall],
    pub begun: usize,
    pub phase: Phase<'a>,
    pub work: Pending<'a>,
}

// How many calls may be entered, one in the other.
#[tactic(auto, unfolding(ls_meaning::specs::Methods::depth_limit))]
fn depth_limit() -> u64
    ensures { result ≡ depth_limit }
{
    64
}

// The value of the return event, if the method answers one.
fn result_of(file: &File, method: usize, v: Value) -> Option<Value>
    ensures { result ≡ result_of (plain_file file.now) method v }
{
    match method_at(file, method) {
        None => None,
        Some(m) => match m.result {
            None => None,
            Some(_) => Some(v),
        },
    }
}

// The sort of the answer to a read of a setup name.
fn named(program: &Program, n: usize) -> Sort
    ensures { result ≡ named (plain_program program.now) n }
{
    match program.names.get(n) {
        None => Sort::ValueOf(ValueType::Class(0)),
        Some(name) => Sort::ValueOf(ValueType::Class(name.class)),
    }
}

// What work asks for.
#[inline(always)]
fn asked_by<'a>(control: &Control<'a>) -> Option<Next>
    ensures { option_map plain_next result ≡ asked_by (control_of control.now) }
{
    match control {
        Control::Asks(action, sort) => Some(Next::Goes(*action, *sort)),
        Control::Enters(m, _, _) => Some(Next::Goes(Action::Enter(*m), Sort::NoValue)),
        Control::Turns(_, _) => Some(Next::Goes(Action::Turn, Sort::NoValue)),
        _ => None,
    }
}

impl<'a> Thread<'a> {
    ghost use Rattle.std.specs.Prelude.{◌∷◌, [], ℕ, IfSome, drop, length, map};
    ghost use Rattle.ls_checked.specs.CheckedProgram.{Program as PlainProgram};
    ghost use Rattle.ls_checked.specs.PlainProgram.{plain_call};
    ghost use Rattle.ls_meaning.specs.Course.{Answers};
    ghost use Rattle.ls_source_pending.specs.SeenPending.{state_of};
    ghost use Rattle.ls_source.specs.Calls.{Starts, begun, finished, answered, object_made, object_fetched};
    ghost use Rattle.ls_source.specs.Calls.{announced, asked_now, thread_meaning};
    ghost use Rattle.ls_source.specs.SeenThread.{bottom_of, phase_of, thread_of};

    /// A thread that has done nothing, up to its first question.
    #[tactic(auto, using(crate::proofs::Lefts::all_left))]
    pub fn new(alloc: Global, calls: &'a [ProgramCall]) -> Thread<'a>
        ensures { thread_of result ≡ begun (record { number = 0; left = map plain_call calls.now; phase = Starts }) }
    {
        let mut thread = Thread {
            calls,
            begun: 0,
            phase: Phase::Starts,
            work: Pending {
                control: Control::Gives(Value::Reference(0)),
                frames: Vec::new(alloc),
                locals: Vec::new(alloc),
                depth: 0,
            },
        };
        thread.begin_call();
        thread
    }

    // The next call begins.
    #[tactic(auto, using(crate::proofs::Lefts::one_left, crate::proofs::Lefts::none_left))]
    fn begin_call(&mut self)
        ensures { thread_of self.new ≡ begun (thread_of self.old) }
    {
        match self.phase {
            Phase::Starts => {
                if self.begun < self.calls.len() {
                    let calls = self.calls;
                    self.phase = Phase::Announces(&calls[self.begun]);
                    self.begun += 1;
                }
            }
            _ => {}
        }
    }

    // If a body is still to begin, its work is made. A refusal changes nothing.
    #[tactic(auto, using(ls_source_pending::proofs::Stacks::none_left))]
    #[inline(never)]
    fn make_body(&mut self, alloc: Global) -> Result<(), AllocError>
        ensures { thread_of self.new ≡ thread_of self.old }
    {
        if let Phase::Begins(bottom, method, o, values) = self.phase {
            let mut copied = Vec::new(alloc);
            copied.extend_from_slice(values)?;
            self.work = Pending {
                control: Control::Invokes(method, o, copied),
                frames: Vec::new(alloc),
                locals: Vec::new(alloc),
                depth: depth_limit(),
            };
            self.phase = Phase::Works(bottom);
        }
        Ok(())
    }

    // If a body is still to begin, its work is made. That is seldom, so it is not on the way that each step takes.
    #[inline(always)]
    fn begin_body(&mut self, alloc: Global) -> Result<(), AllocError>
        ensures { thread_of self.new ≡ thread_of self.old }
    {
        match self.phase {
            Phase::Begins(_, _, _, _) => self.make_body(alloc),
            _ => Ok(()),
        }
    }

    // The work of a body, up to its next question or its end.
    fn work_on(&mut self, alloc: Global, file: &'a File) -> Result<(), AllocError>
        ensures { (program : PlainProgram) (q : Answers) →
            thread_meaning (plain_file file.now) program (thread_of self.new) q ≡
            thread_meaning (plain_file file.now) program (thread_of self.old) q }
    {
        settle(&mut self.work, alloc, file)
    }

    // A body that has come to its end.
    #[inline(always)]
    fn finish(&mut self, file: &File)
        ensures { thread_of self.new ≡ finished (plain_file file.now) (thread_of self.old) }
    {
        if let Phase::Works(bottom) = self.phase {
            if self.work.is_left() {
                return;
            }
            match &self.work.control {
                Control::Gives(v) => {
                    self.phase = match bottom {
                        Bottom::Making(name, o) => Phase::Names(name, o),
                        Bottom::Calling(m) => Phase::ReturnsWith(result_of(file, m, *v)),
                    };
                }
                Control::Ends(completion) => {
                    self.phase = match completion {
                        Completion::Threw(kind) => Phase::TrapsWith(*kind),
                        _ => Phase::Trapped,
                    };
                }
                _ => {}
            }
        }
    }

    // Goes on with its call, or with the next.
    #[inline(never)]
    fn go_on(&mut self, alloc: Global, file: &'a File) -> Result<(), AllocError>
        ensures { (program : PlainProgram) (q : Answers) →
            thread_meaning (plain_file file.now) program (thread_of self.new) q ≡
            thread_meaning (plain_file file.now) program (thread_of self.old) q }
    {
        self.begin_call();
        self.begin_body(alloc)?;
        self.work_on(alloc, file)?;
        self.finish(file);
        Ok(())
    }

    /// Goes on to the next question, or to the end. If memory runs out, the thread still does what it did before. What
    /// asks for something waits for the answer.
    #[inline(always)]
    pub fn settle(&mut self, alloc: Global, file: &'a File) -> Result<(), AllocError>
        ensures { (program : PlainProgram) (q : Answers) →
            thread_meaning (plain_file file.now) program (thread_of self.new) q ≡
            thread_meaning (plain_file file.now) program (thread_of self.old) q }
    {
        match self.phase {
            Phase::Starts => {
                if self.begun < self.calls.len() {
                    self.go_on(alloc, file)
                } else {
                    Ok(())
                }
            }
            Phase::Begins(_, _, _, _) => self.go_on(alloc, file),
            Phase::Works(_) => match &self.work.control {
                Control::Asks(_, _) | Control::Enters(_, _, _) | Control::Turns(_, _) => Ok(()),
                _ => self.go_on(alloc, file),
            },
            _ => Ok(()),
        }
    }

    // A call is announced.
    fn announce(&mut self, call: &'a ProgramCall)
        ensures { thread_of self.new ≡
            record {
              number = self.old.begun;
              left = drop self.old.begun (map plain_call self.old.calls.now);
              phase =
                  announced (plain_call call.now);
            } }
    {
        self.phase = match call {
            ProgramCall::Making {
                name,
                class,
                values,
                ..
            } => Phase::Makes(*name, *class, values),
            ProgramCall::Calling {
                name,
                method,
                values,
                ..
            } => Phase::Fetches(*name, *method, values),
        };
    }

    // The object of a setup name is made.
    fn make(
        &mut self,
        file: &File,
        name: usize,
        class: usize,
        values: &'a [Value],
        answer: Answer<Value>,
    )
        ensures { thread_of self.new ≡
            record {
              number = self.old.begun;
              left = drop self.old.begun (map plain_call self.old.calls.now);
              phase =
                  object_made (plain_file file.now) name class values.now answer;
            } }
    {
        let m = constructor_of(&file.classes, class);
        self.phase = match answer {
            Answer::Done => {
                let o = Value::Reference(0);
                Phase::Begins(Bottom::Making(name, o), m, o, values)
            }
            Answer::Gives(o) => Phase::Begins(Bottom::Making(name, o), m, o, values),
            Answer::Fails(kind) => Phase::TrapsWith(kind),
        };
    }

    // The object of a call is read.
    fn fetch(&mut self, file: &File, method: usize, values: &'a [Value], answer: Answer<Value>)
        ensures { thread_of self.new ≡
            record {
              number = self.old.begun;
              left = drop self.old.begun (map plain_call self.old.calls.now);
              phase =
                  object_fetched (plain_file file.now) method values.now answer;
            } }
    {
        let o = match answer {
            Answer::Done => Value::Reference(0),
            Answer::Gives(o) => o,
            Answer::Fails(kind) => {
                self.phase = Phase::TrapsWith(kind);
                return;
            }
        };
        self.phase = if reference_of(o) == 0 {
            Phase::TrapsWith(Kind::NullPointer)
        } else {
            Phase::Begins(Bottom::Calling(method), method, o, values)
        };
    }

    /// The answer to what was asked for.
    pub fn take(&mut self, file: &File, answer: Answer<Value>)
        ensures { thread_of self.new ≡ answered (plain_file file.now) answer (thread_of self.old) }
    {
        match self.phase {
            Phase::Starts => {}
            Phase::Announces(call) => self.announce(call),
            Phase::Makes(name, class, values) => self.make(file, name, class, values, answer),
            Phase::Fetches(_, method, values) => self.fetch(file, method, values, answer),
            Phase::Begins(_, _, _, _) => {}
            Phase::Works(_) => self.work.take(answer),
            Phase::Names(_, _) => self.phase = Phase::ReturnsWith(None),
            Phase::ReturnsWith(_) => self.phase = Phase::Starts,
            Phase::TrapsWith(_) => self.phase = Phase::Trapped,
            Phase::Trapped => {}
        }
    }

    /// What its work does now, if the thread is in a body.
    #[inline(always)]
    pub fn control(&self) -> Option<&Control<'a>>
        ensures { IfSome result (λ c. (program : PlainProgram) → asked_now program (thread_of self.now) ≡
            asked_by (control_of c.now)) }
    {
        match self.phase {
            Phase::Works(_) => Some(&self.work.control),
            _ => None,
        }
    }

    /// What is asked for, if no move is left.
    #[tactic(auto, using(crate::proofs::Lefts::one_left, crate::proofs::Lefts::none_left))]
    #[inline(always)]
    pub fn asked(&self, program: &Program) -> Option<Next>
        ensures { option_map plain_next result ≡ asked_now (plain_program program.now) (thread_of self.now) }
    {
        let n = self.begun;
        let asked = match self.phase {
            Phase::Starts => {
                if n < self.calls.len() {
                    return None;
                }
                return Some(Next::Ended);
            }
            Phase::Announces(_) => Next::Goes(Action::Call(n), Sort::NoValue),
            Phase::Makes(_, class, _) => {
                let sort = Sort::NewOf(ValueType::Class(class));
                Next::Goes(Action::New(class), sort)
            }
            Phase::Fetches(name, _, _) => Next::Goes(Action::ReadName(name), named(program, name)),
            Phase::Begins(_, _, _, _) => return None,
            Phase::Works(_) => return asked_by(&self.work.control),
            Phase::Names(name, o) => Next::Goes(Action::WriteName(name, o), Sort::NoValue),
            Phase::ReturnsWith(v) => Next::Goes(Action::Return(n, v), Sort::NoValue),
            Phase::TrapsWith(kind) => Next::Goes(Action::Trap(n, kind), Sort::NoValue),
            Phase::Trapped => Next::Trapped,
        };
        Some(asked)
    }
}
