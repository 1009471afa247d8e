// What the machine runs.

ghost use Rattle.std.specs.Prelude.{◌≡◌, ◌+◌, ◌≤◌, ◌<◌, ◌^◌, ◌↔◌, length, IsTrue, IfOk, map, take};
ghost use Rattle.std.specs.List.{All};
ghost use Rattle.ls_code.specs.Code.{IsSmall};

use crate::instruction::Instruction;
use std::alloc::{AllocError, Global};
use std::marker::Model;

/// A handler row. A throw at a place from `from` to below `to` cuts the operands to `depth` and goes on at `handler`.
#[derive(Copy)]
pub struct HandlerRow {
    pub from: usize,
    pub to: usize,
    pub handler: usize,
    pub depth: usize,
}

impl Clone for HandlerRow {
    fn clone(&self) -> Result<HandlerRow, AllocError> {
        Ok(*self)
    }
}

/// Where a method starts, how many arguments it takes (`this` too), its further locals, and how many operands it may
/// have.
#[derive(Copy)]
pub struct Method {
    pub start: usize,
    pub arguments: usize,
    pub more: usize,
    pub need: usize,
}

impl Clone for Method {
    fn clone(&self) -> Result<Method, AllocError> {
        Ok(*self)
    }
}

/// The type of what a call of a thread answers.
#[derive(Copy)]
pub enum CallResult {
    Nothing,
    Int,
    Boolean,
}

impl Clone for CallResult {
    fn clone(&self) -> Result<CallResult, AllocError> {
        Ok(*self)
    }
}

/// Where a thread starts, how many operands it may have, and what each of its calls answers.
#[derive(Drop)]
pub struct Start {
    place: usize,
    need: usize,
    calls: Vec<CallResult>,
}

impl Model for Start {
    ghost use Rattle.ls_code.specs.Code.{Start as StartValue};

    ghost Value = { StartValue };

    ghost view = { λ s. record { place = s.place; need = s.need; calls = s.calls.items } };
}

impl Start {
    /// The start of a thread.
    pub fn new(place: usize, need: usize, calls: Vec<CallResult>) -> Start
        ensures { result ≡ record { place = place; need = need; calls = calls.items } }
    {
        Start { place, need, calls }
    }

    /// The place of its first instruction.
    pub fn place(&self) -> usize
        ensures { result ≡ self.now.place }
    {
        self.place
    }

    /// How many operands it may have at one time.
    pub fn need(&self) -> usize
        ensures { result ≡ self.now.need }
    {
        self.need
    }

    /// What each of its calls answers, in order.
    pub fn calls(&self) -> &[CallResult]
        ensures { result.now ≡ self.now.calls }
    {
        self.calls.as_slice()
    }

    /// A copy of what the calls answer. The only refusal is that memory ran out.
    pub fn copied_calls(&self, alloc: Global) -> Result<Vec<CallResult>, AllocError>
        ensures { IfOk result (λ calls. calls.items ≡ self.now.calls) }
    {
        self.calls.iter().copied().collect(alloc)
    }

    /// A copy. The only refusal is that memory ran out.
    pub fn copied(&self, alloc: Global) -> Result<Start, AllocError>
        ensures { IfOk result (λ copy. copy ≡ self.now) }
    {
        Ok(Start {
            place: self.place,
            need: self.need,
            calls: self.copied_calls(alloc)?,
        })
    }
}

/// The most threads of code; the setup counts.
pub const MOST_THREADS: usize = 65;

/// The most calls of a thread.
pub const MOST_CALLS: usize = 1_048_576;

/// The most arguments of a method, and the most of its further locals.
pub const MOST_LOCALS: usize = 1_048_576;

/// The parts of code. Nothing is known of them yet.
#[derive(Drop)]
pub struct Parts {
    pub instructions: Vec<Instruction>,
    pub handlers: Vec<HandlerRow>,
    pub methods: Vec<Method>,
    pub sizes: Vec<usize>,
    pub starts: Vec<Start>,
    pub names: usize,
}

impl Model for Parts {
    ghost use Rattle.ls_code.specs.Code.{Code as CodeValue};

    ghost Value = { CodeValue };

    ghost view = { λ p. record {
      instructions = p.instructions.items;
      handlers = p.handlers.items;
      methods = p.methods.items;
      sizes = p.sizes.items;
      starts = p.starts.items;
      names = p.names;
    } };
}

/// What the machine runs: the code of all units, and what is known of methods, classes, threads and setup names. Its
/// numbers are small enough for a machine.
#[derive(Drop)]
pub struct Code {
    parts: Parts,
}

impl Model for Code {
    ghost use Rattle.ls_code.specs.Code.{Code as CodeValue, IsSmall};

    ghost Value = { CodeValue };

    ghost view = { λ c. c.parts };

    ghost invariant = { λ c. IsSmall c.parts };
}

impl Code {
    ghost use Rattle.std.specs.Prelude.{IsSome, IfSome};

    /// The code of these parts, or none if a number is too large for a machine.
    pub fn new(parts: Parts) -> Option<Code>
        ensures small { IsSome result ↔ IsSmall parts }
        ensures same { IfSome result (λ c. c ≡ parts) }
    {
        if is_small(&parts) {
            Some(Code { parts })
        } else {
            None
        }
    }

    /// A copy. The only refusal is that memory ran out.
    pub fn copied(&self, alloc: Global) -> Result<Code, AllocError>
        ensures { IfOk result (λ copy. copy ≡ self.now) }
    {
        let parts = Parts {
            instructions: self.parts.instructions.iter().copied().collect(alloc)?,
            handlers: self.parts.handlers.iter().copied().collect(alloc)?,
            methods: self.parts.methods.iter().copied().collect(alloc)?,
            sizes: self.parts.sizes.iter().copied().collect(alloc)?,
            starts: copied_starts(alloc, &self.parts.starts)?,
            names: self.parts.names,
        };
        Ok(Code { parts })
    }

    /// The instructions of all units, one after another.
    pub fn instructions(&self) -> &[Instruction]
        ensures { result.now ≡ self.now.instructions }
    {
        self.parts.instructions.as_slice()
    }

    /// The handler rows. If two rows hold one place, the first row is the innermost.
    pub fn handlers(&self) -> &[HandlerRow]
        ensures { result.now ≡ self.now.handlers }
    {
        self.parts.handlers.as_slice()
    }

    /// The methods, by their numbers.
    pub fn methods(&self) -> &[Method]
        ensures methods { result.now ≡ self.now.methods }
        ensures small { All (λ m. (m.arguments ≤ 2 ^ 20) × (m.more ≤ 2 ^ 20)) result.now }
    {
        self.parts.methods.as_slice()
    }

    /// How many cells an object of each class has.
    pub fn sizes(&self) -> &[usize]
        ensures { result.now ≡ self.now.sizes }
    {
        self.parts.sizes.as_slice()
    }

    /// The threads, the setup's first.
    pub fn starts(&self) -> &[Start]
        ensures starts { result.now ≡ self.now.starts }
        ensures few { length result.now ≤ 65 }
        ensures calls { All (λ s. length s.calls ≤ 2 ^ 20) result.now }
    {
        self.parts.starts.as_slice()
    }

    /// How many names the setup gives.
    pub fn names(&self) -> usize
        ensures { result ≡ self.now.names }
    {
        self.parts.names
    }
}

/// Whether a machine can be made of these parts.
fn is_small(parts: &Parts) -> bool
    ensures { IsTrue result ↔ IsSmall parts.now }
{
    parts.starts.len() <= MOST_THREADS
        && have_few_calls(&parts.starts)
        && have_few_locals(&parts.methods)
}

/// Whether each thread has few enough calls.
fn have_few_calls(starts: &[Start]) -> bool
    ensures { IsTrue result ↔ All (λ s. length s.calls ≤ 2 ^ 20) starts.now }
{
    starts.iter().all(|start| start.calls().len() <= MOST_CALLS)
}

/// Whether each method has few enough locals.
fn have_few_locals(methods: &[Method]) -> bool
    ensures { IsTrue result ↔ All (λ m. (m.arguments ≤ 2 ^ 20) × (m.more ≤ 2 ^ 20)) methods.now }
{
    methods.iter().all(|method| method.arguments <= MOST_LOCALS && method.more <= MOST_LOCALS)
}

/// A copy of some threads' starts.
fn copied_starts(alloc: Global, starts: &[Start]) -> Result<Vec<Start>, AllocError>
    ensures { IfOk result (λ copies. copies.items ≡ starts.now) }
{
    let mut copies = Vec::new(alloc);
    for start in starts {
        copies.push(start.copied(alloc)?)?;
    }
    Ok(copies)
}
