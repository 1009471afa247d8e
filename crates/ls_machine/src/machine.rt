// The parallel machine.

ghost use Rattle.std.specs.Prelude.{◌≡◌, ◌+◌, ◌<◌, ◌≤◌, ◌^◌, ◌++◌, ◌↔◌, [], length, map, slice_get, slice_index_or};
ghost use Rattle.std.specs.Prelude.{vec_len, vec_capacity, IfOk, IsErrOf, ◌*◌, IsTrue};
ghost use Rattle.std.specs.List.{All, sum_by};
ghost use Rattle.ls_code.specs.Limits.{most_cells};
ghost use Rattle.ls_code.specs.Events.{events_of, result_of, result_value};
ghost use Rattle.ls_code.specs.Machine.{loaded, machine_step, machine_state, setup_ended, is_due as due};
ghost use Rattle.ls_machine.specs.Back.{all_back};
ghost use Rattle.ls_machine_threads.specs.Memory.{no_thread, started_kept};
ghost use Rattle.ls_machine.specs.Room.{AreBadCells};

use crate::fault::LoadFault;
use crate::sameness::are_same_events;
use crate::steps;
use ls_code::code::{CallResult, Code, Method, Start};
use ls_code::step::{Did, Mode, ThreadState, is_stop};
use ls_events::action::Action;
use ls_events::event::{Event, Happening};
use ls_events::value::Value;
use ls_machine_moves::cells::Cells;
use ls_machine_moves::words;
use ls_machine_threads::thread::Thread;
use std::alloc::{AllocError, Global};
use std::marker::Model;

pub mod running;
pub mod saving;

/// The most cells of a machine.
pub const MOST_CELLS: usize = 4_194_304;

/// Whether no machine of the code has so many cells.
pub fn are_bad_cells(code: &Code, cells: usize) -> bool
    ensures { IsTrue result ↔ AreBadCells code.now.names cells }
{
    cells == 0 || cells > MOST_CELLS || cells < code.names()
}

/// A machine that runs code, with all the memory that any run of it takes.
#[derive(Drop)]
pub struct Machine {
    code: Code,
    threads: Vec<Thread>,
    cells: Cells,
    stopped: bool,
    history: Vec<Event>,
    limit: usize,
}

impl Model for Machine {
    ghost use Rattle.std.specs.Prelude.{◌≤◌, map, vec_capacity, vec_len};
    ghost use Rattle.ls_code.specs.Machine.{Machine as MachineValue};
    ghost use Rattle.ls_machine.specs.Back.{IsOf};
    ghost use Rattle.ls_machine.specs.Room.{HasMemory};

    ghost Value = { MachineValue };

    ghost view = { λ m. record {
      code = m.code;
      threads = map (λ t. t.thread) m.threads.items;
      cells = m.cells;
      stopped = m.stopped;
      history = m.history.items;
    } };

    ghost invariant = { λ m. HasMemory m.code m.threads.items (vec_len m.history) m.limit ×
        (m.limit ≤ vec_capacity m.history) × IsOf m.code m.threads.items m.cells m.limit };
}

impl Machine {
    /// The machine of code, at its start, with so many cells, and with all the memory that any run of it takes.
    pub fn load(alloc: Global, code: &Code, cells: usize) -> Result<Machine, LoadFault>
        ensures bad { IsErrOf result LoadFault.BadCells ↔ AreBadCells code.now.names cells }
        ensures loaded { IfOk result (λ m. m ≡ loaded code.now cells) }
    {
        if are_bad_cells(code, cells) {
            return Err(LoadFault::BadCells);
        }
        let machine = load_all(alloc, code, cells)?;
        Ok(machine)
    }

    /// The events so far.
    pub fn history(&self) -> &[Event]
        ensures { result.now ≡ self.now.history }
    {
        &self.history
    }

    /// A law: a machine has at most 65 threads, the setup among them.
    pub fn has_few_threads(&self)
        ensures { length self.now.threads ≤ 65 }
    {
        let _ = self.threads.as_slice();
    }

    /// Where a thread stands. One that isn't there has ended; once the machine has stopped, each other has stopped.
    pub fn state_of(&self, number: usize) -> ThreadState
        ensures { result ≡ machine_state self.now number }
    {
        if number >= self.threads.len() {
            return ThreadState::Ended;
        }
        if self.stopped {
            return ThreadState::Stopped;
        }
        if number != 0 && !has_setup_ended(&self.threads) {
            return ThreadState::NotStarted;
        }
        let thread = &self.threads[number];
        match thread.mode() {
            Mode::Running => ThreadState::Running,
            Mode::Ended => ThreadState::Ended,
            Mode::Trapped => ThreadState::Trapped,
        }
    }

    /// Whether the setup has ended without a trap. It stays so, where the machine has stopped too.
    pub fn is_set_up(&self) -> bool
        ensures { result ≡ setup_ended (slice_get self.now.threads 0) }
    {
        has_setup_ended(&self.threads)
    }

    /// One step of a thread. It takes no memory, and always succeeds.
    #[inline(always)]
    pub fn step(&mut self, number: usize) -> Did
        ensures machine { self.new ≡ (machine_step self.old number).machine }
        ensures did { result ≡ (machine_step self.old number).did }
    {
        if self.moves_silently(number) {
            return Did::Silent;
        }
        self.acting_step(number)
    }

    /// One step of a thread, which most likely acts.
    #[inline(never)]
    fn acting_step(&mut self, number: usize) -> Did
        ensures machine { self.new ≡ (machine_step self.old number).machine }
        ensures did { result ≡ (machine_step self.old number).did }
    {
        if number >= self.threads.len() {
            return Did::Idle;
        }
        if self.stopped {
            return Did::Stopped;
        }
        if !is_due(&self.threads, number) {
            return Did::Idle;
        }
        let thread = &mut self.threads[number];
        let Some(acting) = steps::find_acting(&self.code, thread) else {
            return self.any_step(number);
        };
        steps::act(&self.code, &mut self.cells, number, thread, acting)
    }

    /// One step of a thread, whatever its instruction.
    #[inline(never)]
    fn any_step(&mut self, number: usize) -> Did
        ensures machine { self.new ≡ (machine_step self.old number).machine }
        ensures did { result ≡ (machine_step self.old number).did }
    {
        if number >= self.threads.len() {
            return Did::Idle;
        }
        if self.stopped {
            return Did::Stopped;
        }
        if !is_due(&self.threads, number) {
            return Did::Idle;
        }
        let thread = &mut self.threads[number];
        let did = steps::run(&self.code, &mut self.cells, number, thread);
        self.stopped = is_stop(did);
        record(&mut self.history, &self.code, number, did);
        did
    }

    /// Sets the machine back to its start, as it is loaded anew from its code with as many cells. It takes no memory,
    /// and always succeeds. It costs something for each setup name and each thread, and nothing for the other cells.
    pub fn set_back(&mut self)
        ensures { self.new ≡ loaded self.old.code self.old.cells.limit }
    {
        self.cells.set_back();
        set_all_back(&mut self.threads, self.code.starts());
        self.stopped = false;
        forget(&mut self.history);
    }

    /// Whether this machine is the other, which runs the same code. True only where it is.
    pub fn is_same(&self, other: &Machine) -> bool
        requires { self.now.code ≡ other.now.code }
        ensures { IsTrue result → self.now ≡ other.now }
    {
        if self.stopped != other.stopped {
            return false;
        }
        if !are_same_events(&self.history, &other.history) {
            return false;
        }
        if !self.cells.is_same(&other.cells) {
            return false;
        }
        are_same(&self.threads, &other.threads)
    }

    /// A number that machines which are the same have in common.
    pub fn hash(&self) -> u64 {
        let mut hash = self.cells.hash(self.history.len() as u64);
        for thread in &self.threads {
            hash = thread.hash(hash);
        }
        hash
    }
}

/// The machine of code at its start.
fn load_all(alloc: Global, code: &Code, cells: usize) -> Result<Machine, AllocError>
    requires names { code.now.names ≤ cells }
    requires few { cells ≤ most_cells }
    ensures { IfOk result (λ m. m ≡ loaded code.now cells) }
{
    let code = code.copied(alloc)?;
    let locals_room = locals_needed(&code);
    let operands_room = operands_needed(&code).max(most_needed(code.starts()));
    let limit = events_needed(&code);
    let history = Vec::with_capacity(alloc, limit)?;
    let threads = start_all(alloc, code.starts(), locals_room, operands_room)?;
    let cells = Cells::new(
        alloc,
        code.names(),
        cells,
        copied_sizes(alloc, code.sizes())?,
    )?;
    Ok(Machine {
        code,
        threads,
        cells,
        stopped: false,
        history,
        limit,
    })
}

/// A copy of the classes' sizes.
fn copied_sizes(alloc: Global, sizes: &[usize]) -> Result<Vec<usize>, AllocError>
    ensures { IfOk result (λ copy. copy.items ≡ sizes.now) }
{
    sizes.iter().copied().collect(alloc)
}

/// Whether threads are the same, one by one, up to their memory. True only where they are.
fn are_same(threads: &[Thread], others: &[Thread]) -> bool
    requires { map (λ t. t.thread.calls) threads.now ≡ map (λ t. t.thread.calls) others.now }
    ensures { IsTrue result → map (λ t. t.thread) threads.now ≡ map (λ t. t.thread) others.now }
{
    if threads.len() != others.len() {
        return false;
    }
    for i in 0..threads.len() {
        let thread = &threads[i];
        if !thread.is_same(&others[i]) {
            return false;
        }
    }
    true
}

/// Whether a thread goes on and, but for the setup, the setup has ended.
#[inline(always)]
fn is_due(threads: &[Thread], number: usize) -> bool
    requires { number < length threads.now }
    ensures { result ≡ due (map (λ t. t.thread) threads.now) number (slice_index_or threads.now number
        no_thread).thread }
{
    let thread = &threads[number];
    if thread.mode() != Mode::Running {
        return false;
    }
    if number == 0 {
        return true;
    }
    let setup = &threads[0];
    setup.mode() == Mode::Ended
}

/// What a call of a thread answers.
fn call_result(code: &Code, thread: usize, call: usize) -> Option<CallResult>
    ensures { result ≡ result_of code.now thread call }
{
    match code.starts().get(thread) {
        None => None,
        Some(start) => start.calls().get(call.saturating_sub(1)).copied(),
    }
}

/// The value of a call's word.
fn value_of(answers: Option<CallResult>, word: Option<u64>) -> Option<Value>
    ensures { result ≡ result_value answers word }
{
    let word = word?;
    match answers? {
        CallResult::Int => Some(Value::Int(words::int_of(word))),
        CallResult::Boolean => Some(Value::Boolean(words::bool_of(word))),
        CallResult::Nothing => None,
    }
}

/// Adds the events of a step to the history.
#[inline]
fn record(history: &mut Vec<Event>, code: &Code, thread: usize, did: Did)
    requires { vec_len history.old + length (events_of code.now thread did) ≤ vec_capacity history.old }
    ensures events { history.new.items ≡ history.old.items ++ events_of code.now thread did }
    ensures len { vec_len history.new ≡ vec_len history.old + length (events_of code.now thread did) }
    ensures capacity { vec_capacity history.old ≤ vec_capacity history.new }
{
    let (call, happening) = match did {
        Did::Acted(Action::Call(call), _) => (call, Happening::Called),
        Did::Acted(Action::Return(call, word), _) => (
            call,
            Happening::Returned(value_of(call_result(code, thread, call), word)),
        ),
        Did::Acted(Action::Trap(call, kind), _) => (call, Happening::Trapped(kind)),
        _ => return,
    };
    let Ok(()) = history.push(Event {
        thread,
        call,
        happening,
    }) else {
        unreachable!()
    };
}

/// Forgets all events.
fn forget(history: &mut Vec<Event>)
    ensures events { history.new.items ≡ [] }
    ensures len { vec_len history.new ≡ 0 }
    ensures capacity { vec_capacity history.old ≤ vec_capacity history.new }
{
    history.clear();
}

/// The locals that every method has room in.
fn locals_needed(code: &Code) -> usize
    ensures { All (λ m. m.arguments + m.more ≤ result) code.now.methods }
{
    most_locals(code.methods())
}

/// The operands that every method has room in.
fn operands_needed(code: &Code) -> usize
    ensures { All (λ m. m.need ≤ result) code.now.methods }
{
    most_operands(code.methods())
}

/// Two events for each call.
fn events_needed(code: &Code) -> usize
    ensures { result ≡ sum_by (λ s. 2 * length s.calls) code.now.starts }
{
    count_events(code.starts())
}

/// The most locals of a method.
fn most_locals(methods: &[Method]) -> usize
    requires { All (λ m. (m.arguments ≤ 2 ^ 20) × (m.more ≤ 2 ^ 20)) methods.now }
    ensures { All (λ m. m.arguments + m.more ≤ result) methods.now }
{
    let mut most = 0;
    for method in methods {
        most = most.max(method.arguments + method.more);
    }
    most
}

/// The most operands of a method.
fn most_operands(methods: &[Method]) -> usize
    ensures { All (λ m. m.need ≤ result) methods.now }
{
    let mut most = 0;
    for method in methods {
        most = most.max(method.need);
    }
    most
}

/// The most operands of the lowest frames.
fn most_needed(starts: &[Start]) -> usize
    ensures { All (λ s. s.need ≤ result) starts.now }
{
    let mut most = 0;
    for start in starts {
        most = most.max(start.need());
    }
    most
}

/// Two events for each call.
fn count_events(starts: &[Start]) -> usize
    requires threads { length starts.now ≤ 65 }
    requires calls { All (λ s. length s.calls ≤ 2 ^ 20) starts.now }
    ensures { result ≡ sum_by (λ s. 2 * length s.calls) starts.now }
{
    let mut count = 0;
    for start in starts {
        count += 2 * start.calls().len();
    }
    count
}

/// Each thread at its start.
fn start_all(
    alloc: Global,
    starts: &[Start],
    locals_room: usize,
    operands_room: usize,
) -> Result<Vec<Thread>, AllocError>
    requires { All (λ s. s.need ≤ operands_room) starts.now }
    ensures { IfOk result (λ v. v.items ≡ map (started_kept locals_room operands_room) starts.now) }
{
    let mut threads = Vec::new(alloc);
    for start in starts {
        threads.push(Thread::new(alloc, start, locals_room, operands_room)?)?;
    }
    Ok(threads)
}

/// Each thread back at its start.
fn set_all_back(threads: &mut [Thread], starts: &[Start])
    requires count { length threads.old ≡ length starts.now }
    requires needs { All (λ t. All (λ s. s.need ≤ t.operands_room) starts.now) threads.old }
    ensures { threads.new ≡ all_back starts.now threads.old }
{
    for i in 0..threads.len() {
        let thread = &mut threads[i];
        thread.set_back(&starts[i]);
    }
}

/// Whether the setup has ended without a trap.
fn has_setup_ended(threads: &[Thread]) -> bool
    ensures { result ≡ setup_ended (slice_get (map (λ t. t.thread) threads.now) 0) }
{
    match threads {
        [] => false,
        [setup, ..] => setup.mode() == Mode::Ended,
    }
}
