// Machines as they stood.
ghost use Rattle.std.specs.Prelude.{◌≡◌, ◌+◌, ◌<◌, ◌≤◌, ◌^◌, [], IfOk, IsTrue, length, map, vec_capacity, vec_len};
ghost use Rattle.std.specs.List.{sum_by};
ghost use Rattle.ls_machine.specs.Saved.{standing, standing_so};
ghost use Rattle.ls_machine_threads.specs.Memory.{events_left};

use super::{Machine, are_same_events, forget};
use ls_events::event::Event;
use ls_machine_moves::cells::{Cells, SavedCells};
use ls_machine_threads::thread::Thread;
use ls_machine_threads::thread::saving::SavedThread;
use std::alloc::{AllocError, Global};
use std::collections::HashMap;
use std::marker::Model;
use std::rc::Rc;

/// A machine as it stood, but for its code, in memory for no more than it has. Parts that are the same as those of
/// others are shared.
#[derive(Drop)]
pub struct Saved {
    threads: Vec<Rc<SavedThread>>,
    cells: Rc<SavedCells>,
    stopped: bool,
    history: Rc<Vec<Event>>,
}

impl Model for Saved {
    ghost use Rattle.std.specs.Prelude.{map};
    ghost use Rattle.ls_machine.specs.Saved.{Standing};

    ghost Value = { Standing };

    ghost view = { λ s. record {
      threads = map (λ t. t.value) s.threads.items;
      cells = s.cells.value;
      stopped = s.stopped;
      history = s.history.value.items;
    } };
}

impl Saved {
    /// The events so far.
    pub fn history(&self) -> &[Event]
        ensures { result.now ≡ self.now.history }
    {
        self.history.as_ref().as_slice()
    }
}

/// Parts that were saved. For a number that is made of a part, one that may be the same; nothing rests on that.
#[derive(Drop)]
pub struct Interner {
    threads: HashMap<u64, Rc<SavedThread>>,
    cells: HashMap<u64, Rc<SavedCells>>,
    histories: HashMap<u64, Rc<Vec<Event>>>,
}

impl Interner {
    /// No parts.
    pub fn new(alloc: Global) -> Interner {
        Interner {
            threads: HashMap::new(alloc),
            cells: HashMap::new(alloc),
            histories: HashMap::new(alloc),
        }
    }

    /// A thread as it stands, which has this number.
    fn thread(
        &mut self,
        alloc: Global,
        thread: &Thread,
        number: u64,
    ) -> Result<Rc<SavedThread>, AllocError>
        ensures { IfOk result (λ saved. saved.value ≡ thread.now.thread) }
    {
        if let Some(found) = self.threads.get(&number) {
            if thread.is_saved(found.as_ref()) {
                return found.clone();
            }
        }
        let saved = Rc::new(alloc, thread.saved(alloc)?)?;
        self.threads.insert(number, saved.clone()?)?;
        Ok(saved)
    }

    /// Cells as they stand, which have this number.
    fn cells(
        &mut self,
        alloc: Global,
        cells: &Cells,
        number: u64,
    ) -> Result<Rc<SavedCells>, AllocError>
        ensures { IfOk result (λ saved. saved.value ≡ cells.now) }
    {
        if let Some(found) = self.cells.get(&number) {
            if cells.is_saved(found.as_ref()) {
                return found.clone();
            }
        }
        let saved = Rc::new(alloc, cells.saved(alloc)?)?;
        self.cells.insert(number, saved.clone()?)?;
        Ok(saved)
    }

    /// A history, which has this number.
    fn history(
        &mut self,
        alloc: Global,
        history: &[Event],
        number: u64,
    ) -> Result<Rc<Vec<Event>>, AllocError>
        ensures { IfOk result (λ saved. saved.value.items ≡ history.now) }
    {
        if let Some(found) = self.histories.get(&number) {
            if are_same_events(history, found.as_ref().as_slice()) {
                return found.clone();
            }
        }
        let copy: Vec<Event> = history.iter().copied().collect(alloc)?;
        let saved = Rc::new(alloc, copy)?;
        self.histories.insert(number, saved.clone()?)?;
        Ok(saved)
    }

    /// Threads as they stand.
    fn all_threads(
        &mut self,
        alloc: Global,
        threads: &[Thread],
    ) -> Result<Vec<Rc<SavedThread>>, AllocError>
        ensures { IfOk result (λ saved. map (λ t. t.value) saved.items ≡ map (λ t. t.thread) threads.now) }
    {
        let mut saved = Vec::with_capacity(alloc, threads.len())?;
        for i in 0..threads.len() {
            let thread = &threads[i];
            saved.push(self.thread(alloc, thread, thread.hash(0))?)?;
        }
        Ok(saved)
    }
}

/// Makes threads as they were saved, in the memory that they have. True only where they are so then.
fn set_threads(threads: &mut [Thread], saved: &[Rc<SavedThread>]) -> bool
    ensures same { IsTrue result → map (λ t. t.thread) threads.new ≡ map (λ t. t.value) saved.now }
    ensures count { length threads.new ≡ length threads.old }
    ensures calls { map (λ t. t.thread.calls) threads.new ≡ map (λ t. t.thread.calls) threads.old }
    ensures locals { map (λ t. t.locals_room) threads.new ≡ map (λ t. t.locals_room) threads.old }
    ensures operands { map (λ t. t.operands_room) threads.new ≡ map (λ t. t.operands_room) threads.old }
{
    if threads.len() != saved.len() {
        return false;
    }
    for i in 0..threads.len() {
        let thread = &mut threads[i];
        if !thread.set_as(saved[i].as_ref()) {
            return false;
        }
    }
    true
}

/// The events that threads can still have.
fn count_left(threads: &[Thread]) -> usize
    requires { sum_by (λ t. events_left t.thread) threads.now < 2 ^ 64 }
    ensures { result ≡ sum_by (λ t. events_left t.thread) threads.now }
{
    let mut count = 0;
    for thread in threads {
        count += thread.events_left();
    }
    count
}

/// Adds events to an empty history, where those that can still come have room beside them. Answers whether they have.
fn remember(history: &mut Vec<Event>, events: &[Event], left: usize, limit: usize) -> bool
    requires none { history.old.items ≡ [] }
    requires left { left ≤ limit }
    requires room { limit ≤ vec_capacity history.old }
    ensures room { vec_len history.new + left ≤ limit }
    ensures capacity { vec_capacity history.old ≤ vec_capacity history.new }
    ensures same { IsTrue result → history.new.items ≡ events.now }
{
    if events.len() > limit - left {
        return false;
    }
    let Ok(()) = history.extend_from_slice(events) else {
        unreachable!()
    };
    true
}

impl Machine {
    /// This machine as it stands, but for its code. The history's number is given.
    pub fn saved(
        &self,
        alloc: Global,
        shelf: &mut Interner,
        number: u64,
    ) -> Result<Saved, AllocError>
        ensures { IfOk result (λ saved. saved ≡ standing self.now) }
    {
        let threads = shelf.all_threads(alloc, self.threads.as_slice())?;
        let cells = shelf.cells(alloc, &self.cells, self.cells.hash(0))?;
        let history = shelf.history(alloc, self.history.as_slice(), number)?;
        Ok(Saved {
            threads,
            cells,
            stopped: self.stopped,
            history,
        })
    }

    /// Whether this machine is as it was saved. True only where it is.
    pub fn is_saved(&self, saved: &Saved) -> bool
        ensures { IsTrue result → standing self.now ≡ saved.now }
    {
        self.stopped == saved.stopped
            && are_same_events(self.history.as_slice(), saved.history())
            && are_saved(self.threads.as_slice(), saved.threads.as_slice())
            && self.cells.is_saved(saved.cells.as_ref())
    }

    /// Makes this machine as it was saved, with its own code and in the memory that it has. True only where it is so
    /// then: that memory may be too little.
    pub fn set_as(&mut self, saved: &Saved) -> bool
        ensures same { IsTrue result → self.new ≡ standing_so self.old saved.now }
        ensures code { self.new.code ≡ self.old.code }
        ensures cells { self.new.cells.limit ≡ self.old.cells.limit }
    {
        forget(&mut self.history);
        self.stopped = saved.stopped;
        let cells = self.cells.set_as(saved.cells.as_ref());
        let threads = set_threads(&mut self.threads, saved.threads.as_slice());
        let left = count_left(&self.threads);
        let history = remember(&mut self.history, saved.history(), left, self.limit);
        cells && threads && history
    }
}

/// Whether threads are as they were saved, one by one. True only where they are.
fn are_saved(threads: &[Thread], saved: &[Rc<SavedThread>]) -> bool
    ensures { IsTrue result → map (λ t. t.thread) threads.now ≡ map (λ t. t.value) saved.now }
{
    if threads.len() != saved.len() {
        return false;
    }
    for i in 0..threads.len() {
        let thread = &threads[i];
        if !thread.is_saved(saved[i].as_ref()) {
            return false;
        }
    }
    true
}
