// Threads as they stood.
ghost use Rattle.std.specs.Prelude.{◌≡◌, ℕ, ◌+◌, ◌<◌, ◌≤◌, ◌^◌, ◌⊎◌, IfOk, IsTrue, drop, false, length, map};
ghost use Rattle.ls_machine_threads.specs.Memory.{CallersGoOn, HaveRooms, events_left, keeping_thread, pending_count};

use super::{MOST_CALLED, Thread, are_same};
use ls_code::code::CallResult;
use ls_code::step::Mode;
use ls_machine_moves::frame::Frame;
use std::alloc::{AllocError, Global};
use std::marker::Model;

/// A thread as it stood, in memory for no more than it has. The innermost frame is the first.
#[derive(Drop)]
pub struct SavedThread {
    frames: Vec<Frame>,
    mode: Mode,
    calls: Vec<CallResult>,
    ended: usize,
    pending: bool,
}

impl Model for SavedThread {
    ghost use Rattle.std.specs.Prelude.{drop, map, slice_index_or};
    ghost use Rattle.ls_machine_moves.specs.Frames.{no_frame};
    ghost use Rattle.ls_code.specs.Thread.{Thread as ThreadValue};

    ghost Value = { ThreadValue };

    ghost view = { λ t. record {
      top = (slice_index_or t.frames.items 0 no_frame).frame;
      below = map (λ k. k.frame) (drop 1 t.frames.items);
      mode = t.mode;
      calls = t.calls.items;
      ended = t.ended;
      pending = t.pending;
    } };
}

/// Whether a call answers the same kind of value. True only where it does.
fn is_same_result(answer: CallResult, other: CallResult) -> bool
    ensures { IsTrue result → answer ≡ other }
{
    match (answer, other) {
        (CallResult::Nothing, CallResult::Nothing) => true,
        (CallResult::Int, CallResult::Int) => true,
        (CallResult::Boolean, CallResult::Boolean) => true,
        _ => false,
    }
}

/// Whether calls answer the same, one by one. True only where they do.
fn answer_the_same(calls: &[CallResult], others: &[CallResult]) -> bool
    ensures { IsTrue result → calls.now ≡ others.now }
{
    if calls.len() != others.len() {
        return false;
    }
    for i in 0..calls.len() {
        if !is_same_result(calls[i], others[i]) {
            return false;
        }
    }
    true
}

/// A copy of what calls answer.
fn copied_calls(alloc: Global, calls: &[CallResult]) -> Result<Vec<CallResult>, AllocError>
    ensures { IfOk result (λ copy. copy.items ≡ calls.now) }
{
    calls.iter().copied().collect(alloc)
}

/// Whether so many of so many calls may have ended, and perhaps another be pending.
fn are_calls(count: usize, ended: usize, pending: bool) -> bool
    ensures { IsTrue result → ended + pending_count pending ≤ count }
{
    if pending {
        ended < count
    } else {
        ended <= count
    }
}

/// The same frames, in memory for no more than they hold.
fn saved_frames(alloc: Global, frames: &[Frame]) -> Result<Vec<Frame>, AllocError>
    ensures { IfOk result (λ v. map (λ k. k.frame) v.items ≡ map (λ k. k.frame) frames.now) }
{
    let mut saved = Vec::with_capacity(alloc, frames.len())?;
    for i in 0..frames.len() {
        let frame = &frames[i];
        let copy = frame.saved(alloc)?;
        saved.push(copy)?;
    }
    Ok(saved)
}

/// Whether a frame that isn't the innermost can't go on after its call.
fn is_stuck(number: usize, frame: &Frame) -> bool
    ensures { result ≡ false → (number ≡ 0) ⊎ (frame.now.frame.counter + 1 < 2 ^ 64) }
{
    number != 0 && frame.counter() == usize::MAX
}

/// Makes the frames from a place on the others, one by one, in the memory that they have. Answers false where one of
/// these has too little, or where one of the others that isn't the first can't go on after a call.
fn set_frames(frames: &mut [Frame], from: usize, others: &[Frame]) -> bool
    requires { from + length others.now ≡ length frames.old }
    ensures count { length frames.new ≡ length frames.old }
    ensures rooms { (locals operands : ℕ) → HaveRooms locals operands frames.old →
        HaveRooms locals operands frames.new }
    ensures same { IsTrue result → map (λ k. k.frame) (drop from frames.new) ≡ map (λ k. k.frame) others.now }
    ensures callers { IsTrue result → CallersGoOn from frames.new }
{
    for i in 0..others.len() {
        let other = &others[i];
        if is_stuck(i, other) {
            return false;
        }
        let frame = &mut frames[from + i];
        if !frame.set_as(other) {
            return false;
        }
    }
    true
}

impl Thread {
    /// The events that it can still have.
    pub fn events_left(&self) -> usize
        ensures { result ≡ events_left self.now.thread }
    {
        let left = self.calls.len() - self.ended;
        if self.pending { 2 * left - 1 } else { 2 * left }
    }

    /// This thread, in memory for no more than it has.
    pub fn saved(&self, alloc: Global) -> Result<SavedThread, AllocError>
        ensures { IfOk result (λ saved. saved ≡ self.now.thread) }
    {
        let frames = saved_frames(alloc, &self.frames[self.inner..])?;
        let calls = copied_calls(alloc, self.calls.as_slice())?;
        Ok(SavedThread {
            frames,
            mode: self.mode,
            calls,
            ended: self.ended,
            pending: self.pending,
        })
    }

    /// Whether this thread is as it was saved. True only where it is.
    pub fn is_saved(&self, saved: &SavedThread) -> bool
        ensures { IsTrue result → self.now.thread ≡ saved.now }
    {
        self.ended == saved.ended
            && self.pending == saved.pending
            && self.mode == saved.mode
            && answer_the_same(self.calls.as_slice(), saved.calls.as_slice())
            && are_same(&self.frames[self.inner..], saved.frames.as_slice())
    }

    /// Makes this thread as it was saved, in the memory that it has. True only where it is so then: that memory may be
    /// too little, and the calls may be others.
    pub fn set_as(&mut self, saved: &SavedThread) -> bool
        ensures same { IsTrue result → self.new ≡ keeping_thread self.old saved.now }
        ensures calls { self.new.thread.calls ≡ self.old.thread.calls }
        ensures locals { self.new.locals_room ≡ self.old.locals_room }
        ensures operands { self.new.operands_room ≡ self.old.operands_room }
    {
        let count = saved.frames.len();
        if count == 0 || count > MOST_CALLED + 1 {
            return false;
        }
        if !answer_the_same(self.calls.as_slice(), saved.calls.as_slice()) {
            return false;
        }
        if !are_calls(self.calls.len(), saved.ended, saved.pending) {
            return false;
        }
        let inner = MOST_CALLED + 1 - count;
        self.inner = MOST_CALLED;
        if !set_frames(&mut self.frames, inner, saved.frames.as_slice()) {
            return false;
        }
        self.inner = inner;
        self.mode = saved.mode;
        self.ended = saved.ended;
        self.pending = saved.pending;
        true
    }
}
