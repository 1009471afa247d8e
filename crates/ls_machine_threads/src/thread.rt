// A thread: its frames fill the end of their memory, and the innermost is the first of them.
ghost use Rattle.std.specs.Prelude.{◌≡◌, ℕ, ◌+◌, ◌-◌, ◌<◌, ◌≤◌, ◌^◌, ◌↔◌, List, [], ◌∷◌, ◌&&◌, ◌==◌, not, nat_le};
ghost use Rattle.std.specs.Prelude.{slice_get, length, map, drop, slice_index_or, slice_set, None, IfSome, IfOk};
ghost use Rattle.std.specs.Prelude.{IsTrue, Some, true, MatchOption, Bool, false};
ghost use Rattle.ls_code.specs.Thread.{with_top, with_frames};
ghost use Rattle.ls_code.specs.Moves.{frame_move, resumed};
ghost use Rattle.ls_code.specs.Frame.{top_one, top_two};
ghost use Rattle.ls_code.specs.Throws.{thrown, onto, caught, find_row as row_at};
ghost use Rattle.ls_code.specs.Calls.{left_frame, left_with, halted, call_begun, call_ended, call_trapped, with_callee};
ghost use Rattle.ls_code.specs.Calls.{enter_move, entered, calling};
ghost use Rattle.ls_events.specs.declared.kind.Kind.{Kind};
ghost use Rattle.ls_machine_moves.specs.Frames.{keeping, no_frame};
ghost use Rattle.ls_machine_threads.specs.Memory.{keeping_thread, HaveRooms, started_kept, back_at};
ghost use Rattle.ls_machine_moves.specs.Flows.{IsFlow, IsReady, CanResume, LeavesOthers, is_silent};
ghost use Rattle.ls_machine_moves.specs.Gliding.{glided};
ghost use Rattle.ls_machine_threads.specs.Threads.{IsQuickThread, thread_after, call_flow};

use crate::flow::Entered;
use ls_code::code::{CallResult, HandlerRow, Method, Start};
use ls_code::instruction::{Instruction, Resume};
use ls_code::step::Mode;
use ls_events::kind::Kind;
use ls_machine_moves::flow::{Flow, Quick};
use ls_machine_moves::frame::Frame;
use ls_machine_moves::hashing::hashed;
use ls_machine_moves::{acting, silent};
use std::alloc::{AllocError, Global};
use std::marker::Model;

pub mod saving;

/// The most frames of a thread above its lowest.
const MOST_CALLED: usize = 64;

/// A thread with memory for all frames that it can have.
#[derive(Drop)]
pub struct Thread {
    frames: Vec<Frame>,
    inner: usize,
    mode: Mode,
    calls: Vec<CallResult>,
    ended: usize,
    pending: bool,
    locals_room: usize,
    operands_room: usize,
}

impl Model for Thread {
    ghost use Rattle.std.specs.Prelude.{◌≡◌, ℕ, ◌+◌, ◌<◌, length, drop, map, slice_index_or};
    ghost use Rattle.std.specs.List.{All};
    ghost use Rattle.ls_machine_moves.specs.Frames.{no_frame};
    ghost use Rattle.ls_machine_threads.specs.Memory.{KeptThread, IsThread, AreCalls};

    ghost Value = { KeptThread };

    ghost view = { λ t. record {
      thread = record {
        top = (slice_index_or t.frames.items t.inner no_frame).frame;
        below = map (λ k. k.frame) (drop (t.inner + 1) t.frames.items);
        mode = t.mode;
        calls = t.calls.items;
        ended = t.ended;
        pending = t.pending;
      };
      locals_room = t.locals_room;
      operands_room = t.operands_room;
    } };

    ghost invariant = { λ t. IsThread t.frames.items t.inner t.locals_room t.operands_room × AreCalls t.calls.items
        t.ended t.pending };
}

impl Thread {
    /// A thread at its start, with memory for 64 frames above its lowest.
    pub fn new(
        alloc: Global,
        start: &Start,
        locals_room: usize,
        operands_room: usize,
    ) -> Result<Thread, AllocError>
        requires { start.now.need ≤ operands_room }
        ensures { IfOk result (λ t. t ≡ started_kept locals_room operands_room start.now) }
    {
        let calls = start.copied_calls(alloc)?;
        let mut frames = empty_frames(alloc, MOST_CALLED, locals_room, operands_room)?;
        frames.push(Frame::new(
            alloc,
            start.place(),
            start.need(),
            locals_room,
            operands_room,
        )?)?;
        Ok(Thread {
            frames,
            inner: MOST_CALLED,
            mode: Mode::Running,
            calls,
            ended: 0,
            pending: false,
            locals_room,
            operands_room,
        })
    }

    /// Sets the thread back to a start, with its own calls. It takes no memory.
    pub fn set_back(&mut self, start: &Start)
        requires { start.now.need ≤ self.old.operands_room }
        ensures { self.new ≡ back_at start.now self.old }
    {
        let frame = &mut self.frames[MOST_CALLED];
        frame.set_back(start.place(), start.need());
        self.inner = MOST_CALLED;
        self.mode = Mode::Running;
        self.ended = 0;
        self.pending = false;
    }

    #[inline(always)]
    pub fn mode(&self) -> Mode
        ensures { result ≡ self.now.thread.mode }
    {
        self.mode
    }

    #[inline(always)]
    pub fn counter(&self) -> usize
        ensures { result ≡ self.now.thread.top.counter }
    {
        let frame = &self.frames[self.inner];
        frame.counter()
    }

    /// What an instruction that isn't silent asks for.
    #[inline(always)]
    pub fn advance(&self, instruction: Instruction) -> Flow
        requires { is_silent instruction ≡ false }
        ensures flow { IsFlow result (frame_move instruction self.now.thread.top) }
        ensures ready { IsReady result self.now.thread.top }
    {
        let frame = &self.frames[self.inner];
        acting::advance(frame, instruction)
    }

    /// Does a silent instruction.
    #[inline(always)]
    pub fn quick(&mut self, instruction: Instruction) -> Quick
        requires { self.old.thread.top.counter + 1 < 2 ^ 64 }
        ensures quick { IsQuickThread result (frame_move instruction self.old.thread.top) self.old self.new }
        ensures others { LeavesOthers instruction result }
    {
        let frame = &mut self.frames[self.inner];
        silent::quick(frame, instruction)
    }

    /// Does silent instructions of the innermost frame, so many at most, up to the first that isn't silent, throws or
    /// is stuck. Answers how many.
    #[inline(always)]
    pub fn glide(&mut self, instructions: &[Instruction], most: usize) -> usize
        ensures few { result ≤ most }
        ensures glided { glided instructions.now result self.old.thread.top ≡ Some self.new.thread.top }
        ensures others { self.new ≡ keeping_thread self.old (with_top self.old.thread self.new.thread.top) }
    {
        let frame = &mut self.frames[self.inner];
        silent::glide(frame, instructions, most)
    }

    /// The innermost frame goes on with an answer.
    #[inline(always)]
    pub fn resume(&mut self, how: Resume, word: u64)
        requires place { self.old.thread.top.counter + 1 < 2 ^ 64 }
        requires ready { CanResume how self.old.thread.top }
        ensures { self.new ≡ keeping_thread self.old (with_top self.old.thread (resumed how self.old.thread.top word)) }
    {
        let frame = &mut self.frames[self.inner];
        acting::resume(frame, how, word);
    }

    /// Throws: drops frames up to the first that catches it, or changes nothing where none does.
    pub fn throw(&mut self, rows: &[HandlerRow], kind: Kind) -> bool
        ensures thrown { MatchOption (thrown rows.now kind (self.old.thread.top ∷ self.old.thread.below))
            (result ≡ false) (λ r. IsTrue result × (self.new ≡ keeping_thread self.old
            (with_frames self.old.thread r.0 r.1))) }
        ensures stays { result ≡ false → self.new ≡ self.old }
    {
        match find_catcher(&self.frames, self.inner, rows) {
            None => false,
            Some((at, row)) => {
                let frame = &mut self.frames[at];
                if frame.catch(&row, kind) {
                    self.inner = at;
                    true
                } else {
                    false
                }
            }
        }
    }

    /// Leaves the innermost frame, where it isn't the lowest.
    #[inline(always)]
    pub fn leave(&mut self) -> bool
        ensures left { MatchOption (left_frame self.old.thread self.old.thread.below) (result ≡ false)
            (λ t. IsTrue result × (self.new ≡ keeping_thread self.old t)) }
        ensures stays { result ≡ false → self.new ≡ self.old }
    {
        if self.inner == MOST_CALLED {
            return false;
        }
        self.inner += 1;
        let frame = &mut self.frames[self.inner];
        frame.discard(0);
        true
    }

    /// Leaves the innermost frame with a value, where it isn't the lowest and the value has room.
    #[inline(always)]
    pub fn leave_with(&mut self, word: u64) -> bool
        ensures left { MatchOption (left_with self.old.thread self.old.thread.below word) (result ≡ false)
            (λ t. IsTrue result × (self.new ≡ keeping_thread self.old t)) }
        ensures stays { result ≡ false → self.new ≡ self.old }
    {
        if self.inner == MOST_CALLED {
            return false;
        }
        let frame = &mut self.frames[self.inner + 1];
        if !frame.has_room() {
            return false;
        }
        frame.push(word);
        self.inner += 1;
        true
    }

    /// The top operands of the innermost frame.
    #[inline(always)]
    pub fn one(&self) -> Option<u64>
        ensures { result ≡ top_one self.now.thread.top.operands }
    {
        let frame = &self.frames[self.inner];
        frame.one()
    }

    /// The two topmost operands of the innermost frame, the top last.
    #[inline(always)]
    pub fn two(&self) -> Option<(u64, u64)>
        ensures { result ≡ top_two self.now.thread.top.operands }
    {
        let frame = &self.frames[self.inner];
        frame.two()
    }

    /// Whether the innermost frame has room for an operand.
    pub fn has_room(&self) -> bool
        ensures { IsTrue result ↔ (length self.now.thread.top.operands < self.now.thread.top.need) }
    {
        let frame = &self.frames[self.inner];
        frame.has_room()
    }

    pub fn halt(&mut self)
        ensures { self.new ≡ keeping_thread self.old (halted self.old.thread) }
    {
        self.mode = Mode::Ended;
    }

    pub fn begin_call(&mut self)
        requires place { self.old.thread.top.counter + 1 < 2 ^ 64 }
        requires some { self.old.thread.ended < length self.old.thread.calls }
        ensures { self.new ≡ keeping_thread self.old (call_begun self.old.thread) }
    {
        let frame = &mut self.frames[self.inner];
        frame.discard(0);
        self.pending = true;
    }

    /// Enters a method, where `this` isn't null and the depth allows it.
    pub fn enter(&mut self, method: &Method) -> Entered
        requires place { self.old.thread.top.counter + 1 < 2 ^ 64 }
        requires locals { method.now.arguments + method.now.more ≤ self.old.locals_room }
        requires need { method.now.need ≤ self.old.operands_room }
        ensures after { self.new ≡ keeping_thread self.old
            (thread_after self.old.thread (enter_move method.now self.old.thread)) }
        ensures flow { result ≡ call_flow (enter_move method.now self.old.thread) }
    {
        let frame = &self.frames[self.inner];
        match frame.operand(method.arguments.saturating_sub(1)) {
            None => Entered::Stuck,
            Some(this) => {
                if this == 0 {
                    Entered::Throws(Kind::NullPointer)
                } else if self.inner == 0 {
                    Entered::Throws(Kind::StackOverflow)
                } else {
                    enter_above(&mut self.frames, self.inner, method);
                    self.inner -= 1;
                    Entered::Entered
                }
            }
        }
    }

    /// Whether this call may begin: it is the next, and none is pending.
    pub fn is_due(&self, call: usize) -> bool
        ensures { result ≡ (not self.now.thread.pending && (call == self.now.thread.ended + 1) && nat_le call
            (length self.now.thread.calls)) }
    {
        !self.pending && call == self.ended + 1 && call <= self.calls.len()
    }

    /// Whether this call is pending.
    pub fn is_pending(&self, call: usize) -> bool
        ensures { result ≡ (self.now.thread.pending && (call == self.now.thread.ended + 1)) }
    {
        self.pending && call == self.ended + 1
    }

    /// Whether a call is pending.
    pub fn has_pending(&self) -> bool
        ensures { result ≡ self.now.thread.pending }
    {
        self.pending
    }

    /// The number of the next call, or of the pending one.
    pub fn call(&self) -> usize
        ensures { result ≡ self.now.thread.ended + 1 }
    {
        self.ended + 1
    }

    /// What the next call, or the pending one, answers.
    pub fn result(&self) -> Option<CallResult>
        ensures { result ≡ slice_get self.now.thread.calls self.now.thread.ended }
    {
        self.calls.get(self.ended).copied()
    }

    /// The pending call ends, and takes some operands with it.
    pub fn end_call(&mut self, popped: usize)
        requires place { self.old.thread.top.counter + 1 < 2 ^ 64 }
        requires there { popped ≤ length self.old.thread.top.operands }
        requires pending { self.old.thread.pending ≡ true }
        ensures { self.new ≡ keeping_thread self.old (call_ended popped self.old.thread) }
    {
        let frame = &mut self.frames[self.inner];
        frame.discard(popped);
        self.ended += 1;
        self.pending = false;
    }

    /// Whether this thread is the other, up to the memory of both. True only where it is.
    pub fn is_same(&self, other: &Thread) -> bool
        requires { self.now.thread.calls ≡ other.now.thread.calls }
        ensures { IsTrue result → self.now.thread ≡ other.now.thread }
    {
        self.ended == other.ended
            && self.pending == other.pending
            && self.mode == other.mode
            && are_same(&self.frames[self.inner..], &other.frames[other.inner..])
    }

    /// A number that threads which are the same have in common, made of another.
    pub fn hash(&self, seed: u64) -> u64 {
        let mut hash = hashed(seed, self.ended as u64);
        for frame in &self.frames[self.inner..] {
            hash = frame.hash(hash);
        }
        hash
    }

    /// The pending call traps.
    pub fn trap(&mut self)
        requires { self.old.thread.pending ≡ true }
        ensures trapped { self.new ≡ keeping_thread self.old (call_trapped self.old.thread) }
        ensures counted { self.old.thread.ended < length self.old.thread.calls }
    {
        self.mode = Mode::Trapped;
        self.ended += 1;
        self.pending = false;
    }
}

/// Whether frames are the same, one by one, up to their memory. True only where they are.
fn are_same(frames: &[Frame], others: &[Frame]) -> bool
    ensures { IsTrue result → map (λ k. k.frame) frames.now ≡ map (λ k. k.frame) others.now }
{
    if frames.len() != others.len() {
        return false;
    }
    for i in 0..frames.len() {
        let frame = &frames[i];
        if !frame.is_same(&others[i]) {
            return false;
        }
    }
    true
}

/// Makes the frame above this one that of a method.
fn enter_above(frames: &mut [Frame], inner: usize, method: &Method)
    requires above { 0 < inner }
    requires there { inner < length frames.old }
    requires arguments { method.now.arguments ≤ length (slice_index_or frames.old inner no_frame).frame.operands }
    requires locals { method.now.arguments + method.now.more ≤ (slice_index_or frames.old (inner - 1)
        no_frame).locals_room }
    requires need { method.now.need ≤ (slice_index_or frames.old (inner - 1) no_frame).operands_room }
    ensures { let caller = slice_index_or frames.old inner no_frame in let callee = slice_index_or frames.old
        (inner - 1) no_frame in frames.new ≡ slice_set
        (slice_set frames.old (inner - 1) (keeping callee (entered method.now caller.frame))) inner
        (keeping caller (calling method.now caller.frame)) }
{
    let (above, here) = frames.split_at_mut(inner);
    let callee = &mut above[inner - 1];
    let caller = &mut here[0];
    callee.enter(caller, method);
}

/// The first frame from this one on that has a row for where it stands, and that row.
fn find_catcher(frames: &[Frame], from: usize, rows: &[HandlerRow]) -> Option<(usize, HandlerRow)>
    requires { from ≤ length frames.now }
    ensures none { MatchOption result ((kind : Kind) → thrown rows.now kind (map (λ k. k.frame) (drop from frames.now))
        ≡ None) (λ r. from ≤ r.0) }
    ensures within { IfSome result (λ r. (from ≤ r.0) × (r.0 < length frames.now)) }
    ensures some { IfSome result (λ r. (kind : Kind) → thrown rows.now kind (map (λ k. k.frame) (drop from frames.now))
        ≡ onto (caught r.1 kind (slice_index_or frames.now r.0 no_frame).frame)
        (map (λ k. k.frame) (drop (r.0 + 1) frames.now))) }
{
    for at in from..frames.len() {
        let frame = &frames[at];
        if let Some(row) = find_row(rows, frame.counter()) {
            return Some((at, row));
        }
    }
    None
}

/// The first row, the innermost, that holds a place.
fn find_row(rows: &[HandlerRow], place: usize) -> Option<HandlerRow>
    ensures { result ≡ row_at rows.now place }
{
    for row in rows {
        if row.from <= place && place < row.to {
            return Some(*row);
        }
    }
    None
}

/// Empty frames with memory for so many locals and operands.
fn empty_frames(
    alloc: Global,
    count: usize,
    locals_room: usize,
    operands_room: usize,
) -> Result<Vec<Frame>, AllocError>
    ensures count { IfOk result (λ v. length v.items ≡ count) }
    ensures rooms { IfOk result (λ v. HaveRooms locals_room operands_room v.items) }
{
    let mut frames = Vec::new(alloc);
    for _ in 0..count {
        frames.push(Frame::new(alloc, 0, 0, locals_room, operands_room)?)?;
    }
    Ok(frames)
}
