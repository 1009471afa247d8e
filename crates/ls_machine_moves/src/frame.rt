// One frame of a thread.
ghost use Rattle.std.specs.Prelude.{◌≡◌, ℕ, ◌+◌, ◌-◌, ◌<◌, ◌≤◌, ◌^◌, ◌↔◌, List, [], ◌∷◌, ◌++◌, reverse, replicate};
ghost use Rattle.std.specs.Prelude.{length, take, drop, slice_get, slice_set, slice_index, vec_capacity, IsTrue};
ghost use Rattle.std.specs.Prelude.{IsSome, MatchOption, IfSome, IfOk, Bool, false};
ghost use Rattle.ls_machine_moves.specs.Frames.{empty_kept, keeping};
ghost use Rattle.ls_code.specs.Frame.{onward, led_to, top_one, top_two, top_three};
ghost use Rattle.ls_code.specs.Moves.{stored};
ghost use Rattle.ls_code.specs.Throws.{caught};
ghost use Rattle.ls_code.specs.Calls.{entered, calling};

use crate::hashing::{hashed, hashed_all};
use crate::overwriting::overwrite;
use crate::words;
use ls_code::code::{HandlerRow, Method};
use ls_events::kind::Kind;
use std::alloc::{AllocError, Global};
use std::marker::Model;

/// A frame. Its operands fill the end of their words, and the top is the first of them. It has memory for any method
/// from the start, but words in it only for those that have been entered here: memory that no word is written to costs
/// next to nothing.
#[derive(Drop)]
pub struct Frame {
    counter: usize,
    count: usize,
    top: usize,
    floor: usize,
    locals: Vec<u64>,
    operands: Vec<u64>,
    locals_room: usize,
    operands_room: usize,
}

impl Model for Frame {
    ghost use Rattle.std.specs.Prelude.{ℕ, ◌-◌, ◌≤◌, length, take, drop, vec_capacity};
    ghost use Rattle.ls_machine_moves.specs.Frames.{Kept};

    ghost Value = { Kept };

    ghost view = { λ f. record {
      frame = record {
        counter = f.counter;
        locals = take f.count f.locals.items;
        operands = drop f.top f.operands.items;
        need = length f.operands.items - f.floor;
      };
      locals_room = f.locals_room;
      operands_room = f.operands_room;
    } };

    ghost invariant = { λ f. (f.count ≤ length f.locals.items) × (f.top ≤ length f.operands.items) ×
        (f.floor ≤ length f.operands.items) × (f.locals_room ≤ vec_capacity f.locals) ×
        (f.operands_room ≤ vec_capacity f.operands) };
}

impl Frame {
    /// An empty frame with memory for so many locals and operands.
    pub fn new(
        alloc: Global,
        place: usize,
        need: usize,
        locals: usize,
        operands: usize,
    ) -> Result<Frame, AllocError>
        requires { need ≤ operands }
        ensures { IfOk result (λ f. f ≡ empty_kept place need locals operands) }
    {
        let mut words = Vec::with_capacity(alloc, operands)?;
        lengthen(&mut words, need);
        Ok(Frame {
            counter: place,
            count: 0,
            top: words.len(),
            floor: words.len() - need,
            locals: Vec::with_capacity(alloc, locals)?,
            operands: words,
            locals_room: locals,
            operands_room: operands,
        })
    }

    /// Makes this an empty frame again, with the memory that it has.
    pub fn set_back(&mut self, place: usize, need: usize)
        requires { need ≤ self.old.operands_room }
        ensures { self.new ≡ empty_kept place need self.old.locals_room self.old.operands_room }
    {
        lengthen(&mut self.operands, need);
        self.counter = place;
        self.count = 0;
        self.top = self.operands.len();
        self.floor = self.top - need;
    }

    #[inline(always)]
    pub fn counter(&self) -> usize
        ensures { result ≡ self.now.frame.counter }
    {
        self.counter
    }

    /// Whether one more operand may be pushed.
    #[inline(always)]
    pub fn has_room(&self) -> bool
        ensures { IsTrue result ↔ (length self.now.frame.operands < self.now.frame.need) }
    {
        self.floor < self.top
    }

    /// The top operand.
    #[inline(always)]
    pub fn one(&self) -> Option<u64>
        ensures { result ≡ top_one self.now.frame.operands }
    {
        if self.top < self.operands.len() {
            Some(self.operands[self.top])
        } else {
            None
        }
    }

    /// The two topmost operands, the top last.
    #[inline(always)]
    pub fn two(&self) -> Option<(u64, u64)>
        ensures { result ≡ top_two self.now.frame.operands }
    {
        let count = self.operands.len() - self.top;
        if count >= 2 {
            Some((self.operands[self.top + 1], self.operands[self.top]))
        } else {
            None
        }
    }

    /// The three topmost operands, the top last.
    #[inline(always)]
    pub fn three(&self) -> Option<(u64, u64, u64)>
        ensures { result ≡ top_three self.now.frame.operands }
    {
        let count = self.operands.len() - self.top;
        if count >= 3 {
            Some((
                self.operands[self.top + 2],
                self.operands[self.top + 1],
                self.operands[self.top],
            ))
        } else {
            None
        }
    }

    /// Pushes a word and goes on.
    #[inline(always)]
    pub fn push(&mut self, word: u64)
        requires room { length self.old.frame.operands < self.old.frame.need }
        requires place { self.old.frame.counter + 1 < 2 ^ 64 }
        ensures { self.new ≡ keeping self.old (onward self.old.frame (word ∷ self.old.frame.operands)) }
    {
        self.top -= 1;
        self.operands[self.top] = word;
        self.counter += 1;
    }

    /// Puts a word in place of some operands and goes on.
    #[inline(always)]
    pub fn settle(&mut self, popped: usize, word: u64)
        requires some { 0 < popped }
        requires there { popped ≤ length self.old.frame.operands }
        requires place { self.old.frame.counter + 1 < 2 ^ 64 }
        ensures { self.new ≡ keeping self.old (onward self.old.frame (word ∷ drop popped self.old.frame.operands)) }
    {
        self.top += popped - 1;
        self.operands[self.top] = word;
        self.counter += 1;
    }

    /// Pops some operands and goes on.
    #[inline(always)]
    pub fn discard(&mut self, popped: usize)
        requires there { popped ≤ length self.old.frame.operands }
        requires place { self.old.frame.counter + 1 < 2 ^ 64 }
        ensures { self.new ≡ keeping self.old (onward self.old.frame (drop popped self.old.frame.operands)) }
    {
        self.top += popped;
        self.counter += 1;
    }

    /// Pops some operands and goes to another place.
    #[inline(always)]
    pub fn lead(&mut self, popped: usize, place: usize)
        requires there { popped ≤ length self.old.frame.operands }
        ensures { self.new ≡ keeping self.old (led_to self.old.frame place (drop popped self.old.frame.operands)) }
    {
        self.top += popped;
        self.counter = place;
    }

    /// A local.
    #[inline(always)]
    pub fn local(&self, number: usize) -> Option<u64>
        ensures { result ≡ slice_get self.now.frame.locals number }
    {
        if number < self.count {
            Some(self.locals[number])
        } else {
            None
        }
    }

    /// Writes a local.
    #[inline(always)]
    fn set_local(&mut self, number: usize, word: u64)
        requires { number < length self.old.frame.locals }
        ensures { self.new ≡ keeping self.old (record self.old.frame {
          locals = slice_set self.old.frame.locals
              number word;
        }) }
    {
        self.locals[number] = word;
    }

    /// Pops the top into a local and goes on, where there is that local.
    #[inline(always)]
    pub fn store(&mut self, number: usize, word: u64) -> bool
        requires there { 1 ≤ length self.old.frame.operands }
        requires place { self.old.frame.counter + 1 < 2 ^ 64 }
        ensures there { IsTrue result ↔ (number < length self.old.frame.locals) }
        ensures yes { IsTrue result → self.new ≡ keeping self.old (stored self.old.frame number word) }
        ensures no { result ≡ false → self.new ≡ self.old }
    {
        if number < self.count {
            self.set_local(number, word);
            self.discard(1);
            true
        } else {
            false
        }
    }

    /// Catches a throw at a row: the operands are cut, and the kind is pushed where it has room.
    pub fn catch(&mut self, row: &HandlerRow, kind: Kind) -> bool
        ensures caught { MatchOption (caught row.now kind self.old.frame) (result ≡ false) (λ f. IsTrue result ×
            (self.new ≡ keeping self.old f)) }
        ensures stays { result ≡ false → self.new ≡ self.old }
    {
        let end = self.operands.len();
        let top = if end - self.top > row.depth {
            end - row.depth
        } else {
            self.top
        };
        if self.floor >= top {
            return false;
        }
        self.top = top - 1;
        self.operands[self.top] = words::kind_word(kind);
        self.counter = row.handler;
        true
    }

    /// The operand at a depth, the top at 0.
    pub fn operand(&self, depth: usize) -> Option<u64>
        ensures { result ≡ slice_get self.now.frame.operands depth }
    {
        let count = self.operands.len() - self.top;
        if depth < count {
            Some(self.operands[self.top + depth])
        } else {
            None
        }
    }

    /// Makes this the frame of a method, with the arguments that the caller has pushed.
    pub fn enter(&mut self, caller: &mut Frame, method: &Method)
        requires there { method.now.arguments ≤ length caller.old.frame.operands }
        requires locals { method.now.arguments + method.now.more ≤ self.old.locals_room }
        requires need { method.now.need ≤ self.old.operands_room }
        ensures callee { self.new ≡ keeping self.old (entered method.now caller.old.frame) }
        ensures caller { caller.new ≡ keeping caller.old (calling method.now caller.old.frame) }
    {
        lengthen(&mut self.locals, method.arguments + method.more);
        lengthen(&mut self.operands, method.need);
        copy_reversed(
            &mut self.locals,
            &caller.operands[caller.top..],
            method.arguments,
        );
        clear(&mut self.locals, method.arguments, method.more);
        caller.top += method.arguments;
        self.counter = method.start;
        self.count = method.arguments + method.more;
        self.top = self.operands.len();
        self.floor = self.top - method.need;
    }

    /// How many operands it may have.
    fn need(&self) -> usize
        ensures { result ≡ self.now.frame.need }
    {
        self.operands.len() - self.floor
    }

    /// The locals.
    fn locals(&self) -> &[u64]
        ensures { result.now ≡ self.now.frame.locals }
    {
        &self.locals[..self.count]
    }

    /// The operands, the top first.
    fn operands(&self) -> &[u64]
        ensures { result.now ≡ self.now.frame.operands }
    {
        &self.operands[self.top..]
    }

    /// Whether this frame is the other, up to the memory of both. True only where it is.
    pub fn is_same(&self, other: &Frame) -> bool
        ensures { IsTrue result → self.now.frame ≡ other.now.frame }
    {
        self.counter() == other.counter()
            && self.need() == other.need()
            && are_same(self.locals(), other.locals())
            && are_same(self.operands(), other.operands())
    }

    /// The same frame, in memory for no more than it holds.
    pub fn saved(&self, alloc: Global) -> Result<Frame, AllocError>
        ensures { IfOk result (λ f. f.frame ≡ self.now.frame) }
    {
        let first = self.floor.min(self.top);
        let locals = self.locals().to_vec(alloc)?;
        let operands = self.operands[first..].to_vec(alloc)?;
        Ok(Frame {
            counter: self.counter,
            count: self.count,
            top: self.top - first,
            floor: self.floor - first,
            locals,
            operands,
            locals_room: 0,
            operands_room: 0,
        })
    }

    /// Makes this the other frame, in the memory that it has. Answers false, and changes nothing, where that is too
    /// little.
    pub fn set_as(&mut self, other: &Frame) -> bool
        ensures same { IsTrue result → self.new ≡ keeping self.old other.now.frame }
        ensures stays { result ≡ false → self.new ≡ self.old }
    {
        let first = other.floor.min(other.top);
        let operands = &other.operands[first..];
        if other.count > self.locals_room || operands.len() > self.operands_room {
            return false;
        }
        overwrite(&mut self.locals, other.locals());
        overwrite(&mut self.operands, operands);
        self.counter = other.counter;
        self.count = other.count;
        self.top = other.top - first;
        self.floor = other.floor - first;
        true
    }

    /// A number that frames which are the same have in common, made of another.
    pub fn hash(&self, seed: u64) -> u64 {
        let start = hashed(seed, self.counter as u64);
        let locals = hashed_all(start, self.locals());
        hashed_all(locals, self.operands())
    }
}

/// Whether words are the same, one by one. True only where they are.
fn are_same(words: &[u64], others: &[u64]) -> bool
    ensures { IsTrue result → words.now ≡ others.now }
{
    words == others
}

/// Makes words so many at least, in memory that is there.
#[inline]
fn lengthen(words: &mut Vec<u64>, count: usize)
    requires { count ≤ vec_capacity words.old }
    ensures long { count ≤ length words.new.items }
    ensures capacity { vec_capacity words.old ≤ vec_capacity words.new }
{
    if words.len() < count {
        let Ok(()) = words.resize(count, 0) else {
            unreachable!()
        };
    }
}

/// Copies the first operands to the front of the locals, the last first.
fn copy_reversed(locals: &mut [u64], operands: &[u64], count: usize)
    requires there { count ≤ length operands.now }
    requires room { count ≤ length locals.old }
    ensures { take count locals.new ≡ reverse (take count operands.now) }
{
    for i in 0..count {
        locals[i] = operands[count - 1 - i];
    }
}

/// Clears some locals.
fn clear(locals: &mut [u64], from: usize, count: usize)
    requires { from + count ≤ length locals.old }
    ensures { take (from + count) locals.new ≡ take from locals.old ++ replicate count 0 }
{
    for i in 0..count {
        locals[from + i] = 0;
    }
}
