// The cells that all threads share.
ghost use Rattle.std.specs.Prelude.{◌≡◌, ℕ, ◌+◌, ◌-◌, ◌*◌, ◌^◌, ◌<◌, ◌≤◌, List, [], ◌∷◌, replicate, IfOk};
ghost use Rattle.std.specs.Prelude.{unsigned_abs, MatchOption, slice_set, slice_get, IsSome, IsTrue, None, false};
ghost use Rattle.std.specs.Prelude.{length, Some};
ghost use Rattle.ls_code.specs.Cells.{place_at, written_at, cell_at, read_effect, written, making, new_effect, on_item};
ghost use Rattle.ls_code.specs.Cells.{on_name, array_effect, unlock_effect, swap_effect, mark_effect, effect};
ghost use Rattle.ls_code.specs.Limits.{most_cells};
ghost use Rattle.ls_code.specs.Machine.{first_cells};
ghost use Rattle.ls_machine_moves.specs.Replies.{cells_after, reply_of};

use crate::flow::Reply;
use crate::hashing::hashed_all;
use crate::overwriting::overwrite;
use crate::words;
use ls_code::lock_word::{Left, Taken, is_own_word, lock_word, unlock_word};
use ls_events::action::{Action, Answer};
use ls_events::kind::Kind;
use std::alloc::{AllocError, Global};
use std::marker::Model;

/// The cells taken so far, in memory for all that there are.
#[derive(Drop)]
pub struct Cells {
    words: Vec<u64>,
    limit: usize,
    names: usize,
    sizes: Vec<usize>,
}

impl Model for Cells {
    ghost use Rattle.std.specs.Prelude.{ℕ, ◌-◌, ◌≤◌, length, vec_capacity, vec_len};
    ghost use Rattle.ls_code.specs.Cells.{Cells as CellsValue};
    ghost use Rattle.ls_code.specs.Limits.{most_cells};

    ghost Value = { CellsValue };

    ghost view = { λ c. record { words = c.words.items; limit = c.limit; names = c.names; sizes = c.sizes.items } };

    ghost invariant = { λ c. (vec_len c.words ≤ c.limit) × (c.limit ≤ vec_capacity c.words) × (c.limit ≤ most_cells) };
}

/// Cells as they stood, in memory for no more than were taken.
#[derive(Drop)]
pub struct SavedCells {
    words: Vec<u64>,
    limit: usize,
    names: usize,
    sizes: Vec<usize>,
}

impl Model for SavedCells {
    ghost use Rattle.ls_code.specs.Cells.{Cells as CellsValue};

    ghost Value = { CellsValue };

    ghost view = { λ c. record { words = c.words.items; limit = c.limit; names = c.names; sizes = c.sizes.items } };
}

impl Cells {
    /// Cells with memory for so many, the first taken for the setup names.
    pub fn new(
        alloc: Global,
        names: usize,
        limit: usize,
        sizes: Vec<usize>,
    ) -> Result<Cells, AllocError>
        requires names { names ≤ limit }
        requires few { limit ≤ most_cells }
        ensures { IfOk result (λ c. c ≡ first_cells names limit sizes.items) }
    {
        let mut words = Vec::with_capacity(alloc, limit)?;
        words.resize(names, 0)?;
        Ok(Cells {
            words,
            limit,
            names,
            sizes,
        })
    }

    /// Gives back all cells but those of the setup names, which hold 0 again. It takes no memory.
    pub fn set_back(&mut self)
        requires { self.old.names ≤ self.old.limit }
        ensures { self.new ≡ first_cells self.old.names self.old.limit self.old.sizes }
    {
        self.words.clear();
        let Ok(()) = self.words.resize(self.names, 0) else {
            unreachable!()
        };
    }

    /// The word at an offset from an address, where there is that cell.
    #[inline(always)]
    pub fn get(&self, address: u64, offset: usize) -> Option<u64>
        ensures { result ≡ cell_at self.now address offset }
    {
        if address == 0 {
            return None;
        }
        match (address as usize - 1).checked_add(offset) {
            None => None,
            Some(place) => self.words.get(place).copied(),
        }
    }

    #[inline]
    fn read(&self, address: u64, offset: usize) -> Reply
        ensures { result ≡ reply_of (read_effect self.now address offset) }
    {
        match self.get(address, offset) {
            None => Reply::Unfit,
            Some(word) => Reply::Answered(Answer::Gives(word)),
        }
    }

    /// Writes a word, where there is that cell.
    #[inline(always)]
    pub fn write(&mut self, address: u64, offset: usize, word: u64, answer: Answer<u64>) -> Reply
        ensures after { self.new ≡ cells_after self.old (written self.old address offset word answer) }
        ensures reply { result ≡ reply_of (written self.old address offset word answer) }
    {
        if address == 0 {
            return Reply::Unfit;
        }
        match (address as usize - 1).checked_add(offset) {
            None => Reply::Unfit,
            Some(place) => {
                if place < self.words.len() {
                    self.words[place] = word;
                    Reply::Answered(answer)
                } else {
                    Reply::Unfit
                }
            }
        }
    }

    fn read_name(&self, number: usize) -> Reply
        ensures { result ≡ reply_of (on_name self.now number (read_effect self.now 1 number)) }
    {
        if number < self.names {
            self.read(1, number)
        } else {
            Reply::Unfit
        }
    }

    fn write_name(&mut self, number: usize, word: u64) -> Reply
        ensures after { self.new ≡ cells_after self.old
            (on_name self.old number (written self.old 1 number word Answer.Done)) }
        ensures reply { result ≡ reply_of (on_name self.old number (written self.old 1 number word Answer.Done)) }
    {
        if number < self.names {
            self.write(1, number, word, Answer::Done)
        } else {
            Reply::Unfit
        }
    }

    fn make_one(&mut self, word: u64) -> Reply
        ensures after { self.new ≡ cells_after self.old (making self.old (word ∷ [])) }
        ensures reply { result ≡ reply_of (making self.old (word ∷ [])) }
    {
        let address = self.words.len() as u64 + 1;
        if self.words.len() >= self.limit {
            return Reply::Stops;
        }
        let Ok(()) = self.words.push(word) else {
            unreachable!()
        };
        Reply::Answered(Answer::Gives(address))
    }

    fn make_zeros(&mut self, size: usize) -> Reply
        ensures after { self.new ≡ cells_after self.old (making self.old (replicate size 0)) }
        ensures reply { result ≡ reply_of (making self.old (replicate size 0)) }
    {
        let count = self.words.len();
        if size > self.limit - count {
            return Reply::Stops;
        }
        let Ok(()) = self.words.resize(count + size, 0) else {
            unreachable!()
        };
        Reply::Answered(Answer::Gives(count as u64 + 1))
    }

    fn make_array(&mut self, count: u64) -> Reply
        ensures after { self.new ≡ cells_after self.old (array_effect self.old count) }
        ensures reply { result ≡ reply_of (array_effect self.old count) }
    {
        let taken = self.words.len();
        let room = self.limit - taken;
        if count >= room as u64 {
            return Reply::Stops;
        }
        let Ok(()) = self.words.push(count) else {
            unreachable!()
        };
        let Ok(()) = self.words.resize(taken + 1 + count as usize, 0) else {
            unreachable!()
        };
        Reply::Answered(Answer::Gives(taken as u64 + 1))
    }

    fn make_object(&mut self, class: usize) -> Reply
        ensures after { self.new ≡ cells_after self.old (new_effect self.old class) }
        ensures reply { result ≡ reply_of (new_effect self.old class) }
    {
        match self.sizes.get(class).copied() {
            None => Reply::Unfit,
            Some(size) => self.make_zeros(size),
        }
    }

    fn read_item(&self, array: u64, index: i32) -> Reply
        ensures { result ≡ reply_of (on_item self.now array index
            (read_effect self.now array (unsigned_abs index + 1))) }
    {
        match self.get(array, 0) {
            None => Reply::Unfit,
            Some(count) => {
                if words::in_range(index, count) {
                    self.read(array, index.unsigned_abs() as usize + 1)
                } else {
                    Reply::Answered(Answer::Fails(Kind::ArrayIndexOutOfBounds))
                }
            }
        }
    }

    fn write_item(&mut self, array: u64, index: i32, word: u64) -> Reply
        ensures after { self.new ≡ cells_after self.old
            (on_item self.old array index (written self.old array (unsigned_abs index + 1) word Answer.Done)) }
        ensures reply { result ≡ reply_of (on_item self.old array index (written self.old array (unsigned_abs index + 1)
            word Answer.Done)) }
    {
        match self.get(array, 0) {
            None => Reply::Unfit,
            Some(count) => {
                if words::in_range(index, count) {
                    self.write(array, index.unsigned_abs() as usize + 1, word, Answer::Done)
                } else {
                    Reply::Answered(Answer::Fails(Kind::ArrayIndexOutOfBounds))
                }
            }
        }
    }

    fn lock(&mut self, lock: u64, thread: usize) -> Reply
        requires { thread ≤ 64 }
        ensures after { self.new ≡ cells_after self.old (effect self.old thread (Action.Lock lock)) }
        ensures reply { result ≡ reply_of (effect self.old thread (Action.Lock lock)) }
    {
        match self.get(lock, 0) {
            None => Reply::Unfit,
            Some(word) => match lock_word(word, thread) {
                Taken::Taken(next) => self.write(lock, 0, next, Answer::Done),
                Taken::Other => Reply::Waits,
                Taken::TooMany => Reply::Answered(Answer::Fails(Kind::Error)),
            },
        }
    }

    fn try_lock(&mut self, lock: u64, thread: usize) -> Reply
        requires { thread ≤ 64 }
        ensures after { self.new ≡ cells_after self.old (effect self.old thread (Action.TryLock lock)) }
        ensures reply { result ≡ reply_of (effect self.old thread (Action.TryLock lock)) }
    {
        match self.get(lock, 0) {
            None => Reply::Unfit,
            Some(word) => match lock_word(word, thread) {
                Taken::Taken(next) => self.write(lock, 0, next, Answer::Gives(1)),
                Taken::Other => Reply::Answered(Answer::Gives(0)),
                Taken::TooMany => Reply::Answered(Answer::Fails(Kind::Error)),
            },
        }
    }

    fn unlock(&mut self, lock: u64, thread: usize) -> Reply
        requires { thread ≤ 64 }
        ensures after { self.new ≡ cells_after self.old (unlock_effect self.old lock thread) }
        ensures reply { result ≡ reply_of (unlock_effect self.old lock thread) }
    {
        match self.get(lock, 0) {
            None => Reply::Unfit,
            Some(word) => match unlock_word(word, thread) {
                Left::Left(next) => self.write(lock, 0, next, Answer::Done),
                Left::NotOwner => Reply::Answered(Answer::Fails(Kind::IllegalMonitorState)),
            },
        }
    }

    fn is_held(&self, lock: u64, thread: usize) -> Reply
        requires { thread ≤ 64 }
        ensures { result ≡ reply_of (effect self.now thread (Action.IsHeld lock)) }
    {
        match self.get(lock, 0) {
            None => Reply::Unfit,
            Some(word) => Reply::Answered(Answer::Gives(words::bool_word(is_own_word(
                word, thread,
            )))),
        }
    }

    /// Writes a word in the place of an expected one.
    #[inline]
    pub fn swap(&mut self, markable: u64, expected: u64, word: u64) -> Reply
        ensures after { self.new ≡ cells_after self.old (swap_effect self.old markable expected word) }
        ensures reply { result ≡ reply_of (swap_effect self.old markable expected word) }
    {
        match self.get(markable, 0) {
            None => Reply::Unfit,
            Some(old) => {
                if old == expected {
                    self.write(markable, 0, word, Answer::Gives(1))
                } else {
                    Reply::Answered(Answer::Gives(0))
                }
            }
        }
    }

    fn mark(&mut self, markable: u64, reference: u64, mark: bool) -> Reply
        ensures after { self.new ≡ cells_after self.old (mark_effect self.old markable reference mark) }
        ensures reply { result ≡ reply_of (mark_effect self.old markable reference mark) }
    {
        match self.get(markable, 0) {
            None => Reply::Unfit,
            Some(old) => {
                if old / 2 == reference {
                    self.write(
                        markable,
                        0,
                        words::pair(reference, words::bool_word(mark)),
                        Answer::Gives(1),
                    )
                } else {
                    Reply::Answered(Answer::Gives(0))
                }
            }
        }
    }

    /// Whether these cells are the others. True only where they are.
    pub fn is_same(&self, other: &Cells) -> bool
        requires names { self.now.names ≡ other.now.names }
        requires sizes { self.now.sizes ≡ other.now.sizes }
        ensures { IsTrue result → self.now ≡ other.now }
    {
        self.limit == other.limit && self.words.as_slice() == other.words.as_slice()
    }

    /// These cells, in memory for no more than are taken.
    pub fn saved(&self, alloc: Global) -> Result<SavedCells, AllocError>
        ensures { IfOk result (λ saved. saved ≡ self.now) }
    {
        let words = self.words.as_slice().to_vec(alloc)?;
        let sizes = self.sizes.as_slice().to_vec(alloc)?;
        Ok(SavedCells {
            words,
            limit: self.limit,
            names: self.names,
            sizes,
        })
    }

    /// Whether these cells are as they were saved. True only where they are.
    pub fn is_saved(&self, saved: &SavedCells) -> bool
        ensures { IsTrue result → self.now ≡ saved.now }
    {
        self.limit == saved.limit
            && self.names == saved.names
            && self.sizes.as_slice() == saved.sizes.as_slice()
            && self.words.as_slice() == saved.words.as_slice()
    }

    /// Makes these cells as they were saved, in the memory that they have. Answers false, and changes nothing, where
    /// those were other cells or that is too little.
    pub fn set_as(&mut self, saved: &SavedCells) -> bool
        ensures same { IsTrue result → self.new ≡ saved.now }
        ensures stays { result ≡ false → self.new ≡ self.old }
        ensures kept { (self.new.limit ≡ self.old.limit) × (self.new.names ≡ self.old.names) ×
            (self.new.sizes ≡ self.old.sizes) }
    {
        if self.limit != saved.limit || self.names != saved.names {
            return false;
        }
        if saved.words.len() > self.limit || self.sizes.as_slice() != saved.sizes.as_slice() {
            return false;
        }
        overwrite(&mut self.words, saved.words.as_slice());
        true
    }

    /// A number that cells which are the same have in common, made of another.
    pub fn hash(&self, seed: u64) -> u64 {
        hashed_all(seed, self.words.as_slice())
    }

    /// What a thread's action does to the cells, and their answer.
    #[inline]
    pub fn perform(&mut self, thread: usize, action: Action<u64>) -> Reply
        requires { thread ≤ 64 }
        ensures after { self.new ≡ cells_after self.old (effect self.old thread action) }
        ensures reply { result ≡ reply_of (effect self.old thread action) }
    {
        match action {
            Action::ReadField { object, field } => self.read(object, field),
            Action::WriteField {
                object,
                field,
                value,
            } => self.write(object, field, value, Answer::Done),
            Action::ReadItem { array, index } => self.read_item(array, index),
            Action::WriteItem {
                array,
                index,
                value,
            } => self.write_item(array, index, value),
            Action::ReadName(n) => self.read_name(n),
            Action::WriteName(n, value) => self.write_name(n, value),
            Action::New(class) => self.make_object(class),
            Action::NewLock => self.make_one(0),
            Action::NewMarkable(word) => self.make_one(word),
            Action::NewArray(count) => self.make_array(count.unsigned_abs() as u64),
            Action::Lock(lock) => self.lock(lock, thread),
            Action::Unlock(lock) => self.unlock(lock, thread),
            Action::TryLock(lock) => self.try_lock(lock, thread),
            Action::IsHeld(lock) => self.is_held(lock, thread),
            Action::LockMonitor(object) => self.lock(object, thread),
            Action::UnlockMonitor(object) => self.unlock(object, thread),
            Action::ReadPair(object) => self.read(object, 0),
            Action::SetPair(object, word) => self.write(object, 0, word, Answer::Done),
            Action::SwapPair {
                markable,
                expected,
                new,
            } => self.swap(markable, expected, new),
            Action::AttemptMark {
                markable,
                reference,
                mark,
            } => self.mark(markable, reference, mark),
            Action::Turn
            | Action::Enter(_)
            | Action::Call(_)
            | Action::Return(_, _)
            | Action::Trap(_, _) => Reply::Answered(Answer::Done),
        }
    }
}
