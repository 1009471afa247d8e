// What a lock's word becomes.

ghost use Rattle.std.specs.Prelude.{◌≡◌, ◌≤◌};
ghost use Rattle.ls_code.specs.Locks.{LockState, IsLock, lock_word_of, lock_by, unlock_by, taken_in_words};
ghost use Rattle.ls_code.specs.Locks.{left_in_words, taken_of, left_of, is_own};

use std::alloc::AllocError;

/// What `lock()` gives: the next word, or that another thread owns the lock, or that the lock is held too often.
#[derive(Copy)]
pub enum Taken {
    Taken(u64),
    Other,
    TooMany,
}

impl Clone for Taken {
    fn clone(&self) -> Result<Taken, AllocError> {
        Ok(*self)
    }
}

/// What `unlock()` gives: the next word, or that the thread doesn't own the lock.
#[derive(Copy)]
pub enum Left {
    Left(u64),
    NotOwner,
}

impl Clone for Left {
    fn clone(&self) -> Result<Left, AllocError> {
        Ok(*self)
    }
}

/// In a lock's word, one more than the owner's number is multiplied by this.
const OWNER: u64 = 0x1_0000_0000;

/// The most holds of one lock.
const MOST_HOLDS: u64 = 2_147_483_647;

/// `lock()` by a thread on a lock's word.
pub fn lock_word(word: u64, thread: usize) -> Taken
    requires { thread ≤ 64 }
    ensures on_locks { (state : LockState) → IsLock state → word ≡ lock_word_of state → result ≡
        taken_in_words (lock_by thread state) }
    ensures on_words { result ≡ taken_of word thread }
{
    if word == 0 {
        return Taken::Taken((thread as u64 + 1) * OWNER + 1);
    }
    if word / OWNER != thread as u64 + 1 {
        return Taken::Other;
    }
    if word % OWNER >= MOST_HOLDS {
        return Taken::TooMany;
    }
    Taken::Taken(word + 1)
}

/// `unlock()` by a thread on a lock's word.
pub fn unlock_word(word: u64, thread: usize) -> Left
    requires { thread ≤ 64 }
    ensures on_locks { (state : LockState) → IsLock state → word ≡ lock_word_of state → result ≡
        left_in_words (unlock_by thread state) }
    ensures on_words { result ≡ left_of word thread }
{
    if !is_own_word(word, thread) {
        return Left::NotOwner;
    }
    if word % OWNER <= 1 {
        return Left::Left(0);
    }
    Left::Left(word - 1)
}

/// Whether this thread owns the lock that has the word.
pub fn is_own_word(word: u64, thread: usize) -> bool
    requires { thread ≤ 64 }
    ensures { result ≡ is_own word thread }
{
    word / OWNER == thread as u64 + 1
}
