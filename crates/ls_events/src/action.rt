// What a thread asks of the store, and what it is answered. `V` is the payload: a `Value` in the source, a word in the
// machine.

use crate::kind::Kind;
use std::alloc::AllocError;

/// One atomic action of a thread. An object is named by its number, and by its address in the machine. Fields, classes,
/// methods and setup names are numbered in text order from 0, a thread's calls from 1.
#[derive(Copy)]
pub enum Action<V> {
    ReadField {
        object: u64,
        field: usize,
    },
    WriteField {
        object: u64,
        field: usize,
        value: V,
    },
    ReadItem {
        array: u64,
        index: i32,
    },
    WriteItem {
        array: u64,
        index: i32,
        value: V,
    },
    ReadName(usize),
    WriteName(usize, V),
    New(usize),
    NewLock,
    NewMarkable(V),
    NewArray(i32),
    Lock(u64),
    Unlock(u64),
    TryLock(u64),
    IsHeld(u64),
    LockMonitor(u64),
    UnlockMonitor(u64),
    ReadPair(u64),
    SetPair(u64, V),
    SwapPair {
        markable: u64,
        expected: V,
        new: V,
    },
    AttemptMark {
        markable: u64,
        reference: u64,
        mark: bool,
    },
    Turn,
    Enter(usize),
    Call(usize),
    Return(usize, Option<V>),
    Trap(usize, Kind),
}

impl<V: Copy> Clone for Action<V> {
    fn clone(&self) -> Result<Action<V>, AllocError> {
        Ok(*self)
    }
}

/// What an action is answered.
#[derive(Copy)]
pub enum Answer<V> {
    Done,
    Gives(V),
    Fails(Kind),
}

impl<V: Copy> Clone for Answer<V> {
    fn clone(&self) -> Result<Answer<V>, AllocError> {
        Ok(*self)
    }
}
