// The open calls, found by what they do to the set and by where they end.

use ls_orders::calls::SetCall;
use std::alloc::AllocError;
use std::collections::BTreeMap;

/// What a call does that can be placed: on which item, whether the item has to be present, and whether the call changes
/// the set. If it does, where it ends; the place is 0 if the call is pending. `called` is the call's own.
#[derive(Copy, PartialEq, Eq, PartialOrd, Ord)]
pub(crate) struct Turn {
    pub(crate) item: i32,
    pub(crate) present: bool,
    pub(crate) turns: bool,
    pub(crate) pending: bool,
    pub(crate) end: usize,
    pub(crate) called: usize,
}

impl Clone for Turn {
    fn clone(&self) -> Result<Turn, AllocError> {
        Ok(*self)
    }
}

/// Where a call ends, and where it was called.
#[derive(Copy, PartialEq, Eq, PartialOrd, Ord)]
pub(crate) struct Ending {
    pub(crate) at: usize,
    pub(crate) called: usize,
}

impl Clone for Ending {
    fn clone(&self) -> Result<Ending, AllocError> {
        Ok(*self)
    }
}

/// The open calls: those that can be placed, by what they do, and those that end, by their ends.
#[derive(Drop)]
pub(crate) struct Pool {
    pub(crate) turns: BTreeMap<Turn, SetCall>,
    pub(crate) ends: BTreeMap<Ending, SetCall>,
}
