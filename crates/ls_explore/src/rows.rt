// Rows: histories with paths that lead to them.

ghost use Rattle.std.specs.Prelude.{◌≡◌, IfOk, IsPermutation, IsSorted};
ghost use Rattle.ls_explore.specs.Rows.{ending_of, row_order};

use crate::searching::Seen;
use ls_events::event::Event;
use std::alloc::{AllocError, Global};
use std::cmp::Ordering;
use std::marker::Model;

/// How a row ends: what the threads do after its path.
#[derive(Copy, PartialEq, Eq)]
pub enum Ending {
    /// No thread acts any more: each has ended, is trapped, or waits for ever.
    Over,
    /// No thread acts any more, and one would need more cells than there are.
    OutOfCells,
    /// A thread acts.
    GoesOn,
    /// What the threads do wasn't looked at, since no more states may be kept.
    NotSeen,
}

impl Clone for Ending {
    fn clone(&self) -> Result<Ending, AllocError> {
        Ok(*self)
    }
}

/// How a path ends, by what is seen after it.
pub(crate) fn ending_of(seen: Option<Seen>) -> Ending
    ensures { result ≡ ending_of seen }
{
    match seen {
        None => Ending::NotSeen,
        Some(
            Seen {
                acts: true,
                stops: _,
            },
        ) => Ending::GoesOn,
        Some(
            Seen {
                acts: false,
                stops: true,
            },
        ) => Ending::OutOfCells,
        Some(
            Seen {
                acts: false,
                stops: false,
            },
        ) => Ending::Over,
    }
}

/// A history, a path that leads to a machine of that history, and what the threads do after it. A path has the thread
/// of each source step after the setup's.
#[derive(Drop)]
pub struct Row {
    path: Vec<u8>,
    history: Vec<Event>,
    ending: Ending,
}

impl Model for Row {
    ghost use Rattle.ls_explore.specs.Rows.{Told};

    ghost Value = { Told };

    ghost view = { λ r. record { path = r.path.items; history = r.history.items; ending = r.ending } };
}

impl Row {
    /// A row of a path, a history and how it ends.
    pub fn new(
        alloc: Global,
        path: &[u8],
        history: &[Event],
        ending: Ending,
    ) -> Result<Row, AllocError>
        ensures { IfOk result (λ r. r ≡ record { path = path.now; history = history.now; ending = ending }) }
    {
        let path = path.to_vec(alloc)?;
        let history = history.iter().copied().collect(alloc)?;
        Ok(Row {
            path,
            history,
            ending,
        })
    }

    /// The path.
    pub fn path(&self) -> &[u8]
        ensures { result.now ≡ self.now.path }
    {
        self.path.as_slice()
    }

    /// The events, in order.
    pub fn history(&self) -> &[Event]
        ensures { result.now ≡ self.now.history }
    {
        self.history.as_slice()
    }

    /// How it ends.
    pub fn ending(&self) -> Ending
        ensures { result ≡ self.now.ending }
    {
        self.ending
    }

    /// How it stands to another: the shorter path comes first, and of two of one length the lesser.
    fn order(&self, other: &Row) -> Ordering
        ensures { result ≡ row_order self.now other.now }
    {
        match self.path.len().cmp(&other.path.len()) {
            Ordering::Less => Ordering::Less,
            Ordering::Equal => self.path.as_slice().cmp(other.path.as_slice()),
            Ordering::Greater => Ordering::Greater,
        }
    }
}

/// The same rows in order.
pub(crate) fn in_order(rows: Vec<Row>) -> Vec<Row>
    ensures same { IsPermutation rows.items result.items }
    ensures order { IsSorted row_order result.items }
{
    let mut rows = rows;
    rows.sort_unstable_by(|a, b| a.order(b));
    rows
}
