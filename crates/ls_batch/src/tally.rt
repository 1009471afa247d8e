// Each distinct history once, in the order of their least seeds.

ghost use Rattle.std.specs.Prelude.{◌≡◌, map, IfOk};
ghost use Rattle.ls_batch.specs.Rows.{entry_row};
ghost use Rattle.ls_batch.specs.Tallies.{Row};

use crate::keys::{HistoryKey, history_of};
use ls_events::event::Event;
use std::alloc::{AllocError, Global};
use std::marker::Model;

/// A history, how many seeds gave it, and the least of them. Entries are in the order of their seeds. The history is
/// kept as it stands in the order of histories, and no second time.
#[derive(PartialEq, Eq, PartialOrd, Ord, Drop)]
pub struct Entry {
    pub(crate) seed: u64,
    pub(crate) key: HistoryKey,
    pub(crate) count: usize,
}

impl Entry {
    /// The events of the history, in order.
    pub fn history(&self, alloc: Global) -> Result<Vec<Event>, AllocError>
        ensures { IfOk result (λ history. history.items ≡ (entry_row self.now).history) }
    {
        history_of(alloc, self.key.events.as_slice())
    }

    /// How many seeds gave the history.
    pub fn count(&self) -> usize
        ensures { result ≡ (entry_row self.now).count }
    {
        self.count
    }

    /// The least seed that gave it.
    pub fn seed(&self) -> u64
        ensures { result ≡ (entry_row self.now).seed }
    {
        self.seed
    }
}

/// The tally of the runs of consecutive seeds.
#[derive(Drop)]
pub struct Tally {
    pub(crate) entries: Vec<Entry>,
}

impl Model for Tally {
    ghost use Rattle.std.specs.Prelude.{List, map};
    ghost use Rattle.ls_batch.specs.Rows.{entry_row};
    ghost use Rattle.ls_batch.specs.Tallies.{Row};

    ghost Value = { List Row };

    ghost view = { λ t. map entry_row t.entries.items };
}

impl Tally {
    /// Each distinct history, in the order of their least seeds.
    pub fn entries(&self) -> &[Entry]
        ensures { map entry_row result.now ≡ self.now }
    {
        self.entries.as_slice()
    }
}
