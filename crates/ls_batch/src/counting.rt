// How many seeds gave each history, and the least of them.

ghost use Rattle.std.specs.Prelude.{◌≡◌, ◌<◌, ◌^◌, ℕ, List, length, Some, None, if◌then◌else◌, IfSome, IfNone, IfOk};
ghost use Rattle.std.specs.Prelude.{OnOk};
ghost use Rattle.ls_batch.specs.Counted.{AreCounts, are_same, both, count_at, histories_in, one_of, runs_from};
ghost use Rattle.ls_batch.specs.Numbers.{Key, key_of, plain_key};
ghost use Rattle.ls_batch.specs.Tallies.{History, IsTally};

use crate::keys::{HistoryKey, history_key};
use crate::tally::{Entry, Tally};
use ls_events::event::Event;
use std::alloc::{AllocError, Global};
use std::collections::BTreeMap;

/// How many seeds gave a history, and the least of them.
#[derive(Copy)]
pub(crate) struct Count {
    pub(crate) count: usize,
    pub(crate) seed: u64,
}

impl Clone for Count {
    fn clone(&self) -> Result<Count, AllocError> {
        Ok(*self)
    }
}

/// The count of each history of some seeds. So the time of a search grows with the logarithm of the number of
/// histories.
#[derive(Drop)]
pub struct Counts {
    pub(crate) counts: BTreeMap<HistoryKey, Count>,
}

/// The count of a history of which there may be one already.
fn with(count: Option<Count>, more: Count) -> Count
    ensures { Some result ≡ both count (Some more) }
{
    match count {
        None => more,
        Some(count) => Count {
            count: count.count.saturating_add(more.count),
            seed: count.seed.min(more.seed),
        },
    }
}

impl Counts {
    /// The counts of no seeds.
    pub fn new(alloc: Global) -> Counts
        ensures { (key : Key) → count_at result key ≡ None }
    {
        Counts {
            counts: BTreeMap::new(alloc),
        }
    }

    /// Counts more seeds of a history, by its key.
    fn put(&mut self, key: HistoryKey, more: Count) -> Result<(), AllocError>
        ensures { OnOk result ((other : Key) → count_at self.new other
            ≡ (if are_same other (plain_key key) then both (count_at self.old (plain_key key)) (Some more) else count_at
            self.old other)) }
    {
        let count = with(self.counts.get(&key).copied(), more);
        self.counts.insert(key, count)?;
        Ok(())
    }

    /// Takes out the count of one of the histories.
    fn pop(&mut self) -> Option<(HistoryKey, Count)>
        ensures some { IfSome result (λ p. count_at self.old (plain_key p.0) ≡ Some p.1) }
        ensures others { IfSome result (λ p. (other : Key) → count_at self.new other
            ≡ (if are_same other (plain_key p.0) then None else count_at self.old other)) }
        ensures fewer { IfSome result (λ p. histories_in self.new < histories_in self.old) }
        ensures none { IfNone result ((other : Key) → count_at self.old other ≡ None) }
    {
        self.counts.pop_first()
    }

    /// Counts the history of one seed more.
    pub fn add(&mut self, alloc: Global, history: &[Event], seed: u64) -> Result<(), AllocError>
        ensures { OnOk result ((other : Key) → count_at self.new other
            ≡ both (count_at self.old other) (if are_same other (key_of history.now) then one_of seed else None)) }
    {
        let key = history_key(alloc, history)?;
        self.put(key, Count { count: 1, seed })?;
        Ok(())
    }

    /// The tally of consecutive seeds: each distinct history once, in the order of their least seeds.
    pub fn tally(self, alloc: Global) -> Result<Tally, AllocError>
        ensures { (first : ℕ) (histories : List History) → length histories < 2 ^ 64 →
            AreCounts (runs_from first histories) self → IfOk result (λ tally. IsTally histories first tally) }
    {
        let mut rest = self;
        let mut entries = Vec::new(alloc);
        while let Some((key, count)) = rest.pop() {
            let Count { count, seed } = count;
            entries.push(Entry { seed, key, count })?;
        }
        entries.sort()?;
        Ok(Tally { entries })
    }
}

/// The two, of which the first has at least as many histories.
fn by_size(left: Counts, right: Counts) -> (Counts, Counts)
    ensures { (key : Key) → both (count_at result.0 key) (count_at result.1 key) ≡ both (count_at left key)
        (count_at right key) }
{
    if left.counts.len() < right.counts.len() {
        (right, left)
    } else {
        (left, right)
    }
}

/// The counts of the seeds of both.
pub fn joined(left: Counts, right: Counts) -> Result<Counts, AllocError>
    ensures { IfOk result (λ all. (key : Key) → count_at all key ≡ both (count_at left key) (count_at right key)) }
{
    let (mut all, mut rest) = by_size(left, right);
    while let Some((key, count)) = rest.pop() {
        all.put(key, count)?;
    }
    Ok(all)
}
