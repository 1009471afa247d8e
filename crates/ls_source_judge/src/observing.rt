// The observer of a specification as an automaton.

ghost use Rattle.std.specs.Prelude.{◌≡◌, ◌∷◌, [], IfOk, IfSome, IsTrue};
ghost use Rattle.ls_automaton.specs.Held.{first_held, helds_of, leaves_none};
ghost use Rattle.ls_linearizable.specs.Judging.{Verdict, later, now};
ghost use Rattle.ls_source_judge.specs.Stepped.{IsTabled};
ghost use Rattle.ls_source_judge.specs.Watched.{first_pairs, first_verdict, pairs_of, verdict_of};

use crate::tabling::{Noted, Pairs, Step, table_of};
use crate::watched::PairsObserver;
use ls_automaton::outcome::Outcome;
use ls_automaton::pairs::{Pair, are_same_pairs, first_pair, hash_of_pairs, pairs_after};
use ls_events::event::Event;
use ls_events::same::is_event;
use ls_observers::observer::Observer;
use std::alloc::{AllocError, Global};

/// The number of what is left after an event, if it is tabled.
fn tabled(steps: &[Step], event: &Event) -> Option<usize>
    ensures { IfSome result (λ n. IsTabled steps.now n event.now) }
{
    for i in 0..steps.len() {
        if is_event(&steps[i].event, event) {
            return Some(steps[i].after);
        }
    }
    None
}

/// Whether what is noted has the same number.
fn have_same_number(noted: &Noted, other: &Noted) -> bool
    ensures { IsTrue result → noted.now ≡ other.now }
{
    match noted {
        Noted::Known(number) => match other {
            Noted::Known(another) => *number == *another,
            Noted::Other(_) => false,
        },
        Noted::Other(_) => false,
    }
}

impl PairsObserver {
    /// An observer of a specification with these outcomes. The only refusal is that memory ran out.
    pub fn new(alloc: Global, rows: Vec<Vec<Outcome>>) -> Result<PairsObserver, AllocError>
        ensures rows { IfOk result (λ o. o.rows.items ≡ rows.items) }
        ensures first { IfOk result (λ o. first_pairs o ≡ first_held ∷ []) }
    {
        let mut first = Vec::new(alloc);
        first.push(first_pair(alloc))?;
        let table = table_of(alloc, rows.as_slice(), first)?;
        Ok(PairsObserver { rows, table })
    }

    /// What is left.
    fn pairs<'a>(&'a self, noted: &'a Noted) -> &'a [Pair]
        ensures { helds_of result.now ≡ pairs_of self.now noted.now }
    {
        match noted {
            Noted::Known(number) => {
                if *number < self.table.known.len() {
                    self.table.known[*number].pairs.as_slice()
                } else {
                    &[]
                }
            }
            Noted::Other(pairs) => pairs.pairs.as_slice(),
        }
    }

    /// The number of what is left after an event, if it is tabled.
    fn step(&self, noted: &Noted, event: &Event) -> Option<usize>
        ensures { IfSome result (λ n. verdict_of self.now (Noted.Known n)
            ≡ later (verdict_of self.now noted.now) event.now) }
    {
        match noted {
            Noted::Known(number) => {
                if *number < self.table.steps.len() {
                    tabled(self.table.steps[*number].as_slice(), event)
                } else {
                    None
                }
            }
            Noted::Other(_) => None,
        }
    }
}

impl Observer for PairsObserver {
    ghost State = { Verdict };

    ghost first = { λ o. first_verdict o };

    ghost next = { λ o v e. later v e };

    ghost bad = { λ o v. now v };

    type Noted = Noted;

    ghost stands = { λ o noted. verdict_of o noted };

    fn start(&self, _alloc: Global) -> Result<Noted, AllocError> {
        Ok(Noted::Known(0))
    }

    fn after(&self, alloc: Global, noted: &Noted, event: &Event) -> Result<Noted, AllocError> {
        if let Some(number) = self.step(noted, event) {
            return Ok(Noted::Known(number));
        }
        let pairs = pairs_after(alloc, self.rows.as_slice(), self.pairs(noted), event)?;
        Ok(Noted::Other(Pairs { pairs }))
    }

    fn is_same(&self, noted: &Noted, other: &Noted) -> bool {
        have_same_number(noted, other) || are_same_pairs(self.pairs(noted), self.pairs(other))
    }

    fn hash(&self, noted: &Noted) -> u64 {
        match noted {
            Noted::Known(number) => {
                if *number < self.table.hashes.len() {
                    self.table.hashes[*number]
                } else {
                    0
                }
            }
            Noted::Other(pairs) => hash_of_pairs(pairs.pairs.as_slice()),
        }
    }

    fn is_bad(&self, noted: &Noted) -> bool {
        self.pairs(noted).is_empty()
    }
}
