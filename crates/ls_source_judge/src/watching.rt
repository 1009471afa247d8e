// The observer of a specification as an automaton.

ghost use Rattle.std.specs.Prelude.{◌≡◌, true, false, IfNone, IfOk, IfSome};
ghost use Rattle.ls_automaton.specs.Tables.{AreOutcomes};
ghost use Rattle.ls_serial_search.specs.Open.{HasLongCall};
ghost use Rattle.ls_serial_search.specs.Told.{IsDoubt};
ghost use Rattle.ls_specification.specs.Specification.{spec_file, spec_program};
ghost use Rattle.ls_source_judge.specs.Laws.{BadAreNotJudged, BadAreNotLinearizable, GoodAreLinearizable};

use crate::watched::PairsObserver;
use ls_automaton::merging::merge;
use ls_automaton::table::{Table, table_of};
use ls_serial_search::telling::{Bounds, Doubt};
use ls_specification::Specification;
use std::alloc::{AllocError, Global};

/// So many states of a specification as an automaton have numbers.
const MOST_STATES: usize = 1_000_000;

/// An observer of a specification as an automaton, for the histories of any program.
#[derive(Drop)]
pub struct SerialObserver {
    pub observer: PairsObserver,
    /// Whether a call goes on. If none does, a history that is bad isn't linearizable.
    pub doubt: Option<Doubt>,
}

/// Why some outcomes aren't known.
fn doubt_of(goes_on: bool) -> Option<Doubt>
    ensures none { IfNone result (goes_on ≡ false) }
    ensures some { IfSome result (λ d. (d ≡ Doubt.LongCall) × (goes_on ≡ true)) }
{
    if goes_on {
        return Some(Doubt::LongCall);
    }
    None
}

/// The observer that a table of outcomes makes. The only refusal is that memory ran out.
fn observer_of(
    alloc: Global,
    specification: Specification<'_>,
    bounds: Bounds,
    table: Table,
) -> Result<SerialObserver, AllocError>
    requires outcomes { AreOutcomes (spec_file specification) (spec_program specification) bounds.steps table.goes_on
        table.rows.items }
    requires long { table.goes_on ≡ true →
        HasLongCall (spec_file specification) (spec_program specification) bounds.steps }
    ensures good { IfOk result (λ s.
        GoodAreLinearizable s.observer (spec_file specification.entry) (spec_program specification.entry)) }
    ensures bad { IfOk result (λ s. IfNone s.doubt
        (BadAreNotLinearizable s.observer (spec_file specification.entry) (spec_program specification.entry))) }
    ensures unjudged { IfOk result (λ s. IfSome s.doubt
        (BadAreNotJudged s.observer (spec_file specification.entry) (spec_program specification.entry) bounds.steps)) }
    ensures doubt { IfOk result (λ s. IfSome s.doubt
        (IsDoubt (spec_file specification.entry) (spec_program specification.entry) bounds)) }
{
    let doubt = doubt_of(table.goes_on);
    let rows = merge(alloc, table.rows)?;
    let observer = PairsObserver::new(alloc, rows)?;
    Ok(SerialObserver { observer, doubt })
}

/// An observer of a specification as an automaton, if that has at most so many states. The only refusal is that memory
/// ran out.
pub fn observer_within(
    alloc: Global,
    specification: Specification<'_>,
    bounds: Bounds,
    most_states: usize,
) -> Result<Option<SerialObserver>, AllocError>
    ensures good { IfOk result (λ some. IfSome some (λ s.
        GoodAreLinearizable s.observer (spec_file specification.entry) (spec_program specification.entry))) }
    ensures bad { IfOk result (λ some. IfSome some (λ s. IfNone s.doubt
        (BadAreNotLinearizable s.observer (spec_file specification.entry) (spec_program specification.entry)))) }
    ensures unjudged { IfOk result (λ some. IfSome some (λ s. IfSome s.doubt
        (BadAreNotJudged s.observer (spec_file specification.entry) (spec_program specification.entry) bounds.steps))) }
    ensures doubt { IfOk result (λ some. IfSome some (λ s. IfSome s.doubt
        (IsDoubt (spec_file specification.entry) (spec_program specification.entry) bounds))) }
{
    let Specification { file, program } = specification;
    match table_of(alloc, file, program, bounds.steps, most_states)? {
        Some(table) => Ok(Some(observer_of(alloc, specification, bounds, table)?)),
        None => Ok(None),
    }
}

/// An observer of a specification as an automaton. A refusal is that memory ran out, or that a state between calls has
/// no number left.
pub fn serial_observer(
    alloc: Global,
    specification: Specification<'_>,
    bounds: Bounds,
) -> Result<SerialObserver, AllocError>
    ensures good { IfOk result (λ s.
        GoodAreLinearizable s.observer (spec_file specification.entry) (spec_program specification.entry)) }
    ensures bad { IfOk result (λ s. IfNone s.doubt
        (BadAreNotLinearizable s.observer (spec_file specification.entry) (spec_program specification.entry))) }
    ensures unjudged { IfOk result (λ s. IfSome s.doubt
        (BadAreNotJudged s.observer (spec_file specification.entry) (spec_program specification.entry) bounds.steps)) }
    ensures doubt { IfOk result (λ s. IfSome s.doubt
        (IsDoubt (spec_file specification.entry) (spec_program specification.entry) bounds)) }
{
    match observer_within(alloc, specification, bounds, MOST_STATES)? {
        Some(serial) => Ok(serial),
        None => Err(AllocError),
    }
}
