// The rows of all paths.

ghost use Rattle.std.specs.Prelude.{◌≡◌, ◌<◌, ◌≤◌, ◌++◌, ◌∷◌, [], ℕ, Contains, IfNone, IfOk, IfSome, IsSorted, List};
ghost use Rattle.std.specs.Prelude.{OnOk, Some, length, not, slice_get};
ghost use Rattle.ls_explore.specs.Listed.{IsRowOf, TellListed};
ghost use Rattle.ls_explore.specs.Rows.{AreApart, Told, row_order};
ghost use Rattle.ls_explore.specs.declared.searching.Seen.{Seen as SeenValue};
ghost use Rattle.ls_explore.specs.Searches.{AreSaved, paths_of};
ghost use Rattle.ls_explore.specs.Walks.{root_of, walked};
ghost use Rattle.ls_history_numbers.specs.Choices.{IsChosen};
ghost use Rattle.ls_history_numbers.specs.Numbers.{AreNumbered, IsOf, Keeps};

use crate::links::Path;
use crate::rows::{Row, ending_of, in_order};
use crate::searching::{Searched, Seen};
use crate::walking::{Ground, Place, stand};
use ls_history_numbers::{Known, choose, none, number_of};
use ls_machine::Machine;
use std::alloc::{AllocError, Global};

/// Goes to where the path at a place leads.
fn stand_at(walker: &mut Machine, ground: &Ground<'_>, found: &Searched, at: usize)
    requires at { at < length found.now.paths.items }
    requires saves { AreSaved ground.now.most (root_of walker.old ground.now.setup.now) (paths_of found.now.paths.items)
        found.now.saved.items }
    ensures at { (path : List ℕ) → slice_get (paths_of found.now.paths.items) at ≡ Some path →
        walker.new ≡ walked ground.now.most (root_of walker.old ground.now.setup.now) path }
    ensures code { walker.new.code ≡ walker.old.code }
    ensures cells { walker.new.cells.limit ≡ walker.old.cells.limit }
{
    let place = Place {
        path: Path::new(found.paths.as_slice(), at),
        saved: &found.saved[at],
    };
    stand(walker, ground, &place);
}

/// The number of the history to which the path at a place leads.
fn number_at(
    walker: &mut Machine,
    ground: &Ground<'_>,
    found: &Searched,
    at: usize,
    all: &mut Vec<Known>,
) -> Result<usize, AllocError>
    requires at { at < length found.now.paths.items }
    requires saves { AreSaved ground.now.most (root_of walker.old ground.now.setup.now) (paths_of found.now.paths.items)
        found.now.saved.items }
    requires numbered { AreNumbered all.old.items }
    ensures is { IfOk result (λ n. (path : List ℕ) → slice_get (paths_of found.now.paths.items) at ≡ Some path →
        IsOf all.new.items n (walked ground.now.most (root_of walker.old ground.now.setup.now) path).history) }
    ensures numbered { OnOk result (AreNumbered all.new.items) }
    ensures keeps { OnOk result (Keeps all.old.items all.new.items) }
    ensures code { walker.new.code ≡ walker.old.code }
    ensures cells { walker.new.cells.limit ≡ walker.old.cells.limit }
{
    stand_at(walker, ground, found, at);
    let number = number_of(ground.alloc, all, walker.history())?;
    Ok(number)
}

/// The number of the history to which each path leads.
fn number_paths(
    walker: &mut Machine,
    ground: &Ground<'_>,
    found: &Searched,
    all: &mut Vec<Known>,
) -> Result<Vec<usize>, AllocError>
    requires saves { AreSaved ground.now.most (root_of walker.old ground.now.setup.now) (paths_of found.now.paths.items)
        found.now.saved.items }
    requires numbered { AreNumbered all.old.items }
    ensures many { IfOk result (λ v. length v.items ≡ length found.now.paths.items) }
    ensures each { IfOk result (λ v. (at n : ℕ) (path : List ℕ) → slice_get v.items at ≡ Some n →
        slice_get (paths_of found.now.paths.items) at ≡ Some path →
        IsOf all.new.items n (walked ground.now.most (root_of walker.old ground.now.setup.now) path).history) }
    ensures numbered { OnOk result (AreNumbered all.new.items) }
    ensures code { walker.new.code ≡ walker.old.code }
    ensures cells { walker.new.cells.limit ≡ walker.old.cells.limit }
{
    let mut numbers = Vec::with_capacity(ground.alloc, found.paths.len())?;
    for at in 0..found.paths.len() {
        let number = number_at(walker, ground, found, at, all)?;
        numbers.push(number)?;
    }
    Ok(numbers)
}

/// Whether no thread acts after the path at a place.
fn ends_at(seen: &[Seen], at: usize) -> bool
    requires { at < length seen.now }
    ensures { (s : SeenValue) → slice_get seen.now at ≡ Some s → result ≡ not s.acts }
{
    !seen[at].acts
}

/// Whether no thread acts, for each of the first paths.
fn ends_of(alloc: Global, seen: &[Seen]) -> Result<Vec<bool>, AllocError>
    ensures many { IfOk result (λ v. length v.items ≡ length seen.now) }
    ensures each { IfOk result (λ v. (at : ℕ) (s : SeenValue) → slice_get seen.now at ≡ Some s →
        slice_get v.items at ≡ Some (not s.acts)) }
{
    let mut ends = Vec::with_capacity(alloc, seen.len())?;
    for at in 0..seen.len() {
        ends.push(ends_at(seen, at))?;
    }
    Ok(ends)
}

/// What is seen after the path at a place, where that was looked at.
fn seen_at(found: &Searched, at: usize) -> Option<Seen>
    ensures { result ≡ slice_get found.now.seen.items at }
{
    found.seen.get(at).copied()
}

/// The row of the path at a place.
fn row_at(
    walker: &mut Machine,
    ground: &Ground<'_>,
    found: &Searched,
    at: usize,
) -> Result<Row, AllocError>
    requires at { at < length found.now.paths.items }
    requires saves { AreSaved ground.now.most (root_of walker.old ground.now.setup.now) (paths_of found.now.paths.items)
        found.now.saved.items }
    ensures row { IfOk result (IsRowOf ground.now.most (root_of walker.old ground.now.setup.now)
        (paths_of found.now.paths.items) found.now.seen.items at) }
    ensures code { walker.new.code ≡ walker.old.code }
    ensures cells { walker.new.cells.limit ≡ walker.old.cells.limit }
{
    stand_at(walker, ground, found, at);
    let ending = ending_of(seen_at(found, at));
    let path = Path::new(found.paths.as_slice(), at).to_vec(ground.alloc)?;
    let row = Row::new(ground.alloc, path.as_slice(), walker.history(), ending)?;
    Ok(row)
}

/// Adds the row of a place, if there is one.
fn add_row(
    walker: &mut Machine,
    ground: &Ground<'_>,
    found: &Searched,
    rows: &mut Vec<Row>,
    choice: Option<usize>,
) -> Result<(), AllocError>
    requires at { IfSome choice (λ at. at < length found.now.paths.items) }
    requires saves { AreSaved ground.now.most (root_of walker.old ground.now.setup.now) (paths_of found.now.paths.items)
        found.now.saved.items }
    ensures none { OnOk result (IfNone choice (rows.new.items ≡ rows.old.items)) }
    ensures some { OnOk result (IfSome choice (λ at. (r : Told)
        × IsRowOf ground.now.most (root_of walker.old ground.now.setup.now) (paths_of found.now.paths.items)
        found.now.seen.items at r × (rows.new.items ≡ rows.old.items ++ r ∷ []))) }
    ensures code { walker.new.code ≡ walker.old.code }
    ensures cells { walker.new.cells.limit ≡ walker.old.cells.limit }
{
    match choice {
        None => Ok(()),
        Some(at) => {
            let row = row_at(walker, ground, found, at)?;
            rows.push(row)?;
            Ok(())
        }
    }
}

/// The place that was chosen for a number, if one was.
fn choice_at(choices: &[Option<usize>], number: usize) -> Option<usize>
    requires { number < length choices.now }
    ensures { slice_get choices.now number ≡ Some result }
{
    choices[number]
}

/// The rows of these places.
fn chosen_rows(
    walker: &mut Machine,
    ground: &Ground<'_>,
    found: &Searched,
    choices: &[Option<usize>],
) -> Result<Vec<Row>, AllocError>
    requires at { (n at : ℕ) → IsChosen choices.now n at → at < length found.now.paths.items }
    requires saves { AreSaved ground.now.most (root_of walker.old ground.now.setup.now) (paths_of found.now.paths.items)
        found.now.saved.items }
    requires apart { (n at m other : ℕ) (r s : Told) → IsChosen choices.now n at → IsChosen choices.now m other →
        IsRowOf ground.now.most (root_of walker.old ground.now.setup.now) (paths_of found.now.paths.items)
        found.now.seen.items at r →
        IsRowOf ground.now.most (root_of walker.old ground.now.setup.now) (paths_of found.now.paths.items)
        found.now.seen.items other s → r.history ≡ s.history → n ≡ m }
    ensures own { IfOk result (λ rows. (r : Told) → Contains rows.items r → (n : ℕ) × (at : ℕ)
        × IsChosen choices.now n at × IsRowOf ground.now.most (root_of walker.old ground.now.setup.now)
        (paths_of found.now.paths.items) found.now.seen.items at r) }
    ensures made { IfOk result (λ rows. (n at : ℕ) → IsChosen choices.now n at → (r : Told) × Contains rows.items r
        × IsRowOf ground.now.most (root_of walker.old ground.now.setup.now) (paths_of found.now.paths.items)
        found.now.seen.items at r) }
    ensures apart { IfOk result (λ rows. AreApart rows.items) }
{
    let mut rows = Vec::new(ground.alloc);
    for number in 0..choices.len() {
        add_row(walker, ground, found, &mut rows, choice_at(choices, number))?;
    }
    Ok(rows)
}

/// The rows of all paths: one for each history that ends, with the first path of it, and one for each other that begins
/// that of no path, with the last.
fn rows_of(
    walker: &mut Machine,
    ground: &Ground<'_>,
    found: &Searched,
) -> Result<Vec<Row>, AllocError>
    requires saves { AreSaved ground.now.most (root_of walker.old ground.now.setup.now) (paths_of found.now.paths.items)
        found.now.saved.items }
    requires few { length found.now.seen.items ≤ length found.now.paths.items }
    ensures { IfOk result (λ rows. TellListed ground.now.most (root_of walker.old ground.now.setup.now)
        (paths_of found.now.paths.items) found.now.seen.items rows.items) }
{
    let mut all = none(ground.alloc)?;
    let numbers = number_paths(walker, ground, found, &mut all)?;
    let ends = ends_of(ground.alloc, found.seen.as_slice())?;
    let choices = choose(
        ground.alloc,
        all.as_slice(),
        numbers.as_slice(),
        ends.as_slice(),
    )?;
    chosen_rows(walker, ground, found, choices.as_slice())
}

/// The rows of all paths, in order.
pub(crate) fn tell(
    walker: &mut Machine,
    ground: &Ground<'_>,
    found: &Searched,
) -> Result<Vec<Row>, AllocError>
    requires saves { AreSaved ground.now.most (root_of walker.old ground.now.setup.now) (paths_of found.now.paths.items)
        found.now.saved.items }
    requires few { length found.now.seen.items ≤ length found.now.paths.items }
    ensures told { IfOk result (λ rows. TellListed ground.now.most (root_of walker.old ground.now.setup.now)
        (paths_of found.now.paths.items) found.now.seen.items rows.items) }
    ensures order { IfOk result (λ rows. IsSorted row_order rows.items) }
{
    let rows = rows_of(walker, ground, found)?;
    Ok(in_order(rows))
}
