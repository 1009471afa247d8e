// The rows of all states.

ghost use Rattle.std.specs.Prelude.{◌≡◌, ◌<◌, ◌≤◌, ◌++◌, ◌∷◌, [], ℕ, Contains, IfNone, IfOk, IfSome, IsSorted, IsTrue};
ghost use Rattle.std.specs.Prelude.{OnOk, Some, false, length, map, not, slice_get};
ghost use Rattle.ls_history_numbers.specs.Choices.{IsChosen};
ghost use Rattle.ls_source_rows.specs.declared.rows.Row.{Row as RowValue};
ghost use Rattle.ls_checked.specs.Plain.{plain_file};
ghost use Rattle.ls_checked.specs.PlainProgram.{plain_program};
ghost use Rattle.ls_search.specs.Verdicts.{IsCut};
ghost use Rattle.ls_search.specs.Watching.{GoesOn};
ghost use Rattle.ls_search_laws.specs.Stepping.{SetsUp};
ghost use Rattle.ls_search.specs.declared.places.Node.{Node as NodeValue};
ghost use Rattle.ls_search.specs.declared.places.Seen.{Seen as SeenValue};
ghost use Rattle.ls_source_rows.specs.Listed.{IsRowOf, TellListed, ending_of};
ghost use Rattle.ls_source_rows.specs.Rows.{AreApart, AreTrue, StandAlone, TellWhole, TellStates, row_order};

use crate::observing::Histories;
use crate::rows::{Ending, Row};
use crate::sorting::in_order;
use ls_checked::program::Program;
use ls_checked::tree::File;
use ls_events::event::Event;
use ls_history_numbers::{choose, none, number_all};
use ls_search::nameless::Nameless;
use ls_search::places::{Node, Seen};
use ls_search::run_listing::{Reach, RunListing, list_run};
use ls_search::steps::steps_to;
use ls_search::watching::Watch;
use std::alloc::{AllocError, Global};

/// How many steps of the setup act, and the histories of all schedules with paths that lead to them. Also whether they
/// are all, and how many states were kept.
#[derive(Drop)]
pub struct Telling {
    pub setup: usize,
    pub rows: Vec<Row>,
    pub complete: bool,
    pub states: usize,
}

/// How a row ends, by what is seen after it.
fn ending_of(seen: Option<Seen>) -> Ending
    ensures { result ≡ ending_of seen }
{
    match seen {
        None => Ending::NotSeen,
        Some(
            Seen {
                acts: true,
                waits: _,
            },
        ) => Ending::GoesOn,
        Some(
            Seen {
                acts: false,
                waits: true,
            },
        ) => Ending::Waiting,
        Some(
            Seen {
                acts: false,
                waits: false,
            },
        ) => Ending::Ended,
    }
}

/// The number of the history of the state at a place.
fn number_at(numbers: &[usize], nodes: &[Node], at: usize) -> usize
    requires at { at < length nodes.now }
    requires there { (n : NodeValue) → slice_get nodes.now at ≡ Some n → n.place.noted < length numbers.now }
    ensures { (n : NodeValue) (number : ℕ) → slice_get nodes.now at ≡ Some n →
        slice_get numbers.now n.place.noted ≡ Some number → result ≡ number }
{
    numbers[nodes[at].place.noted]
}

/// The number of each state's history.
fn number_states(alloc: Global, numbers: &[usize], nodes: &[Node]) -> Result<Vec<usize>, AllocError>
    requires { (at : ℕ) (n : NodeValue) → slice_get nodes.now at ≡ Some n → n.place.noted < length numbers.now }
    ensures many { IfOk result (λ v. length v.items ≡ length nodes.now) }
    ensures each { IfOk result (λ v. (at : ℕ) (n : NodeValue) (number : ℕ) → slice_get nodes.now at ≡ Some n →
        slice_get numbers.now n.place.noted ≡ Some number → slice_get v.items at ≡ Some number) }
{
    let mut each = Vec::with_capacity(alloc, nodes.len())?;
    for at in 0..nodes.len() {
        each.push(number_at(numbers, nodes, at))?;
    }
    Ok(each)
}

/// Whether no thread acts after the state at a place.
fn ends_at(seen: &[Seen], at: usize) -> bool
    requires { at < length seen.now }
    ensures { (s : SeenValue) → slice_get seen.now at ≡ Some s → result ≡ not s.acts }
{
    !seen[at].acts
}

/// Whether no thread acts, for each of the first states.
fn ends_of(alloc: Global, seen: &[Seen]) -> Result<Vec<bool>, AllocError>
    ensures many { IfOk result (λ v. length v.items ≡ length seen.now) }
    ensures each { IfOk result (λ v. (at : ℕ) (s : SeenValue) → slice_get seen.now at ≡ Some s →
        slice_get v.items at ≡ Some (not s.acts)) }
{
    let mut ends = Vec::with_capacity(alloc, seen.len())?;
    for at in 0..seen.len() {
        ends.push(ends_at(seen, at))?;
    }
    Ok(ends)
}

/// What was found: the histories, the states, and what was seen after the first of them.
#[derive(Drop)]
struct Found<'a> {
    histories: &'a [Vec<Event>],
    nodes: &'a [Node],
    seen: &'a [Seen],
}

/// What is seen after the state at a place, where that was looked at.
fn seen_at(seen: &[Seen], at: usize) -> Option<Seen>
    ensures { result ≡ slice_get seen.now at }
{
    seen.get(at).copied()
}

/// The same events.
fn copy_events(alloc: Global, events: &[Event]) -> Result<Vec<Event>, AllocError>
    ensures { IfOk result (λ v. v.items ≡ events.now) }
{
    let copies: Vec<Event> = events.iter().copied().collect(alloc)?;
    Ok(copies)
}

/// The place of the history of the state at a place.
fn noted_at(nodes: &[Node], at: usize) -> usize
    requires { at < length nodes.now }
    ensures { (n : NodeValue) → slice_get nodes.now at ≡ Some n → result ≡ n.place.noted }
{
    nodes[at].place.noted
}

/// The history at a place.
fn history_at(histories: &[Vec<Event>], at: usize) -> &[Event]
    requires { at < length histories.now }
    ensures { slice_get (map (λ v. v.items) histories.now) at ≡ Some result.now }
{
    &histories[at]
}

/// The row of the state at a place.
fn row_of(alloc: Global, found: &Found<'_>, at: usize) -> Result<Row, AllocError>
    requires at { at < length found.now.nodes.now }
    requires there { (n : NodeValue) → slice_get found.now.nodes.now at ≡ Some n →
        n.place.noted < length found.now.histories.now }
    ensures { IfOk result (λ r. IsRowOf (map (λ v. v.items) found.now.histories.now) found.now.nodes.now
        found.now.seen.now at r) }
{
    let path = steps_to(alloc, found.nodes, at)?;
    let noted = noted_at(found.nodes, at);
    let history = copy_events(alloc, history_at(found.histories, noted))?;
    let ending = ending_of(seen_at(found.seen, at));
    Ok(Row {
        path,
        history,
        ending,
    })
}

/// Adds the row of a place, if there is one.
fn add_row(
    alloc: Global,
    found: &Found<'_>,
    rows: &mut Vec<Row>,
    choice: Option<usize>,
) -> Result<(), AllocError>
    requires at { IfSome choice (λ at. at < length found.now.nodes.now) }
    requires there { (at : ℕ) (n : NodeValue) → slice_get found.now.nodes.now at ≡ Some n →
        n.place.noted < length found.now.histories.now }
    ensures none { OnOk result (IfNone choice (rows.new.items ≡ rows.old.items)) }
    ensures some { OnOk result (IfSome choice (λ at. (r : RowValue)
        × IsRowOf (map (λ v. v.items) found.now.histories.now) found.now.nodes.now found.now.seen.now at r
        × (rows.new.items ≡ rows.old.items ++ r ∷ []))) }
{
    match choice {
        None => Ok(()),
        Some(at) => {
            let row = row_of(alloc, found, at)?;
            rows.push(row)?;
            Ok(())
        }
    }
}

/// The place that was chosen for a number, if one was.
fn choice_at(choices: &[Option<usize>], number: usize) -> Option<usize>
    requires { number < length choices.now }
    ensures { slice_get choices.now number ≡ Some result }
{
    choices[number]
}

/// The rows of these places.
fn chosen_rows(
    alloc: Global,
    found: &Found<'_>,
    choices: &[Option<usize>],
) -> Result<Vec<Row>, AllocError>
    requires at { (n at : ℕ) → IsChosen choices.now n at → at < length found.now.nodes.now }
    requires there { (at : ℕ) (n : NodeValue) → slice_get found.now.nodes.now at ≡ Some n →
        n.place.noted < length found.now.histories.now }
    requires apart { (n at m other : ℕ) (r s : RowValue) → IsChosen choices.now n at → IsChosen choices.now m other →
        IsRowOf (map (λ v. v.items) found.now.histories.now) found.now.nodes.now found.now.seen.now at r →
        IsRowOf (map (λ v. v.items) found.now.histories.now) found.now.nodes.now found.now.seen.now other s →
        r.history.items ≡ s.history.items → n ≡ m }
    ensures own { IfOk result (λ rows. (r : RowValue) → Contains rows.items r → (n : ℕ) × (at : ℕ)
        × IsChosen choices.now n at
        × IsRowOf (map (λ v. v.items) found.now.histories.now) found.now.nodes.now found.now.seen.now at r) }
    ensures made { IfOk result (λ rows. (n at : ℕ) → IsChosen choices.now n at → (r : RowValue)
        × Contains rows.items r
        × IsRowOf (map (λ v. v.items) found.now.histories.now) found.now.nodes.now found.now.seen.now at r) }
    ensures apart { IfOk result (λ rows. AreApart rows.items) }
{
    let mut rows = Vec::new(alloc);
    for number in 0..choices.len() {
        add_row(alloc, found, &mut rows, choice_at(choices, number))?;
    }
    Ok(rows)
}

/// The rows of the states: one for each history that ends, and one for each that none goes on from.
fn rows_of(alloc: Global, found: &Found<'_>) -> Result<Vec<Row>, AllocError>
    requires few { length found.now.seen.now ≤ length found.now.nodes.now }
    requires there { (at : ℕ) (n : NodeValue) → slice_get found.now.nodes.now at ≡ Some n →
        n.place.noted < length found.now.histories.now }
    ensures { IfOk result (λ rows. TellListed (map (λ v. v.items) found.now.histories.now) found.now.nodes.now
        found.now.seen.now rows.items) }
{
    let mut all = none(alloc)?;
    let numbers = number_all(alloc, &mut all, found.histories)?;
    let each = number_states(alloc, &numbers, found.nodes)?;
    let ends = ends_of(alloc, found.seen)?;
    let choices = choose(alloc, &all, &each, &ends)?;
    chosen_rows(alloc, found, &choices)
}

/// Tells the histories of all schedules of a program. It runs at most so many steps of the setup, keeps at most so many
/// states, and tells how many there are while it goes on.
///
/// Each row's history is that of its schedule: the steps of the setup, and then one step of each thread of its path.
/// Each of these acts. The row ends as the program does after that schedule.
///
/// If the rows are complete, the history of each schedule, of any length, is the beginning of a row's. If no thread
/// acts after the schedule, it is that of a row that ends. If the rows are cut, as many states were kept as may be, or
/// the states that were kept have over 4,194,304 objects together.
///
/// No two rows have one history. The history of a row that doesn't end begins that of no other row. The shortest path
/// comes first, and of those of one length the least. A refusal is that memory ran out, or that a store, a work or a
/// state has no number left. A call that answers an object is refused too, and so is a constant that names one: a
/// program that was read has neither.
pub fn tell_rows<W: Watch>(
    alloc: Global,
    file: &File,
    program: &Program,
    reach: Reach,
    watch: &mut W,
) -> Result<Telling, AllocError>
    requires { 1 ≤ reach.states }
    ensures watched { GoesOn W.Since watch.old watch.new }
    ensures up { IfOk result (λ t. SetsUp (plain_file file.now) (plain_program program.now) t.setup) }
    ensures truth { IfOk result (λ t.
        AreTrue (plain_file file.now) (plain_program program.now) t.setup t.rows.items) }
    ensures apart { IfOk result (λ t. AreApart t.rows.items) }
    ensures alone { IfOk result (λ t. StandAlone t.rows.items) }
    ensures order { IfOk result (λ t. IsSorted row_order t.rows.items) }
    ensures states { IfOk result (λ t.
        TellStates (plain_file file.now) (plain_program program.now) t.setup t.rows.items t.states) }
    ensures all { IfOk result (λ t. IsTrue t.complete →
        TellWhole (plain_file file.now) (plain_program program.now) t.rows.items) }
    ensures cut { IfOk result (λ t. t.complete ≡ false →
        IsCut (plain_file file.now) (plain_program program.now) reach.states t.setup t.states) }
    ensures few { IfOk result (λ t. t.states ≤ reach.states) }
{
    let histories = Histories;
    let observer = Nameless {
        observer: &histories,
    };
    let RunListing { setup, listing } = list_run(alloc, &observer, file, program, reach, watch)?;
    let found = Found {
        histories: &listing.search.pool.values,
        nodes: &listing.search.found.nodes,
        seen: &listing.search.seen,
    };
    let rows = in_order(rows_of(alloc, &found)?);
    Ok(Telling {
        setup,
        rows,
        complete: listing.complete,
        states: listing.search.found.nodes.len(),
    })
}
