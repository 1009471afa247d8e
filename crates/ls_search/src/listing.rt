// The list of all states that one step after another leads to, each with how it was found.

ghost use Rattle.std.specs.Prelude.{◌≡◌, ◌<◌, ◌≤◌, ◌+◌, [], IfOk, IsTrue, OnOk, Some, false, length, slice_get};
ghost use Rattle.ls_checked.specs.Plain.{plain_file};
ghost use Rattle.ls_checked.specs.PlainProgram.{plain_program};
ghost use Rattle.ls_meaning.specs.Constants.{FileHasConstants};
ghost use Rattle.ls_transitions.specs.Tables.{Keeps};
ghost use Rattle.ls_transitions.specs.Seen.{table_of};
ghost use Rattle.ls_search.specs.Answers.{root_of};
ghost use Rattle.ls_search.specs.Listed.{AreCut, AreDistinct, AreFull, AreSteps, StandOnce, paths_of};
ghost use Rattle.ls_search.specs.Places.{AreThere};
ghost use Rattle.ls_search.specs.Searched.{AreExpanded, HidesNames};
ghost use Rattle.ls_search.specs.SeenSearch.{IsSoundSearch, pairs_of};
ghost use Rattle.ls_search.specs.Watching.{GoesOn};

use crate::moving::has_setup_ended;
use crate::places::{Node, Seen};
use crate::roots::{Root, start};
use crate::searching::{Ground, Search, look, place_at, seen_with};
use crate::steps::count_steps;
use crate::watching::Watch;
use ls_observers::observer::Observer;
use ls_transitions::transitions::Transitions;
use std::alloc::AllocError;

/// Looks at what each thread does at the state at a place, one step at once. Answers false where there are as many
/// states as there may be, or where their stores have over 4,194,304 objects together.
fn expand<O: Observer>(
    ground: &Ground<'_, O>,
    search: &mut Search<'_, O::Noted>,
    at: usize,
) -> Result<bool, AllocError>
    requires at { at < length search.old.found.nodes.items }
    requires count { length search.old.seen.items ≡ at }
    requires most { ground.now.most ≡ 0 }
    requires sound { IsSoundSearch (O.first ground.now.observer.now) (O.next ground.now.observer.now)
        (O.stands ground.now.observer.now) (plain_file ground.now.file.now) (plain_program ground.now.program.now)
        ground.now.threads search.old }
    requires expanded { AreExpanded (O.first ground.now.observer.now) (O.next ground.now.observer.now)
        (plain_file ground.now.file.now) (plain_program ground.now.program.now)
        (pairs_of (O.first ground.now.observer.now) (O.stands ground.now.observer.now) search.old) ground.now.threads
        search.old.seen.items }
    requires steps { AreSteps (plain_file ground.now.file.now)
        (pairs_of (O.first ground.now.observer.now) (O.stands ground.now.observer.now) search.old)
        search.old.found.nodes.items }
    requires distinct { AreDistinct (paths_of search.old.found.nodes.items) at 0 }
    ensures sound { OnOk result (IsSoundSearch (O.first ground.now.observer.now) (O.next ground.now.observer.now)
        (O.stands ground.now.observer.now) (plain_file ground.now.file.now) (plain_program ground.now.program.now)
        ground.now.threads search.new) }
    ensures keeps { OnOk result
        (Keeps (pairs_of (O.first ground.now.observer.now) (O.stands ground.now.observer.now) search.old)
        (pairs_of (O.first ground.now.observer.now) (O.stands ground.now.observer.now) search.new)) }
    ensures expanded { OnOk result (AreExpanded (O.first ground.now.observer.now) (O.next ground.now.observer.now)
        (plain_file ground.now.file.now) (plain_program ground.now.program.now)
        (pairs_of (O.first ground.now.observer.now) (O.stands ground.now.observer.now) search.new) ground.now.threads
        search.new.seen.items) }
    ensures steps { OnOk result (AreSteps (plain_file ground.now.file.now)
        (pairs_of (O.first ground.now.observer.now) (O.stands ground.now.observer.now) search.new)
        search.new.found.nodes.items) }
    ensures once { OnOk result (StandOnce (paths_of search.new.found.nodes.items)) }
    ensures distinct { IfOk result (λ done. IsTrue done →
        AreDistinct (paths_of search.new.found.nodes.items) (at + 1) 0) }
    ensures count { IfOk result (λ done. IsTrue done → length search.new.seen.items ≡ at + 1) }
    ensures full { IfOk result (λ done. done ≡ false →
        AreFull (table_of search.new.transitions) ground.now.limit search.new.found.nodes.items) }
    ensures few { OnOk result (length search.old.found.nodes.items ≤ ground.now.limit →
        length search.new.found.nodes.items ≤ ground.now.limit) }
    ensures within { OnOk result (length search.new.seen.items ≤ length search.new.found.nodes.items) }
{
    let place = place_at(&search.found.nodes, at);
    let ended = has_setup_ended(ground.alloc, &mut search.transitions, place)?;
    let mut seen = Seen {
        acts: false,
        waits: false,
    };
    for thread in 0..ground.threads {
        let Some(looked) = look(ground, search, at, thread, ended)? else {
            return Ok(false);
        };
        seen = seen_with(seen, looked);
    }
    search.seen.push(seen)?;
    Ok(true)
}

/// Tells how many states there are, and how long the path is to the one at a place.
fn tell_progress<W: Watch>(watch: &mut W, nodes: &[Node], at: usize)
    requires { at < length nodes.now }
    ensures { GoesOn W.Since watch.old watch.new }
{
    let states = nodes.len();
    if watch.wants(states) {
        watch.note(states, count_steps(nodes, at));
    }
}

/// Looks at what each thread does at each state, and tells how many there are. Answers false where there are as many
/// states as there may be, or where their stores have over 4,194,304 objects together, before all were looked at.
fn close<O: Observer, W: Watch>(
    ground: &Ground<'_, O>,
    search: &mut Search<'_, O::Noted>,
    watch: &mut W,
) -> Result<bool, AllocError>
    requires none { search.old.seen.items ≡ [] }
    requires most { ground.now.most ≡ 0 }
    requires few { length search.old.found.nodes.items ≤ ground.now.limit }
    requires sound { IsSoundSearch (O.first ground.now.observer.now) (O.next ground.now.observer.now)
        (O.stands ground.now.observer.now) (plain_file ground.now.file.now) (plain_program ground.now.program.now)
        ground.now.threads search.old }
    requires steps { AreSteps (plain_file ground.now.file.now)
        (pairs_of (O.first ground.now.observer.now) (O.stands ground.now.observer.now) search.old)
        search.old.found.nodes.items }
    requires distinct { AreDistinct (paths_of search.old.found.nodes.items) 0 0 }
    ensures watched { GoesOn W.Since watch.old watch.new }
    ensures sound { OnOk result (IsSoundSearch (O.first ground.now.observer.now) (O.next ground.now.observer.now)
        (O.stands ground.now.observer.now) (plain_file ground.now.file.now) (plain_program ground.now.program.now)
        ground.now.threads search.new) }
    ensures keeps { OnOk result
        (Keeps (pairs_of (O.first ground.now.observer.now) (O.stands ground.now.observer.now) search.old)
        (pairs_of (O.first ground.now.observer.now) (O.stands ground.now.observer.now) search.new)) }
    ensures expanded { OnOk result (AreExpanded (O.first ground.now.observer.now) (O.next ground.now.observer.now)
        (plain_file ground.now.file.now) (plain_program ground.now.program.now)
        (pairs_of (O.first ground.now.observer.now) (O.stands ground.now.observer.now) search.new) ground.now.threads
        search.new.seen.items) }
    ensures steps { OnOk result (AreSteps (plain_file ground.now.file.now)
        (pairs_of (O.first ground.now.observer.now) (O.stands ground.now.observer.now) search.new)
        search.new.found.nodes.items) }
    ensures once { OnOk result (StandOnce (paths_of search.new.found.nodes.items)) }
    ensures all { IfOk result (λ done. IsTrue done →
        length search.new.seen.items ≡ length search.new.found.nodes.items) }
    ensures cut { IfOk result (λ done. done ≡ false →
        AreCut (table_of search.new.transitions) ground.now.limit search.new.found.nodes.items) }
    ensures few { OnOk result (length search.new.found.nodes.items ≤ ground.now.limit) }
    ensures within { OnOk result (length search.new.seen.items ≤ length search.new.found.nodes.items) }
{
    for at in 0..ground.limit {
        if at >= search.found.nodes.len() {
            return Ok(true);
        }
        tell_progress(watch, &search.found.nodes, at);
        if !expand(ground, search, at)? {
            return Ok(false);
        }
    }
    Ok(true)
}

/// The states that were found, with what was seen after the first of them, and whether these are all.
#[derive(Drop)]
pub struct Listing<'a, N> {
    pub search: Search<'a, N>,
    pub complete: bool,
}

/// Lists all states that the root leads to, by one step after another, but for names of objects. Each thread acts in
/// turn at each state that was found. At most so many states are kept, and no more where their stores have over
/// 4,194,304 objects together. While it goes on it tells how many there are. A refusal is that memory ran out, or that
/// a store, a work or a state has no number left.
pub fn list_states<'a, O: Observer, W: Watch>(
    ground: &Ground<'_, O>,
    transitions: Transitions<'a>,
    root: Root<O::Noted>,
    watch: &mut W,
) -> Result<Listing<'a, O::Noted>, AllocError>
    requires numbers { AreThere (table_of transitions) root.store root.works.items }
    requires file { (table_of transitions).file ≡ plain_file ground.now.file.now }
    requires width { length root.works.items ≡ ground.now.threads }
    requires constants { FileHasConstants (plain_file ground.now.file.now) }
    requires hides { HidesNames (O.next ground.now.observer.now) }
    requires most { ground.now.most ≡ 0 }
    requires room { 1 ≤ ground.now.limit }
    ensures watched { GoesOn W.Since watch.old watch.new }
    ensures root { IfOk result (λ l.
        slice_get (pairs_of (O.first ground.now.observer.now) (O.stands ground.now.observer.now) l.search) 0 ≡
        Some (root_of (O.stands ground.now.observer.now) (table_of transitions.entry) root)) }
    ensures sound { IfOk result (λ l. IsSoundSearch (O.first ground.now.observer.now) (O.next ground.now.observer.now)
        (O.stands ground.now.observer.now) (plain_file ground.now.file.now) (plain_program ground.now.program.now)
        ground.now.threads l.search) }
    ensures expanded { IfOk result (λ l. AreExpanded (O.first ground.now.observer.now)
        (O.next ground.now.observer.now) (plain_file ground.now.file.now) (plain_program ground.now.program.now)
        (pairs_of (O.first ground.now.observer.now) (O.stands ground.now.observer.now) l.search) ground.now.threads
        l.search.seen.items) }
    ensures steps { IfOk result (λ l. AreSteps (plain_file ground.now.file.now)
        (pairs_of (O.first ground.now.observer.now) (O.stands ground.now.observer.now) l.search)
        l.search.found.nodes.items) }
    ensures once { IfOk result (λ l. StandOnce (paths_of l.search.found.nodes.items)) }
    ensures all { IfOk result (λ l. IsTrue l.complete →
        length l.search.seen.items ≡ length l.search.found.nodes.items) }
    ensures cut { IfOk result (λ l. l.complete ≡ false →
        AreCut (table_of l.search.transitions) ground.now.limit l.search.found.nodes.items) }
    ensures few { IfOk result (λ l. length l.search.found.nodes.items ≤ ground.now.limit) }
    ensures within { IfOk result (λ l. length l.search.seen.items ≤ length l.search.found.nodes.items) }
{
    let mut search = start(ground, transitions, root)?;
    let complete = close(ground, &mut search, watch)?;
    Ok(Listing { search, complete })
}
