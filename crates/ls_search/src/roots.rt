// Where a search begins, and whether a state is bad.

ghost use Rattle.std.specs.Prelude.{◌≡◌, ◌<◌, ◌∷◌, [], IfOk, length, map, slice_index_or};
ghost use Rattle.ls_checked.specs.Plain.{plain_file};
ghost use Rattle.ls_checked.specs.PlainProgram.{plain_program};
ghost use Rattle.ls_meaning.specs.Constants.{FileHasConstants};
ghost use Rattle.ls_transitions.specs.Seen.{table_of};
ghost use Rattle.ls_search.specs.Places.{AreThere};
ghost use Rattle.ls_search.specs.Searched.{HidesNames};
ghost use Rattle.ls_search.specs.SeenSearch.{IsSoundSearch, pairs_of};
ghost use Rattle.ls_search.specs.Answers.{root_of};

use crate::keeping::Nodes;
use crate::noting::{Pool, keep_noted};
use crate::places::{Node, NumberedState};
use crate::searching::{Ground, Search};
use ls_observers::observer::Observer;
use ls_renaming::renumbering::Renumbering;
use ls_transitions::transitions::Transitions;
use std::alloc::AllocError;

/// Where a search begins: the numbers of the store and of each thread's work, and what is noted.
#[derive(Drop)]
pub struct Root<N> {
    pub store: usize,
    pub works: Vec<usize>,
    pub noted: N,
}

/// Whether what is noted at a state is bad.
pub(crate) fn is_bad_at<O: Observer>(
    observer: &O,
    pool: &Pool<O::Noted>,
    place: &NumberedState,
) -> bool
    requires { place.now.noted < length pool.now.values.items }
    ensures { result ≡ O.bad observer.now
        (slice_index_or (map (O.stands observer.now) pool.now.values.items) place.now.noted (O.first observer.now)) }
{
    observer.is_bad(&pool.values[place.noted])
}

/// A search that has found only where it begins.
pub(crate) fn start<'a, O: Observer>(
    ground: &Ground<'_, O>,
    transitions: Transitions<'a>,
    root: Root<O::Noted>,
) -> Result<Search<'a, O::Noted>, AllocError>
    requires numbers { AreThere (table_of transitions) root.store root.works.items }
    requires file { (table_of transitions).file ≡ plain_file ground.now.file.now }
    requires width { length root.works.items ≡ ground.now.threads }
    requires constants { FileHasConstants (plain_file ground.now.file.now) }
    requires hides { HidesNames (O.next ground.now.observer.now) }
    ensures sound { IfOk result (λ s. IsSoundSearch (O.first ground.now.observer.now) (O.next ground.now.observer.now)
        (O.stands ground.now.observer.now) (plain_file ground.now.file.now) (plain_program ground.now.program.now)
        ground.now.threads s) }
    ensures seen { IfOk result (λ s. s.seen.items ≡ []) }
    ensures one { IfOk result (λ s. length s.found.nodes.items ≡ 1) }
    ensures root { IfOk result (λ s.
        pairs_of (O.first ground.now.observer.now) (O.stands ground.now.observer.now) s ≡
        root_of (O.stands ground.now.observer.now) (table_of transitions.entry) root ∷ []) }
{
    let Root {
        store,
        works,
        noted,
    } = root;
    let mut pool = Pool::new(ground.alloc);
    let noted = keep_noted(ground.alloc, ground.observer, &mut pool, noted)?;
    let place = NumberedState {
        store,
        works,
        noted,
    };
    let node = Node {
        place,
        before: 0,
        thread: 0,
        steps: 0,
    };
    let found = Nodes::first(ground.alloc, &transitions, node)?;
    Ok(Search {
        transitions,
        renumbering: Renumbering::new(ground.alloc),
        pool,
        found,
        seen: Vec::new(ground.alloc),
    })
}
