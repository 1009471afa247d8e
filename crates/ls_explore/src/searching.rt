// The search for all that threads lead to.

ghost use Rattle.std.specs.Prelude.{◌≡◌, ℕ, ◌<◌, ◌≤◌, ◌+◌, ◌⊎◌, ◌++◌, [], ◌∷◌, false, length, IfNone, IfOk, IfSome};
ghost use Rattle.std.specs.Prelude.{OnOk, IsErrOf, IsTrue, Contains, slice_index_or};
ghost use Rattle.ls_code.specs.Machine.{Machine as MachineValue, loaded};
ghost use Rattle.ls_machine.specs.Room.{AreBadCells};
ghost use Rattle.ls_machine.specs.Saved.{standing};
ghost use Rattle.ls_preservation.specs.Acting.{first_did};
ghost use Rattle.ls_explore.specs.Bursts.{IsClosed};
ghost use Rattle.ls_explore.specs.Walks.{led_to, root_of, walked};
ghost use Rattle.ls_explore.specs.Watching.{GoesOn};
ghost use Rattle.ls_explore.specs.Searches.{AllAct, AreDistinct, AreSaved, Grows, IsClosedTo, IsSound, Leads};
ghost use Rattle.ls_explore.specs.Searches.{StandOnce, paths_of, seen_with};

use crate::hashing::number_of;
use crate::links::{Link, Path};
use crate::walking::{Ground, Place, go_back, has_acted, see};
use ls_code::code::Code;
use ls_code::step::{Did, is_stop};
use ls_machine::{Interner, LoadFault, Machine, Saved};
use ls_machine_moves::hashing::hashed;
use ls_source_rows::Watch;
use ls_transitions::hash_index::HashIndex;
use std::alloc::{AllocError, Global};

/// What is seen of all threads after a path: whether one of them acts, and whether one of them would stop the machine
/// for want of cells.
#[derive(Copy)]
pub(crate) struct Seen {
    pub(crate) acts: bool,
    pub(crate) stops: bool,
}

impl Clone for Seen {
    fn clone(&self) -> Result<Seen, AllocError> {
        Ok(*self)
    }
}

/// What is seen with one more thread.
fn seen_with(seen: Seen, did: Did) -> Seen
    ensures { result ≡ seen_with seen did }
{
    Seen {
        acts: seen.acts || has_acted(did),
        stops: seen.stops || is_stop(did),
    }
}

/// The paths so far, the machines that they lead to as they were saved, and what is seen after the first of them. For a
/// number that is made of the machine to which one leads, the places where that path may be; nothing rests on those.
#[derive(Drop)]
pub(crate) struct Nodes {
    pub(crate) paths: Vec<Link>,
    pub(crate) saved: Vec<Saved>,
    pub(crate) seen: Vec<Seen>,
    shelf: Interner,
    hints: HashIndex,
}

/// A number made of a machine.
fn hash_of_machine(machine: &Machine) -> u64 {
    hashed(machine.hash(), number_of(machine.history()))
}

/// Whether a machine is the one that was saved at a place. True only where it is.
fn is_there(machine: &Machine, saved: &[Saved], place: usize) -> bool
    ensures { IsTrue result → Contains saved.now (standing machine.now) }
{
    place < saved.len() && machine.is_saved(&saved[place])
}

impl Nodes {
    /// The empty path alone, which leads to this machine.
    fn new(alloc: Global, machine: &Machine) -> Result<Nodes, AllocError>
        ensures paths { IfOk result (λ nodes. paths_of nodes.paths.items ≡ [] ∷ []) }
        ensures saved { IfOk result (λ nodes. nodes.saved.items ≡ standing machine.now ∷ []) }
        ensures seen { IfOk result (λ nodes. nodes.seen.items ≡ []) }
    {
        let mut shelf = Interner::new(alloc);
        let first = machine.saved(alloc, &mut shelf, number_of(machine.history()))?;
        let mut saved = Vec::new(alloc);
        saved.push(first)?;
        let mut paths = Vec::new(alloc);
        paths.push(Link::first())?;
        let mut hints = HashIndex::new(alloc);
        hints.add(alloc, hash_of_machine(machine))?;
        Ok(Nodes {
            paths,
            saved,
            seen: Vec::new(alloc),
            shelf,
            hints,
        })
    }

    /// Whether a machine of this number was saved. True only where it was.
    fn has(&self, machine: &Machine, number: u64) -> bool
        ensures { IsTrue result → Contains self.now.saved.items (standing machine.now) }
    {
        let mut hint = self.hints.last(number);
        for _ in 0..self.hints.len() {
            let Some(place) = hint else {
                return false;
            };
            if is_there(machine, self.saved.as_slice(), place) {
                return true;
            }
            hint = self.hints.before(place);
        }
        false
    }

    /// Keeps the path at a place and one more thread, which leads to this machine of this number. Answers false where
    /// there are as many paths as there may be.
    fn keep(
        &mut self,
        ground: &Ground<'_>,
        at: usize,
        thread: u8,
        machine: &Machine,
        number: u64,
    ) -> Result<bool, AllocError>
        requires { at < length self.old.paths.items }
        ensures seen { self.new.seen.items ≡ self.old.seen.items }
        ensures full { IfOk result (λ kept. kept ≡ false → self.new.paths.items ≡ self.old.paths.items) }
        ensures cut { IfOk result (λ kept. kept ≡ false → ground.now.limit ≤ length self.new.paths.items) }
        ensures few { OnOk result (length self.old.paths.items ≤ ground.now.limit →
            length self.new.paths.items ≤ ground.now.limit) }
        ensures grown { OnOk result ((paths_of self.new.paths.items ≡ paths_of self.old.paths.items) ⊎
            (paths_of self.new.paths.items ≡ paths_of self.old.paths.items ++
            (slice_index_or (paths_of self.old.paths.items) at [] ++ thread ∷ []) ∷ [])) }
        ensures saved { OnOk result ((n : ℕ) (root : MachineValue) →
            machine.now ≡ walked n root (slice_index_or (paths_of self.old.paths.items) at [] ++ thread ∷ []) →
            AreSaved n root (paths_of self.old.paths.items) self.old.saved.items →
            AreSaved n root (paths_of self.new.paths.items) self.new.saved.items) }
        ensures kept { IfOk result (λ kept. IsTrue kept → paths_of self.new.paths.items ≡ paths_of self.old.paths.items
            ++ (slice_index_or (paths_of self.old.paths.items) at [] ++ thread ∷ []) ∷ []) }
    {
        let count = self.paths.len();
        if count >= ground.limit {
            return Ok(false);
        }
        let link = Link::new(at, thread);
        let history = number_of(machine.history());
        let saved = machine.saved(ground.alloc, &mut self.shelf, history)?;
        self.hints.add(ground.alloc, number)?;
        self.paths.push(link)?;
        self.saved.push(saved)?;
        Ok(true)
    }
}

/// Looks at what a thread does after the path at a place. If no path leads to the machine after that yet, the path
/// and the thread are kept. Answers what the thread does, or nothing if there are as many paths as there may be.
fn look(
    walker: &mut Machine,
    other: &mut Machine,
    ground: &Ground<'_>,
    nodes: &mut Nodes,
    at: usize,
    thread: u8,
) -> Result<Option<Did>, AllocError>
    requires at { at < length nodes.old.paths.items }
    requires code { walker.old.code ≡ other.old.code }
    requires cells { walker.old.cells.limit ≡ other.old.cells.limit }
    requires saves { AreSaved ground.now.most (root_of walker.old ground.now.setup.now) (paths_of nodes.old.paths.items)
        nodes.old.saved.items }
    ensures saves { OnOk result
        (AreSaved ground.now.most (root_of walker.old ground.now.setup.now) (paths_of nodes.new.paths.items)
        nodes.new.saved.items) }
    ensures grows { OnOk result (Grows (paths_of nodes.old.paths.items) (paths_of nodes.new.paths.items)) }
    ensures acts { OnOk result
        (AllAct ground.now.most (root_of walker.old ground.now.setup.now) (paths_of nodes.old.paths.items) →
        AllAct ground.now.most (root_of walker.old ground.now.setup.now) (paths_of nodes.new.paths.items)) }
    ensures leads { IfOk result
        (λ found. IfSome found
        (λ did. Leads ground.now.most (root_of walker.old ground.now.setup.now) (paths_of nodes.new.paths.items)
        (slice_index_or (paths_of nodes.old.paths.items) at []) thread)) }
    ensures did { IfOk result
        (λ found. IfSome found
        (λ did. did ≡
        first_did ground.now.most
        (walked ground.now.most (root_of walker.old ground.now.setup.now)
        (slice_index_or (paths_of nodes.old.paths.items) at [])) thread)) }
    ensures distinct { OnOk result (AreDistinct (paths_of nodes.old.paths.items) at thread →
        AreDistinct (paths_of nodes.new.paths.items) at (thread + 1)) }
    ensures cut { IfOk result (λ found. IfNone found (ground.now.limit ≤ length nodes.new.paths.items)) }
    ensures few { OnOk result (length nodes.old.paths.items ≤ ground.now.limit →
        length nodes.new.paths.items ≤ ground.now.limit) }
    ensures seen { nodes.new.seen.items ≡ nodes.old.seen.items }
    ensures walker_code { walker.new.code ≡ walker.old.code }
    ensures walker_cells { walker.new.cells.limit ≡ walker.old.cells.limit }
    ensures other_code { other.new.code ≡ other.old.code }
    ensures other_cells { other.new.cells.limit ≡ other.old.cells.limit }
{
    let place = Place {
        path: Path::new(nodes.paths.as_slice(), at),
        saved: &nodes.saved[at],
    };
    let did = see(walker, other, ground, &place, thread);
    if !has_acted(did) {
        return Ok(Some(did));
    }
    let number = hash_of_machine(walker);
    if nodes.has(walker, number) {
        return Ok(Some(did));
    }
    if !nodes.keep(ground, at, thread, walker, number)? {
        return Ok(None);
    }
    Ok(Some(did))
}

/// Looks at what each thread does after the path at a place. Answers false where there are as many paths as there may
/// be.
fn expand(
    walker: &mut Machine,
    other: &mut Machine,
    ground: &Ground<'_>,
    nodes: &mut Nodes,
    at: usize,
) -> Result<bool, AllocError>
    requires at { at < length nodes.old.paths.items }
    requires count { length nodes.old.seen.items ≡ at }
    requires code { walker.old.code ≡ other.old.code }
    requires cells { walker.old.cells.limit ≡ other.old.cells.limit }
    requires saves { AreSaved ground.now.most (root_of walker.old ground.now.setup.now) (paths_of nodes.old.paths.items)
        nodes.old.saved.items }
    requires sound { IsSound ground.now.most ground.now.threads (root_of walker.old ground.now.setup.now)
        (paths_of nodes.old.paths.items) nodes.old.seen.items }
    requires closed { IsClosedTo ground.now.most ground.now.threads (root_of walker.old ground.now.setup.now)
        (paths_of nodes.old.paths.items) at 0 }
    requires distinct { AreDistinct (paths_of nodes.old.paths.items) at 0 }
    ensures distinct { OnOk result (AreDistinct (paths_of nodes.new.paths.items) (at + 1) 0) }
    ensures cut { IfOk result (λ found. found ≡ false → ground.now.limit ≤ length nodes.new.paths.items) }
    ensures few { OnOk result (length nodes.old.paths.items ≤ ground.now.limit →
        length nodes.new.paths.items ≤ ground.now.limit) }
    ensures saves { OnOk result
        (AreSaved ground.now.most (root_of walker.old ground.now.setup.now) (paths_of nodes.new.paths.items)
        nodes.new.saved.items) }
    ensures sound { OnOk result
        (IsSound ground.now.most ground.now.threads (root_of walker.old ground.now.setup.now)
        (paths_of nodes.new.paths.items) nodes.new.seen.items) }
    ensures count { IfOk result (λ found. IsTrue found → length nodes.new.seen.items ≡ at + 1) }
    ensures closed { IfOk result (λ found. IsTrue found →
        IsClosedTo ground.now.most ground.now.threads (root_of walker.old ground.now.setup.now)
        (paths_of nodes.new.paths.items) (at + 1) 0) }
    ensures walker_code { walker.new.code ≡ walker.old.code }
    ensures walker_cells { walker.new.cells.limit ≡ walker.old.cells.limit }
    ensures other_code { other.new.code ≡ other.old.code }
    ensures other_cells { other.new.cells.limit ≡ other.old.cells.limit }
{
    let mut seen = Seen {
        acts: false,
        stops: false,
    };
    for thread in 0..ground.threads {
        let Some(did) = look(walker, other, ground, nodes, at, thread)? else {
            return Ok(false);
        };
        seen = seen_with(seen, did);
    }
    nodes.seen.push(seen)?;
    Ok(true)
}

/// Tells how many paths there are, and how long the one at a place is.
fn tell_progress<W: Watch>(watch: &mut W, nodes: &Nodes, at: usize)
    requires { at < length nodes.now.paths.items }
    ensures { GoesOn W.Since watch.old watch.new }
{
    let states = nodes.paths.len();
    if watch.wants(states) {
        watch.note(states, Path::new(nodes.paths.as_slice(), at).len());
    }
}

/// Looks at what each thread does after each path, and tells how many paths there are. Answers false where there are as
/// many paths as there may be.
fn close<W: Watch>(
    walker: &mut Machine,
    other: &mut Machine,
    ground: &Ground<'_>,
    nodes: &mut Nodes,
    watch: &mut W,
) -> Result<bool, AllocError>
    requires code { walker.old.code ≡ other.old.code }
    requires cells { walker.old.cells.limit ≡ other.old.cells.limit }
    requires saves { AreSaved ground.now.most (root_of walker.old ground.now.setup.now) (paths_of nodes.old.paths.items)
        nodes.old.saved.items }
    requires none { nodes.old.seen.items ≡ [] }
    requires sound { IsSound ground.now.most ground.now.threads (root_of walker.old ground.now.setup.now)
        (paths_of nodes.old.paths.items) nodes.old.seen.items }
    requires distinct { AreDistinct (paths_of nodes.old.paths.items) 0 0 }
    ensures watched { GoesOn W.Since watch.old watch.new }
    ensures once { OnOk result (StandOnce (paths_of nodes.new.paths.items)) }
    ensures cut { IfOk result (λ found. found ≡ false → ground.now.limit ≤ length nodes.new.paths.items) }
    ensures few { OnOk result (length nodes.old.paths.items ≤ ground.now.limit →
        length nodes.new.paths.items ≤ ground.now.limit) }
    ensures saves { OnOk result
        (AreSaved ground.now.most (root_of walker.old ground.now.setup.now) (paths_of nodes.new.paths.items)
        nodes.new.saved.items) }
    ensures sound { OnOk result
        (IsSound ground.now.most ground.now.threads (root_of walker.old ground.now.setup.now)
        (paths_of nodes.new.paths.items) nodes.new.seen.items) }
    ensures count { IfOk result (λ found. IsTrue found →
        length nodes.new.seen.items ≡ length (paths_of nodes.new.paths.items)) }
    ensures closed { IfOk result (λ found. IsTrue found →
        IsClosed ground.now.most ground.now.threads
        (led_to ground.now.most (root_of walker.old ground.now.setup.now) (paths_of nodes.new.paths.items))) }
    ensures walker_code { walker.new.code ≡ walker.old.code }
    ensures walker_cells { walker.new.cells.limit ≡ walker.old.cells.limit }
    ensures other_code { other.new.code ≡ other.old.code }
    ensures other_cells { other.new.cells.limit ≡ other.old.cells.limit }
{
    for at in 0..ground.limit {
        if at >= nodes.paths.len() {
            return Ok(true);
        }
        tell_progress(watch, nodes, at);
        if !expand(walker, other, ground, nodes, at)? {
            return Ok(false);
        }
    }
    Ok(nodes.paths.len() <= ground.limit)
}

/// What a search has found: paths, the machines that they lead to as they were saved, what is seen after the first of
/// them, and whether they are all.
#[derive(Drop)]
pub(crate) struct Searched {
    pub(crate) paths: Vec<Link>,
    pub(crate) saved: Vec<Saved>,
    pub(crate) seen: Vec<Seen>,
    pub(crate) complete: bool,
}

/// Looks for all that the threads lead to from the machine after the setup. The shortest paths come first, and of
/// those of one length the least. Two machines of the same code and number of cells take turns.
fn search<W: Watch>(
    walker: &mut Machine,
    other: &mut Machine,
    ground: &Ground<'_>,
    watch: &mut W,
) -> Result<Searched, AllocError>
    requires code { walker.old.code ≡ other.old.code }
    requires cells { walker.old.cells.limit ≡ other.old.cells.limit }
    ensures watched { GoesOn W.Since watch.old watch.new }
    ensures once { IfOk result (λ found. StandOnce (paths_of found.paths.items)) }
    ensures cut { IfOk result (λ found. found.complete ≡ false → ground.now.limit ≤ length found.paths.items) }
    ensures few { IfOk result (λ found. 1 ≤ ground.now.limit → length found.paths.items ≤ ground.now.limit) }
    ensures saves { IfOk result
        (λ found. AreSaved ground.now.most (root_of walker.old ground.now.setup.now) (paths_of found.paths.items)
        found.saved.items) }
    ensures sound { IfOk result
        (λ found. IsSound ground.now.most ground.now.threads (root_of walker.old ground.now.setup.now)
        (paths_of found.paths.items) found.seen.items) }
    ensures count { IfOk result (λ found. IsTrue found.complete →
        length found.seen.items ≡ length (paths_of found.paths.items)) }
    ensures closed { IfOk result (λ found. IsTrue found.complete →
        IsClosed ground.now.most ground.now.threads
        (led_to ground.now.most (root_of walker.old ground.now.setup.now) (paths_of found.paths.items))) }
    ensures code { walker.new.code ≡ walker.old.code }
    ensures cells { walker.new.cells.limit ≡ walker.old.cells.limit }
{
    go_back(other, ground);
    let mut nodes = Nodes::new(ground.alloc, other)?;
    let complete = close(walker, other, ground, &mut nodes, watch)?;
    let Nodes {
        paths,
        saved,
        seen,
        shelf: _,
        hints: _,
    } = nodes;
    Ok(Searched {
        paths,
        saved,
        seen,
        complete,
    })
}

/// The same, where the other machine is made here, of this code and on so many cells.
pub(crate) fn search_with<W: Watch>(
    walker: &mut Machine,
    code: &Code,
    cells: usize,
    ground: &Ground<'_>,
    watch: &mut W,
) -> Result<Searched, LoadFault>
    requires loaded { walker.old ≡ loaded code.now cells }
    ensures bad { IsErrOf result LoadFault.BadCells → AreBadCells code.now.names cells }
    ensures watched { GoesOn W.Since watch.old watch.new }
    ensures once { IfOk result (λ found. StandOnce (paths_of found.paths.items)) }
    ensures cut { IfOk result (λ found. found.complete ≡ false → ground.now.limit ≤ length found.paths.items) }
    ensures few { IfOk result (λ found. 1 ≤ ground.now.limit → length found.paths.items ≤ ground.now.limit) }
    ensures saves { IfOk result
        (λ found. AreSaved ground.now.most (root_of walker.old ground.now.setup.now) (paths_of found.paths.items)
        found.saved.items) }
    ensures sound { IfOk result
        (λ found. IsSound ground.now.most ground.now.threads (root_of walker.old ground.now.setup.now)
        (paths_of found.paths.items) found.seen.items) }
    ensures count { IfOk result (λ found. IsTrue found.complete →
        length found.seen.items ≡ length (paths_of found.paths.items)) }
    ensures closed { IfOk result (λ found. IsTrue found.complete →
        IsClosed ground.now.most ground.now.threads
        (led_to ground.now.most (root_of walker.old ground.now.setup.now) (paths_of found.paths.items))) }
    ensures code { walker.new.code ≡ walker.old.code }
    ensures cells { walker.new.cells.limit ≡ walker.old.cells.limit }
{
    let mut other = Machine::load(ground.alloc, code, cells)?;
    let found = search(walker, &mut other, ground, watch)?;
    Ok(found)
}
