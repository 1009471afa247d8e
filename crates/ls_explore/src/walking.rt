// A machine that goes to where threads lead.

ghost use Rattle.std.specs.Prelude.{◌≡◌, ℕ, suc, ◌++◌, ◌∷◌, [], true, false, None, Some, IsTrue};
ghost use Rattle.ls_code.specs.declared.step.Did.TheVariants.{Silent};
ghost use Rattle.ls_machine.specs.Saved.{standing};
ghost use Rattle.ls_preservation.specs.Acting.{first_did};
ghost use Rattle.ls_explore.specs.Bursts.{IsSilentTo, burst};
ghost use Rattle.ls_explore.specs.Walks.{has_acted, is_silent, root_of, tried, walked};

use crate::links::Path;
use ls_code::step::Did;
use ls_events::schedule::Schedule;
use ls_machine::laws::runs_keep;
use ls_machine::{Machine, Saved};
use std::alloc::Global;

/// What a search goes by.
#[derive(Drop)]
pub(crate) struct Ground<'a> {
    pub(crate) alloc: Global,
    /// The setup's steps.
    pub(crate) setup: &'a Schedule,
    /// The most steps of a thread up to the one that acts.
    pub(crate) most: u64,
    /// How many threads there are, the setup with them.
    pub(crate) threads: u8,
    /// The most paths.
    pub(crate) limit: usize,
}

/// A path, and the machine to which it leads as it was saved.
#[derive(Drop)]
pub(crate) struct Place<'a> {
    pub(crate) path: Path<'a>,
    pub(crate) saved: &'a Saved,
}

/// Whether a step did nothing that another thread could notice.
fn is_silent(did: Did) -> bool
    ensures { result ≡ is_silent did }
{
    match did {
        Did::Silent => true,
        Did::Acted(_, _) | Did::Waits | Did::Idle | Did::Stopped => false,
    }
}

/// Whether a step acted.
pub(crate) fn has_acted(did: Did) -> bool
    ensures { result ≡ has_acted did }
{
    match did {
        Did::Acted(_, _) => true,
        Did::Silent | Did::Waits | Did::Idle | Did::Stopped => false,
    }
}

/// Takes a thread's steps up to and with the first that isn't silent, at most so many. Answers what the last of them
/// did.
fn try_thread(machine: &mut Machine, most: u64, thread: usize) -> Did
    ensures machine { machine.new ≡ (tried most machine.old thread).machine }
    ensures did { result ≡ (tried most machine.old thread).did }
{
    for _ in 0..most {
        let did = machine.step(thread);
        if !is_silent(did) {
            return did;
        }
    }
    Did::Silent
}

/// Takes such steps of a path's threads, one after another.
fn walk(machine: &mut Machine, most: u64, path: &Path<'_>)
    ensures { machine.new ≡ walked most machine.old path.now }
{
    for number in 0..path.len() {
        let _ = try_thread(machine, most, path.thread(number) as usize);
    }
}

/// Goes back to the start, and from there by the setup's steps.
pub(crate) fn go_back(machine: &mut Machine, ground: &Ground<'_>)
    ensures at { machine.new ≡ root_of machine.old ground.now.setup.now }
    ensures code { machine.new.code ≡ machine.old.code }
    ensures cells { machine.new.cells.limit ≡ machine.old.cells.limit }
{
    runs_keep();
    machine.set_back();
    machine.run(ground.setup);
}

/// Goes to where a path leads: takes what was saved there, or else goes along the path.
pub(crate) fn stand(machine: &mut Machine, ground: &Ground<'_>, place: &Place<'_>)
    requires { place.now.saved.now ≡
        standing (walked ground.now.most (root_of machine.old ground.now.setup.now) place.now.path) }
    ensures at { machine.new ≡ walked ground.now.most (root_of machine.old ground.now.setup.now) place.now.path }
    ensures code { machine.new.code ≡ machine.old.code }
    ensures cells { machine.new.cells.limit ≡ machine.old.cells.limit }
{
    if machine.set_as(place.saved) {
        return;
    }
    go_back(machine, ground);
    walk(machine, ground.most, &place.path);
}

/// Goes to where a path leads, and then takes a thread's steps up to and with the first that isn't silent, at most so
/// many. Answers what the last of them did.
fn advance(
    machine: &mut Machine,
    ground: &Ground<'_>,
    count: u64,
    place: &Place<'_>,
    thread: u8,
) -> Did
    requires { place.now.saved.now ≡
        standing (walked ground.now.most (root_of machine.old ground.now.setup.now) place.now.path) }
    ensures machine { machine.new ≡
        (tried count (walked ground.now.most (root_of machine.old ground.now.setup.now) place.now.path)
        thread).machine }
    ensures did { result ≡
        (tried count (walked ground.now.most (root_of machine.old ground.now.setup.now) place.now.path) thread).did }
    ensures code { machine.new.code ≡ machine.old.code }
    ensures cells { machine.new.cells.limit ≡ machine.old.cells.limit }
{
    stand(machine, ground, place);
    try_thread(machine, count, thread as usize)
}

/// How many silent steps a thread is given before it is asked whether it waits, and how many to come back where it
/// stood.
const FEW: u64 = 64;

/// Takes so many steps of a thread, as long as they are silent. Answers whether they all are.
fn go_silently(machine: &mut Machine, count: u64, thread: usize) -> bool
    ensures silent { IsTrue result → IsSilentTo count machine.old thread machine.new }
    ensures code { machine.new.code ≡ machine.old.code }
    ensures cells { machine.new.cells.limit ≡ machine.old.cells.limit }
{
    for _ in 0..count {
        let did = machine.step(thread);
        if !is_silent(did) {
            return false;
        }
    }
    true
}

/// Whether a thread comes back in so many silent steps to where the other machine stands. True only where it does.
fn comes_back(machine: &mut Machine, other: &Machine, count: u64, thread: usize) -> bool
    requires { machine.old.code ≡ other.now.code }
    ensures back { IsTrue result → (d : ℕ) × IsSilentTo (suc d) machine.old thread other.now }
    ensures code { machine.new.code ≡ machine.old.code }
    ensures cells { machine.new.cells.limit ≡ machine.old.cells.limit }
{
    for _ in 0..count {
        if !go_silently(machine, 1, thread) {
            return false;
        }
        if machine.is_same(other) {
            return true;
        }
    }
    false
}

/// Whether a thread never acts after a path on which it has taken so many silent steps: it comes back in silence to
/// where it stood. True only if it is so.
fn goes_round(
    machine: &mut Machine,
    other: &mut Machine,
    ground: &Ground<'_>,
    count: u64,
    place: &Place<'_>,
    thread: u8,
) -> bool
    requires code { machine.old.code ≡ other.old.code }
    requires saves { place.now.saved.now ≡
        standing (walked ground.now.most (root_of other.old ground.now.setup.now) place.now.path) }
    requires silent { IsSilentTo count (walked ground.now.most (root_of other.old ground.now.setup.now) place.now.path)
        thread machine.old }
    ensures never { IsTrue result → (n : ℕ) →
        (burst n (walked ground.now.most (root_of other.old ground.now.setup.now) place.now.path) thread ≡ None) ×
        (first_did n (walked ground.now.most (root_of other.old ground.now.setup.now) place.now.path) thread ≡ Silent) }
    ensures code { machine.new.code ≡ machine.old.code }
    ensures cells { machine.new.cells.limit ≡ machine.old.cells.limit }
    ensures other_code { other.new.code ≡ other.old.code }
    ensures other_cells { other.new.cells.limit ≡ other.old.cells.limit }
{
    stand(other, ground, place);
    if !go_silently(other, count, thread as usize) {
        return false;
    }
    comes_back(machine, other, FEW, thread as usize)
}

/// What a thread does after a path that isn't silent, in as many steps as one may take that acts. Where it acts, the
/// machine stands after that.
pub(crate) fn see(
    machine: &mut Machine,
    other: &mut Machine,
    ground: &Ground<'_>,
    place: &Place<'_>,
    thread: u8,
) -> Did
    requires code { machine.old.code ≡ other.old.code }
    requires cells { machine.old.cells.limit ≡ other.old.cells.limit }
    requires saves { place.now.saved.now ≡
        standing (walked ground.now.most (root_of machine.old ground.now.setup.now) place.now.path) }
    ensures did { result ≡
        first_did ground.now.most (walked ground.now.most (root_of machine.old ground.now.setup.now) place.now.path)
        thread }
    ensures acts { has_acted result ≡ true →
        burst ground.now.most (walked ground.now.most (root_of machine.old ground.now.setup.now) place.now.path) thread
        ≡ Some machine.new }
    ensures at { has_acted result ≡ true →
        machine.new ≡ walked ground.now.most (root_of machine.old ground.now.setup.now) (place.now.path ++ thread ∷
        []) }
    ensures none { has_acted result ≡ false →
        burst ground.now.most (walked ground.now.most (root_of machine.old ground.now.setup.now) place.now.path) thread
        ≡ None }
    ensures code { machine.new.code ≡ machine.old.code }
    ensures cells { machine.new.cells.limit ≡ machine.old.cells.limit }
    ensures other_code { other.new.code ≡ other.old.code }
    ensures other_cells { other.new.cells.limit ≡ other.old.cells.limit }
{
    let few = ground.most.min(FEW);
    let did = advance(machine, ground, few, place, thread);
    if !is_silent(did) {
        return did;
    }
    if goes_round(machine, other, ground, few, place, thread) {
        return Did::Silent;
    }
    advance(machine, ground, ground.most, place, thread)
}
