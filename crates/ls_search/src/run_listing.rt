// The list of all states from where the setup leads to.

ghost use Rattle.std.specs.Prelude.{◌≡◌, ◌≤◌, IfOk, IsTrue, Some, [], false, length, replicate, slice_get};
ghost use Rattle.ls_checked.specs.Plain.{plain_file};
ghost use Rattle.ls_checked.specs.PlainProgram.{plain_program};
ghost use Rattle.ls_search_laws.specs.Noticing.{noticed_of};
ghost use Rattle.ls_search_laws.specs.Stepping.{SetsUp};
ghost use Rattle.ls_transitions.specs.Seen.{table_of};
ghost use Rattle.ls_search.specs.Listed.{AreCut, AreSteps, StandOnce, paths_of};
ghost use Rattle.ls_search.specs.Searched.{AreExpanded, HidesNames};
ghost use Rattle.ls_search.specs.SeenSearch.{IsSoundSearch, pairs_of};
ghost use Rattle.ls_search.specs.Watching.{GoesOn};

use crate::listing::{Listing, list_states};
use crate::running::{Prepared, prepare};
use crate::searching::Ground;
use crate::watching::Watch;
use ls_checked::program::Program;
use ls_checked::tree::File;
use ls_observers::observer::Observer;
use ls_renaming::constants::file_has_constants;
use std::alloc::{AllocError, Global};

/// The states that threads lead to from where the setup leads to, and by how many of its steps.
#[derive(Drop)]
pub struct RunListing<'a, N> {
    pub setup: usize,
    pub listing: Listing<'a, N>,
}

/// How far a listing goes: how many steps of the setup are run at the most, and how many states are kept at the most.
#[derive(Copy)]
pub struct Reach {
    pub steps: usize,
    pub states: usize,
}

impl Clone for Reach {
    fn clone(&self) -> Result<Reach, AllocError> {
        Ok(*self)
    }
}

/// Runs the setup as long as it acts, and lists all states that threads lead to from there. At most so many states are
/// kept, and no more where their stores have over 4,194,304 objects together. While it goes on it tells how many there
/// are. A refusal is that memory ran out, that a store, a work or a state has no number left, or that a constant of the
/// file names an object, which none does of a file that was read.
pub fn list_run<'a, O: Observer, W: Watch>(
    alloc: Global,
    observer: &O,
    file: &'a File,
    program: &'a Program,
    reach: Reach,
    watch: &mut W,
) -> Result<RunListing<'a, O::Noted>, AllocError>
    requires room { 1 ≤ reach.states }
    requires hides { HidesNames (O.next observer.now) }
    ensures watched { GoesOn W.Since watch.old watch.new }
    ensures up { IfOk result (λ r. SetsUp (plain_file file.now) (plain_program program.now) r.setup) }
    ensures root { IfOk result (λ r.
        slice_get (pairs_of (O.first observer.now) (O.stands observer.now) r.listing.search) 0 ≡
        Some (noticed_of (O.first observer.now) (O.next observer.now) (plain_file file.now) (plain_program program.now)
        (replicate r.setup 0))) }
    ensures sound { IfOk result (λ r. IsSoundSearch (O.first observer.now) (O.next observer.now)
        (O.stands observer.now) (plain_file file.now) (plain_program program.now)
        (length (plain_program program.now).threads) r.listing.search) }
    ensures expanded { IfOk result (λ r. AreExpanded (O.first observer.now) (O.next observer.now)
        (plain_file file.now) (plain_program program.now)
        (pairs_of (O.first observer.now) (O.stands observer.now) r.listing.search)
        (length (plain_program program.now).threads) r.listing.search.seen.items) }
    ensures steps { IfOk result (λ r. AreSteps (plain_file file.now)
        (pairs_of (O.first observer.now) (O.stands observer.now) r.listing.search)
        r.listing.search.found.nodes.items) }
    ensures once { IfOk result (λ r. StandOnce (paths_of r.listing.search.found.nodes.items)) }
    ensures all { IfOk result (λ r. IsTrue r.listing.complete →
        length r.listing.search.seen.items ≡ length r.listing.search.found.nodes.items) }
    ensures cut { IfOk result (λ r. r.listing.complete ≡ false →
        AreCut (table_of r.listing.search.transitions) reach.states r.listing.search.found.nodes.items) }
    ensures few { IfOk result (λ r. length r.listing.search.found.nodes.items ≤ reach.states) }
    ensures within { IfOk result (λ r.
        length r.listing.search.seen.items ≤ length r.listing.search.found.nodes.items) }
{
    if !file_has_constants(file) {
        return Err(AllocError);
    }
    let Prepared {
        steps,
        transitions,
        root,
    } = prepare(alloc, observer, file, program, reach.steps)?;
    let ground = Ground {
        alloc,
        observer,
        file,
        program,
        threads: program.threads.len() as u8,
        limit: reach.states,
        most: 0,
    };
    let listing = list_states(&ground, transitions, root, watch)?;
    Ok(RunListing {
        setup: steps,
        listing,
    })
}
