// Paths as links, each to a path before it.

ghost use Rattle.std.specs.Prelude.{◌≡◌, ◌<◌, ◌∷◌, ◌++◌, [], IfNone, IfOk, IfSome, length, slice_index, slice_index_or};
ghost use Rattle.ls_explore.specs.Paths.{paths_of};

use std::alloc::{AllocError, Global};
use std::marker::Model;

/// A path in little memory: the one at an earlier place and one more thread. Where no path is there yet, it is the
/// empty path.
#[derive(Copy)]
pub(crate) struct Link {
    before: usize,
    thread: u8,
}

impl Clone for Link {
    fn clone(&self) -> Result<Link, AllocError> {
        Ok(*self)
    }
}

impl Link {
    /// The empty path, where it is the first.
    pub(crate) fn first() -> Link
        ensures { result ≡ record { before = 0; thread = 0 } }
    {
        Link {
            before: 0,
            thread: 0,
        }
    }

    /// The path at a place and one more thread.
    pub(crate) fn new(at: usize, thread: u8) -> Link
        ensures { result ≡ record { before = at; thread = thread } }
    {
        Link { before: at, thread }
    }
}

/// The last step of a path: the place of the path before it, and its thread.
#[derive(Copy)]
struct Step {
    before: usize,
    thread: u8,
}

impl Clone for Step {
    fn clone(&self) -> Result<Step, AllocError> {
        Ok(*self)
    }
}

/// The last step of the path at a place, where it isn't empty.
fn last_step(links: &[Link], at: usize) -> Option<Step>
    requires { at < length links.now }
    ensures before { IfSome result (λ s. s.before < at) }
    ensures some { IfSome result (λ s. slice_index_or (paths_of links.now) at []
        ≡ slice_index_or (paths_of links.now) s.before [] ++ s.thread ∷ []) }
    ensures none { IfNone result (slice_index_or (paths_of links.now) at [] ≡ []) }
{
    let link = links[at];
    let before = link.before;
    if before >= at {
        return None;
    }
    Some(Step {
        before,
        thread: link.thread,
    })
}

/// A path: the one at a place among links.
#[derive(Drop)]
pub(crate) struct Path<'a> {
    links: &'a [Link],
    at: usize,
}

impl<'a> Model for Path<'a> {
    ghost use Rattle.std.specs.Prelude.{◌<◌, ℕ, List, [], length, slice_index_or};
    ghost use Rattle.ls_explore.specs.Paths.{paths_of};

    ghost Value = { List ℕ };

    ghost view = { λ p. slice_index_or (paths_of p.links.now) p.at [] };

    ghost invariant = { λ p. p.at < length p.links.now };
}

impl<'a> Path<'a> {
    /// The path at a place.
    pub(crate) fn new(links: &'a [Link], at: usize) -> Path<'a>
        requires { at < length links.now }
        ensures { result ≡ slice_index_or (paths_of links.now) at [] }
    {
        Path { links, at }
    }

    /// How many threads it has.
    pub(crate) fn len(&self) -> usize
        ensures { result ≡ length self.now }
    {
        let links = self.links;
        let mut at = self.at;
        let mut count = 0;
        while let Some(last) = last_step(links, at) {
            at = last.before;
            count += 1;
        }
        count
    }

    /// The thread at a place in it.
    pub(crate) fn thread(&self, number: usize) -> u8
        requires { number < length self.now }
        ensures { result ≡ slice_index self.now number }
    {
        let links = self.links;
        let mut at = self.at;
        for _ in 0..self.len() - 1 - number {
            let Some(last) = last_step(links, at) else {
                unreachable!()
            };
            at = last.before;
        }
        let Some(last) = last_step(links, at) else {
            unreachable!()
        };
        last.thread
    }

    /// Its threads, in order.
    pub(crate) fn to_vec(&self, alloc: Global) -> Result<Vec<u8>, AllocError>
        ensures { IfOk result (λ threads. threads.items ≡ self.now) }
    {
        let links = self.links;
        let mut at = self.at;
        let mut threads = Vec::new(alloc);
        while let Some(last) = last_step(links, at) {
            at = last.before;
            threads.push(last.thread)?;
        }
        threads.reverse();
        Ok(threads)
    }
}
