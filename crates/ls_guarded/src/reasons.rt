// Why no guard of the methods of a class is told.

ghost use Rattle.std.specs.Prelude.{◌≡◌, ◌≢◌, ◌↔◌, [], ℕ, Contains, IfNone, IfSome, IsTrue, false};
ghost use Rattle.ls_checked.specs.Plain.{plain_file};
ghost use Rattle.ls_guarded.specs.Marks.{EachOf};
ghost use Rattle.ls_guarded.specs.Reasons.{HasLock, HasMonitor, IsReason};

use crate::shapes::{holds_lock, holds_monitor, lock_in};
use ls_checked::tree::File;
use ls_source_store::lookups::method_at;
use std::alloc::AllocError;

/// Why no guard is told.
#[derive(Copy)]
pub enum Reason {
    /// No method is meant.
    NoMethods,
    /// No method is a synchronized block, and none takes a lock from its first to its last step.
    NoLock,
    /// Some method is a synchronized block, and this one isn't.
    NotSynchronized(usize),
    /// Some method takes the lock in this field of `this`, and that one doesn't from its first to its last step.
    NotLocked(usize, usize),
    /// All methods are so. What they do meanwhile, or what the constructor does, isn't told to be of the form.
    Inside,
}

impl Clone for Reason {
    fn clone(&self) -> Result<Reason, AllocError> {
        Ok(*self)
    }
}

/// Whether the body of a method is a synchronized block.
#[tactic(auto, using(crate::proofs::Holding::has_monitor))]
fn has_monitor(file: &File, m: usize) -> bool
    ensures { IsTrue result ↔ HasMonitor (plain_file file.now) m }
{
    match method_at(file, m) {
        None => false,
        Some(method) => holds_monitor(&method.body),
    }
}

/// Whether the body of a method takes the lock in a field, and gives it back at its end.
#[tactic(auto, using(crate::proofs::Holding::has_lock))]
fn has_lock(file: &File, c: usize, f: usize, m: usize) -> bool
    ensures { IsTrue result ↔ HasLock (plain_file file.now) c f m }
{
    match method_at(file, m) {
        None => false,
        Some(method) => holds_lock(c, f, &method.body),
    }
}

/// Whether one of the methods is a synchronized block.
fn one_has_monitor(file: &File, methods: &[usize]) -> bool
    ensures { result ≡ false → EachOf (λ m. ¬ HasMonitor (plain_file file.now) m) methods.now }
{
    for m in methods {
        if has_monitor(file, *m) {
            return true;
        }
    }
    false
}

/// The first of the methods that isn't a synchronized block.
fn first_without_monitor(file: &File, methods: &[usize]) -> Option<usize>
    ensures some { IfSome result (λ m. Contains methods.now m × ¬ HasMonitor (plain_file file.now) m) }
    ensures none { IfNone result (EachOf (λ m. HasMonitor (plain_file file.now) m) methods.now) }
{
    for m in methods {
        if !has_monitor(file, *m) {
            return Some(*m);
        }
    }
    None
}

/// The first of the methods that doesn't take the lock in a field, and give it back at its end.
fn first_without_lock(file: &File, c: usize, f: usize, methods: &[usize]) -> Option<usize>
    ensures some { IfSome result (λ m. Contains methods.now m × ¬ HasLock (plain_file file.now) c f m) }
    ensures none { IfNone result (EachOf (λ m. HasLock (plain_file file.now) c f m) methods.now) }
{
    for m in methods {
        if !has_lock(file, c, f, *m) {
            return Some(*m);
        }
    }
    None
}

/// The field whose lock a method takes first.
#[tactic(auto, using(crate::proofs::Holding::no_lock))]
fn lock_at(file: &File, m: usize) -> Option<usize>
    ensures { IfNone result ((c f : ℕ) → ¬ HasLock (plain_file file.now) c f m) }
{
    match method_at(file, m) {
        None => None,
        Some(method) => lock_in(&method.body),
    }
}

/// The field whose lock the first of the methods takes that takes one.
pub fn lock_of(file: &File, methods: &[usize]) -> Option<usize>
    ensures { IfNone result (EachOf (λ m. (c f : ℕ) → ¬ HasLock (plain_file file.now) c f m) methods.now) }
{
    for m in methods {
        if let Some(f) = lock_at(file, *m) {
            return Some(f);
        }
    }
    None
}

/// Why the monitor isn't told to guard the methods, where one of these is a synchronized block.
fn no_monitor(file: &File, class: usize, methods: &[usize]) -> Reason
    ensures { IsReason (plain_file file.now) class methods.now result }
{
    match first_without_monitor(file, methods) {
        Some(m) => Reason::NotSynchronized(m),
        None => Reason::Inside,
    }
}

/// Why the lock in a field isn't told to guard the methods.
#[tactic(auto, using(crate::proofs::Holding::all_locked))]
fn no_lock(file: &File, class: usize, f: usize, methods: &[usize]) -> Reason
    ensures { IsReason (plain_file file.now) class methods.now result }
{
    match first_without_lock(file, class, f, methods) {
        Some(m) => Reason::NotLocked(f, m),
        None => Reason::Inside,
    }
}

/// Why no guard of the methods of a class is told: the first method that doesn't hold what another one holds.
#[tactic(auto, using(crate::proofs::Holding::of_class))]
pub fn reason_of(file: &File, class: usize, methods: &[usize]) -> Reason
    ensures { IsReason (plain_file file.now) class methods.now result }
{
    if methods.is_empty() {
        return Reason::NoMethods;
    }
    if one_has_monitor(file, methods) {
        return no_monitor(file, class, methods);
    }
    match lock_of(file, methods) {
        Some(f) => no_lock(file, class, f, methods),
        None => Reason::NoLock,
    }
}
