// Accesses that conflict.

ghost use Rattle.std.specs.Prelude.{◌≡◌, ◌⊎◌, ◌≢◌, IfNone, IfSome, IsTrue, Some, false};
ghost use Rattle.ls_race_laws.specs.Accesses.{Conflict};
ghost use Rattle.ls_races.specs.Met.{IsMet, IsNext, NoneMet};
ghost use Rattle.ls_races.specs.Races.{IsUntold};

use ls_race_laws::access::{Access, Kind};
use std::alloc::AllocError;

/// Two threads, and of which kind the variable is that both are about to access.
#[derive(Copy)]
pub struct Met {
    pub one: usize,
    pub other: usize,
    pub on: Kind,
}

impl Clone for Met {
    fn clone(&self) -> Result<Met, AllocError> {
        Ok(*self)
    }
}

/// Whether kinds are the same.
pub fn is_same_kind(one: Kind, other: Kind) -> bool
    ensures same { IsTrue result → one ≡ other }
    ensures apart { result ≡ false → one ≢ other }
{
    match (one, other) {
        (
            Kind::Field { fields, field },
            Kind::Field {
                fields: many,
                field: number,
            },
        ) => fields == many && field == number,
        (Kind::Element, Kind::Element) => true,
        (Kind::Field { .. }, Kind::Element) => false,
        (Kind::Element, Kind::Field { .. }) => false,
    }
}

/// Whether a kind is one of these.
pub fn is_told(told: &[Kind], on: Kind) -> bool
    ensures told { IsTrue result → IsUntold told.now on → ⊥ }
    ensures untold { result ≡ false → IsUntold told.now on }
{
    for kind in told {
        if is_same_kind(*kind, on) {
            return true;
        }
    }
    false
}

/// Whether two accesses conflict: they are to one variable, and one writes.
fn are_in_conflict(one: Access, other: Access) -> bool
    ensures some { IsTrue result → Conflict one other }
    ensures none { result ≡ false → Conflict one other → ⊥ }
{
    is_same_kind(one.kind, other.kind)
        && one.object == other.object
        && one.index == other.index
        && (one.writes || other.writes)
}

/// The access at a place, if there is one.
fn access_at(accesses: &[Option<Access>], thread: usize) -> Option<Access>
    ensures some { IfSome result (λ a. IsNext accesses.now thread a) }
    ensures none { IfNone result ((a : Access) → IsNext accesses.now thread a → ⊥) }
{
    match accesses.get(thread) {
        None => None,
        Some(access) => *access,
    }
}

/// Whether the access of a thread conflicts with this one.
fn conflicts_with(accesses: &[Option<Access>], other: usize, first: Access) -> bool
    ensures some { IsTrue result → (a : Access) × IsNext accesses.now other a × Conflict first a }
    ensures none { result ≡ false → (a : Access) → IsNext accesses.now other a → Conflict first a → ⊥ }
{
    match access_at(accesses, other) {
        None => false,
        Some(second) => are_in_conflict(first, second),
    }
}

/// A thread whose access conflicts with this one of another.
fn partner_of(accesses: &[Option<Access>], one: usize, first: Access) -> Option<usize>
    ensures some { IfSome result (λ other. (one ≢ other) × (a : Access) × IsNext accesses.now other a ×
        Conflict first a) }
    ensures none { IfNone result ((other : _) (a : Access) → one ≢ other → IsNext accesses.now other a →
        Conflict first a → ⊥) }
{
    for other in 0..accesses.len() {
        if other != one && conflicts_with(accesses, other, first) {
            return Some(other);
        }
    }
    None
}

/// Where the access of a thread meets another's, on a variable of a kind that wasn't told.
fn meeting_of(accesses: &[Option<Access>], told: &[Kind], one: usize) -> Option<Met>
    ensures some { IfSome result (IsMet accesses.now told.now) }
    ensures none { IfNone result ((m : Met) → m.one ≡ one → IsMet accesses.now told.now m → ⊥) }
{
    let first = access_at(accesses, one)?;
    if is_told(told, first.kind) {
        return None;
    }
    let other = partner_of(accesses, one, first)?;
    Some(Met {
        one,
        other,
        on: first.kind,
    })
}

/// Two accesses that meet, on a variable of a kind that wasn't told.
pub fn meeting_in(accesses: &[Option<Access>], told: &[Kind]) -> Option<Met>
    ensures some { IfSome result (IsMet accesses.now told.now) }
    ensures none { IfNone result (NoneMet accesses.now told.now) }
{
    for one in 0..accesses.len() {
        if let Some(met) = meeting_of(accesses, told, one) {
            return Some(met);
        }
    }
    None
}
