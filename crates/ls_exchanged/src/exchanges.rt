// Programs with two threads exchanged.

ghost use Rattle.std.specs.Prelude.{◌≡◌, ◌+◌, ◌<◌, ◌^◌, ℕ, IfNone, IfSome, length, map, slice_get, string_bytes};
ghost use Rattle.std.specs.Bool.{Decides};
ghost use Rattle.ls_checked.specs.PlainProgram.{plain_program, plain_thread};
ghost use Rattle.ls_exchanged.specs.Exchanged.{exchanged};
ghost use Rattle.ls_exchanged.specs.Doubles.{AreDoubles, AreExchangedAt, HaveExchangedAt, HaveSameNames};
ghost use Rattle.ls_exchanged.specs.Doubles.{IsExchangedAt, names_of};

use ls_checked::program::{Program, ThreadProgram};
use ls_same_calls::calls::{same_calls, same_names};

/// Whether two threads have the same name.
fn same_thread_name(first: &ThreadProgram, second: &ThreadProgram) -> bool
    ensures { Decides result (string_bytes first.now.name ≡ string_bytes second.now.name) }
{
    first.name.as_str() == second.name.as_str()
}

/// Whether threads have the same names, by place.
fn same_thread_names(first: &[ThreadProgram], second: &[ThreadProgram]) -> bool
    ensures { Decides result (names_of (map plain_thread first.now) ≡ names_of (map plain_thread second.now)) }
{
    if first.len() != second.len() {
        return false;
    }
    for i in 0..first.len() {
        if !same_thread_name(&first[i], &second[i]) {
            return false;
        }
    }
    true
}

/// The place of a thread where a thread and the one after it are exchanged.
fn exchanged(place: usize, at: usize) -> usize
    requires { place + 1 < 2 ^ 64 }
    ensures { result ≡ exchanged place (place + 1) at }
{
    if at == place {
        place + 1
    } else if at == place + 1 {
        place
    } else {
        at
    }
}

/// Whether a thread has the calls of the exchanged one.
fn is_exchanged_at(
    first: &[ThreadProgram],
    second: &[ThreadProgram],
    place: usize,
    at: usize,
) -> bool
    requires within { place + 1 < length first.now }
    requires there { at < length first.now }
    requires many { length first.now ≡ length second.now }
    ensures { Decides result (IsExchangedAt (map plain_thread first.now) (map plain_thread second.now) place at) }
{
    same_calls(
        first[at].calls.as_slice(),
        second[exchanged(place, at)].calls.as_slice(),
    )
}

/// Whether the calls of a thread and of the one after it are exchanged, and all others are the same.
fn are_exchanged_at(first: &[ThreadProgram], second: &[ThreadProgram], place: usize) -> bool
    requires within { place + 1 < length first.now }
    requires many { length first.now ≡ length second.now }
    ensures { Decides result (AreExchangedAt (map plain_thread first.now) (map plain_thread second.now) place) }
{
    for at in 0..first.len() {
        if !is_exchanged_at(first, second, place, at) {
            return false;
        }
    }
    true
}

/// Whether a number is that of a thread, which isn't the first, with one after it; and their calls are exchanged, and
/// all others are the same.
fn have_exchanged_at(first: &[ThreadProgram], second: &[ThreadProgram], place: usize) -> bool
    requires { length first.now ≡ length second.now }
    ensures { Decides result (HaveExchangedAt (map plain_thread first.now) (map plain_thread second.now) place) }
{
    if place == 0 || place >= first.len() || place + 1 == first.len() {
        return false;
    }
    are_exchanged_at(first, second, place)
}

/// The first number of a thread, which isn't the first, whose calls and those of the one after it are exchanged, where
/// all others are the same.
fn exchanged_place(first: &[ThreadProgram], second: &[ThreadProgram]) -> Option<usize>
    requires { length first.now ≡ length second.now }
    ensures some { IfSome result (HaveExchangedAt (map plain_thread first.now) (map plain_thread second.now)) }
    ensures none { IfNone result ((place : ℕ) →
        HaveExchangedAt (map plain_thread first.now) (map plain_thread second.now) place → ⊥) }
{
    for place in 0..first.len() {
        if have_exchanged_at(first, second, place) {
            return Some(place);
        }
    }
    None
}

/// Whether the names of two programs are the same, and those of their threads.
fn same_all_names(first: &Program, second: &Program) -> bool
    ensures { Decides result (HaveSameNames (plain_program first.now) (plain_program second.now)) }
{
    same_names(first.names.as_slice(), second.names.as_slice())
        && same_thread_names(first.threads.as_slice(), second.threads.as_slice())
}

/// Whether the second program is the first with the calls of the thread of this number, which isn't the setup, and of
/// the one after it exchanged. The names are the same.
pub fn are_doubles_at(first: &Program, second: &Program, place: usize) -> bool
    ensures { Decides result (AreDoubles place (plain_program first.now) (plain_program second.now)) }
{
    same_all_names(first, second)
        && have_exchanged_at(first.threads.as_slice(), second.threads.as_slice(), place)
}

/// The first number of a thread so that the second program is the first with its calls, and those of the one after it
/// exchanged.
pub fn place_of_doubles(first: &Program, second: &Program) -> Option<usize>
    ensures some { IfSome result (λ place.
        AreDoubles place (plain_program first.now) (plain_program second.now)) }
    ensures none { IfNone result ((place : ℕ) →
        AreDoubles place (plain_program first.now) (plain_program second.now) → ⊥) }
{
    if !same_all_names(first, second) {
        return None;
    }
    exchanged_place(first.threads.as_slice(), second.threads.as_slice())
}
