// What is counted of a range of numbers.

ghost use Rattle.std.specs.Prelude.{◌≡◌, ◌+◌, ◌<◌, ◌^◌, IfSome, count_by, length, position};
ghost use Rattle.ls_find_reports.specs.Printing.{figures_of, is_cut, is_double, number_after};

use ls_family_search::Passed;
use std::alloc::AllocError;

/// What is counted of a range of numbers. Numbers are from 1.
#[derive(Copy)]
pub struct Figures {
    /// The first number of the range, and the last.
    pub from: u64,
    pub to: u64,
    /// How many numbers there are in all.
    pub count: u64,
    /// How many of those that were passed are doubles, and how many are cut.
    pub doubles: u64,
    pub cut: u64,
    /// The number of the first that is cut, or 0 if none is.
    pub first: u64,
}

impl Clone for Figures {
    fn clone(&self) -> Result<Figures, AllocError> {
        Ok(*self)
    }
}

fn is_double(one: Passed) -> bool
    ensures { result ≡ is_double one }
{
    match one {
        Passed::Double => true,
        Passed::Good | Passed::Cut => false,
    }
}

fn is_cut(one: Passed) -> bool
    ensures { result ≡ is_cut one }
{
    match one {
        Passed::Cut => true,
        Passed::Double | Passed::Good => false,
    }
}

/// How many are doubles.
fn count_doubles(passed: &[Passed]) -> usize
    ensures { result ≡ count_by is_double passed.now }
{
    passed.iter().filter(|one| is_double(**one)).count()
}

/// How many are cut.
fn count_cut(passed: &[Passed]) -> usize
    ensures { result ≡ count_by is_cut passed.now }
{
    passed.iter().filter(|one| is_cut(**one)).count()
}

/// The place of the first that is cut.
fn first_cut(passed: &[Passed]) -> Option<usize>
    ensures is { result ≡ position is_cut passed.now }
    ensures within { IfSome result (λ i. i < length passed.now) }
{
    passed.iter().position(|one| is_cut(*one))
}

/// The number of the one at a place after so many numbers, or 0 if there is none.
fn number_after(before: u64, place: Option<usize>) -> u64
    requires { IfSome place (λ i. before + i + 1 < 2 ^ 64) }
    ensures { result ≡ number_after before place }
{
    match place {
        Some(place) => before + place as u64 + 1,
        None => 0,
    }
}

/// What is counted of the numbers after so many, up to one, of so many in all: those that were passed are the first.
pub fn figures_of(before: u64, to: u64, count: u64, passed: &[Passed]) -> Figures
    requires first { before + 1 < 2 ^ 64 }
    requires last { before + length passed.now < 2 ^ 64 }
    ensures { result ≡ figures_of before to count passed.now }
{
    Figures {
        from: before + 1,
        to,
        count,
        doubles: count_doubles(passed) as u64,
        cut: count_cut(passed) as u64,
        first: number_after(before, first_cut(passed)),
    }
}
