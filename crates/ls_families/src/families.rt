// Families of thread programs.

ghost use Rattle.std.specs.Prelude.{◌≡◌, ◌<◌, ◌≤◌, ◌^◌, ◌+◌, ◌/◌, ◌%◌, ◌↔◌, IfOk, IsErrOf, MatchOption, SomeIff};
ghost use Rattle.std.specs.Prelude.{length, slice_get};
ghost use Rattle.ls_families.specs.Families.{HaveNone, count_of, family_of, plan_of, plans, size_of};
ghost use Rattle.ls_families.specs.Shapes.{AreBad};

use crate::choosing::choices;
use crate::fault::FamilyFault;
use crate::menus::{MenuSizes, have_none};
use crate::shapes::{Bounds, Shape, are_bad, shapes};
use std::alloc::{AllocError, Global};
use std::marker::Model;

/// The most programs of a family.
const MOST_PROGRAMS: u64 = 1_000_000;

/// A thread program: its shape, and the places in the menu, from 1, of its making and of its calls. Those of the setup
/// come first, then those of each thread.
#[derive(Drop)]
pub struct Plan<'a> {
    shape: &'a Shape,
    making: u64,
    calls: Vec<u64>,
}

impl<'a> Model for Plan<'a> {
    ghost use Rattle.ls_families.specs.Families.{Plan as PlanValue};

    ghost Value = { PlanValue };

    ghost view = { λ p. record { shape = p.shape.now; making = p.making; calls = p.calls.items } };
}

impl<'a> Plan<'a> {
    /// Its shape.
    pub fn shape(&self) -> &Shape
        ensures { result.now ≡ self.now.shape }
    {
        self.shape
    }

    /// The place in the menu of how its object is made.
    pub fn making(&self) -> u64
        ensures { result ≡ self.now.making }
    {
        self.making
    }

    /// The places of its calls in the menu.
    pub fn calls(&self) -> &[u64]
        ensures { result.now ≡ self.now.calls }
    {
        self.calls.as_slice()
    }

    /// A program of the same shape, whose object is made so too, with these calls.
    pub(crate) fn with_calls(&self, calls: Vec<u64>) -> Plan<'a>
        ensures { result ≡ record { shape = self.now.shape; making = self.now.making; calls = calls.items } }
    {
        Plan {
            shape: self.shape,
            making: self.making,
            calls,
        }
    }
}

/// How often all choices of so many calls fit into a number, and the rest.
#[tactic(auto, using(crate::proofs::Parted::power_some))]
fn parted_by(number: u64, menu: u64, calls: u32) -> (u64, u64)
    requires { 0 < menu }
    ensures times { result.0 ≡ number / menu ^ calls }
    ensures rest { result.1 ≡ number % menu ^ calls }
{
    match menu.checked_pow(calls) {
        None => (0, number),
        Some(size) => (number / size, number % size),
    }
}

/// The program of a shape that has a number.
fn plan_of<'a>(
    alloc: Global,
    sizes: MenuSizes,
    shape: &'a Shape,
    number: u64,
) -> Result<Plan<'a>, AllocError>
    requires some { ¬ HaveNone sizes }
    requires there { number < size_of sizes shape.now }
    ensures { IfOk result (λ plan. plan ≡ plan_of sizes shape.now number) }
{
    let (left, of_threads) = parted_by(number, sizes.threads, shape.of_threads());
    let (making, of_setup) = parted_by(left, sizes.setup, shape.of_setup());
    let mut calls = choices(alloc, sizes.setup, shape.of_setup() as usize, of_setup)?;
    let more = choices(
        alloc,
        sizes.threads,
        shape.of_threads() as usize,
        of_threads,
    )?;
    calls.extend_from_slice(more.as_slice())?;
    Ok(Plan {
        shape,
        making: making + 1,
        calls,
    })
}

/// How many programs of a shape there are, if they are fewer than 2^64.
fn size_of(sizes: MenuSizes, shape: &Shape) -> Option<u64>
    requires { ¬ HaveNone sizes }
    ensures { let size = size_of sizes shape.now in SomeIff result (size < 2 ^ 64) size }
{
    let of_setup = sizes.setup.checked_pow(shape.of_setup())?;
    let of_threads = sizes.threads.checked_pow(shape.of_threads())?;
    sizes.makings.checked_mul(of_setup)?.checked_mul(of_threads)
}

/// A number and how many programs of a shape there are.
fn with_programs(count: u64, sizes: MenuSizes, shape: &Shape) -> Option<u64>
    requires { ¬ HaveNone sizes }
    ensures { let more = count + size_of sizes shape.now in SomeIff result (more < 2 ^ 64) more }
{
    match size_of(sizes, shape) {
        None => None,
        Some(size) => count.checked_add(size),
    }
}

/// How many programs of these shapes there are, if they are fewer than 2^64.
fn count_plans(sizes: MenuSizes, shapes: &[Shape]) -> Option<u64>
    requires { ¬ HaveNone sizes }
    ensures { let all = count_of (record { sizes = sizes; shapes = shapes.now }) in SomeIff result (all < 2 ^ 64) all }
{
    let mut count: u64 = 0;
    for shape in shapes {
        count = with_programs(count, sizes, shape)?;
    }
    Some(count)
}

/// The number among the programs after those of a shape, or nothing where it is that of one of these.
fn number_after(sizes: MenuSizes, shape: &Shape, number: u64) -> Option<u64>
    requires { ¬ HaveNone sizes }
    ensures { MatchOption result (number < size_of sizes shape.now) (λ rest. size_of sizes shape.now + rest ≡ number) }
{
    match size_of(sizes, shape) {
        None => None,
        Some(size) => number.checked_sub(size),
    }
}

/// The program of these shapes that has a number.
fn plan_at<'a>(
    alloc: Global,
    sizes: MenuSizes,
    shapes: &'a [Shape],
    number: u64,
) -> Result<Option<Plan<'a>>, AllocError>
    requires { ¬ HaveNone sizes }
    ensures { IfOk result
        (λ plan. plan ≡ slice_get (plans (record { sizes = sizes; shapes = shapes.now })) number) }
{
    let mut rest = number;
    for shape in shapes {
        match number_after(sizes, shape, rest) {
            None => {
                let plan = plan_of(alloc, sizes, shape, rest)?;
                return Ok(Some(plan));
            }
            Some(next) => rest = next,
        }
    }
    Ok(None)
}

/// All programs over a menu of some sizes, of the shapes within some bounds.
#[derive(Drop)]
pub struct Family {
    sizes: MenuSizes,
    shapes: Vec<Shape>,
    count: u64,
}

impl Model for Family {
    ghost use Rattle.std.specs.Prelude.{◌≡◌};
    ghost use Rattle.ls_families.specs.Families.{Family as FamilyValue, HaveNone, count_of};

    ghost Value = { FamilyValue };

    ghost view = { λ f. record { sizes = f.sizes; shapes = f.shapes.items } };

    ghost invariant = { λ f. (¬ HaveNone f.sizes) ×
        (f.count ≡ count_of (record { sizes = f.sizes; shapes = f.shapes.items })) };
}

impl Family {
    /// All programs over a menu of some sizes, of the shapes within some bounds.
    ///
    /// `NoCalls` comes if the menu has no call of the setup or of a thread, or no making; else `BadBounds` if the
    /// bounds aren't taken; else, if memory doesn't run out, `TooMany` if there are more than 1,000,000 programs.
    pub fn new(alloc: Global, sizes: MenuSizes, bounds: Bounds) -> Result<Family, FamilyFault>
        ensures no_calls { IsErrOf result FamilyFault.NoCalls ↔ HaveNone sizes }
        ensures bad { IsErrOf result FamilyFault.BadBounds ↔ ((¬ HaveNone sizes) × AreBad bounds) }
        ensures many { IsErrOf result FamilyFault.TooMany → 1000000 < count_of (family_of sizes bounds) }
        ensures few { IfOk result (λ family. count_of family ≤ 1000000) }
        ensures family { IfOk result (λ family. family ≡ family_of sizes bounds) }
    {
        if have_none(sizes) {
            return Err(FamilyFault::NoCalls);
        }
        if are_bad(bounds) {
            return Err(FamilyFault::BadBounds);
        }
        let shapes = shapes(alloc, bounds)?;
        match count_plans(sizes, shapes.as_slice()) {
            None => Err(FamilyFault::TooMany),
            Some(count) if count > MOST_PROGRAMS => Err(FamilyFault::TooMany),
            Some(count) => Ok(Family {
                sizes,
                shapes,
                count,
            }),
        }
    }

    /// How large its menu is.
    pub(crate) fn sizes(&self) -> MenuSizes
        ensures { result ≡ self.now.sizes }
    {
        self.sizes
    }

    /// How many programs it has.
    pub fn count(&self) -> u64
        ensures { result ≡ length (plans self.now) }
    {
        self.count
    }

    /// The program that has a number, from 0.
    pub fn plan(&self, alloc: Global, number: u64) -> Result<Option<Plan<'_>>, AllocError>
        ensures { IfOk result (λ plan. plan ≡ slice_get (plans self.now) number) }
    {
        plan_at(alloc, self.sizes, self.shapes.as_slice(), number)
    }
}
