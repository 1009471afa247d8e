// Seats that one thread drives.

ghost use Rattle.ls_live.specs.Turns.{IsSeatOf};
ghost use Rattle.std.specs.Prelude.{All, IfOk};

use crate::texts::{STEPPER, TWO_STEP};
use ls_code::step::Did;
use ls_image::image::Image;
use ls_lent_images::with_image;
use ls_live::{Turn, TurnSeat, Turnstile};
use ls_schedule::read_schedule;
use std::alloc::Global;
use std::test::Fail;

/// The cells of their machines.
pub(crate) const CELLS: usize = 100;

/// A step of a thread's seat, if there is one.
pub(crate) fn step(turnstile: &Turnstile, seats: &mut [TurnSeat], thread: usize) -> Option<Turn>
    requires { All (IsSeatOf turnstile.now) seats.old }
    ensures { All (IsSeatOf turnstile.now) seats.new }
{
    if thread >= seats.len() {
        return None;
    }
    Some(turnstile.step(&mut seats[thread]))
}

/// The turnstile of an image and a tape, and its seats.
pub(crate) fn opened(
    alloc: Global,
    image: &Image,
    tape: &str,
) -> Result<(Turnstile, Vec<TurnSeat>), Fail>
    ensures { IfOk result (λ r. All (IsSeatOf r.0) r.1.items) }
{
    let tape = read_schedule(alloc, tape, image.program())?;
    Ok(Turnstile::open(alloc, image, CELLS, &tape)?)
}

/// A turn's kind and place.
pub(crate) fn key(turn: Option<Turn>) -> (char, usize) {
    match turn {
        Some(Turn::Stepped { place, did: _ }) => ('s', place),
        Some(Turn::NotYet { place }) => ('n', place),
        Some(Turn::Over) => ('o', 0),
        None => ('-', 0),
    }
}

fn is_idle(turn: Option<Turn>) -> bool {
    matches!(
        turn,
        Some(Turn::Stepped {
            place: _,
            did: Did::Idle
        })
    )
}

// A thread, and the kind and place of the answer that it should get.
type Wanted = (usize, char, usize);

// How many steps get these answers, and how many of the steps did nothing.
fn agreeing(turnstile: &Turnstile, seats: &mut [TurnSeat], order: &[Wanted]) -> (usize, usize)
    requires { All (IsSeatOf turnstile.now) seats.old }
{
    let mut agreeing = 0_usize;
    let mut idle = 0_usize;
    for wanted in order {
        let turn = step(turnstile, seats, wanted.0);
        if key(turn) == (wanted.1, wanted.2) {
            agreeing = agreeing.wrapping_add(1);
        }
        if is_idle(turn) {
            idle = idle.wrapping_add(1);
        }
    }
    (agreeing, idle)
}

fn agreeing_of_three(
    alloc: Global,
    image: &Image,
    tape: &str,
    order: &[Wanted],
) -> Result<(usize, usize), Fail> {
    let (turnstile, mut seats) = opened(alloc, image, tape)?;
    Ok(agreeing(&turnstile, seats.as_mut_slice(), order))
}

#[test]
fn answers_of_three_seats(rt: HostRuntime) -> Result<(), Fail> {
    let order = [
        (2, 'n', 0),
        (0, 's', 0),
        (2, 'n', 1),
        (1, 's', 1),
        (2, 's', 2),
        (2, 'o', 0),
        (1, 'o', 0),
        (0, 'o', 0),
    ];
    let alloc = rt.alloc();
    let found = with_image(alloc, STEPPER, TWO_STEP, |image| {
        agreeing_of_three(alloc, image, "setup A B", &order)
    })?;
    assert_eq!(rt; found, (8, 2));
    Ok(())
}

#[test]
fn a_tape_without_entries(rt: HostRuntime) -> Result<(), Fail> {
    let order = [(0, 'o', 0), (1, 'o', 0), (2, 'o', 0)];
    let alloc = rt.alloc();
    let found = with_image(alloc, STEPPER, TWO_STEP, |image| {
        agreeing_of_three(alloc, image, "", &order)
    })?;
    assert_eq!(rt; found, (3, 0));
    Ok(())
}

// How many seats are given back if one is missing.
fn closed_without_one(alloc: Global, image: &Image) -> Result<Option<usize>, Fail> {
    let (turnstile, mut seats) = opened(alloc, image, "setup A B")?;
    let _ = seats.pop();
    match turnstile.close(seats) {
        Ok(_) => Ok(None),
        Err((_, seats)) => Ok(Some(seats.len())),
    }
}

#[test]
fn wants_each_seat(rt: HostRuntime) -> Result<(), Fail> {
    let alloc = rt.alloc();
    let found = with_image(
        alloc,
        STEPPER,
        TWO_STEP,
        |image| closed_without_one(alloc, image),
    )?;
    assert_eq!(rt; found, Some(2));
    Ok(())
}
