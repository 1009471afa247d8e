// Seats: what each is told, and a run that is closed without one of them.

ghost use Rattle.ls_code.specs.Machine.{loaded};
ghost use Rattle.ls_image.specs.Images.{code_of_image};
ghost use Rattle.std.specs.Prelude.{◌≡◌, length};

use crate::texts::{COUNTER, TWO_COUNT};
use ls_image::image::Image;
use ls_lent_images::with_image;
use ls_live::{CloseFault, Live, More, Seat, Session, Told};
use std::alloc::Global;
use std::marker::Brand;
use std::sync::Wait;
use std::sync::ledger::Blank;
use std::test::Fail;

const CELLS: usize = 1000;

const LIMIT: usize = 100;

// Steps the seat until it is told Over or Full. Answers how many steps were done.
fn step_to_its_end<L: Session, R: Wait>(rt: &R, live: &Live<L>, seat: &mut Seat<L>) -> u64 {
    let mut done = 0_u64;
    for _ in 0..LIMIT + 1 {
        match live.step(rt, seat) {
            More::Did(_) => done = done.wrapping_add(1),
            More::Later => {}
            More::Over | More::Full => return done,
        }
    }
    done
}

// The setup's seat is told Over. A's seat is told to come later, and then makes five steps. If this is so, answers how
// many steps the setup's seat made.
fn begun<L: Session, R: Wait>(rt: &R, live: &Live<L>, seats: &mut [Seat<L>]) -> Option<u64> {
    let (setup, others) = seats.split_first_mut()?;
    let (a, _) = others.split_first_mut()?;
    let is_early = matches!(live.step(rt, a), More::Later) && a.told() == Told::Nothing;
    let set_up = step_to_its_end(rt, live, setup);
    let is_set_up = setup.told() == Told::Over && setup.steps() == set_up && set_up > 0;
    for _ in 0..5 {
        let _ = live.step(rt, a);
    }
    let goes_on = a.steps() == 5 && a.told() == Told::Nothing && a.thread() == 1;
    (is_early && is_set_up && goes_on).then_some(set_up)
}

// How many steps a run has, if it is closed.
fn len_closed<L: Session>(live: Live<L>, seats: Vec<Seat<L>>) -> Option<usize>
    requires { L.seats ≡ L.parts }
{
    match live.close(seats) {
        Ok(record) => Some(record.schedule().len()),
        Err(_) => None,
    }
}

// The run and its seats, if it isn't closed since a seat is missing.
fn not_closed<L: Session>(live: Live<L>, seats: Vec<Seat<L>>) -> Option<(Live<L>, Vec<Seat<L>>)>
    requires { L.seats ≡ L.parts }
{
    match live.close(seats) {
        Err(CloseFault::Missing { live, seats }) => Some((live, seats)),
        _ => None,
    }
}

// The run goes on with B's seat until the book is full, and is closed with that seat. If this is so, answers how many
// steps B's seat made.
fn ended<L: Session, R: Wait>(
    rt: &R,
    live: Live<L>,
    mut seats: Vec<Seat<L>>,
    mut b: Seat<L>,
) -> Option<u64>
    requires { L.seats ≡ L.parts }
{
    let rest = step_to_its_end(rt, &live, &mut b);
    let is_full = b.told() == Told::Full && b.steps() == rest;
    let _ = seats.push(b);
    let len = len_closed(live, seats);
    (is_full && len == Some(LIMIT)).then_some(rest)
}

// Without B's seat the run isn't closed, and goes on. Answers how many steps B's seat made then.
fn goes_on<L: Session, R: Wait>(rt: &R, live: Live<L>, mut seats: Vec<Seat<L>>) -> Option<u64>
    requires { L.seats ≡ L.parts }
{
    let b = seats.pop();
    let ((live, seats), b) = not_closed(live, seats).zip(b)?;
    ended(rt, live, seats, b)
}

// Whether a run begins and goes on in this way. Each step but five of A's must be one of the setup's seat or B's.
fn goes_through<L: Session, R: Wait>(rt: &R, live: Live<L>, mut seats: Vec<Seat<L>>) -> bool
    requires { L.seats ≡ L.parts }
{
    let set_up = begun(rt, &live, seats.as_mut_slice());
    let rest = goes_on(rt, live, seats);
    is_whole(set_up, rest)
}

// Whether the seats of a run of an image are told these things in turn.
fn is_told_in_turn<L: Session, R: Wait>(rt: &R, alloc: Global, blank: Blank, image: &Image) -> bool
    requires name { blank.name ≡ L.name }
    requires parts { blank.parts ≡ L.parts }
    requires seats { (L.seats ≡ L.parts) × (L.seats ≡ length (code_of_image image.now).starts) }
    requires start { L.start ≡ loaded (code_of_image image.now) CELLS }
    requires limit { L.limit ≡ LIMIT }
{
    match Live::<L>::open(alloc, blank, image, CELLS, LIMIT) {
        Ok((live, seats)) => goes_through(rt, live, seats),
        Err(_) => false,
    }
}

// Whether the steps of the setup and of B are all that the book has beside five of A.
fn is_whole(set_up: Option<u64>, rest: Option<u64>) -> bool {
    match (set_up, rest) {
        (Some(set_up), Some(rest)) => set_up.wrapping_add(rest) == LIMIT as u64 - 5,
        _ => false,
    }
}

// What the first step of A's seat is answered.
fn first_step<L: Session, R: Wait>(rt: &R, live: &Live<L>, seats: &mut [Seat<L>]) -> Option<More> {
    Some(live.step(rt, seats.get_mut(1)?))
}

// What the first step of A's seat is answered, if nothing is recorded then.
fn first_recorded<L: Session, R: Wait>(
    rt: &R,
    live: Live<L>,
    mut seats: Vec<Seat<L>>,
) -> Option<More>
    requires { L.seats ≡ L.parts }
{
    let more = first_step(rt, &live, seats.as_mut_slice());
    if len_closed(live, seats) == Some(0) {
        more
    } else {
        None
    }
}

// What the first step of A's seat is answered in a run of an image, if the setup hasn't ended and nothing is recorded
// then.
fn first_answer<L: Session, R: Wait>(
    rt: &R,
    alloc: Global,
    blank: Blank,
    image: &Image,
    limit: usize,
) -> Option<More>
    requires name { blank.name ≡ L.name }
    requires parts { blank.parts ≡ L.parts }
    requires seats { (L.seats ≡ L.parts) × (L.seats ≡ length (code_of_image image.now).starts) }
    requires start { L.start ≡ loaded (code_of_image image.now) CELLS }
    requires limit { L.limit ≡ limit }
{
    match Live::<L>::open(alloc, blank, image, CELLS, limit) {
        Ok((live, seats)) => first_recorded(rt, live, seats),
        Err(_) => None,
    }
}

// The first answer to A's seat, if `limit` steps may be recorded.
fn first_of<R: Wait>(rt: &R, alloc: Global, image: &Image, limit: usize) -> Option<More> {
    let blank = Blank::new(image.code().starts().len() as u64);
    first_answer::<Brand, R>(rt, alloc, blank, image, limit)
}

// Whether A's seat is told that the book is full if it has no room, and else to come later.
fn is_told_first<R: Wait>(rt: &R, alloc: Global, image: &Image) -> [bool; 2] {
    [
        matches!(first_of(rt, alloc, image, 0), Some(More::Full)),
        matches!(first_of(rt, alloc, image, 5000), Some(More::Later)),
    ]
}

#[test]
fn a_full_book_is_told_before_a_late_start(rt: HostRuntime) -> Result<(), Fail> {
    let alloc = rt.alloc();
    let found = with_image(alloc, COUNTER, TWO_COUNT, |image| {
        Ok(is_told_first(&rt, alloc, image))
    })?;
    assert_eq!(rt; found, [true, true]);
    Ok(())
}

fn tells_in_turn<R: Wait>(rt: &R, alloc: Global, image: &Image) -> bool {
    let blank = Blank::new(image.code().starts().len() as u64);
    is_told_in_turn::<Brand, R>(rt, alloc, blank, image)
}

#[test]
fn seats_are_told_in_turn(rt: HostRuntime) -> Result<(), Fail> {
    let alloc = rt.alloc();
    let found = with_image(alloc, COUNTER, TWO_COUNT, |image| {
        Ok(tells_in_turn(&rt, alloc, image))
    })?;
    assert!(rt; found);
    Ok(())
}
