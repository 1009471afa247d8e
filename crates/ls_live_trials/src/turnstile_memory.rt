// Steps while all further memory is refused. They answer as they do with enough memory.

ghost use Rattle.ls_live.specs.Turns.{IsSeatOf};
ghost use Rattle.std.specs.Prelude.{All};

use crate::texts::{STEPPER, TWO_STEP};
use crate::turnstile_seats::{CELLS, key, opened, step};
use ls_image::image::Image;
use ls_lent_images::{Hoard, with_image};
use ls_live::{TurnSeat, Turnstile};
use ls_machine::LoadFault;
use ls_schedule::read_schedule;
use std::alloc::Global;
use std::test::Fail;

const STEPS: usize = 100_000;

const SETUP_STEPS: usize = 50;

const TAPE: &str = "setup*50 all*49975";

// Two threads that go on for good, and call and return all along.
const ADDER: &str = "class Adder { int v; int more() { v = v + 1; return v; } \
    void go() { while (true) { more(); } } }";

const TWO_GO: &str = "setup { a = new Adder(); a.more(); } \
    thread A { a.more(); a.go(); } thread B { a.go(); }";

// Whether each step of the tape is done at its place, and whether none is left then.
fn goes_in_order(turnstile: &Turnstile, seats: &mut [TurnSeat]) -> bool
    requires { All (IsSeatOf turnstile.now) seats.old }
{
    for place in 0..STEPS {
        let thread = if place < SETUP_STEPS {
            0
        } else {
            1 + place % 2
        };
        if key(step(turnstile, seats, thread)) != ('s', place) {
            return false;
        }
    }
    let mut is_over = true;
    for thread in 0..3 {
        is_over = is_over && key(step(turnstile, seats, thread)) == ('o', 0);
    }
    is_over
}

fn goes_without_memory(alloc: Global, image: &Image) -> Result<bool, Fail> {
    let mut hoard = Hoard::new(alloc)?;
    let (turnstile, mut seats) = opened(alloc, image, TAPE)?;
    hoard.take_all(alloc);
    Ok(goes_in_order(&turnstile, seats.as_mut_slice()))
}

#[test]
fn a_turnstile_steps(rt: HostRuntime) -> Result<(), Fail> {
    let alloc = rt.alloc();
    assert!(rt;
        with_image(
            alloc,
            ADDER,
            TWO_GO,
            |image| goes_without_memory(alloc, image)
        )?
    );
    Ok(())
}

// Why a turnstile isn't opened if all memory is refused.
fn fault_without_memory(alloc: Global, image: &Image) -> Result<Option<LoadFault>, Fail> {
    let mut hoard = Hoard::new(alloc)?;
    let tape = read_schedule(alloc, "setup A B", image.program())?;
    hoard.take_all(alloc);
    Ok(Turnstile::open(alloc, image, CELLS, &tape).err())
}

#[test]
fn a_turnstile_is_refused(rt: HostRuntime) -> Result<(), Fail> {
    let alloc = rt.alloc();
    let found = with_image(alloc, STEPPER, TWO_STEP, |image| {
        fault_without_memory(alloc, image)
    })?;
    assert_eq!(rt; found, Some(LoadFault::Memory));
    Ok(())
}
