// Seats that threads work, with a seat missing.

use crate::texts::{STEPPER, TWO_STEP};
use crate::turnstile_seats::opened;
use ls_image::image::Image;
use ls_lent_images::with_image;
use ls_live::{FollowFault, OpenGate, follow_tape};
use std::alloc::Global;
use std::sync::Wait;
use std::test::Fail;
use std::thread::Threads;

// Why a tape isn't followed without the last seat, if it isn't, and how many seats are given back.
fn follow<R: Threads + Wait + Sync>(
    rt: &R,
    alloc: Global,
    image: &Image,
    tape: &str,
) -> Result<(Option<FollowFault>, usize), Fail> {
    let (turnstile, mut seats) = opened(alloc, image, tape)?;
    let _ = seats.pop();
    match follow_tape(rt, alloc, turnstile, seats, &OpenGate) {
        Ok((_, seats)) => Ok((None, seats.len())),
        Err((fault, _, seats)) => Ok((Some(fault), seats.len())),
    }
}

// The other seats come to an entry of the missing seat, which no seat does.
#[test]
fn a_missing_seat_is_spent(rt: HostRuntime) -> Result<(), Fail> {
    let alloc = rt.alloc();
    let found = with_image(alloc, STEPPER, TWO_STEP, |image| {
        follow(&rt, alloc, image, "setup*3 B setup")
    })?;
    assert_eq!(rt; found, (Some(FollowFault::TurnsSpent { place: 3 }), 2));
    Ok(())
}

#[test]
fn nobody_is_needed_at_the_end(rt: HostRuntime) -> Result<(), Fail> {
    let alloc = rt.alloc();
    let found = with_image(
        alloc,
        STEPPER,
        TWO_STEP,
        |image| follow(&rt, alloc, image, ""),
    )?;
    assert_eq!(rt; found, (None, 2));
    Ok(())
}
