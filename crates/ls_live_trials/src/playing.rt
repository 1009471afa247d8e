// Whole runs of live threads.

use crate::gate::AtMeeting;
use crate::texts::{STEPPER, TWO_ADD, TWO_STEP};
use ls_image::image::Image;
use ls_lent_images::{Meeting, with_image};
use ls_live::{FollowFault, Gate, OpenGate, TapeFault, play_turns};
use ls_schedule::{Record, read_schedule};
use ls_stored_classes::LAZY;
use std::alloc::Global;
use std::sync::Wait;
use std::test::Fail;
use std::thread::Threads;

// What is played: entries of a tape, perhaps an entry of a thread that doesn't exist after them, and a number of
// cells.
#[derive(Drop)]
struct Turns<'p> {
    entries: &'p str,
    has_nobody: bool,
    cells: usize,
}

// How many steps and events a record has, or why there is no record.
fn counts(played: Result<Record, TapeFault>) -> (Option<TapeFault>, usize, usize) {
    match played {
        Ok(record) => (None, record.schedule().len(), record.history().len()),
        Err(fault) => (Some(fault), 0, 0),
    }
}

fn played<R: Threads + Wait + Sync, G: Gate + Sync>(
    rt: &R,
    alloc: Global,
    image: &Image,
    turns: &Turns,
    gate: &G,
) -> Result<(Option<TapeFault>, usize, usize), Fail> {
    let mut tape = read_schedule(alloc, turns.entries, image.program())?;
    if turns.has_nobody && !tape.is_full() {
        tape.push(9)?;
    }
    Ok(counts(play_turns(rt, alloc, image, turns.cells, &tape, gate)))
}

#[test]
fn an_entry_of_nobody(rt: HostRuntime) -> Result<(), Fail> {
    let turns = Turns {
        entries: "setup A",
        has_nobody: true,
        cells: 100,
    };
    let alloc = rt.alloc();
    let found = with_image(alloc, STEPPER, TWO_STEP, |image| {
        played(&rt, alloc, image, &turns, &OpenGate)
    })?;
    let wanted = TapeFault::Follow(FollowFault::TurnsSpent { place: 2 });
    assert_eq!(rt; found, (Some(wanted), 0, 0));
    Ok(())
}

#[test]
fn two_threads_meet(rt: HostRuntime) -> Result<(), Fail> {
    let gate = AtMeeting {
        meeting: Meeting::new(),
    };
    let lists = Turns {
        entries: "setup*999 all*999",
        has_nobody: false,
        cells: 1000,
    };
    let alloc = rt.alloc();
    let (_, _, events) = with_image(alloc, LAZY, TWO_ADD, |image| {
        played(&rt, alloc, image, &lists, &gate)
    })?;
    assert_eq!(rt; gate.meeting.left_by_turns(), 0);
    assert_eq!(rt; events, 8);
    Ok(())
}
