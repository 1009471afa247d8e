// Two threads that really run at the same time.

ghost use Rattle.ls_code.specs.Machine.{loaded};
ghost use Rattle.ls_image.specs.Images.{code_of_image};
ghost use Rattle.std.specs.Prelude.{◌≡◌, length};

use crate::gate::AtMeeting;
use crate::texts::TWO_ADD;
use ls_events::event::{Event, Happening};
use ls_events::value::Value;
use ls_image::image::Image;
use ls_lent_images::{Meeting, with_image};
use ls_live::{Gate, Live, Seat, Session, run_live};
use ls_schedule::{Record, replay};
use ls_stored_classes::LAZY;
use std::alloc::Global;
use std::marker::Brand;
use std::sync::Wait;
use std::sync::ledger::Blank;
use std::test::Fail;
use std::thread::Threads;

const CELLS: usize = 1000;

const LIMIT: usize = 1_000_000;

// Whether the call of the thread returned true.
fn has_returned_true(history: &[Event], thread: usize, call: usize) -> bool {
    let wanted = Event {
        thread,
        call,
        happening: Happening::Returned(Some(Value::Boolean(true))),
    };
    history.iter().any(|event| *event == wanted)
}

// How many steps each of three seats made.
fn counts_of<L: Session>(seats: &[Seat<L>]) -> [u64; 3] {
    let mut counts = [0; 3];
    for (seat, count) in seats.iter().zip(counts.iter_mut()) {
        *count = seat.steps();
    }
    counts
}

// Whether each seat made as many steps as the record has of its thread.
fn are_counted(record: &Record, counts: &[u64; 3]) -> bool {
    let steps = record.schedule().steps();
    counts.iter().enumerate().all(|(thread, count)| {
        steps
            .iter()
            .filter(|step| usize::from(**step) == thread)
            .count() as u64
            == *count
    })
}

fn replays(alloc: Global, image: &Image, record: &Record) -> Result<bool, Fail> {
    let again = replay(alloc, image, CELLS, record.schedule().copied(alloc)?)?;
    Ok(again.history() == record.history())
}

fn have_returned(history: &[Event]) -> bool {
    has_returned_true(history, 1, 1)
        && has_returned_true(history, 2, 1)
        && has_returned_true(history, 2, 2)
}

// Whether the seats' counts are the record's, whether the record replays, and whether each call returned true.
fn agreements(
    alloc: Global,
    image: &Image,
    record: &Record,
    counts: &[u64; 3],
) -> Result<[bool; 3], Fail> {
    Ok([
        are_counted(record, counts),
        replays(alloc, image, record)?,
        have_returned(record.history()),
    ])
}

// The agreements of a live run that is done.
fn closed<L: Session>(
    alloc: Global,
    image: &Image,
    live: Live<L>,
    seats: Vec<Seat<L>>,
) -> Result<[bool; 3], Fail>
    requires { L.seats ≡ L.parts }
{
    let counts = counts_of(seats.as_slice());
    match live.close(seats) {
        Ok(record) => agreements(alloc, image, &record, &counts),
        Err(_) => Err("a seat disagrees".into()),
    }
}

// The agreements of a live run.
fn run_counted<L: Session + Send + Sync, G: Gate + Sync, R: Threads + Wait + Sync>(
    rt: &R,
    alloc: Global,
    blank: Blank,
    image: &Image,
    gate: &G,
) -> Result<[bool; 3], Fail>
    requires name { blank.name ≡ L.name }
    requires parts { blank.parts ≡ L.parts }
    requires seats { (L.seats ≡ L.parts) × (L.seats ≡ length (code_of_image image.now).starts) }
    requires start { L.start ≡ loaded (code_of_image image.now) CELLS }
    requires limit { L.limit ≡ LIMIT }
{
    let (live, seats) = match Live::<L>::open(alloc, blank, image, CELLS, LIMIT) {
        Ok(opened) => opened,
        Err(fault) => return Err(Fail::from(fault)),
    };
    match run_live(rt, live, seats, gate) {
        Ok((live, worked)) => closed(alloc, image, live, worked),
        Err(_) => Err("a thread isn't started".into()),
    }
}

// The agreements of a live run of an image.
fn counted<R: Threads + Wait + Sync>(
    rt: &R,
    alloc: Global,
    image: &Image,
    gate: &AtMeeting,
) -> Result<[bool; 3], Fail> {
    let blank = Blank::new(image.code().starts().len() as u64);
    run_counted::<Brand, AtMeeting, R>(rt, alloc, blank, image, gate)
}

#[test]
fn two_threads_meet(rt: HostRuntime) -> Result<(), Fail> {
    let gate = AtMeeting {
        meeting: Meeting::new(),
    };
    let alloc = rt.alloc();
    let found = with_image(
        alloc,
        LAZY,
        TWO_ADD,
        |image| counted(&rt, alloc, image, &gate),
    )?;
    assert_eq!(rt; found, [true, true, true]);
    assert_eq!(rt; gate.meeting.left_by_turns(), 0);
    Ok(())
}
