// What each seat was answered, compared with a machine that is stepped by the record.

ghost use Rattle.ls_code.specs.Machine.{loaded};
ghost use Rattle.ls_image.specs.Images.{code_of_image};
ghost use Rattle.std.specs.Prelude.{◌≡◌, length};

use crate::texts::{COUNTER, TWO_COUNT};
use ls_image::image::Image;
use ls_lent_images::{with_did, with_image};
use ls_live::{Live, More, Seat, Session};
use ls_machine::Machine;
use ls_schedule::Record;
use std::alloc::Global;
use std::marker::Brand;
use std::sync::Wait;
use std::sync::ledger::Blank;
use std::test::Fail;
use std::thread;
use std::thread::Threads;

const CELLS: usize = 1000;

const CALLS: usize = 100_000;

const LIMIT: usize = 250_000;

// Steps the seat, and mixes what its steps did into the digest.
fn work<L: Session, R: Wait>(rt: &R, live: &Live<L>, seat: &mut Seat<L>, digest: &mut u64) {
    for _ in 0..CALLS {
        match live.step(rt, seat) {
            More::Did(did) => *digest = with_did(*digest, did),
            More::Later => thread::yield_now(),
            More::Over | More::Full => {}
        }
    }
}

// The setup first, then each other seat in a thread of its own.
fn work_all<'x, L: Session + Send + Sync, R: Threads + Wait + Sync>(
    rt: &'x R,
    live: &'x Live<L>,
    seats: &mut [Seat<L>],
    digests: &mut [u64],
) {
    let (Some((setup, others)), Some((first, rest))) = (
        seats.split_first_mut(),
        digests.split_first_mut(),
    ) else {
        return;
    };
    work(rt, live, setup, first);
    thread::scope(thread::scope_env(), rt, move |scope| {
        for (seat, digest) in others.iter_mut().zip(rest.iter_mut()) {
            let _ = scope.spawn(move || work(rt, live, seat, digest));
        }
    });
}

// The digests of what a machine does by these steps, one for each thread.
fn stepped(machine: &mut Machine, steps: &[u8]) -> [u64; 3] {
    let mut digests = [0; 3];
    for thread in steps {
        let thread = usize::from(*thread);
        let did = machine.step(thread);
        if let Some(digest) = digests.get_mut(thread) {
            *digest = with_did(*digest, did);
        }
    }
    digests
}

// Whether the record has what the seats were answered, whether each seat was answered, and whether its history is that
// of a fresh machine.
fn agreements(machine: &mut Machine, record: &Record, digests: &[u64; 3]) -> [bool; 3] {
    let are_same = stepped(machine, record.schedule().steps()) == *digests;
    let are_answered = digests.iter().all(|digest| *digest != 0);
    [
        are_same,
        are_answered,
        machine.history() == record.history(),
    ]
}

fn agreements_with_machine(
    alloc: Global,
    image: &Image,
    record: &Record,
    digests: &[u64; 3],
) -> Result<[bool; 3], Fail> {
    let mut machine = Machine::load(alloc, image.code(), CELLS)?;
    Ok(agreements(&mut machine, record, digests))
}

// The agreements of a live run whose seats are worked here.
fn worked<L: Session + Send + Sync, R: Threads + Wait + Sync>(
    rt: &R,
    alloc: Global,
    image: &Image,
    live: Live<L>,
    mut seats: Vec<Seat<L>>,
) -> Result<[bool; 3], Fail>
    requires { L.seats ≡ L.parts }
{
    let mut digests = [0; 3];
    work_all(rt, &live, seats.as_mut_slice(), &mut digests);
    match live.close(seats) {
        Ok(record) => agreements_with_machine(alloc, image, &record, &digests),
        Err(_) => Err("a seat disagrees".into()),
    }
}

// The agreements of a live run.
fn run_noted<L: Session + Send + Sync, R: Threads + Wait + Sync>(
    rt: &R,
    alloc: Global,
    blank: Blank,
    image: &Image,
) -> Result<[bool; 3], Fail>
    requires name { blank.name ≡ L.name }
    requires parts { blank.parts ≡ L.parts }
    requires seats { (L.seats ≡ L.parts) × (L.seats ≡ length (code_of_image image.now).starts) }
    requires start { L.start ≡ loaded (code_of_image image.now) CELLS }
    requires limit { L.limit ≡ LIMIT }
{
    match Live::<L>::open(alloc, blank, image, CELLS, LIMIT) {
        Ok((live, seats)) => worked(rt, alloc, image, live, seats),
        Err(fault) => Err(Fail::from(fault)),
    }
}

// The agreements of a live run of an image.
fn live_agreements<R: Threads + Wait + Sync>(
    rt: &R,
    alloc: Global,
    image: &Image,
) -> Result<[bool; 3], Fail> {
    let blank = Blank::new(image.code().starts().len() as u64);
    run_noted::<Brand, R>(rt, alloc, blank, image)
}

#[test]
fn each_answer_is_that_of_the_record(rt: HostRuntime) -> Result<(), Fail> {
    let alloc = rt.alloc();
    let found = with_image(
        alloc,
        COUNTER,
        TWO_COUNT,
        |image| live_agreements(&rt, alloc, image),
    )?;
    assert_eq!(rt; found, [true, true, true]);
    Ok(())
}
