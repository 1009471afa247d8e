// Steps while all further memory is refused. They answer as they do with enough memory.

ghost use Rattle.ls_code.specs.Machine.{loaded};
ghost use Rattle.ls_image.specs.Images.{code_of_image};
ghost use Rattle.std.specs.Prelude.{◌≡◌, length};

use crate::texts::{COUNTER, TWO_COUNT};
use ls_image::image::Image;
use ls_lent_images::{Hoard, mixed, with_did, with_image};
use ls_live::{Live, LiveFault, More, Seat, Session};
use ls_machine::{LoadFault, Machine};
use std::alloc::{AllocError, Global};
use std::marker::Brand;
use std::sync::Wait;
use std::sync::ledger::Blank;
use std::test::Fail;

const CELLS: usize = 1000;

const CALLS: usize = 100_000;

// The digest of `CALLS` steps, of each thread in turn.
fn step_machine(machine: &mut Machine) -> u64 {
    let mut digest = 0;
    for number in 0..CALLS {
        digest = with_did(digest, machine.step(number % 3));
    }
    digest
}

// The digest of the steps of an image's machine. With a hoard, further memory is refused.
fn machine_digest(alloc: Global, image: &Image, hoard: Option<&mut Hoard>) -> Result<u64, Fail> {
    let mut machine = Machine::load(alloc, image.code(), CELLS)?;
    if let Some(hoard) = hoard {
        hoard.take_all(alloc);
    }
    Ok(step_machine(&mut machine))
}

// Whether an image's machine isn't loaded if all memory is refused.
fn a_machine_is_refused(alloc: Global, image: &Image) -> Result<bool, AllocError> {
    let mut hoard = Hoard::new(alloc)?;
    hoard.take_all(alloc);
    let loaded = Machine::load(alloc, image.code(), CELLS);
    Ok(matches!(loaded, Err(LoadFault::Memory)))
}

// Whether a machine isn't loaded without memory, and whether a loaded machine does the same without further memory.
fn machine_goes_on(alloc: Global, image: &Image) -> Result<[bool; 2], Fail> {
    let is_refused = a_machine_is_refused(alloc, image)?;
    let wanted = machine_digest(alloc, image, None)?;
    let mut hoard = Hoard::new(alloc)?;
    let found = machine_digest(alloc, image, Some(&mut hoard))?;
    Ok([is_refused, found == wanted])
}

#[test]
fn a_machine_steps(rt: HostRuntime) -> Result<(), Fail> {
    let alloc = rt.alloc();
    let found = with_image(
        alloc,
        COUNTER,
        TWO_COUNT,
        |image| machine_goes_on(alloc, image),
    )?;
    assert_eq!(rt; found, [true, true]);
    Ok(())
}

// The digest of what the seats are answered, and how many answers are steps.
#[derive(Clone, Copy, PartialEq, Eq)]
struct Answers {
    digest: u64,
    steps: usize,
}

fn with_more(answers: Answers, more: More) -> Answers {
    let Answers { digest, steps } = answers;
    match more {
        More::Did(did) => Answers {
            digest: with_did(digest, did),
            steps: steps.wrapping_add(1),
        },
        More::Later => Answers {
            digest: mixed(digest, 30),
            steps,
        },
        More::Over => Answers {
            digest: mixed(digest, 31),
            steps,
        },
        More::Full => Answers {
            digest: mixed(digest, 32),
            steps,
        },
    }
}

// What the steps of each seat in turn are answered.
fn step_live<L: Session, R: Wait>(rt: &R, live: &Live<L>, seats: &mut [Seat<L>]) -> Answers {
    let mut answers = Answers {
        digest: 0,
        steps: 0,
    };
    for number in 0..CALLS {
        if let Some(seat) = seats.get_mut(number % 3) {
            answers = with_more(answers, live.step(rt, seat));
        }
    }
    answers
}

// What the steps of a live run are answered. With a hoard, further memory is refused.
fn answers_of<L: Session, R: Wait>(
    rt: &R,
    alloc: Global,
    blank: Blank,
    image: &Image,
    hoard: Option<&mut Hoard>,
) -> Result<Answers, LiveFault>
    requires name { blank.name ≡ L.name }
    requires parts { blank.parts ≡ L.parts }
    requires seats { (L.seats ≡ L.parts) × (L.seats ≡ length (code_of_image image.now).starts) }
    requires start { L.start ≡ loaded (code_of_image image.now) CELLS }
    requires limit { L.limit ≡ CALLS }
{
    let (live, mut seats) = Live::<L>::open(alloc, blank, image, CELLS, CALLS)?;
    if let Some(hoard) = hoard {
        hoard.take_all(alloc);
    }
    Ok(step_live(rt, &live, seats.as_mut_slice()))
}

// What the steps of a live run of an image are answered. With a hoard, further memory is refused.
fn live_answers<R: Wait>(
    rt: &R,
    alloc: Global,
    image: &Image,
    is_refused: bool,
) -> Result<Answers, Fail> {
    let mut hoard = Hoard::new(alloc)?;
    let taken = if is_refused { Some(&mut hoard) } else { None };
    let blank = Blank::new(image.code().starts().len() as u64);
    Ok(answers_of::<Brand, R>(rt, alloc, blank, image, taken)?)
}

// Whether most answers are steps, and whether they are the same without further memory.
fn live_goes_on<R: Wait>(rt: &R, alloc: Global, image: &Image) -> Result<bool, Fail> {
    let wanted = live_answers(rt, alloc, image, false)?;
    Ok(wanted.steps > CALLS / 2 && live_answers(rt, alloc, image, true)? == wanted)
}

#[test]
fn a_live_run_steps(rt: HostRuntime) -> Result<(), Fail> {
    let alloc = rt.alloc();
    assert!(rt;
        with_image(
            alloc,
            COUNTER,
            TWO_COUNT,
            |image| live_goes_on(&rt, alloc, image)
        )?
    );
    Ok(())
}
