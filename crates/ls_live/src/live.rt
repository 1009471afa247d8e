// A machine under a lock, and the seats that step it.

ghost use Rattle.ls_image.specs.Images.{code_of_image};
ghost use Rattle.ls_code.specs.Machine.{loaded};
ghost use Rattle.ls_live.specs.Seats.{done_by, seat_after};
ghost use Rattle.ls_live.specs.BookSeats.{Seat as SeatValue, agrees, seat_of};
ghost use Rattle.ls_live.specs.declared.book.Told.TheVariants.{Nothing};
ghost use Rattle.ls_machine.specs.Room.{AreBadCells};
ghost use Rattle.std.specs.List.{list_all};
ghost use Rattle.std.specs.Prelude.{◌≡◌, ◌↔◌, ℕ, ◌+◌, ◌≤◌, ◌<◌, ◌^◌, length, sum_by, IfOk, IfErr, IsErrOf};
ghost use Rattle.std.specs.Prelude.{slice_get, Some, true, vec_len, vec_capacity};

use crate::fault::LiveFault;
use crate::{Book, More, Session, Told};
use ls_events::schedule::MOST_STEPS;
use ls_image::image::Image;
use ls_machine::{LoadFault, Machine, are_bad_cells};
use ls_schedule::Record;
use std::alloc::Global;
use std::marker::Model;
use std::sync::ledger::{Blank, Share};
use std::sync::{Mutex, Wait, ledger};

// What the lock guards: the book, the ledger of the seats' steps, and a share of no part and no step.
#[derive(Drop)]
struct Desk<L: Session> {
    book: Book<L>,
    steps: ledger::Book<L>,
    spare: Share<L>,
    ghost counted: { length book ≡ steps.total },
    ghost spare_parts: { spare.parts ≡ 0 },
    ghost spare_amount: { spare.amount ≡ 0 },
}

/// What steps a thread. Contracts see the thread, how many steps the seat made, and what it was told last.
#[derive(Drop)]
pub struct Seat<L: Session> {
    thread: usize,
    steps: u64,
    told: Told,
    share: Share<L>,
}

impl<L: Session> Model for Seat<L> {
    ghost Value = { SeatValue };

    ghost view = { λ s. seat_of s.thread s.steps s.told };

    ghost invariant = { λ s. (s.share.parts ≡ 1) × (s.share.amount ≡ s.steps) };
}

/// A machine and its record, which a lock guards.
#[derive(Drop)]
pub struct Live<L: Session> {
    desk: Mutex<Desk<L>>,
    seats: usize,
    ghost all_seats: { seats ≡ L.seats },
}

/// Why a live run is not closed.
#[derive(Drop)]
pub enum CloseFault<L: Session> {
    /// 50: a seat is missing. The run goes on.
    Missing { live: Live<L>, seats: Vec<Seat<L>> },
    /// 54: a seat disagrees with the record.
    Disagree { kept: Record, seats: Vec<Seat<L>> },
}

impl<L: Session> Desk<L> {
    // Steps the thread, and counts a step that is done in its share.
    fn step(&mut self, thread: usize, share: &mut Share<L>) -> More
        requires part { 0 < share.old.parts }
        ensures amount { share.new.amount ≡ share.old.amount + done_by result }
        ensures parts { share.new.parts ≡ share.old.parts }
        ensures fits { share.new.amount < 2 ^ 64 }
    {
        let Desk {
            book,
            steps,
            spare: _,
        } = self;
        let more = book.step(thread);
        if let More::Did(_) = more {
            steps.add(share, 1);
        }
        steps.audit(share);
        let _recorded = book.len();
        more
    }
}

impl<L: Session> Seat<L> {
    /// Its thread.
    pub fn thread(&self) -> usize
        ensures { result ≡ self.now.thread }
    {
        self.thread
    }

    /// How many steps it made.
    pub fn steps(&self) -> u64
        ensures { result ≡ self.now.steps }
    {
        self.steps
    }

    /// Which of `Over` and `Full` it was told last.
    pub fn told(&self) -> Told
        ensures { result ≡ self.now.told }
    {
        self.told
    }
}

// The machine of an image.
fn load(alloc: Global, image: &Image, cells: usize) -> Result<Machine, LiveFault>
    ensures cells { IsErrOf result LiveFault.BadCells ↔ AreBadCells (code_of_image image.now).names cells }
    ensures limit { ¬ IsErrOf result LiveFault.BadLimit }
    ensures machine { IfOk result (λ m. m ≡ loaded (code_of_image image.now) cells) }
{
    match Machine::load(alloc, image.code(), cells) {
        Ok(machine) => Ok(machine),
        Err(LoadFault::BadCells) => Err(LiveFault::BadCells),
        Err(LoadFault::Memory) => Err(LiveFault::Memory),
    }
}

// One seat for each thread, each with a part of the share, and the share that is left.
fn seated<L: Session>(
    mut seats: Vec<Seat<L>>,
    mut rest: Share<L>,
    count: usize,
) -> (Vec<Seat<L>>, Share<L>)
    requires empty { vec_len seats ≡ 0 }
    requires room { count ≤ vec_capacity seats }
    requires parts { rest.parts ≡ count }
    requires amount { rest.amount ≡ 0 }
    ensures seats { length result.0.items ≡ count }
    ensures seat { (t : ℕ) → t < count → slice_get result.0.items t ≡ Some (seat_of t 0 Nothing) }
    ensures parts { result.1.parts ≡ 0 }
    ensures amount { result.1.amount ≡ 0 }
{
    for thread in 0..count {
        let share = rest.split_off(1, 0);
        seats.push_reserved(Seat {
            thread,
            steps: 0,
            told: Told::Nothing,
            share,
        });
    }
    (seats, rest)
}

// There are at most as many seats as parts. If there are as many, their steps are the total.
fn audit_all<L: Session>(steps: &mut ledger::Book<L>, seats: &mut [Seat<L>], seen: &mut Share<L>)
    requires apart { seen.old.parts ≤ L.parts }
    requires backed { seen.old.parts ≡ 0 → seen.old.amount ≡ 0 }
    ensures seats { seats.new ≡ seats.old }
    ensures parts { seen.new.parts ≡ seen.old.parts }
    ensures amount { seen.new.amount ≡ seen.old.amount }
    ensures total { steps.new.total ≡ steps.old.total }
    ensures apart { seen.old.parts + length seats.old ≤ L.parts }
    ensures whole { seen.old.parts + length seats.old ≡ L.parts → seen.old.amount + sum_by (λ s. s.steps) seats.old ≡
        steps.old.total }
{
    match seats.split_first_mut() {
        None => steps.audit(seen),
        Some((seat, rest)) => {
            seat.share.give(seen, 1, seat.steps);
            audit_all(steps, rest, seen);
            seen.give(&mut seat.share, 1, seat.steps);
        }
    }
}

// The seats as they were. If there are as many as parts, their steps are the total.
fn audited<L: Session>(
    steps: &mut ledger::Book<L>,
    mut seats: Vec<Seat<L>>,
    spare: &mut Share<L>,
) -> Vec<Seat<L>>
    requires parts { spare.old.parts ≡ 0 }
    requires amount { spare.old.amount ≡ 0 }
    ensures same { result.items ≡ seats.items }
    ensures few { length seats.items ≤ L.parts }
    ensures whole { length seats.items ≡ L.parts → sum_by (λ s. s.steps) seats.items ≡ steps.old.total }
{
    audit_all(steps, seats.as_mut_slice(), spare);
    seats
}

fn agree_all<L: Session>(book: &Book<L>, seats: &[Seat<L>]) -> bool
    ensures { result ≡ list_all (agrees L.start L.limit book.now) seats.now }
{
    seats.iter().all(|seat| book.agrees_with(seat.thread, seat.steps, seat.told))
}

impl<L: Session> Live<L> {
    ghost use Rattle.ls_events.specs.Limits.{most_steps};
    ghost use Rattle.ls_live.specs.Closing.{IsClosed, IsNotClosed};

    /// A live run of an image on `cells` cells, with at most `limit` steps. It has one seat for each thread, that of
    /// the setup first. All memory is taken here.
    ///
    /// Refused with 35 if there are no cells, over 4,194,304, or fewer than setup names. Else refused with 51 if the
    /// limit is over 1,000,000 steps. Else the only refusal is that memory ran out.
    pub fn open(
        alloc: Global,
        blank: Blank,
        image: &Image,
        cells: usize,
        limit: usize,
    ) -> Result<(Live<L>, Vec<Seat<L>>), LiveFault>
        requires name { blank.name ≡ L.name }
        requires parts { blank.parts ≡ L.parts }
        requires seats { (L.seats ≡ L.parts) × (L.seats ≡ length (code_of_image image.now).starts) }
        requires start { L.start ≡ loaded (code_of_image image.now) cells }
        requires limit { L.limit ≡ limit }
        ensures cells { IsErrOf result LiveFault.BadCells ↔ AreBadCells (code_of_image image.now).names cells }
        ensures limit { IsErrOf result LiveFault.BadLimit ↔ (¬ AreBadCells (code_of_image image.now).names cells ×
            (most_steps < limit)) }
        ensures seats { IfOk result (λ r. length r.1.items ≡ L.seats) }
        ensures seat { IfOk result (λ r. (t : ℕ) → t < L.seats → slice_get r.1.items t ≡ Some (seat_of t 0 Nothing)) }
    {
        if are_bad_cells(image.code(), cells) {
            return Err(LiveFault::BadCells);
        }
        if limit > MOST_STEPS {
            return Err(LiveFault::BadLimit);
        }
        let count = image.code().starts().len();
        let machine = load(alloc, image, cells)?;
        let schedule = Vec::with_capacity(alloc, limit)?;
        let empty = Vec::with_capacity(alloc, count)?;
        let (steps, all) = blank.open::<L>();
        let (seats, spare) = seated(empty, all, count);
        let desk = Desk {
            book: Book::new(machine, schedule, limit),
            steps,
            spare,
        };
        let live = Live {
            desk: Mutex::new(desk),
            seats: count,
        };
        Ok((live, seats))
    }

    /// Takes the lock, and steps the thread of the seat in the book. It takes no memory. Tests show that it answers
    /// what the book answers.
    pub fn step(&self, rt: &impl Wait, seat: &mut Seat<L>) -> More
        ensures { seat.new ≡ seat_after seat.old result }
    {
        let more = self.desk.lock(rt).step(seat.thread, &mut seat.share);
        match more {
            More::Over => seat.told = Told::Over,
            More::Full => seat.told = Told::Full,
            More::Later => {}
            More::Did(_) => seat.steps += 1,
        }
        more
    }

    /// The record, if all seats are given and agree with it. It takes no memory. Refused with 50 exactly if a seat is
    /// missing. Else refused with 54 exactly if a seat disagrees.
    pub fn close(self, seats: Vec<Seat<L>>) -> Result<Record, CloseFault<L>>
        requires { L.seats ≡ L.parts }
        ensures closed { IfOk result (IsClosed L.start L.limit L.seats seats.items true) }
        ensures refused { IfErr result (IsNotClosed L.start L.limit L.seats seats.items) }
    {
        if seats.len() < self.seats {
            return Err(CloseFault::Missing { live: self, seats });
        }
        let Live { desk, seats: _ } = self;
        let Desk {
            book,
            mut steps,
            mut spare,
        } = desk.into_inner();
        let seats = audited(&mut steps, seats, &mut spare);
        if agree_all(&book, seats.as_slice()) {
            Ok(book.into_record())
        } else {
            Err(CloseFault::Disagree {
                kept: book.into_record(),
                seats,
            })
        }
    }
}
