// Turnstiles.

ghost use Rattle.ls_events.specs.Limits.{most_steps};
ghost use Rattle.ls_code.specs.Machine.{loaded, machine_run, machine_step};
ghost use Rattle.ls_image.specs.Images.{RunsAsItsTexts, code_of_image};
ghost use Rattle.ls_machine.specs.Room.{AreBadCells};
ghost use Rattle.ls_schedule.specs.Records.{IsRecordOf};
ghost use Rattle.ls_live.specs.Turns.{Closes, IsSeatOf, IsTurn, new_seat, seat_state, steps_of};
ghost use Rattle.ls_live.specs.Views.{dealer, given, holding, is_turn, looked};
ghost use Rattle.std.specs.List.{range_with_len};
ghost use Rattle.std.specs.Prelude.{
  ◌≡◌,
  ◌↔◌,
  ◌+◌,
  ◌-◌,
  ◌*◌,
  ◌/◌,
  ◌^◌,
  ◌<◌,
  ◌≤◌,
  ◌∷◌,
  [],
  All,
  IfErr,
  IfOk,
  IsErrOf,
  length,
  map,
  take,
  true,
  vec_capacity,
};

use crate::rule::{About, Deal, Gather, Give, Look, MachineTable, Take};
use crate::seat::TurnSeat;
use crate::turn::Turn;
use crate::view::View;
use atomic_table::{Seat, Table};
use ls_code::step::Did;
use ls_events::schedule::Schedule;
use ls_image::image::Image;
use ls_image::laws::{has_setup, runs};
use ls_machine::{LoadFault, Machine};
use ls_schedule::Record;
use std::alloc::{AllocError, Global};
use std::marker::Model;
use std::snapshot::Snapshot;

/// A machine, its tape of threads, and how many of the tape's entries are done. Each seat steps the entries of its
/// thread.
#[derive(Drop)]
pub struct Turnstile {
    table: MachineTable,
    tape: Vec<u8>,
    seats: usize,
}

impl Model for Turnstile {
    ghost use Rattle.ls_events.specs.Limits.{most_steps};
    ghost use Rattle.std.specs.Prelude.{◌≡◌, ◌<◌, ◌≤◌, vec_len};
    ghost use Rattle.ls_live.specs.Turns.{TurnstileState, turnstile_state};

    ghost Value = { TurnstileState };

    ghost view = { λ t. turnstile_state t.table.shared.table_id t.table.shared.key.code.value t.table.shared.key.cells
        t.table.shared.key.tape.value.items t.table.shared.key.seats };

    ghost invariant = { λ t. (t.tape.items ≡ t.table.shared.key.tape.value.items) × (t.seats ≡ t.table.shared.key.seats)
        × (0 < t.seats) × (vec_len t.tape ≤ most_steps) × (t.table.shared.table_id.words ≡ 1) ×
        (t.table.shared.table_id.slots ≡ 1) };
}

impl Turnstile {
    /// The turnstile of an image's machine with so many cells and of a tape, which is copied. There is one seat for
    /// each thread, the setup's first. Entries of the tape whose thread isn't there are nobody's: no seat goes on
    /// after such an entry. Refused with 35 if there are no cells, more than 4,194,304, or fewer than setup names.
    pub fn open(
        alloc: Global,
        image: &Image,
        cells: usize,
        tape: &Schedule,
    ) -> Result<(Turnstile, Vec<TurnSeat>), LoadFault>
        ensures bad { IsErrOf result LoadFault.BadCells ↔ AreBadCells (code_of_image image.now).names cells }
        ensures code { IfOk result (λ r. r.0.code ≡ code_of_image image.now) }
        ensures cells { IfOk result (λ r. r.0.cells ≡ cells) }
        ensures tape { IfOk result (λ r. r.0.tape ≡ tape.now) }
        ensures threads { IfOk result (λ r. r.0.seats ≡ length (code_of_image image.now).starts) }
        ensures some { IfOk result (λ r. 0 < r.0.seats) }
        ensures count { IfOk result (λ r. length r.1.items ≡ r.0.seats) }
        ensures seats { IfOk result (λ r. r.1.items ≡ map (new_seat r.0) (range_with_len 0 r.0.seats)) }
        ensures of { IfOk result (λ r. All (IsSeatOf r.0) r.1.items) }
        ensures image { ∥ RunsAsItsTexts image.now ∥₁ }
    {
        runs(image);
        has_setup(image);
        tape.fits();
        let machine = Machine::load(alloc, image.code(), cells)?;
        let seats = image.code().starts().len();
        let tape = tape.steps().to_vec(alloc)?;
        let about = About {
            code: Snapshot::of(image.code()),
            cells,
            tape: Snapshot::of(&tape),
            seats,
        };
        let row = Vec::with_capacity(alloc, seats)?;
        let (table, hand) = table_of(alloc, machine, &about)?;
        let turnstile = Turnstile { table, tape, seats };
        let row = turnstile.dealt(hand, row);
        Ok((turnstile, row))
    }

    // The seats, dealt from one that stands for all of them.
    fn dealt(&self, mut hand: Seat<Machine, View>, mut row: Vec<TurnSeat>) -> Vec<TurnSeat>
        requires id { hand.table_id ≡ self.now.id }
        requires hand { hand.me ≡ (dealer (loaded self.now.code self.now.cells) self.now.tape self.now.seats 0, []) }
        requires empty { row.items ≡ [] }
        requires room { self.now.seats ≤ vec_capacity row }
        ensures seats { result.items ≡ map (new_seat self.now) (range_with_len 0 self.now.seats) }
        ensures count { length result.items ≡ self.now.seats }
        ensures of { All (IsSeatOf self.now) result.items }
    {
        for thread in 0..self.seats {
            let seat = seat_of(&self.table, &mut hand, thread, self.seats - thread);
            row.push_reserved(seat);
        }
        row
    }

    // How far the tape is. Where the next entry is the seat's, the machine is at home.
    fn look(&self, seat: &mut Seat<Machine, View>) -> u64
        requires id { seat.old.table_id ≡ self.now.id }
        requires view { (seat.old.me.0.live ≡ true) × (seat.old.me.0.out ≡ 0) × (seat.old.me.0.parts ≡ 1) ×
            (seat.old.me.1 ≡ []) }
        ensures id { seat.new.table_id ≡ seat.old.table_id }
        ensures view { seat.new.me ≡ (looked seat.old.me.0 result, []) }
        ensures seen { seat.old.me.0.seen ≤ result / 2 }
        ensures within { result / 2 ≤ length seat.old.me.0.tape }
        ensures home { is_turn seat.old.me.0.tape seat.old.me.0.thread (result / 2) ≡ true → result ≡ 2 * (result / 2) }
    {
        self.table.shared.load::<Look>(seat, 0)
    }

    // Takes the machine, in one try.
    fn take(&self, seat: &mut Seat<Machine, View>, found: u64)
        requires id { seat.old.table_id ≡ self.now.id }
        requires view { (seat.old.me.0.ready ≡ true) × (seat.old.me.0.parts ≡ 1) × (seat.old.me.1 ≡ []) ×
            (found ≡ 2 * seat.old.me.0.seen) × (found < 2 ^ 63) }
        ensures id { seat.new.table_id ≡ seat.old.table_id }
        ensures view { seat.new.me ≡ (
          holding seat.old.me.0,
          (0, machine_run seat.old.me.0.start (take seat.old.me.0.seen seat.old.me.0.tape)) ∷
              [],
        ) }
    {
        self.table
            .shared
            .compare_exchange::<Take>(seat, 0, found, found + 1);
    }

    // Steps the machine that the seat holds.
    fn play(&self, seat: &mut Seat<Machine, View>, thread: usize) -> Did
        requires id { seat.old.table_id ≡ self.now.id }
        requires held { seat.old.me.1 ≡
            (0, machine_run seat.old.me.0.start (take seat.old.me.0.seen seat.old.me.0.tape)) ∷ [] }
        ensures id { seat.new.table_id ≡ seat.old.table_id }
        ensures view { seat.new.me ≡ (
          seat.old.me.0,
          (
            0,
            (machine_step (machine_run seat.old.me.0.start (take seat.old.me.0.seen seat.old.me.0.tape))
                thread).machine,
          ) ∷ [],
        ) }
        ensures did { result ≡
            (machine_step (machine_run seat.old.me.0.start (take seat.old.me.0.seen seat.old.me.0.tape)) thread).did }
    {
        seat.slot_mut(&self.table.shared, 0).step(thread)
    }

    // Gives the machine back, one entry further.
    fn give(&self, seat: &mut Seat<Machine, View>, next: u64)
        requires id { seat.old.table_id ≡ self.now.id }
        requires view { (seat.old.me.0.out ≡ 1) × (seat.old.me.0.parts ≡ 1) × (next ≡ 2 * (seat.old.me.0.seen + 1)) }
        requires held { seat.old.me.1 ≡
            (0, machine_run seat.old.me.0.start (take (seat.old.me.0.seen + 1) seat.old.me.0.tape)) ∷ [] }
        ensures id { seat.new.table_id ≡ seat.old.table_id }
        ensures view { seat.new.me ≡ (given seat.old.me.0, []) }
    {
        self.table.shared.store::<Give>(seat, 0, next);
    }

    /// Does the step of the next entry of the tape, where the entry is the seat's thread. It waits for nobody, takes no
    /// memory, and always succeeds. Where it answers `NotYet`, call it again: nobody wakes the caller.
    #[tactic(auto, using(crate::proofs::Runs::machine_run_take))]
    pub fn step(&self, seat: &mut TurnSeat) -> Turn
        requires { IsSeatOf self.now seat.old }
        ensures seat { IsSeatOf self.now seat.new }
        ensures turn { IsTurn self.now seat.old result seat.new }
    {
        let thread = seat.thread;
        let found = self.look(&mut seat.seat);
        let place = (found / 2) as usize;
        seat.seen = place;
        if place >= self.tape.len() {
            return Turn::Over;
        }
        if self.tape[place] as usize != thread {
            return Turn::NotYet { place };
        }
        self.take(&mut seat.seat, found);
        let did = self.play(&mut seat.seat, thread);
        self.give(&mut seat.seat, found + 2);
        seat.seen = place + 1;
        seat.steps += 1;
        Turn::Stepped { place, did }
    }

    /// The record of the entries that are done, with the machine after them. Refused where a seat is missing, and then
    /// all is handed back as it was. It waits for nobody and takes no memory.
    pub fn close(self, seats: Vec<TurnSeat>) -> Result<Record, (Turnstile, Vec<TurnSeat>)>
        requires { All (IsSeatOf self) seats.items }
        ensures closed { IfOk result (Closes self seats.items) }
        ensures missing { IfErr result (λ e. length seats.items < self.seats) }
        ensures unchanged { IfErr result (λ e. (e.0 ≡ self) × (e.1.items ≡ seats.items)) }
    {
        if seats.len() < self.seats {
            return Err((self, seats));
        }
        let all = self.all_of(seats);
        let Turnstile {
            table,
            tape,
            seats: _,
        } = self;
        Ok(finish(table, all, tape))
    }

    // One seat in place of all of these.
    fn all_of(&self, mut seats: Vec<TurnSeat>) -> Seat<Machine, View>
        requires some { 0 < length seats.items }
        requires seats { All (IsSeatOf self.now) seats.items }
        ensures id { result.table_id ≡ self.now.id }
        ensures all { (result.me.0.out ≡ 0) × (result.me.1 ≡ []) }
        ensures parts { result.me.0.parts ≡ length seats.items }
        ensures steps { result.me.0.steps ≡ steps_of seats.items }
        ensures seen { All (λ c. c.seen ≤ result.me.0.seen) seats.items }
    {
        let Some(last) = seats.pop() else {
            unreachable!()
        };
        let TurnSeat {
            seat: mut all,
            thread: _,
            seen: _,
            steps: _,
        } = last;
        self.join_all(&mut all, seats);
        all
    }

    // Takes seats into another.
    fn join_all(&self, all: &mut Seat<Machine, View>, seats: Vec<TurnSeat>)
        requires id { all.old.table_id ≡ self.now.id }
        requires all { (all.old.me.0.out ≡ 0) × (all.old.me.1 ≡ []) }
        requires seats { All (IsSeatOf self.now) seats.items }
        ensures id { all.new.table_id ≡ all.old.table_id }
        ensures all { (all.new.me.0.out ≡ 0) × (all.new.me.1 ≡ []) }
        ensures parts { all.new.me.0.parts ≡ all.old.me.0.parts + length seats.items }
        ensures steps { all.new.me.0.steps ≡ all.old.me.0.steps + steps_of seats.items }
        ensures seen { (all.old.me.0.seen ≤ all.new.me.0.seen) × All (λ c. c.seen ≤ all.new.me.0.seen) seats.items }
    {
        for seat in seats {
            self.join(all, seat);
        }
    }

    // Takes a seat into another.
    fn join(&self, all: &mut Seat<Machine, View>, seat: TurnSeat)
        requires id { all.old.table_id ≡ self.now.id }
        requires all { (all.old.me.0.out ≡ 0) × (all.old.me.1 ≡ []) }
        requires seat { IsSeatOf self.now seat }
        ensures id { all.new.table_id ≡ all.old.table_id }
        ensures all { (all.new.me.0.out ≡ 0) × (all.new.me.1 ≡ []) }
        ensures parts { all.new.me.0.parts ≡ all.old.me.0.parts + 1 }
        ensures steps { all.new.me.0.steps ≡ all.old.me.0.steps + seat.steps }
        ensures seen { (all.old.me.0.seen ≤ all.new.me.0.seen) × (seat.seen ≤ all.new.me.0.seen) }
    {
        let TurnSeat {
            seat: other,
            thread: _,
            seen: _,
            steps: _,
        } = seat;
        self.table.shared.join_seat::<Gather>(all, other);
    }
}

// The table of a machine at its start, and a seat that stands for all seats.
fn table_of(
    alloc: Global,
    machine: Machine,
    about: &About,
) -> Result<(MachineTable, Seat<Machine, View>), AllocError>
    requires { machine ≡ loaded about.now.code.value about.now.cells }
    ensures counts { IfOk result (λ t. (t.0.shared.table_id.words ≡ 1) × (t.0.shared.table_id.slots ≡ 1)) }
    ensures key { IfOk result (λ t. t.0.shared.key ≡ about.now) }
    ensures id { IfOk result (λ t. t.1.table_id ≡ t.0.shared.table_id) }
    ensures seat { IfOk result
        (λ t. t.1.me ≡
        (dealer (loaded about.now.code.value about.now.cells) about.now.tape.value.items about.now.seats 0, [])) }
{
    let mut slots = Vec::with_capacity(alloc, 1)?;
    slots.push_reserved(machine);
    match Table::new(alloc, &[0], slots, about) {
        Ok(pair) => Ok(pair),
        Err(_) => Err(AllocError),
    }
}

// The seat of a thread. So many are left to deal.
fn seat_of(
    table: &MachineTable,
    hand: &mut Seat<Machine, View>,
    thread: usize,
    left: usize,
) -> TurnSeat
    requires id { (hand.old.table_id ≡ table.now.shared.table_id) × (table.now.shared.table_id.words ≡ 1) }
    requires some { 0 < left }
    requires hand { hand.old.me ≡ (
      dealer (loaded table.now.shared.key.code.value table.now.shared.key.cells)
          table.now.shared.key.tape.value.items left thread,
      [],
    ) }
    ensures id { hand.new.table_id ≡ hand.old.table_id }
    ensures hand { hand.new.me ≡ (
      dealer (loaded table.now.shared.key.code.value table.now.shared.key.cells)
          table.now.shared.key.tape.value.items (left - 1) (thread + 1),
      [],
    ) }
    ensures seat { result ≡
        seat_state table.now.shared.table_id (loaded table.now.shared.key.code.value table.now.shared.key.cells)
        table.now.shared.key.tape.value.items thread 0 0 }
{
    let seat = table.shared.split_seat::<Deal>(hand);
    TurnSeat {
        seat,
        thread,
        seen: 0,
        steps: 0,
    }
}

// The record, where the seat stands for all seats.
fn finish(table: MachineTable, all: Seat<Machine, View>, mut tape: Vec<u8>) -> Record
    requires id { (all.table_id ≡ table.shared.table_id) × (table.shared.table_id.words ≡ 1) ×
        (table.shared.table_id.slots ≡ 1) }
    requires all { (table.shared.key.seats ≤ all.me.0.parts) × (all.me.0.out ≡ 0) }
    requires tape { tape.items ≡ table.shared.key.tape.value.items }
    requires most { length tape.items ≤ most_steps }
    ensures record { IsRecordOf table.shared.key.code.value table.shared.key.cells (take all.me.0.steps tape.items)
        result }
    ensures bounds { (all.me.0.steps ≤ length tape.items) × (all.me.0.seen ≤ all.me.0.steps) ×
        (all.me.0.parts ≡ table.shared.key.seats) }
{
    let mut closed = table.close_with(all);
    let done = (closed.word(0) / 2) as usize;
    let machine = closed.take(0);
    closed.free();
    tape.truncate(done);
    Record::new(Schedule::of(tape), machine)
}
