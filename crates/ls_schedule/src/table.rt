// A table of the names of one byte, and the items that it reads.

ghost use Rattle.ls_events.specs.Limits.{most_steps};
ghost use Rattle.ls_schedule.specs.Answers.{capped_turns, more_steps, so_far};
ghost use Rattle.ls_schedule.specs.Reading.{thread_name};
ghost use Rattle.ls_schedule.specs.Table.{IsShort, IsTable};
ghost use Rattle.std.specs.Prelude.{◌≡◌, ◌≢◌, ◌≤◌, ◌∷◌, [], ℕ, IfOk, IfSome, Ok, length, map, slice_index};

use crate::pieces::ends_word;
use crate::reading::{Who, read_item};
use ls_checked::program::ThreadProgram;
use ls_events::schedule::Schedule;
use ls_items::is_gap;
use std::alloc::AllocError;

// The entry of a byte that is no name.
const NOBODY: u8 = 255;

// The entry of each byte: the thread whose name it is.
pub type Table = [u8; 256];

// The thread of which a byte alone, as an item, is one step.
fn thread_of(byte: u8, threads: &[ThreadProgram]) -> Option<u8>
    requires { length threads.now ≤ 65 }
    ensures { IfSome result (λ t. (at : ℕ) → capped_turns (map thread_name threads.now) (at, byte ∷ []) ≡
        Ok (t ∷ [], 1)) }
{
    let Ok(said) = read_item(0, &[byte], threads) else {
        return None;
    };
    if said.count != 1 {
        return None;
    }
    match said.who {
        Who::One(thread) => Some(thread),
        Who::All => None,
    }
}

fn set_entry(table: &mut Table, byte: u8, thread: u8)
    ensures is_set { slice_index table.new byte ≡ thread }
    ensures others { (b : ℕ) → b ≢ byte → slice_index table.new b ≡ slice_index table.old b }
{
    table[usize::from(byte)] = thread;
}

// Enters the thread whose name is a byte.
fn enter_byte(table: &mut Table, byte: u8, threads: &[ThreadProgram])
    requires few { length threads.now ≤ 65 }
    requires table { IsTable (map thread_name threads.now) table.old }
    ensures { IsTable (map thread_name threads.now) table.new }
{
    if ends_word(byte) {
        return;
    }
    if let Some(thread) = thread_of(byte, threads) {
        set_entry(table, byte, thread);
    }
}

// Enters a thread if its name has one byte.
fn enter(table: &mut Table, name: &[u8], threads: &[ThreadProgram])
    requires few { length threads.now ≤ 65 }
    requires table { IsTable (map thread_name threads.now) table.old }
    ensures { IsTable (map thread_name threads.now) table.new }
{
    if name.len() == 1 {
        enter_byte(table, name[0], threads);
    }
}

// The table of a program's threads.
pub fn table_of(threads: &[ThreadProgram]) -> Table
    requires { length threads.now ≤ 65 }
    ensures { IsTable (map thread_name threads.now) result }
{
    let mut table = [NOBODY; 256];
    for thread in threads {
        enter(&mut table, thread.name.as_bytes(), threads);
    }
    table
}

// The thread of the item of one byte with which a text begins, if a gap follows it.
#[inline(always)]
pub fn short_item(table: &Table, text: &[u8]) -> Option<u8>
    ensures { IfSome result (IsShort table.now text.now) }
{
    if text.len() < 2 || !is_gap(text[1]) {
        return None;
    }
    let thread = table[usize::from(text[0])];
    if thread == NOBODY { None } else { Some(thread) }
}

// Appends one step if those so far fit, and tells whether they all do.
#[inline(always)]
pub fn goes_on_once(fits: bool, schedule: &mut Schedule, thread: u8) -> Result<bool, AllocError>
    requires { length schedule.old ≤ most_steps }
    ensures more { IfOk result (λ now. so_far now schedule.new ≡
        more_steps (so_far fits schedule.old) (thread ∷ []) 1) }
    ensures few { length schedule.new ≤ most_steps }
{
    if !fits {
        return Ok(false);
    }
    if schedule.is_full() {
        return Ok(false);
    }
    schedule.push(thread)?;
    Ok(true)
}
