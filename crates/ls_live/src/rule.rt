// The rule of a turnstile's table, and the kinds of step that keep it. The table has one word and one slot. The word is
// twice the number of entries done, and one more while the machine is out with the seat of the next entry; else it is
// in the slot.

ghost use Rattle.ls_code.specs.Machine.{loaded};
ghost use Rattle.ls_live.specs.Views.{
  GivesBack,
  Keeps,
  Looks,
  Takes,
  both,
  dealer,
  dealt_left,
  dealt_right,
  spent,
};

use crate::view::View;
use atomic_table::{Join, Play, Split, Table, TableRule};
use ls_code::code::Code;
use ls_machine::Machine;
use std::alloc::Global;
use std::snapshot::Snapshot;

/// What the rule may read: the code and the number of cells with which the machine began, the tape, and the number of
/// seats.
#[derive(Drop)]
pub struct About {
    pub code: Snapshot<Code>,
    pub cells: usize,
    pub tape: Snapshot<Vec<u8>>,
    pub seats: usize,
}

pub struct TurnstileRule;

impl TableRule<Machine, View, About> for TurnstileRule {
    ghost holds = { λ k s. Keeps (loaded k.code.value k.cells) k.tape.value.items k.seats s };

    ghost first = { λ k. dealer (loaded k.code.value k.cells) k.tape.value.items k.seats 0 };
}

pub type MachineTable = Table<Machine, View, About, TurnstileRule, Global>;

/// A load of the word: how far the tape is.
pub struct Look;

impl Play<Machine, View> for Look {
    ghost then = { Looks };
}

/// An exchange of the word by the seat whose turn it is: the machine goes out with it.
pub struct Take;

impl Play<Machine, View> for Take {
    ghost then = { Takes };
}

/// A store of the word by the seat that has the machine: it comes back, one entry further.
pub struct Give;

impl Play<Machine, View> for Give {
    ghost then = { GivesBack };
}

/// A thread's seat is cut off.
pub struct Deal;

impl Split<View> for Deal {
    ghost left = { dealt_left };

    ghost right = { dealt_right };
}

/// A seat is taken into another.
pub struct Gather;

impl Join<View> for Gather {
    ghost both = { both };

    ghost spent = { spent };
}
