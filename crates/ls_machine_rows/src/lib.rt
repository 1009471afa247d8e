//! Small cases of the machine, with outcomes that were worked out by hand from its table. The definitions of ls_code
//! compute exactly these. There is the word of each instruction, a step of each, and each case of the three for a
//! lock's word. This crate is above ls_code, so a new case doesn't change ls_code.
#![tactic(auto)]

ghost use Rattle.ls_machine_rows.specs.Limits.{MostCells};
ghost use Rattle.ls_machine_rows.specs.Words.{WithoutOperand, LeastOperands, GreatestOperands, OtherOperands};
ghost use Rattle.ls_machine_rows.specs.Words.{NoInstruction};
ghost use Rattle.ls_machine_rows.specs.Locks.{SeeForLock, SeeForTry, SeeForUnlock, SeeOfNull, SeeSticks, TakeWins};
ghost use Rattle.ls_machine_rows.specs.Locks.{TakeLoses, TakeOfAnother, TakePastTheMost, TakeSticks, Drops, DropSticks};
ghost use Rattle.ls_machine_rows.specs.Locks.{LockOfMonitor, UnlockOfMonitor, TwoHoldsDropped};
ghost use Rattle.ls_machine_rows.specs.Silent.{Words, Locals, Arithmetic, Divisions, Comparisons, Equality, Jumps};
ghost use Rattle.ls_machine_rows.specs.Silent.{Pairs, Nulls};
ghost use Rattle.ls_machine_rows.specs.Acting.{Fields, Items, Names, Makings, LocksInOneStep, Markables};
ghost use Rattle.ls_machine_rows.specs.Frames.{Enters, EntersNoDeeper, Leaves, Throws, Begins, Returns, Stops};
ghost use Rattle.ls_machine_rows.specs.Whole.{Due, WaitsForALock, StopsAll, States};

/// The limits.
pub fn limits()
    ensures most_cells { MostCells }
{}

/// The code words of all instructions.
pub fn words()
    ensures without_operand { WithoutOperand }
    ensures least_operands { LeastOperands }
    ensures greatest_operands { GreatestOperands }
    ensures other_operands { OtherOperands }
    ensures no_instruction { NoInstruction }
{}

/// Locks and monitors by load and exchange.
pub fn locks()
    ensures see_for_lock { SeeForLock }
    ensures see_for_try { SeeForTry }
    ensures see_for_unlock { SeeForUnlock }
    ensures see_of_null { SeeOfNull }
    ensures see_sticks { SeeSticks }
    ensures take_wins { TakeWins }
    ensures take_loses { TakeLoses }
    ensures take_of_another { TakeOfAnother }
    ensures take_past_the_most { TakePastTheMost }
    ensures take_sticks { TakeSticks }
    ensures drops { Drops }
    ensures drop_sticks { DropSticks }
    ensures lock_of_monitor { LockOfMonitor }
    ensures unlock_of_monitor { UnlockOfMonitor }
    ensures two_holds_dropped { TwoHoldsDropped }
{}

/// Instructions that the other threads never notice.
pub fn silent()
    ensures words { Words }
    ensures locals { Locals }
    ensures arithmetic { Arithmetic }
    ensures divisions { Divisions }
    ensures comparisons { Comparisons }
    ensures equality { Equality }
    ensures jumps { Jumps }
    ensures pairs { Pairs }
    ensures nulls { Nulls }
{}

/// Instructions that act.
pub fn acting()
    ensures fields { Fields }
    ensures items { Items }
    ensures names { Names }
    ensures makings { Makings }
    ensures locks_in_one_step { LocksInOneStep }
    ensures markables { Markables }
{}

/// Frames, throws, and the calls of a thread.
pub fn frames()
    ensures enters { Enters }
    ensures enters_no_deeper { EntersNoDeeper }
    ensures leaves { Leaves }
    ensures throws { Throws }
    ensures begins { Begins }
    ensures returns { Returns }
    ensures stops { Stops }
{}

/// Which threads are due, which wait, and how the machine stops.
pub fn whole()
    ensures due { Due }
    ensures waits_for_a_lock { WaitsForALock }
    ensures stops_all { StopsAll }
    ensures states { States }
{}
