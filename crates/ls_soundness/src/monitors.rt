// Laws of the statement: the functions compute nothing, and their contracts say the laws.

ghost use Rattle.ls_soundness.specs.Laws.{CompletesAsItsBlock, BreaksAsItsBlock, TakesThreeMore, IsTypedByItsParts};
ghost use Rattle.ls_soundness.specs.Laws.{JumpsAsItsBlock};
ghost use Rattle.ls_soundness.specs.Meaning.{HoldsTheMonitor};
ghost use Rattle.ls_soundness.specs.Kept.{KeepsTheSlot, MethodKeepsTheSlot, HoldsItsMonitor, FileHoldsMonitors};

/// It can complete normally if its block can, and its breaks are those of its block.
pub fn completes_as_its_block()
    ensures completes { CompletesAsItsBlock }
    ensures breaks { BreaksAsItsBlock }
    ensures jumps { JumpsAsItsBlock }
{}

/// A method with the statement has three locals more than with its block alone.
pub fn takes_three_more()
    ensures { TakesThreeMore }
{}

/// It is typed if its expression is an object of the class and its block is typed.
pub fn is_typed_by_its_parts()
    ensures { IsTypedByItsParts }
{}

/// If no statement of the block assigns to the slot, its course is the standard's. That is the object, the lock of its
/// monitor, the block, and the unlock. However the block completes, the monitor of the same object is unlocked.
pub fn holds_the_monitor()
    ensures { HoldsTheMonitor }
{}

/// Elaborated statements and methods keep the slot: no statement of the block assigns to it, whatever the block is.
pub fn the_slot_is_kept()
    ensures statement { KeepsTheSlot }
    ensures method { MethodKeepsTheSlot }
{}

/// So each `synchronized` of an elaborated file has the course of the standard.
pub fn elaborated_holds_monitors()
    ensures statement { HoldsItsMonitor }
    ensures file { FileHoldsMonitors }
{}
