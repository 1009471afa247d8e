// The laws of linking: the functions compute nothing, and their contracts say the laws.

ghost use Rattle.std.specs.Prelude.{All};
ghost use Rattle.ls_checked.specs.CheckedTree.{File};
ghost use Rattle.ls_checked.specs.CheckedProgram.{Program};
ghost use Rattle.ls_preservation.specs.Threads.{Asks};
ghost use Rattle.ls_preservation.specs.ByWords.{IsExchanged};
ghost use Rattle.ls_lowered.specs.LoweredTree as low;
ghost use Rattle.ls_emit.specs.Units.{units_of};
ghost use Rattle.ls_emit.specs.Emittable.{IsEmittableFile};
ghost use Rattle.ls_emit.specs.Entering.{UnitsAsk};
ghost use Rattle.ls_linker.specs.Linked.{linked};
ghost use Rattle.ls_linker.specs.Laws.{LoweredAsks};
ghost use Rattle.ls_types_judgement.specs.Programs.{IsTypedProgram};
ghost use Rattle.ls_linker.specs.Example.{LinksSo};
ghost use Rattle.ls_linker.specs.Units.{AnyUnitsAsk, AnyUnitsAreSame};

use ls_preservation::laws::same_traces;
use ls_soundness::laws::is_sound;

/// Assume that a lowered file asks as its file, and that its units ask as its methods, in whatever code the units lie.
/// Then the threads of the whole code ask what the threads of the source ask.
pub fn linked_asks()
    ensures { (file : File) (program : Program) (lowered : low.File) → LoweredAsks file lowered →
        IsEmittableFile lowered → UnitsAsk lowered (units_of lowered) → IsTypedProgram file program →
        Asks file program (linked file program (units_of lowered)) }
{}

/// The same holds of any units that stand for the methods of the lowered file, whoever emitted them. Each unit takes
/// as many arguments as its method, and asks what the method asks, within the bound of one frame.
pub fn any_units_ask()
    ensures { AnyUnitsAsk }
{}

/// The code to which such units are linked is the same as the source. Each schedule of instructions has a schedule of
/// source steps with the same trace and history. Each schedule of source steps that fits has a schedule of
/// instructions. `compile` doesn't go this way: `compiled_runs` says the same of its own units.
pub fn any_units_are_same()
    ensures { AnyUnitsAreSame }
{
    any_units_ask();
    is_sound();
    same_traces();
}

/// The whole code takes locks only by a load and an exchange.
#[tactic(auto, using(crate::proofs::Exchanged::linked_exchanges))]
pub fn linked_exchanges()
    ensures { (file : File) (program : Program) (lowered : low.File) →
        All IsExchanged (linked file program (units_of lowered)).instructions }
{}

/// The code to which a small program's units and threads are linked. Jumps and rows are moved. The code of each thread
/// comes after the units, with its row and its start.
pub fn example()
    ensures { LinksSo }
{}
