// The law of the lowering, over pure trees.

ghost use Rattle.ls_checked.specs.CheckedTree.{File as CheckedFile};
ghost use Rattle.ls_types_judgement.specs.Typing.{IsTypedFile};
ghost use Rattle.ls_refs.specs.Laws.{AsksAsFile};
ghost use Rattle.ls_refs.specs.Refused.{AllSlotted};

/// After answers in kind the words of a typed file's calls ask what the calls ask. `suited_in_call` of `ls_soundness`
/// hands this on.
pub fn asks_as_file()
    ensures { (file : CheckedFile) → IsTypedFile file → AsksAsFile file }
{}

/// Each method of a typed file has slots for `this` and its parameters.
#[tactic(auto, using(crate::proofs::Slots::all_slotted))]
pub fn has_slots()
    ensures { (file : CheckedFile) → IsTypedFile file → AllSlotted file.methods }
{}
