// Where leaves out of a statement lead.

ghost use Rattle.std.specs.Prelude.{◌≡◌};
ghost use Rattle.ls_emit.specs.Statements.{target_of};
ghost use Rattle.ls_emit.specs.Targets.{targets_of};

/// The leavable statements around a statement, the innermost first.
#[derive(Clone, Copy)]
pub enum Around<'a> {
    Nothing,
    /// Where the exits of a leavable statement begin, where the statement ends, and what is around it.
    Leavable(&'a [u32], u32, &'a Around<'a>),
}

/// The place to which the leave of this number leads.
#[tactic(auto, using(crate::proofs::Leaves::target_front, crate::proofs::Leaves::target_end, crate::proofs::Leaves::target_behind))]
pub fn find_target(around: &Around, number: usize) -> u32
    ensures { result ≡ target_of (targets_of around.now) number }
{
    match around {
        Around::Nothing => 0,
        Around::Leavable(exits, end, outer) => {
            let count = exits.len();
            if number < count {
                exits[number]
            } else if number == count {
                *end
            } else {
                find_target(outer, number - count - 1)
            }
        }
    }
}
