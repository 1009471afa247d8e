// A stack of frames, the innermost last.

ghost use Rattle.std.specs.Prelude.{◌≡◌, ◌<◌, ◌≤◌, ◌+◌, [], ◌∷◌, vec_len, vec_capacity, MatchOption, IfSome};
ghost use Rattle.ls_source_pending.specs.Seen.{frame_of, frames_of};

use crate::work::Frame;

/// One frame more. There must be room for it.
#[tactic(auto, using(crate::proofs::Stacks::one_more))]
#[inline(always)]
pub fn push<'a>(frames: &mut Vec<Frame<'a>>, frame: Frame<'a>)
    requires { vec_len frames.old < vec_capacity frames.old }
    ensures frames { frames_of frames.new.items ≡ frame_of frame.entry ∷ frames_of frames.old.items }
    ensures len { vec_len frames.new ≡ vec_len frames.old + 1 }
    ensures capacity { vec_capacity frames.old ≤ vec_capacity frames.new }
{
    match frames.push(frame) {
        Ok(()) => {}
        Err(_) => unreachable!(),
    }
}

/// Takes the innermost frame away, and leaves its room.
#[tactic(auto, using(crate::proofs::Stacks::one_more, crate::proofs::Stacks::none_left))]
#[inline(always)]
pub fn pop<'a>(frames: &mut Vec<Frame<'a>>) -> Option<Frame<'a>>
    requires { vec_len frames.old < vec_capacity frames.old }
    ensures frames { MatchOption result ((frames_of frames.old.items ≡ []) × (frames_of frames.new.items ≡ []))
        (λ f. frames_of frames.old.items ≡ frame_of f ∷ frames_of frames.new.items) }
    ensures len { vec_len frames.new ≤ vec_len frames.old }
    ensures capacity { vec_capacity frames.old ≤ vec_capacity frames.new }
{
    frames.pop()
}
