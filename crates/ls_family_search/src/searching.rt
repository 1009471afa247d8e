// The search, window by window.

ghost use Rattle.std.specs.Prelude.{◌≡◌, ◌<◌, ◌≤◌, IfOk, length};
ghost use Rattle.ls_families.specs.Families.{plans};
ghost use Rattle.ls_family_search.specs.Searched.{IsFinding, PassedAreGood};
ghost use Rattle.ls_family_search.specs.Watching.{GoesOn};

use crate::judging::{Halted, Judge, Passed};
use crate::programs::{Numbers, Programs};
use crate::watching::SearchWatch;
use crate::windows::{join, outcomes_of};
use std::alloc::{AllocError, Global};
use std::thread::Threads;

/// What a search says of the numbers of a range: how those are passed that come before its end, from the first on, and
/// the program with which it ends.
#[derive(Drop)]
pub struct Finding<H> {
    pub passed: Vec<Passed>,
    /// None if the whole range was passed.
    pub halted: Option<Halted<H>>,
}

/// How many programs the first window has. Each window has twice as many as the one before it, up to a most. So a
/// search that ends soon judges few programs past its end.
const FIRST_WINDOW: u64 = 16;

const MOST_IN_WINDOW: u64 = 1_024;

fn grown(size: u64) -> u64
    ensures { 0 < result }
{
    size.saturating_mul(2).min(MOST_IN_WINDOW).max(1)
}

/// Goes through the programs of a range of numbers, until the judge ends it. The programs of a window are judged side
/// by side, and windows one after another. The answer is the one of a search by one thread. The only refusal is that
/// memory ran out.
pub fn search<J: Judge + Sync, W: SearchWatch>(
    rt: &(impl Threads + Sync),
    judge: &J,
    alloc: Global,
    programs: &Programs<'_>,
    numbers: Numbers,
    watch: &mut W,
) -> Result<Finding<J::Why>, AllocError>
    requires order { numbers.from ≤ numbers.to }
    requires there { numbers.to ≤ length (plans programs.now.family) }
    ensures finding { IfOk result (IsFinding programs.now (J.IsGood judge.now) (J.IsCut judge.now) (J.Halts judge.now)
        numbers.from numbers.to) }
    ensures good { IfOk result (PassedAreGood programs.now (J.IsGood judge.now) numbers.from) }
    ensures watched { GoesOn W.Since watch.old watch.new }
{
    let Numbers { from, to } = numbers;
    let mut passed = Vec::new(alloc);
    let mut next = from;
    let mut size = FIRST_WINDOW;
    while next < to {
        let last = to.min(next.saturating_add(size));
        let window = Numbers {
            from: next,
            to: last,
        };
        let outcomes = outcomes_of(rt, judge, alloc, programs, from, window)?;
        if let Some(halted) = join(&mut passed, outcomes)? {
            return Ok(Finding {
                passed,
                halted: Some(halted),
            });
        }
        next = last;
        size = grown(size);
        watch.note_programs(next - from, to - from);
    }
    Ok(Finding {
        passed,
        halted: None,
    })
}
