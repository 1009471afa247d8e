// What a search of programs finds, and how many of the first have no data race.

ghost use Rattle.std.specs.Prelude.{◌≡◌, ◌++◌, ◌≤◌, IfOk, length, option_map};
ghost use Rattle.ls_explore.specs.Watching.{GoesOn};
ghost use Rattle.ls_families.specs.Families.{plans};
ghost use Rattle.ls_find.specs.Family.{IsFound};
ghost use Rattle.ls_find_races.specs.Quiet.{FirstAreFree};
ghost use Rattle.ls_items.specs.Cutting.{plain_text};

use crate::among::Asked;
use crate::noting::searched;
use ls_explore::Watch;
use ls_family_search::{Finding, Numbers, Passed};
use ls_find::Why;
use ls_find_races::QuietExplorer;
use std::alloc::{AllocError, Global};
use std::thread::Threads;

/// What a search of programs finds.
#[derive(Drop)]
pub(crate) struct Looked {
    pub finding: Finding<Why>,
    /// So many of the first programs are known to have no data race.
    pub free: u64,
}

/// What a search finds, after these were passed before it.
fn joined(passed: Vec<Passed>, rest: Finding<Why>) -> Result<Finding<Why>, AllocError>
    ensures passed { IfOk result (λ all. all.passed.items ≡ passed.items ++ rest.passed.items) }
    ensures halted { IfOk result (λ all. all.halted ≡ rest.halted) }
{
    let Finding {
        passed: more,
        halted,
    } = rest;
    let mut passed = passed;
    passed.extend_from_slice(more.as_slice())?;
    Ok(Finding { passed, halted })
}

/// What a search of these numbers finds, where nothing is said of data races.
fn look_alone<W: Watch>(
    rt: &(impl Threads + Sync),
    alloc: Global,
    asked: &Asked<'_>,
    numbers: Numbers,
    watch: &mut W,
) -> Result<Looked, AllocError>
    requires order { numbers.from ≤ numbers.to }
    requires there { numbers.to ≤ length (plans asked.now.programs.now.family) }
    ensures finding { IfOk result (λ l. IsFound asked.now.explorer.now.sought asked.now.explorer.now.states
        (option_map plain_text asked.now.explorer.now.specification) asked.now.explorer.now.classes.now
        asked.now.programs.now numbers.from numbers.to l.finding) }
    ensures free { IfOk result (λ l. l.free ≡ 0) }
    ensures watched { GoesOn W.Since watch.old watch.new }
{
    let finding = searched(rt, asked.explorer, alloc, asked.programs, numbers, watch)?;
    Ok(Looked { finding, free: 0 })
}

/// What a search of these numbers finds. If they begin with the first, and data races may be told, these are looked for
/// in the same states, up to the first program of which it isn't known that all is well and that none is there.
pub(crate) fn look_through<W: Watch>(
    rt: &(impl Threads + Sync),
    alloc: Global,
    asked: &Asked<'_>,
    numbers: Numbers,
    watch: &mut W,
) -> Result<Looked, AllocError>
    requires order { numbers.from ≤ numbers.to }
    requires there { numbers.to ≤ length (plans asked.now.programs.now.family) }
    ensures finding { IfOk result (λ l. IsFound asked.now.explorer.now.sought asked.now.explorer.now.states
        (option_map plain_text asked.now.explorer.now.specification) asked.now.explorer.now.classes.now
        asked.now.programs.now numbers.from numbers.to l.finding) }
    ensures free { IfOk result (λ l. FirstAreFree asked.now.explorer.now.classes.now asked.now.programs.now l.free) }
    ensures watched { GoesOn W.Since watch.old watch.new }
{
    if !asked.all {
        return look_alone(rt, alloc, asked, numbers, watch);
    }
    if numbers.from > 0 {
        return look_alone(rt, alloc, asked, numbers, watch);
    }
    let quiet = QuietExplorer {
        explorer: asked.explorer,
    };
    let first = searched(rt, &quiet, alloc, asked.programs, numbers, watch)?;
    let Finding { passed, halted: _ } = first;
    let free = passed.as_slice().len() as u64;
    // no search passes more than there are
    if free > numbers.to {
        return look_alone(rt, alloc, asked, numbers, watch);
    }
    let left = Numbers {
        from: free,
        to: numbers.to,
    };
    let rest = searched(rt, asked.explorer, alloc, asked.programs, left, watch)?;
    let finding = joined(passed, rest)?;
    Ok(Looked { finding, free })
}
