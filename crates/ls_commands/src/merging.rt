// The command `merge`.

ghost use Rattle.std.specs.Prelude.{◌≡◌, ◌↔◌, ◌<◌, ◌^◌, IsTrue};
ghost use Rattle.ls_faults.specs.Given.{GivesText};
ghost use Rattle.ls_commands.specs.Merging.{IsOther, MergesTalliesTo, MergesTo};
ghost use Rattle.ls_commands.specs.MergedRanges.{MergesRangesTo, is_of_ranges, lifted_range};

use ls_faults::fault::ToolFault;
use ls_find_reports::{RangeFault, add_up};
use ls_tallies::{TallyFault, merged, print_rows, read_rows, total};
use std::alloc::Global;

/// Whether another number is wanted than there is.
fn is_other(wanted: Option<u64>, total: u64) -> bool
    ensures is { IsTrue result ↔ IsOther wanted total }
    ensures fits { total < 2 ^ 64 }
{
    match wanted {
        Some(number) => number != total,
        None => false,
    }
}

/// The tally of all that is tallied in a text of tallies, one after another: each distinct history once, with its
/// counts added and its least seed, in order of seed. With a number that is wanted, the counts come to that.
fn merge_tallies(alloc: Global, wanted: Option<u64>, text: &str) -> Result<String, ToolFault>
    ensures { GivesText (MergesTalliesTo wanted text.now) result }
{
    let rows = read_rows(alloc, text)?;
    let Some(total) = total(rows.as_slice()) else {
        return Err(ToolFault::Tally(TallyFault::CountTooGreat));
    };
    if is_other(wanted, total) {
        return Err(ToolFault::Tally(TallyFault::OtherCount));
    }
    let merge = merged(alloc, rows.as_slice())?;
    Ok(print_rows(alloc, merge.as_slice())?)
}

/// A fault of ranges of numbers.
fn fault_of(fault: RangeFault) -> ToolFault
    ensures { result ≡ lifted_range fault }
{
    match fault {
        RangeFault::Memory => ToolFault::Memory,
        RangeFault::BadReport { at } => ToolFault::Tally(TallyFault::BadTally { at }),
        RangeFault::NotFollowing => ToolFault::BadNumbers,
        RangeFault::OtherCount => ToolFault::Tally(TallyFault::OtherCount),
    }
}

/// What `find` says of all numbers of the ranges of which a text says what it says.
fn merge_ranges(alloc: Global, wanted: Option<u64>, text: &str) -> Result<String, ToolFault>
    ensures { GivesText (MergesRangesTo wanted text.now) result }
{
    match add_up(alloc, wanted, text) {
        Ok(sum) => Ok(sum),
        Err(fault) => Err(fault_of(fault)),
    }
}

/// Whether a text is of what `find` says, and not of tallies.
fn is_of_ranges(text: &str) -> bool
    ensures { result ≡ is_of_ranges text.now }
{
    text.starts_with("//")
}

/// The merge of a text of tallies, one after another; or if it begins with `//`, of what `find` says of ranges of
/// numbers.
///
/// Of tallies each distinct history comes once, with its counts added and its least seed, in order of seed. With a
/// number that is wanted, the counts come to that, and else it is refused with 89. A text that isn't of tallies is
/// refused with 84, and counts of over 64 bits with 88.
///
/// Of ranges there comes what `find` says of all their numbers. Refused with 84 if the text isn't of what `find` says;
/// with 70 if a range doesn't follow the one before it; with 89 if there are not as many numbers as are wanted.
pub fn merge(alloc: Global, wanted: Option<u64>, text: &str) -> Result<String, ToolFault>
    ensures { GivesText (MergesTo wanted text.now) result }
{
    if is_of_ranges(text) {
        return merge_ranges(alloc, wanted, text);
    }
    merge_tallies(alloc, wanted, text)
}
