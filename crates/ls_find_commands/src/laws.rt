// The laws of ranges, as the contract of a function that computes nothing.

ghost use Rattle.ls_find_commands.specs.Ranges.{RangesAddUp, ReportsArePrinted};

/// What `find` prints of a search is the text of its report. Take the searches of two ranges, one after the other, and
/// the search of all their numbers that both are together. The sum of their reports, which `merge` prints, is its
/// report.
pub fn ranges_add_up()
    ensures printed { ReportsArePrinted }
    ensures sum { RangesAddUp }
{}
