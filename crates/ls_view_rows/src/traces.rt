// What the definition computes.

ghost use Rattle.ls_view_rows.specs.Traces.{FirstLines, FoldedReads, FoldedTurns, FoldedWaits, LinesInARange};

/// The lines of the first steps, and those in a range.
pub fn lines()
    ensures first_lines { FirstLines }
    ensures lines_in_a_range { LinesInARange }
{}

/// The same with neighbouring steps that change nothing in one line.
pub fn folds()
    ensures reads { FoldedReads }
    ensures waits { FoldedWaits }
    ensures turns { FoldedTurns }
{}
