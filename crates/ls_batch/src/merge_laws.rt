// The merge of the tallies of seeds that follow one another is the tally of all the seeds.

ghost use Rattle.ls_batch.specs.Batches.{BatchesMerge, MergesPrintTheTally, TextsTellApart};
ghost use Rattle.ls_batch.specs.Merging.{TalliesAreRows, TalliesMerge};

/// What is printed of a tally is the text of its rows, each with its history's text. Take the tallies of two lists of
/// histories, of seeds that follow one another. If no two distinct histories have the same text, the merge of the
/// tallies' rows is the rows of the tally of all histories.
pub fn tallies_merge()
    ensures rows { TalliesAreRows }
    ensures merge { TalliesMerge }
{}

/// Take what two texts are compiled to, on any number of cells that a machine may have. If the texts of two of its
/// histories are the same, and have fewer than 2^64 bytes, the histories are the same. Take the tallies of two ranges
/// of seeds that follow one another, with the same drawing. If the text of the tally of all these seeds has fewer than
/// 2^64 bytes, its rows are the merge of the rows of the two tallies. There is no other merge of these, so the text of
/// their merge is the text of that tally.
pub fn batches_merge()
    ensures texts { TextsTellApart }
    ensures merge { BatchesMerge }
    ensures print { MergesPrintTheTally }
{}
