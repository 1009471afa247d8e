// Laws of the definitions.

ghost use Rattle.ls_tallies.specs.Laws.{MergesMerge};

/// The merge of merges is the merge of all their rows.
pub fn merges_merge()
    ensures { MergesMerge }
{}
