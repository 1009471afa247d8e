// The law, as the contract of a function that computes nothing.

ghost use Rattle.ls_works.specs.Frames.{ThreadsRename};

/// What the work of a thread means commutes with each one-to-one renaming of the references in it.
pub fn threads_rename()
    ensures { ThreadsRename }
{}
