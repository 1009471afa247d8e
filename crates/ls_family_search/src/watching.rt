// Who is told how far a search has come.

ghost use Rattle.ls_family_search.specs.Watching.{GoesOn};

/// Who is told how far a search has come.
pub trait SearchWatch {
    // How it may be, from how it was before it was told some times.
    ghost Since: { Self → Self → Type 0 };

    /// Notes that the search has gone through so many programs, of so many in all.
    fn note_programs(&mut self, done: u64, all: u64)
        ensures { GoesOn Since self.old self.new };
}
