// Who is told how far a search has come.

ghost use Rattle.std.specs.Prelude.{⊤};
ghost use Rattle.ls_search.specs.Watching.{GoesOn};

/// Who is told how far a search has come.
pub trait Watch {
    // How it may be, from how it was before it was told some times.
    ghost Since: { Self → Self → Type 0 };

    /// Whether it would be told of so many states.
    fn wants(&self, states: usize) -> bool;

    /// Notes that so many states are kept, and that threads are looked at after a path of so many steps.
    fn note(&mut self, states: usize, depth: usize)
        ensures { GoesOn Since self.old self.new };
}

/// Nobody is told.
#[derive(Drop)]
pub struct Nobody;

impl Watch for Nobody {
    ghost Since = { λ _ _. ⊤ };

    fn wants(&self, _states: usize) -> bool {
        false
    }

    fn note(&mut self, _states: usize, _depth: usize) {}
}
