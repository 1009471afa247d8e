// Sets of methods, as a mark for each number.

ghost use Rattle.std.specs.Prelude.{◌≡◌};
ghost use Rattle.ls_guarded.specs.Marks.{marked};

/// Whether a method is marked.
pub fn is_marked(marks: &[bool], m: usize) -> bool
    ensures { result ≡ marked marks.now m }
{
    match marks.get(m) {
        None => false,
        Some(mark) => *mark,
    }
}

/// The methods that bodies may call while the lock is held.
#[derive(Drop)]
pub struct Callees {
    /// On anything.
    pub all: Vec<bool>,
    /// On `this`.
    pub own: Vec<bool>,
    /// On other objects.
    pub others: Vec<bool>,
}
