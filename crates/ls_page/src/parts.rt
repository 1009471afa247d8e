// What a page's data is made of, beside the run.

ghost use Rattle.std.specs.Prelude.{◌≡◌};
ghost use Rattle.ls_specification.specs.Specification.{spec_file, spec_program};

use ls_specification::Specification;

/// The texts that a run comes from.
#[derive(Clone, Copy)]
pub struct Texts<'t> {
    pub classes: &'t str,
    pub program: &'t str,
    pub schedule: &'t str,
}

/// A reference: its class text, and what it specifies of the program.
#[derive(Clone, Copy)]
pub struct Reference<'t> {
    pub text: &'t str,
    pub specification: Specification<'t>,
}

impl<'t> Reference<'t> {
    /// The reference of a class text.
    pub fn new(text: &'t str, specification: Specification<'t>) -> Reference<'t>
        ensures text { result.text.now ≡ text.entry.now }
        ensures file { spec_file result.specification ≡ spec_file specification.entry }
        ensures program { spec_program result.specification ≡ spec_program specification.entry }
    {
        Reference {
            text,
            specification,
        }
    }
}

/// The first and the last step that are shown. Steps are numbered from 1. There may be fewer steps.
#[derive(Clone, Copy)]
pub struct Window {
    pub from: usize,
    pub to: usize,
}

/// An order of the calls as a text, and what `check` says of it.
#[derive(Clone, Copy)]
pub struct Judged<'t> {
    pub order: &'t str,
    pub verdict: &'t str,
}
