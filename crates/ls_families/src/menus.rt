// Menus: what programs choose from.

ghost use Rattle.std.specs.Prelude.{◌≡◌, ◌↔◌, IsTrue, map, slice_index_or, string_bytes, []};
ghost use Rattle.ls_families.specs.Families.{HaveNone, sizes_of};

use std::alloc::AllocError;
use std::marker::Model;

/// How many ways there are to make an object, and how many calls of which the setup chooses, and each thread.
#[derive(Copy)]
pub struct MenuSizes {
    pub makings: u64,
    pub setup: u64,
    pub threads: u64,
}

impl Clone for MenuSizes {
    fn clone(&self) -> Result<MenuSizes, AllocError> {
        Ok(*self)
    }
}

/// Whether there is none to choose from.
pub(crate) fn have_none(sizes: MenuSizes) -> bool
    ensures { IsTrue result ↔ HaveNone sizes }
{
    sizes.makings == 0 || sizes.setup == 0 || sizes.threads == 0
}

/// A menu: the texts of how an object may be made, of the calls of which the setup chooses, and of those of which each
/// thread does.
#[derive(Drop)]
pub struct Menu<'a> {
    makings: &'a [String],
    setup: &'a [String],
    threads: &'a [String],
}

impl<'a> Model for Menu<'a> {
    ghost use Rattle.std.specs.Prelude.{map, string_bytes};
    ghost use Rattle.ls_families.specs.Families.{Menu as MenuValue};

    ghost Value = { MenuValue };

    ghost view = { λ m. record {
      makings = map string_bytes m.makings.now;
      setup = map string_bytes m.setup.now;
      threads = map string_bytes m.threads.now;
    } };
}

impl<'a> Menu<'a> {
    /// A menu of these texts.
    pub fn new(makings: &'a [String], setup: &'a [String], threads: &'a [String]) -> Menu<'a>
        ensures { result ≡ record {
          makings = map string_bytes makings.entry.now;
          setup = map string_bytes setup.entry.now;
          threads = map string_bytes threads.entry.now;
        } }
    {
        Menu {
            makings,
            setup,
            threads,
        }
    }

    /// How an object may be made.
    pub fn makings(&self) -> &[String]
        ensures { map string_bytes result.now ≡ self.now.makings }
    {
        self.makings
    }

    /// The calls of which the setup chooses.
    pub fn setup(&self) -> &[String]
        ensures { map string_bytes result.now ≡ self.now.setup }
    {
        self.setup
    }

    /// The calls of which each thread chooses.
    pub fn threads(&self) -> &[String]
        ensures { map string_bytes result.now ≡ self.now.threads }
    {
        self.threads
    }

    /// How large it is.
    pub fn sizes(&self) -> MenuSizes
        ensures { result ≡ sizes_of self.now }
    {
        MenuSizes {
            makings: self.makings.len() as u64,
            setup: self.setup.len() as u64,
            threads: self.threads.len() as u64,
        }
    }
}
