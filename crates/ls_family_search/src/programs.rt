// The programs of a family.

ghost use Rattle.std.specs.Prelude.{◌≡◌, ◌++◌, OnOk, map, string_bytes};

use ls_families::{Family, Menu};
use std::alloc::{AllocError, Global};
use std::marker::Model;

/// The programs of a family over a menu.
#[derive(Drop)]
pub struct Programs<'a> {
    family: &'a Family,
    menu: Menu<'a>,
}

impl<'a> Model for Programs<'a> {
    ghost use Rattle.ls_family_search.specs.Judged.{Programs as ProgramsValue};

    ghost Value = { ProgramsValue };

    ghost view = { λ p. record { family = p.family.now; menu = p.menu } };
}

impl<'a> Programs<'a> {
    ghost use Rattle.std.specs.Prelude.{◌≡◌, IfOk, map, string_bytes};
    ghost use Rattle.ls_family_search.specs.Judged.{calls_of, making_of};

    /// The programs of a family over a menu: the texts of how an object may be made, of the calls of which the setup
    /// chooses, and of those of which each thread does.
    pub fn new(
        family: &'a Family,
        makings: &'a [String],
        setup: &'a [String],
        threads: &'a [String],
    ) -> Programs<'a>
        ensures { result ≡ record {
          family = family.entry.now;
          menu = record {
            makings = map string_bytes makings.entry.now;
            setup = map string_bytes setup.entry.now;
            threads = map string_bytes threads.entry.now;
          };
        } }
    {
        Programs {
            family,
            menu: Menu::new(makings, setup, threads),
        }
    }

    /// The family.
    pub fn family(&self) -> &Family
        ensures { result.now ≡ self.now.family }
    {
        self.family
    }

    /// The menu.
    pub fn menu(&self) -> &Menu<'a>
        ensures { result.now ≡ self.now.menu }
    {
        &self.menu
    }

    /// The text that makes the object first; nothing if the menu has none.
    pub fn making(&self) -> &str
        ensures { result.now ≡ making_of self.now }
    {
        let makings = self.menu.makings();
        if makings.is_empty() {
            ""
        } else {
            makings[0].as_str()
        }
    }

    /// The texts of all calls of the menu: those of the setup, and then those of threads. The only refusal is that
    /// memory ran out.
    pub fn calls(&self, alloc: Global) -> Result<Vec<String>, AllocError>
        ensures { IfOk result (λ calls. map string_bytes calls.items ≡ calls_of self.now) }
    {
        let mut calls = Vec::new(alloc);
        push_texts(alloc, &mut calls, self.menu.setup())?;
        push_texts(alloc, &mut calls, self.menu.threads())?;
        Ok(calls)
    }
}

/// Adds copies of texts.
fn push_texts(alloc: Global, all: &mut Vec<String>, texts: &[String]) -> Result<(), AllocError>
    ensures { OnOk result (map string_bytes all.new.items ≡
        map string_bytes all.old.items ++ map string_bytes texts.now) }
{
    for text in texts {
        let copied = String::from_str(alloc, text.as_str())?;
        all.push(copied)?;
    }
    Ok(())
}

/// A range of numbers: from the first up to the one before the last.
#[derive(Copy)]
pub struct Numbers {
    pub from: u64,
    pub to: u64,
}

impl Clone for Numbers {
    fn clone(&self) -> Result<Numbers, AllocError> {
        Ok(*self)
    }
}
