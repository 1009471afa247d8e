// Texts by number.

ghost use Rattle.std.specs.Prelude.{◌≢◌, AllPairs, map, string_bytes};
ghost use Rattle.ls_report.specs.Events.{Text};

use indexmap::IndexSet;
use std::alloc::{AllocError, Global};

/// Texts, each once. The number of a text is its place.
#[derive(Drop)]
pub(crate) struct Table {
    texts: IndexSet<String>,
    ghost once: { AllPairs (λ (p q : Text). p ≢ q) (map string_bytes texts.keys) },
}

impl Table {
    ghost use Rattle.std.specs.Prelude.{◌≡◌, [], IfOk, OnOk, Some, slice_get};
    ghost use Rattle.ls_transitions.specs.Tables.{Keeps};
    ghost use Rattle.ls_page.specs.Numbers.{texts_in};

    /// No texts.
    pub(crate) fn new(alloc: Global) -> Table
        ensures { texts_in result ≡ [] }
    {
        Table {
            texts: IndexSet::new(alloc),
        }
    }

    /// The texts, by number.
    pub(crate) fn texts(&self) -> &[String]
        ensures { map string_bytes result.now ≡ texts_in self.now }
    {
        self.texts.as_slice()
    }

    /// The number of a text. It is added if it is new. The only refusal is that memory ran out.
    pub(crate) fn number(&mut self, alloc: Global, text: &str) -> Result<usize, AllocError>
        ensures there { IfOk result (λ n. slice_get (texts_in self.new) n ≡ Some text.now) }
        ensures keeps { OnOk result (Keeps (texts_in self.old) (texts_in self.new)) }
    {
        if let Some(number) = self.texts.get_index_of(text) {
            return Ok(number);
        }
        let copy = String::from_str(alloc, text)?;
        let (number, _) = self.texts.insert_full(copy)?;
        Ok(number)
    }
}
