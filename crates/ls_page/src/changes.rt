// The lines of `trace` without those that say what the line before says.

ghost use Rattle.std.specs.Prelude.{◌≡◌, ◌++◌, [], IfOk, OnOk, nat_le, string_bytes};
ghost use Rattle.ls_labels.specs.Names.{names_of};
ghost use Rattle.ls_trace.specs.SeenTeller.{RunsNamed, names_in, told_of};
ghost use Rattle.ls_trace.specs.Told.{after_step};
ghost use Rattle.ls_page.specs.Changes.{changes_text, line_of};
ghost use Rattle.ls_page.specs.SeenChanges.{text_told, words_told};
ghost use Rattle.ls_page.specs.Filling.{ChangesFill, LinesAreTheTrace};

use crate::data::first_steps;
use crate::parts::Window;
use ls_labels::names::Names;
use ls_trace::teller::Teller;
use std::alloc::{AllocError, Global};
use std::fmt::Write;

/// The lines so far, and what is told of the last step.
#[derive(Drop)]
pub(crate) struct Changes {
    text: String,
    words: String,
}

impl Changes {
    ghost use Rattle.std.specs.Prelude.{◌≡◌, ◌++◌, [], OnOk, string_bytes};
    ghost use Rattle.ls_page.specs.SeenChanges.{text_added};

    /// No lines.
    fn new(alloc: Global) -> Changes
        ensures text { string_bytes result.text ≡ [] }
        ensures words { string_bytes result.words ≡ [] }
    {
        Changes {
            text: String::new(alloc),
            words: String::new(alloc),
        }
    }

    /// Adds the line of a step with these words, if the line before says something else.
    fn add(&mut self, number: usize, words: String) -> Result<(), AllocError>
        ensures text { OnOk result (string_bytes self.new.text ≡ string_bytes self.old.text ++
            text_added (string_bytes self.old.words) (record { number = number; words = string_bytes words })) }
        ensures words { OnOk result (string_bytes self.new.words ≡ string_bytes words) }
    {
        let line = words.as_str();
        if self.words.as_str() != line {
            write!(self.text, "{number} {line}\n")?;
        }
        self.words = words;
        Ok(())
    }
}

// Makes a step of a thread. Its line is added if its number isn't below `from`.
fn tell(
    alloc: Global,
    teller: &mut Teller,
    changes: &mut Changes,
    from: usize,
    number: usize,
    thread: usize,
) -> Result<(), AllocError>
    requires { RunsNamed teller.old }
    ensures run { OnOk result (told_of teller.new ≡ after_step (names_in teller.old) (told_of teller.old) thread) }
    ensures names { names_in teller.new ≡ names_in teller.old }
    ensures runs { OnOk result (RunsNamed teller.new) }
    ensures text { OnOk result (string_bytes changes.new.text ≡ string_bytes changes.old.text ++
        text_told (nat_le from number) (string_bytes changes.old.words)
        (line_of (names_in teller.old) number (told_of teller.old) thread)) }
    ensures words { OnOk result (string_bytes changes.new.words ≡
        words_told (nat_le from number) (string_bytes changes.old.words)
        (line_of (names_in teller.old) number (told_of teller.old) thread)) }
{
    let did = teller.step(alloc, thread)?;
    if number < from {
        return Ok(());
    }
    let mut words = String::new(alloc);
    teller.push_step(alloc, &mut words, thread, &did)?;
    changes.add(number, words)
}

/// The lines of `trace` of the window's steps, without those that say what the line before says. The only refusal is
/// that memory ran out.
pub(crate) fn told_changes(
    alloc: Global,
    names: Names,
    steps: &[u8],
    window: Window,
) -> Result<String, AllocError>
    ensures { IfOk result (λ text. string_bytes text ≡
        changes_text (names_of names.entry) steps.now window.from window.to) }
{
    let mut teller = Teller::new(alloc, names)?;
    let mut changes = Changes::new(alloc);
    let shown = first_steps(steps, window.to);
    for (place, thread) in shown.iter().enumerate() {
        tell(
            alloc,
            &mut teller,
            &mut changes,
            window.from,
            place + 1,
            *thread as usize,
        )?;
    }
    let Changes { text, words } = changes;
    Ok(text)
}

/// A step whose line is left out says what the step before says. So from the lines that are left come all that `trace`
/// prints of these steps, the first of which has a number above 0.
pub fn changes_fill()
    ensures lines { LinesAreTheTrace }
    ensures fill { ChangesFill }
{}
