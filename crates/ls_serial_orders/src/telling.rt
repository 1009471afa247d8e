// The text of what is found.

ghost use Rattle.std.specs.Prelude.{◌≡◌, ◌<◌, ◌++◌, ◌∷◌, IfOk, List, Some, codes, map, string_bytes};
ghost use Rattle.std.specs.Fmt.{decimal};
ghost use Rattle.ls_checked.specs.CheckedTree.{File as FileValue};
ghost use Rattle.ls_checked.specs.Plain.{plain_file};
ghost use Rattle.ls_checked.specs.PlainProgram.{plain_program};
ghost use Rattle.ls_report.specs.Events.{Event as NamedValue};
ghost use Rattle.ls_report.specs.Lines.{event_text};
ghost use Rattle.ls_report.specs.Printing.{named};
ghost use Rattle.ls_order_search.specs.Telling.{hopeless_text};
ghost use Rattle.ls_serial_orders.specs.Known.{file_of, program_of, IsKnown};
ghost use Rattle.ls_serial_orders.specs.Named.{AreNamed};
ghost use Rattle.ls_serial_orders.specs.Orders.{IsOutcome};
ghost use Rattle.ls_serial_orders.specs.Telling.{Tells};

use crate::finding::{Known, SerialAnswer, find, known_of};
use ls_checked::program::Program;
use ls_checked::tree::File;
use ls_events::event::Event;
use ls_order_search::order_line;
use ls_report::print_history;
use std::alloc::{AllocError, Global};
use std::fmt::Write;

/// `hopeless` with a number, a line with its line feed, and the line of an order.
fn hopeless_line(
    alloc: Global,
    number: usize,
    line: &str,
    order: &str,
) -> Result<String, AllocError>
    ensures { IfOk result (λ text. string_bytes text ≡
        codes "hopeless " ++ (decimal number ++ (32 ∷ (line.now ++ order.now)))) }
{
    format!(in alloc; "hopeless {number} {line}{order}")
}

/// The event at a place, from which on no order explains a history, and an order of the events before it.
fn hopeless_text(
    alloc: Global,
    program: &Program,
    event: Event,
    at: usize,
    order: &[String],
) -> Result<String, AllocError>
    requires { at < 18446744073709551615 }
    ensures { IfOk result (λ text. (e : NamedValue) → named (plain_program program.now) event ≡ Some e →
        string_bytes text ≡ hopeless_text at (event_text e) (map string_bytes order.now)) }
{
    let line = print_history(alloc, &[event], program)?;
    let calls = order_line(alloc, order)?;
    let text = hopeless_line(alloc, at + 1, line.as_str(), calls.as_str())?;
    Ok(text)
}

/// The text of an outcome.
fn outcome_text(
    alloc: Global,
    program: &Program,
    history: &[Event],
    outcome: &SerialAnswer,
) -> Result<String, AllocError>
    requires { (file : FileValue) × IsOutcome file (plain_program program.now) history.now outcome.now }
    ensures { IfOk result (λ text. (file : FileValue) (events : List NamedValue) →
        IsOutcome file (plain_program program.now) history.now outcome.now →
        AreNamed (plain_program program.now) history.now events →
        Tells file (plain_program program.now) history.now events (string_bytes text)) }
{
    match outcome {
        SerialAnswer::Ordered(order) => {
            let text = order_line(alloc, order.as_slice())?;
            Ok(text)
        }
        SerialAnswer::Hopeless { at, order } => {
            let text = hopeless_text(alloc, program, history[*at], *at, order.as_slice())?;
            Ok(text)
        }
        SerialAnswer::LongCall => {
            let text = String::from_str(alloc, "not judged: a call goes on\n")?;
            Ok(text)
        }
        SerialAnswer::ManyStates => {
            let text = String::from_str(alloc, "not judged: too many states\n")?;
            Ok(text)
        }
    }
}

/// The same as `tell`, where the states of the program between calls are known already.
pub fn tell_known(alloc: Global, known: &Known<'_>, history: &[Event]) -> Result<String, AllocError>
    requires { IsKnown known.now }
    ensures { IfOk result (λ text. (events : List NamedValue) →
        AreNamed (program_of known.now) history.now events →
        Tells (file_of known.now) (program_of known.now) history.now events (string_bytes text)) }
{
    let outcome = find(alloc, known, history)?;
    let text = outcome_text(alloc, known.program, history, &outcome)?;
    Ok(text)
}

/// An order of whole calls of a program of a file that explains a history of the program, or else the event from which
/// on none does. The only refusal is that memory ran out.
pub fn tell(
    alloc: Global,
    file: &File,
    program: &Program,
    history: &[Event],
) -> Result<String, AllocError>
    ensures { IfOk result (λ text. (events : List NamedValue) →
        AreNamed (plain_program program.now) history.now events →
        Tells (plain_file file.now) (plain_program program.now) history.now events (string_bytes text)) }
{
    let known = known_of(alloc, file, program)?;
    let text = tell_known(alloc, &known, history)?;
    Ok(text)
}
