// What is said of a program's calls that run one at a time.

ghost use Rattle.std.specs.Prelude.{◌≡◌, IfOk, string_bytes};
ghost use Rattle.ls_alone.specs.Alone.{AreSaid};
ghost use Rattle.ls_alone.specs.Words.{fault_line, fault_words, wanted_words};
ghost use Rattle.ls_labels.specs.Names.{names_of};
ghost use Rattle.ls_schedule.specs.Reading.{thread_names};

use crate::telling::{Fault, Told, Wanted, tell};
use ls_labels::names::Names;
use std::alloc::{AllocError, Global};
use std::fmt::Write;

/// What a call does that has a fault.
pub fn fault_words(fault: Fault) -> &'static str
    ensures { result.now ≡ fault_words fault }
{
    match fault {
        Fault::Throws => "a call throws when calls run one at a time",
        Fault::Waits => "a call waits for ever when calls run one at a time",
        Fault::Turns => "a call never ends when calls run one at a time",
    }
}

/// The same, where such calls are looked for. If only calls that wait are, each waits for a lock that is never given
/// back.
pub fn wanted_words(wanted: Wanted, fault: Fault) -> &'static str
    ensures { result.now ≡ wanted_words wanted fault }
{
    match wanted {
        Wanted::Waits => "a lock is never given back",
        Wanted::Nothing | Wanted::All => fault_words(fault),
    }
}

/// The line on a fault, or nothing if no call has it.
fn fault_line(alloc: Global, fault: Fault, told: &Told) -> Result<String, AllocError>
    ensures { IfOk result (λ text. string_bytes text ≡ fault_line fault told.now) }
{
    let does = fault_words(fault);
    let mut text = String::new(alloc);
    match told {
        Told::So(faulty) => {
            let words = faulty.words.as_str();
            write!(text, "// {does}: {words}\n")?;
        }
        Told::Never => {}
        Told::Unknown => {
            write!(text, "// it isn't known whether {does}\n")?;
        }
    }
    Ok(text)
}

/// What is said of a program's calls where they run one at a time: a line for each fault that one has, or of which it
/// isn't known. The only refusal is that memory ran out.
pub fn fault_lines(alloc: Global, names: Names<'_>) -> Result<String, AllocError>
    ensures { IfOk result (λ text. AreSaid (names_of names.entry)
        (thread_names names.entry.program.now) (string_bytes text)) }
{
    let told = tell(alloc, names)?;
    let mut text = fault_line(alloc, Fault::Throws, &told.throws)?;
    let waits = fault_line(alloc, Fault::Waits, &told.waits)?;
    text.push_str(waits.as_str())?;
    let turns = fault_line(alloc, Fault::Turns, &told.turns)?;
    text.push_str(turns.as_str())?;
    Ok(text)
}
