// What is said of data races beside a verdict that nothing is wrong.

ghost use Rattle.std.specs.Prelude.{◌≡◌, IfOk, string_bytes};
ghost use Rattle.ls_race_reports.specs.Beside.{free_line, raced_line};

use std::alloc::{AllocError, Global};

/// What is said where no race is found: of all, or of what was explored. It is told whether the class text has a call
/// of `tryLock`.
pub fn free_words(complete: bool, tries: bool) -> &'static str
    ensures { result.now ≡ free_line complete tries }
{
    if !complete {
        return "// no data race in what was explored\n";
    }
    if tries {
        return "// no data race, if a tryLock() that fails sees what the owner of its lock did before it took the \
                lock\n";
    }
    "// no data race: Java allows no other history\n"
}

/// What is said of a race on a variable, with what tells the program, as ` in number 3`. The only refusal is that
/// memory ran out.
pub fn raced_words(alloc: Global, on: &str, place: &str) -> Result<String, AllocError>
    ensures { IfOk result (λ text. string_bytes text ≡ raced_line on.now place.now) }
{
    let mut text = String::from_str(alloc, "// data race on ")?;
    text.push_str(on)?;
    text.push_str(place)?;
    text.push_str(": Java allows more than is shown here\n")?;
    Ok(text)
}
