// What is said of all programs of a family.

ghost use Rattle.std.specs.Prelude.{◌≡◌, ◌<◌, ◌||◌, IfOk, IfSome, count_by, length, position, slice_get, string_bytes};
ghost use Rattle.ls_find_serial.specs.Lines.{at_least, fault_line, found_line, has, has_some, has_wanted, is_so};
ghost use Rattle.ls_find_serial.specs.Lines.{is_unknown, lacks, serial_text, unknown_line, unknown_text, words_in};
ghost use Rattle.ls_find_serial.specs.Lines.{words_of};

use ls_alone::{Fault, Tellings, Told, Wanted, fault_words};
use std::alloc::{AllocError, Global};
use std::fmt::Write;

fn is_so(told: &Told) -> bool
    ensures { result ≡ is_so told.now }
{
    match told {
        Told::So(_) => true,
        Told::Never | Told::Unknown => false,
    }
}

fn is_unknown(told: &Told) -> bool
    ensures { result ≡ is_unknown told.now }
{
    match told {
        Told::Unknown => true,
        Told::Never | Told::So(_) => false,
    }
}

/// Whether a call has the fault.
fn has(fault: Fault, told: &Tellings) -> bool
    ensures { result ≡ has fault told.now }
{
    is_so(told.by(fault))
}

/// Whether it isn't known.
fn lacks(fault: Fault, told: &Tellings) -> bool
    ensures { result ≡ lacks fault told.now }
{
    is_unknown(told.by(fault))
}

/// In how many a call has the fault.
fn count_so(fault: Fault, told: &[Tellings]) -> usize
    ensures { result ≡ count_by (has fault) told.now }
{
    told.iter().filter(|one| has(fault, *one)).count()
}

/// Of how many it isn't known.
fn count_unknown(fault: Fault, told: &[Tellings]) -> usize
    ensures { result ≡ count_by (lacks fault) told.now }
{
    told.iter().filter(|one| lacks(fault, *one)).count()
}

/// The place of the first in which a call has it.
fn first_so(fault: Fault, told: &[Tellings]) -> Option<usize>
    ensures is { result ≡ position (has fault) told.now }
    ensures within { IfSome result (λ i. i < length told.now) }
{
    told.iter().position(|one| has(fault, one))
}

fn words_of(told: &Told) -> &str
    ensures { result.now ≡ words_of told.now }
{
    match told {
        Told::So(faulty) => faulty.words.as_str(),
        Told::Never | Told::Unknown => "",
    }
}

/// The words of the one at a place.
fn words_at(fault: Fault, told: &[Tellings], at: usize) -> &str
    ensures { result.now ≡ words_in fault (slice_get told.now at) }
{
    match told.get(at) {
        Some(one) => words_of(one.by(fault)),
        None => "",
    }
}

/// What stands before a count, where so many aren't known.
fn at_least(unknown: usize) -> &'static str
    ensures { result.now ≡ at_least unknown }
{
    if unknown == 0 {
        return "";
    }
    "at least "
}

/// That it isn't known in so many whether a call has a fault.
fn unknown_words(alloc: Global, fault: Fault, unknown: usize) -> Result<String, AllocError>
    ensures { IfOk result (λ text. string_bytes text ≡ unknown_text fault unknown) }
{
    let does = fault_words(fault);
    let mut text = String::new(alloc);
    write!(text, "// in {unknown} it isn't known whether {does}\n")?;
    Ok(text)
}

/// The line on that, or nothing if it is known in all.
fn unknown_line(alloc: Global, fault: Fault, unknown: usize) -> Result<String, AllocError>
    ensures { IfOk result (λ text. string_bytes text ≡ unknown_line fault unknown) }
{
    if unknown == 0 {
        return Ok(String::new(alloc));
    }
    unknown_words(alloc, fault, unknown)
}

/// The line on a fault that a call has in the program at a place, and in none before it.
fn found_line(
    alloc: Global,
    fault: Fault,
    told: &[Tellings],
    first: usize,
) -> Result<String, AllocError>
    requires { first < length told.now }
    ensures { IfOk result (λ text. string_bytes text ≡ found_line fault told.now first) }
{
    let least = at_least(count_unknown(fault, told));
    let many = count_so(fault, told);
    let does = fault_words(fault);
    let number = first + 1;
    let words = words_at(fault, told, first);
    let mut text = String::new(alloc);
    write!(
        text,
        "// in {least}{many} {does}: number {number}, {words}\n"
    )?;
    Ok(text)
}

/// The line on a fault, or nothing if no call has it.
fn fault_line(alloc: Global, fault: Fault, told: &[Tellings]) -> Result<String, AllocError>
    ensures { IfOk result (λ text. string_bytes text ≡ fault_line fault told.now) }
{
    match first_so(fault, told) {
        Some(first) => found_line(alloc, fault, told, first),
        None => unknown_line(alloc, fault, count_unknown(fault, told)),
    }
}

/// What is said of the programs of a family, a line for each fault that a call has where calls run one at a time: in
/// how many programs, and the first of these with such a call. A call may end by an exception, wait for ever, or never
/// end. If it isn't known of some programs, the count is told as a least one; if it is told of none, the line says of
/// how many it isn't known. The only refusal is that memory ran out.
pub fn serial_lines(alloc: Global, told: &[Tellings]) -> Result<String, AllocError>
    ensures { IfOk result (λ text. string_bytes text ≡ serial_text told.now) }
{
    let mut text = fault_line(alloc, Fault::Throws, told)?;
    let waits = fault_line(alloc, Fault::Waits, told)?;
    text.push_str(waits.as_str())?;
    let turns = fault_line(alloc, Fault::Turns, told)?;
    text.push_str(turns.as_str())?;
    Ok(text)
}

/// Whether a call has some fault.
fn has_some(told: &Tellings) -> bool
    ensures { result ≡ has_some told.now }
{
    has(Fault::Throws, told) || has(Fault::Waits, told) || has(Fault::Turns, told)
}

/// Whether a call has a fault that is looked for.
fn has_wanted(wanted: Wanted, told: &Tellings) -> bool
    ensures { result ≡ has_wanted wanted told.now }
{
    match wanted {
        Wanted::Nothing => false,
        Wanted::Waits => has(Fault::Waits, told),
        Wanted::All => has_some(told),
    }
}

/// The place of the first program in which a call has a fault that is looked for.
pub fn first_faulty(wanted: Wanted, told: &[Tellings]) -> Option<usize>
    ensures is { result ≡ position (has_wanted wanted) told.now }
    ensures within { IfSome result (λ i. i < length told.now) }
{
    told.iter().position(|one| has_wanted(wanted, one))
}
