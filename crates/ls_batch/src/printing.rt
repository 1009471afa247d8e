// The text of a tally.

ghost use Rattle.std.specs.Prelude.{◌≡◌, ◌++◌, ◌<◌, ℕ, map, IfOk, List, OnOk, string_bytes};
ghost use Rattle.std.specs.List.{AllZip, flat_map};
ghost use Rattle.rayon.specs.Lists.{chunks_of};
ghost use Rattle.ls_checked.specs.PlainProgram.{plain_program};
ghost use Rattle.ls_report.specs.Events.{Text};
ghost use Rattle.ls_batch.specs.Printing.{entry_text, head_text, tally_text};
ghost use Rattle.ls_batch.specs.Rows.{entry_row};

use crate::{Entry, Tally};
use ls_checked::program::Program;
use ls_report::print_history;
use rayon::current_num_threads;
use rayon::prelude::*;
use std::alloc::{AllocError, Global};
use std::fmt::Write;
use std::thread::Threads;

/// The fewest entries that are printed as a part.
const LEAST_PART: usize = 64;

fn push_head(out: &mut String, entry: &Entry) -> Result<(), AllocError>
    ensures { OnOk result (string_bytes out.new ≡ string_bytes out.old ++ head_text (entry_row entry.now)) }
{
    let seed = entry.seed();
    let count = entry.count();
    write!(out, "seed {seed} count {count}\n")?;
    Ok(())
}

fn push_entry(
    alloc: Global,
    out: &mut String,
    entry: &Entry,
    program: &Program,
) -> Result<(), AllocError>
    ensures { OnOk result (string_bytes out.new ≡ string_bytes out.old ++
        entry_text (plain_program program.now) (entry_row entry.now)) }
{
    let history = entry.history(alloc)?;
    let text = print_history(alloc, history.as_slice(), program)?;
    push_head(out, entry)?;
    out.push_str(text.as_str())?;
    out.push_str("\n")
}

/// How many entries are printed one after the other, as a part of all: two parts for each processor.
fn entries_at_once(rt: &impl Threads, count: usize) -> usize
    ensures { 0 < result }
{
    let parts = current_num_threads(rt).saturating_mul(2);
    count.div_ceil(parts).max(LEAST_PART)
}

/// The text of a part of the entries.
fn print_part(alloc: Global, part: &[Entry], program: &Program) -> Result<String, AllocError>
    ensures { IfOk result (λ text. string_bytes text ≡
        tally_text (plain_program program.now) (map entry_row part.now)) }
{
    let mut out = String::new(alloc);
    for entry in part {
        push_entry(alloc, &mut out, entry, program)?;
    }
    Ok(out)
}

/// The texts of all parts, by as many threads as there are processors.
fn print_parts(
    rt: &(impl Threads + Sync),
    alloc: Global,
    entries: &[Entry],
    program: &Program,
) -> Result<Vec<Result<String, AllocError>>, AllocError>
    ensures { IfOk result (λ parts. (size : ℕ) × (0 < size) ×
        AllZip (λ group part. IfOk part (λ text. string_bytes text ≡
        tally_text (plain_program program.now) (map entry_row group))) (chunks_of size entries.now) parts.items) }
{
    entries
        .par_chunks(entries_at_once(rt, entries.len()))
        .with_min_len(1)
        .map(
            |part: &[Entry]| -> Result<String, AllocError>
                ensures { IfOk result (λ text. string_bytes text ≡
                    tally_text (plain_program program.entry.now) (map entry_row part.now)) }
            { print_part(alloc, part, program) },
        )
        .collect(rt, alloc)
}

/// The texts one after another, where none was refused memory.
fn all_text(alloc: Global, parts: Vec<Result<String, AllocError>>) -> Result<String, AllocError>
    ensures { (texts : List Text) → AllZip (λ text part. IfOk part (λ said. string_bytes said ≡ text)) texts parts.items
        → IfOk result (λ all. string_bytes all ≡ flat_map (λ text. text) texts) }
{
    let mut out = String::new(alloc);
    for part in parts {
        let text = part?;
        out.push_str(text.as_str())?;
    }
    Ok(out)
}

/// The text of a tally: for each history a line with its least seed and its count, its lines, and an empty line. It is
/// the same for every number of processors, each of which prints a part.
pub fn print_tally(
    rt: &(impl Threads + Sync),
    alloc: Global,
    tally: &Tally,
    program: &Program,
) -> Result<String, AllocError>
    ensures { IfOk result (λ text. string_bytes text ≡ tally_text (plain_program program.now) tally.now) }
{
    let parts = print_parts(rt, alloc, tally.entries(), program)?;
    let text = all_text(alloc, parts)?;
    Ok(text)
}
