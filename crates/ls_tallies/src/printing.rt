// The text of rows.

ghost use Rattle.std.specs.Prelude.{◌≡◌, ◌++◌, map, IfOk, OnOk, string_bytes};
ghost use Rattle.ls_tallies.specs.Plain.{plain_row};
ghost use Rattle.ls_tallies.specs.Printing.{head_text, row_text, rows_text};

use crate::row::Row;
use std::alloc::{AllocError, Global};
use std::fmt::Write;

fn push_head(out: &mut String, row: &Row<'_>) -> Result<(), AllocError>
    ensures { OnOk result (string_bytes out.new ≡ string_bytes out.old ++ head_text (plain_row row.now)) }
{
    let seed = row.seed;
    let count = row.count;
    write!(out, "seed {seed} count {count}\n")?;
    Ok(())
}

fn push_row(out: &mut String, row: &Row<'_>) -> Result<(), AllocError>
    ensures { OnOk result (string_bytes out.new ≡ string_bytes out.old ++ row_text (plain_row row.now)) }
{
    push_head(out, row)?;
    out.push_str(row.history)?;
    out.push_str("\n")
}

/// The text of rows, as `batch` prints it: for each a line with its least seed and its count, its history's lines, and
/// an empty line.
pub fn print_rows(alloc: Global, rows: &[Row<'_>]) -> Result<String, AllocError>
    ensures { IfOk result (λ text. string_bytes text ≡ rows_text (map plain_row rows.now)) }
{
    let mut out = String::new(alloc);
    for row in rows {
        push_row(&mut out, row)?;
    }
    Ok(out)
}
