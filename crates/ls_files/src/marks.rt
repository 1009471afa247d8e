// The marks between files.

ghost use Rattle.std.specs.Prelude.{◌≡◌, IfOk, string_bytes};
ghost use Rattle.ls_files.specs.Files.{unmarked, unmarked_line};

use std::alloc::{AllocError, Global};

/// A line that stands between two files: `%` and byte 28, the file separator of ASCII.
const FILE_MARK: &str = "%\u{1c}";

/// A line, or `%%` in the place of a mark between files.
fn unmarked_line(line: &str) -> &str
    ensures { result.now ≡ unmarked_line line.now }
{
    if line == FILE_MARK { "%%" } else { line }
}

/// The text of the files, with a line `%%` between two of them, so that a part ends where a file does. Each byte is
/// where it was. The only refusal is that memory ran out.
pub fn unmarked(alloc: Global, text: &str) -> Result<String, AllocError>
    ensures { IfOk result (λ out. string_bytes out ≡ unmarked text.now) }
{
    let mut out = String::with_capacity(alloc, text.len())?;
    let mut rest = text;
    while let Some((line, after)) = rest.split_once('\n') {
        out.push_str(unmarked_line(line))?;
        out.push_str("\n")?;
        rest = after;
    }
    out.push_str(unmarked_line(rest))?;
    Ok(out)
}
