// What files hold as one input.

ghost use Rattle.std.specs.Prelude.{◌≡◌, IfOk, OnOk, map};
ghost use Rattle.ls_files.specs.Joining.{ended, is_ended, joined, with_file, with_files, with_first};

use crate::lines::first_end;
use std::alloc::{AllocError, Global};

/// Whether nothing is there, or a line feed is last.
fn is_ended(input: &[u8]) -> bool
    ensures { result ≡ is_ended input.now }
{
    input.is_empty() || input[input.len() - 1] == b'\n'
}

/// Ends the last line, where it isn't ended.
fn end(input: &mut Vec<u8>) -> Result<(), AllocError>
    ensures { OnOk result (input.new.items ≡ ended input.old.items) }
{
    if !is_ended(input.as_slice()) {
        input.push(b'\n')?;
    }
    Ok(())
}

/// Adds one file more, behind a line that stands between two files.
fn add_file(input: &mut Vec<u8>, file: &[u8]) -> Result<(), AllocError>
    ensures { OnOk result (input.new.items ≡ with_file input.old.items file.now) }
{
    end(input)?;
    input.extend_from_slice(b"%\x1c\n".as_slice())?;
    input.extend_from_slice(file)
}

/// Adds these files, one after another.
fn add_files(input: &mut Vec<u8>, files: &[Vec<u8>]) -> Result<(), AllocError>
    ensures { OnOk result (input.new.items ≡ with_files input.old.items (map (λ f. f.items) files.now)) }
{
    for file in files {
        add_file(input, file.as_slice())?;
    }
    Ok(())
}

/// What files hold as one input: a line of `%` and byte 28 stands between two of them, behind the last line of the
/// first, which is ended. The only refusal is that memory ran out.
pub fn joined(alloc: Global, files: &[Vec<u8>]) -> Result<Vec<u8>, AllocError>
    ensures { IfOk result (λ input. input.items ≡ joined (map (λ f. f.items) files.now)) }
{
    let mut input = Vec::new(alloc);
    if let [first, more @ ..] = files {
        input.extend_from_slice(first.as_slice())?;
        add_files(&mut input, more)?;
    }
    Ok(input)
}

/// An input with another text in the place of its first part. The only refusal is that memory ran out.
pub fn with_first(alloc: Global, text: &[u8], input: &[u8]) -> Result<Vec<u8>, AllocError>
    ensures { IfOk result (λ more. more.items ≡ with_first text.now input.now) }
{
    let mut more = Vec::new(alloc);
    more.extend_from_slice(text)?;
    end(&mut more)?;
    let upto = first_end(input).min(input.len());
    more.extend_from_slice(&input[upto..])?;
    Ok(more)
}
