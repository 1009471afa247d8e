// The parts of an input.

ghost use Rattle.std.specs.Prelude.{◌≡◌, IfNone, IfOk, IfSome, false, map, true};
ghost use Rattle.ls_items.specs.Cutting.{plain_text};
ghost use Rattle.ls_items.specs.Parts.{is_text, parts_of};

use std::alloc::{AllocError, Global};

/// The input as text, or none if it isn't UTF-8.
pub fn text_of(bytes: &[u8]) -> Option<&str>
    ensures some { IfSome result (λ text. (text.now ≡ bytes.now) × (is_text bytes.now ≡ true)) }
    ensures none { IfNone result (is_text bytes.now ≡ false) }
{
    match std::str::from_utf8(bytes) {
        Ok(text) => Some(text),
        Err(_) => None,
    }
}

/// The parts of the text, cut at the lines that are exactly `%%`. A part is a place in the text, so it has no memory of
/// its own. The only refusal is that memory ran out.
pub fn parts_of<'a>(alloc: Global, text: &'a str) -> Result<Vec<&'a str>, AllocError>
    ensures { IfOk result (λ parts. map plain_text parts.items ≡ parts_of text.now) }
{
    let mut parts = Vec::new(alloc);
    // The text from where the open part begins, and how far that part goes so far.
    let mut part = text;
    let mut len = 0;
    let mut rest = text;
    while let Some((line, after)) = rest.split_once('\n') {
        if line == "%%" {
            parts.push(part.split_at(len).0)?;
            part = after;
            len = 0;
        } else {
            len = part.len() - after.len() - 1;
        }
        rest = after;
    }
    if rest == "%%" {
        parts.push(part.split_at(len).0)?;
        part = "";
    }
    parts.push(part)?;
    Ok(parts)
}
