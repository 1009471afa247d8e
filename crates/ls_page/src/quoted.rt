// Texts as JSON strings that may be in a page.

ghost use Rattle.std.specs.Prelude.{◌≡◌, ◌<◌, ◌∷◌, ◌++◌, [], OnOk, chars, flat_map, string_bytes};
ghost use Rattle.ls_page.specs.Laws.{QuotedIsSafe, QuotedReadsBack};
ghost use Rattle.ls_page.specs.Quoted.{control_text, escaped, hex_digit, quoted};

use std::alloc::AllocError;

// A digit of base 16, in small letters.
fn hex_digit(n: u8) -> u8
    requires { n < 16 }
    ensures { result ≡ hex_digit n }
{
    if n < 10 { n + b'0' } else { n - 10 + b'a' }
}

// Adds a control character, as `\u001f`.
fn push_control(out: &mut String, c: u8) -> Result<(), AllocError>
    requires { c < 32 }
    ensures { OnOk result (string_bytes out.new ≡ string_bytes out.old ++ control_text c) }
{
    if c < 16 {
        out.push_str("\\u000")?;
        out.push(hex_digit(c) as char)
    } else {
        out.push_str("\\u001")?;
        out.push(hex_digit(c - 16) as char)
    }
}

// Adds a character of a text.
fn push_escaped(out: &mut String, c: char) -> Result<(), AllocError>
    ensures { OnOk result (string_bytes out.new ≡ string_bytes out.old ++ escaped c) }
{
    if c == '"' {
        return out.push_str("\\\"");
    }
    if c == '\\' {
        return out.push_str("\\\\");
    }
    if c == '<' {
        return out.push_str("\\u003c");
    }
    if (c as u32) == 127 {
        return out.push_str("\\u007f");
    }
    if (c as u32) < 32 {
        return push_control(out, c as u32 as u8);
    }
    out.push(c)
}

// Adds each character of a text.
fn push_all(out: &mut String, text: &str) -> Result<(), AllocError>
    ensures { OnOk result (string_bytes out.new ≡ string_bytes out.old ++ flat_map escaped (chars text.now)) }
{
    for c in text.chars() {
        push_escaped(out, c)?;
    }
    Ok(())
}

/// Adds a text as a JSON string without control characters and without `<`, so that it may be in a page's `script`
/// element. The only refusal is that memory ran out. Then a part of the string may be in `out`.
pub fn push_quoted(out: &mut String, text: &str) -> Result<(), AllocError>
    ensures { OnOk result (string_bytes out.new ≡ string_bytes out.old ++ quoted text.now) }
{
    out.push_str("\"")?;
    push_all(out, text)?;
    out.push_str("\"")
}

/// A text that is written so has no byte under 32 and no `<`. Read as a JSON string it gives the text again. It ends
/// with its closing quote, whatever follows.
pub fn quoted_reads_back()
    ensures safe { QuotedIsSafe }
    ensures back { QuotedReadsBack }
{}
