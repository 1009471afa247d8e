// The characters of names, numbers and gaps.

ghost use Rattle.ls_lexer.specs.Characters.{is_digit, is_letter, is_line_end, is_part, is_white};
ghost use Rattle.std.specs.Prelude.{◌≡◌};

/// Whether a byte is one of '0' to '9'.
pub fn is_digit(b: u8) -> bool
    ensures { result ≡ is_digit b }
{
    b >= b'0' && b <= b'9'
}

/// Whether a byte is a letter of ASCII, `_` or `$`.
pub fn is_letter(b: u8) -> bool
    ensures { result ≡ is_letter b }
{
    (b >= b'A' && b <= b'Z') || (b >= b'a' && b <= b'z') || b == b'_' || b == b'$'
}

/// Whether a byte is a letter, a digit, `_` or `$`.
pub fn is_part(b: u8) -> bool
    ensures { result ≡ is_part b }
{
    is_digit(b) || is_letter(b)
}

/// Whether a byte is a space, a tab, a form feed, or the end of a line.
pub fn is_white(b: u8) -> bool
    ensures { result ≡ is_white b }
{
    b == b' ' || b == b'\t' || b == 12 || b == b'\r' || b == b'\n'
}

/// Whether a byte is CR or LF.
pub fn is_line_end(b: u8) -> bool
    ensures { result ≡ is_line_end b }
{
    b == b'\r' || b == b'\n'
}
