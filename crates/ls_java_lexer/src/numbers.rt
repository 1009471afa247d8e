// Numbers (JLS 3.10.1, 3.10.2).

ghost use Rattle.std.specs.Prelude.{◌<◌, ◌≤◌, length};

use crate::fault::JavaFault;
use crate::gaps::{byte_at, is_part};
use crate::token::{Number, TokenKind};

const MOST_INT: u64 = 2147483648;

const MOST_INT_BITS: u64 = 4294967295;

const MOST_LONG: u64 = 9223372036854775808;

// What digits are in a base.
#[derive(Drop)]
enum Digits {
    Value(u64),
    TooLarge,
    Bad,
}

// The value of a digit, or 255 if it is none.
fn digit_value(b: u8) -> u64 {
    match b {
        b'0'..=b'9' => (b - b'0') as u64,
        b'a'..=b'f' => (b - b'a') as u64 + 10,
        b'A'..=b'F' => (b - b'A') as u64 + 10,
        _ => 255,
    }
}

// The value of a number with one more digit, if 64 bits hold it.
fn with_digit(value: u64, base: u64, digit: u64) -> Option<u64> {
    value.checked_mul(base)?.checked_add(digit)
}

// The value of digits with `_` between them.
fn digits_value(digits: &[u8], base: u64) -> Digits {
    if byte_at(digits, 0) == b'_' || byte_at(digits, digits.len().saturating_sub(1)) == b'_' {
        return Digits::Bad;
    }
    let mut value: u64 = 0;
    let mut large = false;
    for b in digits {
        if *b != b'_' {
            let digit = digit_value(*b);
            if digit >= base {
                return Digits::Bad;
            }
            match with_digit(value, base, digit) {
                Some(more) => value = more,
                None => large = true,
            }
        }
    }
    if large {
        return Digits::TooLarge;
    }
    Digits::Value(value)
}

// The base of a number, and its digits. An octal number keeps its first 0.
fn base_of(text: &[u8]) -> (u64, &[u8]) {
    match text {
        [b'0', b'x' | b'X', digits @ ..] => (16, digits),
        [b'0', b'b' | b'B', digits @ ..] => (2, digits),
        [b'0', _, ..] => (8, text),
        _ => (10, text),
    }
}

// Whether a text has the characters of a float: a point, an exponent or a suffix, and digits else.
fn is_float(text: &[u8]) -> bool {
    let mut marked = false;
    for b in text {
        match *b {
            b'.' | b'e' | b'E' | b'f' | b'F' | b'd' | b'D' | b'p' | b'P' => marked = true,
            b'0'..=b'9' | b'a'..=b'c' | b'A'..=b'C' | b'x' | b'X' | b'_' | b'+' | b'-' => {}
            _ => return false,
        }
    }
    marked
}

fn most(long: bool, decimal: bool) -> u64 {
    if long && decimal {
        MOST_LONG
    } else if long {
        u64::MAX
    } else if decimal {
        MOST_INT
    } else {
        MOST_INT_BITS
    }
}

/// The number that a text spells, which stands at byte `at`.
pub fn number_of(text: &[u8], at: usize) -> Result<TokenKind<'static>, JavaFault> {
    let (long, body) = match text {
        [body @ .., b'l' | b'L'] => (true, body),
        _ => (false, text),
    };
    let (base, digits) = base_of(body);
    let decimal = base == 10;
    match digits_value(digits, base) {
        Digits::Value(value) if !digits.is_empty() => {
            if value > most(long, decimal) {
                Err(JavaFault::LargeNumber { at })
            } else {
                Ok(TokenKind::Number(Number {
                    value,
                    long,
                    decimal,
                }))
            }
        }
        Digits::TooLarge => Err(JavaFault::LargeNumber { at }),
        _ if is_float(text) => Ok(TokenKind::Float),
        _ => Err(JavaFault::BadNumber { at }),
    }
}

// Whether a sign may come after this byte, which is in a number: that of an exponent (JLS 3.10.2).
fn takes_sign(b: u8, hexadecimal: bool) -> bool {
    if hexadecimal {
        b == b'p' || b == b'P'
    } else {
        b == b'e' || b == b'E'
    }
}

/// Where a number ends that begins here.
pub fn number_end(bytes: &[u8], at: usize) -> usize
    requires { at < length bytes.now }
    ensures { (at < result) × (result ≤ length bytes.now) }
{
    let second = byte_at(bytes, at + 1);
    let hexadecimal = bytes[at] == b'0' && (second == b'x' || second == b'X');
    let mut end = at + 1;
    while end < bytes.len() {
        let b = bytes[end];
        let signed = (b == b'+' || b == b'-') && takes_sign(bytes[end - 1], hexadecimal);
        if !(is_part(b) || b == b'.' || signed) {
            break;
        }
        end += 1;
    }
    end
}
