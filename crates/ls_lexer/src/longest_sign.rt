// The sign at the front of a text, by longest match.

ghost use Rattle.ls_lexer.specs.Signs.{
  four_of,
  pair_of,
  sign_at,
  single_of,
  three_of,
  up_to_three,
  up_to_two,
};
ghost use Rattle.std.specs.Prelude.{◌≡◌, ◌<◌, ◌≤◌, ◌+◌, ◌-◌, ◌∷◌, IfSome, length, slice_index};

use crate::sign::Sign;

fn single_of(b: u8) -> Option<Sign>
    ensures small { IfSome result (λ _. b < 128) }
    ensures value { result ≡ single_of b }
{
    match b {
        b'(' => Some(Sign::OpenParen),
        b')' => Some(Sign::CloseParen),
        b'{' => Some(Sign::OpenBrace),
        b'}' => Some(Sign::CloseBrace),
        b'[' => Some(Sign::OpenBracket),
        b']' => Some(Sign::CloseBracket),
        b';' => Some(Sign::Semicolon),
        b',' => Some(Sign::Comma),
        b'.' => Some(Sign::Dot),
        b'@' => Some(Sign::At),
        b'=' => Some(Sign::Assign),
        b'>' => Some(Sign::Greater),
        b'<' => Some(Sign::Less),
        b'!' => Some(Sign::Not),
        b'~' => Some(Sign::Tilde),
        b'?' => Some(Sign::Question),
        b':' => Some(Sign::Colon),
        b'+' => Some(Sign::Plus),
        b'-' => Some(Sign::Minus),
        b'*' => Some(Sign::Star),
        b'/' => Some(Sign::Slash),
        b'&' => Some(Sign::BitAnd),
        b'|' => Some(Sign::BitOr),
        b'^' => Some(Sign::Caret),
        b'%' => Some(Sign::Percent),
        _ => None,
    }
}

fn pair_of(b: u8, c: u8) -> Option<Sign>
    ensures small { IfSome result (λ _. c < 128) }
    ensures value { result ≡ pair_of b c }
{
    match (b, c) {
        (b':', b':') => Some(Sign::ColonColon),
        (b'-', b'>') => Some(Sign::Arrow),
        (b'=', b'=') => Some(Sign::Equal),
        (b'>', b'=') => Some(Sign::GreaterEqual),
        (b'<', b'=') => Some(Sign::LessEqual),
        (b'!', b'=') => Some(Sign::NotEqual),
        (b'&', b'&') => Some(Sign::And),
        (b'|', b'|') => Some(Sign::Or),
        (b'+', b'+') => Some(Sign::Increment),
        (b'-', b'-') => Some(Sign::Decrement),
        (b'<', b'<') => Some(Sign::ShiftLeft),
        (b'>', b'>') => Some(Sign::ShiftRight),
        (b'+', b'=') => Some(Sign::PlusAssign),
        (b'-', b'=') => Some(Sign::MinusAssign),
        (b'*', b'=') => Some(Sign::StarAssign),
        (b'/', b'=') => Some(Sign::SlashAssign),
        (b'&', b'=') => Some(Sign::BitAndAssign),
        (b'|', b'=') => Some(Sign::BitOrAssign),
        (b'^', b'=') => Some(Sign::CaretAssign),
        (b'%', b'=') => Some(Sign::PercentAssign),
        _ => None,
    }
}

fn three_of(b: u8, c: u8, d: u8) -> Option<Sign>
    ensures small { IfSome result (λ _. d < 128) }
    ensures value { result ≡ three_of b c d }
{
    match (b, c, d) {
        (b'.', b'.', b'.') => Some(Sign::Ellipsis),
        (b'>', b'>', b'>') => Some(Sign::UnsignedShiftRight),
        (b'<', b'<', b'=') => Some(Sign::ShiftLeftAssign),
        (b'>', b'>', b'=') => Some(Sign::ShiftRightAssign),
        _ => None,
    }
}

fn four_of(b: u8, c: u8, d: u8, e: u8) -> Option<Sign>
    ensures small { IfSome result (λ _. e < 128) }
    ensures value { result ≡ four_of b c d e }
{
    if b == b'>' && c == b'>' && d == b'>' && e == b'=' {
        Some(Sign::UnsignedShiftRightAssign)
    } else {
        None
    }
}

fn up_to_two(first: u8, rest: &[u8]) -> Option<(Sign, usize)>
    ensures value { result ≡ up_to_two first rest.now }
    ensures size { IfSome result (λ p. (0 < p.1) × (p.1 ≤ length rest.now + 1)) }
    ensures ascii { IfSome result (λ p. slice_index (first ∷ rest.now) (p.1 - 1) < 128) }
{
    if let Some((second, _)) = rest.split_first() {
        if let Some(sign) = pair_of(first, *second) {
            return Some((sign, 2));
        }
    }
    match single_of(first) {
        Some(sign) => Some((sign, 1)),
        None => None,
    }
}

fn up_to_three(first: u8, rest: &[u8]) -> Option<(Sign, usize)>
    ensures value { result ≡ up_to_three first rest.now }
    ensures size { IfSome result (λ p. (0 < p.1) × (p.1 ≤ length rest.now + 1)) }
    ensures ascii { IfSome result (λ p. slice_index (first ∷ rest.now) (p.1 - 1) < 128) }
{
    if let [second, third, ..] = rest {
        if let Some(sign) = three_of(first, *second, *third) {
            return Some((sign, 3));
        }
    }
    up_to_two(first, rest)
}

/// The longest sign at the front of a text, with its number of bytes, or none. `first` is the first byte, and `rest`
/// the others.
pub fn sign_at(first: u8, rest: &[u8]) -> Option<(Sign, usize)>
    ensures value { result ≡ sign_at first rest.now }
    ensures size { IfSome result (λ p. (0 < p.1) × (p.1 ≤ length rest.now + 1)) }
    ensures ascii { IfSome result (λ p. slice_index (first ∷ rest.now) (p.1 - 1) < 128) }
{
    if let [second, third, fourth, ..] = rest {
        if let Some(sign) = four_of(first, *second, *third, *fourth) {
            return Some((sign, 4));
        }
    }
    up_to_three(first, rest)
}
