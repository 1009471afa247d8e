// The sign at the front of a text, by longest match. `>` never takes what comes after it.

ghost use Rattle.std.specs.Prelude.{◌<◌, ◌≤◌, IfSome, length};

use ls_lexer::sign::Sign;

fn single_of(b: u8) -> Option<Sign> {
    match b {
        b'(' => Some(Sign::OpenParen),
        b')' => Some(Sign::CloseParen),
        b'{' => Some(Sign::OpenBrace),
        b'}' => Some(Sign::CloseBrace),
        b'[' => Some(Sign::OpenBracket),
        b']' => Some(Sign::CloseBracket),
        b';' => Some(Sign::Semicolon),
        b',' => Some(Sign::Comma),
        b'.' => Some(Sign::Dot),
        b'@' => Some(Sign::At),
        b'=' => Some(Sign::Assign),
        b'>' => Some(Sign::Greater),
        b'<' => Some(Sign::Less),
        b'!' => Some(Sign::Not),
        b'~' => Some(Sign::Tilde),
        b'?' => Some(Sign::Question),
        b':' => Some(Sign::Colon),
        b'+' => Some(Sign::Plus),
        b'-' => Some(Sign::Minus),
        b'*' => Some(Sign::Star),
        b'/' => Some(Sign::Slash),
        b'&' => Some(Sign::BitAnd),
        b'|' => Some(Sign::BitOr),
        b'^' => Some(Sign::Caret),
        b'%' => Some(Sign::Percent),
        _ => None,
    }
}

fn pair_of(b: u8, c: u8) -> Option<Sign> {
    match (b, c) {
        (b':', b':') => Some(Sign::ColonColon),
        (b'-', b'>') => Some(Sign::Arrow),
        (b'=', b'=') => Some(Sign::Equal),
        (b'<', b'=') => Some(Sign::LessEqual),
        (b'!', b'=') => Some(Sign::NotEqual),
        (b'&', b'&') => Some(Sign::And),
        (b'|', b'|') => Some(Sign::Or),
        (b'+', b'+') => Some(Sign::Increment),
        (b'-', b'-') => Some(Sign::Decrement),
        (b'<', b'<') => Some(Sign::ShiftLeft),
        (b'+', b'=') => Some(Sign::PlusAssign),
        (b'-', b'=') => Some(Sign::MinusAssign),
        (b'*', b'=') => Some(Sign::StarAssign),
        (b'/', b'=') => Some(Sign::SlashAssign),
        (b'&', b'=') => Some(Sign::BitAndAssign),
        (b'|', b'=') => Some(Sign::BitOrAssign),
        (b'^', b'=') => Some(Sign::CaretAssign),
        (b'%', b'=') => Some(Sign::PercentAssign),
        _ => None,
    }
}

fn three_of(b: u8, c: u8, d: u8) -> Option<Sign> {
    match (b, c, d) {
        (b'.', b'.', b'.') => Some(Sign::Ellipsis),
        (b'<', b'<', b'=') => Some(Sign::ShiftLeftAssign),
        _ => None,
    }
}

fn up_to_two(text: &[u8]) -> Option<(Sign, usize)>
    ensures { IfSome result (λ p. (0 < p.1) × (p.1 ≤ length text.now)) }
{
    if let [first, second, ..] = text {
        if let Some(sign) = pair_of(*first, *second) {
            return Some((sign, 2));
        }
    }
    match text.split_first() {
        Some((first, _)) => match single_of(*first) {
            Some(sign) => Some((sign, 1)),
            None => None,
        },
        None => None,
    }
}

/// The longest sign at the front of a text (JLS 3.11, 3.12), with its number of bytes, or none.
pub fn sign_at(text: &[u8]) -> Option<(Sign, usize)>
    ensures { IfSome result (λ p. (0 < p.1) × (p.1 ≤ length text.now)) }
{
    if let [first, second, third, ..] = text {
        if let Some(sign) = three_of(*first, *second, *third) {
            return Some((sign, 3));
        }
    }
    up_to_two(text)
}
