// Which texts are numbers.

ghost use Rattle.ls_lexer.specs.Numbers.{is_number, value_of};
ghost use Rattle.std.specs.Prelude.{◌≡◌, nat_le};

use crate::runs::digit_run;

const MOST: u64 = 2147483648;

// Whether the digits are at most the greatest number that a token may be.
#[tactic(auto, using(crate::proofs::Digits::value_grows, crate::proofs::Digits::value_more, crate::proofs::Digits::value_done, crate::proofs::Digits::value_first))]
fn is_small(text: &[u8]) -> bool
    ensures { result ≡ nat_le (value_of 0 text.now) 2147483648 }
{
    let mut value: u64 = 0;
    for b in text {
        value = value * 10 + b.saturating_sub(b'0') as u64;
        if value > MOST {
            return false;
        }
    }
    true
}

/// Whether a text is a decimal number of at most 2147483648 (JLS 3.10.1).
pub fn is_number(text: &[u8]) -> bool
    ensures { result ≡ is_number text.now }
{
    match text.split_first() {
        Some((first, rest)) => {
            let formed = if *first == b'0' {
                rest.is_empty()
            } else {
                digit_run(rest) == rest.len()
            };
            formed && is_small(text)
        }
        None => false,
    }
}
