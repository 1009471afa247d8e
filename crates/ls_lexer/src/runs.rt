// Runs of bytes at the front of a text.

ghost use Rattle.ls_lexer.specs.Characters.{is_digit, is_line_end, is_part, run};
ghost use Rattle.ls_lexer.specs.Tokens.{comment};
ghost use Rattle.std.specs.Prelude.{◌≡◌, ◌≤◌, IfSome, length, not};

use crate::characters::{is_digit, is_line_end, is_part};

/// How many digits are at the front.
#[tactic(auto, using(crate::proofs::Spans::ran_none, crate::proofs::Spans::ran_more, crate::proofs::Spans::ran_stops, crate::proofs::Spans::ran_out))]
pub fn digit_run(bytes: &[u8]) -> usize
    ensures { result ≡ run is_digit bytes.now }
{
    let mut n = 0;
    while n < bytes.len() && is_digit(bytes[n]) {
        n += 1;
    }
    n
}

/// How many bytes at the front are parts of a word or number.
#[tactic(auto, using(crate::proofs::Spans::ran_none, crate::proofs::Spans::ran_more, crate::proofs::Spans::ran_stops, crate::proofs::Spans::ran_out))]
pub fn part_run(bytes: &[u8]) -> usize
    ensures { result ≡ run is_part bytes.now }
{
    let mut n = 0;
    while n < bytes.len() && is_part(bytes[n]) {
        n += 1;
    }
    n
}

/// How many bytes come before the end of the line.
#[tactic(auto, using(crate::proofs::Spans::ran_none, crate::proofs::Spans::ran_more, crate::proofs::Spans::ran_stops, crate::proofs::Spans::ran_out))]
pub fn line_run(bytes: &[u8]) -> usize
    ensures within { result ≤ length bytes.now }
    ensures value { result ≡ run (λ x. not (is_line_end x)) bytes.now }
{
    let mut n = 0;
    while n < bytes.len() && !is_line_end(bytes[n]) {
        n += 1;
    }
    n
}

/// How many bytes there are up to the end of a comment, with that end.
#[tactic(auto, using(crate::proofs::Spans::open_first, crate::proofs::Spans::open_ends, crate::proofs::Spans::open_goes_on, crate::proofs::Spans::open_never))]
pub fn comment_run(bytes: &[u8]) -> Option<usize>
    ensures within { IfSome result (λ n. n ≤ length bytes.now) }
    ensures value { result ≡ comment bytes.now }
{
    let mut n = 0;
    while n + 1 < bytes.len() {
        if bytes[n] == b'*' && bytes[n + 1] == b'/' {
            return Some(n + 2);
        }
        n += 1;
    }
    None
}
