// Names in schedules, histories and orders.

ghost use Rattle.ls_lexer.specs.Names.{is_identifier, is_name};
ghost use Rattle.std.specs.Prelude.{◌≡◌};

use crate::characters::is_letter;
use crate::reserved::reserved_word;
use crate::runs::part_run;

fn is_identifier(text: &[u8]) -> bool
    ensures { result ≡ is_identifier text.now }
{
    match text.split_first() {
        Some((first, rest)) => is_letter(*first) && part_run(rest) == rest.len(),
        None => false,
    }
}

/// Whether bytes are an identifier (JLS 3.8) and not a reserved word.
#[tactic(auto, unfolding(crate::specs::Names::is_name))]
pub fn is_name_bytes(text: &[u8]) -> bool
    ensures { result ≡ is_name text.now }
{
    is_identifier(text) && reserved_word(text).is_none()
}

/// Whether a text is an identifier (JLS 3.8) and not a reserved word.
pub fn is_name(text: &str) -> bool
    ensures { result ≡ is_name text.now }
{
    is_name_bytes(text.as_bytes())
}
