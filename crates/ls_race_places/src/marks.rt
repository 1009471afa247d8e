// What a sign says of the names beside it.

ghost use Rattle.std.specs.Prelude.{◌≡◌, option_map};
ghost use Rattle.ls_lexer.specs.Lexemes.{lexeme_of};
ghost use Rattle.ls_race_places.specs.Marks.{mark_in, mark_of};

use ls_lexer::sign::Sign;
use ls_lexer::token::TokenKind;
use std::alloc::AllocError;

/// What a sign says of the names beside it.
#[derive(Copy)]
pub enum Mark {
    /// `{`
    Opens,
    /// `}`
    Closes,
    /// `;`
    Ends,
    /// `(`
    Calls,
    /// `)`
    Called,
    /// `=`
    Assigns,
    /// `+=`
    Adds,
    /// `++` or `--`
    Counts,
    Other,
}

impl Clone for Mark {
    fn clone(&self) -> Result<Mark, AllocError> {
        Ok(*self)
    }
}

pub(crate) fn mark_of(sign: Sign) -> Mark
    ensures { result ≡ mark_of sign }
{
    match sign {
        Sign::OpenBrace => Mark::Opens,
        Sign::CloseBrace => Mark::Closes,
        Sign::Semicolon => Mark::Ends,
        Sign::OpenParen => Mark::Calls,
        Sign::CloseParen => Mark::Called,
        Sign::Assign => Mark::Assigns,
        Sign::PlusAssign => Mark::Adds,
        Sign::Increment | Sign::Decrement => Mark::Counts,
        _ => Mark::Other,
    }
}

/// That of what is no sign, or where nothing stands, says nothing.
pub(crate) fn mark_in(kind: Option<TokenKind<'_>>) -> Mark
    ensures { result ≡ mark_in (option_map lexeme_of kind.entry) }
{
    match kind {
        Some(TokenKind::Sign(sign)) => mark_of(sign),
        Some(TokenKind::Name(_) | TokenKind::Number(_) | TokenKind::Word(_)) => Mark::Other,
        None => Mark::Other,
    }
}
