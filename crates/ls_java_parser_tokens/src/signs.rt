// What a fault says of a sign that was expected.

use ls_java_lexer::fault::Wanted;
use ls_lexer::sign::Sign;

/// The words for a sign that was expected.
pub fn wanted_sign(sign: Sign) -> Wanted {
    match sign {
        Sign::OpenParen => Wanted::OpenParen,
        Sign::CloseParen => Wanted::CloseParen,
        Sign::OpenBrace => Wanted::OpenBrace,
        Sign::CloseBrace => Wanted::CloseBrace,
        Sign::OpenBracket => Wanted::OpenBracket,
        Sign::CloseBracket => Wanted::CloseBracket,
        Sign::Semicolon => Wanted::Semicolon,
        Sign::Comma => Wanted::Comma,
        Sign::Colon => Wanted::Colon,
        Sign::Arrow => Wanted::Arrow,
        Sign::ColonColon => Wanted::ColonColon,
        Sign::Dot => Wanted::Dot,
        Sign::Less => Wanted::Less,
        Sign::Greater => Wanted::Greater,
        Sign::At => Wanted::At,
        _ => Wanted::Token,
    }
}
