// Each function here puts one token after those that are there.

ghost use Rattle.std.specs.Prelude.{◌≡◌, ◌++◌, ◌∷◌, [], OnOk};
ghost use Rattle.ls_lexer.specs.Lexemes.{Named, Numeral, Reserved, Marked, lexeme_of};
ghost use Rattle.ls_parser_spelling.specs.Kinds.{lexemes_of};
ghost use Rattle.ls_tree.specs.Views.{name_text};

use ls_lexer::sign::Sign;
use ls_lexer::token::TokenKind;
use ls_lexer::word::Word;
use ls_tree::tree::Name;
use std::alloc::AllocError;

#[tactic(auto, using(crate::proofs::MoreKinds::kinds_push))]
fn put<'a>(out: &mut Vec<TokenKind<'a>>, kind: TokenKind<'a>) -> Result<(), AllocError>
    ensures { OnOk result (lexemes_of out.new.items ≡ lexemes_of out.old.items ++ lexeme_of kind.entry ∷ []) }
{
    out.push(kind)?;
    Ok(())
}

/// Puts a separator or operator. The only refusal is that memory ran out.
pub fn put_sign(out: &mut Vec<TokenKind>, sign: Sign) -> Result<(), AllocError>
    ensures { OnOk result (lexemes_of out.new.items ≡ lexemes_of out.old.items ++ Marked sign ∷ []) }
{
    put(out, TokenKind::Sign(sign))
}

/// Puts a reserved word. The only refusal is that memory ran out.
pub fn put_word(out: &mut Vec<TokenKind>, word: Word) -> Result<(), AllocError>
    ensures { OnOk result (lexemes_of out.new.items ≡ lexemes_of out.old.items ++ Reserved word ∷ []) }
{
    put(out, TokenKind::Word(word))
}

/// Puts a name with this text. The only refusal is that memory ran out.
pub fn put_text<'a>(out: &mut Vec<TokenKind<'a>>, text: &'a str) -> Result<(), AllocError>
    ensures { OnOk result (lexemes_of out.new.items ≡ lexemes_of out.old.items ++ Named text.now ∷ []) }
{
    put(out, TokenKind::Name(text))
}

/// Puts a name of a tree. The only refusal is that memory ran out.
pub fn put_name<'a>(out: &mut Vec<TokenKind<'a>>, name: &'a Name) -> Result<(), AllocError>
    ensures { OnOk result (lexemes_of out.new.items ≡ lexemes_of out.old.items ++ Named (name_text name.now) ∷ []) }
{
    put_text(out, name.text.as_str())
}

/// Puts a number with this text. The only refusal is that memory ran out.
pub fn put_number<'a>(out: &mut Vec<TokenKind<'a>>, text: &'a str) -> Result<(), AllocError>
    ensures { OnOk result (lexemes_of out.new.items ≡ lexemes_of out.old.items ++ Numeral text.now ∷ []) }
{
    put(out, TokenKind::Number(text))
}
