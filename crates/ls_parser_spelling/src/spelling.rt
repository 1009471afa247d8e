// The tokens that spell a tree.

ghost use Rattle.std.specs.Prelude.{◌≡◌, IfOk, List};
ghost use Rattle.ls_lexer.specs.Lexemes.{lexemes};
ghost use Rattle.ls_lexer.specs.declared.token.Token.{Token};
ghost use Rattle.ls_tree.specs.FileView.{bare_file};
ghost use Rattle.ls_parser_spelling.specs.Kinds.{lexemes_of};
ghost use Rattle.ls_parser_spelling.specs.Spelling.{spell};
ghost use Rattle.ls_parser_spelling.specs.Spells.{Spells};

use crate::classes::{put_classes, put_imports, put_package};
use ls_lexer::token::TokenKind;
use ls_tree::tree::ClassFile;
use std::alloc::{AllocError, Global};

/// The kinds of the tokens that spell a file (JLS 3.5). The text of each name and number is borrowed from the tree. If
/// `parse` answered the file, these are the kinds of the tokens that it read. A kind has no span, since a tree knows
/// no gaps. The only refusal is that memory ran out.
pub fn spell<'a>(alloc: Global, file: &'a ClassFile) -> Result<Vec<TokenKind<'a>>, AllocError>
    ensures spelled { IfOk result (λ kinds. lexemes_of kinds.items ≡ spell (bare_file file.now)) }
    ensures again { IfOk result (λ kinds. (tokens : List Token) → Spells (bare_file file.now) (lexemes tokens) →
        lexemes_of kinds.items ≡ lexemes tokens) }
{
    let mut out = Vec::new(alloc);
    put_package(&mut out, &file.package)?;
    put_imports(&mut out, &file.imports)?;
    put_classes(&mut out, &file.classes)?;
    Ok(out)
}
