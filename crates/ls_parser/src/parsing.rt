// From tokens and texts to trees.

ghost use Rattle.std.specs.Prelude.{◌≡◌, ◌<◌, IfOk, IfErr, IsErrOf, Some, length, map};
ghost use Rattle.ls_lexer.specs.Lexemes.{lexemes};
ghost use Rattle.ls_lexer.specs.Places.{text_limit};
ghost use Rattle.ls_lexer.specs.declared.fault.TextFault.TheVariants.{TooLong};
ghost use Rattle.ls_tree.specs.Trees.{File};
ghost use Rattle.ls_tree.specs.Views.{file_of};
ghost use Rattle.ls_tree.specs.FileView.{bare_file};
ghost use Rattle.ls_tree.specs.PlacedStatements.{placed_class, placed_file};
ghost use Rattle.ls_parser_spelling.specs.Places.{spots};
ghost use Rattle.ls_parser_spelling.specs.FilePlaces.{FileAt};
ghost use Rattle.ls_parser_spelling.specs.Files.{IsFileOf};
ghost use Rattle.ls_parser_tokens.specs.Answers.{Refuses, RefusesTokens, MayCome, ReadsAs};
ghost use Rattle.ls_parser.specs.ReadingClasses.{file_at};
ghost use Rattle.ls_parser_spelling.specs.Spells.{Spells, TextSpells};
ghost use Rattle.ls_parser.specs.Laws.{OneTree, OneFile};

use crate::class_trees::classes;
use crate::imports::{header, imports};
use ls_lexer::fault::TextFault;
use ls_lexer::lexing::lex;
use ls_lexer::token::Token;
use ls_parser_tokens::tokens::Context;
use ls_tree::tree::{Class, ClassFile, Dotted, Import};
use std::alloc::Global;

#[derive(Drop)]
struct Parts {
    header: Option<Dotted>,
    imports: Vec<Import>,
    classes: Vec<Class>,
}

#[tactic(auto, unfolding(crate::specs::ReadingClasses::file_at), using(crate::proofs::FilePlaces::file_placed))]
fn read_parts(context: Context, tokens: &[Token]) -> Result<Parts, TextFault>
    ensures read { ReadsAs (λ p. file_of p.header p.imports.items p.classes.items) result
        (file_at (lexemes tokens.now)) }
    ensures places { IfOk result
        (λ p. FileAt (record { classes = map placed_class p.classes.items }) (spots tokens.now)) }
{
    let header = header(context, tokens)?;
    let imports = imports(context, header.rest)?;
    let classes = classes(context, imports.rest)?;
    Ok(Parts {
        header: header.tree,
        imports: imports.tree,
        classes: classes.tree,
    })
}

/// The file that the tokens spell. Its package, imports and classes follow JLS 7.3 to 7.6, its members JLS 8, its
/// statements JLS 14, its expressions JLS 15. An `else` belongs to the nearest `if` (JLS 14.5), and operators of one
/// rank group to the left.
///
/// Memory may run out. Any other fault says that the tokens spell no file. `BadNumber` is 2147483648 without a minus
/// before it (JLS 3.10.1). `TooDeep` is a body or an initialiser over the greatest height, which is a limit of this
/// profile. `Syntax` is all else. If tokens are missing, its place is the end of the last token.
#[tactic(auto, using(crate::proofs::Files::found_is, crate::proofs::Files::formed_is, crate::proofs::Files::refused_is))]
pub fn parse(alloc: Global, tokens: &[Token]) -> Result<ClassFile, TextFault>
    ensures found { IfOk result (λ f. Spells (bare_file f) (lexemes tokens.now)) }
    ensures placed { IfOk result (λ f. FileAt (placed_file f) (spots tokens.now)) }
    ensures refused { IfErr result (λ e. RefusesTokens e ((f : File) → Spells f (lexemes tokens.now) → ⊥)) }
{
    let end = match tokens.last() {
        Some(token) => token.span.end,
        None => 0,
    };
    let parts = read_parts(Context { alloc, end }, tokens)?;
    Ok(ClassFile::new(parts.header, parts.imports, parts.classes))
}

/// The file that the text spells, which is the file of its tokens (JLS 3.5).
///
/// Memory may run out. Any other fault says that the text spells no file. `TooLong` comes exactly if the text has more
/// than 262,144 bytes, which is a limit of this profile. `BadByte` and `OpenComment` come only if that fault is at its
/// place, after gaps and tokens. `BadNumber` comes only if that fault is at its place, or if the text has tokens.
/// `Syntax` and `TooDeep` come only of a text that has tokens, as `parse` says.
#[tactic(auto, using(crate::proofs::Files::text_found, crate::proofs::FilePlaces::text_file, crate::proofs::Files::text_refused, crate::proofs::Files::lexing_refused, crate::proofs::Files::lexing_may_come, crate::proofs::Files::parsing_may_come))]
pub fn parse_text(alloc: Global, text: &str) -> Result<ClassFile, TextFault>
    ensures found { IfOk result (λ f. TextSpells (bare_file f) text.now) }
    ensures file { IfOk result (λ f. IsFileOf text.now (placed_file f)) }
    ensures refused { IfErr result (λ e. Refuses e ((f : File) → TextSpells f text.now → ⊥)) }
    ensures comes { IfErr result (λ e. MayCome text.now e) }
    ensures long { text_limit < length text.now → IsErrOf result TooLong }
{
    let tokens = lex(alloc, text)?;
    parse(alloc, &tokens)
}

/// No list of tokens spells two files.
#[tactic(auto, using(crate::proofs::Files::one_file))]
pub fn one_tree()
    ensures { OneTree }
{}

/// No text spells two files.
#[tactic(auto, using(crate::proofs::Files::one_file_of_text))]
pub fn one_file()
    ensures { OneFile }
{}
