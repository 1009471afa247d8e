// Modifiers, types, and declarations of fields and locals.

ghost use Rattle.std.specs.Prelude.{◌≡◌, ◌+◌, ◌-◌, ◌<◌, ◌≤◌, ◌^◌, ◌++◌, ◌∷◌, List, [], IfOk, IfSome, Some, length};
ghost use Rattle.std.specs.Prelude.{map, option_map, max};
ghost use Rattle.ls_lexer.specs.Lexemes.{Named, Reserved, lexemes};
ghost use Rattle.ls_lexer.specs.declared.word.Word.TheVariants as words;
ghost use Rattle.ls_lexer.specs.declared.sign.Sign.TheVariants as signs;
ghost use Rattle.ls_tree.specs.WellFormed.{value_height, declarators_height};
ghost use Rattle.ls_tree.specs.Views.{name_text, bare, bare_modifier, bare_type, bare_declarator, bare_declaration};
ghost use Rattle.ls_tree.specs.Trees as trees;
ghost use Rattle.ls_tree.specs.PlacedTrees as placed_trees;
ghost use Rattle.ls_tree.specs.PlacedStatements.{placed_type, placed_declarator, placed_declaration};
ghost use Rattle.ls_parser_spelling.specs.Spelling.{spell_modifier};
ghost use Rattle.ls_parser_spelling.specs.Places.{Spot, spot, spots};
ghost use Rattle.ls_parser_spelling.specs.StatementPlaces.{word, ManyAt, BehindComma, ModifierAt, TypeAt};
ghost use Rattle.ls_parser_spelling.specs.StatementPlaces.{DeclaratorAt, DeclaratorsAt, DeclarationAt};
ghost use Rattle.ls_parser_tokens.specs.Answers.{ReadsAs, Finds};
ghost use Rattle.ls_parser_tokens.specs.Reading.{one_more, behind_comma, many_at, not_yet};
ghost use Rattle.ls_parser_expressions.specs.ReadingExpressions.{expression_at};
ghost use Rattle.ls_parser_declarations.specs.ReadingDeclarations.{modifier_of_word, modifier_word_at};
ghost use Rattle.ls_parser_declarations.specs.ReadingDeclarations.{starts_modifier, modifier_at, modifiers_at};
ghost use Rattle.ls_parser_declarations.specs.ReadingDeclarations.{boolean_at, named_type_at, type_at, declarator_at};
ghost use Rattle.ls_parser_declarations.specs.ReadingDeclarations.{more_declarators_at, declarator_list_at};
ghost use Rattle.ls_parser_declarations.specs.ReadingDeclarations.{declarators_at, declaration_at, starts_type};
ghost use Rattle.ls_parser_declarations.specs.ReadingDeclarations.{named_declaration, starts_declaration};

use ls_lexer::fault::TextFault;
use ls_lexer::sign::Sign;
use ls_lexer::token::{Span, Token, TokenKind};
use ls_lexer::word::Word;
use ls_parser_expressions::expressions::binary;
use ls_parser_expressions::primaries::{class_name, is_markable};
use ls_parser_tokens::tokens::{
    Context, NamePart, Part, Read, closed_part, expect, expect_word, make_name, name, name_part,
    push, sign_part, span_to, starts_with, word_part,
};
use ls_tree::tree::{Declaration, Declarator, Expression, Modifier, Name, Type};

fn modifier_word(word: Word) -> Option<Modifier>
    ensures read { option_map bare_modifier result ≡ modifier_of_word word }
    ensures spelled { IfSome result (λ m. spell_modifier (bare_modifier m) ≡ Reserved word ∷ []) }
{
    match word {
        Word::Public => Some(Modifier::Public),
        Word::Protected => Some(Modifier::Protected),
        Word::Private => Some(Modifier::Private),
        Word::Final => Some(Modifier::Final),
        Word::Volatile => Some(Modifier::Volatile),
        _ => None,
    }
}

#[tactic(auto, using(crate::proofs::Places::modifier_is))]
fn modifier_part<'t, 'a>(tokens: &'t [Token<'a>]) -> Option<Read<'t, 'a, Modifier>>
    ensures read { Finds (λ m. (bare_modifier m.tree, lexemes m.rest.now)) result
        (modifier_word_at (lexemes tokens.now)) }
    ensures places { IfSome result (λ m. ModifierAt (bare_modifier m.tree) (spots tokens.now) (spots m.rest.now)) }
{
    match tokens {
        [token, rest @ ..] => match token.kind {
            TokenKind::Word(word) => {
                let tree = modifier_word(word)?;
                Some(Read { tree, rest })
            }
            _ => None,
        },
        [] => None,
    }
}

/// Whether a modifier comes first.
pub fn starts_modifier(tokens: &[Token]) -> bool
    ensures { result ≡ starts_modifier (lexemes tokens.now) }
{
    modifier_part(tokens).is_some() || starts_with(tokens, Sign::At)
}

#[tactic(auto, using(crate::proofs::Places::annotation_is))]
fn modifier<'t, 'a>(
    context: Context,
    tokens: &'t [Token<'a>],
) -> Result<Read<'t, 'a, Modifier>, TextFault>
    ensures read { ReadsAs (λ m. (bare_modifier m.tree, lexemes m.rest.now)) result (modifier_at (lexemes tokens.now)) }
    ensures places { IfOk result (λ m. ModifierAt (bare_modifier m.tree) (spots tokens.now) (spots m.rest.now)) }
{
    if let Some(found) = modifier_part(tokens) {
        return Ok(found);
    }
    let at = expect(context, tokens, Sign::At)?;
    let name = name(context, at.rest)?;
    Ok(Read {
        tree: Modifier::Annotation(name.tree),
        rest: name.rest,
    })
}

/// The modifiers that the tokens begin with, or none. Refused if an annotation has no name, or if memory runs out.
#[tactic(auto, using(crate::proofs::Places::modifiers_none))]
pub fn modifiers<'t, 'a>(
    context: Context,
    tokens: &'t [Token<'a>],
) -> Result<Read<'t, 'a, Vec<Modifier>>, TextFault>
    ensures read { ReadsAs (λ m. (map bare_modifier m.tree.items, lexemes m.rest.now)) result
        (modifiers_at (lexemes tokens.now)) }
    ensures places { IfOk result
        (λ m. ManyAt ModifierAt (map bare_modifier m.tree.items) (spots tokens.now) (spots m.rest.now)) }
{
    let mut all = Read {
        tree: Vec::new(context.alloc),
        rest: tokens,
    };
    while starts_modifier(all.rest) {
        all = one_modifier(context, all)?;
    }
    Ok(all)
}

#[tactic(auto, using(ls_parser_expressions::proofs::Rows::map_push, crate::proofs::Places::modifiers_pushed))]
fn one_modifier<'t, 'a>(
    context: Context,
    before: Read<'t, 'a, Vec<Modifier>>,
) -> Result<Read<'t, 'a, Vec<Modifier>>, TextFault>
    ensures read { ReadsAs (λ m. (map bare_modifier m.tree.items, lexemes m.rest.now)) result
        (one_more modifier_at (map bare_modifier before.entry.tree.items) (lexemes before.entry.rest.now)) }
    ensures places { IfOk result (λ m. (ss : List Spot) →
        ManyAt ModifierAt (map bare_modifier before.entry.tree.items) ss (spots before.entry.rest.now) →
        ManyAt ModifierAt (map bare_modifier m.tree.items) ss (spots m.rest.now)) }
{
    let found = modifier(context, before.rest)?;
    Ok(Read {
        tree: push(before.tree, found.tree)?,
        rest: found.rest,
    })
}

// What comes after `boolean`.
#[tactic(auto, using(crate::proofs::Places::boolean_is, crate::proofs::Places::array_is))]
fn boolean_type<'t, 'a>(
    context: Context,
    tokens: &'t [Token<'a>],
) -> Result<Read<'t, 'a, Type>, TextFault>
    ensures read { ReadsAs (λ t. (bare_type t.tree, lexemes t.rest.now)) result (boolean_at (lexemes tokens.now)) }
    ensures places { IfOk result (λ t. (s : Span) →
        TypeAt (placed_type t.tree) (word words.Boolean s ∷ spots tokens.now) (spots t.rest.now)) }
{
    match sign_part(tokens, Sign::OpenBracket) {
        Some(open) => Ok(Read {
            tree: Type::BooleanArray,
            rest: expect(context, open.rest, Sign::CloseBracket)?.rest,
        }),
        None => Ok(Read {
            tree: Type::Boolean,
            rest: tokens,
        }),
    }
}

// A class's name, or the name of markables and their class.
#[tactic(auto, using(crate::proofs::Places::class_type_is, crate::proofs::Places::markable_is))]
fn named_type<'t, 'a>(
    context: Context,
    found: NamePart<'t, 'a>,
) -> Result<Read<'t, 'a, Type>, TextFault>
    ensures read { ReadsAs (λ t. (bare_type t.tree, lexemes t.rest.now)) result
        (named_type_at found.entry.text.now (lexemes found.entry.rest.now)) }
    ensures places { IfOk result
        (λ t. TypeAt (placed_type t.tree) (spot (Named found.entry.text.now) found.entry.span ∷
        spots found.entry.rest.now) (spots t.rest.now)) }
{
    if is_markable(found.text) && starts_with(found.rest, Sign::Less) {
        let name = class_name(context, found.rest)?;
        Ok(Read {
            tree: Type::Markable(name.tree),
            rest: name.rest,
        })
    } else {
        let name = make_name(context, found.text, found.span)?;
        Ok(Read {
            tree: Type::Class(name),
            rest: found.rest,
        })
    }
}

/// The type that the tokens begin with. Refused if they begin with no type, or if memory runs out.
#[tactic(auto, using(crate::proofs::Places::int_is))]
pub fn type_name<'t, 'a>(
    context: Context,
    tokens: &'t [Token<'a>],
) -> Result<Read<'t, 'a, Type>, TextFault>
    ensures read { ReadsAs (λ t. (bare_type t.tree, lexemes t.rest.now)) result (type_at (lexemes tokens.now)) }
    ensures places { IfOk result (λ t. TypeAt (placed_type t.tree) (spots tokens.now) (spots t.rest.now)) }
{
    if let Some(found) = name_part(tokens) {
        return named_type(context, found);
    }
    if let Some(int) = word_part(tokens, Word::Int) {
        return Ok(Read {
            tree: Type::Int,
            rest: int.rest,
        });
    }
    let boolean = expect_word(context, tokens, Word::Boolean)?;
    boolean_type(context, boolean.rest)
}

#[tactic(auto, using(crate::proofs::Places::no_value_is, crate::proofs::Places::value_is))]
fn declarator<'t, 'a>(
    context: Context,
    tokens: &'t [Token<'a>],
    limit: usize,
) -> Result<Part<'t, 'a, Declarator>, TextFault>
    ensures read { ReadsAs (λ d. (bare_declarator d.tree, lexemes d.rest.now)) result
        (declarator_at (expression_at limit) (lexemes tokens.now)) }
    ensures places { IfOk result (λ d. DeclaratorAt (placed_declarator d.tree) (spots tokens.now) (spots d.rest.now)) }
    ensures height { IfOk result (λ d. (d.height ≡ value_height ((bare_declarator d.tree).value)) ×
        (d.height ≤ limit)) }
{
    let name = name(context, tokens)?;
    match sign_part(name.rest, Sign::Assign) {
        Some(assign) => {
            let value = binary(context, assign.rest, 6, limit)?;
            Ok(Part {
                tree: Declarator {
                    name: name.tree,
                    value: Some(value.tree),
                },
                height: value.height,
                rest: value.rest,
            })
        }
        None => Ok(Part {
            tree: Declarator {
                name: name.tree,
                value: None,
            },
            height: 0,
            rest: name.rest,
        }),
    }
}

#[tactic(auto, using(crate::proofs::Places::declarators_none))]
fn more_declarators<'t, 'a>(
    context: Context,
    tokens: &'t [Token<'a>],
    limit: usize,
) -> Result<Part<'t, 'a, Vec<Declarator>>, TextFault>
    ensures read { ReadsAs (λ d. (map bare_declarator d.tree.items, lexemes d.rest.now)) result
        (many_at (not_yet signs.Semicolon) (behind_comma (declarator_at (expression_at limit))) (lexemes tokens.now)) }
    ensures places { IfOk result
        (λ d. ManyAt (BehindComma DeclaratorAt) (map placed_declarator d.tree.items) (spots tokens.now)
        (spots d.rest.now)) }
    ensures height { IfOk result (λ d. (d.height ≡ declarators_height (map bare_declarator d.tree.items)) ×
        (d.height ≤ limit)) }
{
    let mut all = Part {
        tree: Vec::new(context.alloc),
        height: 0,
        rest: tokens,
    };
    while !starts_with(all.rest, Sign::Semicolon) {
        all = one_declarator(context, all, limit)?;
    }
    Ok(all)
}

#[tactic(auto, using(ls_parser_expressions::proofs::Rows::map_push, ls_parser_expressions::proofs::Rows::declarators_height_push, crate::proofs::Places::declarators_pushed))]
fn one_declarator<'t, 'a>(
    context: Context,
    before: Part<'t, 'a, Vec<Declarator>>,
    limit: usize,
) -> Result<Part<'t, 'a, Vec<Declarator>>, TextFault>
    requires height { (before.height ≡ declarators_height (map bare_declarator before.tree.items)) ×
        (before.height ≤ limit) }
    ensures read { ReadsAs (λ d. (map bare_declarator d.tree.items, lexemes d.rest.now)) result
        (one_more (behind_comma (declarator_at (expression_at limit))) (map bare_declarator before.entry.tree.items)
        (lexemes before.entry.rest.now)) }
    ensures places { IfOk result (λ d. (ss : List Spot) →
        ManyAt (BehindComma DeclaratorAt) (map placed_declarator before.entry.tree.items) ss
        (spots before.entry.rest.now) →
        ManyAt (BehindComma DeclaratorAt) (map placed_declarator d.tree.items) ss (spots d.rest.now)) }
    ensures height { IfOk result (λ d. (d.height ≡ declarators_height (map bare_declarator d.tree.items)) ×
        (d.height ≤ limit)) }
{
    let comma = expect(context, before.rest, Sign::Comma)?;
    let found = declarator(context, comma.rest, limit)?;
    Ok(Part {
        tree: push(before.tree, found.tree)?,
        height: before.height.max(found.height),
        rest: found.rest,
    })
}

// The declarators after the one that is held, and a semicolon. This is generic: if a step fails, dropping a
// parameter's type is much less to prove than dropping a tree.
#[tactic(auto, using(crate::proofs::Places::list_is))]
fn with_declarators<'t, 'a, T: Drop>(
    context: Context,
    held: Part<'t, 'a, T>,
    limit: usize,
) -> Result<Part<'t, 'a, (T, Vec<Declarator>)>, TextFault>
    requires { held.height ≤ limit }
    ensures read { ReadsAs (λ d. (map bare_declarator d.tree.1.items, lexemes d.rest.now)) result
        (more_declarators_at (expression_at limit) (lexemes held.entry.rest.now)) }
    ensures places { IfOk result (λ d. (first : placed_trees.Declarator) (ss : List Spot) →
        DeclaratorAt first ss (spots held.entry.rest.now) →
        DeclaratorsAt first (map placed_declarator d.tree.1.items) ss (spots d.rest.now)) }
    ensures held { IfOk result (λ d. d.tree.0 ≡ held.entry.tree) }
    ensures height { IfOk result
        (λ d. (d.height ≡ max held.entry.height (declarators_height (map bare_declarator d.tree.1.items))) ×
        (d.height ≤ limit)) }
{
    let more = more_declarators(context, held.rest, limit)?;
    let more = closed_part(context, more, Sign::Semicolon)?;
    Ok(Part {
        tree: (held.tree, more.tree),
        height: held.height.max(more.height),
        rest: more.rest,
    })
}

// Declarators and a semicolon.
fn declarator_list<'t, 'a>(
    context: Context,
    tokens: &'t [Token<'a>],
    limit: usize,
) -> Result<Part<'t, 'a, (Declarator, Vec<Declarator>)>, TextFault>
    ensures read { ReadsAs (λ d. ((bare_declarator d.tree.0, map bare_declarator d.tree.1.items), lexemes d.rest.now))
        result (declarator_list_at (expression_at limit) (lexemes tokens.now)) }
    ensures places { IfOk result (λ d. DeclaratorsAt (placed_declarator d.tree.0) (map placed_declarator d.tree.1.items)
        (spots tokens.now) (spots d.rest.now)) }
    ensures height { IfOk result
        (λ d. (d.height ≡
        max (value_height ((bare_declarator d.tree.0).value)) (declarators_height (map bare_declarator d.tree.1.items)))
        × (d.height ≤ limit)) }
{
    let first = declarator(context, tokens, limit)?;
    with_declarators(context, first, limit)
}

/// What comes after the modifiers and the type, up to and with the semicolon. `all` begins with the modifiers. The
/// height is that of the highest initialiser. No initialiser is higher than the limit.
#[tactic(auto, using(crate::proofs::Steps::list_found, crate::proofs::Steps::list_fails, crate::proofs::Places::declaration_is))]
pub fn declarators<'t, 'a>(
    context: Context,
    all: &'t [Token<'a>],
    modifiers: Vec<Modifier>,
    type_name: Type,
    tokens: &'t [Token<'a>],
    limit: usize,
) -> Result<Part<'t, 'a, Declaration>, TextFault>
    ensures read { ReadsAs (λ d. (bare_declaration d.tree, lexemes d.rest.now)) result
        (declarators_at (expression_at limit) (map bare_modifier modifiers.items) (bare_type type_name)
        (lexemes tokens.now)) }
    ensures places { IfOk result (λ d. (ms : List trees.Modifier) (ss middle : List Spot) →
        ManyAt ModifierAt ms ss middle → TypeAt (placed_type type_name) middle (spots tokens.now) →
        DeclarationAt (placed_declaration d.tree) ss (spots d.rest.now)) }
    ensures height { IfOk result
        (λ d. (d.height ≡
        max (value_height ((bare_declaration d.tree).first.value))
        (declarators_height ((bare_declaration d.tree).more))) × (d.height ≤ limit)) }
{
    let list = declarator_list(context, tokens, limit)?;
    Ok(Part {
        tree: Declaration {
            modifiers,
            type_name,
            first: list.tree.0,
            more: list.tree.1,
            span: span_to(all, list.rest),
        },
        height: list.height,
        rest: list.rest,
    })
}

/// The declaration that the tokens begin with, up to and with the semicolon. Each initialiser has at most the height
/// `limit`. Refused if the tokens don't begin with a declaration, if an initialiser is higher, or if memory runs out.
pub fn declaration<'t, 'a>(
    context: Context,
    tokens: &'t [Token<'a>],
    limit: usize,
) -> Result<Part<'t, 'a, Declaration>, TextFault>
    ensures read { ReadsAs (λ d. (bare_declaration d.tree, lexemes d.rest.now)) result
        (declaration_at (expression_at limit) (lexemes tokens.now)) }
    ensures places { IfOk result
        (λ d. DeclarationAt (placed_declaration d.tree) (spots tokens.now) (spots d.rest.now)) }
    ensures height { IfOk result
        (λ d. (d.height ≡
        max (value_height ((bare_declaration d.tree).first.value))
        (declarators_height ((bare_declaration d.tree).more))) × (d.height ≤ limit)) }
{
    let modifiers = modifiers(context, tokens)?;
    let type_name = type_name(context, modifiers.rest)?;
    declarators(
        context,
        tokens,
        modifiers.tree,
        type_name.tree,
        type_name.rest,
        limit,
    )
}

/// Whether a declaration begins, and not a statement. A declaration begins with a modifier, with the word of a type,
/// with two names, or with a name and `<`.
pub fn starts_declaration(tokens: &[Token]) -> bool
    ensures { result ≡ starts_declaration (lexemes tokens.now) }
{
    starts_modifier(tokens) || starts_type(tokens) || named_declaration(tokens)
}

fn starts_type(tokens: &[Token]) -> bool
    ensures { result ≡ starts_type (lexemes tokens.now) }
{
    word_part(tokens, Word::Int).is_some() || word_part(tokens, Word::Boolean).is_some()
}

fn named_declaration(tokens: &[Token]) -> bool
    ensures { result ≡ named_declaration (lexemes tokens.now) }
{
    match name_part(tokens) {
        Some(found) => name_part(found.rest).is_some() || starts_with(found.rest, Sign::Less),
        None => false,
    }
}
