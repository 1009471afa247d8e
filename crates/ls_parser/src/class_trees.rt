// Members and classes.

ghost use Rattle.std.specs.Prelude.{◌≡◌, ◌+◌, ◌-◌, ◌<◌, ◌≤◌, ◌^◌, ◌++◌, ◌∷◌, List, [], IfOk, Some, None, length, map};
ghost use Rattle.std.specs.Prelude.{option_map, is_some};
ghost use Rattle.ls_lexer.specs.Lexemes.{lexemes};
ghost use Rattle.ls_lexer.specs.declared.sign.Sign.TheVariants as signs;
ghost use Rattle.ls_tree.specs.Views.{name_text, bare_modifier, bare_modifiers, bare_type, bare_parameter};
ghost use Rattle.ls_tree.specs.Views.{bare_block, bare_member, bare_class};
ghost use Rattle.ls_tree.specs.Trees as trees;
ghost use Rattle.ls_tree.specs.PlacedTrees.{some_in};
ghost use Rattle.ls_tree.specs.Placed.{placed_name};
ghost use Rattle.ls_tree.specs.PlacedStatements.{placed_type, placed_items, placed_parameter, placed_member};
ghost use Rattle.ls_tree.specs.PlacedStatements.{placed_class};
ghost use Rattle.ls_parser_spelling.specs.Places.{Spot, sign, spots};
ghost use Rattle.ls_parser_spelling.specs.StatementPlaces.{ManyAt, ModifierAt, TypeAt};
ghost use Rattle.ls_parser_spelling.specs.FilePlaces.{ParameterAt, SomeParametersAt, ParametersAt, CallableAt};
ghost use Rattle.ls_parser_spelling.specs.FilePlaces.{ResultAt, LockedAt, MemberAt, BodyAt, ClassAt};
ghost use Rattle.ls_parser_tokens.specs.Answers.{ReadsAs, Finds};
ghost use Rattle.ls_parser_tokens.specs.Reading.{one_more, behind_comma, many_at, not_yet, group_at};
ghost use Rattle.ls_parser.specs.ReadingClasses.{parameter_at, parameters_at, starts_call, callable_at};
ghost use Rattle.ls_parser.specs.ReadingClasses.{constructor_at, starts_locked, locked_at, method_at, typed_at};
ghost use Rattle.ls_parser.specs.ReadingClasses.{unmodified_at, locked_member_at, member_at, class_body_at, class_at};
ghost use Rattle.ls_parser.specs.ReadingClasses.{is_left};

use ls_lexer::fault::TextFault;
use ls_lexer::sign::Sign;
use ls_lexer::token::{Span, Token};
use ls_lexer::word::Word;
use ls_parser_declarations::declarations::{declarators, modifiers, type_name};
use ls_parser_statements::statements::block;
use ls_parser_tokens::tokens::{
    Context, Read, closed, expect, expect_word, name, name_part, push, sign_part, starts_with,
    syntax, word_part,
};
use ls_tree::tree::{Block, Class, Constructor, Member, Method, Modifier, Name, Parameter, Type};

/// The greatest height, in nodes, of a body or of a field's initialiser. A higher one is refused with the fault
/// `TooDeep`.
pub const MOST_NODES: usize = 128;

// ---- parameters

#[tactic(auto, using(crate::proofs::Places::parameter_is))]
fn parameter<'t, 'a>(
    context: Context,
    tokens: &'t [Token<'a>],
) -> Result<Read<'t, 'a, Parameter>, TextFault>
    ensures read { ReadsAs (λ p. (bare_parameter p.tree, lexemes p.rest.now)) result
        (parameter_at (lexemes tokens.now)) }
    ensures places { IfOk result (λ p. ParameterAt (placed_parameter p.tree) (spots tokens.now) (spots p.rest.now)) }
{
    let modifiers = modifiers(context, tokens)?;
    let type_name = type_name(context, modifiers.rest)?;
    let name = name(context, type_name.rest)?;
    Ok(Read {
        tree: Parameter {
            modifiers: modifiers.tree,
            type_name: type_name.tree,
            name: name.tree,
        },
        rest: name.rest,
    })
}

// What comes after an opening parenthesis: parameters, or none, and the closing one.
#[tactic(auto, using(ls_parser_expressions::proofs::Repeats::group_none, ls_parser_expressions::proofs::Repeats::group_begins, ls_parser_expressions::proofs::Repeats::group_ends, ls_parser_expressions::proofs::Repeats::group_goes_on, crate::proofs::Places::no_parameter, crate::proofs::Places::first_parameter, crate::proofs::Places::group_is))]
fn parameter_group<'t, 'a>(
    context: Context,
    tokens: &'t [Token<'a>],
) -> Result<Read<'t, 'a, Vec<Parameter>>, TextFault>
    ensures read { ReadsAs (λ p. (map bare_parameter p.tree.items, lexemes p.rest.now)) result
        (group_at parameter_at (lexemes tokens.now)) }
    ensures places { IfOk result (λ p. (opening : Span) →
        ParametersAt (map placed_parameter p.tree.items) (sign signs.OpenParen opening ∷ spots tokens.now)
        (spots p.rest.now)) }
{
    if let Some(close) = sign_part(tokens, Sign::CloseParen) {
        return Ok(Read {
            tree: Vec::new(context.alloc),
            rest: close.rest,
        });
    }
    let first = parameter(context, tokens)?;
    let mut all = Read {
        tree: push(Vec::new(context.alloc), first.tree)?,
        rest: first.rest,
    };
    while !starts_with(all.rest, Sign::CloseParen) {
        all = one_parameter(context, all)?;
    }
    let close = expect(context, all.rest, Sign::CloseParen)?;
    Ok(Read {
        tree: all.tree,
        rest: close.rest,
    })
}

#[tactic(auto, using(ls_parser_expressions::proofs::Rows::map_push, crate::proofs::Places::parameter_pushed))]
fn one_parameter<'t, 'a>(
    context: Context,
    before: Read<'t, 'a, Vec<Parameter>>,
) -> Result<Read<'t, 'a, Vec<Parameter>>, TextFault>
    ensures read { ReadsAs (λ p. (map bare_parameter p.tree.items, lexemes p.rest.now)) result
        (one_more (behind_comma parameter_at) (map bare_parameter before.entry.tree.items)
        (lexemes before.entry.rest.now)) }
    ensures places { IfOk result (λ p. (ss : List Spot) →
        SomeParametersAt (map placed_parameter before.entry.tree.items) ss (spots before.entry.rest.now) →
        SomeParametersAt (map placed_parameter p.tree.items) ss (spots p.rest.now)) }
{
    let comma = expect(context, before.rest, Sign::Comma)?;
    let found = parameter(context, comma.rest)?;
    Ok(Read {
        tree: push(before.tree, found.tree)?,
        rest: found.rest,
    })
}

fn parameters<'t, 'a>(
    context: Context,
    tokens: &'t [Token<'a>],
) -> Result<Read<'t, 'a, Vec<Parameter>>, TextFault>
    ensures read { ReadsAs (λ p. (map bare_parameter p.tree.items, lexemes p.rest.now)) result
        (parameters_at (lexemes tokens.now)) }
    ensures places { IfOk result
        (λ p. ParametersAt (map placed_parameter p.tree.items) (spots tokens.now) (spots p.rest.now)) }
{
    let open = expect(context, tokens, Sign::OpenParen)?;
    parameter_group(context, open.rest)
}

// ---- members

// A name and an opening parenthesis.
fn starts_call(tokens: &[Token]) -> bool
    ensures { result ≡ starts_call (lexemes tokens.now) }
{
    match name_part(tokens) {
        Some(found) => starts_with(found.rest, Sign::OpenParen),
        None => false,
    }
}

// A name, parameters and a body.
#[tactic(auto, using(crate::proofs::Places::callable_is))]
fn callable<'t, 'a>(
    context: Context,
    tokens: &'t [Token<'a>],
) -> Result<Read<'t, 'a, (Name, Vec<Parameter>, Block)>, TextFault>
    ensures read { ReadsAs
        (λ c. ((name_text c.tree.0, map bare_parameter c.tree.1.items, bare_block c.tree.2), lexemes c.rest.now)) result
        (callable_at (lexemes tokens.now)) }
    ensures places { IfOk result
        (λ c. CallableAt (placed_name c.tree.0) (map placed_parameter c.tree.1.items)
        (placed_items c.tree.2.items.items) (spots tokens.now) (spots c.rest.now)) }
{
    let name = name(context, tokens)?;
    let parameters = parameters(context, name.rest)?;
    let body = block(context, parameters.rest, MOST_NODES)?;
    Ok(Read {
        tree: (name.tree, parameters.tree, body.tree),
        rest: body.rest,
    })
}

#[tactic(auto, using(crate::proofs::Steps::constructor_found, crate::proofs::Steps::constructor_fails, crate::proofs::Places::constructor_is))]
fn constructor<'t, 'a>(
    context: Context,
    modifiers: Vec<Modifier>,
    tokens: &'t [Token<'a>],
) -> Result<Read<'t, 'a, Member>, TextFault>
    ensures read { ReadsAs (λ m. (bare_member m.tree, lexemes m.rest.now)) result
        (constructor_at (map bare_modifier modifiers.items) (lexemes tokens.now)) }
    ensures places { IfOk result (λ m. (ms : List trees.Modifier) (ss : List Spot) →
        ManyAt ModifierAt ms ss (spots tokens.now) → MemberAt (placed_member m.tree) ss (spots m.rest.now)) }
{
    let found = callable(context, tokens)?;
    Ok(Read {
        tree: Member::Constructor(Constructor {
            modifiers,
            name: found.tree.0,
            parameters: found.tree.1,
            body: found.tree.2,
        }),
        rest: found.rest,
    })
}

// What comes after the modifiers and the result of a method. If there is no result, it is `void`.
#[tactic(auto, using(crate::proofs::Steps::method_found, crate::proofs::Steps::method_fails, crate::proofs::Places::method_is))]
fn method<'t, 'a>(
    context: Context,
    modifiers: Vec<Modifier>,
    locked: Vec<Vec<Modifier>>,
    answer: Option<Type>,
    tokens: &'t [Token<'a>],
) -> Result<Read<'t, 'a, Member>, TextFault>
    ensures read { ReadsAs (λ m. (bare_member m.tree, lexemes m.rest.now)) result
        (method_at (map bare_modifier modifiers.items) (map bare_modifiers locked.items) (option_map bare_type answer)
        (lexemes tokens.now)) }
    ensures places { IfOk result (λ m. (ms : List trees.Modifier) (ss inner middle : List Spot) →
        ManyAt ModifierAt ms ss inner → ManyAt LockedAt (map bare_modifiers locked.items) inner middle →
        ResultAt (option_map placed_type answer) middle (spots tokens.now) →
        MemberAt (placed_member m.tree) ss (spots m.rest.now)) }
{
    let found = callable(context, tokens)?;
    Ok(Read {
        tree: Member::Method(Method {
            modifiers,
            locked,
            result: answer,
            name: found.tree.0,
            parameters: found.tree.1,
            body: found.tree.2,
        }),
        rest: found.rest,
    })
}

// What comes after the modifiers and a type. `all` begins with the modifiers.
#[tactic(auto, using(crate::proofs::Places::fields_is))]
fn typed<'t, 'a>(
    context: Context,
    all: &'t [Token<'a>],
    modifiers: Vec<Modifier>,
    type_name: Type,
    tokens: &'t [Token<'a>],
) -> Result<Read<'t, 'a, Member>, TextFault>
    ensures read { ReadsAs (λ m. (bare_member m.tree, lexemes m.rest.now)) result
        (typed_at (map bare_modifier modifiers.items) (bare_type type_name) (lexemes tokens.now)) }
    ensures places { IfOk result (λ m. (ms : List trees.Modifier) (ss middle : List Spot) →
        ManyAt ModifierAt ms ss middle → TypeAt (placed_type type_name) middle (spots tokens.now) →
        MemberAt (placed_member m.tree) ss (spots m.rest.now)) }
{
    if starts_call(tokens) {
        return method(
            context,
            modifiers,
            Vec::new(context.alloc),
            Some(type_name),
            tokens,
        );
    }
    let fields = declarators(context, all, modifiers, type_name, tokens, MOST_NODES)?;
    Ok(Read {
        tree: Member::Field(fields.tree),
        rest: fields.rest,
    })
}

// What comes after the modifiers. `all` begins with the modifiers.
fn unmodified<'t, 'a>(
    context: Context,
    all: &'t [Token<'a>],
    modifiers: Vec<Modifier>,
    tokens: &'t [Token<'a>],
) -> Result<Read<'t, 'a, Member>, TextFault>
    ensures read { ReadsAs (λ m. (bare_member m.tree, lexemes m.rest.now)) result
        (unmodified_at (map bare_modifier modifiers.items) (lexemes tokens.now)) }
    ensures places { IfOk result (λ m. (ms : List trees.Modifier) (ss : List Spot) →
        ManyAt ModifierAt ms ss (spots tokens.now) → MemberAt (placed_member m.tree) ss (spots m.rest.now)) }
{
    if starts_call(tokens) {
        return constructor(context, modifiers, tokens);
    }
    if let Some(void) = word_part(tokens, Word::Void) {
        return method(context, modifiers, Vec::new(context.alloc), None, void.rest);
    }
    let type_name = type_name(context, tokens)?;
    typed(context, all, modifiers, type_name.tree, type_name.rest)
}

fn starts_locked(tokens: &[Token]) -> bool
    ensures { result ≡ starts_locked (lexemes tokens.now) }
{
    word_part(tokens, Word::Synchronized).is_some()
}

// Each `synchronized`, with the modifiers after it.
#[tactic(auto, using(crate::proofs::Places::locked_none))]
fn all_locked<'t, 'a>(
    context: Context,
    tokens: &'t [Token<'a>],
) -> Result<Read<'t, 'a, Vec<Vec<Modifier>>>, TextFault>
    ensures read { ReadsAs (λ l. (map bare_modifiers l.tree.items, lexemes l.rest.now)) result
        (many_at starts_locked locked_at (lexemes tokens.now)) }
    ensures places { IfOk result
        (λ l. ManyAt LockedAt (map bare_modifiers l.tree.items) (spots tokens.now) (spots l.rest.now)) }
{
    let mut all = Read {
        tree: Vec::new(context.alloc),
        rest: tokens,
    };
    while starts_locked(all.rest) {
        all = one_locked(context, all)?;
    }
    Ok(all)
}

#[tactic(auto, using(ls_parser_expressions::proofs::Rows::map_push, crate::proofs::Places::locked_pushed))]
fn one_locked<'t, 'a>(
    context: Context,
    before: Read<'t, 'a, Vec<Vec<Modifier>>>,
) -> Result<Read<'t, 'a, Vec<Vec<Modifier>>>, TextFault>
    ensures read { ReadsAs (λ l. (map bare_modifiers l.tree.items, lexemes l.rest.now)) result
        (one_more locked_at (map bare_modifiers before.entry.tree.items) (lexemes before.entry.rest.now)) }
    ensures places { IfOk result (λ l. (ss : List Spot) →
        ManyAt LockedAt (map bare_modifiers before.entry.tree.items) ss (spots before.entry.rest.now) →
        ManyAt LockedAt (map bare_modifiers l.tree.items) ss (spots l.rest.now)) }
{
    let word = expect_word(context, before.rest, Word::Synchronized)?;
    let found = modifiers(context, word.rest)?;
    Ok(Read {
        tree: push(before.tree, found.tree)?,
        rest: found.rest,
    })
}

// What comes after the modifiers of a synchronized member. `front` begins with its first `synchronized`. If it is no
// method, the fault has that place.
fn locked_member<'t, 'a>(
    context: Context,
    front: &'t [Token<'a>],
    modifiers: Vec<Modifier>,
    locked: Vec<Vec<Modifier>>,
    tokens: &'t [Token<'a>],
) -> Result<Read<'t, 'a, Member>, TextFault>
    ensures read { ReadsAs (λ m. (bare_member m.tree, lexemes m.rest.now)) result
        (locked_member_at (map bare_modifier modifiers.items) (map bare_modifiers locked.items) (lexemes tokens.now)) }
    ensures places { IfOk result (λ m. (ms : List trees.Modifier) (ss inner : List Spot) →
        ManyAt ModifierAt ms ss inner → ManyAt LockedAt (map bare_modifiers locked.items) inner (spots tokens.now) →
        MemberAt (placed_member m.tree) ss (spots m.rest.now)) }
{
    if starts_call(tokens) {
        return Err(syntax(context, front));
    }
    if let Some(void) = word_part(tokens, Word::Void) {
        return method(context, modifiers, locked, None, void.rest);
    }
    let type_name = type_name(context, tokens)?;
    if !starts_call(type_name.rest) {
        return Err(syntax(context, front));
    }
    method(
        context,
        modifiers,
        locked,
        Some(type_name.tree),
        type_name.rest,
    )
}

#[tactic(auto, using(crate::proofs::Places::some_map))]
fn some_in(locked: &[Vec<Modifier>]) -> bool
    ensures { result ≡ some_in (map bare_modifiers locked.now) }
{
    locked.split_first().is_some()
}

fn member<'t, 'a>(
    context: Context,
    tokens: &'t [Token<'a>],
) -> Result<Read<'t, 'a, Member>, TextFault>
    ensures read { ReadsAs (λ m. (bare_member m.tree, lexemes m.rest.now)) result (member_at (lexemes tokens.now)) }
    ensures places { IfOk result (λ m. MemberAt (placed_member m.tree) (spots tokens.now) (spots m.rest.now)) }
{
    let modifiers = modifiers(context, tokens)?;
    let locked = all_locked(context, modifiers.rest)?;
    if some_in(&locked.tree) {
        return locked_member(
            context,
            modifiers.rest,
            modifiers.tree,
            locked.tree,
            locked.rest,
        );
    }
    unmodified(context, tokens, modifiers.tree, locked.rest)
}

#[tactic(auto, using(crate::proofs::Places::members_none))]
fn members<'t, 'a>(
    context: Context,
    tokens: &'t [Token<'a>],
) -> Result<Read<'t, 'a, Vec<Member>>, TextFault>
    ensures read { ReadsAs (λ m. (map bare_member m.tree.items, lexemes m.rest.now)) result
        (many_at (not_yet signs.CloseBrace) member_at (lexemes tokens.now)) }
    ensures places { IfOk result
        (λ m. ManyAt MemberAt (map placed_member m.tree.items) (spots tokens.now) (spots m.rest.now)) }
{
    let mut all = Read {
        tree: Vec::new(context.alloc),
        rest: tokens,
    };
    while !starts_with(all.rest, Sign::CloseBrace) {
        all = one_member(context, all)?;
    }
    Ok(all)
}

#[tactic(auto, using(ls_parser_expressions::proofs::Rows::map_push, crate::proofs::Places::members_pushed))]
fn one_member<'t, 'a>(
    context: Context,
    before: Read<'t, 'a, Vec<Member>>,
) -> Result<Read<'t, 'a, Vec<Member>>, TextFault>
    ensures read { ReadsAs (λ m. (map bare_member m.tree.items, lexemes m.rest.now)) result
        (one_more member_at (map bare_member before.entry.tree.items) (lexemes before.entry.rest.now)) }
    ensures places { IfOk result (λ m. (ss : List Spot) →
        ManyAt MemberAt (map placed_member before.entry.tree.items) ss (spots before.entry.rest.now) →
        ManyAt MemberAt (map placed_member m.tree.items) ss (spots m.rest.now)) }
{
    let found = member(context, before.rest)?;
    Ok(Read {
        tree: push(before.tree, found.tree)?,
        rest: found.rest,
    })
}

// ---- classes

// Members in braces.
#[tactic(auto, using(crate::proofs::Places::body_is))]
fn class_body<'t, 'a>(
    context: Context,
    tokens: &'t [Token<'a>],
) -> Result<Read<'t, 'a, Vec<Member>>, TextFault>
    ensures read { ReadsAs (λ m. (map bare_member m.tree.items, lexemes m.rest.now)) result
        (class_body_at (lexemes tokens.now)) }
    ensures places { IfOk result (λ m. BodyAt (map placed_member m.tree.items) (spots tokens.now) (spots m.rest.now)) }
{
    let open = expect(context, tokens, Sign::OpenBrace)?;
    let members = members(context, open.rest)?;
    let members = closed(context, members, Sign::CloseBrace)?;
    Ok(members)
}

#[tactic(auto, using(crate::proofs::Places::class_is))]
fn class<'t, 'a>(
    context: Context,
    tokens: &'t [Token<'a>],
) -> Result<Read<'t, 'a, Class>, TextFault>
    ensures read { ReadsAs (λ c. (bare_class c.tree, lexemes c.rest.now)) result (class_at (lexemes tokens.now)) }
    ensures places { IfOk result (λ c. ClassAt (placed_class c.tree) (spots tokens.now) (spots c.rest.now)) }
{
    let modifiers = modifiers(context, tokens)?;
    let word = expect_word(context, modifiers.rest, Word::Class)?;
    let name = name(context, word.rest)?;
    let members = class_body(context, name.rest)?;
    Ok(Read {
        tree: Class {
            modifiers: modifiers.tree,
            name: name.tree,
            members: members.tree,
        },
        rest: members.rest,
    })
}

fn is_left(tokens: &[Token]) -> bool
    ensures { result ≡ is_left (lexemes tokens.now) }
{
    tokens.split_first().is_some()
}

/// Classes up to the end of the tokens.
#[tactic(auto, using(crate::proofs::Places::classes_none))]
pub fn classes<'t, 'a>(
    context: Context,
    tokens: &'t [Token<'a>],
) -> Result<Read<'t, 'a, Vec<Class>>, TextFault>
    ensures read { ReadsAs (λ c. (map bare_class c.tree.items, lexemes c.rest.now)) result
        (many_at is_left class_at (lexemes tokens.now)) }
    ensures places { IfOk result (λ c. ManyAt ClassAt (map placed_class c.tree.items) (spots tokens.now) []) }
{
    let mut all = Read {
        tree: Vec::new(context.alloc),
        rest: tokens,
    };
    while is_left(all.rest) {
        all = one_class(context, all)?;
    }
    Ok(all)
}

#[tactic(auto, using(ls_parser_expressions::proofs::Rows::map_push, crate::proofs::Places::classes_pushed))]
fn one_class<'t, 'a>(
    context: Context,
    before: Read<'t, 'a, Vec<Class>>,
) -> Result<Read<'t, 'a, Vec<Class>>, TextFault>
    ensures read { ReadsAs (λ c. (map bare_class c.tree.items, lexemes c.rest.now)) result
        (one_more class_at (map bare_class before.entry.tree.items) (lexemes before.entry.rest.now)) }
    ensures places { IfOk result (λ c. (ss : List Spot) →
        ManyAt ClassAt (map placed_class before.entry.tree.items) ss (spots before.entry.rest.now) →
        ManyAt ClassAt (map placed_class c.tree.items) ss (spots c.rest.now)) }
{
    let found = class(context, before.rest)?;
    Ok(Read {
        tree: push(before.tree, found.tree)?,
        rest: found.rest,
    })
}
