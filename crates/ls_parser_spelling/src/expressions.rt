// The tokens of expressions.

ghost use Rattle.std.specs.Prelude.{◌≡◌, ◌++◌, ◌∷◌, [], OnOk, option_map};
ghost use Rattle.ls_lexer.specs.Lexemes.{Named, Reserved, Marked};
ghost use Rattle.ls_lexer.specs.declared.sign.Sign.TheVariants as signs;
ghost use Rattle.ls_lexer.specs.declared.word.Word.TheVariants as words;
ghost use Rattle.ls_parser_spelling.specs.Kinds.{lexemes_of};
ghost use Rattle.ls_tree.specs.Trees.{New, NewMarkable};
ghost use Rattle.ls_tree.specs.Views.{bare, bare_target, call_of, name_text, expressions_of};
ghost use Rattle.ls_parser_spelling.specs.Spelling.{sign_of as the_sign, sign_of_unary as the_unary, markable};
ghost use Rattle.ls_parser_spelling.specs.Spelling.{in_parens, spell_expression, spell_expressions, spell_others};
ghost use Rattle.ls_parser_spelling.specs.Spelling.{spell_value};

use crate::kinds::{put_name, put_number, put_sign, put_text, put_word};
use ls_lexer::sign::Sign;
use ls_lexer::token::TokenKind;
use ls_lexer::word::Word;
use ls_tree::tree::{BinaryOp, Expression, Name, UnaryOp};
use std::alloc::AllocError;

fn sign_of_unary(op: UnaryOp) -> Sign
    ensures { result ≡ the_unary op }
{
    match op {
        UnaryOp::Minus => Sign::Minus,
        UnaryOp::Not => Sign::Not,
    }
}

fn sign_of(op: BinaryOp) -> Sign
    ensures { result ≡ the_sign op }
{
    match op {
        BinaryOp::Or => Sign::Or,
        BinaryOp::And => Sign::And,
        BinaryOp::Equal => Sign::Equal,
        BinaryOp::NotEqual => Sign::NotEqual,
        BinaryOp::Less => Sign::Less,
        BinaryOp::Greater => Sign::Greater,
        BinaryOp::LessEqual => Sign::LessEqual,
        BinaryOp::GreaterEqual => Sign::GreaterEqual,
        BinaryOp::Add => Sign::Plus,
        BinaryOp::Subtract => Sign::Minus,
        BinaryOp::Multiply => Sign::Star,
        BinaryOp::Divide => Sign::Slash,
        BinaryOp::Remainder => Sign::Percent,
    }
}

/// The type of markables, `AtomicMarkableReference<class>`. The only refusal is that memory ran out.
pub fn put_markable<'a>(out: &mut Vec<TokenKind<'a>>, class: &'a Name) -> Result<(), AllocError>
    ensures { OnOk result (lexemes_of out.new.items ≡ lexemes_of out.old.items ++ markable (name_text class.now)) }
{
    put_text(out, "AtomicMarkableReference")?;
    put_in_angles(out, class)?;
    Ok(())
}

fn put_in_angles<'a>(out: &mut Vec<TokenKind<'a>>, class: &'a Name) -> Result<(), AllocError>
    ensures { OnOk result (lexemes_of out.new.items ≡ lexemes_of out.old.items ++ Marked signs.Less ∷
        Named (name_text class.now) ∷ Marked signs.Greater ∷ []) }
{
    put_sign(out, Sign::Less)?;
    put_name(out, class)?;
    put_sign(out, Sign::Greater)
}

/// The tokens of an expression. The only refusal is that memory ran out.
#[cycle(expressions)]
pub fn put_expression<'a>(out: &mut Vec<TokenKind<'a>>, e: &'a Expression) -> Result<(), AllocError>
    ensures { OnOk result (lexemes_of out.new.items ≡ lexemes_of out.old.items ++ spell_expression (bare e.now)) }
{
    match e {
        Expression::Number { text, .. } => put_number(out, text.as_str()),
        Expression::True(_) => put_word(out, Word::True),
        Expression::False(_) => put_word(out, Word::False),
        Expression::Null(_) => put_word(out, Word::Null),
        Expression::This(_) => put_word(out, Word::This),
        Expression::Name(name) => put_name(out, name),
        Expression::Paren { inner, .. } => put_between(
            out,
            Sign::OpenParen,
            inner,
            Sign::CloseParen,
        ),
        Expression::Unary { op, operand, .. } => {
            put_sign(out, sign_of_unary(*op))?;
            put_expression(out, operand)
        }
        Expression::Binary {
            op,
            left,
            right,
            ..
        } => {
            put_expression(out, left)?;
            put_sign(out, sign_of(*op))?;
            put_expression(out, right)
        }
        Expression::Field { target, name, .. } => {
            put_expression(out, target)?;
            put_sign(out, Sign::Dot)?;
            put_name(out, name)
        }
        Expression::Call {
            target,
            name,
            arguments,
            ..
        } => put_call(out, target, name, arguments),
        Expression::Item { array, index, .. } => {
            put_expression(out, array)?;
            put_between(out, Sign::OpenBracket, index, Sign::CloseBracket)
        }
        Expression::New {
            class,
            arguments,
            ..
        } => put_made(out, class, arguments),
        Expression::NewMarkable {
            class,
            arguments,
            ..
        } => put_made_markable(out, class, arguments),
        Expression::NewArray { length, .. } => {
            put_word(out, Word::New)?;
            put_word(out, Word::Boolean)?;
            put_between(out, Sign::OpenBracket, length, Sign::CloseBracket)
        }
    }
}

// An expression between two signs.
#[cycle(expressions)]
fn put_between<'a>(
    out: &mut Vec<TokenKind<'a>>,
    opening: Sign,
    inner: &'a Expression,
    closing: Sign,
) -> Result<(), AllocError>
    ensures { OnOk result (lexemes_of out.new.items ≡ lexemes_of out.old.items ++ Marked opening ∷
        (spell_expression (bare inner.now) ++ Marked closing ∷ [])) }
{
    put_sign(out, opening)?;
    put_expression(out, inner)?;
    put_sign(out, closing)
}

#[cycle(expressions)]
fn put_call<'a>(
    out: &mut Vec<TokenKind<'a>>,
    target: &'a Option<Box<Expression>>,
    name: &'a Name,
    arguments: &'a [Expression],
) -> Result<(), AllocError>
    ensures { OnOk result (lexemes_of out.new.items ≡ lexemes_of out.old.items ++
        spell_expression (call_of (bare_target target.now) (name_text name.now) (expressions_of arguments.now))) }
{
    if let Some(target) = target {
        put_expression(out, target)?;
        put_sign(out, Sign::Dot)?;
    }
    put_name(out, name)?;
    put_arguments(out, arguments)
}

#[cycle(expressions)]
fn put_made<'a>(
    out: &mut Vec<TokenKind<'a>>,
    class: &'a Name,
    arguments: &'a [Expression],
) -> Result<(), AllocError>
    ensures { OnOk result (lexemes_of out.new.items ≡ lexemes_of out.old.items ++
        spell_expression (New (name_text class.now) (expressions_of arguments.now))) }
{
    put_word(out, Word::New)?;
    put_name(out, class)?;
    put_arguments(out, arguments)
}

#[cycle(expressions)]
fn put_made_markable<'a>(
    out: &mut Vec<TokenKind<'a>>,
    class: &'a Name,
    arguments: &'a [Expression],
) -> Result<(), AllocError>
    ensures { OnOk result (lexemes_of out.new.items ≡ lexemes_of out.old.items ++
        spell_expression (NewMarkable (name_text class.now) (expressions_of arguments.now))) }
{
    put_word(out, Word::New)?;
    put_markable(out, class)?;
    put_arguments(out, arguments)
}

// Arguments with their parentheses.
#[cycle(expressions)]
fn put_arguments<'a>(
    out: &mut Vec<TokenKind<'a>>,
    arguments: &'a [Expression],
) -> Result<(), AllocError>
    ensures { OnOk result (lexemes_of out.new.items ≡ lexemes_of out.old.items ++
        in_parens (spell_expressions (expressions_of arguments.now))) }
{
    put_sign(out, Sign::OpenParen)?;
    if let [first, others @ ..] = arguments {
        put_expression(out, first)?;
        put_others(out, others)?;
    }
    put_sign(out, Sign::CloseParen)
}

// The arguments after the first, each after a comma.
#[cycle(expressions)]
fn put_others<'a>(out: &mut Vec<TokenKind<'a>>, others: &'a [Expression]) -> Result<(), AllocError>
    ensures { OnOk result (lexemes_of out.new.items ≡ lexemes_of out.old.items ++
        spell_others (expressions_of others.now)) }
{
    for e in others {
        put_sign(out, Sign::Comma)?;
        put_expression(out, e)?;
    }
    Ok(())
}

/// The tokens of a value, if there is one. The only refusal is that memory ran out.
pub fn put_value<'a>(
    out: &mut Vec<TokenKind<'a>>,
    value: &'a Option<Expression>,
) -> Result<(), AllocError>
    ensures { OnOk result (lexemes_of out.new.items ≡ lexemes_of out.old.items ++
        spell_value (option_map bare value.now)) }
{
    match value {
        Some(value) => put_expression(out, value),
        None => Ok(()),
    }
}
