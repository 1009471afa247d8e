// Operators.

ghost use Rattle.std.specs.Prelude.{◌≡◌, ◌<◌, ◌≤◌, IfSome};

use ls_java_lexer::token::TokenKind;
use ls_java_parser_tokens::ahead::kind_at;
use ls_java_parser_tokens::reader::{Reader, at_word, is_sign, peek, place};
use ls_java_tree::expressions::{BinaryOperator, UnaryOperator};
use ls_lexer::sign::Sign;
use ls_lexer::word::Word;
use std::alloc::AllocError;

/// A binary operator, and of how many tokens it is. `>` is a token of its own, so `>>` and `>=` are two.
#[derive(Copy)]
pub struct Operator {
    pub operator: BinaryOperator,
    pub tokens: usize,
}

impl Clone for Operator {
    fn clone(&self) -> Result<Operator, AllocError> {
        Ok(*self)
    }
}

/// An operator of an assignment (JLS 15.26), and of how many tokens it is. Without `operator` it is `=`.
#[derive(Copy)]
pub struct Assignment {
    pub operator: Option<BinaryOperator>,
    pub tokens: usize,
}

impl Clone for Assignment {
    fn clone(&self) -> Result<Assignment, AllocError> {
        Ok(*self)
    }
}

/// How tightly an operator binds, from 1 (most loosely) to 10 (JLS 15.17 to 15.24). `instanceof` has the rank of `<`.
pub fn rank(operator: BinaryOperator) -> usize {
    match operator {
        BinaryOperator::Or => 1,
        BinaryOperator::And => 2,
        BinaryOperator::BitOr => 3,
        BinaryOperator::BitXor => 4,
        BinaryOperator::BitAnd => 5,
        BinaryOperator::Equal | BinaryOperator::NotEqual => 6,
        BinaryOperator::Less | BinaryOperator::Greater => RELATIONAL,
        BinaryOperator::LessEqual | BinaryOperator::GreaterEqual => RELATIONAL,
        BinaryOperator::ShiftLeft => 8,
        BinaryOperator::ShiftRight | BinaryOperator::ShiftRightUnsigned => 8,
        BinaryOperator::Add | BinaryOperator::Subtract => 9,
        BinaryOperator::Multiply | BinaryOperator::Divide | BinaryOperator::Remainder => 10,
    }
}

/// The rank of `<` and `instanceof`.
pub const RELATIONAL: usize = 7;

fn operator_of(sign: Sign) -> Option<BinaryOperator> {
    match sign {
        Sign::Or => Some(BinaryOperator::Or),
        Sign::And => Some(BinaryOperator::And),
        Sign::BitOr => Some(BinaryOperator::BitOr),
        Sign::Caret => Some(BinaryOperator::BitXor),
        Sign::BitAnd => Some(BinaryOperator::BitAnd),
        Sign::Equal => Some(BinaryOperator::Equal),
        Sign::NotEqual => Some(BinaryOperator::NotEqual),
        Sign::Less => Some(BinaryOperator::Less),
        Sign::LessEqual => Some(BinaryOperator::LessEqual),
        Sign::ShiftLeft => Some(BinaryOperator::ShiftLeft),
        Sign::Plus => Some(BinaryOperator::Add),
        Sign::Minus => Some(BinaryOperator::Subtract),
        Sign::Star => Some(BinaryOperator::Multiply),
        Sign::Slash => Some(BinaryOperator::Divide),
        Sign::Percent => Some(BinaryOperator::Remainder),
        _ => None,
    }
}

fn assigning_of(sign: Sign) -> Option<BinaryOperator> {
    match sign {
        Sign::PlusAssign => Some(BinaryOperator::Add),
        Sign::MinusAssign => Some(BinaryOperator::Subtract),
        Sign::StarAssign => Some(BinaryOperator::Multiply),
        Sign::SlashAssign => Some(BinaryOperator::Divide),
        Sign::PercentAssign => Some(BinaryOperator::Remainder),
        Sign::BitAndAssign => Some(BinaryOperator::BitAnd),
        Sign::BitOrAssign => Some(BinaryOperator::BitOr),
        Sign::CaretAssign => Some(BinaryOperator::BitXor),
        Sign::ShiftLeftAssign => Some(BinaryOperator::ShiftLeft),
        _ => None,
    }
}

// Whether the token after the next ones, which are so many, is this sign, and no gap is between it and the one before.
fn joins(reader: &Reader, ahead: usize, wanted: Sign) -> bool {
    match reader.tokens.get(place(reader).saturating_add(ahead)) {
        Some(token) => token.gap == token.start && is_sign(token.kind, wanted),
        None => false,
    }
}

// How many `>` come next without a gap between them, of the three that an operator may have.
fn greater_run(reader: &Reader) -> usize
    ensures { result ≤ 3 }
{
    if !is_sign(peek(reader), Sign::Greater) {
        0
    } else if !joins(reader, 1, Sign::Greater) {
        1
    } else if !joins(reader, 2, Sign::Greater) {
        2
    } else {
        3
    }
}

fn shift_of(count: usize) -> BinaryOperator {
    if count == 2 {
        BinaryOperator::ShiftRight
    } else {
        BinaryOperator::ShiftRightUnsigned
    }
}

// The operator that begins with `>` and has so many of them.
fn greater_operator(reader: &Reader, count: usize) -> Option<Operator>
    requires { count ≤ 3 }
{
    let assigns = joins(reader, count, Sign::Assign);
    if count == 0 || (assigns && count > 1) {
        None
    } else if assigns {
        Some(Operator {
            operator: BinaryOperator::GreaterEqual,
            tokens: 2,
        })
    } else if count == 1 {
        Some(Operator {
            operator: BinaryOperator::Greater,
            tokens: 1,
        })
    } else {
        Some(Operator {
            operator: shift_of(count),
            tokens: count,
        })
    }
}

/// The binary operator that comes next, if one does that binds at least as tightly as `lowest`.
pub fn operator_ahead(reader: &Reader, lowest: usize) -> Option<Operator> {
    let found = match peek(reader) {
        TokenKind::Sign(Sign::Greater) => greater_operator(reader, greater_run(reader))?,
        TokenKind::Sign(sign) => Operator {
            operator: operator_of(sign)?,
            tokens: 1,
        },
        _ => return None,
    };
    if rank(found.operator) < lowest {
        return None;
    }
    Some(found)
}

/// Whether a binary operator or `instanceof` comes next that binds at least as tightly as `lowest`.
pub fn at_operator(reader: &Reader, lowest: usize) -> bool {
    let instance_of = lowest <= RELATIONAL && at_word(reader, Word::Instanceof);
    instance_of || operator_ahead(reader, lowest).is_some()
}

/// The operator of an assignment that comes next, if one does.
pub fn assignment_ahead(reader: &Reader) -> Option<Assignment> {
    match peek(reader) {
        TokenKind::Sign(Sign::Assign) => Some(Assignment {
            operator: None,
            tokens: 1,
        }),
        TokenKind::Sign(Sign::Greater) => {
            let count = greater_run(reader);
            if count < 2 || !joins(reader, count, Sign::Assign) {
                return None;
            }
            Some(Assignment {
                operator: Some(shift_of(count)),
                tokens: count + 1,
            })
        }
        TokenKind::Sign(sign) => Some(Assignment {
            operator: Some(assigning_of(sign)?),
            tokens: 1,
        }),
        _ => None,
    }
}

/// The unary operator that a token is, or none (JLS 15.15).
pub fn unary_of(kind: TokenKind) -> Option<UnaryOperator> {
    match kind {
        TokenKind::Sign(Sign::Plus) => Some(UnaryOperator::Plus),
        TokenKind::Sign(Sign::Minus) => Some(UnaryOperator::Minus),
        TokenKind::Sign(Sign::Not) => Some(UnaryOperator::Not),
        TokenKind::Sign(Sign::Tilde) => Some(UnaryOperator::Complement),
        _ => None,
    }
}

/// Whether the token of this number is the greatest decimal number, which only a unary minus may stand before (JLS
/// 3.10.1).
pub fn is_least(tokens_kind: TokenKind) -> bool {
    match tokens_kind {
        TokenKind::Number(number) => {
            let most: u64 = if number.long {
                9223372036854775808
            } else {
                2147483648
            };
            number.decimal && number.value == most
        }
        _ => false,
    }
}

/// What the token is that is so many after the first one.
pub fn kind_after<'a>(reader: &Reader<'a>, ahead: usize) -> TokenKind<'a> {
    kind_at(reader.tokens, place(reader).saturating_add(ahead))
}
