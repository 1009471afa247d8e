// Writing: phrases, words, numbers, values.

use crate::remarks::Stop;
use crate::restater::{Restater, join};
use crate::ropes::{Text, name_bit};
use crate::values::{Constant, Kind, PRIMARY, Sort, UNARY, Value};
use crate::words::WordId;

/// A phrase: tokens with a blank between every two of them.
pub fn phrase(restater: &mut Restater, text: &'static str, token: usize) -> Result<Text, Stop> {
    Ok(restater.ropes.phrase(text, token)?)
}

/// A word.
pub fn word(restater: &mut Restater, word: WordId, token: usize) -> Result<Text, Stop> {
    Ok(restater.ropes.word(word, token)?)
}

/// A number that isn't below 0.
pub fn number(restater: &mut Restater, value: u32, token: usize) -> Result<Text, Stop> {
    Ok(restater.ropes.number(value, token)?)
}

/// Texts, one after the other.
pub fn joined(restater: &mut Restater, texts: &[Text]) -> Result<Text, Stop> {
    let mut all = Text::EMPTY;
    for text in texts {
        all = join(restater, all, *text)?;
    }
    Ok(all)
}

/// A text goes to the end of what is written.
pub fn append(restater: &mut Restater, out: &mut Text, text: Text) -> Result<(), Stop> {
    *out = join(restater, *out, text)?;
    Ok(())
}

/// A phrase goes to the end of what is written.
pub fn say(
    restater: &mut Restater,
    out: &mut Text,
    text: &'static str,
    token: usize,
) -> Result<(), Stop> {
    let text = phrase(restater, text, token)?;
    append(restater, out, text)
}

/// A word goes to the end of what is written.
pub fn say_word(
    restater: &mut Restater,
    out: &mut Text,
    name: WordId,
    token: usize,
) -> Result<(), Stop> {
    let text = word(restater, name, token)?;
    append(restater, out, text)
}

/// A text in parentheses.
pub fn in_parens(restater: &mut Restater, text: Text) -> Result<Text, Stop> {
    let token = restater.ropes.first_token(text);
    let open = phrase(restater, "(", token)?;
    let close = phrase(restater, ")", token)?;
    joined(restater, &[open, text, close])
}

/// What a value writes where an operator binds so tightly: in parentheses if its own binds less tightly.
pub fn bound(restater: &mut Restater, value: Value, binding: u8) -> Result<Text, Stop> {
    if value.binding >= binding {
        return Ok(value.text);
    }
    in_parens(restater, value.text)
}

/// The value of a text with its names.
pub fn value_of(restater: &Restater, text: Text, kind: Kind, binding: u8, sort: Sort) -> Value {
    Value {
        text,
        kind,
        binding,
        sort,
        names: restater.ropes.names(text),
    }
}

/// A constant as a value.
pub fn literal(restater: &mut Restater, constant: Constant, token: usize) -> Result<Value, Stop> {
    let sort = Sort::Constant(constant);
    match constant {
        Constant::Boolean(true) => {
            let text = phrase(restater, "true", token)?;
            Ok(value_of(restater, text, Kind::Boolean, PRIMARY, sort))
        }
        Constant::Boolean(false) => {
            let text = phrase(restater, "false", token)?;
            Ok(value_of(restater, text, Kind::Boolean, PRIMARY, sort))
        }
        Constant::Int(value) => {
            let digits = number(restater, value.unsigned_abs(), token)?;
            if value >= 0 {
                return Ok(value_of(restater, digits, Kind::Int, PRIMARY, sort));
            }
            let minus = phrase(restater, "-", token)?;
            let text = join(restater, minus, digits)?;
            Ok(value_of(restater, text, Kind::Int, UNARY, sort))
        }
    }
}

/// A local as a value.
pub fn local_value(
    restater: &mut Restater,
    name: WordId,
    kind: Kind,
    token: usize,
) -> Result<Value, Stop> {
    let text = word(restater, name, token)?;
    Ok(Value {
        text,
        kind,
        binding: PRIMARY,
        sort: Sort::Local(name),
        names: name_bit(name),
    })
}

/// `this`, `null` or the like: a phrase that always has the same value.
pub fn fixed(
    restater: &mut Restater,
    text: &'static str,
    kind: Kind,
    token: usize,
) -> Result<Value, Stop> {
    let text = phrase(restater, text, token)?;
    Ok(value_of(restater, text, kind, PRIMARY, Sort::Fixed))
}

/// Nothing is written: the value of a call that is left out.
pub fn nothing() -> Value {
    Value {
        text: Text::EMPTY,
        kind: Kind::Void,
        binding: PRIMARY,
        sort: Sort::Fixed,
        names: 0,
    }
}
