// Where a class text has the method of a call.

ghost use Rattle.std.specs.Prelude.{◌≡◌, IfOk};
ghost use Rattle.ls_tree.specs.PlacedStatements.{placed_class};
ghost use Rattle.ls_class_programs.specs.Placing.{IsPlaceOf, is_call_of, place_in};

use crate::choosing::{Choosing, chosen};
use ls_lexer::lexing::lex;
use ls_lexer::token::Span;
use ls_parser::parsing::parse_text;
use ls_tree::tree::{Class, Member};
use std::alloc::{AllocError, Global};

/// Whether a call is one of the method of a name.
fn is_call_of(alloc: Global, name: &str, call: &str) -> Result<bool, AllocError>
    ensures { IfOk result (λ is. is ≡ is_call_of name.now call.now) }
{
    let mut begun = String::from_str(alloc, "s.")?;
    begun.push_str(name)?;
    begun.push_str("(")?;
    Ok(call.starts_with(begun.as_str()))
}

/// The place of the name of the first method of a class whose call it is; else that of the name of the class.
fn place_in(alloc: Global, class: &Class, call: &str) -> Result<Span, AllocError>
    ensures { IfOk result (λ span. span ≡ place_in call.now (placed_class class.now)) }
{
    for member in &class.members {
        if let Member::Method(method) = member {
            if is_call_of(alloc, method.name.text.as_str(), call)? {
                return Ok(method.name.span);
            }
        }
    }
    Ok(class.name.span)
}

/// The place in a class text of the name of the first method whose call it is, of the class that is chosen. If the call
/// is none of a method, as an empty text is none, it is the place of the name of the class. A refusal is that memory
/// ran out, or that the class text isn't one, or that no class of it is chosen.
pub fn place_of_call(
    alloc: Global,
    choosing: Choosing,
    classes: &str,
    call: &str,
) -> Result<Span, AllocError>
    ensures { IfOk result (IsPlaceOf choosing classes.now call.now) }
{
    let Ok(file) = parse_text(alloc, classes) else {
        return Err(AllocError);
    };
    let Ok(tokens) = lex(alloc, classes) else {
        return Err(AllocError);
    };
    let all = file.classes();
    let Some(at) = chosen(choosing.class, tokens.as_slice(), all) else {
        return Err(AllocError);
    };
    let Some(class) = all.get(at) else {
        return Err(AllocError);
    };
    place_in(alloc, class, call)
}
