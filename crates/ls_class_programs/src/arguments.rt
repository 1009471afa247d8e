// Lists of arguments.

ghost use Rattle.std.specs.Prelude.{◌≡◌, ◌<◌, ◌≤◌, ◌*◌, ◌++◌, ◌∷◌, [], IfErr, IfOk, IsErrOf, OnOk, codes, length, map};
ghost use Rattle.std.specs.Prelude.{string_bytes};
ghost use Rattle.ls_items.specs.Cutting.{plain_text};
ghost use Rattle.ls_tree.specs.Views.{bare_parameter, bare_type};
ghost use Rattle.ls_class_programs.specs.Limits.{AreTooMany, HaveTooMany};
ghost use Rattle.ls_class_programs.specs.Menus.{all_arguments, and_then, arguments_of, firsts_of, from_to, up_to};
ghost use Rattle.ls_class_programs.specs.Menus.{with_argument, with_arguments};

use crate::menu_fault::MenuFault;
use ls_tree::tree::{Parameter, Type};
use std::alloc::{AllocError, Global};

/// The most integers that an argument may be.
pub const MOST_VALUES: usize = 9;

/// The most lists of arguments of a method.
const MOST_LISTS: usize = 1000;

static INTEGERS: [&str; 9] = ["1", "2", "3", "4", "5", "6", "7", "8", "9"];

static BOOLEANS: [&str; 2] = ["false", "true"];

static NUMBERS: [&str; 1] = ["#"];

/// The first so many integers.
pub(crate) fn up_to(most: usize) -> &'static [&'static str]
    requires { most ≤ 9 }
    ensures is { map plain_text result.now ≡ up_to most }
    ensures many { length result.now ≡ most }
{
    &INTEGERS[..most]
}

/// Integers, from one to another.
#[derive(Copy)]
pub struct Integers {
    pub first: u64,
    pub last: u64,
}

impl Clone for Integers {
    fn clone(&self) -> Result<Integers, AllocError> {
        Ok(*self)
    }
}

/// Those of the nine integers that stand from one to another.
pub(crate) fn from_to(integers: Integers) -> &'static [&'static str]
    requires some { 0 < integers.first }
    requires order { integers.first ≤ integers.last }
    requires few { integers.last ≤ 9 }
    ensures is { map plain_text result.now ≡ from_to integers }
    ensures few { length result.now ≤ 9 }
{
    let all = up_to(integers.last as usize);
    let (_, from_on) = all.split_at((integers.first - 1) as usize);
    from_on
}

/// What the first int of a method may be: the number of the thread that calls it, or one of these integers.
pub(crate) fn firsts_of(
    numbered: bool,
    integers: &'static [&'static str],
) -> &'static [&'static str]
    requires { length integers.now ≤ 9 }
    ensures is { map plain_text result.now ≡ firsts_of numbered (map plain_text integers.now) }
    ensures few { length result.now ≤ 9 }
{
    if numbered { &NUMBERS } else { integers }
}

/// What an argument of a type may be, where an int is one of these integers.
fn arguments_of(integers: &'static [&'static str], type_name: &Type) -> &'static [&'static str]
    requires { length integers.now ≤ 9 }
    ensures is { map plain_text result.now ≡ arguments_of (map plain_text integers.now) (bare_type type_name.now) }
    ensures few { length result.now ≤ 9 }
{
    match type_name {
        Type::Int => integers,
        Type::Boolean => &BOOLEANS,
        Type::BooleanArray | Type::Class(_) | Type::Markable(_) => &[],
    }
}

/// Arguments, and one more.
fn and_then(alloc: Global, begun: &str, argument: &str) -> Result<String, AllocError>
    ensures { IfOk result (λ text. string_bytes text ≡ and_then begun.now argument.now) }
{
    let mut text = String::from_str(alloc, begun)?;
    if !begun.is_empty() {
        text.push_str(", ")?;
    }
    text.push_str(argument)?;
    Ok(text)
}

/// Adds a list of arguments, with each of those arguments after it.
fn push_each(
    alloc: Global,
    all: &mut Vec<String>,
    begun: &str,
    more: &[&str],
) -> Result<(), AllocError>
    ensures { OnOk result (map string_bytes all.new.items ≡ map string_bytes all.old.items ++
        map (and_then begun.now) (map plain_text more.now)) }
{
    for argument in more {
        let text = and_then(alloc, begun, argument)?;
        all.push(text)?;
    }
    Ok(())
}

/// Each list of arguments, with each of those arguments after it.
fn with_argument(alloc: Global, begun: &[String], more: &[&str]) -> Result<Vec<String>, AllocError>
    ensures { IfOk result (λ all. map string_bytes all.items ≡
        with_argument (map string_bytes begun.now) (map plain_text more.now)) }
{
    let mut all = Vec::new(alloc);
    for text in begun {
        push_each(alloc, &mut all, text.as_str(), more)?;
    }
    Ok(all)
}

/// These lists of arguments, with arguments for more parameters, where an int is one of these integers.
fn with_arguments(
    alloc: Global,
    integers: &'static [&'static str],
    begun: Vec<String>,
    parameters: &[Parameter],
) -> Result<Vec<String>, MenuFault>
    requires few { length integers.now ≤ 9 }
    requires begun { length begun.items ≤ 9 }
    ensures all { IfOk result (λ all. map string_bytes all.items ≡ with_arguments (map plain_text integers.now)
        (map string_bytes begun.items) (map bare_parameter parameters.now)) }
    ensures many { IsErrOf result MenuFault.TooMany → HaveTooMany (map plain_text integers.now)
        (map string_bytes begun.items) (map bare_parameter parameters.now) }
{
    let mut all = begun;
    for parameter in parameters {
        let more = arguments_of(integers, &parameter.type_name);
        if all.len() * more.len() > MOST_LISTS {
            return Err(MenuFault::TooMany);
        }
        let longer = with_argument(alloc, all.as_slice(), more)?;
        all = longer;
    }
    Ok(all)
}

/// The list of no arguments.
fn no_arguments(alloc: Global) -> Result<Vec<String>, AllocError>
    ensures { IfOk result (λ all. map string_bytes all.items ≡ [] ∷ []) }
{
    let mut all = Vec::new(alloc);
    all.push(String::new(alloc))?;
    Ok(all)
}

/// All lists of arguments for parameters, where an int is one of these integers, and that of the first parameter is one
/// of the first integers.
pub(crate) fn all_arguments(
    alloc: Global,
    firsts: &'static [&'static str],
    integers: &'static [&'static str],
    parameters: &[Parameter],
) -> Result<Vec<String>, MenuFault>
    requires firsts { length firsts.now ≤ 9 }
    requires few { length integers.now ≤ 9 }
    ensures all { IfOk result (λ all. map string_bytes all.items ≡ all_arguments (map plain_text firsts.now)
        (map plain_text integers.now) (map bare_parameter parameters.now)) }
    ensures many { IsErrOf result MenuFault.TooMany → AreTooMany (map plain_text firsts.now)
        (map plain_text integers.now) (map bare_parameter parameters.now) }
{
    let none = no_arguments(alloc)?;
    match parameters {
        [] => Ok(none),
        [first, others @ ..] => {
            let begun = with_argument(
                alloc,
                none.as_slice(),
                arguments_of(firsts, &first.type_name),
            )?;
            with_arguments(alloc, integers, begun, others)
        }
    }
}
