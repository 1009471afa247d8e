// Menus of classes.

ghost use Rattle.std.specs.Prelude.{◌≡◌, ◌<◌, ◌≤◌, ◌++◌, IfOk, IsErrOf, OnOk, map, option_map, string_bytes};
ghost use Rattle.std.specs.List.{list_any};
ghost use Rattle.ls_tree.specs.Views.{bare_class, bare_member, bare_modifier, bare_modifiers, bare_parameter};
ghost use Rattle.ls_tree.specs.Views.{bare_type};
ghost use Rattle.ls_class_programs.specs.Limits.{AreTooMany, ClassHasTooMany, HasTooMany};
ghost use Rattle.ls_class_programs.specs.Menus.{all_arguments, call_text, class_calls, constructor_parameters};
ghost use Rattle.ls_class_programs.specs.Menus.{firsts_of, from_to, is_callable, is_numbered, is_of_number, is_plain};
ghost use Rattle.ls_class_programs.specs.Menus.{is_private, making_text, makings, member_calls};
ghost use Rattle.ls_class_programs.specs.Menus.{up_to};

use crate::arguments::{Integers, all_arguments, firsts_of, from_to, up_to};
use crate::menu_fault::MenuFault;
use ls_tree::tree::{Class, Member, Method, Modifier, Parameter, Type};
use std::alloc::{AllocError, Global};

fn is_private(modifier: &Modifier) -> bool
    ensures { result ≡ is_private (bare_modifier modifier.now) }
{
    match modifier {
        Modifier::Private => true,
        Modifier::Public
        | Modifier::Protected
        | Modifier::Final
        | Modifier::Volatile
        | Modifier::Annotation(_) => false,
    }
}

/// Whether one of the modifiers is `private`.
fn have_private(modifiers: &[Modifier]) -> bool
    ensures { result ≡ list_any is_private (map bare_modifier modifiers.now) }
{
    for modifier in modifiers {
        if is_private(modifier) {
            return true;
        }
    }
    false
}

/// Whether one of the modifiers after a `synchronized` is `private`.
fn are_locked_private(locked: &[Vec<Modifier>]) -> bool
    ensures { result ≡ list_any (list_any is_private) (map bare_modifiers locked.now) }
{
    for modifiers in locked {
        if have_private(modifiers.as_slice()) {
            return true;
        }
    }
    false
}

/// Whether a modifier is the annotation `@ThreadNumber`.
fn is_of_number(modifier: &Modifier) -> bool
    ensures { result ≡ is_of_number (bare_modifier modifier.now) }
{
    match modifier {
        Modifier::Annotation(name) => name.text.as_str() == "ThreadNumber",
        Modifier::Public
        | Modifier::Private
        | Modifier::Protected
        | Modifier::Final
        | Modifier::Volatile => false,
    }
}

/// Whether one of the modifiers is.
fn have_number(modifiers: &[Modifier]) -> bool
    ensures { result ≡ list_any is_of_number (map bare_modifier modifiers.now) }
{
    for modifier in modifiers {
        if is_of_number(modifier) {
            return true;
        }
    }
    false
}

/// Whether one of the modifiers after a `synchronized` is.
fn are_locked_of_number(locked: &[Vec<Modifier>]) -> bool
    ensures { result ≡ list_any (list_any is_of_number) (map bare_modifiers locked.now) }
{
    for modifiers in locked {
        if have_number(modifiers.as_slice()) {
            return true;
        }
    }
    false
}

/// Whether the first int of a method is the number of the thread that calls it.
fn is_numbered(method: &Method) -> bool
    ensures { result ≡ is_numbered (map bare_modifier method.now.modifiers.items)
        (map bare_modifiers method.now.locked.items) }
{
    have_number(method.modifiers.as_slice()) || are_locked_of_number(method.locked.as_slice())
}

/// Whether a method answers nothing, an int or a boolean.
fn is_plain(result_type: &Option<Type>) -> bool
    ensures { result ≡ is_plain (option_map bare_type result_type.now) }
{
    match result_type {
        None | Some(Type::Int) | Some(Type::Boolean) => true,
        Some(Type::BooleanArray) | Some(Type::Class(_)) | Some(Type::Markable(_)) => false,
    }
}

fn is_callable(method: &Method) -> bool
    ensures { result ≡ is_callable (map bare_modifier method.now.modifiers.items)
        (map bare_modifiers method.now.locked.items) (option_map bare_type method.now.«result») }
{
    !have_private(method.modifiers.as_slice())
        && !are_locked_private(method.locked.as_slice())
        && is_plain(&method.result)
}

/// A call on `s`, as `s.add(1);`.
fn call_text(alloc: Global, name: &str, arguments: &str) -> Result<String, AllocError>
    ensures { IfOk result (λ text. string_bytes text ≡ call_text name.now arguments.now) }
{
    let mut text = String::from_str(alloc, "s.")?;
    text.push_str(name)?;
    text.push_str("(")?;
    text.push_str(arguments)?;
    text.push_str(");")?;
    Ok(text)
}

/// Adds the calls of a method of this name.
fn push_calls(
    alloc: Global,
    calls: &mut Vec<String>,
    name: &str,
    arguments: &[String],
) -> Result<(), AllocError>
    ensures { OnOk result (map string_bytes calls.new.items ≡ map string_bytes calls.old.items ++
        map (call_text name.now) (map string_bytes arguments.now)) }
{
    for one in arguments {
        let text = call_text(alloc, name, one.as_str())?;
        calls.push(text)?;
    }
    Ok(())
}

/// Adds the calls of a method that may be called.
fn push_method(
    alloc: Global,
    calls: &mut Vec<String>,
    most: usize,
    method: &Method,
) -> Result<(), MenuFault>
    requires { most ≤ 9 }
    ensures calls { OnOk result (map string_bytes calls.new.items ≡ map string_bytes calls.old.items ++
        map (call_text (string_bytes method.now.name.text)) (all_arguments (firsts_of
        (is_numbered (map bare_modifier method.now.modifiers.items) (map bare_modifiers method.now.locked.items))
        (up_to most)) (up_to most) (map bare_parameter method.now.parameters.items))) }
    ensures many { IsErrOf result MenuFault.TooMany → AreTooMany (firsts_of
        (is_numbered (map bare_modifier method.now.modifiers.items) (map bare_modifiers method.now.locked.items))
        (up_to most)) (up_to most) (map bare_parameter method.now.parameters.items) }
{
    let integers = up_to(most);
    let firsts = firsts_of(is_numbered(method), integers);
    let arguments = all_arguments(alloc, firsts, integers, method.parameters.as_slice())?;
    push_calls(
        alloc,
        calls,
        method.name.text.as_str(),
        arguments.as_slice(),
    )?;
    Ok(())
}

/// Adds the calls of a member.
fn push_member(
    alloc: Global,
    calls: &mut Vec<String>,
    most: usize,
    member: &Member,
) -> Result<(), MenuFault>
    requires { most ≤ 9 }
    ensures calls { OnOk result (map string_bytes calls.new.items ≡ map string_bytes calls.old.items ++
        member_calls most (bare_member member.now)) }
    ensures many { IsErrOf result MenuFault.TooMany → HasTooMany most (bare_member member.now) }
{
    match member {
        Member::Method(method) => {
            if !is_callable(method) {
                return Ok(());
            }
            push_method(alloc, calls, most, method)
        }
        Member::Field(_) | Member::Constructor(_) => Ok(()),
    }
}

/// The calls of a class on an object `s`: of each method that isn't private, answers no reference and takes none, with
/// all its arguments. An int is one of the first so many integers, from 1. If the method has the annotation
/// `@ThreadNumber`, its first argument is the number of the thread that calls it, if that is an int. Methods come as
/// they stand in the text. The last argument changes first.
///
/// `TooMany` comes only if some first parameters of a member have more than 1,000 lists of arguments. Else the only
/// refusal is that memory ran out.
pub fn calls_of(alloc: Global, most: usize, class: &Class) -> Result<Vec<String>, MenuFault>
    requires { most ≤ 9 }
    ensures calls { IfOk result (λ calls. map string_bytes calls.items ≡ class_calls most (bare_class class.now)) }
    ensures many { IsErrOf result MenuFault.TooMany → ClassHasTooMany most (bare_class class.now) }
{
    let mut calls = Vec::new(alloc);
    for member in &class.members {
        push_member(alloc, &mut calls, most, member)?;
    }
    Ok(calls)
}

/// The parameters of the first constructor.
fn constructor_parameters(members: &[Member]) -> &[Parameter]
    ensures { map bare_parameter result.now ≡ constructor_parameters (map bare_member members.now) }
{
    for member in members {
        if let Member::Constructor(constructor) = member {
            return constructor.parameters.as_slice();
        }
    }
    &[]
}

/// The making of `s`, as `s = new C(1);`.
fn making_text(alloc: Global, name: &str, arguments: &str) -> Result<String, AllocError>
    ensures { IfOk result (λ text. string_bytes text ≡ making_text name.now arguments.now) }
{
    let mut text = String::from_str(alloc, "s = new ")?;
    text.push_str(name)?;
    text.push_str("(")?;
    text.push_str(arguments)?;
    text.push_str(");")?;
    Ok(text)
}

/// Each making of an object of this class, with these arguments.
fn makings_with(alloc: Global, name: &str, arguments: &[String]) -> Result<Vec<String>, AllocError>
    ensures { IfOk result (λ all. map string_bytes all.items ≡
        map (making_text name.now) (map string_bytes arguments.now)) }
{
    let mut all = Vec::new(alloc);
    for one in arguments {
        let text = making_text(alloc, name, one.as_str())?;
        all.push(text)?;
    }
    Ok(all)
}

/// All makings of an object `s` of a class, by its first constructor, or without one; none if that takes a reference.
/// An int is one of these integers. The last argument changes first.
///
/// `TooMany` comes only if some first parameters of the constructor have more than 1,000 lists of arguments. Else the
/// only refusal is that memory ran out.
pub fn makings_of(alloc: Global, given: Integers, class: &Class) -> Result<Vec<String>, MenuFault>
    requires some { 0 < given.first }
    requires order { given.first ≤ given.last }
    requires few { given.last ≤ 9 }
    ensures makings { IfOk result (λ all. map string_bytes all.items ≡ makings given (bare_class class.now)) }
    ensures many { IsErrOf result MenuFault.TooMany →
        AreTooMany (from_to given) (from_to given) (constructor_parameters (bare_class class.now).members) }
{
    let parameters = constructor_parameters(class.members.as_slice());
    let integers = from_to(given);
    let arguments = all_arguments(alloc, integers, integers, parameters)?;
    let makings = makings_with(alloc, class.name.text.as_str(), arguments.as_slice())?;
    Ok(makings)
}
