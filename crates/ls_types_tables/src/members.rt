// What names mean that are called or made.

ghost use Rattle.std.specs.Prelude.{◌≡◌, IfOk, Ok, option_map, string_bytes};
ghost use Rattle.ls_types_elaboration.specs.Members.{found, method_member, member_of, maker_of, markable_maker};
ghost use Rattle.ls_types_elaboration.specs.Known.{number_of, method_of};
ghost use Rattle.ls_types_elaboration.specs.Placed.{placed_name};
ghost use Rattle.ls_types_elaboration.specs.Answers.{Gives, member_of as known_member, maker_of as plain_maker};
ghost use Rattle.ls_types_tables.specs.ByName.{keys_of, known_of};

use crate::known::{Known, class_at, method_of, number_of};
use ls_checked::tree::Called;
use ls_events::value::ValueType;
use ls_tree::tree::Name;
use ls_types_elaboration::members::{
    Maker, Makes, Member, lock_member, markable_member, member_with,
};
use ls_types_elaboration::rule::{CheckFault, Rule, refused_at};
use ls_types_elaboration::static_types::Static;
use std::alloc::{AllocError, Global};

// A method of a class as a member.
fn method_member(
    alloc: Global,
    known: Known,
    class: usize,
    name: &str,
) -> Result<Option<Member>, AllocError>
    ensures { IfOk result (λ o. option_map known_member o ≡
        method_member (method_of (known_of known.entry) class name.now)) }
{
    match method_of(known, class, name) {
        None => Ok(None),
        Some(m) => member_with(alloc, Called::Method(m.number), &m.parameters, m.result),
    }
}

fn member_in(
    alloc: Global,
    known: Known,
    target: Static,
    name: &str,
) -> Result<Option<Member>, AllocError>
    ensures { IfOk result (λ o. option_map known_member o ≡ member_of (known_of known.entry) target name.now) }
{
    match target {
        Static::Of(ValueType::Class(class)) => method_member(alloc, known, class, name),
        Static::Of(ValueType::Lock) => lock_member(alloc, name),
        Static::Of(ValueType::Markable(class)) => markable_member(alloc, class, name),
        _ => Ok(None),
    }
}

/// A method of the class to which the code belongs (JLS 15.12.1). If that class has no method of the name, it is
/// refused by `UnknownName` at the name. Else the only refusal is that memory ran out.
pub fn own_member(alloc: Global, known: Known, n: &Name) -> Result<Member, CheckFault>
    ensures { Gives known_member result
        (found (method_member (method_of (known_of known.entry) known.entry.own (string_bytes n.now.text)))
        n.now.span) }
{
    match method_member(alloc, known, known.own, n.text.as_str())? {
        None => Err(refused_at(Rule::UnknownName, n.span)),
        Some(m) => Ok(m),
    }
}

/// What a name means on a target of a type (JLS 15.12.1, 15.12.2). If the type has no method of the name, it is
/// refused by `UnknownName` at the name. Else the only refusal is that memory ran out.
pub fn member_of(
    alloc: Global,
    known: Known,
    target: Static,
    n: &Name,
) -> Result<Member, CheckFault>
    ensures { Gives known_member result
        (found (member_of (known_of known.entry) target (string_bytes n.now.text)) n.now.span) }
{
    match member_in(alloc, known, target, n.text.as_str())? {
        None => Err(refused_at(Rule::UnknownName, n.span)),
        Some(m) => Ok(m),
    }
}

fn maker_with(
    alloc: Global,
    makes: Makes,
    parameters: &[ValueType],
    value_type: ValueType,
) -> Result<Maker, CheckFault>
    ensures { Gives plain_maker result (Ok (record { makes = makes; parameters = parameters.now; type = value_type })) }
{
    Ok(Maker {
        makes,
        parameters: Vec::from_slice(alloc, parameters)?,
        value_type,
    })
}

/// What `new` makes of a class's name (JLS 15.9.1). If there is no such class, it is refused by `UnknownType` at the
/// name. Else the only refusal is that memory ran out.
pub fn maker_of(alloc: Global, known: Known, n: &Name) -> Result<Maker, CheckFault>
    ensures { Gives plain_maker result (maker_of (known_of known.entry) (placed_name n.now)) }
{
    if n.text.as_str() == "ReentrantLock" {
        return maker_with(alloc, Makes::ALock, &[], ValueType::Lock);
    }
    match number_of(known.names, n.text.as_str()) {
        None => Err(refused_at(Rule::UnknownType, n.span)),
        Some(class) => match class_at(known, class) {
            None => maker_with(alloc, Makes::AnObject(class), &[], ValueType::Class(class)),
            Some(c) => maker_with(
                alloc,
                Makes::AnObject(class),
                &c.parameters,
                ValueType::Class(class),
            ),
        },
    }
}

/// What `new AtomicMarkableReference` makes, for references to objects of a class. If there is no such class, it is
/// refused by `UnknownType` at the name. Else the only refusal is that memory ran out.
pub fn markable_maker(alloc: Global, known: Known, n: &Name) -> Result<Maker, CheckFault>
    ensures { Gives plain_maker result
        (markable_maker (number_of (keys_of known.entry.names.now) (string_bytes n.now.text)) n.now.span) }
{
    match number_of(known.names, n.text.as_str()) {
        None => Err(refused_at(Rule::UnknownType, n.span)),
        Some(class) => {
            let parameters = [ValueType::Class(class), ValueType::Boolean];
            maker_with(
                alloc,
                Makes::AMarkable(class),
                &parameters,
                ValueType::Markable(class),
            )
        }
    }
}
