// Which fields a class text declares volatile.

ghost use Rattle.std.specs.Prelude.{◌≡◌, ◌++◌, IfOk, OnOk, map};
ghost use Rattle.std.specs.List.{list_any};
ghost use Rattle.ls_tree.specs.Views.{bare_class, bare_declaration, bare_member, bare_modifier};
ghost use Rattle.ls_races.specs.Flags.{class_flags, declared_flags, flags_of, is_volatile, member_flags};

use ls_tree::tree::{Class, Declaration, Member, Modifier};
use std::alloc::{AllocError, Global};

fn is_volatile(modifier: &Modifier) -> bool
    ensures { result ≡ is_volatile (bare_modifier modifier.now) }
{
    match modifier {
        Modifier::Volatile => true,
        Modifier::Public
        | Modifier::Protected
        | Modifier::Private
        | Modifier::Final
        | Modifier::Annotation(_) => false,
    }
}

/// Whether one of the modifiers is `volatile`.
fn have_volatile(modifiers: &[Modifier]) -> bool
    ensures { result ≡ list_any is_volatile (map bare_modifier modifiers.now) }
{
    for modifier in modifiers {
        if is_volatile(modifier) {
            return true;
        }
    }
    false
}

/// Adds the same flag for each declarator.
fn push_declared(
    flags: &mut Vec<bool>,
    flag: bool,
    declaration: &Declaration,
) -> Result<(), AllocError>
    ensures { OnOk result (flags.new.items ≡ flags.old.items ++
        declared_flags flag (bare_declaration declaration.now)) }
{
    flags.push(flag)?;
    for _more in &declaration.more {
        flags.push(flag)?;
    }
    Ok(())
}

/// Adds a flag for each field that a member declares.
fn push_member(flags: &mut Vec<bool>, member: &Member) -> Result<(), AllocError>
    ensures { OnOk result (flags.new.items ≡ flags.old.items ++ member_flags (bare_member member.now)) }
{
    match member {
        Member::Field(declaration) => {
            let flag = have_volatile(declaration.modifiers.as_slice());
            push_declared(flags, flag, declaration)
        }
        Member::Method(_) | Member::Constructor(_) => Ok(()),
    }
}

/// For each field of a class whether it is volatile.
fn class_flags(alloc: Global, class: &Class) -> Result<Vec<bool>, AllocError>
    ensures { IfOk result (λ flags. flags.items ≡ class_flags (bare_class class.now)) }
{
    let mut flags = Vec::new(alloc);
    for member in &class.members {
        push_member(&mut flags, member)?;
    }
    Ok(flags)
}

/// For each class whether its fields are volatile, in the order in which they are declared. The only refusal is that
/// memory ran out.
pub fn flags_of(alloc: Global, classes: &[Class]) -> Result<Vec<Vec<bool>>, AllocError>
    ensures { IfOk result (λ v. map (λ f. f.items) v.items ≡ flags_of (map bare_class classes.now)) }
{
    let mut flags = Vec::new(alloc);
    for class in classes {
        flags.push(class_flags(alloc, class)?)?;
    }
    Ok(flags)
}
