// Which methods the calls of a menu are of.

ghost use Rattle.std.specs.Prelude.{IfOk, IsTrue, map, string_bytes};
ghost use Rattle.ls_any_size.specs.Alone.{AreMadeOf, IsMadeOf};

use crate::compiled::with_call;
use ls_checked::program::{Program, ProgramCall};
use ls_guarded::programs::is_on_one;
use std::alloc::{AllocError, Global};

/// Some methods of a class.
#[derive(Drop)]
pub(crate) struct Menu {
    pub(crate) class: usize,
    pub(crate) methods: Vec<usize>,
}

/// Adds what a call makes or calls.
fn push_call(menu: &mut Menu, call: &ProgramCall) -> Result<(), AllocError> {
    match call {
        ProgramCall::Making { class, .. } => menu.class = *class,
        ProgramCall::Calling { method, .. } => {
            if !menu.methods.contains(method) {
                menu.methods.push(*method)?;
            }
        }
    }
    Ok(())
}

/// Adds the methods that a program calls.
fn push_program(menu: &mut Menu, program: &Program) -> Result<(), AllocError> {
    for thread in &program.threads {
        for call in &thread.calls {
            push_call(menu, call)?;
        }
    }
    Ok(())
}

/// The class and the methods of the calls of a menu, as far as these compile.
pub(crate) fn menu_of(
    alloc: Global,
    classes: &str,
    making: &str,
    calls: &[String],
) -> Result<Menu, AllocError> {
    let mut menu = Menu {
        class: 0,
        methods: Vec::new(alloc),
    };
    for call in calls {
        if let Some(image) = with_call(alloc, classes, making, call.as_str())? {
            push_program(&mut menu, image.program())?;
        }
    }
    Ok(menu)
}

/// Whether a call compiles, and is of the methods of the class.
fn is_made_of(
    alloc: Global,
    classes: &str,
    making: &str,
    menu: &Menu,
    call: &str,
) -> Result<bool, AllocError>
    ensures { IfOk result (λ b. IsTrue b →
        IsMadeOf classes.now making.now menu.now.class menu.now.methods.items call.now) }
{
    match with_call(alloc, classes, making, call)? {
        Some(image) => Ok(is_on_one(menu.class, &menu.methods, image.program())),
        None => Ok(false),
    }
}

/// Whether each call of a menu is so.
pub(crate) fn are_made_of(
    alloc: Global,
    classes: &str,
    making: &str,
    menu: &Menu,
    calls: &[String],
) -> Result<bool, AllocError>
    ensures { IfOk result (λ b. IsTrue b →
        AreMadeOf classes.now making.now menu.now.class menu.now.methods.items (map string_bytes calls.now)) }
{
    for call in calls {
        if !is_made_of(alloc, classes, making, menu, call.as_str())? {
            return Ok(false);
        }
    }
    Ok(true)
}
