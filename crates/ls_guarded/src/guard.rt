// What guards the calls of a class.

ghost use Rattle.std.specs.Prelude.{IfOk, IsTrue};
ghost use Rattle.ls_checked.specs.Plain.{plain_file};
ghost use Rattle.ls_guarded.specs.Guards.{Guards, IsLockOf, IsMonitorOf};
ghost use Rattle.ls_guarded.specs.Reasons.{IsExplained};

use crate::clean::runs_clean;
use crate::marks::Callees;
use crate::methods::{keeps_lock, keeps_monitor};
use crate::plain::runs_plain;
use crate::reasons::{Reason, lock_of, reason_of};
use ls_checked::tree::{Class, File, Statement};
use std::alloc::{AllocError, Global};

/// What is held from the first to the last step of each call.
#[derive(Copy)]
pub enum Guard {
    /// The monitor of the object.
    Monitor,
    /// The lock in a field of the object.
    Field(usize),
    /// None, or none that can be told by the form of the methods.
    No(Reason),
}

impl Clone for Guard {
    fn clone(&self) -> Result<Guard, AllocError> {
        Ok(*self)
    }
}

// A mark for each method.
fn all_marks(alloc: Global, file: &File) -> Result<Vec<bool>, AllocError> {
    let mut marks = Vec::new(alloc);
    for _ in &file.methods {
        marks.push(true)?;
    }
    Ok(marks)
}

// Takes the mark from a method. Answers whether it had one.
fn strike(marks: &mut Vec<bool>, m: usize) -> bool {
    match marks.get_mut(m) {
        None => false,
        Some(mark) => {
            let had = *mark;
            *mark = false;
            had
        }
    }
}

// ---- monitors

// Takes the mark from methods that aren't plain. Answers whether one had a mark.
fn strike_monitors(marks: &mut Vec<bool>, file: &File) -> bool {
    let mut changed = false;
    for (m, method) in file.methods.iter().enumerate() {
        if !runs_plain(marks, &file.classes, 0, &method.body) {
            let struck = strike(marks, m);
            changed = changed || struck;
        }
    }
    changed
}

// The methods that are plain, and so is what they call.
fn monitor_marks(alloc: Global, file: &File) -> Result<Vec<bool>, AllocError> {
    let mut marks = all_marks(alloc, file)?;
    for _ in &file.methods {
        if !strike_monitors(&mut marks, file) {
            break;
        }
    }
    Ok(marks)
}

/// Whether the monitor of the object guards the methods of a class.
pub fn is_monitor_of(
    alloc: Global,
    file: &File,
    class: usize,
    methods: &[usize],
) -> Result<bool, AllocError>
    ensures { IfOk result (λ b. IsTrue b → IsMonitorOf (plain_file file.now) class methods.now) }
{
    let marks = monitor_marks(alloc, file)?;
    Ok(keeps_monitor(&marks, file, class, methods))
}

// ---- a lock in a field

// All methods, as callees.
fn all_callees(alloc: Global, file: &File) -> Result<Callees, AllocError> {
    Ok(Callees {
        all: all_marks(alloc, file)?,
        own: all_marks(alloc, file)?,
        others: all_marks(alloc, file)?,
    })
}

// Takes the marks from a method that isn't plain and clean. Answers whether it had one.
fn strike_callee(
    callees: &mut Callees,
    classes: &[Class],
    f: usize,
    m: usize,
    body: &Statement,
) -> bool {
    let plain = runs_plain(&callees.all, classes, 0, body);
    let own = plain && runs_clean(callees, classes, f, true, body);
    let others = plain && runs_clean(callees, classes, f, false, body);
    let mut changed = false;
    if !plain {
        changed = strike(&mut callees.all, m);
    }
    if !own {
        let struck = strike(&mut callees.own, m);
        changed = changed || struck;
    }
    if !others {
        let struck = strike(&mut callees.others, m);
        changed = changed || struck;
    }
    changed
}

// Takes the marks from methods that aren't plain and clean. Answers whether one had a mark.
fn strike_callees(callees: &mut Callees, f: usize, file: &File) -> bool {
    let mut changed = false;
    for (m, method) in file.methods.iter().enumerate() {
        let struck = strike_callee(callees, &file.classes, f, m, &method.body);
        changed = changed || struck;
    }
    changed
}

// The methods that are plain and clean, and so is what they call. Each round but the last takes one mark at least.
fn lock_callees(alloc: Global, f: usize, file: &File) -> Result<Callees, AllocError> {
    let mut callees = all_callees(alloc, file)?;
    for _ in &file.methods {
        for _ in 0..3 {
            if !strike_callees(&mut callees, f, file) {
                return Ok(callees);
            }
        }
    }
    Ok(callees)
}

/// Whether the lock in a field guards the methods of a class.
pub fn is_lock_of(
    alloc: Global,
    file: &File,
    class: usize,
    f: usize,
    methods: &[usize],
) -> Result<bool, AllocError>
    ensures { IfOk result (λ b. IsTrue b → IsLockOf (plain_file file.now) class f methods.now) }
{
    let callees = lock_callees(alloc, f, file)?;
    Ok(keeps_lock(&callees, file, class, f, methods))
}

/// What guards the methods of a class: the monitor of the object, the lock in one of its fields, or none that is told.
pub fn guard_of(
    alloc: Global,
    file: &File,
    class: usize,
    methods: &[usize],
) -> Result<Guard, AllocError>
    ensures guards { IfOk result (λ guard. Guards guard (plain_file file.now) class methods.now) }
    ensures reason { IfOk result (IsExplained (plain_file file.now) class methods.now) }
{
    if methods.is_empty() {
        return Ok(Guard::No(Reason::NoMethods));
    }
    if is_monitor_of(alloc, file, class, methods)? {
        return Ok(Guard::Monitor);
    }
    if let Some(f) = lock_of(file, methods) {
        if is_lock_of(alloc, file, class, f, methods)? {
            return Ok(Guard::Field(f));
        }
    }
    Ok(Guard::No(reason_of(file, class, methods)))
}
