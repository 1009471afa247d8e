// Which methods of a file are guarded, and whether what they call is plain.

ghost use Rattle.std.specs.Prelude.{◌↔◌, ◌≡◌, IsTrue, map, option_copied, option_map, slice_get};
ghost use Rattle.ls_checked.specs.Plain.{plain_class, plain_file, plain_method};
ghost use Rattle.ls_meaning.specs.Expressions.{constructor_of};
ghost use Rattle.ls_one_at_a_time.specs.Inner.{IsSynchronized};
ghost use Rattle.ls_guarded.specs.Marks.{IsMarked};
ghost use Rattle.ls_guarded.specs.Methods.{AllGuarded, AllSynchronized, AreKeptFrom, ArePlainFrom, HasField};
ghost use Rattle.ls_guarded.specs.Methods.{IsGuarded, IsKept, IsMade};
ghost use Rattle.ls_guarded.specs.Methods.{KeepsLock, KeepsMonitor};

use crate::clean::runs_clean;
use crate::marks::{Callees, is_marked};
use crate::plain::runs_plain;
use crate::rounds::{is_guarded_body, is_making_body, is_monitor_body};
use ls_checked::tree::{Class, File, Method};
use ls_source_store::lookups::{constructor_of, method_at};

// ---- monitors

fn are_plain_methods(marks: &[bool], classes: &[Class], methods: &[Method]) -> bool
    ensures { IsTrue result ↔ ArePlainFrom marks.now (map plain_class classes.now) 0 (map plain_method methods.now) }
{
    for (m, method) in methods.iter().enumerate() {
        if is_marked(marks, m) && !runs_plain(marks, classes, 0, &method.body) {
            return false;
        }
    }
    true
}

#[tactic(auto, using(crate::proofs::Found::synchronized))]
fn is_synchronized(marks: &[bool], file: &File, m: usize) -> bool
    ensures { IsTrue result ↔ IsSynchronized (IsMarked marks.now) (plain_file file.now) m }
{
    match method_at(file, m) {
        None => false,
        Some(method) => is_monitor_body(marks, &file.classes, method.slots.len(), &method.body),
    }
}

fn all_synchronized(marks: &[bool], file: &File, methods: &[usize]) -> bool
    ensures { IsTrue result ↔ AllSynchronized (IsMarked marks.now) (plain_file file.now) methods.now }
{
    for m in methods {
        if !is_synchronized(marks, file, *m) {
            return false;
        }
    }
    true
}

fn file_plain(marks: &[bool], file: &File) -> bool
    ensures { IsTrue result ↔ ArePlainFrom marks.now (plain_file file.now).classes 0 (plain_file file.now).methods }
{
    are_plain_methods(marks, &file.classes, &file.methods)
}

fn is_constructor_marked(marks: &[bool], file: &File, class: usize) -> bool
    ensures { IsTrue result ↔ IsMarked marks.now (constructor_of (plain_file file.now).classes class) }
{
    is_marked(marks, constructor_of(&file.classes, class))
}

/// Whether all of the methods are synchronized, and what they and the constructor of the class call is plain.
pub fn keeps_monitor(marks: &[bool], file: &File, class: usize, methods: &[usize]) -> bool
    ensures { IsTrue result ↔ KeepsMonitor marks.now (plain_file file.now) class methods.now }
{
    file_plain(marks, file)
        && is_constructor_marked(marks, file, class)
        && all_synchronized(marks, file, methods)
}

// ---- a lock in a field

fn is_kept(callees: &Callees, classes: &[Class], f: usize, m: usize, method: &Method) -> bool
    ensures { IsTrue result ↔
        IsKept callees.now.all.items callees.now.own.items callees.now.others.items (map plain_class classes.now) f m
        (plain_method method.now) }
{
    let body = &method.body;
    let plain = runs_plain(&callees.all, classes, 0, body);
    (!is_marked(&callees.all, m) || plain)
        && (!is_marked(&callees.own, m) || (plain && runs_clean(callees, classes, f, true, body)))
        && (!is_marked(&callees.others, m)
            || (plain && runs_clean(callees, classes, f, false, body)))
}

fn are_kept(callees: &Callees, classes: &[Class], f: usize, methods: &[Method]) -> bool
    ensures { IsTrue result ↔
        AreKeptFrom callees.now.all.items callees.now.own.items callees.now.others.items
        (map plain_class classes.now) f 0 (map plain_method methods.now) }
{
    for (m, method) in methods.iter().enumerate() {
        if !is_kept(callees, classes, f, m, method) {
            return false;
        }
    }
    true
}

#[tactic(auto, using(crate::proofs::Found::guarded))]
fn is_guarded(callees: &Callees, file: &File, c: usize, f: usize, m: usize) -> bool
    ensures { IsTrue result ↔
        IsGuarded callees.now.all.items callees.now.own.items callees.now.others.items (plain_file file.now) c f m }
{
    match method_at(file, m) {
        None => false,
        Some(method) => is_guarded_body(callees, &file.classes, c, f, &method.body),
    }
}

fn all_guarded(callees: &Callees, file: &File, c: usize, f: usize, methods: &[usize]) -> bool
    ensures { IsTrue result ↔
        AllGuarded callees.now.all.items callees.now.own.items callees.now.others.items
        (plain_file file.now) c f methods.now }
{
    for m in methods {
        if !is_guarded(callees, file, c, f, *m) {
            return false;
        }
    }
    true
}

fn class_at<'a>(file: &'a File, n: usize) -> Option<&'a Class>
    ensures { option_map plain_class (option_copied result) ≡ slice_get (plain_file file.now).classes n }
{
    file.classes.get(n)
}

// Whether a class has a field.
#[tactic(auto, using(crate::proofs::Found::has))]
fn has_field(file: &File, c: usize, f: usize) -> bool
    ensures { IsTrue result ↔ HasField (plain_file file.now) c f }
{
    match class_at(file, c) {
        None => false,
        Some(class) => f < class.fields.len(),
    }
}

#[tactic(auto, using(crate::proofs::Found::guarded))]
fn is_made(callees: &Callees, file: &File, c: usize, f: usize) -> bool
    ensures { IsTrue result ↔
        IsMade callees.now.all.items callees.now.own.items callees.now.others.items (plain_file file.now) c f }
{
    match method_at(file, constructor_of(&file.classes, c)) {
        None => false,
        Some(method) => is_making_body(callees, &file.classes, c, f, &method.body),
    }
}

fn file_kept(callees: &Callees, f: usize, file: &File) -> bool
    ensures { IsTrue result ↔
        AreKeptFrom callees.now.all.items callees.now.own.items callees.now.others.items
        (plain_file file.now).classes f 0 (plain_file file.now).methods }
{
    are_kept(callees, &file.classes, f, &file.methods)
}

/// Whether all of the methods hold the lock in a field, and what they and the constructor call is plain and clean.
pub fn keeps_lock(callees: &Callees, file: &File, class: usize, f: usize, methods: &[usize]) -> bool
    ensures { IsTrue result ↔
        KeepsLock callees.now.all.items callees.now.own.items callees.now.others.items
        (plain_file file.now) class f methods.now }
{
    file_kept(callees, f, file)
        && is_constructor_marked(&callees.all, file, class)
        && has_field(file, class, f)
        && is_made(callees, file, class, f)
        && all_guarded(callees, file, class, f, methods)
}
