// The methods that a thread has entered in its call, along a run.

ghost use Rattle.std.specs.Prelude.{◌≡◌, IfOk, map, nat_eq, string_bytes};
ghost use Rattle.ls_labels.specs.Names.{method_name, names_of};
ghost use Rattle.ls_race_places.specs.Courses.{course_after, course_along, did_in, entered_if, entered_with};
ghost use Rattle.ls_race_places.specs.Courses.{first_course, with_method};
ghost use Rattle.ls_race_places.specs.Seen.{RunsOf, course_of};

use crate::sought::is_among;
use ls_events::action::Action;
use ls_events::value::Value;
use ls_labels::label::{Label, label_of};
use ls_labels::names::{Names, push_method};
use ls_meaning::step::Did;
use ls_source::run::SourceRun;
use std::alloc::{AllocError, Global};

/// A run, what its objects are called by, and the methods that a thread has entered in its call.
#[derive(Drop)]
pub struct Course<'a> {
    pub run: SourceRun<'a>,
    pub labels: Vec<Label>,
    pub methods: Vec<String>,
}

/// A run that hasn't made a step.
pub(crate) fn first_course<'a>(alloc: Global, names: Names<'a>) -> Result<Course<'a>, AllocError>
    ensures course { IfOk result (λ c. course_of c ≡ first_course (names_of names.entry)) }
    ensures runs { IfOk result (RunsOf names.entry) }
{
    Ok(Course {
        run: SourceRun::new(alloc, names.file, names.program)?,
        labels: Vec::new(alloc),
        methods: Vec::new(alloc),
    })
}

/// As `S.get` or `new S`, by its number.
fn method_text(alloc: Global, names: Names<'_>, method: usize) -> Result<String, AllocError>
    ensures { IfOk result (λ text. string_bytes text ≡ method_name (names_of names.entry) method) }
{
    let mut text = String::new(alloc);
    push_method(&mut text, names, method)?;
    Ok(text)
}

/// A method is kept once.
fn with_method(methods: Vec<String>, method: String) -> Result<Vec<String>, AllocError>
    ensures { IfOk result (λ v. map string_bytes v.items ≡
        with_method (map string_bytes methods.items) (string_bytes method)) }
{
    if is_among(methods.as_slice(), method.as_str()) {
        return Ok(methods);
    }
    let mut more = methods;
    more.push(method)?;
    Ok(more)
}

/// The methods that a thread has entered in its call, after an action of it.
fn entered_with(
    alloc: Global,
    names: Names<'_>,
    methods: Vec<String>,
    action: &Action<Value>,
) -> Result<Vec<String>, AllocError>
    ensures { IfOk result (λ v. map string_bytes v.items ≡
        entered_with (names_of names.entry) (map string_bytes methods.items) action.now) }
{
    match action {
        Action::Call(_) => Ok(Vec::new(alloc)),
        Action::Enter(method) => with_method(methods, method_text(alloc, names, *method)?),
        _ => Ok(methods),
    }
}

/// The same, if the action is its own.
fn entered_if(
    alloc: Global,
    own: bool,
    names: Names<'_>,
    methods: Vec<String>,
    action: &Action<Value>,
) -> Result<Vec<String>, AllocError>
    ensures { IfOk result (λ v. map string_bytes v.items ≡
        entered_if own (names_of names.entry) (map string_bytes methods.items) action.now) }
{
    if own {
        return entered_with(alloc, names, methods, action);
    }
    Ok(methods)
}

/// One step of a thread more, and what it did. The methods are those of the thread of another number.
pub(crate) fn course_after<'a>(
    alloc: Global,
    names: Names<'_>,
    of: usize,
    course: Course<'a>,
    thread: usize,
) -> Result<(Course<'a>, Did), AllocError>
    requires { RunsOf names course }
    ensures course { IfOk result (λ p. course_of p.0 ≡
        course_after (names_of names.entry) of (course_of course.entry) thread) }
    ensures did { IfOk result (λ p. p.1 ≡ did_in (names_of names.entry) (course_of course.entry) thread) }
    ensures runs { IfOk result (λ p. RunsOf names.entry p.0) }
{
    let Course {
        run,
        labels,
        methods,
    } = course;
    let mut run = run;
    let mut labels = labels;
    let did = run.step(alloc, thread)?;
    match did {
        Did::Acted(action, answer) => {
            if let Some(label) = label_of(action) {
                labels.push(label)?;
            }
            let methods = entered_if(alloc, thread == of, names, methods, &action)?;
            Ok((
                Course {
                    run,
                    labels,
                    methods,
                },
                Did::Acted(action, answer),
            ))
        }
        Did::Waits => Ok((
            Course {
                run,
                labels,
                methods,
            },
            Did::Waits,
        )),
        Did::Idle => Ok((
            Course {
                run,
                labels,
                methods,
            },
            Did::Idle,
        )),
    }
}

/// The run after these steps, with the methods of a thread.
pub(crate) fn course_along<'a>(
    alloc: Global,
    names: Names<'a>,
    of: usize,
    steps: &[u8],
) -> Result<Course<'a>, AllocError>
    ensures course { IfOk result (λ c. course_of c ≡
        course_along (names_of names.entry) of (first_course (names_of names.entry)) steps.now) }
    ensures runs { IfOk result (RunsOf names.entry) }
{
    let mut course = first_course(alloc, names)?;
    for thread in steps {
        let (after, _did) = course_after(alloc, names, of, course, *thread as usize)?;
        course = after;
    }
    Ok(course)
}
