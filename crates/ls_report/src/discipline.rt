// Which event may come next.

ghost use Rattle.std.specs.Prelude.{◌≡◌, ◌==◌, ◌+◌, map, option_map};
ghost use Rattle.std.specs.List.{list_all};
ghost use Rattle.std.specs.Option.{option_copied};
ghost use Rattle.ls_report.specs.Discipline.{
  has_names,
  has_value,
  is_call,
  is_making,
  is_next,
  is_placed,
  is_return,
  is_shown,
  is_well_formed,
  may_follow,
};
ghost use Rattle.ls_report.specs.Front.{IsIndexed};
ghost use Rattle.ls_report.specs.Plain.{plain_event, plain_occurrence};

use crate::front::Front;
use crate::history::{NamedEvent, Occurrence};
use ls_events::value::Value;
use ls_lexer::names::is_name;

fn is_shown(value: Value) -> bool
    ensures { result ≡ is_shown value }
{
    matches!(value, Value::Int(_) | Value::Boolean(_))
}

fn are_shown(values: &[Value]) -> bool
    ensures { result ≡ list_all is_shown values.now }
{
    values.iter().all(|value| is_shown(*value))
}

fn has_names(occurrence: &Occurrence<'_>) -> bool
    ensures { result ≡ has_names (plain_occurrence occurrence.now) }
{
    match occurrence {
        Occurrence::Made {
            object,
            class,
            arguments,
        } => is_name(object) && is_name(class) && are_shown(arguments.as_slice()),
        Occurrence::Called {
            object,
            method,
            arguments,
        } => is_name(object) && is_name(method) && are_shown(arguments.as_slice()),
        Occurrence::Returned(Some(value)) => is_shown(*value),
        Occurrence::Returned(None) | Occurrence::Trapped(_) => true,
    }
}

fn is_well_formed(event: &NamedEvent<'_>) -> bool
    ensures { result ≡ is_well_formed (plain_event event.now) }
{
    let thread = event.thread;
    is_name(thread) && thread != "all" && has_names(&event.occurrence)
}

fn is_call(occurrence: &Occurrence<'_>) -> bool
    ensures { result ≡ is_call (plain_occurrence occurrence.now) }
{
    matches!(
        occurrence,
        Occurrence::Made { .. } | Occurrence::Called { .. }
    )
}

fn is_making(occurrence: &Occurrence<'_>) -> bool
    ensures { result ≡ is_making (plain_occurrence occurrence.now) }
{
    matches!(occurrence, Occurrence::Made { .. })
}

fn is_return(occurrence: &Occurrence<'_>) -> bool
    ensures { result ≡ is_return (plain_occurrence occurrence.now) }
{
    matches!(occurrence, Occurrence::Returned(_))
}

fn has_value(occurrence: &Occurrence<'_>) -> bool
    ensures { result ≡ has_value (plain_occurrence occurrence.now) }
{
    matches!(occurrence, Occurrence::Returned(Some(_)))
}

fn is_placed(event: &NamedEvent<'_>) -> bool
    ensures { result ≡ is_placed (plain_event event.now) }
{
    !is_making(&event.occurrence) || event.thread == "setup"
}

fn is_one_more(number: usize, before: usize) -> bool
    ensures { result ≡ (number == before + 1) }
{
    number > 0 && number - 1 == before
}

fn may_follow(last: Option<&NamedEvent<'_>>, event: &NamedEvent<'_>) -> bool
    ensures { result ≡ may_follow (option_map plain_event (option_copied last.entry)) (plain_event event.now) }
{
    match last {
        None => is_call(&event.occurrence) && event.call == 1 && is_placed(event),
        Some(before) => {
            if is_call(&event.occurrence) {
                is_return(&before.occurrence)
                    && is_one_more(event.call, before.call)
                    && is_placed(event)
            } else {
                is_call(&before.occurrence)
                    && event.call == before.call
                    && !(is_making(&before.occurrence) && has_value(&event.occurrence))
            }
        }
    }
}

/// Whether the event may come after those before it.
pub(crate) fn is_next(front: &Front<'_>, event: &NamedEvent<'_>) -> bool
    requires { IsIndexed front.now }
    ensures { result ≡ is_next (map plain_event front.now.events.items) (plain_event event.now) }
{
    is_well_formed(event) && may_follow(front.last_of(event.thread), event)
}
