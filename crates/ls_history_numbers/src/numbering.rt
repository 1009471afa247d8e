// Histories by number, no two of which are the same.

ghost use Rattle.std.specs.Prelude.{◌≡◌, ◌<◌, ◌++◌, ◌∷◌, [], Decides, IfNone, IfOk, IfSome, List, OnOk, Some};
ghost use Rattle.std.specs.Prelude.{ℕ, length, map, slice_get};
ghost use Rattle.ls_events.specs.declared.event.Event.{Event as EventValue};
ghost use Rattle.ls_history_numbers.specs.declared.numbering.Known.{Known as KnownValue};
ghost use Rattle.ls_history_numbers.specs.Numbers.{AreNumbered, HasNone, IsOf, Keeps};

use ls_events::event::Event;
use ls_events::same::is_event;
use std::alloc::{AllocError, Global};

/// A history, the number of the one without its last event, and the numbers of those with one event more.
#[derive(Drop)]
pub struct Known {
    pub events: Vec<Event>,
    pub before: usize,
    pub longer: Vec<usize>,
}

/// Whether the last event is this one.
fn ends_with(history: &[Event], event: &Event) -> bool
    ensures { (h : List EventValue) (e : EventValue) → history.now ≡ h ++ e ∷ [] → Decides result (e ≡ event.now) }
{
    if history.is_empty() {
        return false;
    }
    is_event(&history[history.len() - 1], event)
}

/// Whether the history of a number has this last event.
fn has_last(all: &[Known], number: usize, event: &Event) -> bool
    requires { number < length all.now }
    ensures { (k : KnownValue) (h : List EventValue) (e : EventValue) → slice_get all.now number ≡ Some k →
        k.events.items ≡ h ++ e ∷ [] → Decides result (e ≡ event.now) }
{
    ends_with(&all[number].events, event)
}

/// The numbers of the histories with one event more than that of a number.
fn longer_of(all: &[Known], number: usize) -> &[usize]
    requires { number < length all.now }
    ensures { (k : KnownValue) → slice_get all.now number ≡ Some k → result.now ≡ k.longer.items }
{
    &all[number].longer
}

/// The number of the history of a number with one event more, where it has one.
fn find_longer(all: &[Known], number: usize, event: &Event) -> Option<usize>
    requires within { number < length all.now }
    requires numbered { AreNumbered all.now }
    ensures some { IfSome result (λ n. (p : KnownValue) → slice_get all.now number ≡ Some p →
        IsOf all.now n (p.events.items ++ event.now ∷ [])) }
    ensures none { IfNone result ((p : KnownValue) → slice_get all.now number ≡ Some p →
        HasNone all.now (p.events.items ++ event.now ∷ [])) }
{
    let longer = longer_of(all, number);
    for at in 0..longer.len() {
        if has_last(all, longer[at], event) {
            return Some(longer[at]);
        }
    }
    None
}

/// The history without events alone. The only refusal is that memory ran out.
pub fn none(alloc: Global) -> Result<Vec<Known>, AllocError>
    ensures { IfOk result (λ all. AreNumbered all.items) }
{
    let mut all = Vec::new(alloc);
    all.push(Known {
        events: Vec::new(alloc),
        before: 0,
        longer: Vec::new(alloc),
    })?;
    Ok(all)
}

/// These events, and one more.
fn with_event(alloc: Global, events: &[Event], event: &Event) -> Result<Vec<Event>, AllocError>
    ensures { IfOk result (λ v. v.items ≡ events.now ++ event.now ∷ []) }
{
    let mut more: Vec<Event> = events.iter().copied().collect(alloc)?;
    more.push(*event)?;
    Ok(more)
}

/// The history of a number with one event more.
fn longer_than(
    alloc: Global,
    all: &[Known],
    number: usize,
    event: &Event,
) -> Result<Known, AllocError>
    requires { number < length all.now }
    ensures events { IfOk result (λ k. (p : KnownValue) → slice_get all.now number ≡ Some p →
        k.events.items ≡ p.events.items ++ event.now ∷ []) }
    ensures before { IfOk result (λ k. k.before ≡ number) }
    ensures longer { IfOk result (λ k. k.longer.items ≡ []) }
{
    let events = with_event(alloc, &all[number].events, event)?;
    Ok(Known {
        events,
        before: number,
        longer: Vec::new(alloc),
    })
}

/// Notes a number as that of a history with one event more than that of another number.
fn note_longer(known: &mut Known, longer: usize) -> Result<(), AllocError>
    ensures events { known.new.events.items ≡ known.old.events.items }
    ensures before { known.new.before ≡ known.old.before }
    ensures longer { OnOk result (known.new.longer.items ≡ known.old.longer.items ++ longer ∷ []) }
{
    known.longer.push(longer)?;
    Ok(())
}

/// Adds the history of a number with one event more, which has none.
fn add_longer(
    alloc: Global,
    all: &mut Vec<Known>,
    number: usize,
    event: &Event,
) -> Result<usize, AllocError>
    requires within { number < length all.old.items }
    requires numbered { AreNumbered all.old.items }
    requires none { (p : KnownValue) → slice_get all.old.items number ≡ Some p →
        HasNone all.old.items (p.events.items ++ event.now ∷ []) }
    ensures is { IfOk result (λ n. (p : KnownValue) → slice_get all.old.items number ≡ Some p →
        IsOf all.new.items n (p.events.items ++ event.now ∷ [])) }
    ensures numbered { OnOk result (AreNumbered all.new.items) }
    ensures keeps { OnOk result (Keeps all.old.items all.new.items) }
{
    let more = all.len();
    let known = longer_than(alloc, all, number, event)?;
    note_longer(&mut all[number], more)?;
    all.push(known)?;
    Ok(more)
}

/// The number of the history of a number with one event more, which is added if it has none.
fn number_after(
    alloc: Global,
    all: &mut Vec<Known>,
    number: usize,
    event: &Event,
) -> Result<usize, AllocError>
    requires within { number < length all.old.items }
    requires numbered { AreNumbered all.old.items }
    ensures is { IfOk result (λ n. (p : KnownValue) → slice_get all.old.items number ≡ Some p →
        IsOf all.new.items n (p.events.items ++ event.now ∷ [])) }
    ensures numbered { OnOk result (AreNumbered all.new.items) }
    ensures keeps { OnOk result (Keeps all.old.items all.new.items) }
{
    match find_longer(all, number, event) {
        Some(longer) => Ok(longer),
        None => add_longer(alloc, all, number, event),
    }
}

/// The number of a history, which is added with its beginnings if it has none. The only refusal is that memory ran out.
pub fn number_of(
    alloc: Global,
    all: &mut Vec<Known>,
    history: &[Event],
) -> Result<usize, AllocError>
    requires { AreNumbered all.old.items }
    ensures is { IfOk result (λ n. IsOf all.new.items n history.now) }
    ensures numbered { OnOk result (AreNumbered all.new.items) }
    ensures keeps { OnOk result (Keeps all.old.items all.new.items) }
{
    let mut number = 0;
    for at in 0..history.len() {
        let longer = number_after(alloc, all, number, &history[at])?;
        number = longer;
    }
    Ok(number)
}

/// The history at a place.
fn history_at(histories: &[Vec<Event>], at: usize) -> &[Event]
    requires { at < length histories.now }
    ensures { slice_get (map (λ w. w.items) histories.now) at ≡ Some result.now }
{
    &histories[at]
}

/// The numbers of histories, which are added with their beginnings if they have none. The only refusal is that memory
/// ran out.
pub fn number_all(
    alloc: Global,
    all: &mut Vec<Known>,
    histories: &[Vec<Event>],
) -> Result<Vec<usize>, AllocError>
    requires { AreNumbered all.old.items }
    ensures many { IfOk result (λ v. length v.items ≡ length histories.now) }
    ensures each { IfOk result (λ v. (i n : ℕ) → slice_get v.items i ≡ Some n → (h : List EventValue)
        × (slice_get (map (λ w. w.items) histories.now) i ≡ Some h) × IsOf all.new.items n h) }
    ensures numbered { OnOk result (AreNumbered all.new.items) }
{
    let mut numbers = Vec::new(alloc);
    for at in 0..histories.len() {
        let number = number_of(alloc, all, history_at(histories, at))?;
        numbers.push(number)?;
    }
    Ok(numbers)
}
