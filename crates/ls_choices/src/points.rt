// States by numbers, and those after a step.

ghost use Rattle.std.specs.Prelude.{◌≡◌, ◌<◌, ◌++◌, IfOk, IsTrue, length, option_to_list, slice_set};
ghost use Rattle.ls_labels.specs.Labels.{label_of};
ghost use Rattle.ls_trace.specs.Told.{call_noted};
ghost use Rattle.ls_transitions.specs.Seen.{table_of};
ghost use Rattle.ls_choices.specs.Points.{IsSamePoint};

use ls_labels::label::Label;
use ls_search::advancing::take;
use ls_search::places::NumberedState;
use ls_search::searching::copy_place;
use ls_trace::teller::note;
use ls_transitions::hashing;
use ls_transitions::moves::Step;
use ls_transitions::transitions::Transitions;
use std::alloc::{AllocError, Global};

/// A state by numbers, with the labels of its objects and the number of each thread's last call.
#[derive(Drop)]
pub struct Point {
    pub(crate) place: NumberedState,
    pub(crate) labels: Vec<Label>,
    pub(crate) calls: Vec<usize>,
    /// How many steps led there from the start, when it was found.
    pub(crate) steps: usize,
    /// 1 for each object, and 1 for each 16 of these steps.
    pub(crate) weight: usize,
}

// Whether a label is the other.
fn is_same_label(label: Label, other: Label) -> bool
    ensures { IsTrue result → label ≡ other }
{
    match (label, other) {
        (Label::Class(a), Label::Class(b)) => a == b,
        (Label::Lock, Label::Lock) => true,
        (Label::Markable, Label::Markable) => true,
        (Label::Array, Label::Array) => true,
        _ => false,
    }
}

// Whether labels are the same, one by one.
fn are_same_labels(labels: &[Label], others: &[Label]) -> bool
    ensures { IsTrue result → labels.now ≡ others.now }
{
    if labels.len() != others.len() {
        return false;
    }
    for i in 0..labels.len() {
        if !is_same_label(labels[i], others[i]) {
            return false;
        }
    }
    true
}

// Whether numbers are the same, one by one.
fn are_same_numbers(numbers: &[usize], others: &[usize]) -> bool
    ensures { IsTrue result → numbers.now ≡ others.now }
{
    numbers == others
}

/// What a state weighs, by its store and the steps that led there.
pub(crate) fn weigh(transitions: &Transitions<'_>, store: usize, steps: usize) -> usize
    requires { store < length (table_of transitions.now).stores }
{
    let objects = transitions.store_at(store).things.len();
    objects.saturating_add(steps / 16)
}

impl Point {
    /// Whether later lines depend on the same. True only where they do.
    pub(crate) fn is_same(&self, other: &Point) -> bool
        ensures { IsTrue result → IsSamePoint self.now other.now }
    {
        self.place.store == other.place.store
            && are_same_numbers(&self.place.works, &other.place.works)
            && are_same_labels(&self.labels, &other.labels)
            && are_same_numbers(&self.calls, &other.calls)
    }

    /// A number by which the same states are looked for. Nothing depends on it.
    pub(crate) fn hash(&self) -> u64 {
        let mut hash = hashing::hash_of_key(1, self.place.store, self.labels.len());
        for work in &self.place.works {
            hash = hashing::hash_of_key(2, hash as usize, *work);
        }
        for call in &self.calls {
            hash = hashing::hash_of_key(3, hash as usize, *call);
        }
        hash
    }

    /// The state after a step of a thread. The only refusal is that memory ran out.
    pub(crate) fn after(
        &self,
        alloc: Global,
        transitions: &Transitions<'_>,
        thread: usize,
        step: &Step,
    ) -> Result<Point, AllocError>
        requires within { thread < length self.now.place.works.items }
        requires store { step.now.store < length (table_of transitions.now).stores }
        ensures store { IfOk result (λ p. p.place.store ≡ step.now.store) }
        ensures works { IfOk result (λ p. p.place.works.items ≡
            slice_set self.now.place.works.items thread step.now.work) }
        ensures labels { IfOk result (λ p. p.labels.items ≡ self.now.labels.items ++
            option_to_list (label_of step.now.action)) }
        ensures calls { IfOk result (λ p. p.calls.items ≡
            call_noted self.now.calls.items thread step.now.action) }
    {
        let mut place = copy_place(alloc, &self.place)?;
        take(&mut place, thread, step);
        let mut labels = Vec::new(alloc);
        labels.extend_from_slice(&self.labels)?;
        let mut calls = Vec::new(alloc);
        calls.extend_from_slice(&self.calls)?;
        note(&mut labels, &mut calls, thread, &step.action)?;
        let steps = self.steps.saturating_add(1);
        let weight = weigh(transitions, place.store, steps);
        Ok(Point {
            place,
            labels,
            calls,
            steps,
            weight,
        })
    }
}
