// Texts of steps, kept while steps are told.

ghost use Rattle.std.specs.Prelude.{◌≡◌, ◌<◌, ◌++◌, All, IfOk, IsTrue, OnOk, length, slice_index_or, string_bytes};
ghost use Rattle.ls_labels.specs.Labelled.{labelled_field, labelled_text};
ghost use Rattle.ls_labels.specs.Names.{names_of};
ghost use Rattle.ls_trace.specs.Deeds.{IsOfKey, call_words, deed_words, key_words, owned_text, tail_text};
ghost use Rattle.ls_trace.specs.declared.heads.Head.{Head};

use crate::deed::{Deed, DeedKind};
use ls_events::action::Action;
use ls_events::value::Value;
use ls_labels::label::Label;
use ls_labels::names::{Names, push_method};
use ls_labels::numbers::push_number;
use ls_labels::objects::{add_labelled, add_value};
use ls_labels::threads::thread_name;
use ls_labels::words::add_labelled_field;
use ls_report::object_name;
use std::alloc::{AllocError, Global};

/// A deed of a thread in a call, and the label of its object.
#[derive(Copy, PartialEq, Eq)]
pub struct Key {
    pub(crate) thread: usize,
    pub(crate) call: usize,
    pub(crate) deed: Deed,
    pub(crate) label: Option<Label>,
}

impl Clone for Key {
    fn clone(&self) -> Result<Key, AllocError> {
        Ok(*self)
    }
}

/// What was told of a step up to the values in it.
#[derive(Drop)]
pub(crate) struct Head {
    key: Key,
    text: String,
}

/// What was told last at each place. A key has one place.
#[derive(Drop)]
pub struct Heads {
    kept: Vec<Head>,
}

// How many heads are kept.
const PLACES: usize = 256;

#[inline(always)]
fn same_key(first: &Key, second: &Key) -> bool
    ensures { IsTrue result → first.now ≡ second.now }
{
    *first == *second
}

// The place of a key.
#[inline(always)]
fn place_of(key: &Key) -> usize {
    let object = (key.deed.object % 256) as usize;
    (object * 16 + key.deed.part % 32 * 64 + key.deed.kind as usize + key.thread % 256 * 32)
        % PLACES
}

/// Adds a thread with a call, as `A.1 `. The only refusal is that memory ran out.
pub(crate) fn push_call(
    out: &mut String,
    names: &Names,
    thread: usize,
    call: usize,
) -> Result<(), AllocError>
    ensures { OnOk result (string_bytes out.new ≡ string_bytes out.old ++ call_words (names_of names.now) thread call) }
{
    out.push_str(thread_name(names.program, thread))?;
    out.push('.')?;
    push_number(out, call as u64)?;
    out.push(' ')
}

// Adds a lock or a monitor with its owner, after what is said of it.
fn push_owned(out: &mut String, names: &Names, what: &str, key: &Key) -> Result<(), AllocError>
    ensures { OnOk result (string_bytes out.new
        ≡ string_bytes out.old
        ++ (what.now ++ owned_text (names_of names.now) key.now.label key.now.deed.object key.now.deed.part)) }
{
    out.push_str(what)?;
    add_labelled(out, names, key.label, key.deed.object)?;
    out.push_str(", which ")?;
    out.push_str(thread_name(names.program, key.deed.part))?;
    out.push_str(" owns")
}

// `verb` and an object.
fn push_on(out: &mut String, names: &Names, verb: &str, key: &Key) -> Result<(), AllocError>
    ensures { OnOk result (string_bytes out.new
        ≡ string_bytes out.old ++ (verb.now ++ labelled_text (names_of names.now) key.now.label key.now.deed.object)) }
{
    out.push_str(verb)?;
    add_labelled(out, names, key.label, key.deed.object)
}

// `verb` and a field of an object.
fn push_on_field(out: &mut String, names: &Names, verb: &str, key: &Key) -> Result<(), AllocError>
    ensures { OnOk result (string_bytes out.new
        ≡ string_bytes out.old
        ++ (verb.now ++ labelled_field (names_of names.now) key.now.label key.now.deed.object key.now.deed.part)) }
{
    out.push_str(verb)?;
    add_labelled_field(out, names, key.label, key.deed.object, key.deed.part)
}

// Adds a deed.
fn push_deed(out: &mut String, names: &Names, key: &Key) -> Result<(), AllocError>
    ensures { OnOk result (string_bytes out.new
        ≡ string_bytes out.old ++ deed_words (names_of names.now) key.now.label key.now.deed) }
{
    match key.deed.kind {
        DeedKind::ReadsField => push_on_field(out, names, "reads ", key),
        DeedKind::WritesField => {
            push_on_field(out, names, "writes ", key)?;
            out.push_str(": ")
        }
        DeedKind::ReadsName => {
            out.push_str("reads ")?;
            out.push_str(object_name(names.program, key.deed.part))
        }
        DeedKind::Turns => out.push_str("goes round a loop"),
        DeedKind::Enters => {
            out.push_str("enters ")?;
            push_method(out, *names, key.deed.part)
        }
        DeedKind::Locks => push_on(out, names, "locks ", key),
        DeedKind::Unlocks => push_on(out, names, "unlocks ", key),
        DeedKind::Tries => push_on(out, names, "tries ", key),
        DeedKind::AsksIfHeld => push_on(out, names, "asks whether it holds ", key),
        DeedKind::LocksMonitor => push_on(out, names, "locks the monitor of ", key),
        DeedKind::UnlocksMonitor => push_on(out, names, "unlocks the monitor of ", key),
        DeedKind::ReadsPair => push_on(out, names, "reads ", key),
        DeedKind::WaitsForLock => push_owned(out, names, "waits for ", key),
        DeedKind::WaitsForMonitor => push_owned(out, names, "waits for the monitor of ", key),
    }
}

/// Adds the value that an action writes, after what is told of the action before it.
pub(crate) fn push_tail(
    out: &mut String,
    names: &Names,
    labels: &[Label],
    action: &Action<Value>,
) -> Result<(), AllocError>
    ensures { OnOk result (string_bytes out.new
        ≡ string_bytes out.old ++ tail_text (names_of names.now) labels.now action.now) }
{
    match action {
        Action::WriteField { value, .. } => add_value(out, names, labels, value),
        _ => Ok(()),
    }
}

impl Head {
    // The head of this key. Where memory is short, it may be of none.
    fn fill(&mut self, names: &Names, key: &Key) -> Result<(), AllocError>
        ensures text { OnOk result (IsOfKey (names_of names.now) self.new) }
        ensures key { OnOk result (self.new.key ≡ key.now) }
    {
        self.text.clear();
        push_call(&mut self.text, names, key.thread, key.call)?;
        push_deed(&mut self.text, names, key)?;
        self.key = *key;
        Ok(())
    }
}

// The head of the setup's first turn of a loop.
fn first_head(alloc: Global, names: &Names) -> Result<Head, AllocError>
    ensures { IfOk result (λ h. IsOfKey (names_of names.now) h) }
{
    let deed = Deed {
        kind: DeedKind::Turns,
        object: 0,
        part: 0,
    };
    let key = Key {
        thread: 0,
        call: 0,
        deed,
        label: None,
    };
    let mut head = Head {
        key,
        text: String::new(alloc),
    };
    head.fill(names, &key)?;
    Ok(head)
}

impl Heads {
    /// A head at each place.
    pub(crate) fn new(alloc: Global, names: &Names) -> Result<Heads, AllocError>
        ensures { IfOk result (λ h. All (IsOfKey (names_of names.now)) h.kept.items) }
    {
        let mut kept = Vec::new(alloc);
        for _place in 0..PLACES {
            kept.push(first_head(alloc, names)?)?;
        }
        Ok(Heads { kept })
    }

    // The head of a key stands at a place.
    fn hold(&mut self, names: &Names, key: &Key, place: usize) -> Result<(), AllocError>
        requires within { place < length self.old.kept.items }
        requires texts { All (IsOfKey (names_of names.now)) self.old.kept.items }
        ensures texts { OnOk result (All (IsOfKey (names_of names.now)) self.new.kept.items) }
        ensures length { length self.new.kept.items ≡ length self.old.kept.items }
        ensures key { OnOk result ((d : Head) → (slice_index_or self.new.kept.items place d).key ≡ key.now) }
    {
        if same_key(&self.kept[place].key, key) {
            return Ok(());
        }
        self.kept[place].fill(names, key)
    }

    /// Adds what is told of a key. The only refusal is that memory ran out.
    pub(crate) fn push(
        &mut self,
        out: &mut String,
        names: &Names,
        key: &Key,
    ) -> Result<(), AllocError>
        requires { All (IsOfKey (names_of names.now)) self.old.kept.items }
        ensures texts { OnOk result (All (IsOfKey (names_of names.now)) self.new.kept.items) }
        ensures out { OnOk result (string_bytes out.new
            ≡ string_bytes out.old ++ key_words (names_of names.now) key.now) }
    {
        let place = place_of(key);
        if place >= self.kept.len() {
            push_call(out, names, key.thread, key.call)?;
            return push_deed(out, names, key);
        }
        self.hold(names, key, place)?;
        out.push_str(self.kept[place].text.as_str())
    }
}
