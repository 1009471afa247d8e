// What restating works with.

ghost use Rattle.std.specs.Prelude.{◌≡◌, ◌+◌, IfOk};

use crate::needs::Needs;
use crate::remarks::{Note, Refusal, Stop, What, Why};
use crate::ropes::{Ropes, Text};
use crate::shapes::Shape;
use crate::tables::Tables;
use crate::values::Kind;
use crate::words::{WordId, Words};
use ls_java_tree::names::Name;
use std::alloc::Global;

/// A local that is declared: its name in the file, and the one that it gets.
#[derive(Clone, Copy)]
pub struct Local {
    pub name: WordId,
    pub out: WordId,
    pub kind: Kind,
}

/// What a statement stands in.
#[derive(Clone, Copy, PartialEq, Eq)]
pub enum Around {
    Method,
    Block,
    If,
    Loop,
    Switch,
}

/// Where restating is: the class, and the method or the constructor, if it is in one; whether it is in a static member;
/// what the method gives, what kind is wanted of the next expression, and the label of the next loop.
#[derive(Clone, Copy)]
pub struct Place {
    pub class: usize,
    pub method: Option<usize>,
    pub constructor: Option<usize>,
    pub is_static: bool,
    pub result: Kind,
    pub wanted: Option<Kind>,
    pub label: Option<WordId>,
}

/// What is found while restating: which objects `wait` is called on, whether the length of a `boolean[]` is asked,
/// which methods need the thread's number, which classes name members of the class around them, and of which split
/// classes the objects name static members. `again` says that something new was found, so that restating begins again.
#[derive(Drop)]
pub struct Facts {
    pub waiters: Vec<Kind>,
    pub boolean_lengths: bool,
    pub numbered: Vec<usize>,
    pub handed_outer: Vec<usize>,
    pub handed_statics: Vec<usize>,
    pub again: bool,
}

/// The names of the members and parameters that are added.
#[derive(Clone, Copy)]
pub struct Added {
    pub outer: WordId,
    pub statics: WordId,
    pub monitor: WordId,
    pub waiters: WordId,
    pub me: WordId,
}

/// What is known, found and written of a file.
#[derive(Drop)]
pub struct Restater {
    pub alloc: Global,
    pub shapes: Vec<Shape>,
    pub words: Words,
    pub ropes: Ropes,
    pub tables: Tables,
    pub facts: Facts,
    pub needs: Needs,
    pub added: Added,
    pub notes: Vec<Note>,
    pub refusals: Vec<Refusal>,
    pub locals: Vec<Local>,
    pub around: Vec<Around>,
    pub place: Place,
}

/// The height that is left for what is one node deeper.
pub fn deeper(limit: usize) -> Result<usize, Stop>
    ensures { IfOk result (λ inner. inner + 1 ≡ limit) }
{
    if limit == 0 {
        return Err(Stop::TooDeep);
    }
    Ok(limit - 1)
}

/// The word of a text.
pub fn word_of(restater: &mut Restater, text: &str) -> Result<WordId, Stop> {
    Ok(restater.words.number(restater.alloc, text)?)
}

/// The text of a word.
pub fn text_of<'r>(restater: &'r Restater, word: WordId) -> &'r str {
    restater.words.text(word)
}

/// The word of a name of the tree.
pub fn name_of(restater: &Restater, name: &Name) -> WordId {
    restater.words.of(name)
}

/// Whether the text of a name is this one.
pub fn is_named(name: &Name, text: &str) -> bool {
    name.text.as_str() == text
}

/// A word that stands nowhere in the file, and that wasn't made before: this one, or with a number behind it.
pub fn fresh(restater: &mut Restater, base: &str) -> Result<WordId, Stop> {
    if !restater.words.has(base) {
        return word_of(restater, base);
    }
    let base = word_of(restater, base)?;
    for _ in 0..restater.words.len().saturating_add(2) {
        let number = restater.words.next_number(base)?;
        let text = format!(in restater.alloc; "{}{number}", restater.words.text(base))?;
        if !restater.words.has(text.as_str()) {
            return word_of(restater, text.as_str());
        }
    }
    Err(Stop::Memory)
}

/// A note.
pub fn note(restater: &mut Restater, token: usize, what: What) -> Result<(), Stop> {
    note_word(restater, token, Words::NONE, what)
}

/// A note with a word.
pub fn note_word(
    restater: &mut Restater,
    token: usize,
    word: WordId,
    what: What,
) -> Result<(), Stop> {
    let one = Note { token, word, what };
    if !restater.notes.contains(&one) {
        restater.notes.push(one)?;
    }
    Ok(())
}

/// A refusal.
pub fn refuse<T>(restater: &mut Restater, token: usize, why: Why) -> Result<T, Stop> {
    refuse_word(restater, token, Words::NONE, why)
}

/// A refusal with a word.
pub fn refuse_word<T>(
    restater: &mut Restater,
    token: usize,
    word: WordId,
    why: Why,
) -> Result<T, Stop> {
    restater.refusals.push(Refusal { token, word, why })?;
    Err(Stop::Refused)
}

/// Something new was found, so that restating begins again.
fn found(restater: &mut Restater) {
    restater.facts.again = true;
}

/// `wait` is called on an object of a kind: its class gets a lock and a condition.
pub fn waits_on(restater: &mut Restater, kind: Kind) -> Result<(), Stop> {
    if !restater.facts.waiters.contains(&kind) {
        restater.facts.waiters.push(kind)?;
        found(restater);
    }
    Ok(())
}

/// Whether `wait` is called on objects of a kind.
pub fn is_waited_on(restater: &Restater, kind: Kind) -> bool {
    restater.facts.waiters.contains(&kind)
}

/// The length of a `boolean[]` is asked: it becomes a class.
pub fn asks_boolean_length(restater: &mut Restater) {
    if !restater.facts.boolean_lengths {
        restater.facts.boolean_lengths = true;
        found(restater);
    }
}

/// The method of a number needs the thread's number.
pub fn needs_number(restater: &mut Restater, method: usize) -> Result<(), Stop> {
    if !restater.facts.numbered.contains(&method) {
        restater.facts.numbered.push(method)?;
        found(restater);
    }
    Ok(())
}

/// The class of a number names members of the class around it.
pub fn needs_outer(restater: &mut Restater, class: usize) -> Result<(), Stop> {
    if !restater.facts.handed_outer.contains(&class) {
        restater.facts.handed_outer.push(class)?;
        found(restater);
    }
    Ok(())
}

/// The objects of a split class name its static members.
pub fn needs_statics(restater: &mut Restater, class: usize) -> Result<(), Stop> {
    if !restater.facts.handed_statics.contains(&class) {
        restater.facts.handed_statics.push(class)?;
        found(restater);
    }
    Ok(())
}

/// Whether objects of the class of a number are handed the object around them.
pub fn is_handed_outer(restater: &Restater, class: usize) -> bool {
    restater.facts.handed_outer.contains(&class)
}

/// Whether objects of the class of a number are handed the object of its static members.
pub fn is_handed_statics(restater: &Restater, class: usize) -> bool {
    restater.facts.handed_statics.contains(&class)
}

/// A local is declared.
pub fn declare(restater: &mut Restater, local: Local) -> Result<(), Stop> {
    Ok(restater.locals.push(local)?)
}

/// How many locals are declared: the mark to which `leave` goes back.
pub fn mark(restater: &Restater) -> usize {
    restater.locals.len()
}

/// The locals that were declared since a mark are left.
pub fn leave(restater: &mut Restater, mark: usize) {
    restater.locals.truncate(mark);
}

/// The local of a name that was declared last.
pub fn local_of(restater: &Restater, name: WordId) -> Option<Local> {
    for local in restater.locals.iter().rev() {
        if local.name == name {
            return Some(*local);
        }
    }
    None
}

/// A join of two texts.
pub fn join(restater: &mut Restater, left: Text, right: Text) -> Result<Text, Stop> {
    Ok(restater.ropes.join(left, right)?)
}
