// What an object is called.

ghost use Rattle.std.specs.Prelude.{◌≡◌};
ghost use Rattle.ls_labels.specs.Labels.{label_of};

use ls_events::action::Action;
use ls_events::value::Value;
use std::alloc::AllocError;

/// What an object is called, without its number: its class by number, or a type of the library or of the language.
#[derive(Copy, PartialEq, Eq)]
pub enum Label {
    Class(usize),
    Lock,
    Markable,
    Array,
}

impl Clone for Label {
    fn clone(&self) -> Result<Label, AllocError> {
        Ok(*self)
    }
}

/// The label of what an action makes, or none if it makes no object.
pub fn label_of(action: Action<Value>) -> Option<Label>
    ensures { result ≡ label_of action }
{
    match action {
        Action::New(class) => Some(Label::Class(class)),
        Action::NewLock => Some(Label::Lock),
        Action::NewMarkable(_) => Some(Label::Markable),
        Action::NewArray(_) => Some(Label::Array),
        _ => None,
    }
}
