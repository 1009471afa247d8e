// Whether what a step of the source makes has room in the cells.

ghost use Rattle.std.specs.Prelude.{◌≡◌, ◌+◌, ◌<◌, IfNone, IfSome, length, map};
ghost use Rattle.ls_checked.specs.Plain.{plain_class};
ghost use Rattle.ls_preservation.specs.Sorts.{fields_of};
ghost use Rattle.ls_preservation.specs.Threads.{object_cells};
ghost use Rattle.ls_meaning.specs.Effect.{size_of};
ghost use Rattle.ls_translation.specs.Room.{cells_by, cells_made};

use ls_checked::tree::Class;
use ls_events::action::Action;
use ls_events::value::Value;
use ls_meaning::step::Did;

/// The cells of an object of a class: one for its monitor, and one for each field.
fn object_cells(classes: &[Class], class: usize) -> usize
    ensures { result ≡ object_cells (length (fields_of (map plain_class classes.now) class)) }
{
    match classes.get(class) {
        None => 1,
        Some(class) => class.fields.len() + 1,
    }
}

/// The cells of the items of an array.
fn item_cells(size: i32) -> usize
    ensures { result ≡ size_of size }
{
    if size < 0 {
        0
    } else {
        size.unsigned_abs() as usize
    }
}

/// The cells of what an action makes.
fn cells_made(classes: &[Class], action: Action<Value>) -> usize
    ensures { result ≡ cells_made (map plain_class classes.now) action }
{
    match action {
        Action::New(class) => object_cells(classes, class),
        Action::NewLock => 1,
        Action::NewMarkable(_) => 1,
        Action::NewArray(size) => item_cells(size) + 1,
        _ => 0,
    }
}

/// The cells of what a step makes.
fn cells_by(classes: &[Class], did: Did) -> usize
    ensures { result ≡ cells_by (map plain_class classes.now) did }
{
    match did {
        Did::Acted(action, _) => cells_made(classes, action),
        Did::Waits | Did::Idle => 0,
    }
}

/// The cells that are free after a step that did this, if what it makes has room.
pub fn free_after(classes: &[Class], free: usize, did: Did) -> Option<usize>
    ensures some { IfSome result (λ left. left + cells_by (map plain_class classes.now) did ≡ free) }
    ensures none { IfNone result (free < cells_by (map plain_class classes.now) did) }
{
    let cells = cells_by(classes, did);
    if free < cells {
        return None;
    }
    Some(free - cells)
}
