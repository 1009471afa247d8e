// What is noted of a history.

ghost use Rattle.std.specs.Prelude.{◌≡◌, IfOk};
ghost use Rattle.std.specs.List.{fold};

use ls_events::event::Event;
use ls_observers::observer::Observer;
use std::alloc::{AllocError, Global};

/// What is noted of a history. The only refusal is that memory ran out.
pub fn noted_of<O: Observer>(
    alloc: Global,
    observer: &O,
    events: &[Event],
) -> Result<O::Noted, AllocError>
    ensures { IfOk result (λ n. O.stands observer.now n ≡
        fold (O.next observer.now) (O.first observer.now) events.now) }
{
    let mut noted = observer.start(alloc)?;
    for event in events {
        noted = observer.after(alloc, &noted, event)?;
    }
    Ok(noted)
}
