// The law, as the contract of a function that computes nothing.

ghost use Rattle.ls_serial_orders.specs.Once.{ReadableIsOnce};

/// If the events of a run, with their names, are a history of a history text, then none of them stands at two places.
pub fn readable_is_once()
    ensures { ReadableIsOnce }
{}
