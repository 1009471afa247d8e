// The items of an array, as text.

ghost use Rattle.std.specs.Prelude.{◌≡◌, ◌++◌, OnOk, string_bytes};
ghost use Rattle.ls_source_store.specs.SeenThing.{items_of};
ghost use Rattle.ls_state.specs.Parts.{array_text, count_text, places_text, true_places};

use ls_events::value::Value;
use ls_source_store::value::truth_of;
use std::alloc::AllocError;
use std::collections::BTreeMap;
use std::fmt::Write;

/// Adds so many things, as `1 item` or `16 items`.
pub(crate) fn push_count(out: &mut String, count: u32, thing: &str) -> Result<(), AllocError>
    ensures { OnOk result (string_bytes out.new ≡ string_bytes out.old ++ count_text count thing.now) }
{
    write!(out, "{count} {thing}")?;
    if count == 1 {
        return Ok(());
    }
    out.push_str("s")
}

// Where the items are true, in the time of what was written, whatever the array's size.
fn push_places(out: &mut String, size: u32, items: &BTreeMap<u32, Value>) -> Result<(), AllocError>
    ensures { OnOk result (string_bytes out.new ≡ string_bytes out.old ++
        places_text (true_places size (items_of items.now))) }
{
    let mut has_one = false;
    for (place, item) in items.iter() {
        if *place < size && truth_of(*item) {
            out.push_str(if has_one { ", " } else { "true at " })?;
            write!(out, "{place}")?;
            has_one = true;
        }
    }
    if has_one {
        return Ok(());
    }
    out.push_str("all false")
}

/// Adds an array, as `16 items, true at 0, 3`.
pub fn push_array(
    out: &mut String,
    size: u32,
    items: &BTreeMap<u32, Value>,
) -> Result<(), AllocError>
    ensures { OnOk result (string_bytes out.new ≡ string_bytes out.old ++ array_text size (items_of items.now)) }
{
    push_count(out, size, "item")?;
    out.push_str(", ")?;
    push_places(out, size, items)
}
