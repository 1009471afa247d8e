// Values by name. Each name keeps the first value that it is given.

ghost use Rattle.std.specs.Prelude.{◌≡◌, IfErr, IfOk};
ghost use Rattle.ls_types_reading.specs.ByName.{entries_of, value_named, with_first};

use indexmap::IndexMap;
use std::alloc::{AllocError, Global};

/// The value of a name, or none.
pub fn value_named<V: Copy>(values: &IndexMap<String, V>, name: &str) -> Option<V>
    ensures { result ≡ value_named (entries_of values.now) name.now }
{
    values.get(name).copied()
}

/// ReadsAs a name its value, if it has none. If memory runs out, no name has another value than before.
pub fn give<V: Copy>(
    alloc: Global,
    values: &mut IndexMap<String, V>,
    name: &str,
    value: V,
) -> Result<(), AllocError>
    ensures given { IfOk result (λ _. entries_of values.new ≡ with_first (entries_of values.old) name.now value) }
    ensures kept { IfErr result (λ _. entries_of values.new ≡ entries_of values.old) }
{
    if values.contains_key(name) {
        return Ok(());
    }
    values.insert(String::from_str(alloc, name)?, value)?;
    Ok(())
}
