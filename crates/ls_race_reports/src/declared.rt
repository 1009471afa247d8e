// Which fields a class text declares volatile.

ghost use Rattle.std.specs.Prelude.{◌↔◌, IfOk, IsTrue, codes, map};
ghost use Rattle.std.specs.Str.Iter.{HasSubslice};
ghost use Rattle.ls_race_reports.specs.ClassFlags.{AreFlags};

use ls_parser::parsing::parse_text;
use ls_races::flags_of;
use std::alloc::{AllocError, Global};

/// For each class of a text whether its fields are declared volatile. A text that spells no file is refused as where
/// memory runs out: it isn't compiled.
pub fn flags_in(alloc: Global, classes: &str) -> Result<Vec<Vec<bool>>, AllocError>
    ensures { IfOk result (λ v. AreFlags classes.now (map (λ f. f.items) v.items)) }
{
    let Ok(file) = parse_text(alloc, classes) else {
        return Err(AllocError);
    };
    let flags = flags_of(alloc, file.classes())?;
    Ok(flags)
}

/// Whether `tryLock` stands in a class text.
pub fn has_try_lock(classes: &str) -> bool
    ensures { IsTrue result ↔ HasSubslice classes.now (codes "tryLock") }
{
    classes.contains("tryLock")
}
