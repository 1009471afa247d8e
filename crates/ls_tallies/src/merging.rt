// The merge of rows.

ghost use Rattle.std.specs.Prelude.{◌<◌, ◌^◌, map, IfOk};
ghost use Rattle.ls_tallies.specs.Plain.{plain_row};
ghost use Rattle.ls_tallies.specs.Tallies.{IsMerge, total_of};

use crate::gathering::gathered;
use crate::row::Row;
use std::alloc::{AllocError, Global};

/// The merge of rows: each distinct history once, with its counts added and its least seed, in order of seed.
pub fn merged<'a>(alloc: Global, rows: &[Row<'a>]) -> Result<Vec<Row<'a>>, AllocError>
    requires { total_of (map plain_row rows.now) < 2 ^ 64 }
    ensures { IfOk result (λ merge. IsMerge (map plain_row rows.now) (map plain_row merge.items)) }
{
    let mut all = gathered(alloc, rows)?;
    all.sort()?;
    Ok(all)
}
