// How many seeds there are in all.

ghost use Rattle.std.specs.Prelude.{◌≡◌, ◌≤◌, ◌^◌, map, IfNone, IfSome};
ghost use Rattle.ls_tallies.specs.Plain.{plain_row};
ghost use Rattle.ls_tallies.specs.Tallies.{total_of};

use crate::row::Row;

/// The sum of all counts, if it has 64 bits.
pub fn total(rows: &[Row<'_>]) -> Option<u64>
    ensures some { IfSome result (λ n. n ≡ total_of (map plain_row rows.now)) }
    ensures none { IfNone result (2 ^ 64 ≤ total_of (map plain_row rows.now)) }
{
    let mut total = 0u64;
    for row in rows {
        total = total.checked_add(row.count)?;
    }
    Some(total)
}
