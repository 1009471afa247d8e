// Rows in order.

ghost use Rattle.std.specs.Prelude.{◌≡◌, IsPermutation, IsSorted};
ghost use Rattle.ls_source_rows.specs.Rows.{row_order};

use crate::rows::Row;
use std::cmp::Ordering;

/// How a row stands to another: the shorter path comes first, and of two of one length the lesser.
fn order_of(row: &Row, other: &Row) -> Ordering
    ensures { result ≡ row_order row.now other.now }
{
    match row.path.len().cmp(&other.path.len()) {
        Ordering::Less => Ordering::Less,
        Ordering::Equal => row.path.as_slice().cmp(other.path.as_slice()),
        Ordering::Greater => Ordering::Greater,
    }
}

/// The same rows in order.
pub(crate) fn in_order(rows: Vec<Row>) -> Vec<Row>
    ensures same { IsPermutation rows.items result.items }
    ensures order { IsSorted row_order result.items }
{
    let mut rows = rows;
    rows.sort_unstable_by(|a, b| order_of(a, b));
    rows
}
