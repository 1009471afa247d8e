// Each distinct history once, in the order in which they come.

ghost use Rattle.std.specs.Prelude.{◌≡◌, ◌+◌, ◌<◌, ◌^◌, [], Some, None, map, if◌then◌else◌, IfOk, OnOk};
ghost use Rattle.std.specs.Str.{bytes_eq};
ghost use Rattle.ls_report.specs.Events.{Text};
ghost use Rattle.ls_tallies.specs.Places.{IsIndexed, kept_place, place_in, rows_of};
ghost use Rattle.ls_tallies.specs.Plain.{plain_row};
ghost use Rattle.ls_tallies.specs.Tallies.{added, gathered, joined, total_of};

use crate::row::Row;
use std::alloc::{AllocError, Global};
use std::collections::BTreeMap;

/// The rows so far, and for each history the place of its row. So the time of a search grows with the logarithm of
/// their number.
#[derive(Drop)]
pub(crate) struct Gathering<'a> {
    pub(crate) rows: Vec<Row<'a>>,
    pub(crate) places: BTreeMap<&'a str, usize>,
}

/// Puts the place of the history's row.
fn put_place<'a>(
    places: &mut BTreeMap<&'a str, usize>,
    history: &'a str,
    place: usize,
) -> Result<(), AllocError>
    ensures { OnOk result ((q : Text) → kept_place places.new q
        ≡ (if bytes_eq history.now q then Some place else kept_place places.old q)) }
{
    places.insert(history, place)?;
    Ok(())
}

/// Two rows of one history as one.
fn joined<'a>(old: Row<'a>, row: Row<'a>) -> Row<'a>
    requires { old.count + row.count < 2 ^ 64 }
    ensures { plain_row result ≡ joined (plain_row old.entry) (plain_row row.entry) }
{
    Row {
        seed: old.seed.min(row.seed),
        history: old.history,
        count: old.count + row.count,
    }
}

impl<'a> Gathering<'a> {
    fn new(alloc: Global) -> Gathering<'a>
        ensures rows { rows_of result ≡ [] }
        ensures indexed { IsIndexed result }
    {
        Gathering {
            rows: Vec::new(alloc),
            places: BTreeMap::new(alloc),
        }
    }

    fn place_of(&self, history: &str) -> Option<usize>
        requires { IsIndexed self.now }
        ensures { result ≡ place_in (rows_of self.now) history.now }
    {
        self.places.get(history).copied()
    }

    /// Puts a row of a new history at the end.
    fn push(&mut self, row: Row<'a>) -> Result<(), AllocError>
        requires indexed { IsIndexed self.old }
        requires new { place_in (rows_of self.old) row.history.now ≡ None }
        ensures rows { OnOk result (rows_of self.new ≡ added (rows_of self.old) (plain_row row.entry)) }
        ensures indexed { OnOk result (IsIndexed self.new) }
    {
        put_place(&mut self.places, row.history, self.rows.len())?;
        self.rows.push(row)?;
        Ok(())
    }

    /// Joins a row to the one at this place, of the same history.
    fn join(&mut self, place: usize, row: Row<'a>)
        requires indexed { IsIndexed self.old }
        requires there { place_in (rows_of self.old) row.history.now ≡ Some place }
        requires fits { total_of (rows_of self.old) + row.count < 2 ^ 64 }
        ensures rows { rows_of self.new ≡ added (rows_of self.old) (plain_row row.entry) }
        ensures indexed { IsIndexed self.new }
    {
        self.rows[place] = joined(self.rows[place], row);
    }

    fn add(&mut self, row: Row<'a>) -> Result<(), AllocError>
        requires indexed { IsIndexed self.old }
        requires fits { total_of (rows_of self.old) + row.count < 2 ^ 64 }
        ensures rows { OnOk result (rows_of self.new ≡ added (rows_of self.old) (plain_row row.entry)) }
        ensures indexed { OnOk result (IsIndexed self.new) }
    {
        match self.place_of(row.history) {
            Some(place) => {
                self.join(place, row);
                Ok(())
            }
            None => self.push(row),
        }
    }
}

/// Each distinct history once: the counts of its rows are added, and their least seed is kept.
pub(crate) fn gathered<'a>(alloc: Global, rows: &[Row<'a>]) -> Result<Vec<Row<'a>>, AllocError>
    requires { total_of (map plain_row rows.now) < 2 ^ 64 }
    ensures { IfOk result (λ all. map plain_row all.items ≡ gathered (map plain_row rows.now)) }
{
    let mut all = Gathering::new(alloc);
    for row in rows {
        all.add(*row)?;
    }
    let Gathering { rows, places: _ } = all;
    Ok(rows)
}
