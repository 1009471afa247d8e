// Reading tallies.

ghost use Rattle.std.specs.Prelude.{◌≡◌, List, map, IfErr, IfOk};
ghost use Rattle.ls_tallies.specs.Plain.{plain_row};
ghost use Rattle.ls_tallies.specs.Tallies.{Row as ghost_Row};
ghost use Rattle.ls_tallies.specs.Reading.{Explains, Lists};
ghost use Rattle.ls_tallies.specs.declared.fault.TallyFault.TheVariants.{Memory};

use crate::Row;
use crate::entries::entry_in;
use crate::fault::TallyFault;
use ls_report::cuts::cut;
use std::alloc::Global;

/// The rows of the tallies whose texts stand one after another, with lines `%%` between them or without. Otherwise the
/// fault says where a row would have to begin, or a line `%%`, and neither does.
pub fn read_rows<'a>(alloc: Global, text: &'a str) -> Result<Vec<Row<'a>>, TallyFault>
    ensures found { IfOk result (λ rows. Lists text.now (map plain_row rows.items)) }
    ensures only { (all : List ghost_Row) → Lists text.now all → IfOk result (λ rows. map plain_row rows.items ≡ all) }
    ensures accepts { (all : List ghost_Row) → Lists text.now all → IfErr result (λ fault. fault ≡ Memory) }
    ensures fault { IfErr result (Explains text.now) }
{
    let length = text.len();
    let mut printed = String::new(alloc);
    let mut rows = Vec::new(alloc);
    let mut rest = text;
    while let Some((line, after)) = cut(rest, '\n') {
        if line == "%%" {
            rest = after;
            continue;
        }
        let at = length - rest.len();
        let Some((row, after)) = entry_in(alloc, &mut printed, line, after)? else {
            return Err(TallyFault::BadTally { at });
        };
        rows.push(row)?;
        rest = after;
    }
    if !rest.is_empty() {
        let at = length - rest.len();
        return Err(TallyFault::BadTally { at });
    }
    Ok(rows)
}
