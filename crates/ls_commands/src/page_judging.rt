// What `check` says of a history that was printed.

ghost use Rattle.ls_faults.specs.Given.{GivesText};
ghost use Rattle.ls_faults.specs.ReadBack.{IsHistoryText};
ghost use Rattle.ls_commands.specs.Paged.{JudgesTo};

use crate::checking::verdict_text;
use ls_faults::fault::ToolFault;
use ls_orders::{check_order, read_order};
use ls_report::read_history;
use std::alloc::Global;

/// The verdict on an order of a history. Refused if the order is no order, or if memory runs out.
pub(crate) fn judge(alloc: Global, history: &str, order: &str) -> Result<String, ToolFault>
    requires { IsHistoryText history.now }
    ensures { GivesText (JudgesTo history.now order.now) result }
{
    let history = read_history(alloc, history)?;
    let order = read_order(alloc, order)?;
    let verdict = check_order(alloc, &history, &order)?;
    Ok(verdict_text(alloc, &verdict)?)
}
