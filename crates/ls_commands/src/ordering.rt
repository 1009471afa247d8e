// The command `order`.

ghost use Rattle.ls_commands.specs.Ordered.{OrdersTo};
ghost use Rattle.ls_faults.specs.Given.{GivesText};

use crate::checking::with_feed;
use ls_faults::fault::ToolFault;
use ls_order_search::tell;
use std::alloc::Global;

/// A legal order of a history, or the event with which there is none.
pub fn order(alloc: Global, history: &str) -> Result<String, ToolFault>
    ensures { GivesText (OrdersTo history.now) result }
{
    let history = with_feed(alloc, history)?;
    let text = tell(alloc, history.as_str())?;
    Ok(text)
}
