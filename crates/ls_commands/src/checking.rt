// The command `check`.

ghost use Rattle.std.specs.Prelude.{◌≡◌, ◌-◌, IfOk, length, slice_get, string_bytes};
ghost use Rattle.ls_orders.specs.Legal.{plain_verdict};
ghost use Rattle.ls_commands.specs.Check.{ChecksTo, ends_line, judgement_text, rule_text, with_feed};
ghost use Rattle.ls_faults.specs.Given.{GivesText};

use ls_faults::fault::ToolFault;
use ls_orders::{OrderRule, OrderVerdict, check_order, read_order};
use ls_report::read_history;
use std::alloc::{AllocError, Global};
use std::fmt::Write;

fn rule_text(rule: OrderRule) -> &'static str
    ensures { result.now ≡ rule_text rule }
{
    match rule {
        OrderRule::UnknownCall => "71",
        OrderRule::Repeated => "72",
        OrderRule::Missing => "73",
        OrderRule::AgainstTime => "74",
        OrderRule::WrongReply => "75",
        OrderRule::NotASetCall => "76",
    }
}

/// `legal`, or the rule that is broken and the call at which it is, in a line.
pub(crate) fn verdict_text(alloc: Global, verdict: &OrderVerdict) -> Result<String, AllocError>
    ensures { IfOk result (λ text. string_bytes text ≡ judgement_text (plain_verdict verdict.now)) }
{
    match verdict {
        OrderVerdict::Legal => String::from_str(alloc, "legal\n"),
        OrderVerdict::Broken { rule, call } => {
            let rule = rule_text(*rule);
            let call = call.as_str();
            format!(in alloc; "broken {rule} {call}\n")
        }
    }
}

/// Whether the part is empty or ends in a line feed.
fn ends_line(part: &[u8]) -> bool
    ensures { result ≡ ends_line (slice_get part.now (length part.now - 1)) }
{
    match part.last() {
        None => true,
        Some(byte) => *byte == b'\n',
    }
}

/// The part with a line feed after it, if the part isn't empty and doesn't end in one. The only refusal is that memory
/// ran out.
pub fn with_feed(alloc: Global, part: &str) -> Result<String, AllocError>
    ensures { IfOk result (λ text. string_bytes text ≡ with_feed part.now) }
{
    let mut text = String::from_str(alloc, part)?;
    if !ends_line(part.as_bytes()) {
        text.push_str("\n")?;
    }
    Ok(text)
}

/// The verdict on an order of a history.
pub fn check(alloc: Global, history: &str, order: &str) -> Result<String, ToolFault>
    ensures { GivesText (ChecksTo history.now order.now) result }
{
    let history = with_feed(alloc, history)?;
    let history = read_history(alloc, history.as_str())?;
    let order = read_order(alloc, order)?;
    let verdict = check_order(alloc, &history, &order)?;
    Ok(verdict_text(alloc, &verdict)?)
}
