// The next event that the search looks at.

ghost use Rattle.std.specs.Prelude.{◌≡◌, ◌≤◌, ℕ, drop, false};
ghost use Rattle.ls_orders.specs.Rules.{ended_before};
ghost use Rattle.ls_orders.specs.declared.calls.SetCall.{SetCall};
ghost use Rattle.ls_order_search.specs.Plans.{Among};
ghost use Rattle.ls_order_search.specs.Search.{CalledFrom, Rising};

use ls_orders::calls::{End, SetCall};

/// The place of the next call, but at most `most`. If there is no call, `most`.
pub(crate) fn next_call(calls: &[SetCall], next: usize, most: usize) -> usize
    requires { Rising (drop next calls.now) }
    ensures within { result ≤ most }
    ensures comes { CalledFrom result (drop next calls.now) }
    ensures last { (n : ℕ) → n ≤ most → CalledFrom n (drop next calls.now) → n ≤ result }
{
    if next < calls.len() {
        calls[next].called.min(most)
    } else {
        most
    }
}

/// The place where the call ends, but at least `from` and at most `most`.
pub(crate) fn end_within(end: End, from: usize, most: usize) -> usize
    requires { from ≤ most }
    ensures from { from ≤ result }
    ensures within { result ≤ most }
    ensures lasts { ended_before end from ≡ false → ended_before end result ≡ false }
{
    match end {
        End::Pending => most,
        End::Trapped(at) => at.max(from).min(most),
        End::Returned(at, _) => at.max(from).min(most),
    }
}
