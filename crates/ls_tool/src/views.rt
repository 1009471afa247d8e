// What is shown of a run, as the command line asks for it.

ghost use Rattle.std.specs.Prelude.{◌≡◌};
ghost use Rattle.ls_tool.specs.Output.{state_view, states_view, trace_view};

use ls_commands::View;

/// What each step does.
pub(crate) fn trace_view(fold: bool, from: u64, to: u64) -> View
    ensures { result ≡ trace_view fold from to }
{
    let from = from as usize;
    let to = to as usize;
    if fold {
        View::Folded { from, to }
    } else {
        View::Trace { from, to }
    }
}

/// What holds after so many steps.
pub(crate) fn state_view(dot: bool, to: u64) -> View
    ensures { result ≡ state_view dot to }
{
    let to = to as usize;
    if dot {
        View::Drawing { to }
    } else {
        View::State { to }
    }
}

/// What holds after each step.
pub(crate) fn states_view(dot: bool, from: u64, to: u64) -> View
    ensures { result ≡ states_view dot from to }
{
    let from = from as usize;
    let to = to as usize;
    if dot {
        View::Drawings { from, to }
    } else {
        View::States { from, to }
    }
}
