// Which parts a command reads, in words.

ghost use Rattle.std.specs.Prelude.{◌≡◌};
ghost use Rattle.ls_tool.specs.Wanted.{wanted_by_reference, wanted_of, wanted_parts};

use ls_command_line::{CommandLine, Request};

/// Which parts a command reads. `merge` reads tallies, which aren't cut into parts.
fn wanted_parts(request: Request) -> &'static str
    ensures { result.now ≡ wanted_parts request }
{
    match request {
        Request::Check => "two parts, history and order",
        Request::Order => "one part, a history; or three, class text, thread program and history",
        Request::Find(_) => "one part, a class text; or two, class text and menu",
        Request::Compile
        | Request::Live { .. }
        | Request::Batch { .. }
        | Request::Sample { .. }
        | Request::Explore { .. }
        | Request::Verdict { .. }
        | Request::Races { .. }
        | Request::Ends { .. } => "two parts, class text and thread program",
        Request::Page(_) => {
            "two to four parts, class text, thread program, schedule and an order"
        }
        Request::Java => "one part, a Java file",
        Request::Aim => "three parts, class text, thread program and targets",
        Request::Replay { .. }
        | Request::Source
        | Request::Trace { .. }
        | Request::State { .. }
        | Request::States { .. }
        | Request::Translate { .. }
        | Request::Merge { .. } => "three parts, class text, thread program and schedule",
    }
}

/// The same by a reference, which is the last part.
fn wanted_by_reference(request: Request) -> &'static str
    ensures { result.now ≡ wanted_by_reference request }
{
    match request {
        Request::Order => "four parts, class text, thread program, history and reference",
        Request::Find(_) => {
            "two parts, class text and reference; or three, class text, menu and reference"
        }
        Request::Page(_) => {
            "three parts, class text, thread program and reference; or four, with a schedule before the reference"
        }
        _ => "three parts, class text, thread program and reference",
    }
}

/// Which parts a command line's command reads.
pub(crate) fn wanted_of(line: CommandLine) -> &'static str
    ensures { result.now ≡ wanted_of line }
{
    if line.spec {
        wanted_by_reference(line.request)
    } else {
        wanted_parts(line.request)
    }
}
