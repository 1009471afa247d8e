// What a command says: its text and its status, and what it tells of its progress.

ghost use Rattle.std.specs.Prelude.{◌≡◌, ◌≢◌};
ghost use Rattle.ls_tool.specs.Output.{progress_of, status_for, telling_if};

use ls_command_line::Request;
use ls_find_reports::status_of;
use std::alloc::AllocError;

/// What a command prints, and the exit status with which it does.
#[derive(Debug, Drop)]
pub struct Said {
    pub text: String,
    /// What is told beside the text, on standard error.
    pub beside: String,
    pub status: u8,
}

/// What a command tells of its progress.
#[derive(Copy)]
pub enum Telling {
    Nothing,
    /// How many states are kept.
    States,
    /// How many programs are done.
    Programs,
}

impl Clone for Telling {
    fn clone(&self) -> Result<Telling, AllocError> {
        Ok(*self)
    }
}

/// The status of a command that prints a text.
pub(crate) fn status_for(request: Request, text: &str) -> u8
    ensures is { result ≡ status_for request text.now }
    ensures apart { result ≢ 2 }
{
    match request {
        Request::Find(seeking) => {
            if seeking.check {
                return status_of(text);
            }
            0
        }
        _ => 0,
    }
}

fn telling_if(progress: bool, telling: Telling) -> Telling
    ensures { result ≡ telling_if progress telling }
{
    if progress { telling } else { Telling::Nothing }
}

/// What a command tells of its progress.
pub(crate) fn progress_of(request: Request) -> Telling
    ensures { result ≡ progress_of request }
{
    match request {
        Request::Explore {
            cells: _,
            states: _,
            illegal: _,
            first: _,
            order: _,
            progress,
        } => telling_if(progress, Telling::States),
        Request::Find(seeking) => telling_if(seeking.progress, Telling::Programs),
        _ => Telling::Nothing,
    }
}
