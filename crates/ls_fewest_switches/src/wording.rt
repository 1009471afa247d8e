// What is said of context switches.

ghost use Rattle.std.specs.Prelude.{◌≡◌, ◌++◌, OnOk, string_bytes};
ghost use Rattle.ls_fewest_switches.specs.Wording.{switches_text};

use crate::fewest::{SimpleRun, switches};
use std::alloc::AllocError;
use std::fmt::Write;

/// Adds how many context switches a run has, if none with its history has fewer.
pub fn push_switches(out: &mut String, run: &SimpleRun) -> Result<(), AllocError>
    ensures { OnOk result (string_bytes out.new ≡ string_bytes out.old ++
        switches_text run.now.fewest run.now.schedule) }
{
    if run.fewest {
        let count = switches(&run.schedule);
        write!(out, "; context switches {count}")?;
    }
    Ok(())
}
