// What the options of `explore` ask for.

ghost use Rattle.std.specs.Prelude.{◌≡◌, ◌||◌, codes};
ghost use Rattle.clap.specs.Words.{found_of, rows_of};
ghost use Rattle.ls_command_line.specs.Words.{asked_explore, flag_of, is_mixed, is_mixed_with_ends, number_asked};
ghost use Rattle.ls_command_line.specs.Words.{number_of};
ghost use Rattle.ls_command_line.specs.declared.words.Request.TheVariants as requests;

use crate::words::{Request, flag, number, number_asked};
use clap::ArgMatches;

/// The states that are kept where no number is asked for.
const STATES: u64 = 1_000_000;

/// Whether one of these holds.
fn one_of(cells: bool, illegal: bool, first: bool, order: bool, progress: bool) -> bool
    ensures { result ≡ cells || (illegal || (first || (order || progress))) }
{
    cells || illegal || first || order || progress
}

/// Whether an option of `explore` is given that goes with the histories alone.
fn is_mixed(options: &ArgMatches<'_>) -> bool
    ensures { result ≡ is_mixed (rows_of (found_of options.now)) }
{
    let cells = number_asked(options, "cells").is_some();
    let illegal = flag(options, "illegal");
    let first = flag(options, "first");
    let order = flag(options, "order");
    let progress = flag(options, "progress");
    one_of(cells, illegal, first, order, progress)
}

/// Whether an option of `explore` is given that doesn't go with `--ends`, or `--ends` isn't.
fn is_mixed_with_ends(options: &ArgMatches<'_>) -> bool
    ensures { result ≡ is_mixed_with_ends (rows_of (found_of options.now)) }
{
    let ends = flag(options, "ends");
    let mixed = is_mixed(options);
    let verdict = flag(options, "verdict");
    let races = flag(options, "races");
    !ends || (mixed || (verdict || races))
}

/// What `explore` with these options asks for.
pub(crate) fn asked_explore(options: &ArgMatches<'_>) -> Request
    ensures { result ≡ asked_explore (rows_of (found_of options.now)) }
{
    let states = number(options, "states", STATES);
    let verdict = flag(options, "verdict");
    let races = flag(options, "races");
    let again = flag(options, "again");
    if flag(options, "ends") || again {
        let mixed = is_mixed_with_ends(options);
        return Request::Ends {
            states,
            mixed,
            again,
        };
    }
    if races {
        let mixed = is_mixed(options) || verdict;
        return Request::Races { states, mixed };
    }
    if verdict {
        let mixed = is_mixed(options);
        return Request::Verdict { states, mixed };
    }
    Request::Explore {
        cells: number_asked(options, "cells"),
        states,
        illegal: flag(options, "illegal"),
        first: flag(options, "first"),
        order: flag(options, "order"),
        progress: flag(options, "progress"),
    }
}
