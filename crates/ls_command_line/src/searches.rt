// The commands `explore` and `find` as clap has them.

ghost use Rattle.std.specs.Prelude.{◌≡◌, IfOk, codes, false};
ghost use Rattle.clap.specs.Words.{app_of, rule_of, with_rule};
ghost use Rattle.clap.specs.declared.builder.command.Command.TheViews.{out-Command};
ghost use Rattle.ls_command_line.specs.Words.{bounds_line, cells_rule, explore_line, find_line, number_rule};
ghost use Rattle.ls_command_line.specs.Words.{numbers_line, with_java};

use crate::line::{class_command, flag_option, number_option, with_option, with_reference};
use clap::{Arg, Command};
use std::alloc::{AllocError, Global};

/// The option of the machine that is explored in place of the source.
fn machine_option<'a>(alloc: Global) -> Arg<'a>
    ensures rule { rule_of result ≡ number_rule false (codes "cells") }
    ensures local { result.global ≡ false }
{
    number_option(
        alloc,
        "cells",
        false,
        "explores a machine with so many words of memory, 1 to 4194304, and not the source",
    )
}

/// The command with what it explores: a machine of so many words, or the source, up to so many states.
fn states_command<'a>(alloc: Global) -> Result<Command<'a>, AllocError>
    ensures shape { IfOk result (λ c. app_of c ≡
        with_rule (with_rule (with_java (codes "explore")) cells_rule) (number_rule false (codes "states"))) }
    ensures local { IfOk result (λ c. (out-Command c).has_globals ≡ false) }
{
    let command = class_command(
        alloc,
        "explore",
        "Finds the histories of all schedules of a program, with a schedule of source steps for each",
        "Standard input has two parts, class text and thread program, with a line %% between them:\n  \
         printf 'class C { }\\n%%%%\\nsetup { c = new C(); }\\n' | listset explore",
    );
    let command = with_option(command, machine_option(alloc));
    let states = number_option(
        alloc,
        "states",
        false,
        "how many states are kept at the most, 1 to 16777216 [default: 1000000]",
    );
    with_option(command, states)
}

pub(crate) fn explore_command<'a>(alloc: Global) -> Result<Command<'a>, AllocError>
    ensures shape { IfOk result (λ c. app_of c ≡ explore_line) }
    ensures local { IfOk result (λ c. (out-Command c).has_globals ≡ false) }
{
    let command = states_command(alloc);
    let illegal = flag_option(
        alloc,
        "illegal",
        "prints only histories without a legal order and those not linearizable",
    );
    let command = with_option(command, illegal);
    let first = flag_option(
        alloc,
        "first",
        "prints only the first of the histories; with --illegal, a shortest schedule without a legal order",
    );
    let command = with_option(command, first);
    let order = flag_option(
        alloc,
        "order",
        "prints below each history the order of whole calls that explains it, as `order` does",
    );
    let command = with_option(command, order);
    let progress = flag_option(
        alloc,
        "progress",
        "tells on standard error of each 65536 states that are kept",
    );
    let command = with_option(command, progress);
    let verdict = flag_option(
        alloc,
        "verdict",
        "prints the simplest wrong run alone, or that there is none; no cells are needed, and fewer states",
    );
    let command = with_option(command, verdict);
    let races = flag_option(
        alloc,
        "races",
        "prints the simplest run with a data race alone, or that there is none; as many states as --verdict",
    );
    let command = with_option(command, races);
    let ends = flag_option(
        alloc,
        "ends",
        "tells of each call alone whether it ends whatever other threads do; where it may not, a run that goes round",
    );
    let command = with_option(command, ends);
    let again = flag_option(
        alloc,
        "again",
        "with --ends: each thread begins its calls again when they have ended, so that it makes any number of calls",
    );
    let command = with_option(command, again);
    with_reference(alloc, command)
}

/// The command with the bounds of the programs that it looks through.
fn bounds_command<'a>(alloc: Global) -> Result<Command<'a>, AllocError>
    ensures shape { IfOk result (λ c. app_of c ≡ bounds_line) }
    ensures local { IfOk result (λ c. (out-Command c).has_globals ≡ false) }
{
    let command = class_command(
        alloc,
        "find",
        "Finds the first small program of a class that isn't linearizable, or whose threads wait or turn for ever",
        "Standard input is a class text. As a second part, after a line %%, it may have a menu in place of the class's \
         methods. A line of it has calls that stand together, as lock(#); \
         unlock(#), where # is the thread's number. With setup: before them they are calls of the setup alone:\n  \
         printf 'class C { int n; int next() { n = n + 1; return n; } }' | listset find",
    );
    let threads = number_option(
        alloc,
        "threads",
        false,
        "how many threads a program has at the most, 1 to 4 [default: 2]",
    );
    let command = with_option(command, threads);
    let calls = number_option(
        alloc,
        "calls",
        false,
        "how many calls a thread has at the most, 1 to 4 [default: 2]",
    );
    let command = with_option(command, calls);
    let setup = number_option(
        alloc,
        "setup",
        false,
        "how many calls the setup has at the most, up to 8 [default: 1]",
    );
    let command = with_option(command, setup);
    let values = number_option(
        alloc,
        "values",
        false,
        "an int argument is one of the integers from 1 to N, which is 1 to 9 [default: 2]",
    );
    let command = with_option(command, values);
    let given = number_option(
        alloc,
        "new",
        false,
        "the first integer that the constructor is given, 1 to 9 [default: 1]",
    );
    let command = with_option(command, given);
    let last_given = number_option(
        alloc,
        "new-to",
        false,
        "the last integer that it is given, up to 9 [default: that of --new, or 2 without --new]",
    );
    with_option(command, last_given)
}

/// The command with these bounds, and the numbers of the programs that it looks through.
fn numbers_command<'a>(alloc: Global) -> Result<Command<'a>, AllocError>
    ensures shape { IfOk result (λ c. app_of c ≡ numbers_line) }
    ensures local { IfOk result (λ c. (out-Command c).has_globals ≡ false) }
{
    let command = bounds_command(alloc);
    let class = number_option(
        alloc,
        "class",
        false,
        "which class of the text is meant, from 1 [default: the one that no other names]",
    );
    let command = with_option(command, class);
    let states = number_option(
        alloc,
        "states",
        false,
        "how many states of a program are kept at the most [default: 200000]",
    );
    let command = with_option(command, states);
    let from = number_option(
        alloc,
        "from",
        false,
        "the number of the first program [default: 1]",
    );
    let command = with_option(command, from);
    let to = number_option(
        alloc,
        "to",
        false,
        "the number of the last program [default: 1000000]",
    );
    let command = with_option(command, to);
    let print = number_option(
        alloc,
        "print",
        false,
        "prints the program of this number alone",
    );
    with_option(command, print)
}

pub(crate) fn find_command<'a>(alloc: Global) -> Result<Command<'a>, AllocError>
    ensures shape { IfOk result (λ c. app_of c ≡ find_line) }
    ensures local { IfOk result (λ c. (out-Command c).has_globals ≡ false) }
{
    let command = numbers_command(alloc);
    let waiting = flag_option(
        alloc,
        "no-waiting",
        "looks for no threads that wait for ever",
    );
    let command = with_option(command, waiting);
    let turning = flag_option(
        alloc,
        "no-turning",
        "looks for no threads that turn for ever",
    );
    let command = with_option(command, turning);
    let set = flag_option(
        alloc,
        "set",
        "looks for histories of a set too that have no legal order",
    );
    let command = with_option(command, set);
    let strict = flag_option(
        alloc,
        "strict",
        "looks for calls too that throw or never end when calls run one at a time",
    );
    let command = with_option(command, strict);
    let races = flag_option(alloc, "races", "looks for data races, and for nothing else");
    let command = with_option(command, races);
    let check = flag_option(
        alloc,
        "check",
        "ends with status 3 if a program is found; if none is, with 4 if some were cut, and with 5 if a line beside \
         none warns",
    );
    let command = with_option(command, check);
    let progress = flag_option(
        alloc,
        "progress",
        "tells on standard error how many programs are done",
    );
    let command = with_option(command, progress);
    with_reference(alloc, command)
}
