// The command line as clap has it: the commands with their options.

ghost use Rattle.std.specs.Prelude.{◌≡◌, IfOk, codes, false};
ghost use Rattle.clap.specs.Words.{App, Rule, app_of, rule_of, with_rule, with_subcommand};
ghost use Rattle.clap.specs.declared.builder.command.Command.TheViews.{out-Command};
ghost use Rattle.ls_command_line.specs.Words.{NamesSides, batch_line, flag_rule, line, live_line};
ghost use Rattle.ls_command_line.specs.Words.{merge_line, number_rule, order_line, page_line, replay_line, sample_line};
ghost use Rattle.ls_command_line.specs.Words.{side_rule, spec_rule, state_line, switch_rule, top_line, trace_line};
ghost use Rattle.ls_command_line.specs.Words.{translate_line, u64_parser, with_explain, with_java};

use crate::plain::{aim_command, check_command, compile_command, java_command, source_command};
use crate::searches::{explore_command, find_command};
use clap::{Arg, ArgAction, Command};
use std::alloc::{AllocError, Global};

/// What a schedule can be translated to.
static SIDES: [&str; 2] = ["source", "machine"];

/// An option without a value, as `--live`.
pub(crate) fn flag_option<'a>(alloc: Global, name: &'a str, help: &'a str) -> Arg<'a>
    ensures rule { rule_of result ≡ flag_rule name.entry.now }
    ensures local { result.global ≡ false }
{
    Arg::new(alloc, name)
        .long(name)
        .action(ArgAction::SetTrue)
        .help(help)
}

/// A command with the option that all have.
pub(crate) fn plain_command<'a>(
    alloc: Global,
    name: &'a str,
    about: &'a str,
    after_help: &'a str,
) -> Result<Command<'a>, AllocError>
    ensures shape { IfOk result (λ c. app_of c ≡ with_explain name.entry.now) }
    ensures local { IfOk result (λ c. (out-Command c).has_globals ≡ false) }
{
    Command::new(alloc, name)
        .about(about)
        .after_help(after_help)
        .arg(flag_option(
            alloc,
            "explain",
            "shows the line in which a fault stands, with a mark under its place",
        ))
}

/// A command that reads a class text first, with the option that this is a Java file.
pub(crate) fn class_command<'a>(
    alloc: Global,
    name: &'a str,
    about: &'a str,
    after_help: &'a str,
) -> Result<Command<'a>, AllocError>
    ensures shape { IfOk result (λ c. app_of c ≡ with_java name.entry.now) }
    ensures local { IfOk result (λ c. (out-Command c).has_globals ≡ false) }
{
    let command = plain_command(alloc, name, about, after_help);
    let help =
        "reads Java as it is written in the place of the class text, and tells first what is restated";
    with_option(command, flag_option(alloc, "java", help))
}

/// The command with one more option, where there is a command.
pub(crate) fn with_option<'a>(
    command: Result<Command<'a>, AllocError>,
    option: Arg<'a>,
) -> Result<Command<'a>, AllocError>
    requires command { IfOk command (λ c. (out-Command c).has_globals ≡ false) }
    requires option { option.global ≡ false }
    ensures shape { (a : App) (r : Rule) → IfOk command.entry (λ c. app_of c ≡ a) → rule_of option.entry ≡ r →
        IfOk result (λ c. app_of c ≡ with_rule a r) }
    ensures local { IfOk result (λ c. (out-Command c).has_globals ≡ false) }
{
    command?.arg(option)
}

/// The command with the option that a reference is given, where there is a command.
pub(crate) fn with_reference<'a>(
    alloc: Global,
    command: Result<Command<'a>, AllocError>,
) -> Result<Command<'a>, AllocError>
    requires { IfOk command (λ c. (out-Command c).has_globals ≡ false) }
    ensures shape { (a : App) → IfOk command.entry (λ c. app_of c ≡ a) →
        IfOk result (λ c. app_of c ≡ with_rule a spec_rule) }
    ensures local { IfOk result (λ c. (out-Command c).has_globals ≡ false) }
{
    let help = "judges by another class text, the last part, whose calls run one at a time";
    with_option(command, flag_option(alloc, "spec", help))
}

/// The program with one more command, where there are both.
fn with_command<'a>(
    program: Result<Command<'a>, AllocError>,
    command: Result<Command<'a>, AllocError>,
) -> Result<Command<'a>, AllocError>
    requires { IfOk command (λ c. (out-Command c).has_globals ≡ false) }
    ensures { (a b : App) → IfOk program.entry (λ c. app_of c ≡ a) → IfOk command.entry (λ c. app_of c ≡ b) →
        IfOk result (λ c. app_of c ≡ with_subcommand a b.top) }
{
    program?.subcommand(command?)
}

/// The argument, with its values read as numbers of 64 bits.
fn read_as_number<'a>(arg: Arg<'a>) -> Arg<'a>
    ensures { result ≡ record arg.entry { value_parser = Some u64_parser } }
{
    arg.value_parser(clap::value_parser!(u64))
}

/// A number, as `--cells 9`.
pub(crate) fn number_option<'a>(
    alloc: Global,
    name: &'a str,
    required: bool,
    help: &'a str,
) -> Arg<'a>
    ensures rule { rule_of result ≡ number_rule required name.entry.now }
    ensures local { result.global ≡ false }
{
    read_as_number(Arg::new(alloc, name))
        .long(name)
        .required(required)
        .value_name("N")
        .help(help)
}

pub(crate) fn cells_option<'a>(alloc: Global) -> Arg<'a>
    ensures rule { rule_of result ≡ number_rule false (codes "cells") }
    ensures local { result.global ≡ false }
{
    number_option(
        alloc,
        "cells",
        false,
        "how many words of memory the machine has, 1 to 4194304 [default: 65536]",
    )
}

fn switch_option<'a>(alloc: Global) -> Arg<'a>
    ensures rule { rule_of result ≡ switch_rule }
    ensures local { result.global ≡ false }
{
    number_option(
        alloc,
        "switch",
        false,
        "draws a step's thread anew by chance 1 in N, 1 to 900000 [default: 1]",
    )
}

/// The argument, with its values read as sides.
fn read_as_side<'a>(arg: Arg<'a>) -> Arg<'a>
    ensures { (p : _) × NamesSides p × (result ≡ record arg.entry { value_parser = Some p }) }
{
    arg.value_parser(SIDES.as_slice())
}

fn side_option<'a>(alloc: Global) -> Arg<'a>
    ensures rule { (p : _) × NamesSides p × (rule_of result ≡ side_rule p) }
    ensures local { result.global ≡ false }
{
    read_as_side(Arg::new(alloc, "to"))
        .long("to")
        .required(true)
        .value_name("SIDE")
        .help("what the schedule is translated to")
}

fn live_option<'a>(alloc: Global) -> Arg<'a>
    ensures rule { rule_of result ≡ flag_rule (codes "live") }
    ensures local { result.global ≡ false }
{
    flag_option(
        alloc,
        "live",
        "runs each thread of the program on a thread of its own, in the turns of the schedule",
    )
}

fn replay_command<'a>(alloc: Global) -> Result<Command<'a>, AllocError>
    ensures shape { IfOk result (λ c. app_of c ≡ replay_line) }
    ensures local { IfOk result (λ c. (out-Command c).has_globals ≡ false) }
{
    let command = class_command(
        alloc,
        "replay",
        "Compiles a program and runs it under a schedule of machine instructions",
        "Standard input has three parts, class text, thread program and schedule, with a line %% between them:\n  \
         listset replay < examples/least_int.txt",
    );
    with_option(
        with_option(command, cells_option(alloc)),
        live_option(alloc),
    )
}

fn translate_command<'a>(alloc: Global) -> Result<Command<'a>, AllocError>
    ensures shape { (p : _) × NamesSides p × IfOk result (λ c. app_of c ≡ translate_line p) }
    ensures local { IfOk result (λ c. (out-Command c).has_globals ≡ false) }
{
    let command = class_command(
        alloc,
        "translate",
        "Prints the schedule of source steps for one of instructions, or the other way round",
        "Standard input has three parts, class text, thread program and schedule, with a line %% between them:\n  \
         listset translate --to machine < examples/lost_update.txt",
    );
    with_option(
        with_option(command, side_option(alloc)),
        cells_option(alloc),
    )
}

fn live_command<'a>(alloc: Global) -> Result<Command<'a>, AllocError>
    ensures shape { IfOk result (λ c. app_of c ≡ live_line) }
    ensures local { IfOk result (λ c. (out-Command c).has_globals ≡ false) }
{
    let command = class_command(
        alloc,
        "live",
        "Runs each thread on a thread of its own, and prints the recorded schedule and its history",
        "Standard input has two parts, class text and thread program, with a line %% between them:\n  \
         printf 'class C { }\\n%%%%\\nsetup { c = new C(); }\\n' | listset live",
    );
    let limit = number_option(
        alloc,
        "limit",
        false,
        "how many steps are recorded, at most 1000000 [default: 5000]",
    );
    with_option(with_option(command, cells_option(alloc)), limit)
}

fn batch_command<'a>(alloc: Global) -> Result<Command<'a>, AllocError>
    ensures shape { IfOk result (λ c. app_of c ≡ batch_line) }
    ensures local { IfOk result (λ c. (out-Command c).has_globals ≡ false) }
{
    let command = class_command(
        alloc,
        "batch",
        "Runs a program under many sampled schedules, and prints each history once with its count",
        "Standard input has two parts, class text and thread program, with a line %% between them:\n  \
         printf 'class C { }\\n%%%%\\nsetup { c = new C(); }\\n' | listset batch --seed 1 --count 9 --steps 99",
    );
    let seed = number_option(alloc, "seed", true, "the first seed");
    let command = with_option(command, seed);
    let count = number_option(alloc, "count", true, "how many seeds, 1 to 100000");
    let command = with_option(command, count);
    let steps = number_option(
        alloc,
        "steps",
        true,
        "how many steps each sample has behind the setup's, at most 900000",
    );
    let command = with_option(with_option(command, steps), switch_option(alloc));
    let command = with_option(command, cells_option(alloc));
    let judge = flag_option(
        alloc,
        "judge",
        "says of each history whether it is linearizable, or has a legal order of set calls",
    );
    let command = with_option(command, judge);
    with_reference(alloc, command)
}

fn sample_command<'a>(alloc: Global) -> Result<Command<'a>, AllocError>
    ensures shape { IfOk result (λ c. app_of c ≡ sample_line) }
    ensures local { IfOk result (λ c. (out-Command c).has_globals ≡ false) }
{
    let command = class_command(
        alloc,
        "sample",
        "Prints the schedule of instructions that batch runs for one seed",
        "Standard input has two parts, class text and thread program, with a line %% between them:\n  \
         printf 'class C { }\\n%%%%\\nsetup { c = new C(); }\\n' | listset sample --seed 1 --steps 99",
    );
    let seed = number_option(alloc, "seed", true, "the seed");
    let command = with_option(command, seed);
    let steps = number_option(
        alloc,
        "steps",
        true,
        "how many steps the sample has after the setup's, at most 900000",
    );
    let command = with_option(with_option(command, steps), switch_option(alloc));
    with_option(command, cells_option(alloc))
}

fn merge_command<'a>(alloc: Global) -> Result<Command<'a>, AllocError>
    ensures shape { IfOk result (λ c. app_of c ≡ merge_line) }
    ensures local { IfOk result (λ c. (out-Command c).has_globals ≡ false) }
{
    let command = plain_command(
        alloc,
        "merge",
        "Adds tallies of batch up to the tally of all their seeds",
        "Standard input is tallies, one after another, with a line %% between them or without:\n  \
         cat tally.1 tally.2 | listset merge",
    );
    let count = number_option(alloc, "count", false, "how many seeds there are in all");
    with_option(command, count)
}

fn order_command<'a>(alloc: Global) -> Result<Command<'a>, AllocError>
    ensures shape { IfOk result (λ c. app_of c ≡ order_line) }
    ensures local { IfOk result (λ c. (out-Command c).has_globals ≡ false) }
{
    let command = class_command(
        alloc,
        "order",
        "Finds an order of calls that explains a history, or the event from which on there is none",
        "Standard input has a history, or class text, thread program and history, with a line %% between them:\n  \
         printf 'A.1 call s.add(1)\\nA.1 return true\\n' | listset order",
    );
    with_reference(alloc, command)
}

fn trace_command<'a>(alloc: Global) -> Result<Command<'a>, AllocError>
    ensures shape { IfOk result (λ c. app_of c ≡ trace_line) }
    ensures local { IfOk result (λ c. (out-Command c).has_globals ≡ false) }
{
    let command = class_command(
        alloc,
        "trace",
        "Tells step by step what a run from the Java text does",
        "Standard input has three parts, class text, thread program and schedule, with a line %% between them:\n  \
         listset trace < examples/lost_update.txt",
    );
    let from = number_option(
        alloc,
        "from",
        false,
        "the first step that is shown [default: 1]",
    );
    let command = with_option(command, from);
    let to = number_option(
        alloc,
        "to",
        false,
        "the last step that is shown [default: 1000000]",
    );
    let command = with_option(command, to);
    let fold = flag_option(
        alloc,
        "fold",
        "shows steps that change nothing in one line, and counts each thread's own steps",
    );
    with_option(command, fold)
}

fn page_command<'a>(alloc: Global) -> Result<Command<'a>, AllocError>
    ensures shape { IfOk result (λ c. app_of c ≡ page_line) }
    ensures local { IfOk result (λ c. (out-Command c).has_globals ≡ false) }
{
    let command = class_command(
        alloc,
        "page",
        "Prints what a page shows of a run from the Java text, or of all runs of a program",
        "Standard input has two, three or four parts, class text, thread program, schedule and an order, with a line %% between them:\n  \
         listset page < examples/lost_update.txt",
    );
    let from = number_option(
        alloc,
        "from",
        false,
        "the first step that is shown [default: 1]",
    );
    let command = with_option(command, from);
    let to = number_option(
        alloc,
        "to",
        false,
        "the last step that is shown [default: 1000000]",
    );
    let command = with_option(command, to);
    let choose = flag_option(
        alloc,
        "choose",
        "begins with the run of the schedule, which one may leave at each step",
    );
    let command = with_option(command, choose);
    let states = number_option(
        alloc,
        "states",
        false,
        "how many states are kept at the most where one chooses, 1 to 200000 [default: 20000]",
    );
    let command = with_option(command, states);
    with_reference(alloc, command)
}

fn state_command<'a>(alloc: Global) -> Result<Command<'a>, AllocError>
    ensures shape { IfOk result (λ c. app_of c ≡ state_line) }
    ensures local { IfOk result (λ c. (out-Command c).has_globals ≡ false) }
{
    let command = class_command(
        alloc,
        "state",
        "Shows what each object holds and what each thread does next, behind a schedule of source steps",
        "Standard input has three parts, class text, thread program and schedule, with a line %% between them:\n  \
         listset state < examples/lost_update.txt",
    );
    let dot = flag_option(alloc, "dot", "draws it as a graph for Graphviz");
    let command = with_option(command, dot);
    let each = flag_option(
        alloc,
        "each",
        "shows the state after each step, under the step's number",
    );
    let command = with_option(command, each);
    let from = number_option(
        alloc,
        "from",
        false,
        "the first step after which the state is shown, as with --each [default: 1]",
    );
    let command = with_option(command, from);
    let to = number_option(
        alloc,
        "to",
        false,
        "the last step that is made [default: 1000000]",
    );
    with_option(command, to)
}

/// The program without its commands.
fn top_command<'a>(alloc: Global) -> Command<'a>
    ensures { app_of result ≡ top_line }
{
    Command::new(alloc, "listset")
        .about("List-based concurrent sets in Java, run under schedules that you choose")
        .after_help("Input ends with Ctrl-D. 'listset help COMMAND' tells what a command reads.")
        .version("0.2.0")
        .subcommand_required(true)
}

/// The program with its commands.
pub(crate) fn program<'a>(alloc: Global) -> Result<Command<'a>, AllocError>
    ensures { IfOk result (λ c. (p : _) × NamesSides p × (app_of c ≡ line p)) }
{
    let program = Ok(top_command(alloc));
    let program = with_command(program, check_command(alloc));
    let program = with_command(program, order_command(alloc));
    let program = with_command(program, compile_command(alloc));
    let program = with_command(program, replay_command(alloc));
    let program = with_command(program, source_command(alloc));
    let program = with_command(program, trace_command(alloc));
    let program = with_command(program, state_command(alloc));
    let program = with_command(program, page_command(alloc));
    let program = with_command(program, aim_command(alloc));
    let program = with_command(program, translate_command(alloc));
    let program = with_command(program, live_command(alloc));
    let program = with_command(program, batch_command(alloc));
    let program = with_command(program, sample_command(alloc));
    let program = with_command(program, explore_command(alloc));
    let program = with_command(program, find_command(alloc));
    let program = with_command(program, merge_command(alloc));
    with_command(program, java_command(alloc))
}
