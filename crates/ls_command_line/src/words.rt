// What the words of a command line ask for.

ghost use Rattle.std.specs.Prelude.{◌≡◌, codes, map, string_bytes};
ghost use Rattle.clap.specs.Words.{found_of, rows_of, subcommand_rows_of};
ghost use Rattle.ls_command_line.specs.Words.{IsWordsAnswer, asked, asked_by, asked_find, asked_page};
ghost use Rattle.ls_command_line.specs.Words.{asked_state, flag_of, is_given, named_side, number_asked};
ghost use Rattle.ls_command_line.specs.Words.{cells_of, number_of, side_of, switch_of};
ghost use Rattle.ls_command_line.specs.declared.words.Request.TheVariants as requests;

use crate::explores::asked_explore;
use crate::line::program;
use clap::error::ErrorKind;
use clap::{ArgMatches, Error};
use std::alloc::{AllocError, Global};

/// What a schedule is translated to.
#[derive(Copy)]
pub enum Side {
    Source,
    Machine,
}

impl Clone for Side {
    fn clone(&self) -> Result<Side, AllocError> {
        Ok(*self)
    }
}

/// Which programs of a class are looked through.
#[derive(Copy)]
pub struct Seeking {
    /// The most threads of a program, calls of each, and calls of the setup.
    pub threads: u64,
    pub calls: u64,
    pub setup: u64,
    /// An int argument is one of so many integers, from 1.
    pub values: u64,
    /// An int of the constructor is one of the integers from the first to the last.
    pub first_given: u64,
    pub last_given: u64,
    /// The number of the class, from 1, if it isn't the one that no other names.
    pub class: Option<u64>,
    /// The most states of a program that are kept.
    pub states: u64,
    /// The numbers of the first program and of the last, from 1.
    pub from: u64,
    pub to: u64,
    /// The number of the one program that is printed, if that is all.
    pub print: Option<u64>,
    /// Whether threads that wait for ever are looked for.
    pub waiting: bool,
    /// Whether threads that turn for ever are looked for.
    pub turning: bool,
    /// Whether histories are looked for that are illegal as those of a set.
    pub set: bool,
    /// Whether calls are looked for that throw or never end when calls run one at a time.
    pub strict: bool,
    /// Whether data races are looked for, and nothing else.
    pub races: bool,
    /// Whether the exit status says what is found.
    pub check: bool,
    /// Whether it tells on standard error how many programs are done.
    pub progress: bool,
}

impl Clone for Seeking {
    fn clone(&self) -> Result<Seeking, AllocError> {
        Ok(*self)
    }
}

/// Which page is made.
#[derive(Copy)]
pub struct Paging {
    /// The steps that are shown, from and to a number, if these are asked for; they are numbered from 1.
    pub from: Option<u64>,
    pub to: Option<u64>,
    /// Whether one chooses who steps next, where a schedule is given.
    pub choose: bool,
    /// The most states that are kept where one chooses, if a number is asked for.
    pub states: Option<u64>,
}

impl Clone for Paging {
    fn clone(&self) -> Result<Paging, AllocError> {
        Ok(*self)
    }
}

/// A command with its options.
#[derive(Copy)]
pub enum Request {
    Check,
    Order,
    Compile,
    Replay {
        cells: u64,
        live: bool,
    },
    Source,
    /// The steps that are shown, from and to a number; they are numbered from 1.
    Trace {
        from: u64,
        to: u64,
        /// Whether neighbouring steps that change nothing are one line.
        fold: bool,
    },
    /// A page on a run, or on which one chooses who steps next.
    Page(Paging),
    /// As a graph, or as text; after so many steps.
    State {
        dot: bool,
        to: u64,
    },
    /// The states after each step, from and to a number; they are numbered from 1.
    States {
        dot: bool,
        from: u64,
        to: u64,
    },
    /// The schedule to which targets lead.
    Aim,
    /// The class text as which a Java file is restated.
    Java,
    Translate {
        to: Side,
        cells: u64,
    },
    Live {
        cells: u64,
        limit: u64,
    },
    Batch {
        seed: u64,
        count: u64,
        steps: u64,
        switch: u64,
        cells: u64,
        /// Whether each history is judged.
        judge: bool,
    },
    /// A seed, its steps after the setup's, by which chance one draws a thread, and the cells of the machine.
    Sample {
        seed: u64,
        steps: u64,
        switch: u64,
        cells: u64,
    },
    /// The cells of the machine, and the most states that are kept; which histories are printed.
    Explore {
        /// On so many cells, if a number is given.
        cells: Option<u64>,
        states: u64,
        /// Only those without a legal order, or not linearizable.
        illegal: bool,
        /// Only the first of them.
        first: bool,
        /// What the command `order` tells of a history below each.
        order: bool,
        /// Whether it tells on standard error how many states it keeps.
        progress: bool,
    },
    /// A wrong run alone, by the states of the source: the most that are kept.
    Verdict {
        states: u64,
        /// Whether an option is given that goes with the histories alone.
        mixed: bool,
    },
    /// A run with a data race alone, by the states of the source: the most that are kept.
    Races {
        states: u64,
        /// Whether an option is given that goes with the histories or with a wrong run.
        mixed: bool,
    },
    /// Whether calls end, by the states of the source: the most that are kept.
    Ends {
        states: u64,
        /// Whether an option is given that goes with the histories, with a wrong run or with a data race, or this isn't
        /// what is asked.
        mixed: bool,
        /// Whether threads begin their calls again.
        again: bool,
    },
    /// The first program of a class that isn't good for what is looked for.
    Find(Seeking),
    /// The number that the counts are to come to, if one is wanted.
    Merge {
        count: Option<u64>,
    },
}

impl Clone for Request {
    fn clone(&self) -> Result<Request, AllocError> {
        Ok(*self)
    }
}

/// What a command line asks for.
#[derive(Copy)]
pub struct CommandLine {
    pub request: Request,
    /// Whether a fault is to be shown in its line.
    pub explain: bool,
    /// Whether the last part is a reference: a class text by which the others are judged.
    pub spec: bool,
    /// Whether the first part is a Java file, in whose place its class text is read.
    pub java: bool,
}

impl Clone for CommandLine {
    fn clone(&self) -> Result<CommandLine, AllocError> {
        Ok(*self)
    }
}

/// The cells of a machine where none are asked for.
const CELLS: u64 = 65_536;

/// The states of each program of `find` that are kept where no number is asked for.
const STATES_OF_EACH: u64 = 200_000;

/// The last program where none is asked for: the most that a family has.
const LAST_PROGRAM: u64 = 1_000_000;

/// The steps that a live run records where no limit is asked for.
const LIMIT: u64 = 5_000;

/// By which chance a step draws a thread where none is asked for: 1 in so many, so each does.
const SWITCH: u64 = 1;

/// The last step that is shown where none is asked for: the most that a schedule has.
const LAST_STEP: u64 = 1_000_000;

/// Why there is no request.
#[derive(Debug, Drop)]
pub enum WordsFault {
    Memory,
    /// The words are no command line, or ask for help or the version.
    BadLine(Error),
}

/// What the words ask for. They begin with the program's own name.
pub fn read_words<'a>(alloc: Global, words: &'a [String]) -> Result<CommandLine, WordsFault>
    ensures { IsWordsAnswer (map string_bytes words.entry.now) result }
{
    let program = match program(alloc) {
        Ok(program) => program,
        Err(_) => return Err(WordsFault::Memory),
    };
    let matches = match program.try_get_matches_from(words) {
        Ok(matches) => matches,
        Err(error) => {
            return match error.kind() {
                ErrorKind::OutOfMemory => Err(WordsFault::Memory),
                _ => Err(WordsFault::BadLine(error)),
            };
        }
    };
    Ok(chosen(&matches))
}

/// The request of the matches, by the name of the subcommand.
fn chosen(matches: &ArgMatches<'_>) -> CommandLine
    ensures { result ≡ asked_by (subcommand_rows_of matches.now) }
{
    match matches.subcommand() {
        Some((name, options)) => CommandLine {
            request: asked(name, options),
            explain: flag(options, "explain"),
            spec: flag(options, "spec"),
            java: flag(options, "java"),
        },
        None => CommandLine {
            request: Request::Check,
            explain: false,
            spec: false,
            java: false,
        },
    }
}

/// The number of an option, or the default where it isn't given.
pub(crate) fn number(options: &ArgMatches<'_>, name: &str, default: u64) -> u64
    ensures { result ≡ number_of name.now default (rows_of (found_of options.now)) }
{
    match options.get_one::<u64>(name) {
        Some(number) => number,
        None => default,
    }
}

/// The number of an option, if it is given.
pub(crate) fn number_asked(options: &ArgMatches<'_>, name: &str) -> Option<u64>
    ensures { result ≡ number_asked name.now (rows_of (found_of options.now)) }
{
    options.get_one::<u64>(name)
}

fn side_named(name: &str) -> Side
    ensures { result ≡ named_side name.now }
{
    if name == "source" {
        Side::Source
    } else {
        Side::Machine
    }
}

fn chosen_side(options: &ArgMatches<'_>) -> Side
    ensures { result ≡ side_of (rows_of (found_of options.now)) }
{
    match options.get_str("to") {
        Some(name) => side_named(name),
        None => Side::Machine,
    }
}

/// Whether a flag is given.
pub(crate) fn flag(options: &ArgMatches<'_>, name: &str) -> bool
    ensures { result ≡ flag_of name.now (rows_of (found_of options.now)) }
{
    match options.get_str(name) {
        Some(text) => text == "true",
        None => false,
    }
}

/// Whether an option is given.
fn is_given(options: &ArgMatches<'_>, name: &str) -> bool
    ensures { result ≡ is_given name.now (rows_of (found_of options.now)) }
{
    match options.get_str(name) {
        Some(_text) => true,
        None => false,
    }
}

fn asked_state(options: &ArgMatches<'_>) -> Request
    ensures { result ≡ asked_state (rows_of (found_of options.now)) }
{
    let dot = flag(options, "dot");
    let to = number(options, "to", LAST_STEP);
    if flag(options, "each") || is_given(options, "from") {
        let from = number(options, "from", 1);
        return Request::States { dot, from, to };
    }
    Request::State { dot, to }
}

fn asked_page(options: &ArgMatches<'_>) -> Paging
    ensures { result ≡ asked_page (rows_of (found_of options.now)) }
{
    Paging {
        from: number_asked(options, "from"),
        to: number_asked(options, "to"),
        choose: flag(options, "choose"),
        states: number_asked(options, "states"),
    }
}

fn asked_find(options: &ArgMatches<'_>) -> Seeking
    ensures { result ≡ asked_find (rows_of (found_of options.now)) }
{
    Seeking {
        threads: number(options, "threads", 2),
        calls: number(options, "calls", 2),
        setup: number(options, "setup", 1),
        values: number(options, "values", 2),
        first_given: number(options, "new", 1),
        last_given: number(options, "new-to", number(options, "new", 2)),
        class: number_asked(options, "class"),
        states: number(options, "states", STATES_OF_EACH),
        from: number(options, "from", 1),
        to: number(options, "to", LAST_PROGRAM),
        print: number_asked(options, "print"),
        waiting: !flag(options, "no-waiting"),
        turning: !flag(options, "no-turning"),
        set: flag(options, "set"),
        strict: flag(options, "strict"),
        races: flag(options, "races"),
        check: flag(options, "check"),
        progress: flag(options, "progress"),
    }
}

fn asked_batch(options: &ArgMatches<'_>) -> Request
    ensures { let rows = rows_of (found_of options.now) in
        result ≡ requests.Batch (number_of (codes "seed") 0 rows) (number_of (codes "count") 0 rows)
        (number_of (codes "steps") 0 rows) (switch_of rows) (cells_of rows) (flag_of (codes "judge") rows) }
{
    Request::Batch {
        seed: number(options, "seed", 0),
        count: number(options, "count", 0),
        steps: number(options, "steps", 0),
        switch: number(options, "switch", SWITCH),
        cells: number(options, "cells", CELLS),
        judge: flag(options, "judge"),
    }
}

fn asked_sample(options: &ArgMatches<'_>) -> Request
    ensures { let rows = rows_of (found_of options.now) in
        result ≡ requests.Sample (number_of (codes "seed") 0 rows) (number_of (codes "steps") 0 rows) (switch_of rows)
        (cells_of rows) }
{
    Request::Sample {
        seed: number(options, "seed", 0),
        steps: number(options, "steps", 0),
        switch: number(options, "switch", SWITCH),
        cells: number(options, "cells", CELLS),
    }
}

fn asked(name: &str, options: &ArgMatches<'_>) -> Request
    ensures { result ≡ asked name.now (rows_of (found_of options.now)) }
{
    match name {
        "order" => Request::Order,
        "compile" => Request::Compile,
        "replay" => Request::Replay {
            cells: number(options, "cells", CELLS),
            live: flag(options, "live"),
        },
        "source" => Request::Source,
        "trace" => Request::Trace {
            from: number(options, "from", 1),
            to: number(options, "to", LAST_STEP),
            fold: flag(options, "fold"),
        },
        "page" => Request::Page(asked_page(options)),
        "state" => asked_state(options),
        "aim" => Request::Aim,
        "translate" => Request::Translate {
            to: chosen_side(options),
            cells: number(options, "cells", CELLS),
        },
        "live" => Request::Live {
            cells: number(options, "cells", CELLS),
            limit: number(options, "limit", LIMIT),
        },
        "batch" => asked_batch(options),
        "sample" => asked_sample(options),
        "explore" => asked_explore(options),
        "find" => Request::Find(asked_find(options)),
        "merge" => Request::Merge {
            count: number_asked(options, "count"),
        },
        "java" => Request::Java,
        _ => Request::Check,
    }
}
