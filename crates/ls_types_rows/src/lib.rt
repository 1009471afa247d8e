//! Small class texts and thread programs, with checked forms or broken rules that were worked out by hand. The
//! definitions of typing compute exactly these. This crate is above ls_types_elaboration and ls_types_programs, so a
//! new text changes neither of those crates.
#![tactic(auto)]

ghost use Rattle.ls_types_rows.specs.Expressions.{Literals, Constants, IntegerIsALocal, Names, Fields, Arithmetic};
ghost use Rattle.ls_types_rows.specs.Expressions.{Comparisons, OperandsOfInts, ShortCircuits, Signs, Comparable};
ghost use Rattle.ls_types_rows.specs.Expressions.{NotComparable};
ghost use Rattle.ls_types_rows.specs.Calls.{Methods, Arguments, Locks, Markables, OtherArgumentsOfMarkables, Makings};
ghost use Rattle.ls_types_rows.specs.Calls.{Arrays};
ghost use Rattle.ls_types_rows.specs.Statements.{Assignments, NotAssigned, Evaluations, Declarations, OwnInitialiser};
ghost use Rattle.ls_types_rows.specs.Statements.{OutOfScope, TwoOfOneName, OwnSlots, MostSlots, Jumps, NoLoops};
ghost use Rattle.ls_types_rows.specs.Statements.{Labels, Conditions, Returns, ForLoops, Additions, Wrapped};
ghost use Rattle.ls_types_rows.specs.Monitors.{Forms, JumpsThrough, OutOfBlock, Locked, NamedSlotsAlone};
ghost use Rattle.ls_types_rows.specs.Monitors.{SynchronizedMethods};
ghost use Rattle.ls_types_rows.specs.Files.{ReservedClasses, MembersOfOneName, OneNameForSeveral, OtherConstructors};
ghost use Rattle.ls_types_rows.specs.Files.{Types, Numbers, Parameters, Initialisers, MissingReturns, EnoughReturns};
ghost use Rattle.ls_types_rows.specs.Files.{MostOfAll};
ghost use Rattle.ls_types_rows.specs.Programs.{Wholes, WrittenNumbers, PlainArguments, MethodsCalled, SetupNames};
ghost use Rattle.ls_types_rows.specs.Programs.{ThreadNames, Blocks, MostThreads, MostCalls, MostBytes};

/// Names, literals and operators (JLS 6, 15).
pub fn expressions()
    ensures literals { Literals }
    ensures constants { Constants }
    ensures integer_is_a_local { IntegerIsALocal }
    ensures names { Names }
    ensures fields { Fields }
    ensures arithmetic { Arithmetic }
    ensures comparisons { Comparisons }
    ensures operands_of_ints { OperandsOfInts }
    ensures short_circuits { ShortCircuits }
    ensures signs { Signs }
    ensures comparable { Comparable }
    ensures not_comparable { NotComparable }
{}

/// Calls, makings and arrays (JLS 15.9, 15.10, 15.12).
pub fn calls()
    ensures methods { Methods }
    ensures arguments { Arguments }
    ensures locks { Locks }
    ensures markables { Markables }
    ensures other_arguments_of_markables { OtherArgumentsOfMarkables }
    ensures makings { Makings }
    ensures arrays { Arrays }
{}

/// Scopes, loops, what is assigned and returned (JLS 6.3, 6.4, 14, 15.26).
pub fn statements()
    ensures assignments { Assignments }
    ensures not_assigned { NotAssigned }
    ensures wrapped { Wrapped }
    ensures evaluations { Evaluations }
    ensures declarations { Declarations }
    ensures own_initialiser { OwnInitialiser }
    ensures out_of_scope { OutOfScope }
    ensures two_of_one_name { TwoOfOneName }
    ensures own_slots { OwnSlots }
    ensures most_slots { MostSlots }
    ensures jumps { Jumps }
    ensures no_loops { NoLoops }
    ensures labels { Labels }
    ensures conditions { Conditions }
    ensures for_loops { ForLoops }
    ensures additions { Additions }
    ensures returns { Returns }
{}

/// `synchronized` (JLS 8.4.3.6, 14.19).
pub fn monitors()
    ensures forms { Forms }
    ensures jumps_through { JumpsThrough }
    ensures out_of_block { OutOfBlock }
    ensures locked { Locked }
    ensures named_slots_alone { NamedSlotsAlone }
    ensures synchronized_methods { SynchronizedMethods }
{}

/// What the classes of a text declare, their methods, and the limits (JLS 6.4, 8).
pub fn files()
    ensures reserved_classes { ReservedClasses }
    ensures members_of_one_name { MembersOfOneName }
    ensures one_name_for_several { OneNameForSeveral }
    ensures other_constructors { OtherConstructors }
    ensures types { Types }
    ensures numbers { Numbers }
    ensures parameters { Parameters }
    ensures initialisers { Initialisers }
    ensures missing_returns { MissingReturns }
    ensures enough_returns { EnoughReturns }
    ensures most_of_all { MostOfAll }
{}

/// Thread programs: which texts are some, and the limits.
pub fn programs()
    ensures wholes { Wholes }
    ensures written_numbers { WrittenNumbers }
    ensures plain_arguments { PlainArguments }
    ensures methods_called { MethodsCalled }
    ensures setup_names { SetupNames }
    ensures thread_names { ThreadNames }
    ensures blocks { Blocks }
    ensures most_threads { MostThreads }
    ensures most_calls { MostCalls }
    ensures most_bytes { MostBytes }
{}
