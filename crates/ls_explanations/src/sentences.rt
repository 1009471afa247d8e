// What is wrong at a fault, and what to write in its place.

ghost use Rattle.std.specs.Prelude.{◌≡◌};
ghost use Rattle.ls_explanations.specs.Sentences.{aim_sentence, check_sentence, program_sentence, rule_sentence};
ghost use Rattle.ls_explanations.specs.Sentences.{schedule_sentence, sentence, text_sentence};
ghost use Rattle.ls_explanations.specs.Tokens.{byte_at};

use crate::lessons::{byte_lesson, call_lesson, name_lesson, syntax_lesson, type_lesson};
use crate::limit::limit_sentence;
use crate::tokens::byte_at;
use ls_aim::fault::AimFault;
use ls_faults::fault::ToolFault;
use ls_lexer::fault::TextFault;
use ls_orders::OrderFault;
use ls_report::HistoryFault;
use ls_schedule::fault::ScheduleFault;
use ls_tallies::TallyFault;
use ls_types_checked::checked::CheckFault;
use ls_types_checked::fault::ProgramFault;
use ls_types_elaboration::rule::Rule;

fn text_sentence(fault: TextFault, classes: &[u8]) -> &'static str
    ensures { result.now ≡ text_sentence fault classes.now }
{
    match fault {
        TextFault::Memory => "",
        TextFault::TooLong => "the class text is too long: it has at most 262,144 bytes\n",
        TextFault::BadByte { at } => byte_lesson(byte_at(classes, at), at),
        TextFault::OpenComment { at: _ } => { "this comment isn't closed: write `*/` at its end\n" }
        TextFault::BadNumber { at: _ } => {
            "a number has only decimal digits, no 0 in front, and is at most 2147483647\n"
        }
        TextFault::Syntax { at } => syntax_lesson(classes, at),
        TextFault::TooDeep { at: _ } => {
            "this is nested too deeply: make a part of it a method or a statement of its own\n"
        }
    }
}

fn rule_sentence(rule: Rule, classes: &[u8], at: usize) -> &'static str
    ensures { result.now ≡ rule_sentence rule classes.now at }
{
    match rule {
        Rule::UnknownName => name_lesson(classes, at),
        Rule::TwiceDeclared => {
            "this name is declared twice: use another. A class has one method of a name, and one constructor\n"
        }
        Rule::UnknownType => type_lesson(classes, at),
        Rule::WrongType(_) => "mismatched types: ",
        Rule::WrongArguments(_) => call_lesson(classes, at),
        Rule::NotAssignable => "this can't be assigned: only a local, a field or an element can\n",
        Rule::NoLoop => "`break` and `continue` are only allowed in a loop\n",
        Rule::UnknownLabel => "cannot find this label: no loop around this has it\n",
        Rule::MissingReturn => {
            "missing `return`: this method can end without a value. Only `while (true)` is known to go on\n"
        }
        Rule::ReservedClass => "a class of the library has this name: use another\n",
        Rule::Limit =>
            "too many classes, fields, methods or locals: docs/LANGUAGE.md has the limits\n",
    }
}

fn check_sentence(fault: CheckFault, classes: &[u8]) -> &'static str
    ensures { result.now ≡ check_sentence fault classes.now }
{
    match fault {
        CheckFault::Memory => "",
        CheckFault::Broken(broken) => rule_sentence(broken.rule, classes, broken.span.start),
    }
}

fn program_sentence(fault: ProgramFault) -> &'static str
    ensures { result.now ≡ program_sentence fault }
{
    match fault {
        ProgramFault::Memory => "",
        ProgramFault::ProgramLimit => {
            "too many: a program has at most 262,144 bytes, 64 threads, and 256 calls of each and of the setup\n"
        }
        ProgramFault::BadProgram { at: _ } | ProgramFault::UnknownThing { at: _ } => "",
        ProgramFault::ReferenceResult { at: _ } => {
            "this method returns a reference: call one that returns an `int`, a `boolean` or nothing\n"
        }
    }
}

fn schedule_sentence(fault: ScheduleFault) -> &'static str
    ensures { result.now ≡ schedule_sentence fault }
{
    match fault {
        ScheduleFault::Memory => "",
        ScheduleFault::TooManySteps => "too many steps: a schedule has at most 1,000,000\n",
        ScheduleFault::BadItem { at: _ } => {
            "expected a name, or a name with `*` and a count from 1, as `A*5`; after `@2` a group, as `(A*2 B)*3`\n"
        }
        ScheduleFault::UnknownThread { at: _ } => {
            "cannot find a thread of this name in the program: use a thread's name, `setup` or `all`\n"
        }
    }
}

fn aim_sentence(fault: AimFault) -> &'static str
    ensures { result.now ≡ aim_sentence fault }
{
    match fault {
        AimFault::Memory => "",
        AimFault::Schedule(fault) => schedule_sentence(fault),
        AimFault::NotStarted { at: _ } => {
            "this thread hasn't started: let the setup end first, as `setup!` does\n"
        }
        AimFault::NotMet { at: _ } => {
            "this thread ends or waits before a step with this text: `trace` shows the text of each step\n"
        }
        AimFault::TooFar { at: _ } => {
            "this thread doesn't come to it before the schedule has 1,000,000 steps\n"
        }
    }
}

/// What is said of a fault in a sentence or two, as far as it is the same for all types and numbers of arguments.
/// `classes` is the class text, which is the first part of the input, if there is one.
pub(crate) fn sentence(fault: ToolFault, classes: &[u8]) -> &'static str
    ensures { result.now ≡ sentence fault classes.now }
{
    match fault {
        ToolFault::Text(fault) => text_sentence(fault, classes),
        ToolFault::Check(fault) => check_sentence(fault, classes),
        ToolFault::Program(fault) => program_sentence(fault),
        ToolFault::Schedule(fault) => schedule_sentence(fault),
        ToolFault::Aim(fault) => aim_sentence(fault),
        ToolFault::History(HistoryFault::BadHistory { at: _ }) => {
            "a history can't go on like this: a thread's calls are numbered 1, 2, .., and a return follows its call\n"
        }
        ToolFault::Order(OrderFault::BadOrder { at: _ }) => { "expected a call, as `A.1`\n" }
        ToolFault::Tally(TallyFault::BadTally { at: _ }) => {
            "expected a line as `seed 7 count 3`, then a history, then an empty line\n"
        }
        ToolFault::BadEntry { at: _ } => {
            "expected calls of the class without the object, as `lock(#); inc(); unlock(#)`: `#` is the thread's number\n"
        }
        ToolFault::UnlikeSpecification { at: _ } => {
            "the reference has no such call, or it answers another type there: name a class text with the same methods\n"
        }
        ToolFault::LacksMethod(_) => {
            "the class lacks this method of the reference, or takes or answers other types there\n"
        }
        ToolFault::BadOptions => "these options don't go together, or not with so many parts\n",
        other => limit_sentence(other),
    }
}
