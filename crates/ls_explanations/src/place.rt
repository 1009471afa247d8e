// The place of a fault.

ghost use Rattle.std.specs.Prelude.{◌≡◌};
ghost use Rattle.std.specs.Option.{option_map};
ghost use Rattle.ls_explanations.specs.declared.place.Part.TheVariants as parts;
ghost use Rattle.ls_explanations.specs.Places.{aim_place, at_byte as byte_place, at_span as span_place, check_place};
ghost use Rattle.ls_explanations.specs.Places.{history_place, order_place, place_of, program_place, schedule_place};
ghost use Rattle.ls_explanations.specs.Places.{in_reference, reference_place, tally_place, text_place};
ghost use Rattle.ls_explanations.specs.Explanations.{part_name, part_number};

use ls_aim::fault::AimFault;
use ls_compiler::fault::CompileFault;
use ls_faults::fault::ToolFault;
use ls_lexer::fault::TextFault;
use ls_lexer::token::Span;
use ls_orders::OrderFault;
use ls_report::HistoryFault;
use ls_schedule::fault::ScheduleFault;
use ls_tallies::TallyFault;
use ls_types_checked::checked::CheckFault;
use ls_types_checked::fault::ProgramFault;
use std::alloc::AllocError;

/// A part of an input, by what it holds.
#[derive(Copy)]
pub enum Part {
    Classes,
    Program,
    Schedule,
    History,
    Order,
    Tallies,
    Menu,
    Reference,
}

impl Clone for Part {
    fn clone(&self) -> Result<Part, AllocError> {
        Ok(*self)
    }
}

impl Part {
    /// The number of the part, from 0, in an input of `count` parts. A history is the third of three parts or
    /// more. An order is the last part, and so is a reference.
    pub fn number(self, count: usize) -> usize
        ensures { result ≡ part_number self count }
    {
        match self {
            Part::Classes | Part::Tallies => 0,
            Part::History => { if count > 2 { 2 } else { 0 } }
            Part::Program | Part::Menu => 1,
            Part::Schedule => 2,
            Part::Order | Part::Reference => count.saturating_sub(1),
        }
    }

    /// What it is called.
    pub fn name(self) -> &'static str
        ensures { result.now ≡ part_name self }
    {
        match self {
            Part::Classes => "class text",
            Part::Program => "program",
            Part::Schedule => "schedule",
            Part::History => "history",
            Part::Order => "order",
            Part::Tallies => "tallies",
            Part::Menu => "menu",
            Part::Reference => "reference",
        }
    }
}

/// A place in a part, from byte to byte.
#[derive(Copy)]
pub struct PartSpan {
    pub part: Part,
    pub span: Span,
}

impl Clone for PartSpan {
    fn clone(&self) -> Result<PartSpan, AllocError> {
        Ok(*self)
    }
}

/// The place of one byte.
fn at_byte(part: Part, at: usize) -> Option<PartSpan>
    ensures { result ≡ byte_place part at }
{
    let span = Span { start: at, end: at };
    Some(PartSpan { part, span })
}

fn at_span(span: Span) -> Option<PartSpan>
    ensures { result ≡ span_place parts.Classes span }
{
    Some(PartSpan {
        part: Part::Classes,
        span,
    })
}

fn text_place(fault: TextFault) -> Option<PartSpan>
    ensures { result ≡ text_place fault }
{
    match fault {
        TextFault::Memory | TextFault::TooLong => None,
        TextFault::BadByte { at }
        | TextFault::OpenComment { at }
        | TextFault::BadNumber { at }
        | TextFault::Syntax { at }
        | TextFault::TooDeep { at } => at_byte(Part::Classes, at),
    }
}

fn check_place(fault: CheckFault) -> Option<PartSpan>
    ensures { result ≡ check_place fault }
{
    match fault {
        CheckFault::Memory => None,
        CheckFault::Broken(broken) => at_span(broken.span),
    }
}

fn program_place(fault: ProgramFault) -> Option<PartSpan>
    ensures { result ≡ program_place fault }
{
    match fault {
        ProgramFault::Memory | ProgramFault::ProgramLimit => None,
        ProgramFault::BadProgram { at }
        | ProgramFault::UnknownThing { at }
        | ProgramFault::ReferenceResult { at } => at_byte(Part::Program, at),
    }
}

fn schedule_place(fault: ScheduleFault) -> Option<PartSpan>
    ensures { result ≡ schedule_place fault }
{
    match fault {
        ScheduleFault::Memory | ScheduleFault::TooManySteps => None,
        ScheduleFault::BadItem { at } | ScheduleFault::UnknownThread { at } => {
            at_byte(Part::Schedule, at)
        }
    }
}

fn aim_place(fault: AimFault) -> Option<PartSpan>
    ensures { result ≡ aim_place fault }
{
    match fault {
        AimFault::Memory => None,
        AimFault::Schedule(fault) => schedule_place(fault),
        AimFault::NotStarted { at } | AimFault::NotMet { at } | AimFault::TooFar { at } => {
            at_byte(Part::Schedule, at)
        }
    }
}

fn history_place(fault: HistoryFault) -> Option<PartSpan>
    ensures { result ≡ history_place fault }
{
    match fault {
        HistoryFault::Memory => None,
        HistoryFault::BadHistory { at } => at_byte(Part::History, at),
    }
}

fn order_place(fault: OrderFault) -> Option<PartSpan>
    ensures { result ≡ order_place fault }
{
    match fault {
        OrderFault::Memory => None,
        OrderFault::BadOrder { at } => at_byte(Part::Order, at),
    }
}

fn tally_place(fault: TallyFault) -> Option<PartSpan>
    ensures { result ≡ tally_place fault }
{
    match fault {
        TallyFault::BadTally { at } => at_byte(Part::Tallies, at),
        TallyFault::Memory | TallyFault::CountTooGreat | TallyFault::OtherCount => None,
    }
}

/// The same place in the reference.
fn in_reference(place: Option<PartSpan>) -> Option<PartSpan>
    ensures { result ≡ option_map in_reference place }
{
    match place {
        Some(place) => Some(PartSpan {
            part: Part::Reference,
            span: place.span,
        }),
        None => None,
    }
}

/// The place of a fault of the reference.
fn reference_place(fault: CompileFault) -> Option<PartSpan>
    ensures { result ≡ reference_place fault }
{
    match fault {
        CompileFault::Text(fault) => in_reference(text_place(fault)),
        CompileFault::Check(fault) => in_reference(check_place(fault)),
        CompileFault::Program(_) | CompileFault::Build(_) => None,
    }
}

/// The place of a fault in its part, or none. Faults of programs, schedules, histories, orders, tallies and menus are
/// at one byte. Limits of whole texts, faults of a run and faults of the streams have no place.
pub fn place_of(fault: ToolFault) -> Option<PartSpan>
    ensures { result ≡ place_of fault }
{
    match fault {
        ToolFault::Text(fault) => text_place(fault),
        ToolFault::Check(fault) => check_place(fault),
        ToolFault::Program(fault) => program_place(fault),
        ToolFault::Schedule(fault) => schedule_place(fault),
        ToolFault::Aim(fault) => aim_place(fault),
        ToolFault::History(fault) => history_place(fault),
        ToolFault::Order(fault) => order_place(fault),
        ToolFault::Tally(fault) => tally_place(fault),
        ToolFault::BadEntry { at } => at_byte(Part::Menu, at),
        ToolFault::Specification(fault) => reference_place(fault),
        ToolFault::UnlikeSpecification { at } => at_byte(Part::Program, at),
        ToolFault::LacksMethod(span) => Some(PartSpan {
            part: Part::Reference,
            span,
        }),
        _ => None,
    }
}
