// The line of a fault, made without memory.

ghost use Rattle.std.specs.Prelude.{◌≡◌, ◌≤◌, length};
ghost use Rattle.ls_faults.specs.Faults.{aim_line, batch_line, build_line, cells_line, check_line, class_line};
ghost use Rattle.ls_faults.specs.Faults.{compile_line};
ghost use Rattle.ls_faults.specs.Faults.{explore_line};
ghost use Rattle.ls_faults.specs.Faults.{fault_line, live_line, placed, plain, program_line, rule_name};
ghost use Rattle.ls_faults.specs.Faults.{schedule_line, spanned, tally_line, text_line, translation_line, turns_line};

use crate::fault::ToolFault;
use ls_aim::fault::AimFault;
use ls_batch::BatchFault;
use ls_class_programs::ClassFault;
use ls_compiler::fault::CompileFault;
use ls_emit::fault::EmitFault;
use ls_explore::ExploreFault;
use ls_lexer::fault::TextFault;
use ls_lexer::token::Span;
use ls_linker::fault::{BuildFault, LinkFault};
use ls_live::{FollowFault, LiveFault, PlayFault as LivePlayFault, TapeFault as TurnsPlayFault};
use ls_lowered::fault::LowerFault;
use ls_machine::LoadFault;
use ls_orders::OrderFault;
use ls_report::HistoryFault;
use ls_schedule::fault::ScheduleFault;
use ls_tallies::TallyFault;
use ls_translation::fault::TranslationFault;
use ls_types_checked::checked::CheckFault;
use ls_types_checked::fault::ProgramFault;
use ls_types_elaboration::rule::Rule;
use std::marker::Model;

/// The most bytes of a line.
const MOST: usize = 96;

/// The bytes of a line, at most 96.
pub struct Line {
    bytes: [u8; 96],
    len: usize,
}

impl Drop for Line {
    fn drop(self) {
        let Line { bytes: _, len: _ } = self;
    }
}

impl Model for Line {
    ghost use Rattle.std.specs.Prelude.{ℕ, ◌≤◌, List, take};

    ghost Value = { List ℕ };

    ghost view = { λ s. take s.len s.bytes };

    ghost invariant = { λ s. s.len ≤ 96 };
}

impl Line {
    ghost use Rattle.std.specs.Prelude.{◌≡◌, ◌+◌, ◌≤◌, ◌<◌, ◌^◌, [], ◌∷◌, ◌++◌, length};
    ghost use Rattle.std.specs.Fmt.{decimal};

    fn new() -> Line
        ensures { result ≡ [] }
    {
        Line {
            bytes: [0; MOST],
            len: 0,
        }
    }

    pub fn as_bytes(&self) -> &[u8]
        ensures { result.now ≡ self.now }
    {
        &self.bytes[..self.len]
    }

    fn push(&mut self, byte: u8)
        requires { length self.old < 96 }
        ensures { self.new ≡ self.old ++ byte ∷ [] }
    {
        self.bytes[self.len] = byte;
        self.len += 1;
    }

    fn push_text(&mut self, text: &str)
        requires { length self.old + length text.now ≤ 96 }
        ensures { self.new ≡ self.old ++ text.now }
    {
        for byte in text.as_bytes() {
            self.push(*byte);
        }
    }

    fn push_number(&mut self, number: usize)
        requires { length self.old + length (decimal number) ≤ 96 }
        ensures { self.new ≡ self.old ++ decimal number }
    {
        if number >= 10 {
            self.push_number(number / 10);
        }
        self.push(b'0' + (number % 10) as u8);
    }
}

fn plain(name: &str) -> Line
    requires { length name.now ≤ 30 }
    ensures { result ≡ plain name.now }
{
    let mut line = Line::new();
    line.push_text("fault ");
    line.push_text(name);
    line.push_text("\n");
    line
}

fn placed(name: &str, at: usize) -> Line
    requires { length name.now ≤ 30 }
    ensures { result ≡ placed name.now at }
{
    let mut line = Line::new();
    line.push_text("fault ");
    line.push_text(name);
    line.push_text(" at ");
    line.push_number(at);
    line.push_text("\n");
    line
}

fn spanned(name: &str, span: Span) -> Line
    requires { length name.now ≤ 30 }
    ensures { result ≡ spanned name.now span }
{
    let mut line = Line::new();
    line.push_text("fault ");
    line.push_text(name);
    line.push_text(" at ");
    line.push_number(span.start);
    line.push_text("-");
    line.push_number(span.end);
    line.push_text("\n");
    line
}

fn text_line(fault: TextFault) -> Line
    ensures { result ≡ text_line fault }
{
    match fault {
        TextFault::Memory => plain("1 Memory"),
        TextFault::TooLong => plain("2 TooLong"),
        TextFault::BadByte { at } => placed("3 BadByte", at),
        TextFault::OpenComment { at } => placed("4 OpenComment", at),
        TextFault::BadNumber { at } => placed("5 BadNumber", at),
        TextFault::Syntax { at } => placed("6 Syntax", at),
        TextFault::TooDeep { at } => placed("7 TooDeep", at),
    }
}

fn rule_name(rule: Rule) -> &'static str
    ensures name { result.now ≡ rule_name rule }
    ensures short { length result.now ≤ 30 }
{
    match rule {
        Rule::UnknownName => "10 UnknownName",
        Rule::TwiceDeclared => "11 TwiceDeclared",
        Rule::UnknownType => "12 UnknownType",
        Rule::WrongType(_) => "13 WrongType",
        Rule::WrongArguments(_) => "14 WrongArguments",
        Rule::NotAssignable => "15 NotAssignable",
        Rule::NoLoop => "16 NoLoop",
        Rule::UnknownLabel => "17 UnknownLabel",
        Rule::MissingReturn => "18 MissingReturn",
        Rule::ReservedClass => "19 ReservedClass",
        Rule::Limit => "20 Limit",
    }
}

fn check_line(fault: CheckFault) -> Line
    ensures { result ≡ check_line fault }
{
    match fault {
        CheckFault::Memory => plain("1 Memory"),
        CheckFault::Broken(broken) => spanned(rule_name(broken.rule), broken.span),
    }
}

fn program_line(fault: ProgramFault) -> Line
    ensures { result ≡ program_line fault }
{
    match fault {
        ProgramFault::Memory => plain("1 Memory"),
        ProgramFault::BadProgram { at } => placed("21 BadProgram", at),
        ProgramFault::UnknownThing { at } => placed("22 UnknownThing", at),
        ProgramFault::ReferenceResult { at } => placed("23 ReferenceResult", at),
        ProgramFault::ProgramLimit => plain("24 ProgramLimit"),
    }
}

fn build_line(fault: BuildFault) -> Line
    ensures { result ≡ build_line fault }
{
    match fault {
        BuildFault::Lower(LowerFault::Memory)
        | BuildFault::Emit(EmitFault::Memory)
        | BuildFault::Link(LinkFault::Memory) => plain("1 Memory"),
        BuildFault::Lower(LowerFault::TooManyLocals) => plain("30 TooManyLocals"),
        BuildFault::Lower(LowerFault::TooManyCopies) => plain("31 TooManyCopies"),
        BuildFault::Emit(EmitFault::CodeTooLong) => plain("32 CodeTooLong"),
        BuildFault::Link(LinkFault::CodeTooLong) => plain("33 CodeTooLong"),
    }
}

fn schedule_line(fault: ScheduleFault) -> Line
    ensures { result ≡ schedule_line fault }
{
    match fault {
        ScheduleFault::Memory => plain("1 Memory"),
        ScheduleFault::BadItem { at } => placed("40 BadItem", at),
        ScheduleFault::UnknownThread { at } => placed("41 UnknownThread", at),
        ScheduleFault::TooManySteps => plain("42 TooManySteps"),
    }
}

fn aim_line(fault: AimFault) -> Line
    ensures { result ≡ aim_line fault }
{
    match fault {
        AimFault::Memory => plain("1 Memory"),
        AimFault::Schedule(fault) => schedule_line(fault),
        AimFault::NotStarted { at } => placed("85 NotStarted", at),
        AimFault::NotMet { at } => placed("86 NotMet", at),
        AimFault::TooFar { at } => placed("87 TooFar", at),
    }
}

fn cells_line(fault: LoadFault) -> Line
    ensures { result ≡ cells_line fault }
{
    match fault {
        LoadFault::Memory => plain("1 Memory"),
        LoadFault::BadCells => plain("35 BadCells"),
    }
}

fn translation_line(fault: TranslationFault) -> Line
    ensures { result ≡ translation_line fault }
{
    match fault {
        TranslationFault::Memory => plain("1 Memory"),
        TranslationFault::BadCells => plain("35 BadCells"),
        TranslationFault::DoesNotFit { step } => placed("43 DoesNotFit", step),
        TranslationFault::ResultTooLong => plain("44 ResultTooLong"),
    }
}

fn live_line(fault: LivePlayFault) -> Line
    ensures { result ≡ live_line fault }
{
    match fault {
        LivePlayFault::Open(LiveFault::Memory) => plain("1 Memory"),
        LivePlayFault::Open(LiveFault::BadCells) => plain("35 BadCells"),
        LivePlayFault::Open(LiveFault::BadLimit) => plain("51 BadLimit"),
        LivePlayFault::NoThread => plain("52 NoThread"),
        LivePlayFault::Disagree => plain("54 Disagree"),
    }
}

fn turns_line(fault: TurnsPlayFault) -> Line
    ensures { result ≡ turns_line fault }
{
    match fault {
        TurnsPlayFault::Load(fault) => cells_line(fault),
        TurnsPlayFault::Follow(FollowFault::Memory) => plain("1 Memory"),
        TurnsPlayFault::Follow(FollowFault::NoThread) => plain("52 NoThread"),
        TurnsPlayFault::Follow(FollowFault::TurnsSpent { place }) => placed("53 TurnsSpent", place),
    }
}

fn batch_line(fault: BatchFault) -> Line
    ensures { result ≡ batch_line fault }
{
    match fault {
        BatchFault::Memory => plain("1 Memory"),
        BatchFault::BadCells => plain("35 BadCells"),
        BatchFault::BadCount => plain("60 BadCount"),
    }
}

fn explore_line(fault: ExploreFault) -> Line
    ensures { result ≡ explore_line fault }
{
    match fault {
        ExploreFault::Memory => plain("1 Memory"),
        ExploreFault::BadCells => plain("35 BadCells"),
        ExploreFault::BadStates => plain("61 BadStates"),
        ExploreFault::SetupEndless => plain("62 SetupEndless"),
        ExploreFault::Setup(fault) => translation_line(fault),
    }
}

fn tally_line(fault: TallyFault) -> Line
    ensures { result ≡ tally_line fault }
{
    match fault {
        TallyFault::Memory => plain("1 Memory"),
        TallyFault::BadTally { at } => placed("84 BadTally", at),
        TallyFault::CountTooGreat => plain("88 CountTooGreat"),
        TallyFault::OtherCount => plain("89 OtherCount"),
    }
}

fn class_line(fault: ClassFault) -> Line
    ensures { result ≡ class_line fault }
{
    match fault {
        ClassFault::Memory => plain("1 Memory"),
        ClassFault::Text(fault) => text_line(fault),
        ClassFault::NotOneClass => plain("64 NotOneClass"),
        ClassFault::NoMaking => plain("65 NoMaking"),
        ClassFault::NoCalls => plain("66 NoCalls"),
        ClassFault::BadBounds => plain("67 BadBounds"),
        ClassFault::TooManyCalls => plain("68 TooManyCalls"),
        ClassFault::TooManyPrograms => plain("69 TooManyPrograms"),
    }
}

fn compile_line(fault: CompileFault) -> Line
    ensures { result ≡ compile_line fault }
{
    match fault {
        CompileFault::Text(fault) => text_line(fault),
        CompileFault::Check(fault) => check_line(fault),
        CompileFault::Program(fault) => program_line(fault),
        CompileFault::Build(fault) => build_line(fault),
    }
}

/// The line of the fault on the standard error.
pub fn fault_line(fault: ToolFault) -> Line
    ensures { result ≡ fault_line fault }
{
    match fault {
        ToolFault::Memory
        | ToolFault::History(HistoryFault::Memory)
        | ToolFault::Order(OrderFault::Memory) => plain("1 Memory"),
        ToolFault::Text(fault) => text_line(fault),
        ToolFault::Check(fault) => check_line(fault),
        ToolFault::Program(fault) => program_line(fault),
        ToolFault::Build(fault) => build_line(fault),
        ToolFault::BadCells => plain("35 BadCells"),
        ToolFault::Schedule(fault) => schedule_line(fault),
        ToolFault::Translation(fault) => translation_line(fault),
        ToolFault::Live(fault) => live_line(fault),
        ToolFault::Turns(fault) => turns_line(fault),
        ToolFault::Batch(fault) => batch_line(fault),
        ToolFault::Explore(fault) => explore_line(fault),
        ToolFault::Class(fault) => class_line(fault),
        ToolFault::BadNumbers => plain("70 BadNumbers"),
        ToolFault::BadOptions => plain("71 BadOptions"),
        ToolFault::BadEntry { at } => placed("72 BadEntry", at),
        ToolFault::Specification(fault) => compile_line(fault),
        ToolFault::UnlikeSpecification { at } => placed("73 UnlikeSpecification", at),
        ToolFault::LacksMethod(span) => spanned("74 LacksMethod", span),
        ToolFault::Aim(fault) => aim_line(fault),
        ToolFault::History(HistoryFault::BadHistory { at }) => placed("77 BadHistory", at),
        ToolFault::Order(OrderFault::BadOrder { at }) => placed("78 BadOrder", at),
        ToolFault::Tally(fault) => tally_line(fault),
        ToolFault::TooManyTrapped => plain("79 TooManyTrapped"),
        ToolFault::WrongParts => plain("80 WrongParts"),
        ToolFault::NotText => plain("81 NotText"),
        ToolFault::ReadFailed => plain("82 ReadFailed"),
        ToolFault::WriteFailed => plain("83 WriteFailed"),
    }
}
