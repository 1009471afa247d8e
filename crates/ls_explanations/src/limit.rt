// What is said where a limit isn't kept.

ghost use Rattle.std.specs.Prelude.{◌≡◌};
ghost use Rattle.ls_explanations.specs.Limits.{batch_limit, build_limit, cells_limit, class_limit, explore_limit};
ghost use Rattle.ls_explanations.specs.Limits.{limit_sentence, live_limit, translation_limit, turns_limit};

use ls_batch::BatchFault;
use ls_class_programs::ClassFault;
use ls_emit::fault::EmitFault;
use ls_explore::ExploreFault;
use ls_faults::fault::ToolFault;
use ls_linker::fault::{BuildFault, LinkFault};
use ls_live::{FollowFault, LiveFault, PlayFault as LivePlayFault, TapeFault as TurnsPlayFault};
use ls_lowered::fault::LowerFault;
use ls_machine::LoadFault;
use ls_tallies::TallyFault;
use ls_translation::fault::TranslationFault;

/// How many cells are taken.
const CELLS: &str = "expected `--cells` 1 to 4194304, and no fewer than the setup has names\n";

fn build_limit(fault: BuildFault) -> &'static str
    ensures { result.now ≡ build_limit fault }
{
    match fault {
        BuildFault::Lower(LowerFault::Memory) => "",
        BuildFault::Lower(LowerFault::TooManyLocals) =>
            "too many locals: a method has at most 128, with those that its operations take\n",
        BuildFault::Lower(LowerFault::TooManyCopies) =>
            "too many `finally` blocks in one another: a method has at most 4,096 copies of them\n",
        BuildFault::Emit(EmitFault::Memory) => "",
        BuildFault::Emit(EmitFault::CodeTooLong) =>
            "this method is too long: it has at most 65,536 instructions\n",
        BuildFault::Link(LinkFault::Memory) => "",
        BuildFault::Link(LinkFault::CodeTooLong) =>
            "the class text is too long: all methods have at most 65,536 instructions\n",
    }
}

fn cells_limit(fault: LoadFault) -> &'static str
    ensures { result.now ≡ cells_limit fault }
{
    match fault {
        LoadFault::Memory => "",
        LoadFault::BadCells => CELLS,
    }
}

fn translation_limit(fault: TranslationFault) -> &'static str
    ensures { result.now ≡ translation_limit fault }
{
    match fault {
        TranslationFault::Memory => "",
        TranslationFault::BadCells => CELLS,
        TranslationFault::DoesNotFit { step: _ } =>
            "what this step makes has no room: the number is that of the step, and `--cells` gives more\n",
        TranslationFault::ResultTooLong =>
            "too many steps: the schedule that is to be printed has over 1,000,000\n",
    }
}

fn live_limit(fault: LivePlayFault) -> &'static str
    ensures { result.now ≡ live_limit fault }
{
    match fault {
        LivePlayFault::Open(LiveFault::Memory) => "",
        LivePlayFault::Open(LiveFault::BadCells) => CELLS,
        LivePlayFault::Open(LiveFault::BadLimit) => "expected `--limit` at most 1000000\n",
        LivePlayFault::NoThread => "the system starts no further thread\n",
        LivePlayFault::Disagree => "a thread has another number of steps than the record\n",
    }
}

fn turns_limit(fault: TurnsPlayFault) -> &'static str
    ensures { result.now ≡ turns_limit fault }
{
    match fault {
        TurnsPlayFault::Load(fault) => cells_limit(fault),
        TurnsPlayFault::Follow(FollowFault::Memory) => "",
        TurnsPlayFault::Follow(FollowFault::NoThread) => "the system starts no further thread\n",
        TurnsPlayFault::Follow(FollowFault::TurnsSpent { place: _ }) =>
            "a thread has waited too long for its turn at this step of the schedule\n",
    }
}

fn batch_limit(fault: BatchFault) -> &'static str
    ensures { result.now ≡ batch_limit fault }
{
    match fault {
        BatchFault::Memory => "",
        BatchFault::BadCells => CELLS,
        BatchFault::BadCount =>
            "expected `--count` 1 to 100000, `--steps` at most 900000, `--switch` 1 to 900000, and seeds below 2^64\n",
    }
}

fn explore_limit(fault: ExploreFault) -> &'static str
    ensures { result.now ≡ explore_limit fault }
{
    match fault {
        ExploreFault::Memory => "",
        ExploreFault::BadCells => CELLS,
        ExploreFault::BadStates =>
            "expected `--states` 1 to 16777216, and at most 200000 of `page`\n",
        ExploreFault::SetupEndless =>
            "the setup hasn't ended in 100,000 steps: look for a loop that doesn't end\n",
        ExploreFault::Setup(fault) => translation_limit(fault),
    }
}

fn class_limit(fault: ClassFault) -> &'static str
    ensures { result.now ≡ class_limit fault }
{
    match fault {
        ClassFault::Memory => "",
        ClassFault::Text(_) => "",
        ClassFault::NotOneClass =>
            "expected one class that no other class names: `--class 2` takes the second of the text\n",
        ClassFault::NoMaking =>
            "the constructor takes a reference: write one that takes `int` and `boolean` alone, or nothing\n",
        ClassFault::NoCalls =>
            "a method that isn't private must take and return only `int`, `boolean` or nothing: write one; or fill the menu\n",
        ClassFault::BadBounds =>
            "expected `--threads` 1 to 4, `--calls` 1 to 4, `--setup` at most 8, and `--values` and `--new` 1 to 9\n",
        ClassFault::TooManyCalls =>
            "too many lists of arguments: a method has at most 1,000, so take fewer `--values`\n",
        ClassFault::TooManyPrograms =>
            "too many programs: at most 1,000,000, so take fewer `--calls`, `--setup` or `--values`\n",
    }
}

/// What is said of a fault of a limit. Of others nothing is.
pub(crate) fn limit_sentence(fault: ToolFault) -> &'static str
    ensures { result.now ≡ limit_sentence fault }
{
    match fault {
        ToolFault::Build(fault) => build_limit(fault),
        ToolFault::BadCells => CELLS,
        ToolFault::Translation(fault) => translation_limit(fault),
        ToolFault::Live(fault) => live_limit(fault),
        ToolFault::Turns(fault) => turns_limit(fault),
        ToolFault::Batch(fault) => batch_limit(fault),
        ToolFault::Explore(fault) => explore_limit(fault),
        ToolFault::Class(fault) => class_limit(fault),
        ToolFault::BadNumbers =>
            "no program has one of these numbers, or the ranges don't follow one another\n",
        ToolFault::Tally(TallyFault::CountTooGreat) => "the counts come to 2^64 or more\n",
        ToolFault::Tally(TallyFault::OtherCount) =>
            "the counts, or the numbers of the ranges, don't come to `--count`\n",
        ToolFault::TooManyTrapped =>
            "too many trapped calls: an order is looked for if an item has at most 12\n",
        _ => "",
    }
}
