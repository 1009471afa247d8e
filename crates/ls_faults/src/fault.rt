// Faults of the program and of the layers below.

ghost use Rattle.std.specs.Prelude.{◌≡◌};
ghost use Rattle.ls_faults.specs.Faults.{lifted_aim, lifted_batch, lifted_build, lifted_cells, lifted_check};
ghost use Rattle.ls_faults.specs.Faults.{lifted_class, lifted_entry, lifted_reference, lifted_specification};
ghost use Rattle.ls_faults.specs.Faults.{lifted_compile, lifted_explore, lifted_history, lifted_live, lifted_order};
ghost use Rattle.ls_faults.specs.Faults.{lifted_program, lifted_schedule, lifted_search, lifted_tally, lifted_text};
ghost use Rattle.ls_faults.specs.Faults.{lifted_translation, lifted_turns, lifted_unlike, unless_memory};
ghost use Rattle.ls_faults.specs.declared.fault.ToolFault.TheVariants.{Memory};

use ls_aim::fault::AimFault;
use ls_batch::BatchFault;
use ls_class_programs::{ClassFault, EntryFault};
use ls_compiler::fault::CompileFault;
use ls_emit::fault::EmitFault;
use ls_explore::ExploreFault;
use ls_lexer::fault::TextFault;
use ls_lexer::token::Span;
use ls_linker::fault::{BuildFault, LinkFault};
use ls_live::{FollowFault, LiveFault, PlayFault as LivePlayFault, TapeFault as TurnsPlayFault};
use ls_lowered::fault::LowerFault;
use ls_machine::LoadFault;
use ls_order_search::SearchFault;
use ls_orders::OrderFault;
use ls_report::HistoryFault;
use ls_schedule::fault::ScheduleFault;
use ls_specified::SpecificationFault;
use ls_tallies::TallyFault;
use ls_translation::fault::TranslationFault;
use ls_types_checked::checked::CheckFault;
use ls_types_checked::fault::ProgramFault;
use std::alloc::{AllocError, AllocFailed};
use thiserror::Error;

/// A fault of the program, or of a layer below.
#[derive(Clone, Copy, Debug, Error, PartialEq, Eq)]
pub enum ToolFault {
    #[error("out of memory")]
    Memory,
    #[error(transparent)]
    Text(TextFault),
    #[error(transparent)]
    Check(CheckFault),
    #[error(transparent)]
    Program(ProgramFault),
    #[error(transparent)]
    Build(BuildFault),
    #[error("a machine can't have so many cells, or so few")]
    BadCells,
    #[error(transparent)]
    Schedule(ScheduleFault),
    #[error(transparent)]
    Translation(TranslationFault),
    #[error(transparent)]
    Live(LivePlayFault),
    #[error(transparent)]
    Turns(TurnsPlayFault),
    #[error(transparent)]
    Batch(BatchFault),
    #[error(transparent)]
    Explore(ExploreFault),
    #[error(transparent)]
    Class(ClassFault),
    #[error("no program has one of these numbers")]
    BadNumbers,
    #[error("these options don't go together")]
    BadOptions,
    /// The specification isn't compiled, with the fault of its class text.
    #[error(transparent)]
    Specification(CompileFault),
    /// The program isn't one of the specification too, at this byte: a class, constructor or method isn't there, takes
    /// other arguments, or answers another type.
    #[error("the call isn't one of the specification")]
    UnlikeSpecification { at: usize },
    /// The class lacks this constructor or method of the specification, or has it with other types.
    #[error("the class lacks a method of the specification")]
    LacksMethod(Span),
    /// The entry of a menu whose line begins at this byte isn't calls of the class.
    #[error("an entry of the menu isn't calls of the class")]
    BadEntry { at: usize },
    #[error(transparent)]
    Aim(AimFault),
    #[error(transparent)]
    History(HistoryFault),
    #[error(transparent)]
    Order(OrderFault),
    #[error(transparent)]
    Tally(TallyFault),
    #[error("an item has more trapped calls than are decided on")]
    TooManyTrapped,
    #[error("the command wants another number of parts")]
    WrongParts,
    #[error("the input isn't UTF-8")]
    NotText,
    #[error("the input couldn't be read")]
    ReadFailed,
    #[error("the output couldn't be written")]
    WriteFailed,
}

impl From<AllocError> for ToolFault {
    ghost from_gives = { λ _ e. e ≡ Memory };

    fn from(_error: AllocError) -> ToolFault {
        ToolFault::Memory
    }
}

impl<T: Drop> From<AllocFailed<T>> for ToolFault {
    ghost from_gives = { λ _ e. e ≡ Memory };

    fn from(_error: AllocFailed<T>) -> ToolFault {
        ToolFault::Memory
    }
}

impl From<HistoryFault> for ToolFault {
    ghost from_gives = { λ f e. e ≡ lifted_history f };

    fn from(fault: HistoryFault) -> ToolFault {
        match fault {
            HistoryFault::Memory => ToolFault::Memory,
            other => ToolFault::History(other),
        }
    }
}

impl From<OrderFault> for ToolFault {
    ghost from_gives = { λ f e. e ≡ lifted_order f };

    fn from(fault: OrderFault) -> ToolFault {
        match fault {
            OrderFault::Memory => ToolFault::Memory,
            other => ToolFault::Order(other),
        }
    }
}

impl From<TallyFault> for ToolFault {
    ghost from_gives = { λ f e. e ≡ lifted_tally f };

    fn from(fault: TallyFault) -> ToolFault {
        match fault {
            TallyFault::Memory => ToolFault::Memory,
            other => ToolFault::Tally(other),
        }
    }
}

impl From<SearchFault> for ToolFault {
    ghost from_gives = { λ f e. e ≡ lifted_search f };

    fn from(fault: SearchFault) -> ToolFault {
        match fault {
            SearchFault::Memory => ToolFault::Memory,
            SearchFault::BadHistory { at } => ToolFault::History(HistoryFault::BadHistory { at }),
            SearchFault::TooManyTrapped => ToolFault::TooManyTrapped,
        }
    }
}

impl From<TextFault> for ToolFault {
    ghost from_gives = { λ f e. e ≡ lifted_text f };

    fn from(fault: TextFault) -> ToolFault {
        match fault {
            TextFault::Memory => ToolFault::Memory,
            other => ToolFault::Text(other),
        }
    }
}

impl From<CheckFault> for ToolFault {
    ghost from_gives = { λ f e. e ≡ lifted_check f };

    fn from(fault: CheckFault) -> ToolFault {
        match fault {
            CheckFault::Memory => ToolFault::Memory,
            other => ToolFault::Check(other),
        }
    }
}

impl From<ProgramFault> for ToolFault {
    ghost from_gives = { λ f e. e ≡ lifted_program f };

    fn from(fault: ProgramFault) -> ToolFault {
        match fault {
            ProgramFault::Memory => ToolFault::Memory,
            other => ToolFault::Program(other),
        }
    }
}

impl From<ScheduleFault> for ToolFault {
    ghost from_gives = { λ f e. e ≡ lifted_schedule f };

    fn from(fault: ScheduleFault) -> ToolFault {
        match fault {
            ScheduleFault::Memory => ToolFault::Memory,
            other => ToolFault::Schedule(other),
        }
    }
}

impl From<AimFault> for ToolFault {
    ghost from_gives = { λ f e. e ≡ lifted_aim f };

    fn from(fault: AimFault) -> ToolFault {
        match fault {
            AimFault::Memory => ToolFault::Memory,
            AimFault::Schedule(fault) => ToolFault::from(fault),
            other => ToolFault::Aim(other),
        }
    }
}

impl From<BuildFault> for ToolFault {
    ghost from_gives = { λ f e. e ≡ lifted_build f };

    fn from(fault: BuildFault) -> ToolFault {
        match fault {
            BuildFault::Lower(LowerFault::Memory)
            | BuildFault::Emit(EmitFault::Memory)
            | BuildFault::Link(LinkFault::Memory) => ToolFault::Memory,
            other => ToolFault::Build(other),
        }
    }
}

impl From<CompileFault> for ToolFault {
    ghost from_gives = { λ f e. e ≡ lifted_compile f };

    fn from(fault: CompileFault) -> ToolFault {
        match fault {
            CompileFault::Text(fault) => ToolFault::from(fault),
            CompileFault::Check(fault) => ToolFault::from(fault),
            CompileFault::Program(fault) => ToolFault::from(fault),
            CompileFault::Build(fault) => ToolFault::from(fault),
        }
    }
}

impl From<LoadFault> for ToolFault {
    ghost from_gives = { λ f e. e ≡ lifted_cells f };

    fn from(fault: LoadFault) -> ToolFault {
        match fault {
            LoadFault::Memory => ToolFault::Memory,
            LoadFault::BadCells => ToolFault::BadCells,
        }
    }
}

impl From<TranslationFault> for ToolFault {
    ghost from_gives = { λ f e. e ≡ lifted_translation f };

    fn from(fault: TranslationFault) -> ToolFault {
        match fault {
            TranslationFault::Memory => ToolFault::Memory,
            TranslationFault::BadCells => ToolFault::BadCells,
            other => ToolFault::Translation(other),
        }
    }
}

impl From<LivePlayFault> for ToolFault {
    ghost from_gives = { λ f e. e ≡ lifted_live f };

    fn from(fault: LivePlayFault) -> ToolFault {
        match fault {
            LivePlayFault::Open(LiveFault::Memory) => ToolFault::Memory,
            LivePlayFault::Open(LiveFault::BadCells) => ToolFault::BadCells,
            other => ToolFault::Live(other),
        }
    }
}

impl From<TurnsPlayFault> for ToolFault {
    ghost from_gives = { λ f e. e ≡ lifted_turns f };

    fn from(fault: TurnsPlayFault) -> ToolFault {
        match fault {
            TurnsPlayFault::Load(fault) => ToolFault::from(fault),
            TurnsPlayFault::Follow(FollowFault::Memory) => ToolFault::Memory,
            other => ToolFault::Turns(other),
        }
    }
}

impl From<BatchFault> for ToolFault {
    ghost from_gives = { λ f e. e ≡ lifted_batch f };

    fn from(fault: BatchFault) -> ToolFault {
        match fault {
            BatchFault::Memory => ToolFault::Memory,
            BatchFault::BadCells => ToolFault::BadCells,
            BatchFault::BadCount => ToolFault::Batch(BatchFault::BadCount),
        }
    }
}

impl From<ExploreFault> for ToolFault {
    ghost from_gives = { λ f e. e ≡ lifted_explore f };

    fn from(fault: ExploreFault) -> ToolFault {
        match fault {
            ExploreFault::Memory => ToolFault::Memory,
            ExploreFault::BadCells => ToolFault::BadCells,
            ExploreFault::Setup(fault) => ToolFault::Translation(fault),
            other => ToolFault::Explore(other),
        }
    }
}

impl From<ClassFault> for ToolFault {
    ghost from_gives = { λ f e. e ≡ lifted_class f };

    fn from(fault: ClassFault) -> ToolFault {
        match fault {
            ClassFault::Memory => ToolFault::Memory,
            ClassFault::Text(fault) => ToolFault::from(fault),
            other => ToolFault::Class(other),
        }
    }
}

impl From<EntryFault> for ToolFault {
    ghost from_gives = { λ f e. e ≡ lifted_entry f };

    fn from(fault: EntryFault) -> ToolFault {
        match fault {
            EntryFault::Memory => ToolFault::Memory,
            EntryFault::NotCalls { at } => ToolFault::BadEntry { at },
            EntryFault::NotCompiled(fault) => ToolFault::from(fault),
        }
    }
}

/// A fault of the reference, unless memory ran out.
fn unless_memory(lifted: ToolFault, fault: CompileFault) -> ToolFault
    ensures { result ≡ unless_memory lifted fault }
{
    match lifted {
        ToolFault::Memory => ToolFault::Memory,
        _ => ToolFault::Specification(fault),
    }
}

/// The fault of a text that is a program of the class and none of the reference.
fn unlike(fault: ProgramFault) -> ToolFault
    ensures { result ≡ lifted_unlike fault }
{
    match fault {
        ProgramFault::Memory => ToolFault::Memory,
        ProgramFault::BadProgram { at }
        | ProgramFault::UnknownThing { at }
        | ProgramFault::ReferenceResult { at } => ToolFault::UnlikeSpecification { at },
        ProgramFault::ProgramLimit => {
            ToolFault::Specification(CompileFault::Program(ProgramFault::ProgramLimit))
        }
    }
}

/// The fault where the reference isn't compiled with a text that is a program of the class.
fn of_reference(fault: CompileFault) -> ToolFault
    ensures { result ≡ lifted_reference fault }
{
    match fault {
        CompileFault::Program(fault) => unlike(fault),
        other => unless_memory(ToolFault::from(other), other),
    }
}

impl From<SpecificationFault> for ToolFault {
    ghost from_gives = { λ f e. e ≡ lifted_specification f };

    fn from(fault: SpecificationFault) -> ToolFault {
        match fault {
            SpecificationFault::Memory => ToolFault::Memory,
            SpecificationFault::NotCompiled(fault) => of_reference(fault),
            SpecificationFault::OtherResult => ToolFault::UnlikeSpecification { at: 0 },
        }
    }
}
