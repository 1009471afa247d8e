// Why a tape isn't followed to its end.

ghost use Rattle.ls_live.specs.declared.follow_fault.TapeFault.TheVariants.{Load, Follow};
ghost use Rattle.std.specs.Prelude.{◌≡◌};

use ls_machine::LoadFault;
use thiserror::Error;

/// Why seats don't reach the end of their tape.
#[derive(Clone, Copy, Debug, Error, PartialEq, Eq)]
pub enum FollowFault {
    #[error("out of memory")]
    Memory,
    /// A seat got no thread of its own.
    #[error("a thread couldn't be started")]
    NoThread,
    /// 10,000,000 times in a row a seat was answered that the entry at this place is another's.
    #[error("the entry at {place} was never done")]
    TurnsSpent { place: usize },
}

/// Why a tape isn't played.
#[derive(Clone, Copy, Debug, Error, PartialEq, Eq)]
pub enum TapeFault {
    #[error("the machine isn't loaded")]
    Load(LoadFault),
    #[error("the tape isn't followed to its end")]
    Follow(FollowFault),
}

impl From<LoadFault> for TapeFault {
    ghost from_gives = { λ f e. e ≡ Load f };

    fn from(fault: LoadFault) -> TapeFault {
        TapeFault::Load(fault)
    }
}

impl From<FollowFault> for TapeFault {
    ghost from_gives = { λ f e. e ≡ Follow f };

    fn from(fault: FollowFault) -> TapeFault {
        TapeFault::Follow(fault)
    }
}
