// Bounds of a search, and why it isn't complete.

ghost use Rattle.std.specs.Prelude.{◌≡◌};
ghost use Rattle.ls_serial_search.specs.Told.{usual};

use std::alloc::AllocError;

/// Bounds of a search.
#[derive(Drop)]
pub struct Bounds {
    /// The most steps in which a call is followed.
    pub steps: usize,
    /// The most orders of calls: if there are more, the next calls are no longer followed.
    pub orders: usize,
}

impl Bounds {
    /// The bounds by which commands search: 10,000 steps of a call, and 10,000 orders.
    pub fn usual() -> Bounds
        ensures { result ≡ usual }
    {
        Bounds {
            steps: 10_000,
            orders: 10_000,
        }
    }
}

/// Why it isn't known of a history whether it is linearizable: the bound that was met.
#[derive(Copy, PartialEq, Eq)]
pub enum Doubt {
    /// A call alone doesn't end within the most steps.
    LongCall,
}

impl Clone for Doubt {
    fn clone(&self) -> Result<Doubt, AllocError> {
        Ok(*self)
    }
}
