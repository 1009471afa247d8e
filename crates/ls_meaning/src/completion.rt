// How a statement completes.

use ls_events::kind::Kind;
use std::alloc::AllocError;

/// How a statement completes (JLS 14.1). `Broke` and `Continued` say to which loop the jump belongs, counted outward:
/// 0 is the innermost.
#[derive(Copy)]
pub enum Completion<V> {
    Normal,
    Broke(usize),
    Continued(usize),
    Returned(Option<V>),
    Threw(Kind),
}

impl<V: Copy> Clone for Completion<V> {
    fn clone(&self) -> Result<Completion<V>, AllocError> {
        Ok(*self)
    }
}
