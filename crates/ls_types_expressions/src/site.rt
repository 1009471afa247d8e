// What is around an expression.

use ls_types_elaboration::known::Local;
use ls_types_tables::known::Known;
use std::alloc::{AllocError, Global};

/// What the file declares, the locals in scope, and the allocator.
#[derive(Copy)]
pub struct Site<'k, 'l, 't> {
    pub alloc: Global,
    pub known: Known<'k>,
    pub locals: &'l [Local<'t>],
}

impl<'k, 'l, 't> Clone for Site<'k, 'l, 't> {
    fn clone(&self) -> Result<Site<'k, 'l, 't>, AllocError> {
        Ok(*self)
    }
}
