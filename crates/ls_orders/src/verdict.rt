// Verdicts.

use std::alloc::AllocError;

/// What an order or its history breaks, in the order of the tests.
#[derive(Copy, PartialEq, Eq)]
pub enum OrderRule {
    NotASetCall,
    UnknownCall,
    Repeated,
    Missing,
    AgainstTime,
    WrongReply,
}

impl Clone for OrderRule {
    fn clone(&self) -> Result<OrderRule, AllocError> {
        Ok(*self)
    }
}

/// Whether an order is legal, or the first rule that is broken, with the text of the first call that breaks it.
#[derive(Drop)]
pub enum OrderVerdict {
    Legal,
    Broken { rule: OrderRule, call: String },
}
