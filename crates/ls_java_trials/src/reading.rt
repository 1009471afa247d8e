// What the trials ask: whether a text is read.

use ls_java_lexer::fault::JavaFault;
use ls_java_parser::reading::read_java;
use std::alloc::Global;

/// Why a text isn't read, or nothing.
pub fn fault_of(alloc: Global, text: &str) -> Option<JavaFault> {
    match read_java(alloc, text) {
        Ok(_) => None,
        Err(fault) => Some(fault),
    }
}
