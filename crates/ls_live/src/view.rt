// What a seat knows. No value of the type is made.

use ls_machine::Machine;
use std::collections::LinkedList;

/// How the machine began, the tape, and how many of the seats it stands for. Whether it deals the seats out or steps,
/// its thread, and how many entries it has seen done. How many of them it did, whether its turn has come, and whether
/// the machine is out with it.
pub struct View {
    pub start: Machine,
    pub tape: LinkedList<usize>,
    pub parts: u64,
    pub dealing: bool,
    pub live: bool,
    pub thread: u64,
    pub seen: u64,
    pub steps: u64,
    pub ready: bool,
    pub out: u64,
}
