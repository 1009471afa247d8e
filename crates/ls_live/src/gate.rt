// The gate of the threads of a run.

/// What each thread of a run passes before each of its steps, outside of any lock.
pub trait Gate {
    fn pass(&self, thread: usize);
}

/// A gate that every thread passes at once.
#[derive(Drop)]
pub struct OpenGate;

impl Gate for OpenGate {
    fn pass(&self, _thread: usize) {}
}
