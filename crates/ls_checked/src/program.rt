// Thread programs whose names are resolved, with the texts that a history shows.

ghost use Rattle.std.specs.Prelude.{◌≤◌, length};

use ls_events::value::{Value, ValueType};

/// A setup name, and the class of its object.
#[derive(Drop)]
pub struct SetupName {
    pub name: String,
    pub class: usize,
}

/// `name = new C(values)`, or `name.method(values)`.
#[derive(Drop)]
pub enum ProgramCall {
    Making {
        name: usize,
        class: usize,
        class_name: String,
        values: Vec<Value>,
    },
    Calling {
        name: usize,
        method: usize,
        method_name: String,
        /// The type that the method answers: int, boolean, or none.
        result: Option<ValueType>,
        values: Vec<Value>,
    },
}

/// A thread of a program: its name, and its calls in order.
#[derive(Drop)]
pub struct ThreadProgram {
    pub name: String,
    pub calls: Vec<ProgramCall>,
}

/// A thread program. Thread 0 is the setup, named `setup`; the others follow in text order.
#[derive(Drop)]
pub struct Program {
    pub names: Vec<SetupName>,
    pub threads: Vec<ThreadProgram>,
    /// At most 64 threads follow the setup.
    pub ghost few: { length threads.items ≤ 65 },
}
