// What the classes of a file declare.

use crate::values::{Constant, Kind};
use crate::words::WordId;
use ls_java_tree::names::Span;

/// A type parameter of a class, and what it stands for.
#[derive(Clone, Copy)]
pub struct Variable {
    pub name: WordId,
    pub kind: Kind,
}

/// The type parameters of a method or a constructor: a run of `type_variables` of the tables.
#[derive(Clone, Copy)]
pub struct VariableRun {
    pub first: usize,
    pub end: usize,
}

impl VariableRun {
    /// No type parameters.
    pub const NONE: VariableRun = VariableRun { first: 0, end: 0 };
}

/// A class. `token` is that of its name. `out` is the name of the class of its objects; if it is split, `name` is that
/// of the class of its static members. `outer` is the number of the class around it. `implements` has the names of the
/// types after `implements`.
#[derive(Drop)]
pub struct Class {
    pub token: usize,
    pub span: Span,
    pub name: WordId,
    pub out: WordId,
    pub outer: Option<usize>,
    pub is_static: bool,
    pub is_split: bool,
    pub several_constructors: bool,
    pub variables: Vec<Variable>,
    pub implements: Vec<WordId>,
}

/// A field of the class of a number, with the token of its name, what it is and, if it is one, the constant that it
/// is. `has_value` says that it has its value where it is declared.
#[derive(Clone, Copy)]
pub struct Field {
    pub class: usize,
    pub token: usize,
    pub name: WordId,
    pub has_value: bool,
    pub is_static: bool,
    pub is_final: bool,
    pub kind: Kind,
    pub constant: Option<Constant>,
}

/// A method of the class of a number, with the token of its name. `out` is the name that it gets. `me` is the name of
/// the parameter for the thread's number, if it needs one. `main` is known by its form, and its parameters have no
/// kind.
#[derive(Drop)]
pub struct Method {
    pub class: usize,
    pub token: usize,
    pub name: WordId,
    pub out: WordId,
    pub type_variables: VariableRun,
    pub is_static: bool,
    pub is_synchronized: bool,
    pub parameters: Vec<Kind>,
    pub result: Kind,
    pub me: Option<WordId>,
    pub is_main: bool,
}

/// A constructor of the class of a number, with the token of its name, and the names and kinds of its parameters. `out`
/// is the name of its method where the class has several. `delegate` is the number of the arguments of its `this(..)`
/// among the expressions that are kept, if it has nothing else.
#[derive(Drop)]
pub struct Constructor {
    pub class: usize,
    pub token: usize,
    pub out: WordId,
    pub type_variables: VariableRun,
    pub names: Vec<WordId>,
    pub parameters: Vec<Kind>,
    pub delegate: Option<usize>,
}

/// An interface with the token of its name, and the number of the one class that implements it.
#[derive(Clone, Copy)]
pub struct Interface {
    pub token: usize,
    pub name: WordId,
    pub class: Option<usize>,
}

/// An enum. The value of a constant is one more than its place.
#[derive(Drop)]
pub struct Enumeration {
    pub name: WordId,
    pub constants: Vec<WordId>,
}

/// A condition: the field's class and name, and the number of the lock whose `newCondition()` it is, among the
/// expressions that are kept.
#[derive(Clone, Copy)]
pub struct Condition {
    pub class: usize,
    pub name: WordId,
    pub lock: usize,
}

/// A class that is left out: an exception, or ThreadID.
#[derive(Clone, Copy, PartialEq, Eq)]
pub enum Gone {
    Exception,
    ThreadNumber,
}

/// What a file declares. Classes, fields, methods and constructors are by number, in the order of the file.
#[derive(Drop)]
pub struct Tables {
    pub classes: Vec<Class>,
    pub fields: Vec<Field>,
    pub methods: Vec<Method>,
    pub constructors: Vec<Constructor>,
    // the type parameters of methods and constructors
    pub type_variables: Vec<WordId>,
    pub interfaces: Vec<Interface>,
    pub enums: Vec<Enumeration>,
    pub conditions: Vec<Condition>,
    // by the number of a body of the file, that of the value which it returns, among the expressions that are kept
    pub returned: Vec<Option<usize>>,
    pub gone: Vec<(WordId, Gone)>,
    // names of members whose declarations were refused
    pub broken: Vec<WordId>,
    // whether the file says `new Object()`, so that an Object is a class of its own
    pub has_keys: bool,
}
