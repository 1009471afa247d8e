// What is timed, and its texts.

use std::alloc::{AllocError, Global};

/// What is timed.
#[derive(Copy, PartialEq, Eq)]
pub enum Part {
    /// A loop that computes with locals.
    Arithmetic,
    /// A loop that adds one to a field.
    Fields,
    /// A loop that calls a method.
    Calls,
    /// A loop that takes a lock and gives it back.
    Locks,
    /// The first loop in two threads.
    Turns,
}

impl Clone for Part {
    fn clone(&self) -> Result<Part, AllocError> {
        Ok(*self)
    }
}

/// The class whose methods are timed.
pub const CLASSES: &str = "class Bench {
  int f;
  Lock l = new ReentrantLock();
  void arithmetic(int n) {
    int i = 0;
    int s = 0;
    while (i < n) { s = s * 3 + i; i = i + 1; }
  }
  void fields(int n) { while (f < n) { f = f + 1; } }
  void calls(int n) {
    int i = 0;
    while (i < n) { i = next(i); }
  }
  int next(int i) { return i + 1; }
  void locks(int n) {
    int i = 0;
    while (i < n) { l.lock(); l.unlock(); i = i + 1; }
  }
}
";

/// The method that a part times.
fn method_of(part: Part) -> &'static str {
    match part {
        Part::Arithmetic | Part::Turns => "arithmetic",
        Part::Fields => "fields",
        Part::Calls => "calls",
        Part::Locks => "locks",
    }
}

/// The program of a part: two threads of one call each, which goes on for a long time.
pub fn program_text(alloc: Global, part: Part) -> Result<String, AllocError> {
    let method = method_of(part);
    format!(in alloc;
        "setup {{ b = new Bench(); }} thread A {{ b.{method}(2000000000); }} thread B {{ b.{method}(2000000000); }}"
    )
}

/// The part of a name.
pub fn part_of(name: &str) -> Option<Part> {
    match name {
        "arithmetic" => Some(Part::Arithmetic),
        "fields" => Some(Part::Fields),
        "calls" => Some(Part::Calls),
        "locks" => Some(Part::Locks),
        "turns" => Some(Part::Turns),
        _ => None,
    }
}
