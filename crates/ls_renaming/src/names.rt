// Other numbers for objects.

ghost use Rattle.std.specs.Prelude.{◌≡◌, IfOk};
ghost use Rattle.ls_meaning.specs.Renamings.{renamed, renamed_result};
ghost use Rattle.ls_works.specs.Frames.{renamed_values};

use ls_events::value::Value;
use std::alloc::{AllocError, Global};

/// Other numbers for objects: those of the objects 1, 2 and so on. The objects after these come after so many others.
#[derive(Drop)]
pub struct Names {
    pub numbers: Vec<u64>,
    pub others: u64,
}

impl Names {
    ghost use Rattle.ls_renaming.specs.Seen.{names_of};

    /// The other number of an object. It is refused only if there is none below 2^64.
    pub fn number(&self, object: u64) -> Result<u64, AllocError>
        ensures { IfOk result (λ n. n ≡ names_of self.now object) }
    {
        if object == 0 {
            return Ok(0);
        }
        let count = self.numbers.len() as u64;
        if object <= count {
            return Ok(self.numbers[(object - 1) as usize]);
        }
        (object - count).checked_add(self.others).ok_or(AllocError)
    }

    /// A value with other numbers.
    pub fn value(&self, value: Value) -> Result<Value, AllocError>
        ensures { IfOk result (λ v. v ≡ renamed (names_of self.now) value) }
    {
        match value {
            Value::Int(int) => Ok(Value::Int(int)),
            Value::Boolean(truth) => Ok(Value::Boolean(truth)),
            Value::Reference(object) => Ok(Value::Reference(self.number(object)?)),
            Value::Pair { reference, mark } => Ok(Value::Pair {
                reference: self.number(reference)?,
                mark,
            }),
        }
    }

    /// Values with other numbers.
    pub fn values(&self, alloc: Global, values: &[Value]) -> Result<Vec<Value>, AllocError>
        ensures { IfOk result (λ v. v.items ≡ renamed_values (names_of self.now) values.now) }
    {
        let mut renamed = Vec::new(alloc);
        for value in values {
            renamed.push(self.value(*value)?)?;
        }
        Ok(renamed)
    }

    /// A result with other numbers.
    pub fn result(&self, result_value: Option<Value>) -> Result<Option<Value>, AllocError>
        ensures { IfOk result (λ v. v ≡ renamed_result (names_of self.now) result_value) }
    {
        match result_value {
            None => Ok(None),
            Some(value) => Ok(Some(self.value(value)?)),
        }
    }
}
