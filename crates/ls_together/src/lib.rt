//! Steps on values of any type. If something else may fail while a value is owned, the value is dropped here, at a
//! parameter's type. So what holds a tree has less to prove.
#![tactic(auto)]

ghost use Rattle.std.specs.Prelude.{◌≡◌, ◌∷◌, ◌++◌, [], IfOk, Ok, OnOk};

use std::alloc::{AllocError, Global};

/// The item in a box. The only refusal is that memory ran out.
pub fn in_box<T: Drop>(alloc: Global, item: T) -> Result<Box<T>, AllocError>
    ensures { IfOk result (λ b. b.value ≡ item) }
{
    Ok(Box::new(alloc, item)?)
}

/// Each value in a box. The only refusal is that memory ran out.
pub fn two<T: Drop, U: Drop>(alloc: Global, a: T, b: U) -> Result<(Box<T>, Box<U>), AllocError>
    ensures first { IfOk result (λ p. p.0.value ≡ a) }
    ensures second { IfOk result (λ p. p.1.value ≡ b) }
{
    let a = Box::new(alloc, a)?;
    let b = Box::new(alloc, b)?;
    Ok((a, b))
}

/// Each of three values in a box. The only refusal is that memory ran out.
pub fn three<T: Drop, U: Drop, V: Drop>(
    alloc: Global,
    a: T,
    b: U,
    c: V,
) -> Result<(Box<T>, (Box<U>, Box<V>)), AllocError>
    ensures first { IfOk result (λ p. p.0.value ≡ a) }
    ensures second { IfOk result (λ p. p.1.0.value ≡ b) }
    ensures third { IfOk result (λ p. p.1.1.value ≡ c) }
{
    let a = Box::new(alloc, a)?;
    let others = two(alloc, b, c);
    also(a, others)
}

/// The first value, and the second in a box. The only refusal is that memory ran out.
pub fn with_box<T: Drop, U: Drop>(
    alloc: Global,
    first: T,
    value: U,
) -> Result<(T, Box<U>), AllocError>
    ensures first { IfOk result (λ p. p.0 ≡ first) }
    ensures boxed { IfOk result (λ p. p.1.value ≡ value) }
{
    let value = Box::new(alloc, value)?;
    Ok((first, value))
}

/// The first value, and what comes next. If what comes next is refused, so is this.
pub fn also<T: Drop, U: Drop>(first: T, next: Result<U, AllocError>) -> Result<(T, U), AllocError>
    ensures next { IfOk result (λ p. next ≡ Ok p.1) }
    ensures first { IfOk result (λ p. p.0 ≡ first) }
{
    let next = next?;
    Ok((first, next))
}

/// The values in a vector. The only refusal is that memory ran out.
pub fn pair<T: Drop>(alloc: Global, a: T, b: T) -> Result<Vec<T>, AllocError>
    ensures { IfOk result (λ v. v.items ≡ a ∷ b ∷ []) }
{
    let mut both = Vec::new(alloc);
    both.push(a)?;
    both.push(b)?;
    Ok(both)
}

/// The same items, and one more at the end. The only refusal is that memory ran out.
pub fn push<T: Drop>(mut items: Vec<T>, item: T) -> Result<Vec<T>, AllocError>
    ensures { IfOk result (λ v. v.items ≡ items.items ++ item ∷ []) }
{
    items.push(item)?;
    Ok(items)
}

/// One more item at the end. The only refusal is that memory ran out.
pub fn put<T: Drop>(items: &mut Vec<T>, item: T) -> Result<(), AllocError>
    ensures { OnOk result (items.new.items ≡ items.old.items ++ item ∷ []) }
{
    items.push(item)?;
    Ok(())
}

/// Puts a value in the place of another, which is dropped here.
pub fn assign<T: Drop>(place: &mut T, value: T)
    ensures { place.new ≡ value }
{
    *place = value;
}
