// Places that are marked.

ghost use Rattle.std.specs.Prelude.{◌≡◌, ◌==◌, ◌||◌, ◌<◌, ℕ, OnOk, length};
ghost use Rattle.ls_orders.specs.Places.{is_marked};

use std::alloc::AllocError;

/// Whether the place is marked. A place beyond the list isn't.
pub fn is_marked(marks: &[bool], place: usize) -> bool
    ensures { result ≡ is_marked marks.now place }
{
    place < marks.len() && marks[place]
}

fn fill(marks: &mut Vec<bool>, place: usize) -> Result<(), AllocError>
    ensures { OnOk result ((place < length marks.new.items) ×
        ((k : ℕ) → is_marked marks.new.items k ≡ is_marked marks.old.items k)) }
{
    'marks: while marks.len() <= place {
        marks.push(false)?;
    }
    Ok(())
}

/// Marks a place. The only refusal is that memory ran out.
pub fn mark(marks: &mut Vec<bool>, place: usize) -> Result<(), AllocError>
    ensures { OnOk result ((k : ℕ) → is_marked marks.new.items k ≡ (place == k || is_marked marks.old.items k)) }
{
    fill(marks, place)?;
    marks[place] = true;
    Ok(())
}
