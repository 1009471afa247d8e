// Where the exits of a leavable statement are.

ghost use Rattle.ls_code.specs.Limits.{most_instructions};
ghost use Rattle.std.specs.Prelude.{◌≡◌, ◌+◌, ◌≤◌, ◌++◌, [], ◌∷◌, IfOk};
ghost use Rattle.ls_emit.specs.Places.{room, places_by};

use std::alloc::{AllocError, Global};

/// The place of the exits, and where each exit begins, which is after its jump.
#[derive(Drop)]
pub struct Layout {
    pub place: usize,
    pub begins: Vec<u32>,
}

// How many instructions exits of these sizes have, each after a jump.
fn room_of(sizes: &[usize]) -> usize
    requires { room sizes.now ≤ most_instructions }
    ensures { result ≡ room sizes.now }
{
    let mut count = 0;
    for size in sizes {
        count += 1 + *size;
    }
    count
}

// Where exits of these sizes begin, each after a jump, if the first jump is at `place`.
fn find_begins(alloc: Global, place: usize, sizes: &[usize]) -> Result<Vec<u32>, AllocError>
    requires { place + room sizes.now ≤ most_instructions }
    ensures { IfOk result (λ begins. begins.items ++ (place + room sizes.now) ∷ [] ≡ places_by place sizes.now) }
{
    let mut begins = Vec::with_capacity(alloc, sizes.len())?;
    let mut next = place;
    for size in sizes {
        begins.push((next + 1) as u32)?;
        next += 1 + *size;
    }
    Ok(begins)
}

/// Where exits of these sizes are that end at `end`. The only refusal is that memory ran out.
pub fn lay_out(alloc: Global, end: usize, sizes: &[usize]) -> Result<Layout, AllocError>
    requires room { room sizes.now ≤ end }
    requires few { end ≤ most_instructions }
    ensures place { IfOk result (λ layout. layout.place + room sizes.now ≡ end) }
    ensures begins { IfOk result (λ layout. layout.begins.items ++ end ∷ [] ≡ places_by layout.place sizes.now) }
{
    let place = end - room_of(sizes);
    let begins = find_begins(alloc, place, sizes)?;
    Ok(Layout { place, begins })
}
