// Methods and files.

ghost use Rattle.ls_code.specs.Limits.{most_instructions};
ghost use Rattle.std.specs.Prelude.{◌≡◌, ◌≤◌, ◌↔◌, All, map, IfOk, IfErr, IsTrue, OnOk};
ghost use Rattle.ls_lowered.specs.Plain.{plain_statement, plain_file};
ghost use Rattle.ls_finally.specs.Counts.{FewCopies};
ghost use Rattle.ls_linker.specs.Costs.{copied, counted_size, sum};
ghost use Rattle.ls_linker.specs.Refused.{AreShort, AreShortTogether, Refused, Fits, TooManyOf};

use crate::count_fault::CountFault;
use crate::counting::Counting;
use ls_emit::lengths::MOST_INSTRUCTIONS;
use ls_lowered::tree::{File, Method};
use std::alloc::Global;

// How many instructions a method's code has; 65,537 if it has over 65,536. It is refused if there are too many copies.
fn count_method(alloc: Global, method: &Method) -> Result<usize, CountFault>
    ensures length { IfOk result (λ n. n ≡ counted_size (plain_statement method.now.body)) }
    ensures few { Fits result (copied (plain_statement method.now.body)) }
{
    // A body that ends without a value gives its caller 0.
    let mut counting = Counting {
        copies: 0,
        length: 2,
    };
    let mut ways = Vec::new(alloc);
    counting.count(alloc, &method.body, &mut ways)?;
    Ok(counting.length)
}

// How many instructions each method's code has; 65,537 if it has over 65,536. It is refused if a method has too many
// copies.
fn count_methods(alloc: Global, methods: &[Method]) -> Result<Vec<usize>, CountFault>
    ensures lengths { IfOk result (λ v. v.items ≡ map (λ m. counted_size (plain_statement m.body)) methods.now) }
    ensures few { OnOk result (All (λ m. copied (plain_statement m.body) ≤ 4096) methods.now) }
    ensures refused { IfErr result (TooManyOf methods.now) }
{
    let mut out = Vec::new(alloc);
    for method in methods {
        out.push(count_method(alloc, method)?)?;
    }
    Ok(out)
}

// Whether no method has over 65,536 instructions.
fn are_short(lengths: &[usize]) -> bool
    ensures { IsTrue result ↔ All (λ n. n ≤ most_instructions) lengths.now }
{
    for length in lengths {
        if *length > MOST_INSTRUCTIONS {
            return false;
        }
    }
    true
}

// Whether the methods have at most 65,536 instructions together.
fn are_short_together(lengths: &[usize]) -> bool
    ensures { IsTrue result ↔ (sum lengths.now ≤ most_instructions) }
{
    let mut left = MOST_INSTRUCTIONS;
    for length in lengths {
        if *length > left {
            return false;
        }
        left -= *length;
    }
    true
}

/// Whether a file has a tree without `try`. This is found before any copy of a finally block is made. It is refused by
/// the first of these:
///
///   - a method would have over 4,096 copies;
///   - the code of a method would have over 65,536 instructions;
///   - the code of all methods together would have over 65,536 instructions.
///
/// It is also refused if memory runs out.
pub fn measure(alloc: Global, tree: &File) -> Result<(), CountFault>
    ensures few { OnOk result (FewCopies (plain_file tree.now)) }
    ensures short { OnOk result (AreShort (plain_file tree.now)) }
    ensures together { OnOk result (AreShortTogether (plain_file tree.now)) }
    ensures refused { IfErr result (Refused (plain_file tree.now)) }
{
    let lengths = count_methods(alloc, &tree.methods)?;
    if !are_short(&lengths) {
        return Err(CountFault::TooLong);
    }
    if !are_short_together(&lengths) {
        return Err(CountFault::TooLongTogether);
    }
    Ok(())
}
