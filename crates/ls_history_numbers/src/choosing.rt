// Which places stand for which histories.

ghost use Rattle.std.specs.Prelude.{◌≡◌, ◌<◌, ◌≤◌, ℕ, Bool, Option, Some, IfOk};
ghost use Rattle.std.specs.Prelude.{◌+◌, ◌||◌, List, is_some, length, slice_get};
ghost use Rattle.ls_history_numbers.specs.declared.numbering.Known.{Known as KnownValue};
ghost use Rattle.ls_history_numbers.specs.Choices.{AreThere, IsBegun, IsChosen, IsCovered, IsEnd, TellBegun};
ghost use Rattle.ls_history_numbers.specs.Choices.{TellChoices, TellFirsts, TellLasts};
ghost use Rattle.ls_history_numbers.specs.Chosen.{chosen};
ghost use Rattle.ls_history_numbers.specs.Numbers.{AreNumbered};

use crate::numbering::Known;
use std::alloc::{AllocError, Global};

/// Notes a place as the first that ends, of its number, if it ends.
fn note_end(firsts: &mut Vec<Option<usize>>, numbers: &[usize], ends: &[bool], at: usize)
    requires at { at < length ends.now }
    requires few { length ends.now ≤ length numbers.now }
    requires there { (i n : ℕ) → slice_get numbers.now i ≡ Some n → n < length firsts.old.items }
    ensures many { length firsts.new.items ≡ length firsts.old.items }
    ensures firsts { (from : ℕ) → from ≡ at + 1 →
        TellFirsts numbers.now ends.now firsts.old.items (length firsts.old.items) from →
        TellFirsts numbers.now ends.now firsts.new.items (length firsts.old.items) at }
{
    if ends[at] {
        let number = numbers[at];
        firsts[number] = Some(at);
    }
}

/// For each of so many numbers, the first place that has it and ends.
fn first_ends(
    alloc: Global,
    count: usize,
    numbers: &[usize],
    ends: &[bool],
) -> Result<Vec<Option<usize>>, AllocError>
    requires few { length ends.now ≤ length numbers.now }
    requires there { (at n : ℕ) → slice_get numbers.now at ≡ Some n → n < count }
    ensures { IfOk result (λ v. TellFirsts numbers.now ends.now v.items count 0) }
{
    let mut firsts = vec![in alloc; None; count]?;
    for back in 0..ends.len() {
        note_end(&mut firsts, numbers, ends, ends.len() - 1 - back);
    }
    Ok(firsts)
}

/// Notes a place as the last of its number.
fn note_place(lasts: &mut Vec<Option<usize>>, numbers: &[usize], at: usize)
    requires at { at < length numbers.now }
    requires there { (i n : ℕ) → slice_get numbers.now i ≡ Some n → n < length lasts.old.items }
    ensures many { length lasts.new.items ≡ length lasts.old.items }
    ensures lasts { TellLasts numbers.now lasts.old.items (length lasts.old.items) at →
        TellLasts numbers.now lasts.new.items (length lasts.old.items) (at + 1) }
{
    let number = numbers[at];
    lasts[number] = Some(at);
}

/// For each of so many numbers, the last place that has it.
fn last_places(
    alloc: Global,
    count: usize,
    numbers: &[usize],
) -> Result<Vec<Option<usize>>, AllocError>
    requires { (at n : ℕ) → slice_get numbers.now at ≡ Some n → n < count }
    ensures { IfOk result (λ v. TellLasts numbers.now v.items count (length numbers.now)) }
{
    let mut lasts = vec![in alloc; None; count]?;
    for at in 0..numbers.len() {
        note_place(&mut lasts, numbers, at);
    }
    Ok(lasts)
}

/// Whether a number counts: a place has it, or a history goes on from that of the number.
fn counts(lasts: &[Option<usize>], begun: &[bool], number: usize) -> bool
    requires lasts { number < length lasts.now }
    requires begun { number < length begun.now }
    ensures { (last : Option ℕ) (b : Bool) → slice_get lasts.now number ≡ Some last →
        slice_get begun.now number ≡ Some b →
        result ≡ (is_some last || b) }
{
    lasts[number].is_some() || begun[number]
}

/// The number from which another is made.
fn before_of(all: &[Known], number: usize) -> usize
    requires { number < length all.now }
    ensures { (k : KnownValue) → slice_get all.now number ≡ Some k → result ≡ k.before }
{
    all[number].before
}

/// Notes that a history goes on from that from which a number is made, if the number counts.
fn note_begun(begun: &mut Vec<bool>, all: &[Known], lasts: &[Option<usize>], number: usize)
    requires number { number < length all.now }
    requires lasts { length lasts.now ≡ length all.now }
    requires begun { length begun.old.items ≡ length all.now }
    requires numbered { AreNumbered all.now }
    ensures many { length begun.new.items ≡ length begun.old.items }
    ensures begun { (numbers : List ℕ) (from : ℕ) → from ≡ number + 1 →
        TellLasts numbers lasts.now (length all.now) (length numbers) →
        TellBegun all.now numbers begun.old.items from → TellBegun all.now numbers begun.new.items number }
{
    if number == 0 {
        return;
    }
    if counts(lasts, begun, number) {
        begun[before_of(all, number)] = true;
    }
}

/// For each number, whether a history that a place has goes on from that of the number.
fn begun_of(
    alloc: Global,
    all: &[Known],
    numbers: &[usize],
    lasts: &[Option<usize>],
) -> Result<Vec<bool>, AllocError>
    requires numbered { AreNumbered all.now }
    requires lasts { TellLasts numbers.now lasts.now (length all.now) (length numbers.now) }
    ensures { IfOk result (λ v. TellBegun all.now numbers.now v.items 0) }
{
    let mut begun = vec![in alloc; false; all.len()]?;
    for back in 0..all.len() {
        note_begun(&mut begun, all, lasts, all.len() - 1 - back);
    }
    Ok(begun)
}

/// The place that stands for a history: the first that ends, or else the last, if no history goes on from it.
fn chosen(first: Option<usize>, last: Option<usize>, begun: bool) -> Option<usize>
    ensures { result ≡ chosen first last begun }
{
    match first {
        Some(at) => Some(at),
        None => {
            if begun {
                return None;
            }
            last
        }
    }
}

/// The place that stands for the history of a number.
fn choice_of(
    firsts: &[Option<usize>],
    lasts: &[Option<usize>],
    begun: &[bool],
    number: usize,
) -> Option<usize>
    requires firsts { number < length firsts.now }
    requires lasts { number < length lasts.now }
    requires begun { number < length begun.now }
    ensures { (first last : Option ℕ) (b : Bool) → slice_get firsts.now number ≡ Some first →
        slice_get lasts.now number ≡ Some last → slice_get begun.now number ≡ Some b → result ≡ chosen first last b }
{
    chosen(firsts[number], lasts[number], begun[number])
}

/// For each of so many numbers, the place that stands for its history.
fn choices_of(
    alloc: Global,
    count: usize,
    firsts: &[Option<usize>],
    lasts: &[Option<usize>],
    begun: &[bool],
) -> Result<Vec<Option<usize>>, AllocError>
    requires firsts { length firsts.now ≡ count }
    requires lasts { length lasts.now ≡ count }
    requires begun { length begun.now ≡ count }
    ensures { IfOk result (λ v. TellChoices firsts.now lasts.now begun.now v.items count) }
{
    let mut choices = Vec::new(alloc);
    for number in 0..count {
        choices.push(choice_of(firsts, lasts, begun, number))?;
    }
    Ok(choices)
}

/// For each history by its number, the place that stands for it, if one does. A place has the number of its history,
/// and each of the first places ends or not. The only refusal is that memory ran out.
pub fn choose(
    alloc: Global,
    all: &[Known],
    numbers: &[usize],
    ends: &[bool],
) -> Result<Vec<Option<usize>>, AllocError>
    requires numbered { AreNumbered all.now }
    requires few { length ends.now ≤ length numbers.now }
    requires there { AreThere all.now numbers.now }
    ensures chosen { IfOk result (λ v. (n at : ℕ) → IsChosen v.items n at → slice_get numbers.now at ≡ Some n) }
    ensures ends { IfOk result (λ v. (n at : ℕ) → IsEnd numbers.now ends.now n at →
        (first : ℕ) × IsChosen v.items n first × IsEnd numbers.now ends.now n first) }
    ensures covers { IfOk result (λ v. (n at : ℕ) → slice_get numbers.now at ≡ Some n → IsCovered all.now v.items n) }
    ensures alone { IfOk result (λ v. (n at m other : ℕ) → IsChosen v.items n at →
        (IsEnd numbers.now ends.now n at → ⊥) → slice_get numbers.now other ≡ Some m → IsBegun all.now n m → n ≡ m) }
{
    let firsts = first_ends(alloc, all.len(), numbers, ends)?;
    let lasts = last_places(alloc, all.len(), numbers)?;
    let begun = begun_of(alloc, all, numbers, &lasts)?;
    choices_of(alloc, all.len(), &firsts, &lasts, &begun)
}
