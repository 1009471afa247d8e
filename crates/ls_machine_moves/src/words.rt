// Machine words read as ints, booleans and pairs.
ghost use Rattle.std.specs.Prelude.{◌≡◌, ℕ, ◌+◌, ◌-◌, ◌*◌, ◌/◌, ◌%◌, ◌^◌, ◌<◌, ◌≤◌};
ghost use Rattle.ls_code.specs.Words.{int_of as int_in, word_of as word_for, bool_word as bool_for, bool_of as bool_in};
ghost use Rattle.ls_code.specs.Words.{sum_word, difference_word, product_word, quotient_word, remainder_word};
ghost use Rattle.ls_code.specs.Words.{negative_word, less_word, at_most_word, same_word, not_word, other_word};
ghost use Rattle.ls_code.specs.Words.{pair_word};
ghost use Rattle.ls_code.specs.Kinds.{kind_of as kind_in};
ghost use Rattle.ls_code.specs.Throws.{kind_word as word_for_kind};
ghost use Rattle.ls_code.specs.Cells.{in_range as is_in_range};
ghost use Rattle.std.specs.Int.{w32, cast_unsigned};

use ls_events::kind::Kind;

/// The word of a kind.
pub fn kind_word(kind: Kind) -> u64
    ensures { result ≡ word_for_kind kind }
{
    match kind {
        Kind::Arithmetic => 1,
        Kind::NullPointer => 2,
        Kind::ArrayIndexOutOfBounds => 3,
        Kind::NegativeArraySize => 4,
        Kind::IllegalMonitorState => 5,
        Kind::StackOverflow => 6,
        Kind::Error => 7,
    }
}

/// The kind of a word.
pub fn kind_of(word: u64) -> Option<Kind>
    ensures { result ≡ kind_in word }
{
    match word {
        1 => Some(Kind::Arithmetic),
        2 => Some(Kind::NullPointer),
        3 => Some(Kind::ArrayIndexOutOfBounds),
        4 => Some(Kind::NegativeArraySize),
        5 => Some(Kind::IllegalMonitorState),
        6 => Some(Kind::StackOverflow),
        7 => Some(Kind::Error),
        _ => None,
    }
}

/// The int of a word: its last 32 bits, signed.
#[inline(always)]
pub fn int_of(word: u64) -> i32
    ensures { result ≡ int_in word }
{
    ((word % 0x1_0000_0000) as u32).cast_signed()
}

/// The word of an int.
#[inline(always)]
pub fn word_of(int: i32) -> u64
    ensures { result ≡ word_for int }
{
    int.cast_unsigned() as u64
}

#[inline(always)]
pub fn bool_word(value: bool) -> u64
    ensures { result ≡ bool_for value }
{
    if value { 1 } else { 0 }
}

#[inline(always)]
pub fn bool_of(word: u64) -> bool
    ensures { result ≡ bool_in word }
{
    word == 1
}

/// Whether an array of so many items has one at this index.
#[inline(always)]
pub fn in_range(index: i32, count: u64) -> bool
    ensures { result ≡ is_in_range index count }
{
    index >= 0 && (index.unsigned_abs() as u64) < count
}

#[inline(always)]
pub fn sum(a: u64, b: u64) -> u64
    ensures { result ≡ sum_word a b }
{
    word_of(int_of(a).wrapping_add(int_of(b)))
}

#[inline(always)]
pub fn difference(a: u64, b: u64) -> u64
    ensures { result ≡ difference_word a b }
{
    word_of(int_of(a).wrapping_sub(int_of(b)))
}

#[inline(always)]
pub fn product(a: u64, b: u64) -> u64
    ensures { result ≡ product_word a b }
{
    word_of(int_of(a).wrapping_mul(int_of(b)))
}

pub fn quotient(a: u64, b: u64) -> u64
    requires { 0 < b % 2 ^ 32 }
    ensures { result ≡ quotient_word a b }
{
    word_of(int_of(a).wrapping_div(int_of(b)))
}

pub fn remainder(a: u64, b: u64) -> u64
    requires { 0 < b % 2 ^ 32 }
    ensures { result ≡ remainder_word a b }
{
    word_of(int_of(a).wrapping_rem(int_of(b)))
}

pub fn negative(a: u64) -> u64
    ensures { result ≡ negative_word a }
{
    word_of(int_of(a).wrapping_neg())
}

#[inline(always)]
pub fn less(a: u64, b: u64) -> u64
    ensures { result ≡ less_word a b }
{
    bool_word(int_of(a) < int_of(b))
}

#[inline(always)]
pub fn at_most(a: u64, b: u64) -> u64
    ensures { result ≡ at_most_word a b }
{
    bool_word(int_of(a) <= int_of(b))
}

#[inline(always)]
pub fn same(a: u64, b: u64) -> u64
    ensures { result ≡ same_word a b }
{
    bool_word(a == b)
}

#[inline(always)]
pub fn negation(a: u64) -> u64
    ensures { result ≡ not_word a }
{
    bool_word(a == 0)
}

#[inline(always)]
pub fn other(a: u64, b: u64) -> u64
    ensures { result ≡ other_word a b }
{
    negation(same(a, b))
}

#[inline(always)]
pub fn pair(reference: u64, mark: u64) -> u64
    ensures { result ≡ pair_word reference mark }
{
    reference.wrapping_mul(2).wrapping_add(mark)
}
