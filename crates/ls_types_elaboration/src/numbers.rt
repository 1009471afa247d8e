// Numbers.

ghost use Rattle.std.specs.Prelude.{◌≡◌, ◌≤◌};
ghost use Rattle.ls_types_elaboration.specs.TypedExpressions.{digits_value};

/// The value of decimal digits. A value above 2147483648 gives 2147483648; no number token has one.
pub fn digits_of(text: &[u8]) -> u64
    ensures value { result ≡ digits_value 0 text.now }
    ensures small { result ≤ 2147483648 }
{
    let mut n: u64 = 0;
    for d in text {
        n = (n * 10 + u64::from(d.saturating_sub(b'0'))).min(2_147_483_648);
    }
    n
}
