ghost use Rattle.std.specs.Prelude.{◌≡◌, ◌<◌, ◌^◌};
ghost use Rattle.ii_bm25.specs.Log.{LogRises, log2_fixed};

/// The logarithm by base 2 of a number above 0, in units of 2^-26: it is at most 1.1 units below the true one,
/// and never above it.
pub fn log2_fixed(x: u64) -> u64
    requires { 0 < x }
    ensures value { result ≡ log2_fixed x }
    ensures few { result < 2 ^ 32 }
{
    let mut exponent = u64::from(63 - x.leading_zeros());
    let mut mantissa = ((u128::from(x) << 31) >> exponent) as u64;
    let mut left: u32 = 26;
    while left > 0 {
        let square = mantissa * mantissa;
        if square < 1 << 63 {
            exponent = 2 * exponent;
            mantissa = square >> 31;
        } else {
            exponent = 2 * exponent + 1;
            mantissa = square >> 32;
        }
        left -= 1;
    }
    exponent
}

/// A greater number has no smaller logarithm.
pub fn logarithms_rise()
    ensures { LogRises }
{}
