// Doubles taken apart exactly.
ghost use Rattle.std.specs.Prelude.{◌≡◌, ◌⊎◌, ◌<◌, ◌≤◌, ◌*◌, ◌/◌, ◌%◌, ◌^◌, IsTrue};
ghost use Rattle.double_costs.specs.Units.{is_number};
ghost use Rattle.c_wide.specs.exact.Parts.{ArePartsOf, size_by};

/// A finite double: an odd number, or 0, times a power of two.
#[derive(Clone, Copy)]
pub struct Parts {
    pub significand: u64,
    /// The double is the significand times 2^exponent, in units of 2^-1074.
    pub exponent: u64,
    pub negative: bool,
}

// The number of zeros at the end of a number's binary digits.
fn zeros_of(number: u64) -> u64
    requires some { 0 < number }
    requires few { number < 2 ^ 53 }
    ensures whole { number / 2 ^ result * 2 ^ result ≡ number }
    ensures odd { number / 2 ^ result % 2 ≡ 1 }
    ensures most { result ≤ 53 }
{
    u64::from(number.trailing_zeros())
}

// The parts of digits with `shift` binary places after them.
fn parts_by(digits: u64, shift: u64, negative: bool) -> Parts
    requires few { digits < 2 ^ 53 }
    requires near { shift ≤ 2045 }
    ensures size { size_by result ≡ digits * 2 ^ shift }
    ensures sign { result.negative ≡ negative }
    ensures few { result.significand < 2 ^ 53 }
    ensures odd { (result.significand ≡ 0) ⊎ (result.significand % 2 ≡ 1) }
    ensures near { result.exponent ≤ 2098 }
{
    if digits == 0 {
        return Parts {
            significand: 0,
            exponent: shift,
            negative,
        };
    }
    let zeros = zeros_of(digits);
    Parts {
        significand: digits >> zeros,
        exponent: shift + zeros,
        negative,
    }
}

/// The parts of a finite double.
pub fn parts_of(x: f64) -> Parts
    requires { IsTrue (is_number x) }
    ensures { ArePartsOf x result }
{
    let bits = x.to_bits() % 0x8000_0000_0000_0000;
    let field = bits / 0x10_0000_0000_0000;
    let rest = bits % 0x10_0000_0000_0000;
    let negative = x < 0.0;
    if field == 0 {
        parts_by(rest, 0, negative)
    } else {
        parts_by(rest + 0x10_0000_0000_0000, field - 1, negative)
    }
}
