// Doubles taken apart.
ghost use Rattle.std.specs.Prelude.{◌≡◌, ◌<◌, ◌≤◌, ◌*◌, ◌*ℤ◌, ◌^◌, pos, neg_ℤ, ◌<ℤ◌, IsTrue};
ghost use Rattle.double_costs.specs.Units.{is_number};
ghost use Rattle.double_checker.specs.inside.Sizes.{AreDigits, AreShiftedBy, low_shift, units_by};

// The digits of a finite double, its sign, and by how many binary places the digits are shifted to
// give its units.
#[derive(Clone, Copy)]
pub struct Digits {
    pub digits: u64,
    pub shift: u64,
    pub negative: bool,
}

// The digits of a finite double.
pub fn digits_of(x: f64) -> Digits
    requires { IsTrue (is_number x) }
    ensures { AreDigits x result }
{
    let bits = x.to_bits() % 0x8000_0000_0000_0000;
    let field = bits / 0x10_0000_0000_0000;
    let rest = bits % 0x10_0000_0000_0000;
    let negative = x < 0.0;
    if field == 0 {
        Digits {
            digits: rest,
            shift: 0,
            negative,
        }
    } else {
        Digits {
            digits: rest + 0x10_0000_0000_0000,
            shift: field - 1,
            negative,
        }
    }
}

// By how many places the digits are shifted; for 0 more than for any other.
pub fn low_shift(d: Digits) -> u64
    ensures { result ≡ low_shift d }
{
    if d.digits == 0 { 2046 } else { d.shift }
}

// So many digits, shifted.
fn shifted(digits: u64, by: u64) -> i128
    requires digits { digits < 2 ^ 53 }
    requires by { by ≤ 70 }
    ensures value { result ≡ pos (digits * 2 ^ by) }
    ensures below { result <ℤ pos (2 ^ 123) }
{
    (u128::from(digits) << by) as i128
}

// How many times 2 ^ low units the digits are.
pub fn scaled(d: Digits, low: u64) -> i128
    requires { AreShiftedBy low d }
    ensures value { (pos (2 ^ low) *ℤ result) ≡ units_by d }
    ensures least { neg_ℤ (pos (2 ^ 123)) <ℤ result }
    ensures greatest { result <ℤ pos (2 ^ 123) }
{
    if d.digits == 0 {
        return 0;
    }
    let size = shifted(d.digits, d.shift - low);
    if d.negative { -size } else { size }
}
