// Numbers that aren't finite.
ghost use Rattle.std.specs.Prelude.{◌≡◌, ◌<◌, ◌^◌, All, IsTrue, MatchOption, length};
ghost use Rattle.dual_checker.specs.Faults.{IsFirst};
ghost use Rattle.double_costs.specs.Units.{is_number};
ghost use Rattle.block_doubles.specs.Pairs.{IsInfiniteIn};

use double_checker::is_number;

/// The first place, from 1, at which one of two lists of the same length isn't finite.
pub fn first_infinite(xs: &[f64], ys: &[f64]) -> Option<u32>
    requires long { length ys.now ≡ length xs.now }
    requires few { length xs.now < 2 ^ 32 }
    ensures { MatchOption result
        (All (λ x. IsTrue (is_number x)) xs.now × All (λ y. IsTrue (is_number y)) ys.now)
        (λ i. IsFirst (IsInfiniteIn xs.now ys.now) (length xs.now) i) }
{
    for k in 0..xs.len() {
        if !is_number(xs[k]) {
            return Some(k as u32 + 1);
        }
        if !is_number(ys[k]) {
            return Some(k as u32 + 1);
        }
    }
    None
}
