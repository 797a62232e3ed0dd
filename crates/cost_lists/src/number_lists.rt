// Whether lists of numbers are in range and rise.
ghost use Rattle.std.specs.Prelude.{◌↔◌, All, IsTrue};
ghost use Rattle.std.specs.List.Sorted.{IsStrictlyIncreasing};
ghost use Rattle.assign_core.specs.Numbered.{IsNumber};

/// Whether all numbers are from 1 to n.
pub fn are_within(n: u32, numbers: &[u32]) -> bool
    ensures { IsTrue result ↔ All (IsNumber n) numbers.now }
{
    numbers.iter().all(|number| 0 < *number && *number <= n)
}

/// Whether each number is greater than the one before.
pub fn rises(numbers: &[u32]) -> bool
    ensures { IsTrue result ↔ IsStrictlyIncreasing numbers.now }
{
    for i in 1..numbers.len() {
        if numbers[i - 1] >= numbers[i] {
            return false;
        }
    }
    true
}
