// The record of a call, in addition to its lists.
ghost use Rattle.std.specs.Prelude.{◌≡◌, ◌^◌, pos};
ghost use Rattle.std.specs.Int.{int_div_euclid, int_rem_euclid};
ghost use Rattle.c_counts.specs.Sums.{IsSumIn};

/// The record of a call. Each call writes only the fields that belong to its end.
#[repr(C)]
#[derive(Clone, Copy)]
pub struct CountsInfo {
    /// The sum of the costs of a best plan is `total_high * 2^64 + total_low`.
    pub total_high: i64,
    pub total_low: u64,
    /// The place, from 0, of a fault in a list, and of the pair that a verdict names.
    pub place: u64,
    /// The row that a verdict names.
    pub row: u64,
    /// The column that a verdict names.
    pub column: u64,
}

// The sum divided by 2^64, rounded down.
fn high_of(sum: i128) -> i64
    ensures { result ≡ int_div_euclid sum (pos (2 ^ 64)) }
{
    sum.div_euclid(1 << 64) as i64
}

// The remainder.
fn low_of(sum: i128) -> u64
    ensures { pos result ≡ int_rem_euclid sum (pos (2 ^ 64)) }
{
    sum.rem_euclid(1 << 64) as u64
}

/// Records the sum of a best plan.
pub fn record_sum(info: &mut CountsInfo, sum: i128)
    ensures sum { IsSumIn info.new sum }
    ensures rest { info.new
        ≡ record info.old { total_high = info.new.total_high; total_low = info.new.total_low } }
{
    info.total_high = high_of(sum);
    info.total_low = low_of(sum);
}
