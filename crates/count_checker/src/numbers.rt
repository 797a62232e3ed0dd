// Limits.

/// The most listed pairs.
pub const GREATEST_PAIRS: usize = 1 << 30;
