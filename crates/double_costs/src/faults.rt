// What is no cost.
ghost use Rattle.std.specs.Prelude.{◌≡◌, All, IsTrue, MatchOption};
ghost use Rattle.double_costs.specs.DoubleRows.{IsFirstFault, is_cost};

use assign_core::Sense;

/// Whether a double is a cost: it is finite, or it is the infinity that forbids its pair, which is
/// the positive one under `Min` and the negative one under `Max`.
pub fn is_cost(sense: Sense, cost: f64) -> bool
    ensures { result ≡ is_cost sense cost }
{
    match sense {
        Sense::Min => cost > f64::NEG_INFINITY,
        Sense::Max => cost < f64::INFINITY,
    }
}

/// The place, from 0, of the first double that is no cost.
pub fn first_fault(sense: Sense, costs: &[f64]) -> Option<usize>
    ensures { MatchOption result (All (λ c. IsTrue (is_cost sense c)) costs.now)
        (λ k. IsFirstFault sense costs.now k) }
{
    for k in 0..costs.len() {
        if !is_cost(sense, costs[k]) {
            return Some(k);
        }
    }
    None
}
