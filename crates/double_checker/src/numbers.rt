// Finite doubles, and costs turned so that less is better.
ghost use Rattle.std.specs.Prelude.{◌≡◌, ◌≤◌, ◌+◌, ◌*◌, true, length};
ghost use Rattle.double_costs.specs.Units.{is_number};
ghost use Rattle.double_checker.specs.inside.Pairs.{row_part, turned};

use assign_core::Sense;

// Whether a double is finite.
pub fn is_number(x: f64) -> bool
    ensures { result ≡ is_number x }
{
    x > f64::NEG_INFINITY && x < f64::INFINITY
}

// The cost as one to minimise.
pub fn turned(sense: Sense, cost: f64) -> f64
    ensures { result ≡ turned sense cost }
{
    match sense {
        Sense::Min => cost,
        Sense::Max => -cost,
    }
}

// Whether both hold.
pub fn both(a: bool, b: bool) -> bool
    ensures { result ≡ true → (a ≡ true) × (b ≡ true) }
{
    if a { b } else { false }
}

// The costs of the person at a place, from 0, among those of all persons to `m` objects.
pub fn row_part(costs: &[f64], place: usize, m: usize) -> &[f64]
    requires { (place + 1) * m ≤ length costs.now }
    ensures { result.now ≡ row_part m place costs.now }
{
    let (_, rest) = costs.split_at(place * m);
    let (row, _) = rest.split_at(m);
    row
}
