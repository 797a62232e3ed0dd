// Steps of the search over all objects.
ghost use Rattle.std.specs.Prelude.{◌≡◌, ◌≢◌, ◌↔◌, ◌⊎◌, ◌+ℤ◌, ◌<ℤ◌, ◌≤ℤ◌, ℕ, ◌<◌, true, false, IsTrue, length};
ghost use Rattle.assign_core.specs.Rows.{IsCost};
ghost use Rattle.hungarian.specs.inside.Plans.{at, int_at};
ghost use Rattle.hungarian.specs.inside.Trees.{IsNearer, IsNearest, IsPathCost, IsRelaxed, IsWaiting};
ghost use Rattle.hungarian.specs.inside.Stored.{AreRelaxed};

use assign_core::Cost;
use cost_lists::{Object, Person, Price, UNLISTED};

// Whether a path to an object serves better than what is known.
fn is_better(predecessor: Person, known: Cost, cost: Cost) -> bool
    ensures { IsTrue result ↔ ((predecessor ≡ 0) ⊎ (cost <ℤ known)) }
{
    predecessor == 0 || cost < known
}

// Whether a person's row lets a path go on to an object that isn't scanned.
fn goes_on(cost: Cost, rank: u32) -> bool
    ensures { IsTrue result ↔ (cost <ℤ UNLISTED) × (rank ≡ 0) }
{
    cost < UNLISTED && rank == 0
}

// The cost of a path with one step more.
fn one_more(to_person: Cost, cost: Cost) -> Cost
    requires path { IsPathCost to_person }
    requires cost { IsCost cost }
    ensures { result ≡ (to_person +ℤ cost) }
{
    to_person + cost
}

// Lets the path to a person go on to an object with this cost and rank.
fn relax_object(
    to_objects: &mut [Cost],
    predecessors: &mut [Person],
    object: usize,
    person: Person,
    to_person: Cost,
    cost: Cost,
    rank: u32,
)
    requires place { object < length to_objects.old }
    requires long { length predecessors.old ≡ length to_objects.old }
    requires path { IsPathCost to_person }
    requires cost { cost <ℤ UNLISTED → IsCost cost }
    ensures here { IsRelaxed person cost to_person rank (int_at to_objects.old object)
        (at predecessors.old object) (int_at to_objects.new object) (at predecessors.new object) }
    ensures costs { (k : ℕ) → k ≢ object → int_at to_objects.new k ≡ int_at to_objects.old k }
    ensures persons { (k : ℕ) → k ≢ object → at predecessors.new k ≡ at predecessors.old k }
{
    if goes_on(cost, rank) {
        let path = one_more(to_person, cost);
        if is_better(predecessors[object], to_objects[object], path) {
            to_objects[object] = path;
            predecessors[object] = person;
        }
    }
}

// Lets the path to a person go on to all objects of its row that aren't scanned.
pub fn relax(
    to_objects: &mut [Cost],
    predecessors: &mut [Person],
    ranks: &[u32],
    row: &[Cost],
    person: Person,
    to_person: Cost,
)
    requires objects { length to_objects.old ≡ length row.now }
    requires predecessors { length predecessors.old ≡ length row.now }
    requires ranks { length ranks.now ≡ length row.now }
    requires path { IsPathCost to_person }
    requires costs { (k : ℕ) → int_at row.now k <ℤ UNLISTED → IsCost (int_at row.now k) }
    ensures { AreRelaxed person to_person row.now ranks.now to_objects.old predecessors.old
        to_objects.new predecessors.new }
{
    for j in 0..row.len() {
        relax_object(
            to_objects,
            predecessors,
            j,
            person,
            to_person,
            row[j],
            ranks[j],
        );
    }
}

// The sum of a cost and a price, which may pass 64 bits.
fn wide_sum(cost: Cost, price: Price) -> i128
    ensures { result ≡ (cost +ℤ price) }
{
    cost as i128 + (price as i128)
}

// Whether the sum of a cost and a price is below that of others.
fn is_nearer(cost: Cost, price: Price, other_cost: Cost, other_price: Price) -> bool
    ensures { IsTrue result ↔ ((cost +ℤ price) <ℤ (other_cost +ℤ other_price)) }
{
    let sum = wide_sum(cost, price);
    let other = wide_sum(other_cost, other_price);
    sum < other
}

// Whether an object has a path and isn't scanned.
fn waits(predecessor: Person, rank: u32) -> bool
    ensures { IsTrue result ↔ (0 < predecessor) × (rank ≡ 0) }
{
    predecessor != 0 && rank == 0
}

// The nearer of the best object so far, if there is one, and another.
fn nearer(to_objects: &[Cost], prices: &[Price], best: usize, other: usize) -> usize
    requires best { best < length to_objects.now }
    requires other { other < length to_objects.now }
    requires prices { length prices.now ≡ length to_objects.now }
    ensures within { result < length to_objects.now }
    ensures nearer { IsNearer (int_at prices.now) (int_at to_objects.now) best other result }
{
    if best == 0 {
        return other;
    }
    if is_nearer(
        to_objects[other],
        prices[other],
        to_objects[best],
        prices[best],
    ) {
        other
    } else {
        best
    }
}

// The best object so far, after one more.
fn next_best(
    to_objects: &[Cost],
    prices: &[Price],
    best: usize,
    other: usize,
    is_waiting: bool,
) -> usize
    requires best { best < length to_objects.now }
    requires other { other < length to_objects.now }
    requires prices { length prices.now ≡ length to_objects.now }
    ensures within { result < length to_objects.now }
    ensures stays { is_waiting ≡ false → result ≡ best }
    ensures takes { is_waiting ≡ true
        → IsNearer (int_at prices.now) (int_at to_objects.now) best other result }
{
    if is_waiting {
        nearer(to_objects, prices, best, other)
    } else {
        best
    }
}

// An object that waits and has the least sum of its path's cost and its price; 0 if none waits.
pub fn nearest(
    to_objects: &[Cost],
    prices: &[Price],
    predecessors: &[Person],
    ranks: &[u32],
) -> usize
    requires some { 0 < length to_objects.now }
    requires prices { length prices.now ≡ length to_objects.now }
    requires predecessors { length predecessors.now ≡ length to_objects.now }
    requires ranks { length ranks.now ≡ length to_objects.now }
    requires nobody { at predecessors.now 0 ≡ 0 }
    ensures within { result < length to_objects.now }
    ensures none { result ≡ 0 → (k : ℕ) → ¬ IsWaiting (at predecessors.now) (at ranks.now) k }
    ensures some { 0 < result → IsNearest (int_at prices.now) (int_at to_objects.now)
        (at predecessors.now) (at ranks.now) result }
{
    let mut best = 0;
    for j in 0..to_objects.len() {
        let is_waiting = waits(predecessors[j], ranks[j]);
        best = next_best(to_objects, prices, best, j, is_waiting);
    }
    best
}
