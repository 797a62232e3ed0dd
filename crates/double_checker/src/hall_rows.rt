// What the persons of a list are allowed.
ghost use Rattle.std.specs.Prelude.{◌≡◌, ◌↔◌, ◌<◌, ◌*◌, ℕ, All, IsTrue, true, false, length};
ghost use Rattle.assign_core.specs.Numbered.{IsMarked, IsNumber};
ghost use Rattle.double_costs.specs.Units.{is_number};
ghost use Rattle.double_checker.specs.inside.Halls.{AreAllowed, AreRowsNamed, IsAllowedToOne};
ghost use Rattle.double_checker.specs.inside.Halls.{IsRowNamed};
ghost use Rattle.double_checker.specs.inside.Plans.{MarksJust};

use super::numbers::{is_number, row_part};
use cost_lists::{Object, Person};

// Marks each of these objects; none is marked at first.
pub fn mark_each(named: &mut [bool], objects: &[Object])
    requires clear { (j : ℕ) → ¬ IsMarked named.old j }
    requires within { All (IsNumber (length named.old)) objects.now }
    ensures { MarksJust named.new objects.now }
{
    for i in 0..objects.len() {
        named[objects[i] as usize - 1] = true;
    }
}

// Whether an object is allowed and has no mark.
fn is_unnamed(cost: f64, named: bool) -> bool
    ensures yes { IsTrue result → IsTrue (is_number cost) × (named ≡ false) }
    ensures no { result ≡ false → IsTrue (is_number cost) → named ≡ true }
{
    if named { false } else { is_number(cost) }
}

// Whether each object that a row allows is named.
fn is_row_named(row: &[f64], named: &[bool]) -> bool
    requires { length row.now ≡ length named.now }
    ensures { IsTrue result ↔ IsRowNamed row.now named.now (length named.now) }
{
    for j in 0..row.len() {
        if is_unnamed(row[j], named[j]) {
            return false;
        }
    }
    true
}

// Whether the persons are allowed only named objects.
pub fn are_rows_named(costs: &[f64], persons: &[Person], named: &[bool]) -> bool
    requires { (n : ℕ) × (length costs.now ≡ n * length named.now) × All (IsNumber n) persons.now }
    ensures { IsTrue result ↔ AreRowsNamed costs.now persons.now named.now (length persons.now) }
{
    for i in 0..persons.len() {
        let row = row_part(costs, persons[i] as usize - 1, named.len());
        if !is_row_named(row, named) {
            return false;
        }
    }
    true
}

// Whether an object is allowed to one of the persons.
fn is_listed(costs: &[f64], m: usize, persons: &[Person], object: Object) -> bool
    requires costs { (n : ℕ) × (length costs.now ≡ n * m) × All (IsNumber n) persons.now }
    requires object { IsNumber m object }
    ensures { IsTrue result ↔ IsAllowedToOne m costs.now persons.now object }
{
    for i in 0..persons.len() {
        let place = (persons[i] as usize - 1) * m + (object as usize - 1);
        if is_number(costs[place]) {
            return true;
        }
    }
    false
}

// Whether each of these objects is allowed to one of the persons.
pub fn are_listed(costs: &[f64], m: usize, persons: &[Person], objects: &[Object]) -> bool
    requires costs { (n : ℕ) × (length costs.now ≡ n * m) × All (IsNumber n) persons.now }
    requires objects { All (IsNumber m) objects.now }
    ensures { IsTrue result ↔ AreAllowed m costs.now persons.now objects.now (length objects.now) }
{
    for q in 0..objects.len() {
        if !is_listed(costs, m, persons, objects[q]) {
            return false;
        }
    }
    true
}
