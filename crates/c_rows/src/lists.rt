// Lists of rows: their numbers, and the first that is wrong.
ghost use Rattle.std.specs.Prelude.{◌≡◌, ℕ, nat_lt, pos, MatchOption, length, slice_index_or, true};
ghost use Rattle.c_rows.specs.Lists.{IsFirstWrong, bound_above, bound_below, is_named, is_start, natural_at, variable_at, whole_at};

/// The number at a place of a list; 0 where there is none.
pub fn natural_at(numbers: &[usize], place: usize) -> usize
    ensures { result ≡ natural_at numbers.now place }
{
    if place < numbers.len() {
        numbers[place]
    } else {
        0
    }
}

/// The variable at a place of a list; 0 where there is none.
pub fn variable_at(variables: &[u32], place: usize) -> u32
    ensures { result ≡ variable_at variables.now place }
{
    if place < variables.len() {
        variables[place]
    } else {
        0
    }
}

/// The number at a place of a list; 0 where there is none.
pub fn whole_at(numbers: &[i64], place: usize) -> i64
    ensures { result ≡ whole_at numbers.now place }
{
    if place < numbers.len() {
        numbers[place]
    } else {
        0
    }
}

/// A lower bound, if it is one.
pub fn bound_below(least: i64) -> Option<i64>
    ensures { result ≡ bound_below least }
{
    if least == i64::MIN { None } else { Some(least) }
}

/// An upper bound, if it is one.
pub fn bound_above(most: i64) -> Option<i64>
    ensures { result ≡ bound_above most }
{
    if most == i64::MAX { None } else { Some(most) }
}

// Whether a start isn't below the one before it: the first is 0, and the last the number of terms.
fn is_start(starts: &[usize], terms: usize, place: usize) -> bool
    ensures { result ≡ is_start starts.now terms place }
{
    let start = natural_at(starts, place);
    let before = if place == 0 {
        0
    } else {
        natural_at(starts, place - 1)
    };
    let is_first = place > 0 || start == 0;
    let is_last = place < starts.len().saturating_sub(1) || start == terms;
    before <= start && is_first && is_last
}

/// The place of the first wrong start.
pub fn first_wrong_start(starts: &[usize], terms: usize) -> Option<usize>
    ensures { IsFirstWrong (λ k. is_start starts.now terms k) (length starts.now) result }
{
    for i in 0..starts.len() {
        if !is_start(starts, terms, i) {
            return Some(i);
        }
    }
    None
}

// Whether this is a variable.
fn is_named(variable: u32, n: usize) -> bool
    ensures { result ≡ nat_lt variable n }
{
    (variable as usize) < n
}

/// The place of the first term whose variable isn't there.
pub fn first_unnamed_variable(variables: &[u32], n: usize) -> Option<usize>
    ensures { IsFirstWrong (λ k. is_named variables.now n k) (length variables.now) result }
{
    for i in 0..variables.len() {
        if !is_named(variables[i], n) {
            return Some(i);
        }
    }
    None
}

/// The place of the first number of a plan that isn't 0 or 1.
pub fn first_wrong_number(plan: &[u8]) -> Option<usize>
    ensures { IsFirstWrong (λ k. is_named plan.now 2 k) (length plan.now) result }
{
    for i in 0..plan.len() {
        if plan[i] >= 2 {
            return Some(i);
        }
    }
    None
}
