// The chosen pairs of each group.
ghost use Rattle.std.specs.Prelude.{◌≡◌, ◌+◌, ◌*◌, ◌<◌, ◌≤◌, ℕ, length, All, MatchOption, slice_index, true, false};
ghost use Rattle.assign_core.specs.Numbered.{IsNumber};
ghost use Rattle.count_checker.specs.CountLists.{AreCountLists};
ghost use Rattle.count_checker.specs.CountFaults.{AreRivalsAt, IsChosen, IsDouble, IsFirstPlace};
ghost use Rattle.count_checker.specs.inside.Holders.{IsHolding, slot_of};

use super::lists::CountLists;
use super::marks::Marks;
use cost_lists::GREATEST_NUMBER;

// The group of a column, or a number of its own.
fn slot(groups: &[u32], column: u32) -> usize
    requires column { IsNumber (length groups.now) column }
    requires groups { All (λ g. g ≤ length groups.now) groups.now }
    requires few { length groups.now ≤ GREATEST_NUMBER }
    ensures slot { result ≡ slot_of groups.now column }
    ensures least { 0 < result }
    ensures most { result ≤ 2 * length groups.now }
{
    let group = groups[column as usize - 1];
    if group > 0 {
        group as usize
    } else {
        groups.len() + column as usize
    }
}

// Holds the pair at a place, if it is chosen.
pub fn hold(holders: &mut [usize], lists: CountLists<'_>, plan: &Marks<'_>, place: usize)
    requires lists { AreCountLists lists }
    requires plan { length plan.now ≡ length lists.rows.now }
    requires place { place < length lists.rows.now }
    requires holding { IsHolding lists plan.now place holders.old }
    ensures { IsHolding lists.entry plan.now (place + 1) holders.new }
{
    if plan.has(place) {
        holders[slot(lists.groups, lists.columns[place])] = place + 1;
    }
}

// The last of the held pairs that is a rival of the pair at a place, in a row that is not before any.
pub fn rival(
    holders: &[usize],
    lists: CountLists<'_>,
    plan: &Marks<'_>,
    end: usize,
    place: usize,
) -> Option<usize>
    requires lists { AreCountLists lists }
    requires plan { length plan.now ≡ length lists.rows.now }
    requires place { place < length lists.rows.now }
    requires holding { IsHolding lists plan.now end holders.now }
    requires rows { (q : ℕ) → q < end
        → slice_index lists.rows.now q ≤ slice_index lists.rows.now place }
    ensures { let l = lists.entry in MatchOption result
        ((q : ℕ) → q < end → IsChosen plan.now q → ¬ AreRivalsAt l q place)
        (λ h. (h < end) × IsChosen plan.now h × AreRivalsAt l h place) }
{
    let held = holders[slot(lists.groups, lists.columns[place])];
    if held > 0 && lists.rows[held - 1] == lists.rows[place] {
        Some(held - 1)
    } else {
        None
    }
}

// Whether the pair at a place is chosen and has a chosen rival before it.
fn is_double(holders: &[usize], lists: CountLists<'_>, plan: &Marks<'_>, place: usize) -> bool
    requires lists { AreCountLists lists }
    requires plan { length plan.now ≡ length lists.rows.now }
    requires place { place < length lists.rows.now }
    requires holding { IsHolding lists plan.now place holders.now }
    ensures yes { result ≡ true → IsDouble lists.entry plan.now place }
    ensures no { result ≡ false → ¬ IsDouble lists.entry plan.now place }
{
    if !plan.has(place) {
        return false;
    }
    match rival(holders, lists, plan, place, place) {
        Some(_held) => true,
        None => false,
    }
}

// The first place whose pair is chosen and has a chosen rival before it.
pub fn first_double(holders: &mut [usize], lists: CountLists<'_>, plan: &Marks<'_>) -> Option<usize>
    requires lists { AreCountLists lists }
    requires plan { length plan.now ≡ length lists.rows.now }
    requires holding { IsHolding lists plan.now 0 holders.old }
    ensures { let l = lists.entry in MatchOption result
        ((k : ℕ) → k < length l.rows.now → ¬ IsDouble l plan.now k)
        (λ k. IsFirstPlace (IsDouble l plan.now) (length l.rows.now) k) }
{
    for place in 0..lists.rows.len() {
        if is_double(holders, lists, plan, place) {
            return Some(place);
        }
        hold(holders, lists, plan, place);
    }
    None
}

// Holds the chosen pairs from a place on up to the end of a row; the place after it.
pub fn hold_row(
    holders: &mut [usize],
    lists: CountLists<'_>,
    plan: &Marks<'_>,
    from: usize,
    row: u32,
) -> usize
    requires lists { AreCountLists lists }
    requires plan { length plan.now ≡ length lists.rows.now }
    requires holding { IsHolding lists plan.now from holders.old }
    requires rows { (q : ℕ) → q < from → slice_index lists.rows.now q ≤ row }
    ensures holding { IsHolding lists.entry plan.now result holders.new }
    ensures rows { (q : ℕ) → q < result → slice_index lists.entry.rows.now q ≤ row }
    ensures rest { (q : ℕ) → result ≤ q → q < length lists.entry.rows.now
        → row < slice_index lists.entry.rows.now q }
{
    let mut end = from;
    while end < lists.rows.len() && lists.rows[end] <= row {
        hold(holders, lists, plan, end);
        end += 1;
    }
    end
}
