// The verdicts' rules, read plainly: each in a loop of its own, in 128 bits.
use assign_core::{Cost, Object, PRICE_END, Person, Price, Sense};
use dual_checker::Verdict;

// Persons who list each object, and their costs row by row.
#[derive(Clone, Copy)]
pub struct Table<'a> {
    pub n: u16,
    pub sense: Sense,
    pub costs: &'a [Cost],
}

// The cost of a pair, as one to minimise, times one more than the objects.
pub fn low(table: &Table<'_>, person: u16, object: Object) -> i128 {
    let row = (person as usize)
        .wrapping_sub(1)
        .wrapping_mul(table.n as usize);
    let place = row.wrapping_add((object.0 as usize).wrapping_sub(1));
    let cost = i128::from(table.costs.get(place).copied().unwrap_or(0));
    let scaled = cost.wrapping_mul(i128::from(table.n) + 1);
    match table.sense {
        Sense::Min => scaled,
        Sense::Max => scaled.wrapping_neg(),
    }
}

// The price of an object, or 0 if there is none.
pub fn price_at(prices: &[Price], object: Object) -> Price {
    let place = (object.0 as usize).wrapping_sub(1);
    prices.get(place).copied().unwrap_or(0)
}

fn first_unlisted(n: u16, objects: &[Object]) -> Option<Person> {
    let mut person = 0u16;
    for object in objects {
        person = person.wrapping_add(1);
        if object.0 == 0 || object.0 > n {
            return Some(Person(person));
        }
    }
    None
}

fn count_of(objects: &[Object], object: Object) -> u32 {
    let mut count = 0u32;
    for other in objects {
        if *other == object {
            count = count.saturating_add(1);
        }
    }
    count
}

fn first_twice(n: u16, objects: &[Object]) -> Option<Object> {
    for number in 1..=n {
        if count_of(objects, Object(number)) > 1 {
            return Some(Object(number));
        }
    }
    None
}

fn first_out_of_range(n: u16, prices: &[Price]) -> Option<Object> {
    for number in 1..=n {
        let price = price_at(prices, Object(number));
        if price < 0 || price >= PRICE_END {
            return Some(Object(number));
        }
    }
    None
}

fn first_preferred(
    table: &Table<'_>,
    person: u16,
    own: Object,
    prices: &[Price],
) -> Option<Object> {
    let most = low(table, person, own).wrapping_add(price_at(prices, own));
    for number in 1..=table.n {
        let other = Object(number);
        let sum = low(table, person, other).wrapping_add(price_at(prices, other));
        if sum.wrapping_add(1) < most {
            return Some(other);
        }
    }
    None
}

fn first_slack(
    table: &Table<'_>,
    objects: &[Object],
    prices: &[Price],
) -> Option<(Person, Object)> {
    let mut person = 0u16;
    for object in objects {
        person = person.wrapping_add(1);
        if let Some(other) = first_preferred(table, person, *object, prices) {
            return Some((Person(person), other));
        }
    }
    None
}

// The verdict by the rules, in their order.
pub fn plain_verdict(table: &Table<'_>, objects: &[Object], prices: &[Price]) -> Verdict {
    if objects.len() != table.n as usize || prices.len() != table.n as usize {
        return Verdict::Length;
    }
    if let Some(person) = first_unlisted(table.n, objects) {
        return Verdict::Unlisted(person);
    }
    if let Some(object) = first_twice(table.n, objects) {
        return Verdict::Twice(object);
    }
    if let Some(object) = first_out_of_range(table.n, prices) {
        return Verdict::PriceRange(object);
    }
    if let Some((person, object)) = first_slack(table, objects, prices) {
        return Verdict::Slack(person, object);
    }
    Verdict::Yes
}
