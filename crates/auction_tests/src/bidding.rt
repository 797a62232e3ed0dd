// The best two and offers on worked values, and both forms of a row compared with a plain search.
ghost use Rattle.std.specs.Prelude.{◌≡◌, ◌≤◌, ◌≤ℤ◌, pos, neg_ℤ, length, All, IfOk};
ghost use Rattle.assign_core.specs.Benefits.{IsBenefit};
ghost use Rattle.assign_core.specs.Prices.{IsPrice};
ghost use Rattle.assign_core.specs.Rows.{IsRow};
ghost use Rattle.scaled_values.specs.Scaled.{IsBenefitRow, IsEps};
ghost use Rattle.bidder.specs.Offers.{IsAsk};

use assign_core::{
    Benefit, Cost, MOST_PERSONS, NARROW_END, Object, PRICE_END, Person, Price, Prices, Problem,
    Sense,
};
use bidder::{Ask, BelowFloor, BestTwo, Bid, Offer, best_two, best_two_full, make_bid};
use scaled_values::{Scaled, next_eps, scale};
use std::alloc::{AllocError, Global};
use std::test::Fail;

// A row of all objects as pairs.
fn pairs_of(alloc: Global, benefits: &[Benefit]) -> Result<Vec<(Object, Benefit)>, AllocError>
    requires few { length benefits.now ≤ MOST_PERSONS }
    requires range { All IsBenefit benefits.now }
    ensures { IfOk result (λ row. IsBenefitRow (length benefits.now) row.items) }
{
    let mut row = Vec::with_capacity(alloc, benefits.len())?;
    for (i, benefit) in benefits.iter().enumerate() {
        row.push((Object(i as u16 + 1), *benefit))?;
    }
    Ok(row)
}

// The size of a table's prices.
#[derive(Clone, Copy)]
enum Size {
    // From 0 to 891.
    Small,
    // One below the end of narrow prices, at it and one above it, and the greatest price.
    Mixed,
    // The greatest price, less 0 to 8.
    Great,
}

// The price of the object at a place.
fn price_at(size: Size, i: u16) -> Price
    ensures { IsPrice result }
{
    match size {
        Size::Small => Price::from(i % 100) * 9,
        Size::Mixed if i % 5 < 3 => Price::from(NARROW_END) - 1 + Price::from(i % 5),
        Size::Mixed => PRICE_END - 1,
        Size::Great => PRICE_END - 1 - Price::from(i % 9),
    }
}

// What makes up for the differences of the prices, except for those of the greatest price among
// mixed ones.
fn offset_at(size: Size, i: u16) -> Benefit
    ensures least { neg_ℤ (pos 9) ≤ℤ result }
    ensures greatest { result ≤ℤ pos 900 }
{
    match size {
        Size::Small => Benefit::from(i % 100) * 9,
        Size::Mixed => Benefit::from(i % 5),
        Size::Great => 0 - Benefit::from(i % 9),
    }
}

// A table of n prices.
fn prices_of(alloc: Global, size: Size, n: u16) -> Result<Prices, AllocError>
    requires { n ≤ MOST_PERSONS }
    ensures { IfOk result (λ prices. length prices ≡ n) }
{
    let mut prices = Vec::with_capacity(alloc, n as usize)?;
    for i in 0..n {
        prices.push(price_at(size, i))?;
    }
    Prices::new(alloc, prices)
}

// 0 at two places and from -7 to -1 elsewhere.
fn worth(i: u16, first: u16, second: u16) -> Benefit
    ensures least { neg_ℤ (pos 7) ≤ℤ result }
    ensures greatest { result ≤ℤ pos 0 }
{
    if i == first || i == second {
        0
    } else {
        -1 - Benefit::from(i % 7)
    }
}

// The benefit of an object with this value under the table.
fn benefit_of(size: Size, i: u16, first: u16, second: u16) -> Benefit
    ensures { IsBenefit result }
{
    offset_at(size, i) + worth(i, first, second)
}

// Benefits of n objects: those at two places are greater than the others if prices are alike.
fn benefits_of(
    alloc: Global,
    size: Size,
    n: u16,
    first: u16,
    second: u16,
) -> Result<Vec<Benefit>, AllocError>
    requires { n ≤ MOST_PERSONS }
    ensures long { IfOk result (λ v. length v.items ≡ n) }
    ensures range { IfOk result (λ v. All IsBenefit v.items) }
{
    let mut benefits = Vec::with_capacity(alloc, n as usize)?;
    for i in 0..n {
        benefits.push(benefit_of(size, i, first, second))?;
    }
    Ok(benefits)
}

// The results of both calls on a row of all objects.
fn answers(
    alloc: Global,
    benefits: &[Benefit],
    prices: &Prices,
) -> Result<[Option<BestTwo>; 2], AllocError>
    requires few { length benefits.now ≤ MOST_PERSONS }
    requires long { length benefits.now ≡ length prices.now }
    requires range { All IsBenefit benefits.now }
{
    let row = pairs_of(alloc, benefits)?;
    Ok([
        best_two_full(benefits, prices),
        best_two(row.as_slice(), prices),
    ])
}

// The best two, by one search for the best and one for the second.
fn searched(benefits: &[Benefit], prices: &[Price]) -> Option<BestTwo> {
    let mut best: Option<(usize, i128)> = None;
    for (i, (benefit, price)) in benefits.iter().zip(prices).enumerate() {
        let value = i128::from(*benefit).wrapping_sub(*price);
        if best.is_none_or(|(_, other)| value > other) {
            best = Some((i, value));
        }
    }
    let (at, best) = best?;
    let mut second: Option<i128> = None;
    for (i, (benefit, price)) in benefits.iter().zip(prices).enumerate() {
        let value = i128::from(*benefit).wrapping_sub(*price);
        if i != at && second.is_none_or(|other| value > other) {
            second = Some(value);
        }
    }
    Some(BestTwo {
        object: Object(u16::try_from(at).unwrap_or(0).wrapping_add(1)),
        best,
        second,
    })
}

// Whether both calls and the search agree, if the objects at two places are the best.
fn agree(alloc: Global, size: Size, n: u16, first: u16, second: u16) -> Result<bool, AllocError>
    requires { n ≤ MOST_PERSONS }
{
    let prices = prices_of(alloc, size, n)?;
    let benefits = benefits_of(alloc, size, n, first, second)?;
    let plain = searched(benefits.as_slice(), prices.as_slice());
    Ok(answers(alloc, benefits.as_slice(), &prices)? == [plain, plain])
}

#[test]
fn rows_of_many_lengths(rt: HostRuntime) -> Result<(), Fail> {
    for n in [
        0u16,
        1,
        2,
        15,
        16,
        17,
        31,
        32,
        33,
        63,
        64,
        65,
        127,
        128,
        129,
        MOST_PERSONS,
    ] {
        for (first, second) in [
            (0, 0),
            (n.wrapping_sub(1), 9000),
            (1, n / 2),
            (5, 70),
            (70, 64),
            (20, n.wrapping_sub(2)),
        ] {
            for size in [Size::Small, Size::Mixed, Size::Great] {
                let same = agree(rt.alloc(), size, n, first, second)?;
                assert!(rt; same, "{n} {first} {second}");
            }
        }
    }
    Ok(())
}

// The best two of a row of all objects under as many prices, if both forms give the same.
fn both_ways(
    alloc: Global,
    benefits: &[Benefit],
    values: &[Price],
) -> Result<Option<BestTwo>, AllocError>
    requires few { length benefits.now ≤ MOST_PERSONS }
    requires range { All IsBenefit benefits.now }
{
    if values.len() != benefits.len() {
        return Ok(None);
    }
    let prices = table(alloc, values)?;
    let row = pairs_of(alloc, benefits)?;
    let full = best_two_full(benefits, &prices);
    if best_two(row.as_slice(), &prices) == full {
        return Ok(full);
    }
    Ok(None)
}

// Whether both forms of a row give this object, with this best value and second value.
fn gives(
    alloc: Global,
    benefits: &[Benefit],
    values: &[Price],
    best_two: (u16, Price, Option<Price>),
) -> Result<bool, AllocError>
    requires few { length benefits.now ≤ MOST_PERSONS }
    requires range { All IsBenefit benefits.now }
{
    let (object, best, second) = best_two;
    let object = Object(object);
    Ok(
        both_ways(alloc, benefits, values)?
            == Some(BestTwo {
                object,
                best,
                second,
            }),
    )
}

#[test]
fn worked_rows(rt: HostRuntime) -> Result<(), Fail> {
    let alloc = rt.alloc();
    assert!(rt; gives(alloc, &[-8, -8, -8], &[1, 0, 0], (2, -8, Some(-8)))?);
    assert!(rt; gives(alloc, &[-3, -6], &[8, 0], (2, -6, Some(-11)))?);
    assert!(rt; gives(alloc, &[-14], &[0], (1, -14, None))?);
    assert!(rt; best_two(&[], &Prices::zeros(alloc, 1)?).is_none());
    Ok(())
}

// The ask of a phase with this slackness that starts with greatest price p0.
fn ask_of(scaled: &Scaled, phase: u16, p0: Price, eps: i64) -> Ask
    requires price { IsPrice p0 }
    requires eps { IsEps scaled.now eps }
    ensures { IsAsk scaled.now result }
{
    Ask {
        phase,
        eps,
        floor: scaled.floor(p0, eps),
    }
}

// A price brought into range.
fn priced(value: Price) -> Price
    ensures { IsPrice result }
{
    value.max(0).min(PRICE_END - 1)
}

// A table with these prices, each brought into range.
fn table(alloc: Global, values: &[Price]) -> Result<Prices, AllocError>
    requires { length values.now ≤ MOST_PERSONS }
    ensures { IfOk result (λ prices. length prices ≡ length values.now) }
{
    let mut prices = Vec::with_capacity(alloc, values.len())?;
    for value in values {
        prices.push(priced(*value))?;
    }
    Prices::new(alloc, prices)
}

// A person's offer under these prices, if the person and the prices belong to the problem.
fn offered(
    alloc: Global,
    scaled: &Scaled,
    values: &[Price],
    ask: Ask,
    person: u16,
) -> Result<Option<Offer>, AllocError>
    requires { IsAsk scaled.now ask }
{
    let n = scaled.n();
    if values.len() != n as usize || person == 0 || person > n {
        return Ok(None);
    }
    let prices = table(alloc, values)?;
    Ok(Some(make_bid(scaled, &prices, 7, ask, Person(person))))
}

// The offer in a phase with the first slackness.
fn offered_first(
    alloc: Global,
    scaled: &Scaled,
    values: &[Price],
    phase: u16,
    p0: Price,
    person: u16,
) -> Result<Option<Offer>, AllocError>
    requires { IsPrice p0 }
{
    let ask = ask_of(scaled, phase, p0, scaled.first_eps());
    offered(alloc, scaled, values, ask, person)
}

// The offer in the second phase, if there is one.
fn offered_second(
    alloc: Global,
    scaled: &Scaled,
    values: &[Price],
    p0: Price,
    person: u16,
) -> Result<Option<Offer>, AllocError>
    requires { IsPrice p0 }
{
    let Some(eps) = next_eps(scaled.first_eps()) else {
        return Ok(None);
    };
    offered(alloc, scaled, values, ask_of(scaled, 2, p0, eps), person)
}

// A person's offer in the first phase, or in the second, which starts with the greatest price 8.
fn offered_in(
    alloc: Global,
    scaled: &Scaled,
    phase: u16,
    values: &[Price],
    person: u16,
) -> Result<Option<Offer>, AllocError> {
    if phase == 1 {
        offered_first(alloc, scaled, values, 1, 0, person)
    } else {
        offered_second(alloc, scaled, values, 8, person)
    }
}

// Prices, a person, and the object and the level of its bid under them; object 0 if it makes none.
type Offered = (&'static [Price], u16, u16, Price);

// Whether each of these offers is made.
fn are_made(
    alloc: Global,
    scaled: &Scaled,
    phase: u16,
    table: &[Offered],
) -> Result<bool, AllocError> {
    for (values, person, object, level) in table {
        let made = offered_in(alloc, scaled, phase, values, *person)?;
        if made != offer(*person, *object, *level, phase) {
            return Ok(false);
        }
    }
    Ok(true)
}

// The slackness and the floor of the first phase, or of the second.
fn ask_in(scaled: &Scaled, phase: u16) -> Option<(i64, Price)> {
    let first = scaled.first_eps();
    let (p0, eps) = if phase == 1 {
        (0, first)
    } else {
        (8, next_eps(first)?)
    };
    let ask = ask_of(scaled, phase, p0, eps);
    Some((ask.eps, ask.floor))
}

// A bid of version 7, or none, for object 0.
fn offer(person: u16, object: u16, level: Price, phase: u16) -> Option<Offer> {
    let person = Person(person);
    if object == 0 {
        return Some(Offer::Below(BelowFloor { person, phase }));
    }
    Some(Offer::Bid(Bid {
        person,
        object: Object(object),
        level,
        phase,
        version: 7,
    }))
}

// The problem of two persons.
fn two_persons(alloc: Global, sense: Sense) -> Result<Scaled, AllocError> {
    let problem = Problem::dense(alloc, 2, &[1, 2, 3, 5])?;
    scale(alloc, problem, sense)
}

// Persons 1 and 2 list object 1, and person 3 the others.
fn three_persons(alloc: Global) -> Result<Scaled, AllocError> {
    let problem = Problem::from_rows(vec![in alloc;
        vec![in alloc; (Object(1), 4)]?,
        vec![in alloc; (Object(1), 6)]?,
        vec![in alloc; (Object(2), 1), (Object(3), 2)]?,
    ]?);
    scale(alloc, problem, Sense::Min)
}

// Two persons under a sense, or three.
#[derive(Clone, Copy)]
enum Persons {
    Two(Sense),
    Three,
}

fn scaled_of(alloc: Global, persons: Persons) -> Result<Scaled, AllocError> {
    match persons {
        Persons::Two(sense) => two_persons(alloc, sense),
        Persons::Three => three_persons(alloc),
    }
}

// Whether a phase has this slackness and this floor, and each of these offers is made in it.
fn is_phase(
    alloc: Global,
    persons: Persons,
    phase: u16,
    ask: (i64, Price),
    table: &[Offered],
) -> Result<bool, AllocError> {
    let scaled = scaled_of(alloc, persons)?;
    Ok(ask_in(&scaled, phase) == Some(ask) && are_made(alloc, &scaled, phase, table)?)
}

// A problem of one person, and its row.
fn one_person(alloc: Global, row: Vec<(Object, Cost)>) -> Result<Scaled, AllocError>
    requires { IsRow 1 row.items }
{
    let problem = Problem::from_rows(vec![in alloc; row]?);
    scale(alloc, problem, Sense::Min)
}

const TWO_PERSONS: [Offered; 6] = [
    (&[0, 0], 1, 1, 5),
    (&[0, 0], 2, 1, 8),
    (&[8, 0], 1, 2, 7),
    // The second value is below the floor.
    (&[0, 100], 1, 1, 28),
    // The best value is the floor, and one less.
    (&[26, 24], 1, 1, 28),
    (&[27, 24], 1, 0, 0),
];

const SECOND_PHASE: [Offered; 7] = [
    (&[8, 7], 1, 1, 11),
    (&[8, 7], 2, 1, 14),
    (&[14, 7], 1, 2, 12),
    (&[8, 0], 1, 2, 6),
    (&[0, 0], 2, 1, 7),
    (&[11, 7], 2, 1, 14),
    (&[11, 7], 1, 2, 9),
];

// The greatest costs are sought.
const GREATEST: [Offered; 2] = [(&[0, 0], 1, 2, 5), (&[0, 0], 2, 2, 8)];

const THREE_PERSONS: [Offered; 4] = [
    (&[0, 0, 0], 1, 1, 60),
    (&[0, 0, 0], 2, 1, 52),
    (&[0, 0, 0], 3, 2, 8),
    (&[60, 8, 0], 2, 0, 0),
];

#[test]
fn offers_in_phases(rt: HostRuntime) -> Result<(), Fail> {
    let (least, greatest) = (Persons::Two(Sense::Min), Persons::Two(Sense::Max));
    assert!(rt; is_phase(rt.alloc(), least, 1, (2, -29), &TWO_PERSONS)?);
    assert!(rt; is_phase(rt.alloc(), least, 2, (1, -36), &SECOND_PHASE)?);
    assert!(rt; is_phase(rt.alloc(), greatest, 1, (2, -11), &GREATEST)?);
    assert!(rt; is_phase(rt.alloc(), Persons::Three, 1, (4, -72), &THREE_PERSONS)?);
    Ok(())
}

// The offer of one person for one object at the greatest price, in a third phase that starts with
// this price.
fn greatest_offer(alloc: Global, p0: Price) -> Result<Option<Offer>, AllocError>
    requires { IsPrice p0 }
{
    let scaled = one_person(alloc, vec![in alloc; (Object(1), 7)]?)?;
    offered_first(alloc, &scaled, &[PRICE_END - 1], 3, p0, 1)
}

// The offer of one person that lists nothing.
fn offer_of_nothing(alloc: Global) -> Result<Option<Offer>, AllocError> {
    let scaled = one_person(alloc, Vec::new(alloc))?;
    offered_first(alloc, &scaled, &[0], 1, 0, 1)
}

#[test]
fn offers_of_one_person(rt: HostRuntime) -> Result<(), Fail> {
    assert!(rt; greatest_offer(rt.alloc(), PRICE_END - 1)? == offer(1, 1, PRICE_END, 3));
    assert!(rt; greatest_offer(rt.alloc(), PRICE_END - 2)? == offer(1, 0, 0, 3));
    assert!(rt; offer_of_nothing(rt.alloc())? == offer(1, 0, 0, 1));
    Ok(())
}
