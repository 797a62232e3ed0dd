// Verdicts worked out by hand.
use assign_core::Sense;
use double_checker::{HallVerdict, Verdict, check, check_hall};
use std::test::Fail;

const INF: f64 = f64::INFINITY;

// 1 + 2^-52, the double after 1.
const AFTER_ONE: f64 = 1.0000000000000002220446049250313080847263336181640625;

// Two persons and three objects: person 1 pays 0.5, 0.25, 9 and person 2 pays 0.75, 0.125,
// forbidden. The best plan gives them objects 1 and 2 at 0.625; objects 2 and 1 cost 1.
const COSTS: [f64; 6] = [0.5, 0.25, 9.0, 0.75, 0.125, INF];

// The verdict on two persons and three objects.
fn verdict_on(
    sense: Sense,
    costs: &[f64],
    objects: &[u32],
    prices: &[f64],
    margin: f64,
) -> Verdict {
    let mut owned = [true, false, true];
    check(sense, 2, 3, costs, objects, prices, margin, &mut owned)
}

#[test]
fn each_verdict_on_two_persons(rt: HostRuntime) -> Result<(), Fail> {
    let prices = [0.0, 0.375, 0.0];
    let dear = [0.0, 0.375, 1.0];
    let no_price = [0.0, 0.375, INF];
    let wanted: [(&[u32], &[f64], Verdict); 7] = [
        (&[1, 2], &prices, Verdict::Best { by_margin: true }),
        (&[2, 1], &prices, Verdict::Undecided),
        (&[1], &prices, Verdict::Length),
        (&[1, 3], &prices, Verdict::Unlisted(2)),
        (&[2, 2], &prices, Verdict::Twice(2)),
        (&[1, 2], &no_price, Verdict::Price(3)),
        (&[1, 2], &dear, Verdict::Undecided),
    ];
    for (objects, prices, verdict) in wanted.iter() {
        let found = verdict_on(Sense::Min, &COSTS, objects, prices, 0.01);
        assert!(rt; found == *verdict);
    }
    let fault = verdict_on(Sense::Max, &COSTS, &[1, 2], &prices, 0.01);
    assert!(rt; fault == Verdict::Cost(5));
    Ok(())
}

// At these prices each other pair is worse by 0.125 or more. 2^-52 of the greatest cost is 9 *
// 2^-52, which is between 10^-15 and 2 * 10^-15.
#[test]
fn margins_are_above_what_rounding_moves(rt: HostRuntime) -> Result<(), Fail> {
    let prices = [0.0, 0.375, 0.0];
    let wanted = [
        (0.06, true),
        (0.13, false),
        (0.000000000000002, true),
        (0.000000000000001, false),
        (0.0, false),
        (-0.1, false),
        (f64::NAN, false),
        (INF, false),
    ];
    for (margin, by_margin) in wanted {
        let found = verdict_on(Sense::Min, &COSTS, &[1, 2], &prices, margin);
        assert!(rt; found == Verdict::Best { by_margin });
    }
    Ok(())
}

// One person and two objects.
fn verdict_on_one(sense: Sense, costs: [f64; 2], object: u32, price: f64) -> Verdict {
    let mut owned = [false; 2];
    check(
        sense,
        1,
        2,
        &costs,
        &[object],
        &[price, price],
        0.01,
        &mut owned,
    )
}

// Equal costs are both best, one that is less by a last digit alone is, also where prices are so
// great that both sums round to the price.
#[test]
fn an_ulp_decides(rt: HostRuntime) -> Result<(), Fail> {
    let best = Verdict::Best { by_margin: false };
    for price in [0.0, 10000000000000000.0] {
        let same = [1.0, 1.0];
        assert!(rt; verdict_on_one(Sense::Min, same, 1, price) == best);
        assert!(rt; verdict_on_one(Sense::Max, same, 2, price) == best);
        let off = [AFTER_ONE, 1.0];
        assert!(rt; verdict_on_one(Sense::Min, off, 1, price) == Verdict::Undecided);
        assert!(rt; verdict_on_one(Sense::Min, off, 2, price) == best);
        assert!(rt; verdict_on_one(Sense::Max, off, 1, price) == best);
        assert!(rt; verdict_on_one(Sense::Max, off, 2, price) == Verdict::Undecided);
    }
    Ok(())
}

fn hall_verdict(sense: Sense, costs: [f64; 4], persons: &[u32], objects: &[u32]) -> HallVerdict {
    let mut named = [true, false];
    check_hall(sense, 2, 2, &costs, persons, objects, &mut named)
}

// Two persons that are both allowed the first object alone.
#[test]
fn a_hall_set(rt: HostRuntime) -> Result<(), Fail> {
    let costs = [1.0, INF, 2.0, INF];
    assert!(rt; hall_verdict(Sense::Min, costs, &[1, 2], &[1]) == HallVerdict::Hall);
    assert!(rt; hall_verdict(Sense::Min, costs, &[1, 2], &[2]) == HallVerdict::Not);
    assert!(rt; hall_verdict(Sense::Min, costs, &[1], &[1]) == HallVerdict::Not);
    assert!(rt; hall_verdict(Sense::Max, costs, &[1, 2], &[1]) == HallVerdict::Cost(1));
    Ok(())
}
