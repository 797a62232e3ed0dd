// Each public function on a small problem, with ample memory.
ghost use Rattle.std.specs.Prelude.{◌≡◌, [], ◌∷◌, All, IfOk, length, map};
ghost use Rattle.std.specs.List.{range_with_len};
ghost use Rattle.assign_core.specs.Rows.{IsSize};
ghost use Rattle.assign_core.specs.Sparse.{IsTriple};

use assign_core::{
    Assignment, Certificate, Cost, GREATEST_COST, HallSet, NARROW_END, Numbered, Object, Person,
    Price, Prices, Problem, Sense,
};
use std::alloc::{AllocError, Global};
use std::test::Fail;
use test_helpers::plain_best;

// The dense problem of two persons.
fn two_persons(alloc: Global) -> Result<Problem, AllocError>
    ensures { IfOk result (λ problem. length problem ≡ 2) }
{
    Problem::dense(alloc, 2, &[1, 2, 3, 5])
}

// Whether it has two persons, these rows, and no third object.
fn is_two_persons(problem: &Problem) -> bool
    requires { length problem.now ≡ 2 }
{
    problem.n() == 2
        && problem.row(Person(1)) == [(Object(1), 1), (Object(2), 2)].as_slice()
        && problem.row(Person(2)) == [(Object(1), 3), (Object(2), 5)].as_slice()
        && problem.cost_of(Person(2), Object(1)) == Some(3)
        && problem.cost_of(Person(2), Object(3)).is_none()
}

#[test]
fn a_dense_problem(rt: HostRuntime) -> Result<(), Fail> {
    let problem = two_persons(rt.alloc())?;
    assert!(rt; is_two_persons(&problem));
    Ok(())
}

// The assignment of object 2 to person 1, and of object 1 to person 2.
fn crossed(alloc: Global) -> Result<Assignment, AllocError>
    ensures { IfOk result (λ assignment. assignment ≡ 2 ∷ 1 ∷ []) }
{
    Ok(Assignment::new(vec![in alloc; Object(2), Object(1)]?))
}

// The cost of this assignment in a dense problem of two persons.
fn cost_crossed(alloc: Global) -> Result<Cost, AllocError> {
    let problem = Problem::dense(alloc, 2, &[1, 2, 3, 5])?;
    Ok(problem.total(&crossed(alloc)?))
}

// This assignment with the prices 14 and 12.
fn certificate(alloc: Global) -> Result<Certificate, AllocError> {
    let assignment = crossed(alloc)?;
    let prices = Prices::new(alloc, vec![in alloc; 14, 12]?)?;
    Ok(Certificate { assignment, prices })
}

fn certificate_copied(alloc: Global) -> Result<Certificate, AllocError> {
    let certificate = certificate(alloc)?;
    let assignment = certificate.assignment.copy(alloc)?;
    let prices = certificate.prices.copy(alloc)?;
    Ok(Certificate { assignment, prices })
}

// Whether a copy of it is the same.
fn is_copied(alloc: Global) -> Result<bool, AllocError> {
    let copy = certificate_copied(alloc)?;
    Ok(
        copy.assignment.objects() == [Object(2), Object(1)].as_slice()
            && copy.prices.as_slice() == [14, 12].as_slice(),
    )
}

#[test]
fn benefits_of_both_senses(rt: HostRuntime) {
    for (sense, n, cost, benefit) in [
        (Sense::Min, 2, 5, -15),
        (Sense::Max, 2, 5, 15),
        (Sense::Min, 8192, GREATEST_COST, -8_193_000_000_000_000),
        (Sense::Min, 8192, -GREATEST_COST, 8_193_000_000_000_000),
    ] {
        assert_eq!(rt; sense.benefit(n, cost), benefit);
    }
}

// Two persons and one object.
fn two_for_one(alloc: Global) -> Result<HallSet, AllocError> {
    let persons = vec![in alloc; Person(1), Person(2)]?;
    Ok(HallSet::new(persons, vec![in alloc; Object(1)]?))
}

fn two_for_one_copied(alloc: Global) -> Result<HallSet, AllocError> {
    two_for_one(alloc)?.copy(alloc)
}

// Whether a copy of it is the same.
fn is_hall_copied(alloc: Global) -> Result<bool, AllocError> {
    let copy = two_for_one_copied(alloc)?;
    Ok(
        copy.persons() == [Person(1), Person(2)].as_slice()
            && copy.objects() == [Object(1)].as_slice(),
    )
}

// The persons or the objects from 1 on.
fn first<T: Numbered + Drop>(alloc: Global, count: u16) -> Result<Vec<T>, AllocError>
    ensures { IfOk result
        (λ numbers. map T.number_of numbers.items ≡ map (λ i. i) (range_with_len 1 count)) }
{
    let mut numbers = Vec::new(alloc);
    for i in 0..count {
        numbers.push(T::with_number(i + 1))?;
    }
    Ok(numbers)
}

// All persons, and all objects but the last.
fn all_for_less(alloc: Global) -> Result<HallSet, AllocError> {
    let persons: Vec<Person> = first(alloc, 8192)?;
    let objects: Vec<Object> = first(alloc, 8191)?;
    Ok(HallSet::new(persons, objects))
}

// The numbers of persons and objects in a copy of this Hall set, and its last person.
fn all_told(alloc: Global) -> Result<(usize, usize, Option<Person>), AllocError> {
    let copy = all_for_less(alloc)?.copy(alloc)?;
    let last = copy.persons().last().copied();
    Ok((copy.persons().len(), copy.objects().len(), last))
}

#[test]
fn answers_and_copies(rt: HostRuntime) -> Result<(), Fail> {
    assert_eq!(rt; cost_crossed(rt.alloc())?, 5);
    assert!(rt; is_copied(rt.alloc())?);
    assert!(rt; is_hall_copied(rt.alloc())?);
    assert!(rt; all_told(rt.alloc())? == (8192, 8191, Some(Person(8192))));
    Ok(())
}

// A dense problem in which each pair costs 7.
fn all_alike(alloc: Global, n: u16) -> Result<Problem, AllocError>
    requires { IsSize n }
    ensures { IfOk result (λ problem. length problem ≡ n) }
{
    let costs: Vec<Cost> = vec![in alloc; 7; n as usize * n as usize]?;
    Problem::dense(alloc, n, costs.as_slice())
}

// The number of persons in this problem with 2000 persons, the length of the last row, and the
// costs of three pairs.
fn many_told(alloc: Global) -> Result<(u16, usize, [Option<Cost>; 3]), AllocError> {
    let problem = all_alike(alloc, 2000)?;
    let costs = [
        problem.cost_of(Person(2000), Object(2000)),
        problem.cost_of(Person(0), Object(1)),
        problem.cost_of(Person(2001), Object(1)),
    ];
    Ok((problem.n(), problem.row(Person(2000)).len(), costs))
}

#[test]
fn a_dense_problem_of_many_persons(rt: HostRuntime) -> Result<(), Fail> {
    let told = many_told(rt.alloc())?;
    assert_eq!(rt; told, (2000, 2000, [Some(7), None, None]));
    Ok(())
}

// Three prices, after the price of object 2 is set.
fn one_set(alloc: Global) -> Result<Prices, AllocError>
    ensures { IfOk result (λ prices. length prices ≡ 3) }
{
    let mut prices = Prices::zeros(alloc, 3)?;
    prices.set(Object(2), 1 << 63);
    Ok(prices)
}

// Whether a table has these prices, in both forms.
fn are_prices(prices: &Prices, wide: &[Price; 3], narrow: &[i64; 3]) -> bool {
    prices.as_slice() == wide.as_slice() && prices.narrow() == narrow.as_slice()
}

// Whether the price of object 2 is set.
fn is_set(alloc: Global) -> Result<bool, AllocError> {
    let prices = one_set(alloc)?;
    Ok(
        prices.price(Object(2)) == 1 << 63
            && are_prices(&prices, &[0, 1 << 63, 0], &[0, NARROW_END, 0]),
    )
}

// These prices, after those of another table are copied into them.
fn copied(alloc: Global) -> Result<Prices, AllocError> {
    let mut prices = one_set(alloc)?;
    let mut others = Prices::zeros(alloc, 3)?;
    others.set(Object(3), 5);
    prices.copy_from(&others);
    Ok(prices)
}

// Whether they are those of the other table then.
fn are_copied(alloc: Global) -> Result<bool, AllocError> {
    let prices = copied(alloc)?;
    Ok(are_prices(&prices, &[0, 0, 5], &[0, 0, 5]))
}

#[test]
fn prices_are_set_and_copied(rt: HostRuntime) -> Result<(), Fail> {
    assert!(rt; is_set(rt.alloc())?);
    assert!(rt; are_copied(rt.alloc())?);
    Ok(())
}

fn first_number<T: Numbered>(numbers: &[T]) -> u16 {
    numbers.iter().next().map_or(0, |one| one.number())
}

#[test]
fn numbers_of_persons_and_objects(rt: HostRuntime) {
    let firsts = [
        first_number(&[Person(3), Person(1)]),
        first_number(&[Object(2)]),
    ];
    assert_eq!(rt; firsts, [3, 2]);
    let numbered = (Person::with_number(3), Object::with_number(8192));
    assert!(rt; numbered == (Person(3), Object(8192)));
    assert_eq!(rt; [Person(3).place(), Object(1).place()], [2, 0]);
}

// Whether these triples make a problem of two persons with these rows.
fn makes_rows(
    alloc: Global,
    triples: &[(Person, Object, Cost)],
    first: &[(Object, Cost)],
    second: &[(Object, Cost)],
) -> Result<bool, AllocError>
    requires { All (IsTriple 2) triples.now }
{
    let problem = Problem::sparse(alloc, 2, triples)?;
    Ok(problem.row(Person(1)) == first && problem.row(Person(2)) == second)
}

#[test]
fn pairs_in_any_order(rt: HostRuntime) -> Result<(), Fail> {
    // A pair counts once, at its least cost.
    let triples = [
        (Person(2), Object(2), 5),
        (Person(2), Object(2), 3),
        (Person(2), Object(1), 9),
        (Person(2), Object(2), 4),
    ];
    let second = [(Object(1), 9), (Object(2), 3)];
    assert!(rt; makes_rows(rt.alloc(), &triples, &[], &second)?);
    // All pairs in falling order.
    let triples = [
        (Person(2), Object(2), 5),
        (Person(2), Object(1), 3),
        (Person(1), Object(2), 2),
        (Person(1), Object(1), 1),
    ];
    let first = [(Object(1), 1), (Object(2), 2)];
    let second = [(Object(1), 3), (Object(2), 5)];
    assert!(rt; makes_rows(rt.alloc(), &triples, &first, &second)?);
    Ok(())
}

// Whether a search of all assignments finds one with these objects, at this cost.
fn finds(
    alloc: Global,
    problem: &Problem,
    sense: Sense,
    objects: &[Object],
    cost: Cost,
) -> Result<bool, AllocError> {
    let Some(best) = plain_best(alloc, problem, sense)? else {
        return Ok(false);
    };
    Ok(best.objects() == objects && problem.total(&best) == cost)
}

// Whether it finds the best of two persons under both senses, and that of one.
fn finds_best(alloc: Global) -> Result<bool, AllocError> {
    let two = two_persons(alloc)?;
    let one = Problem::dense(alloc, 1, &[-7])?;
    Ok(
        finds(alloc, &two, Sense::Min, &[Object(2), Object(1)], 5)?
            && finds(alloc, &two, Sense::Max, &[Object(1), Object(2)], 6)?
            && finds(alloc, &one, Sense::Max, &[Object(1)], -7)?,
    )
}

// Two persons who list only the same object.
fn one_listed_object(alloc: Global) -> Result<Problem, AllocError> {
    let triples = [(Person(1), Object(1), 4), (Person(2), Object(1), 6)];
    Problem::sparse(alloc, 2, &triples)
}

// Whether it finds none for these.
fn finds_none(alloc: Global) -> Result<bool, AllocError> {
    let problem = one_listed_object(alloc)?;
    Ok(plain_best(alloc, &problem, Sense::Min)?.is_none())
}

#[test]
fn best_assignments(rt: HostRuntime) -> Result<(), Fail> {
    assert!(rt; finds_best(rt.alloc())?);
    assert!(rt; finds_none(rt.alloc())?);
    Ok(())
}
