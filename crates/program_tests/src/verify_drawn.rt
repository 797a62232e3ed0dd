// Reports printed for drawn problems are verified; with a changed number they are verified only if
// they are still right.
use crate::texts::problem_in;
use assign_core::{Cost, Object, Person, Price, Problem, Sense};
use async_workers::OpenGate;
use auction_command::{Verified, run_solve, run_verify};
use command_line::{Mode, SolveOpts};
use orlib_reader::InputFault;
use report::{Report, read_report};
use std::alloc::{AllocError, Global};
use std::sync::Wait;
use std::test::Fail;
use std::thread::Threads;
use test_helpers::{ample_writer, next_number, plain_best, whole_text};

// A problem's text, whether it lists pairs, and the sense.
#[derive(Drop)]
struct Drawn {
    text: String,
    sparse: bool,
    sense: Sense,
    mode: Mode,
    workers: u16,
}

// A problem of at most four persons, in either layout, under either sense and for either mode.
fn draw(alloc: Global, seed: &mut u64) -> Result<Drawn, AllocError> {
    let n = next_number(seed) % 4 + 1;
    let sparse = next_number(seed) % 2 == 0;
    let sense = if next_number(seed) % 2 == 0 {
        Sense::Min
    } else {
        Sense::Max
    };
    let mut text = format!(in alloc; "{n}")?;
    for i in 0..n {
        for j in 0..n {
            let cost = (next_number(seed) % 9) as i64 - 4;
            if !sparse {
                write!(text, " {cost}")?;
            } else if next_number(seed) % 3 < 2 {
                write!(text, " {} {} {cost}", i + 1, j + 1)?;
            }
        }
    }
    let mode = if next_number(seed) % 2 == 0 {
        Mode::Rounds
    } else {
        Mode::Workers
    };
    Ok(Drawn {
        text,
        sparse,
        sense,
        mode,
        workers: (next_number(seed) % 8) as u16 + 1,
    })
}

// The report that is printed, or a part of it where the run fails.
fn printed(rt: &(impl Threads + Wait + Sync), alloc: Global, drawn: &Drawn) -> Vec<u8> {
    let mut writer = ample_writer(alloc);
    let mut problem = whole_text(drawn.text.as_bytes(), 64);
    let options = SolveOpts {
        sparse: drawn.sparse,
        mode: drawn.mode,
        workers: drawn.workers.max(1),
        refresh: u64::from(drawn.workers % 4),
        prices: true,
        sense: drawn.sense,
    };
    let _end = run_solve(rt, alloc, &mut problem, &mut writer, options, &OpenGate);
    writer.taken
}

fn is_verified(alloc: Global, drawn: &Drawn, report: &[u8]) -> bool {
    let mut writer = ample_writer(alloc);
    let mut problem = whole_text(drawn.text.as_bytes(), 64);
    let mut report = whole_text(report, 64);
    let sparse = drawn.sparse;
    let end = run_verify(alloc, &mut problem, &mut report, sparse, &mut writer);
    matches!(end, Ok(Verified::Yes))
}

// The whole number of a word.
fn number_of(word: &[u8]) -> Option<i128> {
    let (digits, sign) = match word {
        [b'-', digits @ ..] => (digits, -1),
        _ => (word, 1),
    };
    if digits.is_empty() {
        return None;
    }
    let mut value: i128 = 0;
    for b in digits {
        if !b.is_ascii_digit() {
            return None;
        }
        value = value
            .wrapping_mul(10)
            .wrapping_add(i128::from(b.wrapping_sub(b'0')));
    }
    Some(value.wrapping_mul(sign))
}

// A text with one of its numbers changed, and the count of its numbers.
#[derive(Drop)]
struct Changed {
    text: Vec<u8>,
    numbers: usize,
}

// Adds a word, changed if it is the number to change.
fn push_word(
    changed: &mut Changed,
    word: &[u8],
    which: usize,
    change: i128,
) -> Result<(), AllocError> {
    let alloc = *changed.text.allocator();
    let Some(value) = number_of(word) else {
        return changed.text.extend_from_slice(word);
    };
    let here = changed.numbers == which;
    changed.numbers = changed.numbers.wrapping_add(1);
    if !here {
        return changed.text.extend_from_slice(word);
    }
    let other = value.wrapping_add(change);
    let digits = format!(in alloc; "{other}")?;
    changed.text.extend_from_slice(digits.as_bytes())
}

// The text with its number `which`, from 0, changed by this amount.
fn with_change(
    alloc: Global,
    text: &[u8],
    which: usize,
    change: i128,
) -> Result<Changed, AllocError> {
    let mut changed = Changed {
        text: Vec::new(alloc),
        numbers: 0,
    };
    let mut word: Vec<u8> = Vec::new(alloc);
    for b in text {
        if *b == b' ' || *b == b'\n' {
            push_word(&mut changed, word.as_slice(), which, change)?;
            changed.text.push(*b)?;
            word.clear();
        } else {
            word.push(*b)?;
        }
    }
    Ok(changed)
}

// The value of an object to a person: its benefit, less its price.
fn worth(
    problem: &Problem,
    sense: Sense,
    prices: &[Price],
    person: Person,
    object: Object,
) -> Option<i128> {
    let cost = problem.cost_of(person, object)?;
    let price = prices.get((object.0 as usize).wrapping_sub(1))?;
    let scale = i128::from(problem.n()) + 1;
    let factor = match sense {
        Sense::Min => -scale,
        Sense::Max => scale,
    };
    Some(factor.wrapping_mul(i128::from(cost)).wrapping_sub(*price))
}

// Whether no object has a value to a person over 1 above that of its own.
fn has_slack(
    problem: &Problem,
    sense: Sense,
    prices: &[Price],
    person: Person,
    object: Object,
) -> bool {
    let Some(own) = worth(problem, sense, prices, person, object) else {
        return false;
    };
    for j in 0..problem.n() {
        if let Some(other) = worth(problem, sense, prices, person, Object(j + 1)) {
            if other > own.wrapping_add(1) {
                return false;
            }
        }
    }
    true
}

// Whether each person has a listed object at the given cost, with slackness 1, which no other
// person has.
fn pairs_are_right(
    problem: &Problem,
    sense: Sense,
    pairs: &[(Object, Cost)],
    prices: &[Price],
) -> bool {
    let n = problem.n() as usize;
    if pairs.len() != n || prices.len() != n {
        return false;
    }
    for (i, (object, cost)) in pairs.iter().enumerate() {
        let person = Person(i as u16 + 1);
        let shared = pairs.iter().filter(|pair| pair.0 == *object).count();
        if problem.cost_of(person, *object) != Some(*cost)
            || shared != 1
            || !has_slack(problem, sense, prices, person, *object)
        {
            return false;
        }
    }
    true
}

// The cost of an optimal assignment, found by trying all.
fn best_cost(alloc: Global, problem: &Problem, sense: Sense) -> Result<Option<Cost>, AllocError> {
    let best = plain_best(alloc, problem, sense)?;
    Ok(best.map(|assignment| problem.total(&assignment)))
}

// Whether an object is listed by one of the persons.
fn is_neighbour(problem: &Problem, persons: &[Person], object: Object) -> bool {
    persons
        .iter()
        .any(|person| problem.cost_of(*person, object).is_some())
}

// Whether the objects are just those that the persons list, and are fewer.
fn hall_is_right(problem: &Problem, persons: &[Person], objects: &[Object]) -> bool {
    if persons.iter().any(|person| person.0 > problem.n()) {
        return false;
    }
    for j in 0..problem.n() {
        let object = Object(j + 1);
        if is_neighbour(problem, persons, object) != objects.contains(&object) {
            return false;
        }
    }
    objects.len() < persons.len() && objects.iter().all(|object| object.0 <= problem.n())
}

// Whether a report is right, and its prices prove it.
fn is_right(alloc: Global, problem: &Problem, report: &Report) -> Result<bool, AllocError> {
    match report {
        Report::Best {
            sense,
            cost,
            rows,
            prices: Some(prices),
        } => {
            let sense = sense.unwrap_or(Sense::Min);
            let best = best_cost(alloc, problem, sense)?;
            let pairs = rows.as_slice();
            Ok(best == Some(*cost) && pairs_are_right(problem, sense, pairs, prices.as_slice()))
        }
        Report::Best { prices: None, .. } => Ok(false),
        Report::Hall {
            persons,
            objects,
            ..
        } => {
            let best = best_cost(alloc, problem, Sense::Min)?;
            let right = hall_is_right(problem, persons.as_slice(), objects.as_slice());
            Ok(best.is_none() && right)
        }
    }
}

fn problem_of(alloc: Global, drawn: &Drawn) -> Result<Problem, InputFault> {
    problem_in(alloc, drawn.text.as_bytes(), drawn.sparse)
}

// Whether a report is verified exactly if it is right; other texts aren't verified.
fn is_told_rightly(
    alloc: Global,
    drawn: &Drawn,
    problem: &Problem,
    text: &[u8],
) -> Result<bool, AllocError> {
    let right = match read_report(alloc, &mut whole_text(text, 64)) {
        Ok(report) => is_right(alloc, problem, &report)?,
        Err(_) => false,
    };
    Ok(is_verified(alloc, drawn, text) == right)
}

// Whether the printed report is verified, and each change of a number has the right result.
fn agrees(
    rt: &(impl Threads + Wait + Sync),
    alloc: Global,
    drawn: &Drawn,
    change: i128,
) -> Result<bool, AllocError> {
    let Ok(problem) = problem_of(alloc, drawn) else {
        return Ok(false);
    };
    let report = printed(rt, alloc, drawn);
    let text = report.as_slice();
    if !is_verified(alloc, drawn, text) || !is_told_rightly(alloc, drawn, &problem, text)? {
        return Ok(false);
    }
    let numbers = with_change(alloc, text, 0, 0)?.numbers;
    for which in 0..numbers {
        let changed = with_change(alloc, text, which, change)?;
        if !is_told_rightly(alloc, drawn, &problem, changed.text.as_slice())? {
            return Ok(false);
        }
    }
    Ok(numbers > 0)
}

// The number of problems, of these drawn from a seed, that agree.
fn agreeing(
    rt: &(impl Threads + Wait + Sync),
    alloc: Global,
    turns: usize,
    seed: u64,
) -> Result<usize, AllocError> {
    let mut seed = seed;
    let mut count: usize = 0;
    for _ in 0..turns {
        let change = (next_number(&mut seed) % 4) as i128;
        let drawn = draw(alloc, &mut seed)?;
        let change = if change < 2 { change - 2 } else { change - 1 };
        if agrees(rt, alloc, &drawn, change)? {
            count = count.wrapping_add(1);
        }
    }
    Ok(count)
}

#[test]
fn drawn_problems(rt: HostRuntime) -> Result<(), Fail> {
    assert_eq!(rt; agreeing(&rt, rt.alloc(), 500, 2026)?, 500);
    Ok(())
}

// A text with other bytes in place of the one at a place.
fn with_bytes(
    alloc: Global,
    text: &[u8],
    place: usize,
    bytes: &[u8],
) -> Result<Vec<u8>, AllocError> {
    let mut other = Vec::new(alloc);
    for (at, byte) in text.iter().enumerate() {
        if at == place {
            other.extend_from_slice(bytes)?;
        } else {
            other.push(*byte)?;
        }
    }
    Ok(other)
}

// The number of texts with a wrong result, of those with one byte dropped, doubled or changed.
fn told_wrongly(alloc: Global, drawn: &Drawn, text: &[u8]) -> Result<usize, AllocError> {
    let Ok(problem) = problem_of(alloc, drawn) else {
        return Ok(1);
    };
    let mut count: usize = 0;
    for (place, byte) in text.iter().enumerate() {
        let twice = [*byte, *byte];
        let next = [byte.wrapping_add(1)];
        let others: [&[u8]; 9] = [b"", &twice, &next, b"0", b"9", b"-", b" ", b"\n", b"\xFF"];
        for bytes in others {
            let other = with_bytes(alloc, text, place, bytes)?;
            if !is_told_rightly(alloc, drawn, &problem, other.as_slice())? {
                count = count.wrapping_add(1);
            }
        }
    }
    Ok(count)
}

// The number of texts with a wrong result, of those that differ by one byte from a report on this
// problem, if this report is verified.
fn told_wrongly_of(
    alloc: Global,
    problem: &str,
    sparse: bool,
    report: &[u8],
) -> Result<Option<usize>, AllocError> {
    let drawn = Drawn {
        text: String::from_str(alloc, problem)?,
        sparse,
        sense: Sense::Min,
        mode: Mode::Rounds,
        workers: 1,
    };
    if !is_verified(alloc, &drawn, report) {
        return Ok(None);
    }
    Ok(Some(told_wrongly(alloc, &drawn, report)?))
}

#[test]
fn reports_with_a_byte_changed(rt: HostRuntime) -> Result<(), Fail> {
    let two = "2 1 2 3 5";
    let roster = "3 1 1 4 2 1 6 3 2 1 3 3 2";
    let table: [(&str, bool, &[u8]); 4] = [
        (
            two,
            false,
            b"cost 5\nassign 1 2 2\nassign 2 1 3\nprice 1 14\nprice 2 12\n",
        ),
        (
            two,
            false,
            b"sense min\ncost 5\nassign 1 2 2\nassign 2 1 3\nprice 1 14\nprice 2 12\n",
        ),
        (
            two,
            false,
            b"sense max\ncost 6\nassign 1 1 1\nassign 2 2 5\nprice 1 12\nprice 2 14\n",
        ),
        (
            roster,
            true,
            b"sense min\ninfeasible\npersons 2 1 2\nobjects 1 1\n",
        ),
    ];
    for (problem, sparse, report) in table {
        let wrong = told_wrongly_of(rt.alloc(), problem, sparse, report)?;
        assert_eq!(rt; wrong, Some(0));
    }
    Ok(())
}
