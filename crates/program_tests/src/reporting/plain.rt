// The grammar of reports in a plain transcription, with which the tests compare the reader.
use assign_core::{Numbered, Object, Price, Sense};
use report::{Report, ReportFault};
use std::alloc::{AllocError, Global};

// The greatest absolute values of costs and their sums, and the end of prices.
#[derive(Clone, Copy)]
struct Widths {
    cost: i128,
    total: i128,
    price: i128,
}

const FIRST: Widths = Widths {
    cost: 1_000_000,
    total: 8_192_000_000,
    price: 10_000_000_000_000_000,
};

const SECOND: Widths = Widths {
    cost: 1_000_000_000_000,
    total: 8_192_000_000_000_000,
    price: 10_000_000_000_000_000_000_000,
};

// The lines so far, with the numbers of rows and prices.
#[derive(Clone, Copy)]
enum Stage {
    Start,
    Sense,
    Rows(Widths, i128),
    Prices(Widths, i128, i128),
    Infeasible,
    Persons,
    Objects,
}

// A number: no plus, no leading zero, no -0.
fn number(word: &[u8]) -> Option<i128> {
    let digits = word.strip_prefix(b"-").unwrap_or(word);
    let negative = digits.len() < word.len();
    if digits.is_empty() || (digits[0] == b'0' && (negative || digits.len() > 1)) {
        return None;
    }
    let mut value: i128 = 0;
    for b in digits {
        if !b.is_ascii_digit() {
            return None;
        }
        value = value
            .saturating_mul(10)
            .saturating_add(i128::from(b.saturating_sub(b'0')));
    }
    if negative {
        Some(value.saturating_neg())
    } else {
        Some(value)
    }
}

// The numbers of a line after its first word, each after one space.
fn numbers_behind(
    alloc: Global,
    line: &[u8],
    word: &[u8],
) -> Result<Option<Vec<i128>>, AllocError> {
    let Some(rest) = line.strip_prefix(word) else {
        return Ok(None);
    };
    let mut numbers = Vec::new(alloc);
    for (i, part) in rest.split(|b| *b == b' ').enumerate() {
        if i == 0 {
            if !part.is_empty() {
                return Ok(None);
            }
        } else if let Some(number) = number(part) {
            numbers.push(number)?;
        } else {
            return Ok(None);
        }
    }
    Ok(Some(numbers))
}

fn is_within(number: i128, least: i128, greatest: i128) -> bool {
    least <= number && number <= greatest
}

// The first line, or the one after the sense.
fn opening(alloc: Global, line: &[u8], widths: Widths) -> Result<Option<Stage>, AllocError> {
    if line == b"infeasible".as_slice() {
        return Ok(Some(Stage::Infeasible));
    }
    let numbers = numbers_behind(alloc, line, b"cost")?.unwrap_or(Vec::new(alloc));
    match numbers.as_slice() {
        [cost] if is_within(*cost, widths.total.saturating_neg(), widths.total) => {
            Ok(Some(Stage::Rows(widths, 0)))
        }
        _ => Ok(None),
    }
}

fn pair(
    alloc: Global,
    line: &[u8],
    widths: Widths,
    rows: i128,
) -> Result<Option<Stage>, AllocError> {
    let next = rows.saturating_add(1);
    let numbers = numbers_behind(alloc, line, b"assign")?.unwrap_or(Vec::new(alloc));
    match numbers.as_slice() {
        [person, object, cost]
            if *person == next
                && is_within(next, 1, 8192)
                && is_within(*object, 1, 8192)
                && is_within(*cost, widths.cost.saturating_neg(), widths.cost) => {
            Ok(Some(Stage::Rows(widths, next)))
        }
        _ => Ok(None),
    }
}

fn price(
    alloc: Global,
    line: &[u8],
    widths: Widths,
    rows: i128,
    prices: i128,
) -> Result<Option<Stage>, AllocError> {
    let next = prices.saturating_add(1);
    let numbers = numbers_behind(alloc, line, b"price")?.unwrap_or(Vec::new(alloc));
    match numbers.as_slice() {
        [object, price]
            if *object == next && next <= rows && *price >= 0 && *price < widths.price => {
            Ok(Some(Stage::Prices(widths, rows, next)))
        }
        _ => Ok(None),
    }
}

// A list of at least `least` numbers, rising.
fn is_list(alloc: Global, line: &[u8], word: &[u8], least: i128) -> Result<bool, AllocError> {
    let numbers = numbers_behind(alloc, line, word)?.unwrap_or(Vec::new(alloc));
    let Some((count, numbers)) = numbers.as_slice().split_first() else {
        return Ok(false);
    };
    let mut last = 0;
    for number in numbers {
        if *number <= last || *number > 8192 {
            return Ok(false);
        }
        last = *number;
    }
    Ok(*count >= least && *count == numbers.len() as i128)
}

fn stage_after(alloc: Global, stage: Stage, line: &[u8]) -> Result<Option<Stage>, AllocError> {
    match stage {
        Stage::Start => {
            if line == b"sense min".as_slice() || line == b"sense max".as_slice() {
                Ok(Some(Stage::Sense))
            } else {
                opening(alloc, line, FIRST)
            }
        }
        Stage::Sense => opening(alloc, line, SECOND),
        Stage::Rows(widths, rows) => match pair(alloc, line, widths, rows)? {
            Some(next) => Ok(Some(next)),
            None => price(alloc, line, widths, rows, 0),
        },
        Stage::Prices(widths, rows, prices) => price(alloc, line, widths, rows, prices),
        Stage::Infeasible => Ok(is_list(alloc, line, b"persons", 1)?.then_some(Stage::Persons)),
        Stage::Persons => Ok(is_list(alloc, line, b"objects", 0)?.then_some(Stage::Objects)),
        Stage::Objects => Ok(None),
    }
}

/// The fault of a text within the limit, if it isn't a report.
pub fn fault_of(alloc: Global, text: &[u8]) -> Result<Option<ReportFault>, AllocError> {
    let mut stage = Stage::Start;
    let mut number: u64 = 1;
    for piece in text.split_inclusive(|b| *b == b'\n') {
        let Some(line) = piece.strip_suffix(b"\n") else {
            return Ok(Some(ReportFault::Line(number)));
        };
        let Some(next) = stage_after(alloc, stage, line)? else {
            return Ok(Some(ReportFault::Line(number)));
        };
        stage = next;
        number = number.saturating_add(1);
    }
    match stage {
        Stage::Rows(_, rows) if rows > 0 => Ok(None),
        Stage::Prices(_, rows, prices) if prices == rows => Ok(None),
        Stage::Objects => Ok(None),
        _ => Ok(Some(ReportFault::Ends(number))),
    }
}

fn add_sense(text: &mut String, sense: &Option<Sense>) -> Result<(), AllocError> {
    match sense {
        None => Ok(()),
        Some(Sense::Min) => text.push_str("sense min\n"),
        Some(Sense::Max) => text.push_str("sense max\n"),
    }
}

fn add_rows(alloc: Global, text: &mut String, rows: &[(Object, i64)]) -> Result<(), AllocError> {
    for (i, (object, cost)) in rows.iter().enumerate() {
        let person = i.saturating_add(1);
        let object = object.0;
        text.push_str(format!(in alloc; "assign {person} {object} {cost}\n")?.as_str())?;
    }
    Ok(())
}

fn add_prices(alloc: Global, text: &mut String, prices: &[Price]) -> Result<(), AllocError> {
    for (i, price) in prices.iter().enumerate() {
        let object = i.saturating_add(1);
        text.push_str(format!(in alloc; "price {object} {price}\n")?.as_str())?;
    }
    Ok(())
}

fn add_list<N: Numbered>(
    alloc: Global,
    text: &mut String,
    word: &str,
    numbers: &[N],
) -> Result<(), AllocError> {
    let count = numbers.len();
    text.push_str(format!(in alloc; "{word} {count}")?.as_str())?;
    for number in numbers {
        let number = number.number();
        text.push_str(format!(in alloc; " {number}")?.as_str())?;
    }
    text.push_str("\n")
}

/// The text of a report.
pub fn text_of(alloc: Global, report: &Report) -> Result<String, AllocError> {
    let mut text = String::new(alloc);
    match report {
        Report::Best {
            sense,
            cost,
            rows,
            prices,
        } => {
            add_sense(&mut text, sense)?;
            text.push_str(format!(in alloc; "cost {cost}\n")?.as_str())?;
            add_rows(alloc, &mut text, rows.as_slice())?;
            if let Some(prices) = prices {
                add_prices(alloc, &mut text, prices.as_slice())?;
            }
        }
        Report::Hall {
            sense,
            persons,
            objects,
        } => {
            add_sense(&mut text, sense)?;
            text.push_str("infeasible\n")?;
            add_list(alloc, &mut text, "persons", persons.as_slice())?;
            add_list(alloc, &mut text, "objects", objects.as_slice())?;
        }
    }
    Ok(text)
}
