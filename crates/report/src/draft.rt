// What the lines of a report have said so far, and what the next line adds.
ghost use Rattle.std.specs.Prelude.{◌≡◌, IfOk};
ghost use Rattle.std.specs.Option.{option_map};
ghost use Rattle.report.specs.Order;
ghost use Rattle.report.specs.inside.SeenLines.{seen_line};
ghost use Rattle.report.specs.inside.SeenDrafts.{seen_draft};
ghost use Rattle.report.specs.SeenReports.{seen_report};
ghost use Rattle.report.specs.inside.Reading.{IsInRange};

use crate::line::Line;
use crate::ranges::{is_entry, is_price, is_total};
use crate::value::Report;
use assign_core::{Cost, MOST_PERSONS, Object, Person, Price, Sense};
use std::alloc::{AllocError, Global};

/// What the lines so far have said.
#[derive(Drop)]
pub enum Draft {
    Nothing,
    WithSense(Sense),
    WithRows(Option<Sense>, Cost, Vec<(Object, Cost)>),
    WithPrices(Option<Sense>, Cost, Vec<(Object, Cost)>, Vec<Price>),
    Infeasible(Option<Sense>),
    WithPersons(Option<Sense>, Vec<Person>),
    WithObjects(Option<Sense>, Vec<Person>, Vec<Object>),
}

// A cost, and no row yet.
fn with_cost(alloc: Global, sense: Option<Sense>, cost: Cost) -> Option<Draft>
    ensures { option_map seen_draft result ≡ Order.with_cost sense cost }
{
    if is_total(sense, cost) {
        Some(Draft::WithRows(sense, cost, Vec::new(alloc)))
    } else {
        None
    }
}

// The first line.
fn first_line(alloc: Global, line: Line) -> Option<Draft>
    ensures { option_map seen_draft result ≡ Order.follow Order.nothing (seen_line line) }
{
    match line {
        Line::Sense(sense) => Some(Draft::WithSense(sense)),
        Line::Cost(cost) => with_cost(alloc, None, cost),
        Line::Infeasible => Some(Draft::Infeasible(None)),
        _ => None,
    }
}

// The line after the sense.
fn behind_sense(alloc: Global, sense: Sense, line: Line) -> Option<Draft>
    ensures { option_map seen_draft result
        ≡ Order.follow (Order.with_sense sense) (seen_line line) }
{
    match line {
        Line::Cost(cost) => with_cost(alloc, Some(sense), cost),
        Line::Infeasible => Some(Draft::Infeasible(Some(sense))),
        _ => None,
    }
}

// The next row, or the first price.
fn row_or_price(
    alloc: Global,
    sense: Option<Sense>,
    cost: Cost,
    rows: Vec<(Object, Cost)>,
    line: Line,
) -> Result<Option<Draft>, AllocError>
    ensures { IfOk result (λ x. option_map seen_draft x
        ≡ Order.follow (Order.with_rows sense cost rows.items) (seen_line line)) }
{
    let mut rows = rows;
    match line {
        Line::Assign(person, object, c)
            if person as usize == rows.len() + 1
                && person <= MOST_PERSONS
                && is_entry(sense, object, c) => {
            rows.push((object, c))?;
            Ok(Some(Draft::WithRows(sense, cost, rows)))
        }
        Line::Price(object, price) if object == 1 && rows.len() > 0 && is_price(sense, price) => {
            let mut prices = Vec::new(alloc);
            prices.push(price)?;
            Ok(Some(Draft::WithPrices(sense, cost, rows, prices)))
        }
        _ => Ok(None),
    }
}

// The next price.
fn price_more(
    sense: Option<Sense>,
    cost: Cost,
    rows: Vec<(Object, Cost)>,
    prices: Vec<Price>,
    line: Line,
) -> Result<Option<Draft>, AllocError>
    ensures { IfOk result (λ x. option_map seen_draft x
        ≡ Order.follow (Order.with_prices sense cost rows.items prices.items) (seen_line line)) }
{
    let mut prices = prices;
    match line {
        Line::Price(object, price)
            if object as usize == prices.len() + 1
                && prices.len() < rows.len()
                && is_price(sense, price) => {
            prices.push(price)?;
            Ok(Some(Draft::WithPrices(sense, cost, rows, prices)))
        }
        _ => Ok(None),
    }
}

// The persons of a Hall set.
fn hall_persons(sense: Option<Sense>, line: Line) -> Option<Draft>
    requires { IsInRange (seen_line line) }
    ensures { option_map seen_draft result
        ≡ Order.follow (Order.infeasible sense) (seen_line line) }
{
    match line {
        Line::Persons(persons) => {
            if persons.is_empty() {
                None
            } else {
                Some(Draft::WithPersons(sense, persons))
            }
        }
        _ => None,
    }
}

// The objects of a Hall set.
fn hall_objects(sense: Option<Sense>, persons: Vec<Person>, line: Line) -> Option<Draft>
    requires { IsInRange (seen_line line) }
    ensures { option_map seen_draft result
        ≡ Order.follow (Order.with_persons sense persons.items) (seen_line line) }
{
    match line {
        Line::Objects(objects) => Some(Draft::WithObjects(sense, persons, objects)),
        _ => None,
    }
}

impl Draft {
    /// The draft with one more line; `None` if the line isn't allowed there.
    pub fn follow(self, alloc: Global, line: Line) -> Result<Option<Draft>, AllocError>
        requires { IsInRange (seen_line line) }
        ensures { IfOk result
            (λ x. option_map seen_draft x ≡ Order.follow (seen_draft self) (seen_line line)) }
    {
        match self {
            Draft::Nothing => Ok(first_line(alloc, line)),
            Draft::WithSense(sense) => Ok(behind_sense(alloc, sense, line)),
            Draft::WithRows(sense, cost, rows) => row_or_price(alloc, sense, cost, rows, line),
            Draft::WithPrices(sense, cost, rows, prices) => {
                price_more(sense, cost, rows, prices, line)
            }
            Draft::Infeasible(sense) => Ok(hall_persons(sense, line)),
            Draft::WithPersons(sense, persons) => Ok(hall_objects(sense, persons, line)),
            Draft::WithObjects(..) => Ok(None),
        }
    }

    /// The report; `None` if the text can't end here.
    pub fn finish(self) -> Option<Report>
        ensures { option_map seen_report result ≡ Order.finish (seen_draft self) }
    {
        match self {
            Draft::WithRows(sense, cost, rows) => {
                if rows.is_empty() {
                    None
                } else {
                    Some(Report::Best {
                        sense,
                        cost,
                        rows,
                        prices: None,
                    })
                }
            }
            Draft::WithPrices(sense, cost, rows, prices) => {
                if prices.len() == rows.len() {
                    Some(Report::Best {
                        sense,
                        cost,
                        rows,
                        prices: Some(prices),
                    })
                } else {
                    None
                }
            }
            Draft::WithObjects(sense, persons, objects) => Some(Report::Hall {
                sense,
                persons,
                objects,
            }),
            _ => None,
        }
    }
}
