// The lines of a report.
ghost use Rattle.std.specs.Prelude.{◌≡◌, IfOk};
ghost use Rattle.std.specs.Option.{option_map};
ghost use Rattle.report.specs.inside.Reading.{read_assign, read_behind, read_cost, read_infeasible};
ghost use Rattle.report.specs.inside.Reading.{read_objects, read_persons, read_price, read_sense};
ghost use Rattle.report.specs.inside.Reading;
ghost use Rattle.report.specs.inside.SeenLines.{seen_line};

use crate::lists::list_in;
use crate::words::Words;
use assign_core::{Cost, Object, Person, Price, Sense};
use std::alloc::{AllocError, Global};

/// The content of a line.
#[derive(Drop)]
pub enum Line {
    Sense(Sense),
    Cost(Cost),
    Assign(u16, Object, Cost),
    Price(u16, Price),
    Infeasible,
    Persons(Vec<Person>),
    Objects(Vec<Object>),
}

#[tactic(auto, unfolding(crate::specs::inside::Reading::read_sense))]
fn sense_line(words: &mut Words) -> Option<Line>
    ensures { option_map seen_line result ≡ read_sense words.old }
{
    let sense = words.sense()?;
    if !words.is_at_end() {
        return None;
    }
    Some(Line::Sense(sense))
}

#[tactic(auto, unfolding(crate::specs::inside::Reading::read_cost))]
fn cost_line(words: &mut Words) -> Option<Line>
    ensures { option_map seen_line result ≡ read_cost words.old }
{
    let cost = words.cost()?;
    if !words.is_at_end() {
        return None;
    }
    Some(Line::Cost(cost))
}

#[tactic(auto, unfolding(crate::specs::inside::Reading::read_assign))]
fn assign_line(words: &mut Words) -> Option<Line>
    ensures { option_map seen_line result ≡ read_assign words.old }
{
    let person = words.number()?;
    let object = words.number()?;
    let cost = words.cost()?;
    if !words.is_at_end() {
        return None;
    }
    Some(Line::Assign(person, Object(object), cost))
}

#[tactic(auto, unfolding(crate::specs::inside::Reading::read_price))]
fn price_line(words: &mut Words) -> Option<Line>
    ensures { option_map seen_line result ≡ read_price words.old }
{
    let object = words.number()?;
    let price = words.price()?;
    if !words.is_at_end() {
        return None;
    }
    Some(Line::Price(object, price))
}

#[tactic(auto, unfolding(crate::specs::inside::Reading::read_infeasible))]
fn infeasible_line(words: &mut Words) -> Option<Line>
    ensures { option_map seen_line result ≡ read_infeasible words.old }
{
    if words.is_at_end() {
        Some(Line::Infeasible)
    } else {
        None
    }
}

fn persons_line(alloc: Global, words: &mut Words) -> Result<Option<Line>, AllocError>
    ensures { IfOk result (λ x. option_map seen_line x ≡ read_persons words.old) }
{
    let Some(persons) = list_in(alloc, words)? else {
        return Ok(None);
    };
    Ok(Some(Line::Persons(persons)))
}

fn objects_line(alloc: Global, words: &mut Words) -> Result<Option<Line>, AllocError>
    ensures { IfOk result (λ x. option_map seen_line x ≡ read_objects words.old) }
{
    let Some(objects) = list_in(alloc, words)? else {
        return Ok(None);
    };
    Ok(Some(Line::Objects(objects)))
}

// The line with this first word and the words after it.
fn line_behind(alloc: Global, word: &[u8], words: &mut Words) -> Result<Option<Line>, AllocError>
    ensures { IfOk result (λ x. option_map seen_line x ≡ read_behind word.now words.old) }
{
    if word == b"sense".as_slice() {
        Ok(sense_line(words))
    } else if word == b"cost".as_slice() {
        Ok(cost_line(words))
    } else if word == b"assign".as_slice() {
        Ok(assign_line(words))
    } else if word == b"price".as_slice() {
        Ok(price_line(words))
    } else if word == b"infeasible".as_slice() {
        Ok(infeasible_line(words))
    } else if word == b"persons".as_slice() {
        persons_line(alloc, words)
    } else if word == b"objects".as_slice() {
        objects_line(alloc, words)
    } else {
        Ok(None)
    }
}

/// The line that these bytes are, if they are one.
#[tactic(auto, unfolding(crate::specs::inside::Reading::line_in))]
pub fn line_in(alloc: Global, bytes: &[u8]) -> Result<Option<Line>, AllocError>
    ensures { IfOk result (λ x. option_map seen_line x ≡ Reading.line_in bytes.now) }
{
    let mut words = Words::new(bytes);
    let Some(word) = words.next() else {
        return Ok(None);
    };
    line_behind(alloc, word, &mut words)
}
