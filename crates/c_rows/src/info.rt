// What a call returns and records.
ghost use Rattle.std.specs.Prelude.{◌≡◌};
ghost use Rattle.c_rows.specs.Codes.{code_of, cost_after, place_after, place_of_fault};

use super::answer::Answer;
use row_checker::Fault;

/// The record of a call. Each call writes only the field that belongs to its answer.
#[repr(C)]
#[derive(Clone, Copy)]
pub struct RowsInfo {
    /// The plan's sum in the last row.
    pub cost: i64,
    /// The place of what the code names.
    pub place: u64,
}

// The code of a fault of the tree.
fn code_of_fault(fault: Fault) -> i32
    ensures { result ≡ code_of (Answer.Not fault) }
{
    match fault {
        Fault::NotShown(_) => 1,
        Fault::TooGreat(_) => 2,
        Fault::TooDeep(_) => 3,
        Fault::Shape(_) => 4,
        Fault::Row(_) => 5,
        Fault::Variable(_) => 6,
    }
}

// The code of an answer.
fn code_of(answer: Answer) -> i32
    ensures { result ≡ code_of answer }
{
    match answer {
        Answer::Shown => 0,
        Answer::Costs(_) => 0,
        Answer::Not(fault) => code_of_fault(fault),
        Answer::Length => 7,
        Answer::Start(_) => 8,
        Answer::CostRow => 14,
        Answer::RowVariable(_) => 9,
        Answer::PlanNumber(_) => 10,
        Answer::Broken(_) => 11,
        Answer::Cost => 12,
        Answer::Memory => 13,
    }
}

// The place of a fault of the tree.
fn place_of_fault(fault: Fault) -> usize
    ensures { result ≡ place_of_fault fault }
{
    match fault {
        Fault::NotShown(place) => place,
        Fault::TooGreat(place) => place,
        Fault::TooDeep(place) => place,
        Fault::Shape(place) => place,
        Fault::Row(place) => place,
        Fault::Variable(place) => place,
    }
}

// The place after an answer.
fn place_after(before: u64, answer: Answer) -> u64
    ensures { result ≡ place_after before answer }
{
    match answer {
        Answer::Not(fault) => place_of_fault(fault) as u64,
        Answer::Start(place) => place as u64,
        Answer::RowVariable(place) => place as u64,
        Answer::PlanNumber(place) => place as u64,
        Answer::Broken(place) => place as u64,
        _ => before,
    }
}

// The cost after an answer.
fn cost_after(before: i64, answer: Answer) -> i64
    ensures { result ≡ cost_after before answer }
{
    match answer {
        Answer::Costs(cost) => cost,
        _ => before,
    }
}

/// The code of an answer. Records its place or its cost, if it has one.
pub fn report(answer: Answer, info: &mut RowsInfo) -> i32
    ensures code { result ≡ code_of answer }
    ensures info { info.new ≡ record {
      cost = cost_after info.old.cost answer;
      place = place_after info.old.place answer;
    } }
{
    info.cost = cost_after(info.cost, answer);
    info.place = place_after(info.place, answer);
    code_of(answer)
}
