// Problems worked by hand.
use super::held::Held;
use count_search::{Found, Problem, Record};
use std::test::Fail;

// Three pupils and two projects of one and two places. All want the first most, and the last one by the
// most: 4 + 6 + 1.
#[test]
fn pupils_and_projects(rt: HostRuntime) -> Result<(), Fail> {
    let problem = Problem {
        starts: &[0, 2, 4, 6],
        columns: &[0, 1, 0, 1, 0, 1],
        costs: &[1, 4, 2, 6, 1, 9],
        row_least: &[1, 1, 1],
        row_most: &[1, 1, 1],
        column_least: &[0, 0],
        column_most: &[1, 2],
        groups: &[],
    };
    let mut held = Held::new(rt.alloc(), 6, 3, 2)?;
    let mut record = Record::cold();
    let found = held.call(rt.alloc(), &problem, 0, &mut record)?;
    assert!(rt; matches!(found, Found::Plan));
    assert_eq!(rt; held.plan.as_slice(), [0u8, 1, 0, 1, 1, 0].as_slice());
    Ok(())
}

// A nurse may take two of four shifts, and one of a day: the cheapest of each day.
#[test]
fn one_shift_of_a_day(rt: HostRuntime) -> Result<(), Fail> {
    let problem = Problem {
        starts: &[0, 4],
        columns: &[0, 1, 2, 3],
        costs: &[-5, -6, -1, -2],
        row_least: &[2],
        row_most: &[2],
        column_least: &[0, 0, 0, 0],
        column_most: &[1, 1, 1, 1],
        groups: &[1, 1, 2, 2],
    };
    let mut held = Held::new(rt.alloc(), 4, 1, 4)?;
    let mut record = Record::cold();
    let found = held.call(rt.alloc(), &problem, 0, &mut record)?;
    assert!(rt; matches!(found, Found::Plan));
    assert_eq!(rt; held.plan.as_slice(), [0u8, 1, 0, 1].as_slice());
    Ok(())
}

// Rows 0 and 1 list column 0 alone, which takes one.
#[test]
fn two_rows_for_one_place(rt: HostRuntime) -> Result<(), Fail> {
    let problem = Problem {
        starts: &[0, 1, 2, 4],
        columns: &[0, 0, 0, 1],
        costs: &[1, 1, 1, 1],
        row_least: &[1, 1, 1],
        row_most: &[1, 1, 1],
        column_least: &[0, 0],
        column_most: &[1, 5],
        groups: &[],
    };
    let mut held = Held::new(rt.alloc(), 4, 3, 2)?;
    let mut record = Record::cold();
    let found = held.call(rt.alloc(), &problem, 0, &mut record)?;
    assert!(rt; matches!(found, Found::RowsLack));
    assert_eq!(rt; held.column_marks.as_slice(), [1u8, 0].as_slice());
    assert_eq!(rt; held.row_marks.as_slice(), [1u8, 1, 0].as_slice());
    Ok(())
}

// Both columns need a row that takes one of them.
#[test]
fn one_row_for_two_columns(rt: HostRuntime) -> Result<(), Fail> {
    let problem = Problem {
        starts: &[0, 2],
        columns: &[0, 1],
        costs: &[1, 1],
        row_least: &[0],
        row_most: &[1],
        column_least: &[1, 1],
        column_most: &[1, 1],
        groups: &[],
    };
    let mut held = Held::new(rt.alloc(), 2, 1, 2)?;
    let mut record = Record::cold();
    let found = held.call(rt.alloc(), &problem, 0, &mut record)?;
    assert!(rt; matches!(found, Found::ColumnsLack));
    Ok(())
}
