// Rows out of lists.
ghost use Rattle.std.specs.Prelude.{◌≡◌, ◌-◌, ◌+◌, ◌<◌, ◌^◌, IfOk, map};
ghost use Rattle.row_checker.specs.Rows.{row_in};
ghost use Rattle.c_rows.specs.Lists.{terms_from};
ghost use Rattle.c_rows.specs.Input.{row_of, rows_of};

use super::input::Input;
use super::lists::{bound_above, bound_below, natural_at, variable_at, whole_at};
use row_checker::{Multiple, Row};
use std::alloc::{AllocError, Global};

// So many terms from a place on.
fn terms_from(
    alloc: Global,
    variables: &[u32],
    coefficients: &[i64],
    from: usize,
    count: usize,
) -> Result<Vec<Multiple>, AllocError>
    requires { from + count < 2 ^ 64 }
    ensures { IfOk result (λ terms. terms.items ≡ terms_from variables.now coefficients.now from count) }
{
    let mut terms = Vec::new(alloc);
    for i in 0..count {
        let place = from + i;
        terms.push(Multiple {
            of: variable_at(variables, place) as usize,
            times: whole_at(coefficients, place),
        })?;
    }
    Ok(terms)
}

// Row r.
fn row_of(alloc: Global, input: &Input<'_>, r: usize) -> Result<Row, AllocError>
    requires { r < 2 ^ 63 }
    ensures { IfOk result (λ row. row_in row ≡ row_of input.now r) }
{
    let from = natural_at(input.starts, r);
    let count = natural_at(input.starts, r + 1).saturating_sub(from);
    let terms = terms_from(alloc, input.variables, input.coefficients, from, count)?;
    Ok(Row {
        least: bound_below(whole_at(input.least, r)),
        most: bound_above(whole_at(input.most, r)),
        terms,
    })
}

/// The first rows.
pub fn rows_of(alloc: Global, input: &Input<'_>, count: usize) -> Result<Vec<Row>, AllocError>
    requires { count < 2 ^ 63 }
    ensures { IfOk result (λ rows. map row_in rows.items ≡ rows_of input.now count) }
{
    let mut rows = Vec::new(alloc);
    for r in 0..count {
        rows.push(row_of(alloc, input, r)?)?;
    }
    Ok(rows)
}
