// The call on rows, as `c/nushbaret.h` declares it.
ghost use Rattle.c_rows.specs.Reports.{IsReported};

use c_rows::{Input, RowsInfo, answer_on, report};
use std::alloc::Global;

/// Checks a tree that is to show that no plan meets the rows, and a plan, if one is given.
#[unsafe(no_mangle)]
pub extern "C" fn nushbaret_rows(
    alloc: Global,
    n: usize,
    starts: &[usize],
    variables: &[u32],
    coefficients: &[i64],
    least: &[i64],
    most: &[i64],
    plan: &[u8],
    tree: &[i64],
    info: &mut RowsInfo,
) -> i32
    ensures { IsReported (record {
      n = n;
      starts = starts.now;
      variables = variables.now;
      coefficients = coefficients.now;
      least = least.now;
      most = most.now;
      plan = plan.now;
      tree = tree.now;
    }) info.old info.new result }
{
    let input = Input {
        n,
        starts,
        variables,
        coefficients,
        least,
        most,
        plan,
        tree,
    };
    report(answer_on(alloc, &input), info)
}
