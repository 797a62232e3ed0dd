// Rows.
ghost use Rattle.std.specs.Prelude.{◌≡◌, map};
ghost use Rattle.row_checker.specs.Rows.{row_at, row_in, side_of};

/// A variable of a row, or a row of a leaf, by its number from 0, and how many times it is taken.
#[derive(Clone, Copy)]
pub struct Multiple {
    pub of: usize,
    pub times: i64,
}

/// A row: the sum of its terms over the chosen variables is at least `least` and at most `most`,
/// where these are given.
#[derive(Drop)]
pub struct Row {
    pub least: Option<i64>,
    pub most: Option<i64>,
    pub terms: Vec<Multiple>,
}

// The bound that holds for so many times the row: 0 for no times.
fn side(row: &Row, times: i64) -> Option<i64>
    ensures { result ≡ side_of (row_in row.now) times }
{
    if times == 0 {
        Some(0)
    } else if times > 0 {
        row.least
    } else {
        row.most
    }
}

/// The bound that holds for a multiple of a row; `None` where the row or its bound isn't there.
pub fn side_at(rows: &[Row], multiple: Multiple) -> Option<i64>
    ensures { result ≡ side_of (row_at (map row_in rows.now) multiple.of) multiple.times }
{
    if multiple.times == 0 {
        return Some(0);
    }
    if multiple.of < rows.len() {
        side(&rows[multiple.of], multiple.times)
    } else {
        None
    }
}

/// The terms of a row; none where the row isn't there.
pub fn terms_at(rows: &[Row], place: usize) -> &[Multiple]
    ensures { result.now ≡ (row_at (map row_in rows.now) place).terms }
{
    if place < rows.len() {
        rows[place].terms.as_slice()
    } else {
        &[]
    }
}
