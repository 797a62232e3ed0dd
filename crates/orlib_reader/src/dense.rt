// The numbers of a dense text, kept as rows.
ghost use Rattle.std.specs.Prelude.{◌≡◌, ℤ, pos, ◌<◌, ◌≤◌, List, [], ◌∷◌, ◌++◌, Some, map, length, IfOk, OnOk, OnErr, if◌then◌else◌};
ghost use Rattle.assign_core.specs.Rows.{IsCost, IsSize};
ghost use Rattle.orlib_reader.specs.Texts.{wanted_in, ended, Gives, Meets};
ghost use Rattle.orlib_reader.specs.inside.Steps.{with_token};
ghost use Rattle.orlib_reader.specs.Wanted;
ghost use Rattle.orlib_reader.specs.inside.Kept.{IsKept, kept_costs, kept_numbers};
ghost use Rattle.orlib_reader.specs.declared.layout.Layout.TheVariants.{Dense};

use super::fault::InputFault;
use super::token::{OpenToken, VALUE_LIMIT};
use assign_core::{Cost, Object, Problem};
use std::alloc::{AllocError, Global};
use std::marker::Model;
use std::mem;

type Row = Vec<(Object, Cost)>;

// The size, whole rows, and the row that is being filled. Each row takes its room at its first
// cost.
#[derive(Drop)]
pub struct DenseRows {
    alloc: Global,
    n: u16,
    rows: Vec<Row>,
    row: Row,
}

impl Model for DenseRows {
    ghost Value = { List ℤ };

    ghost view = { λ d. kept_numbers d.n (map (λ r. r.items) d.rows.items) d.row.items };

    ghost invariant = { λ d. IsKept d.n (map (λ r. r.items) d.rows.items) d.row.items };
}

// Takes the room for a row at its first cost.
fn take_room(alloc: Global, n: u16, row: &mut Row) -> Result<(), AllocError>
    ensures { row.new.items ≡ row.old.items }
{
    if row.is_empty() {
        *row = Vec::with_capacity(alloc, n as usize)?;
    }
    Ok(())
}

// Adds a cost to the row, and adds the row to the others if it is full.
#[inline(always)]
fn add_cost(
    alloc: Global,
    n: u16,
    rows: &mut Vec<Row>,
    row: &mut Row,
    cost: Cost,
) -> Result<(), AllocError>
    requires kept { IsKept n (map (λ r. r.items) rows.old.items) row.old.items }
    requires room { length rows.old.items < n }
    requires cost { IsCost cost }
    ensures kept { IsKept n (map (λ r. r.items) rows.new.items) row.new.items }
    ensures costs { OnOk result (kept_costs (map (λ r. r.items) rows.new.items) row.new.items
        ≡ kept_costs (map (λ r. r.items) rows.old.items) row.old.items ++ cost ∷ []) }
    ensures err { OnErr result (
        length (kept_costs (map (λ r. r.items) rows.new.items) row.new.items)
        ≤ length (kept_costs (map (λ r. r.items) rows.old.items) row.old.items)) }
{
    take_room(alloc, n, row)?;
    row.push((Object(row.len() as u16 + 1), cost))?;
    if row.len() == n as usize {
        let full = mem::replace(row, Vec::new(alloc));
        rows.push(full)?;
    }
    Ok(())
}

impl DenseRows {
    // The size alone.
    pub fn new(alloc: Global, n: u16) -> Result<DenseRows, AllocError>
        requires { IsSize n }
        ensures { IfOk result (λ rows. rows ≡ pos n ∷ []) }
    {
        Ok(DenseRows {
            alloc,
            n,
            rows: Vec::with_capacity(alloc, n as usize)?,
            row: Vec::new(alloc),
        })
    }

    // Whether all costs have come.
    pub fn are_full(&self) -> bool
        ensures { wanted_in Dense self.now ≡ (if result then Wanted.Nothing else Wanted.Cost) }
    {
        self.rows.len() >= self.n as usize
    }

    // Takes a cost.
    #[inline(always)]
    fn take_cost(&mut self, cost: Cost) -> Result<(), AllocError>
        requires wanted { wanted_in Dense self.old ≡ Wanted.Cost }
        requires cost { IsCost cost }
        ensures ok { OnOk result (self.new ≡ self.old ++ cost ∷ []) }
        ensures err { OnErr result (length self.new ≤ length self.old) }
    {
        add_cost(self.alloc, self.n, &mut self.rows, &mut self.row, cost)
    }

    // Takes a token that has ended.
    #[inline(always)]
    pub fn take(&mut self, token: OpenToken) -> Result<(), InputFault>
        requires { token.value ≤ VALUE_LIMIT }
        ensures found { Gives (λ _. self.new) result (with_token Dense (Some token) self.old) }
        ensures err { OnErr result (length self.new ≤ length self.old) }
    {
        if self.are_full() {
            return Err(InputFault::Extra(token.place));
        }
        let cost = token.cost()?;
        self.take_cost(cost)?;
        Ok(())
    }

    // How many numbers have come, with the size.
    fn count(&self) -> u64
        ensures { result ≡ length self.now }
    {
        1 + self.rows.len() as u64 * u64::from(self.n) + self.row.len() as u64
    }

    // The problem, at the end of the text.
    pub fn finish(self) -> Result<Problem, InputFault>
        ensures { Meets Dense result (ended Dense self) }
    {
        if self.rows.len() < self.n as usize {
            return Err(InputFault::Truncated(self.count()));
        }
        Ok(Problem::from_rows(self.rows))
    }
}
