// Searches in pieces, between which an observer hears how far they are.
use super::observer::Observer;
use dense_search::DenseProblem;
use search_base::NOBODY;
use sparse_search::{HallSet, SparseProblem};
use std::alloc::{AllocError, Global};

// The most pieces. A search that takes more goes on without a stop.
const PIECES: usize = 1 << 12;

/// The end of a piece.
#[derive(Drop)]
pub enum PieceEnd {
    /// Each person has an object, at exact prices.
    Best,
    /// There is no assignment.
    Hall(HallSet),
    /// The search goes on in the next piece.
    Stopped,
    /// Nothing was found.
    Lost,
}

/// What a search reads and writes: a price for each object, in the unit of the costs, and an object
/// for each person.
#[derive(Drop)]
pub struct State {
    pub prices: Vec<i64>,
    pub objects: Vec<u32>,
}

impl State {
    /// Nobody has an object, at these prices.
    pub fn at(alloc: Global, prices: Vec<i64>, n: u16) -> Result<State, AllocError> {
        Ok(State {
            prices,
            objects: vec![in alloc; NOBODY; n as usize]?,
        })
    }

    // The number of persons who have an object.
    fn assigned(&self) -> u16 {
        let count = self
            .objects
            .iter()
            .filter(|object| **object != NOBODY)
            .count();
        u16::try_from(count).unwrap_or(u16::MAX)
    }
}

/// A search that can stop and go on.
pub trait Pieces {
    /// Goes on for about so many looks at pairs; 0: to the end.
    fn go_on(
        &mut self,
        alloc: Global,
        state: &mut State,
        arc_scans: u64,
    ) -> Result<PieceEnd, AllocError>;
}

/// The search over the costs of persons who list each object.
#[derive(Drop)]
pub struct DensePieces<'a> {
    pub problem: DenseProblem<'a>,
    pub record: dense_search::Record,
}

impl Pieces for DensePieces<'_> {
    fn go_on(
        &mut self,
        alloc: Global,
        state: &mut State,
        arc_scans: u64,
    ) -> Result<PieceEnd, AllocError> {
        let prices = state.prices.as_mut_slice();
        let objects = state.objects.as_mut_slice();
        let record = &mut self.record;
        let end = dense_search::search(alloc, self.problem, prices, objects, record, arc_scans)?;
        Ok(match end {
            dense_search::Outcome::Best => PieceEnd::Best,
            dense_search::Outcome::Stopped => PieceEnd::Stopped,
            dense_search::Outcome::Lost => PieceEnd::Lost,
        })
    }
}

/// The search over listed pairs.
#[derive(Drop)]
pub struct SparsePieces<'a> {
    pub problem: SparseProblem<'a>,
    pub record: sparse_search::Record,
}

impl Pieces for SparsePieces<'_> {
    fn go_on(
        &mut self,
        alloc: Global,
        state: &mut State,
        arc_scans: u64,
    ) -> Result<PieceEnd, AllocError> {
        let prices = state.prices.as_mut_slice();
        let objects = state.objects.as_mut_slice();
        let record = &mut self.record;
        let end = sparse_search::search(alloc, self.problem, prices, objects, record, arc_scans)?;
        Ok(match end {
            sparse_search::Outcome::Best => PieceEnd::Best,
            sparse_search::Outcome::Hall(set) => PieceEnd::Hall(set),
            sparse_search::Outcome::Stopped => PieceEnd::Stopped,
            sparse_search::Outcome::Lost => PieceEnd::Lost,
        })
    }
}

/// All pieces of a search, of so many arc scans each. The observer is called before and after each.
pub fn run_pieces<P: Pieces, O: Observer>(
    alloc: Global,
    search: &mut P,
    state: &mut State,
    arc_scans: u64,
    observer: &O,
) -> Result<PieceEnd, AllocError> {
    observer.assigned(0);
    for _piece in 0..PIECES {
        let end = search.go_on(alloc, state, arc_scans)?;
        observer.assigned(state.assigned());
        match end {
            PieceEnd::Stopped => {}
            end => return Ok(end),
        }
    }
    search.go_on(alloc, state, 0)
}
