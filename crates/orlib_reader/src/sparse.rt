// The numbers of a sparse text, kept as triples of 16 bytes. They are held in pieces of one size: a
// single list would hold the old and the new triples while it grows.
ghost use Rattle.std.specs.Prelude.{◌≡◌, ℤ, pos, ◌≤◌, List, [], ◌∷◌, ◌++◌, Some, All, map, length, OnOk, OnErr, IfOk};
ghost use Rattle.assign_core.specs.Rows.{IsCost, IsSize};
ghost use Rattle.assign_core.specs.Sparse.{IsTriple, IsSparse};
ghost use Rattle.orlib_reader.specs.Texts.{ended, Gives, Meets};
ghost use Rattle.orlib_reader.specs.inside.Steps.{with_token};
ghost use Rattle.orlib_reader.specs.inside.Gathered.{gathered, sparse_numbers, IsGathered};
ghost use Rattle.orlib_reader.specs.declared.layout.Layout.TheVariants.{Sparse};

use super::fault::InputFault;
use super::machine::TEXT_LIMIT;
use super::token::{OpenToken, VALUE_LIMIT};
use assign_core::{Cost, Object, Person, Problem};
use std::alloc::{AllocError, Global};
use std::collections::VecDeque;
use std::marker::Model;
use std::mem;

const PIECE_LENGTH: usize = 4096;

type Triple = (Person, Object, Cost);

// The numbers of a triple that has begun: none, a person, or a person and an object.
#[derive(Clone, Copy)]
enum Begun {
    Nothing,
    Person(u16),
    Pair(u16, u16),
}

// The size, whole triples, and the triple that has begun.
#[derive(Drop)]
pub struct Triples {
    alloc: Global,
    n: u16,
    pieces: VecDeque<Vec<Triple>>,
    piece: Vec<Triple>,
    begun: Begun,
}

impl Model for Triples {
    ghost Value = { List ℤ };

    ghost view = { λ t.
        sparse_numbers t.n (gathered (map (λ p. p.items) t.pieces.items) t.piece.items) t.begun };

    ghost invariant = { λ t.
        IsGathered t.n (map (λ p. p.items) t.pieces.items) t.piece.items t.begun };
}

// Begins a new piece.
#[cold]
fn move_piece(
    alloc: Global,
    pieces: &mut VecDeque<Vec<Triple>>,
    piece: &mut Vec<Triple>,
) -> Result<(), AllocError>
    ensures pieces { OnOk result (map (λ p. p.items) pieces.new.items
        ≡ map (λ p. p.items) pieces.old.items ++ piece.old.items ∷ []) }
    ensures piece { OnOk result (piece.new.items ≡ []) }
    ensures kept { OnErr result (map (λ p. p.items) pieces.new.items
        ≡ map (λ p. p.items) pieces.old.items) }
    ensures same { OnErr result (piece.new.items ≡ piece.old.items) }
{
    let fresh = Vec::with_capacity(alloc, PIECE_LENGTH)?;
    let full = mem::replace(piece, fresh);
    if let Err(failed) = pieces.push_back(full) {
        *piece = failed.value;
        return Err(AllocError);
    }
    Ok(())
}

// Adds a triple at the end.
#[inline(always)]
fn add_triple(
    alloc: Global,
    pieces: &mut VecDeque<Vec<Triple>>,
    piece: &mut Vec<Triple>,
    triple: Triple,
) -> Result<(), AllocError>
    requires { All (λ p. length p ≡ PIECE_LENGTH) (map (λ p. p.items) pieces.old.items) }
    ensures full { All (λ p. length p ≡ PIECE_LENGTH) (map (λ p. p.items) pieces.new.items) }
    ensures ok { OnOk result (gathered (map (λ p. p.items) pieces.new.items) piece.new.items
        ≡ gathered (map (λ p. p.items) pieces.old.items) piece.old.items ++ triple ∷ []) }
    ensures err { OnErr result (gathered (map (λ p. p.items) pieces.new.items) piece.new.items
        ≡ gathered (map (λ p. p.items) pieces.old.items) piece.old.items) }
{
    if piece.len() == PIECE_LENGTH {
        move_piece(alloc, pieces, piece)?;
    }
    piece.push(triple)?;
    Ok(())
}

// The number of triples.
fn total(pieces: &VecDeque<Vec<Triple>>, piece: &Vec<Triple>) -> usize
    requires full { All (λ p. length p ≡ PIECE_LENGTH) (map (λ p. p.items) pieces.now.items) }
    requires few { length (gathered (map (λ p. p.items) pieces.now.items) piece.now.items) ≤ TEXT_LIMIT }
    ensures { result ≡ length (gathered (map (λ p. p.items) pieces.now.items) piece.now.items) }
{
    pieces.len() * PIECE_LENGTH + piece.len()
}

// The pieces in one list. Each piece is freed once it is copied.
fn joined(
    alloc: Global,
    count: usize,
    pieces: VecDeque<Vec<Triple>>,
    last: Vec<Triple>,
) -> Result<Vec<Triple>, AllocError>
    ensures { IfOk result (λ v. v.items ≡ gathered (map (λ p. p.items) pieces.items) last.items) }
{
    let mut all = Vec::with_capacity(alloc, count)?;
    let mut left = pieces;
    while let Some(piece) = left.pop_front() {
        all.extend_from_slice(piece.as_slice())?;
    }
    all.extend_from_slice(last.as_slice())?;
    Ok(all)
}

// The problem of the triples.
fn made(
    alloc: Global,
    n: u16,
    count: usize,
    pieces: VecDeque<Vec<Triple>>,
    last: Vec<Triple>,
) -> Result<Problem, AllocError>
    requires size { IsSize n }
    requires triples { All (IsTriple n) (gathered (map (λ p. p.items) pieces.items) last.items) }
    ensures { IfOk result (λ problem.
        IsSparse n (gathered (map (λ p. p.items) pieces.items) last.items) problem) }
{
    let triples = joined(alloc, count, pieces, last)?;
    Problem::sparse(alloc, n, triples.as_slice())
}

impl Triples {
    // The size alone.
    pub fn new(alloc: Global, n: u16) -> Triples
        requires { IsSize n }
        ensures { result ≡ pos n ∷ [] }
    {
        Triples {
            alloc,
            n,
            pieces: VecDeque::new(alloc),
            piece: Vec::new(alloc),
            begun: Begun::Nothing,
        }
    }

    // Takes a token that has ended.
    #[inline(always)]
    pub fn take(&mut self, token: OpenToken) -> Result<(), InputFault>
        requires { token.value ≤ VALUE_LIMIT }
        ensures found { Gives (λ _. self.new) result (with_token Sparse (Some token) self.old) }
        ensures err { OnErr result (length self.new ≤ length self.old) }
    {
        match self.begun {
            Begun::Nothing => {
                let person = token.index(self.n)?;
                self.begun = Begun::Person(person);
            }
            Begun::Person(person) => {
                let object = token.index(self.n)?;
                self.begun = Begun::Pair(person, object);
            }
            Begun::Pair(person, object) => {
                let triple = (Person(person), Object(object), token.cost()?);
                add_triple(self.alloc, &mut self.pieces, &mut self.piece, triple)?;
                self.begun = Begun::Nothing;
            }
        }
        Ok(())
    }

    // The problem, at the end of the text.
    pub fn finish(self) -> Result<Problem, InputFault>
        requires { length self ≤ TEXT_LIMIT }
        ensures { Meets Sparse result (ended Sparse self) }
    {
        let count = total(&self.pieces, &self.piece);
        match self.begun {
            Begun::Nothing => Ok(made(self.alloc, self.n, count, self.pieces, self.piece)?),
            Begun::Person(_) => Err(InputFault::Truncated(count as u64 * 3 + 2)),
            Begun::Pair(_, _) => Err(InputFault::Truncated(count as u64 * 3 + 3)),
        }
    }
}
